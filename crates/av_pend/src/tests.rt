use crate::again::Again;
use crate::answer::Answer;
use crate::pended_open::PendedOpen;
use av_base::{Cause, Generation, Mode, OpenId, StreamId, Version};
use std::test::Fail;

fn waiting() -> PendedOpen {
    PendedOpen::new(OpenId::new(1), StreamId::new(7), Version::new(0))
}

#[test]
fn each_answer_is_for_the_open_that_waited(rt: HostRuntime) -> Result<(), Fail> {
    let open_id = OpenId::new(1);
    let stream = StreamId::new(7);
    let generation = Generation::new(3);
    assert_eq!(rt;
        waiting().deny(Cause::StreamRemoved),
        Answer::Denied {
            open_id,
            cause: Cause::StreamRemoved
        }
    );
    assert_eq!(rt;
        waiting().refuse(Mode::FailClosed, generation, Cause::TimedOut),
        Answer::Denied {
            open_id,
            cause: Cause::TimedOut
        }
    );
    assert_eq!(rt;
        waiting().refuse(Mode::FailOpen, generation, Cause::TimedOut),
        Answer::Unscanned {
            open_id,
            stream,
            generation,
            cause: Cause::TimedOut
        }
    );
    Ok(())
}

// What is left of an open after so many tries to wait again, as (is it held, its rescans).
fn tried(times: u64) -> (bool, u8) {
    let mut pended = waiting();
    let mut held = true;
    for _ in 0..times {
        (pended, held) = match pended.again() {
            Again::Held(later) => (later, true),
            Again::Spent(same) => (same, false),
        };
    }
    let rescans = pended.rescans();
    let _ = pended.deny(Cause::Unsettled);
    (held, rescans)
}

#[test]
fn the_ninth_rescan_is_one_too_many(rt: HostRuntime) -> Result<(), Fail> {
    assert_eq!(rt; tried(0), (true, 0));
    assert_eq!(rt; tried(8), (true, 8));
    assert_eq!(rt; tried(9), (false, 8));
    Ok(())
}

#[test]
fn a_grant_says_under_which_version(rt: HostRuntime) -> Result<(), Fail> {
    let (open_id, stream) = (OpenId::new(4), StreamId::new(7));
    let (least, generation, version) = (Version::new(2), Generation::new(3), Version::new(5));
    let pended = PendedOpen::new(open_id, stream, least);
    let read = (
        pended.open_id(),
        pended.stream(),
        pended.least(),
        pended.rescans(),
    );
    let answer = pended.grant(generation, version);
    assert_eq!(rt; read, (open_id, stream, least, 0));
    assert_eq!(rt;
        answer,
        Answer::Granted {
            open_id,
            least,
            stream,
            generation,
            version
        }
    );
    Ok(())
}
