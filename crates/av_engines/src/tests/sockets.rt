// Both engines at the two ends of a pair of sockets, each in a thread of its own.
use crate::tests::sides::{served, watched_opens};
use crate::tests::told::{denied, granted};
use crate::watching::Watched;
use av_base::{Cause, StreamId};
use av_frame::End;
use av_pend::Answer;
use std::alloc::Global;
use std::net::Shutdown;
use std::os::unix::net::UnixStream;
use std::test::Fail;
use std::thread;

// What the filter's engine came to with these opens. It closes its side.
fn watch(alloc: Global, opens: &[StreamId], stream: &UnixStream) -> Option<Watched> {
    let mut reader = stream;
    let mut writer = stream;
    let run = watched_opens(alloc, opens, &mut reader, &mut writer, 1_000);
    let _ = stream.shutdown(Shutdown::Both);
    run.ok()
}

// The end of the service's engine, with so many reads. It says no more then, and its side stays open for what comes.
fn serve(alloc: Global, stream: UnixStream, turns: u64) -> (Option<End>, UnixStream) {
    let mut reader = &stream;
    let mut writer = &stream;
    let end = served(alloc, &mut reader, &mut writer, turns);
    let _ = stream.shutdown(Shutdown::Write);
    (end.ok(), stream)
}

fn is_run(run: &Option<Watched>, end: End, answers: &[Answer]) -> bool {
    match run {
        Some(run) => run.end == end && run.answers.as_slice() == answers,
        None => false,
    }
}

#[test]
fn each_open_is_answered_over_two_sockets(rt: HostRuntime) -> Result<(), Fail> {
    let alloc = rt.alloc();
    let (ours, theirs) = UnixStream::pair(&rt)?;
    // Two of stream 1, which is clean; one of stream 2, which has the pattern; one of no stream.
    let opens = [1, 7, 2, 1].map(StreamId::new);
    let ((end, _theirs), run) = thread::join(
        &rt,
        move || serve(alloc, theirs, 1_000),
        move || watch(alloc, &opens, &ours),
    );
    let answers = [
        denied(2, Cause::NoStream),
        granted(1, 1),
        granted(4, 1),
        denied(3, Cause::Infected),
    ];
    assert!(&rt; is_run(&run, End::Done, &answers));
    assert_eq!(&rt; end, Some(End::Closed));
    Ok(())
}

#[test]
fn an_open_is_denied_when_its_service_says_no_more(rt: HostRuntime) -> Result<(), Fail> {
    let alloc = rt.alloc();
    let (ours, theirs) = UnixStream::pair(&rt)?;
    let opens = [StreamId::new(1)];
    let ((end, _theirs), run) = thread::join(
        &rt,
        move || serve(alloc, theirs, 0),
        move || watch(alloc, &opens, &ours),
    );
    let answers = [denied(1, Cause::PortDisconnected)];
    assert!(&rt; is_run(&run, End::Closed, &answers));
    assert_eq!(&rt; end, Some(End::ReadFault));
    Ok(())
}
