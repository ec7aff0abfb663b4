// Threads that share a desk.
use crate::tests::calls;
use crate::tests::rows::{JUDGED_TWICE, judged_twice};
use crate::tests::said::{Said, told};
use crate::{Desk, Lent, Taken};
use av_base::{Refused, Verdict};
use av_fakes::{may_refuse, refuse_no_more};
use av_frame::Message;
use std::alloc::{AllocError, Global};
use std::process::Abort;
use std::sync::Wait;
use std::test::Fail;
use std::thread;
use std::thread::Threads;

// Waits for messages until none comes any more.
fn collect<R: Wait>(rt: &R, alloc: Global, desk: &Desk) -> Result<Vec<Said>, AllocError> {
    let mut all = Vec::new(alloc);
    for _ in rt.forever() {
        let Some(messages) = desk.wait_outgoing(rt, alloc)? else {
            break;
        };
        for message in &messages {
            all.push(told(message))?;
        }
    }
    Ok(all)
}

fn then_stopped<R: Wait>(rt: &R, alloc: Global, desk: &Desk) -> Result<(), Fail> {
    let judged = judged_twice(rt, alloc, desk);
    desk.stop(rt);
    judged
}

fn awaited<R: Threads + Wait + Abort + Sync>(rt: &R, alloc: Global) -> Result<(), Fail> {
    let desk = calls::desk(alloc, b"XX")?;
    let shared = &desk;
    let (sent, judged) = thread::join(
        rt,
        move || collect(rt, alloc, shared),
        move || then_stopped(rt, alloc, shared),
    );
    judged?;
    let sent = sent?;
    assert_eq!(rt; sent.as_slice(), JUDGED_TWICE.as_slice());
    assert!(rt; desk.wait_outgoing(rt, alloc)?.is_none());
    Ok(())
}

#[test]
fn a_thread_that_waits_for_messages_gets_each_and_ends_when_stopped(
    rt: HostRuntime,
) -> Result<(), Fail> {
    awaited(&rt, rt.alloc())
}

// Each question, and then the chunk that answers its read.
fn questions(alloc: Global, seqs: &[u64]) -> Result<Vec<Message>, Fail> {
    let mut all = Vec::new(alloc);
    for seq in seqs {
        all.push(calls::scan(*seq, 3)?)?;
        all.push(calls::chunk(alloc, *seq, 0, b"ABC")?)?;
    }
    Ok(all)
}

// Each comes, and each work that is lent is run; none where a call is refused.
fn judge<R: Wait>(rt: &R, alloc: Global, desk: &Desk, all: Vec<Message>) -> Option<()> {
    for message in all {
        let Taken { lent, note: _ } = desk.message(rt, alloc, message).ok()?;
        match lent {
            Some(lent) => finish(rt, alloc, desk, lent)?,
            None => {}
        }
    }
    Some(())
}

fn finish<R: Wait>(rt: &R, alloc: Global, desk: &Desk, lent: Lent) -> Option<()> {
    match desk.finish(rt, alloc, lent.run()) {
        Ok(_) => Some(()),
        Err(refused) => {
            let Refused { value, why: _ } = refused;
            value.discard();
            None
        }
    }
}

const FIRST: [u64; 5] = [1, 2, 3, 4, 5];

const SECOND: [u64; 5] = [11, 12, 13, 14, 15];

fn shared_by_two<R: Threads + Wait + Abort + Sync>(rt: &R, alloc: Global) -> Result<(), Fail> {
    let desk = calls::desk(alloc, b"XX")?;
    calls::connect(rt, alloc, &desk)?;
    let first = questions(alloc, FIRST.as_slice())?;
    let second = questions(alloc, SECOND.as_slice())?;
    let shared = &desk;
    let judged = thread::join(
        rt,
        move || judge(rt, alloc, shared, first),
        move || judge(rt, alloc, shared, second),
    );
    assert_eq!(rt; judged, (Some(()), Some(())));
    let sent = calls::take(rt, alloc, &desk)?;
    assert_eq!(rt; sent.len(), 21);
    for seq in FIRST.iter().chain(SECOND.iter()) {
        let reply = Said::Judged(*seq, 1, Verdict::Clean);
        assert_eq!(rt; sent.iter().filter(|said| **said == reply).count(), 1);
    }
    assert_eq!(rt; desk.close().events.len(), 31);
    Ok(())
}

#[test]
fn two_threads_judge_at_once(rt: HostRuntime) -> Result<(), Fail> {
    shared_by_two(&rt, rt.alloc())
}

fn finish_quietly<R: Wait>(rt: &R, alloc: Global, desk: &Desk, lent: Lent) -> Result<(), Fail> {
    match desk.finish_quietly(rt, alloc, lent.run()) {
        Ok(_) => Ok(()),
        Err(refused) => {
            let Refused { value, why: _ } = refused;
            value.discard();
            Err(Fail::new("refused"))
        }
    }
}

fn judged_quietly<R: Wait + Abort>(rt: &R, alloc: Global) -> Result<(), Fail> {
    let desk = calls::desk(alloc, b"XX")?;
    calls::connect(rt, alloc, &desk)?;
    for message in questions(alloc, &[1])? {
        let Ok(Taken { lent, note: _ }) = desk.message_quietly(rt, alloc, message) else {
            return Err(Fail::new("refused"));
        };
        if let Some(lent) = lent {
            finish_quietly(rt, alloc, &desk, lent)?;
        }
    }
    assert!(rt; desk.await_outgoing(rt) && desk.await_outgoing(rt));
    assert_eq!(rt; calls::take(rt, alloc, &desk)?.len(), 3);
    desk.stop(rt);
    assert!(rt; !desk.await_outgoing(rt));
    assert_eq!(rt; desk.close().events.len(), 4);
    Ok(())
}

#[test]
fn quiet_calls_are_events_like_others_and_their_messages_wait(rt: HostRuntime) -> Result<(), Fail> {
    judged_quietly(&rt, rt.alloc())
}

// Waits once.
fn waited<R: Wait>(rt: &R, alloc: Global, desk: &Desk) -> Result<usize, AllocError> {
    Ok(match desk.wait_outgoing(rt, alloc)? {
        Some(messages) => messages.len(),
        None => 0,
    })
}

fn refused_while_waiting<R: Wait + Abort>(rt: &R, alloc: Global) -> Result<(), Fail> {
    let desk = calls::desk(alloc, b"XX")?;
    calls::connect(rt, alloc, &desk)?;
    desk.stop(rt);
    may_refuse(alloc);
    let first = waited(rt, alloc, &desk);
    refuse_no_more(alloc);
    let count = match first {
        Ok(count) => count,
        Err(_) => waited(rt, alloc, &desk)?,
    };
    assert_eq!(rt; count, 1);
    assert_eq!(rt; waited(rt, alloc, &desk)?, 0);
    Ok(())
}

#[test]
fn refused_or_not_what_waits_is_taken_out_after_a_stop(rt: HostRuntime) -> Result<(), Fail> {
    refused_while_waiting(&rt, rt.alloc())
}
