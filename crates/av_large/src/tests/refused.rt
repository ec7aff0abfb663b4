use crate::answer::{Answer, Begun, Told};
use crate::content::{Ending, ServicePresence};
use crate::fault::BeginFault;
use crate::large::Large;
use av_base::{Cause, Refusal, Version};
use av_fakes::{may_refuse, refuse_no_more};
use std::alloc::Global;
use std::test::Fail;

// A guard whose service takes parts. Client 5 has two contents without an answer, and client 6 one.
fn with_three(alloc: Global) -> Result<Large, Fail> {
    let mut large = Large::new(alloc);
    large.greet(Version::new(9), Version::new(9))?;
    begins(&mut large, ServicePresence::Connected, 5, 1)?;
    let _ = large.end(5, Ending::Whole);
    begins(&mut large, ServicePresence::Connected, 6, 1)?;
    begins(&mut large, ServicePresence::Connected, 5, 2)?;
    Ok(large)
}

// The number of a content that begins, 0 if it is told at once.
pub fn begins(
    large: &mut Large,
    service: ServicePresence,
    client: u64,
    tag: u64,
) -> Result<u64, Refusal<BeginFault>> {
    match large.begin(service, client, tag, 10) {
        Ok(Begun::Sent { number }) => Ok(number),
        Ok(Begun::Answered(_)) => Ok(0),
        Err(why) => Err(why),
    }
}

#[test]
fn refused_or_not_a_content_begins(rt: HostRuntime) -> Result<(), Fail> {
    let mut large = with_three(rt.alloc())?;
    may_refuse(rt.alloc());
    let first = begins(&mut large, ServicePresence::Connected, 7, 1);
    refuse_no_more(rt.alloc());
    if first.is_err() {
        assert!(rt; first == Err(Refusal::NoMemory) && large.len() == 3 && !large.is_within(7));
        begins(&mut large, ServicePresence::Connected, 7, 1)?;
    }
    assert!(rt; large.len() == 4 && large.is_within(7));
    let _ = large.end(7, Ending::Whole);
    assert!(rt; large.owes(4));
    Ok(())
}

#[test]
fn refused_or_not_a_content_is_told_at_once(rt: HostRuntime) -> Result<(), Fail> {
    let mut large = Large::new(rt.alloc());
    may_refuse(rt.alloc());
    let first = begins(&mut large, ServicePresence::Away, 7, 1);
    refuse_no_more(rt.alloc());
    if first.is_err() {
        assert!(rt; first == Err(Refusal::NoMemory) && !large.is_within(7));
        begins(&mut large, ServicePresence::Away, 7, 1)?;
    }
    assert!(rt; large.len() == 0 && large.is_within(7));
    Ok(())
}

#[test]
fn refused_or_not_a_client_leaves(rt: HostRuntime) -> Result<(), Fail> {
    let mut large = with_three(rt.alloc())?;
    let mut numbers = Vec::new(rt.alloc());
    may_refuse(rt.alloc());
    let first = large.leave(5, &mut numbers);
    refuse_no_more(rt.alloc());
    if first.is_err() {
        assert!(rt; numbers.is_empty() && large.len() == 3 && large.is_within(5) && large.owes(1));
        large.leave(5, &mut numbers)?;
    }
    assert_eq!(rt; numbers.as_slice(), [1u64, 3].as_slice());
    assert!(rt; large.len() == 1 && !large.is_within(5));
    Ok(())
}

#[test]
fn refused_or_not_a_connection_is_lost(rt: HostRuntime) -> Result<(), Fail> {
    let mut large = with_three(rt.alloc())?;
    let mut told = Vec::new(rt.alloc());
    may_refuse(rt.alloc());
    let first = large.lose(&mut told);
    refuse_no_more(rt.alloc());
    if first.is_err() {
        assert!(rt; told.is_empty() && large.len() == 3 && large.takes_parts());
        large.lose(&mut told)?;
    }
    let lost = |client: u64, tag: u64| Told {
        client,
        tag,
        answer: Answer::Unjudged {
            cause: Cause::PortDisconnected,
        },
    };
    assert_eq!(rt;
        told.as_slice(),
        [lost(5, 1), lost(6, 1), lost(5, 2)].as_slice()
    );
    assert!(rt; large.len() == 0 && !large.takes_parts());
    Ok(())
}
