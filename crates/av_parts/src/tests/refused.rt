use crate::judge::Judge;
use crate::order::{Order, put_order};
use crate::tests::set::automaton_of;
use crate::word::{Said, Unjudged, Word, put_said};
use av_base::{Refusal, Version};
use av_fakes::{may_refuse, refuse_no_more};
use std::test::Fail;

// A set of one pattern without bounds.
const SET: [(&[u8], u64, u64); 1] = [(b"AB", 0, 1_048_575)];

#[test]
fn refused_or_not_an_order_is_spelled(rt: HostRuntime) -> Result<(), Fail> {
    let part = Order::Part {
        number: 1,
        some: b"ABC",
    };
    let mut out = Vec::new(rt.alloc());
    may_refuse(rt.alloc());
    let first = put_order(&mut out, part);
    refuse_no_more(rt.alloc());
    if first.is_err() {
        assert!(rt; first == Err(Refusal::NoMemory) && out.is_empty());
        put_order(&mut out, part)?;
    }
    assert_eq!(rt; out.len(), 16);
    Ok(())
}

#[test]
fn refused_or_not_a_word_is_spelled(rt: HostRuntime) -> Result<(), Fail> {
    let hello = Said::Hello {
        version: Version::new(1),
    };
    let mut out = Vec::new(rt.alloc());
    may_refuse(rt.alloc());
    let first = put_said(&mut out, &hello);
    refuse_no_more(rt.alloc());
    if first.is_err() {
        assert!(rt; out.is_empty());
        put_said(&mut out, &hello)?;
    }
    assert_eq!(rt; out.len(), 14);
    Ok(())
}

#[test]
fn refused_or_not_a_content_begins(rt: HostRuntime) -> Result<(), Fail> {
    let mut judge = Judge::new(rt.alloc(), automaton_of(rt.alloc(), 1, &SET)?);
    may_refuse(rt.alloc());
    let first = judge.obey(Order::Begin { number: 1 });
    refuse_no_more(rt.alloc());
    if first.is_err() {
        assert!(rt; first == Err(Refusal::NoMemory) && judge.len() == 0);
        assert_eq!(rt; judge.obey(Order::Begin { number: 1 }), Ok(None));
    }
    assert_eq!(rt; judge.len(), 1);
    Ok(())
}

#[test]
fn refused_or_not_a_newer_set_comes(rt: HostRuntime) -> Result<(), Fail> {
    let newer = automaton_of(rt.alloc(), 2, &SET)?;
    let mut judge = Judge::new(rt.alloc(), automaton_of(rt.alloc(), 1, &SET)?);
    judge.obey(Order::Begin { number: 3 })?;
    judge.obey(Order::Begin { number: 4 })?;
    let mut words = Vec::new(rt.alloc());
    may_refuse(rt.alloc());
    let first = judge.renew(&newer, &mut words);
    refuse_no_more(rt.alloc());
    if first.is_err() {
        let old = Said::Hello {
            version: Version::new(1),
        };
        assert!(rt; words.is_empty() && judge.len() == 2 && judge.greeting() == old);
        judge.renew(&newer, &mut words)?;
    }
    let ended = |number: u64| Word::None {
        number,
        why: Unjudged::Newer,
    };
    assert_eq!(rt; words.as_slice(), [ended(3), ended(4)].as_slice());
    assert_eq!(rt; judge.len(), 0);
    Ok(())
}
