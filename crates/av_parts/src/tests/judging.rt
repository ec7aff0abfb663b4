use crate::fault::JudgeFault;
use crate::judge::Judge;
use crate::order::Order;
use crate::tests::set::automaton_of;
use crate::word::{Unjudged, Word};
use av_base::{Refusal, Version};
use std::test::Fail;

// A set of one pattern without bounds.
const SET: [(&[u8], u64, u64); 1] = [(b"AB", 0, 1_048_575)];

#[test]
fn one_content_more_than_4096_is_not_judged(rt: HostRuntime) -> Result<(), Fail> {
    let mut judge = Judge::new(rt.alloc(), automaton_of(rt.alloc(), 1, &SET)?);
    for number in 1..=4_096u64 {
        assert_eq!(rt; judge.obey(Order::Begin { number }), Ok(None));
    }
    let full = Word::None {
        number: 4_097,
        why: Unjudged::Full,
    };
    assert_eq!(rt; judge.obey(Order::Begin { number: 4_097 }), Ok(Some(full)));
    assert_eq!(rt; judge.len(), 4_096);
    let part = Order::Part {
        number: 4_097,
        some: b"AB",
    };
    assert_eq!(rt; judge.obey(part), Ok(None));
    let end = Order::End {
        number: 4_097,
        count: 9,
    };
    assert_eq!(rt; judge.obey(end), Ok(None));
    assert_eq!(rt; judge.obey(Order::Drop { number: 7 }), Ok(None));
    assert_eq!(rt; judge.obey(Order::Begin { number: 4_098 }), Ok(None));
    assert_eq!(rt; judge.len(), 4_096);
    Ok(())
}

// Orders that no guard sends, and the fault of each. Content 5 has begun, and 2 bytes of it came.
const REFUSED: [(Order<'static>, JudgeFault); 12] = [
    (Order::Begin { number: 0 }, JudgeFault::NotAbove),
    (Order::Begin { number: 4 }, JudgeFault::NotAbove),
    (Order::Begin { number: 5 }, JudgeFault::NotAbove),
    (
        Order::Part {
            number: 0,
            some: b"A",
        },
        JudgeFault::Unknown,
    ),
    (
        Order::Part {
            number: 6,
            some: &[],
        },
        JudgeFault::Unknown,
    ),
    (
        Order::End {
            number: 0,
            count: 0,
        },
        JudgeFault::Unknown,
    ),
    (
        Order::End {
            number: 6,
            count: 0,
        },
        JudgeFault::Unknown,
    ),
    (Order::Drop { number: 0 }, JudgeFault::Unknown),
    (Order::Drop { number: 6 }, JudgeFault::Unknown),
    (
        Order::End {
            number: 5,
            count: 1,
        },
        JudgeFault::Count,
    ),
    (
        Order::End {
            number: 5,
            count: 3,
        },
        JudgeFault::Count,
    ),
    (
        Order::End {
            number: 5,
            count: 0,
        },
        JudgeFault::Count,
    ),
];

#[test]
fn an_order_that_no_guard_sends_changes_nothing(rt: HostRuntime) -> Result<(), Fail> {
    let mut judge = Judge::new(rt.alloc(), automaton_of(rt.alloc(), 1, &SET)?);
    judge.obey(Order::Begin { number: 5 })?;
    judge.obey(Order::Part {
        number: 5,
        some: b"AA",
    })?;
    for (order, fault) in REFUSED.as_slice() {
        assert_eq!(rt; judge.obey(*order), Err(Refusal::Fault(*fault)));
        assert_eq!(rt; judge.len(), 1);
    }
    let clean = Word::Clean {
        number: 5,
        version: Version::new(1),
        count: 2,
    };
    let end = Order::End {
        number: 5,
        count: 2,
    };
    assert_eq!(rt; judge.obey(end), Ok(Some(clean)));
    Ok(())
}

#[test]
fn numbers_below_one_that_was_begun_are_passed_over(rt: HostRuntime) -> Result<(), Fail> {
    let mut judge = Judge::new(rt.alloc(), automaton_of(rt.alloc(), 1, &SET)?);
    judge.obey(Order::Begin { number: 5 })?;
    let part = Order::Part {
        number: 3,
        some: b"AB",
    };
    assert_eq!(rt; judge.obey(part), Ok(None));
    assert_eq!(rt; judge.obey(Order::Drop { number: 3 }), Ok(None));
    assert_eq!(rt; judge.len(), 1);
    Ok(())
}
