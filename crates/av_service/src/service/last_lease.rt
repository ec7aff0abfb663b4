// The count of leases at its end.
use crate::service::Service;
use crate::tests::steps::{Stand, Step, discard_all};
use crate::work::Work;
use av_base::{Lease, LimitField};
use std::alloc::Global;
use std::collections::VecDeque;
use std::test::Fail;

#[test]
fn no_work_is_lent_behind_the_last_lease(rt: HostRuntime) -> Result<(), Fail> {
    let mut works = VecDeque::new(rt.alloc());
    let first_bad = run_out(rt.alloc(), &mut works);
    discard_all(works);
    assert_eq!(rt; first_bad?, None);
    Ok(())
}

// What comes before that.
const BEFORE: [(Step<'static>, &str); 2] = [
    (Step::Publish(1, b"AB"), ""),
    (Step::Connect, "hello volume 1 version 1"),
];

// What comes with one lease left.
const STEPS: [(Step<'static>, &str); 11] = [
    (Step::Scan(1, 1, 2), "read 1.1 offset 0 count 1"),
    (
        Step::Chunk(1, 0, b"A"),
        "lease 18446744073709551615 1.1 version 1",
    ),
    (Step::Finish, "read 1.1 offset 1 count 1"),
    (Step::Chunk(1, 1, b"B"), "note Ignored"),
    (Step::Chunk(1, 1, b"BC"), "note Ignored"),
    (Step::Restart, ""),
    (Step::Connect, "hello volume 1 version 1"),
    (Step::Scan(2, 1, 2), "read 1.2 offset 0 count 1"),
    (Step::Chunk(2, 0, b"A"), "note Ignored"),
    (Step::Scan(3, 3, 0), "reply 1.3 version 1 clean"),
    (Step::Abort(2), ""),
];

// The place of the first step with one lease left that is answered otherwise.
fn run_out(alloc: Global, works: &mut VecDeque<Work>) -> Result<Option<usize>, Fail> {
    let mut stand = Stand::new(alloc, (LimitField::Chunk, 1))?;
    if stand.first_wrong(alloc, works, &BEFORE)?.is_some() {
        return Err(Fail::new("answered otherwise before that"));
    }
    leave_one_lease(&mut stand.service);
    stand.first_wrong(alloc, works, &STEPS)
}

fn leave_one_lease(service: &mut Service) {
    service.last_lease = Lease::new(u64::MAX - 1);
}
