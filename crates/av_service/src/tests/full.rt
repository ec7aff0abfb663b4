// As many jobs as the greatest limits allow, and one more.
use crate::tests::steps::{Stand, Step, discard_all};
use crate::work::Work;
use av_base::LimitField;
use std::alloc::{AllocError, Global};
use std::collections::VecDeque;
use std::test::Fail;

#[test]
fn the_257th_job_is_refused_until_one_of_256_ends(rt: HostRuntime) -> Result<(), Fail> {
    let mut works = VecDeque::new(rt.alloc());
    let first_bad = fill(rt.alloc(), &mut works);
    discard_all(works);
    assert_eq!(rt; first_bad?, None);
    Ok(())
}

// What comes once the limit is reached.
const STEPS: [(Step<'static>, &str); 8] = [
    (Step::Scan(257, 257, 1), "reply 1.257 failed 1"),
    (Step::Abort(1), ""),
    (Step::Scan(258, 258, 1), "read 1.258 offset 0 count 1"),
    (Step::Scan(259, 259, 1), "reply 1.259 failed 1"),
    (Step::Chunk(256, 0, b"A"), "lease 1 1.256 version 1"),
    (Step::Finish, "reply 1.256 version 1 clean"),
    (Step::Chunk(258, 0, b"A"), "lease 2 1.258 version 1"),
    (Step::Finish, "reply 1.258 version 1 clean"),
];

// The seq of the first Scan that is answered otherwise; 257 and more for a later step, 0 for the last publication.
fn fill(alloc: Global, works: &mut VecDeque<Work>) -> Result<Option<u64>, Fail> {
    let mut stand = Stand::new(alloc, (LimitField::Jobs, 256))?;
    fill_up(alloc, &mut stand, works)
}

fn fill_up(
    alloc: Global,
    stand: &mut Stand,
    works: &mut VecDeque<Work>,
) -> Result<Option<u64>, Fail> {
    if let Some(seq) = first_unread(alloc, stand, works)? {
        return Ok(Some(seq));
    }
    if let Some(i) = stand.first_wrong(alloc, works, &STEPS)? {
        return Ok(Some(i.saturating_add(257) as u64));
    }
    let want = all_again(alloc)?;
    let is_well = stand.says(alloc, works, Step::Publish(2, b"XX"), want.as_str())?;
    Ok(if is_well { None } else { Some(0) })
}

// 256 jobs begin, and each is read.
fn first_unread(
    alloc: Global,
    stand: &mut Stand,
    works: &mut VecDeque<Work>,
) -> Result<Option<u64>, Fail> {
    stand.answer(alloc, works, Step::Publish(1, b"XX"))?;
    stand.answer(alloc, works, Step::Connect)?;
    for seq in 1..257u64 {
        let want = format!(in alloc; "read 1.{seq} offset 0 count 1")?;
        if !stand.says(alloc, works, Step::Scan(seq, seq, 1), want.as_str())? {
            return Ok(Some(seq));
        }
    }
    Ok(None)
}

// What a publication says while the jobs 2 to 255 run.
fn all_again(alloc: Global) -> Result<String, AllocError> {
    let mut text = String::from_str(alloc, "updated 2")?;
    for seq in 2..256u64 {
        text.push_str(format!(in alloc; ", read 1.{seq} offset 0 count 1")?.as_str())?;
    }
    Ok(text)
}
