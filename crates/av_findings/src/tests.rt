use crate::finding::all_verdicts;
use av_base::{Verdict, Version};
use av_fakes::{may_refuse, refuse_no_more};
use av_sigset::SignatureSet;
use std::alloc::Global;
use std::test::Fail;

fn hit(index: u32, end_at: u64) -> Verdict {
    Verdict::Infected { index, end_at }
}

const CLEAN: &[Verdict] = &[Verdict::Clean];

// Four patterns: two that overlap, one that is bound to places, and one that is a part of another.
const FOUR: &[u8] = b"avsig 2\nversion 7\na 4142\nb 4243 0 1048575\nc 41 3 4\nd 42\n";

const NONE: &[u8] = b"avsig 1\nversion 1\n";

#[test]
fn each_signature_that_occurs_is_listed_with_its_own_end(rt: HostRuntime) -> Result<(), Fail> {
    let alloc = rt.alloc();
    let rows: [(&[u8], &[u8], &[Verdict]); 9] = [
        (NONE, b"ABC", CLEAN),
        (FOUR, b"", CLEAN),
        (FOUR, b"XYZA", &[hit(2, 4)]),
        (FOUR, b"A", CLEAN),
        (FOUR, b"XXXXA", &[hit(2, 5)]),
        (FOUR, b"XXXXXA", CLEAN),
        (FOUR, b"BC", &[hit(1, 2), hit(3, 1)]),
        (FOUR, b"ABAB", &[hit(0, 2), hit(3, 2)]),
        (
            FOUR,
            b"BXXABC",
            &[hit(0, 5), hit(1, 6), hit(2, 4), hit(3, 1)],
        ),
    ];
    for (file, content, wanted) in rows {
        let set = SignatureSet::read(alloc, file)?;
        assert!(&rt; all_verdicts(alloc, &set, content)?.as_slice() == wanted);
    }
    Ok(())
}

// 1,024 signatures of two bytes: number n is the byte n / 32 and then the byte n % 32, from 64 on.
fn greatest(alloc: Global) -> Result<SignatureSet, Fail> {
    let mut file = Vec::from_slice(alloc, b"avsig 1\nversion 1\n")?;
    for number in 0..1024usize {
        let first = 64 + number / 32;
        let second = 64 + number % 32;
        let line = format!(in alloc; "n{number} {first:02x}{second:02x}\n")?;
        file.extend_from_slice(line.as_bytes())?;
    }
    Ok(SignatureSet::read(alloc, file.as_slice())?)
}

#[test]
fn the_first_and_the_last_of_1024_signatures_are_listed(rt: HostRuntime) -> Result<(), Fail> {
    let alloc = rt.alloc();
    let set = greatest(alloc)?;
    assert_eq!(&rt; set.len(), 1024);
    let rows: [(&[u8], &[Verdict]); 4] = [
        (b"@@", &[hit(0, 2)]),
        (b"__", &[hit(1023, 2)]),
        (b"__@@", &[hit(0, 4), hit(992, 3), hit(1023, 2)]),
        (b"@\x60", CLEAN),
    ];
    for (content, wanted) in rows {
        assert!(&rt; all_verdicts(alloc, &set, content)?.as_slice() == wanted);
    }
    Ok(())
}

#[test]
fn a_match_behind_a_mebibyte_is_listed(rt: HostRuntime) -> Result<(), Fail> {
    let alloc = rt.alloc();
    let set = SignatureSet::from_ranged(
        alloc,
        Version::new(1),
        &[
            (b"AB".as_slice(), 0, 1_048_575),
            (b"AB".as_slice(), 0, 1_048_574),
        ],
    )?;
    let mut content = vec![in alloc; b'A'; 1_048_577]?;
    content.push(b'B')?;
    assert!(rt;
        all_verdicts(alloc, &set, content.as_slice())?.as_slice() == [hit(0, 1_048_578)].as_slice()
    );
    Ok(())
}

#[test]
fn refused_or_not_all_verdicts_are_found_by_the_next_call(rt: HostRuntime) -> Result<(), Fail> {
    let alloc = rt.alloc();
    let set = SignatureSet::read(alloc, FOUR)?;
    for content in [b"BXXABC".as_slice(), b"X".as_slice()] {
        may_refuse(alloc);
        let first = all_verdicts(alloc, &set, content);
        refuse_no_more(alloc);
        let again = all_verdicts(alloc, &set, content)?;
        if let Ok(all) = first {
            assert!(&rt; all.as_slice() == again.as_slice());
        }
    }
    Ok(())
}
