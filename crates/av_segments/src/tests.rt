use crate::cut::may_be_cut;
use crate::segment::Segment;
use av_base::{Verdict, Version};
use av_fakes::{FakeWriter, may_refuse, refuse_no_more};
use av_files::{Finding, NamedScanner, Scanner, Scanners};
use av_sigset::SignatureSet;
use std::alloc::{AllocError, Global};
use std::test::Fail;

const CLEAN: Verdict = Verdict::Clean;

fn hit(index: u32, end_at: u64) -> Verdict {
    Verdict::Infected { index, end_at }
}

fn named(alloc: Global, set: SignatureSet) -> Result<NamedScanner, Fail> {
    let mut err = FakeWriter::new(alloc);
    let Ok(scanner) = Scanner::of(alloc, set, &mut err) else {
        return Err(AllocError.into());
    };
    Ok(NamedScanner::new(String::from_str(alloc, "s")?, scanner))
}

fn one_set(alloc: Global, patterns: &[&[u8]]) -> Result<Scanners, Fail> {
    let set = SignatureSet::from_patterns(alloc, Version::new(1), patterns)?;
    Ok(Scanners::of(alloc, named(alloc, set)?)?)
}

fn add_set(alloc: Global, sets: &mut Scanners, patterns: &[&[u8]]) -> Result<(), Fail> {
    let set = SignatureSet::from_patterns(alloc, Version::new(1), patterns)?;
    sets.add(named(alloc, set)?)?;
    Ok(())
}

// Three sets: the second has two signatures that end at one place, and the third has none.
fn three_sets(alloc: Global) -> Result<Scanners, Fail> {
    let mut sets = one_set(alloc, &[b"ABCD".as_slice(), b"CDE".as_slice()])?;
    add_set(alloc, &mut sets, &[b"CD".as_slice(), b"BCD".as_slice()])?;
    add_set(alloc, &mut sets, &[])?;
    Ok(sets)
}

// A stretch of these bytes, fed in one piece.
fn stretch(alloc: Global, sets: &Scanners, bytes: &[u8]) -> Result<Segment, Fail> {
    let mut segment = Segment::empty(alloc, sets)?;
    if !segment.feed(sets, bytes) {
        return Err(AllocError.into());
    }
    Ok(segment)
}

// A content that is cut at a place, each part a segment of its own, joined.
fn cut_at(alloc: Global, sets: &Scanners, content: &[u8], at: usize) -> Result<Segment, Fail> {
    let at = at.min(content.len());
    let mut front = stretch(alloc, sets, &content[..at])?;
    let back = stretch(alloc, sets, &content[at..])?;
    if !front.join(sets, &back) {
        return Err(AllocError.into());
    }
    Ok(front)
}

// A content in stretches of so many bytes, joined from the last one on.
fn from_the_back(
    alloc: Global,
    sets: &Scanners,
    content: &[u8],
    size: usize,
) -> Result<Segment, Fail> {
    let mut joined = Segment::empty(alloc, sets)?;
    let mut left = content.len();
    for _ in 0..content.len() {
        let start = left.saturating_sub(size);
        if start < left && left <= content.len() {
            let mut segment = stretch(alloc, sets, &content[start..left])?;
            if !segment.join(sets, &joined) {
                return Err(AllocError.into());
            }
            joined = segment;
            left = start;
        }
    }
    Ok(joined)
}

// A content in stretches of so many bytes, joined from the first one on.
fn from_the_front(
    alloc: Global,
    sets: &Scanners,
    content: &[u8],
    size: usize,
) -> Result<Segment, Fail> {
    let mut joined = Segment::empty(alloc, sets)?;
    let mut rest = content;
    for _ in 0..content.len() {
        let (piece, after) = rest.split_at(size.min(rest.len()));
        let segment = stretch(alloc, sets, piece)?;
        if !joined.join(sets, &segment) {
            return Err(AllocError.into());
        }
        rest = after;
    }
    Ok(joined)
}

// One segment, fed with pieces of so many bytes.
fn in_pieces(alloc: Global, sets: &Scanners, content: &[u8], size: usize) -> Result<Segment, Fail> {
    let mut segment = Segment::empty(alloc, sets)?;
    let mut rest = content;
    for _ in 0..content.len() {
        let (piece, after) = rest.split_at(size.min(rest.len()));
        if !segment.feed(sets, piece) {
            return Err(AllocError.into());
        }
        rest = after;
    }
    Ok(segment)
}

// Whether a segment has so many bytes and these verdicts, each with its place.
fn has(
    alloc: Global,
    segment: &Segment,
    length: usize,
    verdicts: &[Verdict],
) -> Result<bool, Fail> {
    let mut wanted = Vec::new(alloc);
    for verdict in verdicts {
        wanted.push(Finding {
            set: wanted.len(),
            verdict: *verdict,
        })?;
    }
    let found = segment.findings(alloc)?;
    Ok(segment.len() == length as u64 && found.as_slice() == wanted.as_slice())
}

// A pattern of so many bytes that are all different.
fn pattern_of(alloc: Global, length: usize) -> Result<Vec<u8>, Fail> {
    let mut pattern = Vec::new(alloc);
    for number in 0..length.min(64) {
        pattern.push(number as u8)?;
    }
    Ok(pattern)
}

// The pattern, with so many other bytes before and behind it.
fn amid(alloc: Global, pattern: &[u8], around: usize) -> Result<Vec<u8>, Fail> {
    let mut content = vec![in alloc; 255u8; around]?;
    content.extend_from_slice(pattern)?;
    content.extend_from_slice(vec![in alloc; 255u8; around]?.as_slice())?;
    Ok(content)
}

#[test]
fn a_match_of_each_length_is_found_wherever_the_content_is_cut(
    rt: HostRuntime,
) -> Result<(), Fail> {
    let alloc = rt.alloc();
    for length in [1usize, 2, 62, 63, 64] {
        let pattern = pattern_of(alloc, length)?;
        let sets = one_set(alloc, &[pattern.as_slice()])?;
        for around in [0usize, 1, 70] {
            let content = amid(alloc, pattern.as_slice(), around)?;
            let wanted = [hit(0, (around + length) as u64)];
            for at in 0..content.len() + 1 {
                let joined = cut_at(alloc, &sets, content.as_slice(), at)?;
                assert!(&rt; has(alloc, &joined, content.len(), wanted.as_slice())?);
            }
        }
    }
    Ok(())
}

#[test]
fn a_match_of_each_length_is_found_in_pieces_and_stretches_of_each_size(
    rt: HostRuntime,
) -> Result<(), Fail> {
    let alloc = rt.alloc();
    for length in [1usize, 2, 63, 64] {
        let pattern = pattern_of(alloc, length)?;
        let sets = one_set(alloc, &[pattern.as_slice()])?;
        let content = amid(alloc, pattern.as_slice(), 70)?;
        let wanted = [hit(0, (70 + length) as u64)];
        for size in [1usize, 2, 3, 31, 62, 63, 64, 65, 126, 127, 300] {
            let fed = in_pieces(alloc, &sets, content.as_slice(), size)?;
            assert!(&rt; has(alloc, &fed, content.len(), wanted.as_slice())?);
            let joined = from_the_front(alloc, &sets, content.as_slice(), size)?;
            assert!(&rt; has(alloc, &joined, content.len(), wanted.as_slice())?);
            let other = from_the_back(alloc, &sets, content.as_slice(), size)?;
            assert!(&rt; has(alloc, &other, content.len(), wanted.as_slice())?);
        }
    }
    Ok(())
}

#[test]
fn each_of_three_sets_has_its_own_verdict_wherever_the_content_is_cut(
    rt: HostRuntime,
) -> Result<(), Fail> {
    let alloc = rt.alloc();
    let sets = three_sets(alloc)?;
    let rows: [(&[u8], [Verdict; 3]); 8] = [
        (b"", [CLEAN, CLEAN, CLEAN]),
        (b"C", [CLEAN, CLEAN, CLEAN]),
        (b"ABCD", [hit(0, 4), hit(0, 4), CLEAN]),
        (b"CDE", [hit(1, 3), hit(0, 2), CLEAN]),
        (b"xABCDE", [hit(0, 5), hit(0, 5), CLEAN]),
        (b"xCDxABCD", [hit(0, 8), hit(0, 3), CLEAN]),
        (b"CDExABCD", [hit(1, 3), hit(0, 2), CLEAN]),
        (b"ABCABC", [CLEAN, CLEAN, CLEAN]),
    ];
    for (content, wanted) in rows {
        for at in 0..content.len() + 1 {
            let joined = cut_at(alloc, &sets, content, at)?;
            assert!(&rt; has(alloc, &joined, content.len(), wanted.as_slice())?);
        }
        for size in 1..4usize {
            let fed = in_pieces(alloc, &sets, content, size)?;
            assert!(&rt; has(alloc, &fed, content.len(), wanted.as_slice())?);
            let joined = from_the_back(alloc, &sets, content, size)?;
            assert!(&rt; has(alloc, &joined, content.len(), wanted.as_slice())?);
        }
    }
    Ok(())
}

#[test]
fn of_two_matches_the_one_that_ends_first_is_found_and_then_the_one_with_the_lesser_index(
    rt: HostRuntime,
) -> Result<(), Fail> {
    let alloc = rt.alloc();
    let rows: [(&[&[u8]], &[u8], Verdict); 5] = [
        (&[b"BCDE", b"CD"], b"ABCDE", hit(1, 4)),
        (&[b"CD", b"BCD"], b"ABCDE", hit(0, 4)),
        (&[b"BCD", b"CD"], b"ABCDE", hit(0, 4)),
        (&[b"D", b"AB"], b"ABCDE", hit(1, 2)),
        (&[b"E", b"BC", b"C"], b"ABCDE", hit(1, 3)),
    ];
    for (patterns, content, wanted) in rows {
        let sets = one_set(alloc, patterns)?;
        for at in 0..content.len() + 1 {
            let joined = cut_at(alloc, &sets, content, at)?;
            assert!(&rt; has(alloc, &joined, content.len(), &[wanted])?);
        }
    }
    Ok(())
}

#[test]
fn stretches_of_no_bytes_change_nothing(rt: HostRuntime) -> Result<(), Fail> {
    let alloc = rt.alloc();
    let sets = one_set(alloc, &[b"AB".as_slice()])?;
    let none = Segment::empty(alloc, &sets)?;
    let mut joined = stretch(alloc, &sets, b"xA")?;
    assert!(&rt; joined.join(&sets, &none));
    assert!(&rt; joined.feed(&sets, b""));
    let mut front = Segment::empty(alloc, &sets)?;
    assert!(&rt; front.join(&sets, &none));
    assert!(&rt; has(alloc, &front, 0, &[CLEAN])?);
    assert!(&rt; front.join(&sets, &joined));
    assert!(&rt; has(alloc, &front, 2, &[CLEAN])?);
    assert!(&rt; front.feed(&sets, b"B"));
    assert!(&rt; has(alloc, &front, 3, &[hit(0, 3)])?);
    Ok(())
}

#[test]
fn a_content_may_be_cut_unless_a_signature_of_some_set_is_bound(
    rt: HostRuntime,
) -> Result<(), Fail> {
    let alloc = rt.alloc();
    let rows: [(&[u8], bool); 6] = [
        (b"avsig 1\nversion 1\n", true),
        (b"avsig 1\nversion 1\na 41\nb 42\n", true),
        (b"avsig 2\nversion 1\na 41 0 1048575\n", true),
        (b"avsig 2\nversion 1\na 41 1 1048575\n", false),
        (b"avsig 2\nversion 1\na 41 0 1048574\n", false),
        (b"avsig 2\nversion 1\na 41\nb 42 3 4\n", false),
    ];
    for (file, wanted) in rows {
        let set = SignatureSet::read(alloc, file)?;
        let sets = Scanners::of(alloc, named(alloc, set)?)?;
        assert_eq!(&rt; may_be_cut(&sets), wanted);
        let mut two = one_set(alloc, &[b"A".as_slice()])?;
        two.add(named(alloc, SignatureSet::read(alloc, file)?)?)?;
        assert_eq!(&rt; may_be_cut(&two), wanted);
    }
    Ok(())
}

#[test]
fn a_content_of_2_to_the_64_bytes_is_refused_and_one_byte_less_is_not(
    rt: HostRuntime,
) -> Result<(), Fail> {
    let alloc = rt.alloc();
    let sets = one_set(alloc, &[b"AB".as_slice()])?;
    // Twice as long in each round, while `sum` has the bytes of all rounds before.
    let mut power = stretch(alloc, &sets, b"A")?;
    let mut sum = Segment::empty(alloc, &sets)?;
    for _ in 0..63 {
        assert!(&rt; sum.join(&sets, &power));
        let mut copy = Segment::empty(alloc, &sets)?;
        assert!(&rt; copy.join(&sets, &power));
        assert!(&rt; power.join(&sets, &copy));
    }
    assert_eq!(&rt; power.len(), 1 << 63);
    assert!(&rt; sum.join(&sets, &power));
    assert_eq!(&rt; sum.len(), u64::MAX);
    assert!(&rt; sum.feed(&sets, b""));
    let one = stretch(alloc, &sets, b"B")?;
    assert!(&rt; power.join(&sets, &one));
    let found = power.findings(alloc)?;
    let wanted = [Finding {
        set: 0,
        verdict: hit(0, (1 << 63) + 1),
    }];
    assert!(&rt; found.as_slice() == wanted.as_slice());
    assert!(&rt; !sum.join(&sets, &one));
    let mut full = Segment::empty(alloc, &sets)?;
    assert!(&rt; full.join(&sets, &sum));
    assert!(&rt; !full.feed(&sets, b"B"));
    Ok(())
}

// A value that may go to another thread.
fn sent<T: Send>(value: T) -> T {
    value
}

#[test]
fn a_segment_may_go_to_another_thread(rt: HostRuntime) -> Result<(), Fail> {
    let alloc = rt.alloc();
    let sets = one_set(alloc, &[b"AB".as_slice()])?;
    let segment = sent(stretch(alloc, &sets, b"AB")?);
    assert!(&rt; has(alloc, &segment, 2, &[hit(0, 2)])?);
    Ok(())
}

#[test]
fn refused_or_not_a_segment_is_begun_by_the_next_call(rt: HostRuntime) -> Result<(), Fail> {
    let alloc = rt.alloc();
    let sets = three_sets(alloc)?;
    may_refuse(alloc);
    let first = Segment::empty(alloc, &sets);
    refuse_no_more(alloc);
    let again = Segment::empty(alloc, &sets)?;
    assert!(&rt; has(alloc, &again, 0, &[CLEAN, CLEAN, CLEAN])?);
    if let Ok(segment) = first {
        assert!(&rt; has(alloc, &segment, 0, &[CLEAN, CLEAN, CLEAN])?);
    }
    Ok(())
}

#[test]
fn refused_or_not_findings_are_given_by_the_next_call(rt: HostRuntime) -> Result<(), Fail> {
    let alloc = rt.alloc();
    let sets = three_sets(alloc)?;
    let segment = cut_at(alloc, &sets, b"ABCD", 3)?;
    may_refuse(alloc);
    let first = segment.findings(alloc);
    refuse_no_more(alloc);
    let again = segment.findings(alloc)?;
    assert!(&rt; has(alloc, &segment, 4, &[hit(0, 4), hit(0, 4), CLEAN])?);
    if let Ok(found) = first {
        assert!(&rt; found.as_slice() == again.as_slice());
    }
    Ok(())
}
