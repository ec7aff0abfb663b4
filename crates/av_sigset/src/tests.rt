use crate::catalogue::Catalogue;
use crate::fault::{CatalogueFault, SetFault, SetFaultKind};
use crate::set::SignatureSet;
use av_base::{Refusal, Version};
use av_fakes::{FakeWriter, Fault, may_refuse, refuse_no_more};
use std::alloc::{AllocError, Global};
use std::test::Fail;

// Whether signature `index` has this name and looks for these bytes.
fn has_signature(set: &SignatureSet, index: usize, name: &[u8], bytes: &[u8]) -> bool {
    match (set.name(index), set.pattern(index)) {
        (Some(found), Some(pattern)) => found == name && pattern.bytes.as_slice() == bytes,
        _ => false,
    }
}

#[test]
fn a_file_of_the_format_is_read(rt: HostRuntime) -> Result<(), Fail> {
    let set = SignatureSet::read(rt.alloc(), b"avsig 1\nversion 7\nt.a 4142\nb 4a4B\n")?;
    assert_eq!(rt; set.version().get(), 7);
    assert_eq!(rt; set.len(), 2);
    assert!(rt; has_signature(&set, 0, b"t.a", b"AB"));
    assert!(rt; has_signature(&set, 1, b"b", b"JK"));
    assert!(rt; set.name(2).is_none());
    Ok(())
}

// The line and kind of a bad file, or (0, 0).
fn judged(alloc: Global, file: &[u8]) -> (u64, u32) {
    match SignatureSet::read(alloc, file) {
        Err(Refusal::Fault(SetFault { line, kind })) => (line, number_of(kind)),
        _ => (0, 0),
    }
}

fn number_of(kind: SetFaultKind) -> u32 {
    match kind {
        SetFaultKind::Header => 1,
        SetFaultKind::Version => 2,
        SetFaultKind::Name => 3,
        SetFaultKind::Hex => 4,
        SetFaultKind::Length => 5,
        SetFaultKind::Duplicate => 6,
        SetFaultKind::TooMany => 7,
        SetFaultKind::Unended => 8,
        SetFaultKind::Range => 9,
    }
}

#[test]
fn a_bad_file_names_its_first_bad_line(rt: HostRuntime) {
    let alloc = rt.alloc();
    let rows: [(&[u8], u64, u32); 10] = [
        (b"avsig 3\nversion 7\n", 1, 1),
        (b"", 1, 8),
        (b"avsig 1\n", 2, 8),
        (b"avsig 1\nversion 0\n", 2, 2),
        (b"avsig 1\nversion 7\n\n", 3, 3),
        (b"avsig 1\nversion 7\na 4\n", 3, 4),
        (b"avsig 1\nversion 7\na \n", 3, 5),
        (b"avsig 1\nversion 7\na 41\na 42\n", 4, 6),
        (b"avsig 1\nversion 7\na 41", 3, 8),
        (b"avsig 1\nversion 7\n", 0, 0),
    ];
    for (file, line, kind) in rows {
        assert_eq!(rt; judged(alloc, file), (line, kind));
    }
}

#[test]
fn a_file_of_format_2_names_ranges(rt: HostRuntime) -> Result<(), Fail> {
    let set = SignatureSet::read(rt.alloc(), b"avsig 2\nversion 1\na 4142 0 3\nb 43\n")?;
    assert_eq!(rt; set.len(), 2);
    assert!(rt; has_signature(&set, 0, b"a", b"AB"));
    assert_eq!(rt; set.range(0), (0, 3));
    assert_eq!(rt; set.range(1), (0, 1_048_575));
    let plain = SignatureSet::read(rt.alloc(), b"avsig 1\nversion 1\nb 43\n")?;
    assert_eq!(rt; plain.range(0), (0, 1_048_575));
    Ok(())
}

#[test]
fn a_bad_range_is_told_after_the_length_and_before_the_name(rt: HostRuntime) {
    let alloc = rt.alloc();
    let rows: [(&[u8], u64, u32); 24] = [
        (b"avsig 2\nversion 1\na 41 2 1\n", 3, 9),
        (b"avsig 2\nversion 1\na 41 2 2\n", 0, 0),
        (b"avsig 2\nversion 1\na 41 5\n", 3, 9),
        (b"avsig 2\nversion 1\na 41 0 1048576\n", 3, 9),
        (b"avsig 2\nversion 1\na 41 1048576 1048576\n", 3, 9),
        (b"avsig 2\nversion 1\na 41 1048575 1048575\n", 0, 0),
        (b"avsig 2\nversion 1\na/ 41 2 1\n", 3, 3),
        (b"avsig 2\nversion 1\na 4 2 1\n", 3, 4),
        (b"avsig 2\nversion 1\na  0 3\n", 3, 5),
        (b"avsig 2\nversion 1\na 41 \n", 3, 9),
        (b"avsig 2\nversion 1\na 41 1 \n", 3, 9),
        (b"avsig 2\nversion 1\na 41  1\n", 3, 9),
        (b"avsig 2\nversion 1\na 41 1 2 \n", 3, 9),
        (b"avsig 2\nversion 1\na 41 1 2 3\n", 3, 9),
        (b"avsig 2\nversion 1\na 41 01 2\n", 3, 9),
        (b"avsig 2\nversion 1\na 41 +1 2\n", 3, 9),
        (b"avsig 2\nversion 1\na 41 1 2\r\n", 3, 9),
        (b"avsig 2\nversion 1\na 41 1 18446744073709551617\n", 3, 9),
        (b"avsig 2\nversion 1\na 41\na 42 2 1\n", 4, 9),
        (b"avsig 2\nversion 1\na 41\na 42 1 2\n", 4, 6),
        (b"avsig 2\nversion 0\n", 2, 2),
        (b"avsig 1\nversion 1\na 41 0 3\n", 3, 4),
        (b"avsig 1\nversion 1\na  0 3\n", 3, 4),
        (b"avsig 2\nversion 1\nb 41 2 1", 3, 8),
    ];
    for (file, line, kind) in rows {
        assert_eq!(rt; judged(alloc, file), (line, kind));
    }
}

// The line and kind of what is no set, or (0, 0).
fn made(alloc: Global, version: u64, patterns: &[(&[u8], u64, u64)]) -> (u64, u32) {
    match SignatureSet::from_ranged(alloc, Version::new(version), patterns) {
        Err(Refusal::Fault(SetFault { line, kind })) => (line, number_of(kind)),
        _ => (0, 0),
    }
}

#[test]
fn patterns_are_made_with_their_ranges(rt: HostRuntime) -> Result<(), Fail> {
    let alloc = rt.alloc();
    let set = SignatureSet::from_ranged(
        alloc,
        Version::new(1),
        &[(b"AB".as_slice(), 1, 1), (b"C".as_slice(), 0, 1_048_575)],
    )?;
    assert_eq!(rt; set.range(0), (1, 1));
    assert_eq!(rt; set.range(1), (0, 1_048_575));
    assert!(rt; has_signature(&set, 1, b"s1", b"C"));
    let bare = SignatureSet::from_patterns(alloc, Version::new(1), &[b"AB".as_slice()])?;
    assert_eq!(rt; bare.range(0), (0, 1_048_575));
    assert_eq!(rt; made(alloc, 0, &[(b"".as_slice(), 2, 1)]), (2, 2));
    assert_eq!(rt; made(alloc, 1, &[(b"".as_slice(), 2, 1)]), (3, 5));
    assert_eq!(rt;
        made(
            alloc,
            1,
            &[(b"A".as_slice(), 0, 0), (b"A".as_slice(), 2, 1)]
        ),
        (4, 9)
    );
    assert_eq!(rt; made(alloc, 1, &[(b"A".as_slice(), 0, 1_048_576)]), (3, 9));
    assert_eq!(rt;
        made(alloc, 1, &[(b"A".as_slice(), 1_048_575, 1_048_575)]),
        (0, 0)
    );
    Ok(())
}

#[test]
fn bare_patterns_are_named_by_their_places(rt: HostRuntime) -> Result<(), Fail> {
    let set = SignatureSet::from_patterns(
        rt.alloc(),
        Version::new(3),
        &[b"AB".as_slice(), b"C".as_slice()],
    )?;
    assert!(rt; has_signature(&set, 1, b"s1", b"C"));
    match SignatureSet::from_patterns(
        rt.alloc(),
        Version::new(3),
        &[b"AB".as_slice(), b"".as_slice()],
    ) {
        Err(Refusal::Fault(fault)) => assert_eq!(rt;
            fault,
            SetFault {
                line: 4,
                kind: SetFaultKind::Length
            }
        ),
        _ => panic!(rt; "no fault"),
    }
    Ok(())
}

#[test]
fn a_bad_range_is_told_before_one_pattern_too_many(rt: HostRuntime) -> Result<(), Fail> {
    let alloc = rt.alloc();
    let mut patterns: Vec<(&[u8], u64, u64)> = Vec::with_capacity(alloc, 1025)?;
    for place in 0..1024u64 {
        patterns.push((b"A".as_slice(), place, place))?;
    }
    assert_eq!(rt; made(alloc, 1, patterns.as_slice()), (0, 0));
    patterns.push((b"A".as_slice(), 1, 1))?;
    assert_eq!(rt; made(alloc, 1, patterns.as_slice()), (1027, 7));
    let _ = patterns.pop();
    patterns.push((b"A".as_slice(), 2, 1))?;
    assert_eq!(rt; made(alloc, 1, patterns.as_slice()), (1027, 9));
    let _ = patterns.pop();
    patterns.push((b"".as_slice(), 2, 1))?;
    assert_eq!(rt; made(alloc, 1, patterns.as_slice()), (1027, 5));
    Ok(())
}

fn empty_set(alloc: Global, version: u64) -> Result<SignatureSet, Refusal<SetFault>> {
    let no_patterns: &[&[u8]] = &[];
    SignatureSet::from_patterns(alloc, Version::new(version), no_patterns)
}

#[test]
fn a_full_catalogue_refuses_the_next_set(rt: HostRuntime) -> Result<(), Fail> {
    let mut catalogue = Catalogue::new(rt.alloc());
    for version in 1..4097u64 {
        assert_eq!(rt; catalogue.room(Version::new(version)), Ok(()));
        match catalogue.publish(empty_set(rt.alloc(), version)?) {
            Ok(()) => {}
            Err(_) => panic!(rt; "refused"),
        }
    }
    assert_eq!(rt; catalogue.latest(), Some(Version::new(4096)));
    assert_eq!(rt; catalogue.len(), 4096);
    match catalogue.at(Version::new(77)) {
        Some(set) => assert_eq!(rt; set.version().get(), 77),
        None => panic!(rt; "no set"),
    }
    assert_eq!(rt;
        catalogue.room(Version::new(4096)),
        Err(Refusal::Fault(CatalogueFault::OldVersion))
    );
    match catalogue.publish(empty_set(rt.alloc(), 4097)?) {
        Err(refused) => {
            assert_eq!(rt; refused.why, Refusal::Fault(CatalogueFault::CatalogueFull));
            assert_eq!(rt; refused.value.version().get(), 4097);
        }
        Ok(()) => panic!(rt; "accepted"),
    }
    Ok(())
}

#[test]
fn refused_or_not_a_set_is_read_and_published(rt: HostRuntime) -> Result<(), Fail> {
    let alloc = rt.alloc();
    let file = b"avsig 1\nversion 7\nt.a 4142\nb 4a4B\n".as_slice();
    let mut catalogue = Catalogue::new(alloc);
    may_refuse(alloc);
    let read = SignatureSet::read(alloc, file);
    let made = empty_set(alloc, 9);
    let room = catalogue.room(Version::new(7));
    refuse_no_more(alloc);
    let set = match read {
        Err(Refusal::NoMemory) => SignatureSet::read(alloc, file)?,
        other => other?,
    };
    assert_eq!(rt; set.len(), 2);
    if room == Err(Refusal::NoMemory) {
        assert_eq!(rt; catalogue.len(), 0);
        catalogue.room(Version::new(7))?;
    }
    may_refuse(alloc);
    let published = catalogue.publish(set);
    refuse_no_more(alloc);
    assert!(rt; published.is_ok());
    let later = match made {
        Err(Refusal::NoMemory) => empty_set(alloc, 9)?,
        other => other?,
    };
    may_refuse(alloc);
    let published = catalogue.publish(later);
    refuse_no_more(alloc);
    if let Err(refused) = published {
        assert_eq!(rt; refused.why, Refusal::NoMemory);
        assert_eq!(rt; catalogue.latest(), Some(Version::new(7)));
        assert!(rt; catalogue.publish(refused.value).is_ok());
    }
    assert_eq!(rt; catalogue.latest(), Some(Version::new(9)));
    Ok(())
}

#[test]
fn what_is_written_is_the_file(rt: HostRuntime) -> Result<(), Fail> {
    let alloc = rt.alloc();
    let rows: [(&[u8], &[u8]); 3] = [
        (
            b"avsig 1\nversion 18446744073709551615\n",
            b"avsig 1\nversion 18446744073709551615\n",
        ),
        (
            b"avsig 2\nversion 7\nt.a 4142 0 1048575\nb 4a4B\n",
            b"avsig 1\nversion 7\nt.a 4142\nb 4a4b\n",
        ),
        (
            b"avsig 2\nversion 7\nt.a 4142 0 0\nb 4a4B\nc 00 3 1048575\n",
            b"avsig 2\nversion 7\nt.a 4142 0 0\nb 4a4b\nc 00 3 1048575\n",
        ),
    ];
    for (file, wanted) in rows {
        let set = SignatureSet::read(alloc, file)?;
        let mut out = FakeWriter::new(alloc).in_pieces_of(1);
        assert!(rt; set.write(&mut out).is_ok());
        assert_eq!(rt; out.taken(), wanted);
    }
    Ok(())
}

#[test]
fn a_write_that_fails_is_told_at_each_place(rt: HostRuntime) -> Result<(), Fail> {
    let alloc = rt.alloc();
    let file = b"avsig 2\nversion 7\nt.a 4142 0 0\nb 4a4b\n".as_slice();
    let set = SignatureSet::read(alloc, file)?;
    for write in 1..39u64 {
        let mut out = FakeWriter::new(alloc)
            .in_pieces_of(1)
            .with(Fault::TakesNothing { write });
        let failed = set.write(&mut out).is_err();
        assert!(rt; failed);
        assert!(rt; file.starts_with(out.taken()));
    }
    Ok(())
}
