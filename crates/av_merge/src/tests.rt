use crate::fault::MergeFault;
use crate::merger::Merger;
use av_base::{Refusal, Version};
use av_fakes::{FakeWriter, Fault, may_refuse, refuse_no_more};
use av_sigset::SignatureSet;
use std::alloc::{AllocError, Global};
use std::test::Fail;

// What comes of signature files that are merged in this order: the file of the merge, or the place of the file that does not
// fit, and why.
fn merged<'a>(
    alloc: Global,
    files: &[&[u8]],
    room: &'a mut Vec<u8>,
) -> Result<Result<&'a [u8], (usize, MergeFault)>, Fail> {
    let mut merger = Merger::new(alloc);
    for place in 0..files.len() {
        let set = SignatureSet::read(alloc, files[place])?;
        match merger.add(alloc, place, &set) {
            Ok(()) => {}
            Err(Refusal::Fault(fault)) => return Ok(Err((place, fault))),
            Err(Refusal::NoMemory) => return Err(Fail::from(AllocError)),
        }
    }
    let mut out = FakeWriter::new(alloc);
    merger.write(merger.version(), &mut out)?;
    room.extend_from_slice(out.taken())?;
    Ok(Ok(room.as_slice()))
}

fn clash(place: usize, index: usize, earlier: usize) -> Result<&'static [u8], (usize, MergeFault)> {
    Err((place, MergeFault::Clash { index, earlier }))
}

const A: &[u8] = b"avsig 1\nversion 7\na 41\nb 4242\n";

const B: &[u8] = b"avsig 1\nversion 9\nc 43\nb 4242\nd 42\n";

const RANGED: &[u8] = b"avsig 2\nversion 1\nb 4242 0 1048575\ne 45 3 9\n";

#[test]
fn each_signature_is_merged_once(rt: HostRuntime) -> Result<(), Fail> {
    let alloc = rt.alloc();
    let rows: [(&[&[u8]], Result<&[u8], (usize, MergeFault)>); 8] = [
        (&[A], Ok(A)),
        (&[A, A], Ok(A)),
        (
            &[A, B],
            Ok(b"avsig 1\nversion 9\na 41\nb 4242\nc 43\nd 42\n".as_slice()),
        ),
        (
            &[B, A],
            Ok(b"avsig 1\nversion 9\nc 43\nb 4242\nd 42\na 41\n".as_slice()),
        ),
        (
            &[A, RANGED],
            Ok(b"avsig 2\nversion 7\na 41\nb 4242\ne 45 3 9\n".as_slice()),
        ),
        (
            &[RANGED, RANGED, B],
            Ok(b"avsig 2\nversion 9\nb 4242\ne 45 3 9\nc 43\nd 42\n".as_slice()),
        ),
        // Equal bytes under another name are another signature.
        (
            &[A, b"avsig 1\nversion 1\nf 41\n"],
            Ok(b"avsig 1\nversion 7\na 41\nb 4242\nf 41\n".as_slice()),
        ),
        (
            &[b"avsig 2\nversion 3\n"],
            Ok(b"avsig 1\nversion 3\n".as_slice()),
        ),
    ];
    for (files, wanted) in rows {
        let mut room = Vec::new(alloc);
        assert!(rt; merged(alloc, files, &mut room)? == wanted);
    }
    Ok(())
}

#[test]
fn a_name_with_another_pattern_does_not_fit(rt: HostRuntime) -> Result<(), Fail> {
    let alloc = rt.alloc();
    let rows: [(&[&[u8]], Result<&[u8], (usize, MergeFault)>); 7] = [
        (&[A, b"avsig 1\nversion 1\nb 4243\n"], clash(1, 0, 0)),
        (&[A, b"avsig 1\nversion 1\nx 41\nb 42\n"], clash(1, 1, 0)),
        (&[A, B, b"avsig 1\nversion 1\na 41\nd 43\n"], clash(2, 1, 1)),
        // The first that clashes, and the file that its name came from.
        (&[A, B, b"avsig 1\nversion 1\nd 44\na 42\n"], clash(2, 0, 1)),
        (&[RANGED, b"avsig 2\nversion 1\ne 45 3 8\n"], clash(1, 0, 0)),
        (&[RANGED, b"avsig 2\nversion 1\ne 45 2 9\n"], clash(1, 0, 0)),
        (&[RANGED, b"avsig 1\nversion 1\ne 45\n"], clash(1, 0, 0)),
    ];
    for (files, wanted) in rows {
        let mut room = Vec::new(alloc);
        assert!(rt; merged(alloc, files, &mut room)? == wanted);
    }
    Ok(())
}

// A merge of 1,000 signatures of 16 bytes each, s0 to s999.
fn large(alloc: Global) -> Result<Merger, Fail> {
    let mut patterns = Vec::new(alloc);
    for _ in 0..1_000 {
        patterns.push(b"AAAABBBBCCCCDDDD".as_slice())?;
    }
    let set = SignatureSet::from_patterns(alloc, Version::new(1), patterns.as_slice())?;
    let mut merger = Merger::new(alloc);
    merger.add(alloc, 0, &set)?;
    Ok(merger)
}

// A file of so many signatures of so many bytes each, b0 and on.
fn many(alloc: Global, count: usize, bytes: usize) -> Result<Vec<u8>, Fail> {
    let mut file = Vec::from_slice(alloc, b"avsig 1\nversion 1\n")?;
    for number in 0..count {
        file.extend_from_slice(format!(in alloc; "b{number} ")?.as_bytes())?;
        for _ in 0..bytes {
            file.extend_from_slice(b"41")?;
        }
        file.push(b'\n')?;
    }
    Ok(file)
}

#[test]
fn the_merge_has_the_limits_of_a_set(rt: HostRuntime) -> Result<(), Fail> {
    let alloc = rt.alloc();
    let many_signatures = Err(Refusal::Fault(MergeFault::ManySignatures));
    let many_bytes = Err(Refusal::Fault(MergeFault::ManyBytes));
    for (count, bytes, wanted) in [
        (24, 16, Ok(())),
        (25, 1, many_signatures),
        (25, 16, many_signatures),
        (6, 64, Ok(())),
        (7, 64, many_bytes),
        (24, 17, many_bytes),
    ] {
        let mut merger = large(alloc)?;
        let set = SignatureSet::read(alloc, many(alloc, count, bytes)?.as_slice())?;
        assert!(&rt; merger.add(alloc, 1, &set) == wanted, "{count} of {bytes}");
    }
    Ok(())
}

#[test]
fn a_clash_comes_before_a_limit(rt: HostRuntime) -> Result<(), Fail> {
    let alloc = rt.alloc();
    let mut merger = large(alloc)?;
    let mut file = many(alloc, 30, 64)?;
    file.extend_from_slice(b"s7 42\n")?;
    let set = SignatureSet::read(alloc, file.as_slice())?;
    let wanted = MergeFault::Clash {
        index: 30,
        earlier: 0,
    };
    assert!(rt; merger.add(alloc, 1, &set) == Err(Refusal::Fault(wanted)));
    Ok(())
}

#[test]
fn a_set_that_does_not_fit_changes_nothing(rt: HostRuntime) -> Result<(), Fail> {
    let alloc = rt.alloc();
    let mut merger = Merger::new(alloc);
    let a = SignatureSet::read(alloc, A)?;
    let bad = SignatureSet::read(alloc, b"avsig 1\nversion 10\nx 41\nb 42\n")?;
    assert!(rt; merger.add(alloc, 0, &a).is_ok());
    let refused = merger.add(alloc, 1, &bad);
    let wanted = Refusal::Fault(MergeFault::Clash {
        index: 1,
        earlier: 0,
    });
    assert!(rt; refused == Err(wanted));
    assert_eq!(rt; merger.version().get(), 7);
    let mut out = FakeWriter::new(alloc);
    merger.write(Version::new(7), &mut out)?;
    assert_eq!(rt; out.taken(), A);
    Ok(())
}

#[test]
fn refused_or_not_a_set_is_merged_once(rt: HostRuntime) -> Result<(), Fail> {
    let alloc = rt.alloc();
    let mut merger = Merger::new(alloc);
    let a = SignatureSet::read(alloc, A)?;
    let b = SignatureSet::read(alloc, B)?;
    merger.add(alloc, 0, &a)?;
    may_refuse(alloc);
    let first = merger.add(alloc, 1, &b);
    refuse_no_more(alloc);
    if first.is_err() {
        assert_eq!(rt; merger.version().get(), 7);
        assert!(rt; merger.add(alloc, 1, &b).is_ok());
    }
    let mut out = FakeWriter::new(alloc);
    merger.write(merger.version(), &mut out)?;
    assert_eq!(rt;
        out.taken(),
        b"avsig 1\nversion 9\na 41\nb 4242\nc 43\nd 42\n".as_slice()
    );
    Ok(())
}

#[test]
fn a_write_that_fails_is_told(rt: HostRuntime) -> Result<(), Fail> {
    let alloc = rt.alloc();
    let mut merger = Merger::new(alloc);
    merger.add(alloc, 0, &SignatureSet::read(alloc, A)?)?;
    for write in 1..A.len() + 1 {
        let mut out = FakeWriter::new(alloc).in_pieces_of(1).with(Fault::Fails {
            write: write as u64,
        });
        assert!(rt; merger.write(Version::new(7), &mut out).is_err());
        assert!(rt; A.starts_with(out.taken()));
    }
    Ok(())
}
