use crate::import::{Import, ImportFault, Rules};
use av_base::device::write_text;
use av_fakes::{FakeWriter, Fault, may_refuse, refuse_no_more};
use av_sigset::SignatureSet;
use std::alloc::Global;
use std::io::Write;
use std::test::Fail;

const STRICT: Rules = Rules {
    takes_any_target: false,
    has_ranges: true,
};

const LOOSE: Rules = Rules {
    takes_any_target: true,
    has_ranges: false,
};

// Whether a file gives these lines behind the version's, and tells this.
fn gives(
    alloc: Global,
    rules: Rules,
    path: &str,
    content: &[u8],
    wanted: &[u8],
    told: &[u8],
) -> Result<bool, ImportFault> {
    let mut import = Import::new(alloc, rules);
    let mut err = FakeWriter::new(alloc);
    import.take(path, content, &mut err)?;
    let mut out = FakeWriter::new(alloc);
    import.write(1, &mut out)?;
    let lines = out.taken().get(18..).unwrap_or(b"".as_slice());
    Ok(lines == wanted && err.taken() == told)
}

#[test]
fn a_line_gives_a_signature(rt: HostRuntime) -> Result<(), Fail> {
    let rows: [(&str, &[u8], &[u8]); 9] = [
        ("a.ndb", b"A-1:0:*:4d5a9000", b"A-1 4d5a9000\n"),
        ("a.NDU", b"A:0:0:41\r\r\n", b"A 41 0 0\n"),
        (
            "x/a.db/b.ndb",
            b"#\n\nA:00:10,5:41:51:255\n",
            b"A 41 10 15\n",
        ),
        ("a.ndb", b"A:0:0007:41\n", b"A 41 7 7\n"),
        ("a.ndb", b"A:0:1048565,9:41\n", b"A 41 1048565 1048574\n"),
        ("a.db", b"A b=C0ffee\n", b"A_b c0ffee\n"),
        ("db", b"A=41\nA=42\nA=43", b"A 41\nA.2 42\nA.3 43\n"),
        (
            "a.db",
            b"Win.Test.A.Very.Long.Name.Indeed.Agent-6598770-0=41\n",
            b"Win.Test.A.Very..Agent-6598770-0 41\n",
        ),
        ("a.db", b"=41\n", b"_ 41\n"),
    ];
    for (path, content, wanted) in rows {
        let same = gives(rt.alloc(), STRICT, path, content, wanted, b"".as_slice());
        assert!(rt; matches!(same, Ok(true)));
    }
    Ok(())
}

#[test]
fn a_line_that_is_left_out_is_told_with_its_reason(rt: HostRuntime) -> Result<(), Fail> {
    let rows: [(&str, &[u8], &[u8]); 25] = [
        (
            "a.ndb",
            b":0:0,9999999999999999999:41",
            b"a place past 1,048,574 has no bound in a signature file",
        ),
        ("a.hdb", b"x", b"hashes of whole files or sections"),
        ("a.txt", b"x", b"not .ndb, .db, .yar or .yara"),
        ("a.ndb", b":a", b"not Name:Target:Offset:Hex"),
        ("a.ndb", b":0:*:41:1:2:3", b"not Name:Target:Offset:Hex"),
        ("a.db", b":a", b"not Name=Hex"),
        ("a.ndb", b":x:*:41", b"the target isn't a number"),
        ("a.ndb", b"::*:41", b"the target isn't a number"),
        (
            "a.ndb",
            b":00000000000000000000:*:41",
            b"the target isn't a number",
        ),
        (
            "a.ndb",
            b":01:*:41",
            b"only in files of target 1 (--any-target takes it for all files)",
        ),
        ("a.ndb", b":3:*:41", b"only in HTML that was normalised"),
        ("a.ndb", b":4:*:41", b"only in mail"),
        ("a.ndb", b":7:*:41", b"only in text that was normalised"),
        ("a.ndb", b":0::41", b"the offset isn't a number"),
        ("a.ndb", b":0:1,:41", b"the offset isn't a number"),
        ("a.ndb", b":0:1,2,3:41", b"the offset isn't a number"),
        (
            "a.ndb",
            b":0:EOF-9:41",
            b"the place is counted from the end, an entry or a section",
        ),
        (
            "a.ndb",
            b":0:S12+9:41",
            b"the place is counted from the end, an entry or a section",
        ),
        ("a.ndb", b":0:S+9:41", b"the offset isn't a number"),
        (
            "a.ndb",
            b":0:SE1:41",
            b"the place is counted from the end, an entry or a section",
        ),
        (
            "a.ndb",
            b":0:1048576:41",
            b"a place past 1,048,574 has no bound in a signature file",
        ),
        ("a.ndb", b":0:*:", b"no bytes"),
        ("a.ndb", b":0:*:4?4", b"wildcards"),
        ("a.ndb", b":0:x:4g4", b"not hexadecimal"),
        ("a.ndb", b":0:x:414", b"half a byte"),
    ];
    for (path, content, why) in rows {
        let mut import = Import::new(rt.alloc(), STRICT);
        let mut err = FakeWriter::new(rt.alloc());
        assert!(rt; import.take(path, content, &mut err).is_ok());
        assert_eq!(rt; import.taken(), 0);
        assert_eq!(rt; import.left(), 1);
        assert!(rt; err.taken().starts_with(path.as_bytes()));
        assert!(rt; err.taken().ends_with(b"\n"));
        let told = err.taken();
        let front = path.len() + 10;
        assert_eq!(rt; told.get(front..told.len().saturating_sub(1)), Some(why));
    }
    Ok(())
}

#[test]
fn a_rule_gives_its_strings(rt: HostRuntime) -> Result<(), Fail> {
    let rows: [(&[u8], &[u8], &[u8]); 6] = [
        (
            b"rule r { strings: $a = \"A\\x42\\n\" condition: $a }",
            b"r 41420a\n",
            b"",
        ),
        (
            b"rule r { strings: $a = {41 /* } */ 42} condition: $a at 0x10 }",
            b"",
            b"a.yar: line 1: r: no condition\n",
        ),
        (
            b"rule r { strings: $a = \"cd\" wide ascii condition: ((any of them)) }",
            b"r 6364\nr.w 63006400\n",
            b"",
        ),
        (
            b"rule r { strings: $a = \"a\" $b = \"b\" condition: $a in (1..2KB) or $b at 3 }",
            b"r.a 61 1 2048\nr.b 62 3 3\n",
            b"",
        ),
        (
            b"\nrule r { strings: $a = \"a\" condition: $a and $a }",
            b"",
            b"a.yar: line 2: r: a condition that is no `or` of strings\n",
        ),
        (
            b"rule r { strings: $a = {41",
            b"",
            b"a.yar: line 1: a hex string without end\n",
        ),
    ];
    for (content, wanted, told) in rows {
        let same = gives(rt.alloc(), STRICT, "a.yar", content, wanted, told);
        assert!(rt; matches!(same, Ok(true)));
    }
    Ok(())
}

#[test]
fn of_format_1_no_places_are_taken(rt: HostRuntime) -> Result<(), Fail> {
    let same = gives(
        rt.alloc(),
        LOOSE,
        "a.ndb",
        b"A:1:*:41\nB:0:0:42\n",
        b"A 41\n",
        b"a.ndb: line 2: B: a range of places, which format 1 has not\n",
    );
    assert!(rt; matches!(same, Ok(true)));
    Ok(())
}

#[test]
fn what_is_written_is_read(rt: HostRuntime) -> Result<(), Fail> {
    let alloc = rt.alloc();
    let mut import = Import::new(alloc, STRICT);
    let mut err = FakeWriter::new(alloc);
    for _ in 0..10 {
        assert!(rt;
            import
                .take("a.db", b"same=41\nsame=42\nsame=43\nsame=44\n", &mut err)
                .is_ok()
        );
    }
    assert_eq!(rt; import.taken(), 40);
    assert_eq!(rt; import.left(), 0);
    let mut out = FakeWriter::new(alloc);
    assert!(rt; import.write(7, &mut out).is_ok());
    let set = SignatureSet::read(alloc, out.taken())?;
    assert_eq!(rt; set.len(), 40);
    assert_eq!(rt; set.name(39), Some(b"same.40".as_slice()));
    Ok(())
}

#[test]
fn a_write_that_fails_is_told(rt: HostRuntime) -> Result<(), Fail> {
    let alloc = rt.alloc();
    let mut import = Import::new(alloc, STRICT);
    let mut err = FakeWriter::new(alloc).with(Fault::Fails { write: 1 });
    assert!(rt; import.take("a.db", b"A=41\nB=4\n", &mut err).is_ok());
    for write in 1..20u64 {
        let mut out = FakeWriter::new(alloc)
            .in_pieces_of(1)
            .with(Fault::TakesNothing { write });
        let failed = matches!(import.write(7, &mut out), Err(ImportFault::Write));
        assert!(rt; failed);
    }
    Ok(())
}

#[test]
fn refused_or_not_a_line_is_taken_once(rt: HostRuntime) -> Result<(), Fail> {
    let alloc = rt.alloc();
    let mut import = Import::new(alloc, STRICT);
    let mut err = FakeWriter::new(alloc);
    may_refuse(alloc);
    let first = import.take("a.db", b"A=41\n", &mut err);
    refuse_no_more(alloc);
    if first.is_err() {
        assert_eq!(rt; import.taken(), 0);
        assert!(rt; import.take("a.db", b"A=41\n", &mut err).is_ok());
    }
    assert_eq!(rt; import.taken(), 1);
    Ok(())
}

// Lines that are left out, and how they are told.
const LEFT_OUT: &[u8] = b"A=4\nB=41\nC=4\nD=\n";

const TOLD: &[u8] = b"a.db: line 1: A: half a byte\n\
    a.db: line 3: C: half a byte\n\
    a.db: line 4: D: no bytes\n";

#[test]
fn what_is_left_out_is_told_in_few_writes(rt: HostRuntime) -> Result<(), Fail> {
    let alloc = rt.alloc();
    let mut import = Import::new(alloc, STRICT);
    let mut err = FakeWriter::new(alloc);
    assert!(rt; import.take("a.db", LEFT_OUT, &mut err).is_ok());
    assert_eq!(rt; err.taken(), TOLD);
    assert_eq!(rt; err.flushed(), TOLD.len());
    assert_eq!(rt; err.writes(), 1);
    Ok(())
}

#[test]
fn what_is_left_out_is_told_before_the_next_file(rt: HostRuntime) -> Result<(), Fail> {
    let alloc = rt.alloc();
    let mut import = Import::new(alloc, STRICT);
    let mut err = FakeWriter::new(alloc);
    for path in ["a.hdb", "a.txt"] {
        let before = err.taken().len();
        assert!(rt; import.take(path, b"x", &mut err).is_ok());
        assert!(rt; err.taken().len() > before);
        assert_eq!(rt; err.flushed(), err.taken().len());
    }
    Ok(())
}

// A writer that has what it needs to take TOLD once more: memory grows by as much as there was.
fn writer_with_room(alloc: Global) -> Result<FakeWriter, Fail> {
    let mut writer = FakeWriter::new(alloc);
    for _ in 0..3 {
        write_text(&mut writer, TOLD)?;
    }
    writer.flush()?;
    Ok(writer)
}

#[test]
fn refused_or_not_what_was_left_out_is_told(rt: HostRuntime) -> Result<(), Fail> {
    let alloc = rt.alloc();
    let mut import = Import::new(alloc, STRICT);
    let mut err = writer_with_room(alloc)?;
    let before = err.taken().len();
    may_refuse(alloc);
    let taken = import.take("a.db", LEFT_OUT, &mut err);
    refuse_no_more(alloc);
    let told = err.taken().get(before..).unwrap_or(b"none".as_slice());
    assert!(rt; TOLD.starts_with(told));
    assert_eq!(rt; err.flushed(), err.taken().len());
    match taken {
        Ok(()) => {
            assert_eq!(rt; import.taken(), 1);
            assert_eq!(rt; import.left(), 3);
            assert_eq!(rt; told, TOLD);
        }
        Err(fault) => {
            assert_eq!(rt; fault, ImportFault::NoMemory);
            assert!(rt; import.taken() <= 1);
        }
    }
    Ok(())
}
