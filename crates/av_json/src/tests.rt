use crate::{LineFault, Writer, put_opened, put_scanned, write_line};
use av_base::{Cause, Generation, OpenId, StreamId, Verdict, Version};
use av_fakes::{FakeWriter, Fault};
use av_pend::Answer;
use std::alloc::{AllocError, Global};
use std::test::Fail;

#[test]
fn a_file_that_was_scanned_is_an_object(rt: HostRuntime) -> Result<(), Fail> {
    let infected = Verdict::Infected {
        index: 3,
        end_at: 68,
    };
    let rows: [(&[u8], Verdict, &[u8]); 3] = [
        (
            b"a b\"\\\x01",
            Verdict::Clean,
            b"{\"file\":\"a b\\\"\\\\\\u0001\",\"verdict\":\"clean\",\"version\":7}\n",
        ),
        (
            b"a",
            infected,
            b"{\"file\":\"a\",\"verdict\":\"infected\",\"version\":7,\"index\":3,\"name\":\"eicar\",\"end\":68}\n",
        ),
        (
            b"\xff\x0a",
            Verdict::Clean,
            b"{\"file_hex\":\"ff0a\",\"verdict\":\"clean\",\"version\":7}\n",
        ),
    ];
    for (file, verdict, wanted) in rows {
        let mut out = FakeWriter::new(rt.alloc()).in_pieces_of(1);
        let mut line = Writer::new(Vec::new(rt.alloc()));
        put_scanned(
            rt.alloc(),
            &mut line,
            file,
            Version::new(7),
            verdict,
            b"eicar".as_slice(),
        )?;
        assert!(rt; write_line(line, &mut out).is_ok());
        assert_eq!(rt; out.taken(), wanted);
    }
    Ok(())
}

#[test]
fn a_file_that_was_opened_is_an_object(rt: HostRuntime) -> Result<(), Fail> {
    let open_id = OpenId::new(1);
    let stream = StreamId::new(2);
    let generation = Generation::new(3);
    let rows: [(Answer, &[u8]); 3] = [
        (
            Answer::Granted {
                open_id,
                least: Version::new(4),
                stream,
                generation,
                version: Version::new(5),
            },
            b"{\"file\":\"a\",\"answer\":\"granted\",\"generation\":3,\"version\":5}\n",
        ),
        (
            Answer::Unscanned {
                open_id,
                stream,
                generation,
                cause: Cause::NotConnected,
            },
            b"{\"file\":\"a\",\"answer\":\"unscanned\",\"generation\":3,\"cause\":3,\"why\":\"not connected\"}\n",
        ),
        (
            Answer::Denied {
                open_id,
                cause: Cause::Infected,
            },
            b"{\"file\":\"a\",\"answer\":\"denied\",\"cause\":2,\"why\":\"infected\"}\n",
        ),
    ];
    for (answer, wanted) in rows {
        let mut out = FakeWriter::new(rt.alloc()).in_pieces_of(1);
        let mut line = Writer::new(Vec::new(rt.alloc()));
        put_opened(rt.alloc(), &mut line, b"a".as_slice(), answer)?;
        assert!(rt; write_line(line, &mut out).is_ok());
        assert_eq!(rt; out.taken(), wanted);
    }
    Ok(())
}

// The object of a clean file.
fn put_clean(alloc: Global, file: &[u8]) -> Result<Writer, AllocError> {
    let mut line = Writer::new(Vec::new(alloc));
    put_scanned(
        alloc,
        &mut line,
        file,
        Version::new(7),
        Verdict::Clean,
        b"".as_slice(),
    )?;
    Ok(line)
}

#[test]
fn hidden_characters_of_a_name_are_escapes(rt: HostRuntime) -> Result<(), Fail> {
    let rows: [(&[u8], &[u8]); 21] = [
        // U+007F, after the last plain one of ASCII
        (b"~\x7f~", b"~\\u007f~"),
        // U+0080, U+0085 and U+009F, and U+00A0 after them
        (
            b"\xc2\x80\xc2\x85\xc2\x9f\xc2\xa0",
            b"\\u0080\\u0085\\u009f\xc2\xa0",
        ),
        // U+061B, U+061C and U+061D
        (b"\xd8\x9b\xd8\x9c\xd8\x9d", b"\xd8\x9b\\u061c\xd8\x9d"),
        // U+200D to U+2010
        (
            b"\xe2\x80\x8d\xe2\x80\x8e\xe2\x80\x8f\xe2\x80\x90",
            b"\xe2\x80\x8d\\u200e\\u200f\xe2\x80\x90",
        ),
        // U+2029 to U+202F
        (b"\xe2\x80\xa9", b"\xe2\x80\xa9"),
        (b"\xe2\x80\xaa", b"\\u202a"),
        (b"\xe2\x80\xab", b"\\u202b"),
        (b"\xe2\x80\xac", b"\\u202c"),
        (b"\xe2\x80\xad", b"\\u202d"),
        (b"\xe2\x80\xae", b"\\u202e"),
        (b"\xe2\x80\xaf", b"\xe2\x80\xaf"),
        // U+2065 to U+206A
        (b"\xe2\x81\xa5", b"\xe2\x81\xa5"),
        (b"\xe2\x81\xa6", b"\\u2066"),
        (b"\xe2\x81\xa7", b"\\u2067"),
        (b"\xe2\x81\xa8", b"\\u2068"),
        (b"\xe2\x81\xa9", b"\\u2069"),
        (b"\xe2\x81\xaa", b"\xe2\x81\xaa"),
        // others that are not ASCII: U+00E9, U+0E2E, U+20AC and U+1F98A
        (
            b"\xc3\xa9\xe0\xb8\xae\xe2\x82\xac\xf0\x9f\xa6\x8a",
            b"\xc3\xa9\xe0\xb8\xae\xe2\x82\xac\xf0\x9f\xa6\x8a",
        ),
        // those that JSON escapes itself, a backslash before a hidden one, and text between
        (
            b"a\x00\n\\\x7f\"\xe2\x80\xaegpj.\xc2\x85exe",
            b"a\\u0000\\n\\\\\\u007f\\\"\\u202egpj.\\u0085exe",
        ),
        // hidden ones alone, one after the other
        (
            b"\x7f\x7f\xd8\x9c\xe2\x81\xa6\xc2\x80",
            b"\\u007f\\u007f\\u061c\\u2066\\u0080",
        ),
        (b"", b""),
    ];
    for (file, shown) in rows {
        let mut wanted = Vec::new(rt.alloc());
        wanted.extend_from_slice(b"{\"file\":\"")?;
        wanted.extend_from_slice(shown)?;
        wanted.extend_from_slice(b"\",\"verdict\":\"clean\",\"version\":7}\n")?;
        let line = put_clean(rt.alloc(), file)?;
        let mut out = FakeWriter::new(rt.alloc()).in_pieces_of(1);
        assert!(rt; write_line(line, &mut out).is_ok());
        assert_eq!(rt; out.taken(), wanted.as_slice());
    }
    Ok(())
}

#[test]
fn a_name_that_ends_within_a_character_is_its_digits(rt: HostRuntime) -> Result<(), Fail> {
    let rows: [(&[u8], &[u8]); 3] = [
        (
            b"a\xc2",
            b"{\"file_hex\":\"61c2\",\"verdict\":\"clean\",\"version\":7}\n",
        ),
        (
            b"\xe2",
            b"{\"file_hex\":\"e2\",\"verdict\":\"clean\",\"version\":7}\n",
        ),
        (
            b"\x7f\xe2\x80",
            b"{\"file_hex\":\"7fe280\",\"verdict\":\"clean\",\"version\":7}\n",
        ),
    ];
    for (file, wanted) in rows {
        let line = put_clean(rt.alloc(), file)?;
        let mut out = FakeWriter::new(rt.alloc());
        assert!(rt; write_line(line, &mut out).is_ok());
        assert_eq!(rt; out.taken(), wanted);
    }
    Ok(())
}

#[test]
fn a_line_with_nothing_hidden_is_one_write(rt: HostRuntime) -> Result<(), Fail> {
    let mut out = FakeWriter::new(rt.alloc());
    let line = put_clean(rt.alloc(), b"a\xc3\xa9\xe2\x82\xac".as_slice())?;
    assert!(rt; write_line(line, &mut out).is_ok());
    assert_eq!(rt; out.writes(), 1);
    Ok(())
}

#[test]
fn a_failed_write_leaves_the_front_of_a_line(rt: HostRuntime) -> Result<(), Fail> {
    // The four pieces of this line: what comes before an escape, the escape, the next escape, and the rest.
    let rows: [(u64, &[u8]); 4] = [
        (1, b""),
        (2, b"{\"file\":\"a"),
        (3, b"{\"file\":\"a\\u007f"),
        (4, b"{\"file\":\"a\\u007f\\u202e"),
    ];
    for (write, wanted) in rows {
        for fault in [Fault::Fails { write }, Fault::TakesNothing { write }] {
            let mut out = FakeWriter::new(rt.alloc()).with(fault);
            let line = put_clean(rt.alloc(), b"a\x7f\xe2\x80\xaeb".as_slice())?;
            assert_eq!(rt; write_line(line, &mut out).err(), Some(LineFault::Write));
            assert_eq!(rt; out.taken(), wanted);
        }
    }
    Ok(())
}
