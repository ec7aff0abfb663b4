use crate::reading::{read_trusted, trusted_text};
use av_fakes::{FakeWriter, Fault};
use av_files::{Input, MAX_FILE};
use av_status::Status;
use av_trust::{Key, Trust, sign};
use std::alloc::Global;
use std::test::Fail;

const KEY: &[u8; 32] = b"0123456789abcdef0123456789abcdef";

const TEXT: &[u8] = b"avsig 1\nversion 7\na 41\n";

const NO_SET: &[u8] = b"avsig 1\nversion 7\na zz\n";

// What is told of a file's set: its version, or the status and the line.
fn told_of<'a>(
    alloc: Global,
    trust: Trust<'_>,
    content: Option<&[u8]>,
    err: &mut FakeWriter,
) -> Result<u64, Status> {
    let file = Input {
        name: "s\n",
        content,
    };
    let set = read_trusted(alloc, trust, file, err)?;
    Ok(set.version().get())
}

#[test]
fn a_set_is_read_or_one_line_says_why_not(rt: HostRuntime) -> Result<(), Fail> {
    let alloc = rt.alloc();
    let key = Key::new(KEY)?;
    let other = Key::new(b"another-key-of-more-than-32-bytes")?;
    let signed = sign(alloc, &key, TEXT)?;
    let signed_badly = sign(alloc, &key, NO_SET)?;
    let long = vec![in alloc; b'x'; MAX_FILE + 1]?;
    let by_key = Trust::Signed(&key);
    let rows: [(Trust<'_>, Option<&[u8]>, Result<u64, Status>, &str); 13] = [
        (Trust::Unsigned, Some(TEXT), Ok(7), ""),
        (by_key, Some(signed.as_slice()), Ok(7), ""),
        (
            Trust::Unsigned,
            Some(signed.as_slice()),
            Err(Status::Refused),
            "s\\x0a: is signed (--trust KEY verifies it)\n",
        ),
        (
            by_key,
            Some(TEXT),
            Err(Status::Refused),
            "s\\x0a: is not signed (--trust takes signed files alone)\n",
        ),
        (
            by_key,
            Some(b"avsigned 1 ".as_slice()),
            Err(Status::Refused),
            "s\\x0a: not the first line of a signed file\n",
        ),
        (
            Trust::Signed(&other),
            Some(signed.as_slice()),
            Err(Status::Refused),
            "s\\x0a: not signed with this key, or changed since\n",
        ),
        (
            Trust::Unsigned,
            Some(NO_SET),
            Err(Status::Refused),
            "set line 3: kind 4\n",
        ),
        (
            by_key,
            Some(signed_badly.as_slice()),
            Err(Status::Refused),
            "set line 3: kind 4\n",
        ),
        (
            Trust::Signed(&other),
            Some(signed_badly.as_slice()),
            Err(Status::Refused),
            "s\\x0a: not signed with this key, or changed since\n",
        ),
        (
            Trust::Unsigned,
            None,
            Err(Status::Device),
            "s\\x0a: cannot read\n",
        ),
        (by_key, None, Err(Status::Device), "s\\x0a: cannot read\n"),
        (
            Trust::Unsigned,
            Some(long.as_slice()),
            Err(Status::Refused),
            "s\\x0a: TooLarge\n",
        ),
        (
            by_key,
            Some(long.as_slice()),
            Err(Status::Refused),
            "s\\x0a: TooLarge\n",
        ),
    ];
    for (trust, content, wanted, line) in rows {
        let mut err = FakeWriter::new(alloc);
        let told = told_of(alloc, trust, content, &mut err);
        assert!(&rt; told == wanted, "{line}");
        assert_eq!(&rt; err.taken(), line.as_bytes());
    }
    Ok(())
}

#[test]
fn a_line_that_can_not_be_written_changes_no_status(rt: HostRuntime) -> Result<(), Fail> {
    let alloc = rt.alloc();
    let file = Input {
        name: "s",
        content: Some(b"avsigned".as_slice()),
    };
    let mut full = FakeWriter::new(alloc).with(Fault::Fails { write: 1 });
    assert!(rt;
        matches!(
            trusted_text(Trust::Unsigned, file, &mut full),
            Err(Status::Refused)
        )
    );
    Ok(())
}
