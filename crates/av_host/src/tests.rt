use crate::lines::{are_denied_right, are_of_their_files};
use crate::signatures::Signatures;
use av_base::{Cause, Generation, Limits, OpenId, StreamId, Version};
use av_files::opened::Opened;
use av_pend::Answer;
use av_sigset::SignatureSet;
use av_store::Volume;
use std::alloc::Global;
use std::test::Fail;

mod losses;

// A volume with the files a and b, of which a was written so often: streams 1 and 2.
fn volume_of(alloc: Global, content: &[u8], writes: usize) -> Result<Volume, Fail> {
    let mut volume = Volume::new(alloc, 1, Limits::greatest());
    let first = volume.create(alloc, b"a")?;
    let second = volume.create(alloc, b"b")?;
    for _ in 0..writes {
        volume.write(first, 0, content)?;
    }
    volume.write(second, 0, b"ABC")?;
    Ok(volume)
}

// The line of a file that was granted by this stream.
fn granted(name: &str, stream: u64) -> Opened<'_> {
    let answer = Answer::Granted {
        open_id: OpenId::new(1),
        least: Version::new(1),
        stream: StreamId::new(stream),
        generation: Generation::new(2),
        version: Version::new(1),
    };
    Opened { name, answer }
}

fn denied(name: &str) -> Opened<'_> {
    denied_for(name, Cause::Infected)
}

fn denied_for(name: &str, cause: Cause) -> Opened<'_> {
    let answer = Answer::Denied {
        open_id: OpenId::new(1),
        cause,
    };
    Opened { name, answer }
}

#[test]
fn grants_are_of_the_streams_that_have_their_names(rt: HostRuntime) -> Result<(), Fail> {
    let volume = volume_of(rt.alloc(), b"ABC", 1)?;
    let rows: [(&str, Opened<'_>, bool); 6] = [
        ("the first file", granted("a", 1), true),
        ("the second file", granted("b", 2), true),
        ("the stream of another file", granted("a", 2), false),
        ("a name that no stream has", granted("c", 1), false),
        ("a number that no stream has", granted("c", 3), false),
        ("a file that was denied", denied("c"), true),
    ];
    for (case, line, holds) in rows {
        assert!(&rt;
            are_of_their_files(&[line], &volume, &volume) == holds,
            "{case}"
        );
        let behind = [granted("a", 1), line];
        assert!(&rt;
            are_of_their_files(&behind, &volume, &volume) == holds,
            "{case}, last"
        );
    }
    assert!(&rt; are_of_their_files(&[], &volume, &volume));
    Ok(())
}

#[test]
fn a_granted_stream_has_the_same_content_in_both_volumes(rt: HostRuntime) -> Result<(), Fail> {
    let volume = volume_of(rt.alloc(), b"ABC", 1)?;
    let rows: [(&str, Volume, bool); 4] = [
        ("a copy", volume.copy()?, true),
        (
            "other bytes of that generation",
            volume_of(rt.alloc(), b"ABD", 1)?,
            false,
        ),
        (
            "the same bytes of another generation",
            volume_of(rt.alloc(), b"ABC", 2)?,
            false,
        ),
        (
            "no stream",
            Volume::new(rt.alloc(), 1, Limits::greatest()),
            false,
        ),
    ];
    for (case, other, holds) in &rows {
        let line = [granted("a", 1)];
        assert!(&rt;
            are_of_their_files(&line, &volume, other) == *holds,
            "{case}"
        );
        assert!(&rt;
            are_of_their_files(&line, other, &volume) == *holds,
            "{case}, turned round"
        );
        assert!(&rt;
            are_of_their_files(&[denied("a")], &volume, other),
            "{case}, denied"
        );
    }
    Ok(())
}

#[test]
fn a_file_is_denied_right_where_a_signature_occurs_in_it(rt: HostRuntime) -> Result<(), Fail> {
    let volume = volume_of(rt.alloc(), b"AXX", 1)?;
    let set = SignatureSet::from_patterns(rt.alloc(), Version::new(1), &[b"XX".as_slice()])?;
    let signatures = Signatures::build(rt.alloc(), set)?;
    let rows: [(&str, Opened<'_>, bool); 5] = [
        ("an infected file", denied("a"), true),
        ("a clean file", denied("b"), false),
        ("a name that no stream has", denied("c"), false),
        (
            "a clean file, denied for another cause",
            denied_for("b", Cause::NotConnected),
            true,
        ),
        ("a file that was granted", granted("b", 2), true),
    ];
    for (case, line, holds) in rows {
        assert!(&rt;
            are_denied_right(&[line], &volume, &signatures) == holds,
            "{case}"
        );
        let behind = [denied("a"), line];
        assert!(&rt;
            are_denied_right(&behind, &volume, &signatures) == holds,
            "{case}, last"
        );
    }
    Ok(())
}
