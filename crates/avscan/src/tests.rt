use crate::check::check_set;
use crate::run::run_text;
use av_base::recorded::Recorded;
use av_fakes::{FakeReader, FakeWriter, Fault};
use av_files::Input;
use av_host::{Crew, HostRequest, host_files};
use av_status::{Form, Shown, Status, Wishes};
use av_trust::Trust;
use std::test::Fail;

const SCRIPT: &[u8] = b"volume 1 closed\ncreate a\n";

const LINES: &[u8] = b"boot 1\nstream 1 generation 1\n";

const OBJECTS: &[u8] =
    b"{\"line\":1,\"command\":\"volume 1 closed\",\"did\":[{\"is\":\"boot\",\"boot\":1}]}\n\
    {\"line\":2,\"command\":\"create a\",\"did\":[{\"is\":\"stream\",\"stream\":1,\"generation\":1}]}\n";

const SET: &[u8] = b"avsig 1\nversion 1\nx 5858\n";

const CREW: Crew = Crew {
    openers: 2,
    workers: 2,
    has_spare: false,
};

const PLAIN: Wishes = Wishes {
    shown: Shown::All,
    form: Form::Lines,
    has_found_status: false,
    has_summary: false,
};

// What a host with the files `a` and the other tells, with its status.
type Told<'a> = (&'a str, Option<&'a [u8]>, Status, &'a [u8], &'a [u8]);

fn files<'a>(name: &'a str, content: Option<&'a [u8]>) -> [Input<'a>; 2] {
    let first = Input {
        name: "a",
        content: Some(b"ABC".as_slice()),
    };
    [first, Input { name, content }]
}

fn set_file<'a>() -> Input<'a> {
    Input {
        name: "set",
        content: Some(SET),
    }
}

fn request_of<'a>(files: &'a [Input<'a>]) -> HostRequest<'a> {
    HostRequest {
        set: set_file(),
        files,
        crew: CREW,
        wishes: PLAIN,
    }
}

#[test]
fn a_script_ends_with_its_status_and_one_line(rt: HostRuntime) -> Result<(), Fail> {
    let cases: [(&[u8], Status, &[u8], &[u8]); 3] = [
        (SCRIPT, Status::Done, LINES, b""),
        (
            b"volume 1 closed\nx\n",
            Status::Refused,
            b"",
            b"line 2: bad script\n",
        ),
        (b"", Status::Refused, b"", b"line 1: bad script\n"),
    ];
    for (script, status, lines, line) in cases {
        let mut reader = Recorded::new(FakeReader::new(script).in_pieces_of(1));
        let mut out = FakeWriter::new(rt.alloc()).in_pieces_of(1);
        let mut err = FakeWriter::new(rt.alloc()).in_pieces_of(1);
        assert_eq!(rt;
            run_text(Form::Lines, rt.alloc(), &mut reader, &mut out, &mut err),
            status
        );
        assert_eq!(rt; out.taken(), lines);
        assert_eq!(rt; err.taken(), line);
    }
    Ok(())
}

#[test]
fn a_script_is_told_as_json(rt: HostRuntime) -> Result<(), Fail> {
    let mut reader = Recorded::new(FakeReader::new(SCRIPT).in_pieces_of(1));
    let mut out = FakeWriter::new(rt.alloc()).in_pieces_of(1);
    let mut err = FakeWriter::new(rt.alloc());
    let status = run_text(Form::Json, rt.alloc(), &mut reader, &mut out, &mut err);
    assert_eq!(rt; status, Status::Done);
    assert_eq!(rt; out.taken(), OBJECTS);
    assert!(rt; err.taken().is_empty());
    Ok(())
}

#[test]
fn a_script_over_a_failing_device_is_told(rt: HostRuntime) -> Result<(), Fail> {
    for place in 1..25 {
        let mut reader = Recorded::new(FakeReader::new(SCRIPT).in_pieces_of(1).failing_at(place));
        let mut out = FakeWriter::new(rt.alloc());
        let mut err = FakeWriter::new(rt.alloc());
        assert_eq!(rt;
            run_text(Form::Lines, rt.alloc(), &mut reader, &mut out, &mut err),
            Status::Device
        );
        assert!(rt; out.taken().is_empty());
        assert_eq!(rt; err.taken(), b"device\n".as_slice());
        let mut whole = Recorded::new(SCRIPT);
        let mut full = FakeWriter::new(rt.alloc())
            .in_pieces_of(1)
            .with(Fault::Fails { write: place });
        let mut err = FakeWriter::new(rt.alloc());
        assert_eq!(rt;
            run_text(Form::Lines, rt.alloc(), &mut whole, &mut full, &mut err),
            Status::Device
        );
        assert_eq!(rt; err.taken(), b"device\n".as_slice());
    }
    Ok(())
}

#[test]
fn a_host_tells_of_each_file_or_of_the_first_that_can_be_no_stream(
    rt: HostRuntime,
) -> Result<(), Fail> {
    let infected = Some(b"AXX".as_slice());
    let rows: [Told<'_>; 4] = [
        (
            "b",
            infected,
            Status::Done,
            b"a granted generation 2 version 1\nb denied cause 2\n",
            b"",
        ),
        ("b", None, Status::Device, b"", b"b: cannot read\n"),
        ("a", infected, Status::Refused, b"", b"a: Exists\n"),
        ("b b", infected, Status::Refused, b"", b"b b: BadName\n"),
    ];
    for (name, content, status, lines, line) in rows {
        let mut out = FakeWriter::new(rt.alloc()).in_pieces_of(1);
        let mut err = FakeWriter::new(rt.alloc());
        let files = files(name, content);
        let request = request_of(&files);
        let ended = host_files(&rt, rt.alloc(), request, &mut out, &mut err);
        assert!(&rt; ended == status && out.taken() == lines && err.taken() == line);
    }
    Ok(())
}

#[test]
fn a_signature_file_is_checked(rt: HostRuntime) -> Result<(), Fail> {
    let rows: [(&str, &[u8], Result<(), Status>, &[u8], &[u8]); 4] = [
        ("set", SET, Ok(()), b"set: version 1, 1 signatures\n", b""),
        (
            "a\nb",
            SET,
            Ok(()),
            b"\"a\\nb\": version 1, 1 signatures\n",
            b"",
        ),
        (
            "set",
            b"avsig 1\nversion 1\nx 5\n",
            Err(Status::Refused),
            b"",
            b"set:3: not pairs of hexadecimal digits\n",
        ),
        (
            "set",
            b"avsig 1\nversion 9\n",
            Err(Status::Refused),
            b"",
            b"set: version 9 has no signatures\n",
        ),
    ];
    for (name, content, checked, line, fault) in rows {
        let file = Input {
            name,
            content: Some(content),
        };
        let mut out = FakeWriter::new(rt.alloc()).in_pieces_of(1);
        let mut err = FakeWriter::new(rt.alloc());
        assert!(&rt; check_set(rt.alloc(), Trust::Unsigned, file, &mut out, &mut err) == checked);
        assert!(&rt; out.taken() == line && err.taken() == fault);
        let mut full = FakeWriter::new(rt.alloc()).with(Fault::Fails { write: 1 });
        let mut err = FakeWriter::new(rt.alloc());
        let told = if checked.is_ok() {
            Err(Status::Device)
        } else {
            checked
        };
        assert!(&rt; check_set(rt.alloc(), Trust::Unsigned, file, &mut full, &mut err) == told);
    }
    Ok(())
}

#[test]
fn lines_of_a_host_that_can_not_be_written_are_told(rt: HostRuntime) -> Result<(), Fail> {
    let mut out = FakeWriter::new(rt.alloc()).with(Fault::KeepsUnflushed);
    let mut err = FakeWriter::new(rt.alloc());
    let files = files("b", Some(b"".as_slice()));
    let request = request_of(&files);
    let ended = host_files(&rt, rt.alloc(), request, &mut out, &mut err);
    assert!(&rt; ended == Status::Device);
    assert!(&rt; err.taken() == b"device\n".as_slice());
    Ok(())
}
