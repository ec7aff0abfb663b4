use crate::ends::end_told;
use crate::faults::{
    Reasons, bad_set_line, empty_set, not_certified, same_socket, say_reason, say_set_reason,
};
use crate::prefixed::Prefixed;
use crate::status::Status;
use crate::tally::{Form, Shown, Tally, Wishes};
use av_fakes::{FakeWriter, Fault};
use av_frame::End;
use av_sigset::{SetFault, SetFaultKind};
use std::io::Write;
use std::test::Fail;

// What a program with this name writes, where its standard error is given the lines in pieces of so many bytes.
fn written(rt: &HostRuntime, program: &'static str, text: &[u8], piece: usize) -> FakeWriter {
    let mut err = Prefixed::new(program, FakeWriter::new(rt.alloc()));
    for part in text.chunks(piece.max(1)) {
        let _ = err.write_all(part);
    }
    err.writer
}

#[test]
fn each_line_begins_with_the_name_of_the_program(rt: HostRuntime) -> Result<(), Fail> {
    let rows: [(&[u8], &[u8]); 7] = [
        (b"", b""),
        (b"frame\n", b"avguard: frame\n"),
        (b"\n", b"avguard: \n"),
        (b"a\n\nb\n", b"avguard: a\navguard: \navguard: b\n"),
        (b"a: b\nc", b"avguard: a: b\navguard: c"),
        (b"\ra", b"avguard: \ra"),
        (
            b"one line\nanother line\n",
            b"avguard: one line\navguard: another line\n",
        ),
    ];
    for (text, lines) in rows {
        for piece in 1..30 {
            assert!(&rt; written(&rt, "avguard", text, piece).taken() == lines);
            assert!(&rt; written(&rt, "", text, piece).taken() == text);
        }
    }
    Ok(())
}

#[test]
fn a_writer_that_takes_a_byte_at_a_time_gets_the_same_lines(rt: HostRuntime) -> Result<(), Fail> {
    let mut err = Prefixed::new("avtool", FakeWriter::new(rt.alloc()).in_pieces_of(1));
    assert!(rt; err.write_all(b"a\nb\n".as_slice()).is_ok());
    assert!(rt; err.write_all(b"c".as_slice()).is_ok());
    assert_eq!(rt;
        err.writer.taken(),
        b"avtool: a\navtool: b\navtool: c".as_slice()
    );
    assert_eq!(rt; err.program(), "avtool");
    Ok(())
}

// The second write of a line is what was said: of the two before it one is the name, the other a colon.
#[test]
fn a_line_that_can_not_be_written_is_told_to_who_writes_it(rt: HostRuntime) -> Result<(), Fail> {
    let full = FakeWriter::new(rt.alloc()).with(Fault::Fails { write: 3 });
    let mut err = Prefixed::new("avscan", full);
    assert!(rt; err.write(b"a\n".as_slice()).is_err());
    Ok(())
}

#[test]
fn each_end_of_a_loop_has_its_status_and_its_line(rt: HostRuntime) -> Result<(), Fail> {
    let rows: [(End, Status, &[u8]); 7] = [
        (End::Done, Status::Done, b""),
        (End::Closed, Status::Done, b""),
        (End::Frame, Status::Refused, b"frame\n"),
        (End::AuditFull, Status::Refused, b"audit full\n"),
        (End::Memory, Status::Memory, b"no memory\n"),
        (End::ReadFault, Status::Device, b"device\n"),
        (End::WriteFault, Status::Device, b"device\n"),
    ];
    for (end, status, line) in rows {
        let mut err = FakeWriter::new(rt.alloc());
        assert!(&rt; end_told(&mut err, end) == status && err.taken() == line);
    }
    Ok(())
}

#[test]
fn a_run_that_is_not_certified_has_its_status_and_its_line(rt: HostRuntime) -> Result<(), Fail> {
    let mut err = FakeWriter::new(rt.alloc());
    assert!(&rt; not_certified(&mut err) == Status::Device);
    assert_eq!(&rt; err.taken(), b"run not certified\n".as_slice());
    Ok(())
}

// The numbers that a caller's script compares.
#[test]
fn each_status_has_its_number(rt: HostRuntime) -> Result<(), Fail> {
    let rows = [
        (Status::Done, 0),
        (Status::Refused, 1),
        (Status::Usage, 2),
        (Status::Memory, 3),
        (Status::Device, 4),
        (Status::Found, 5),
        (Status::FoundInPart, 6),
    ];
    for (status, number) in rows {
        assert_eq!(rt; status.number(), number);
    }
    Ok(())
}

#[test]
fn what_was_found_has_one_status_where_all_was_scanned_and_another_where_it_was_not(
    rt: HostRuntime,
) -> Result<(), Fail> {
    let rows = [
        (true, 0, Status::Done, Status::Done),
        (true, 1, Status::Done, Status::Found),
        (true, 2, Status::Refused, Status::FoundInPart),
        (true, 1, Status::Memory, Status::FoundInPart),
        (true, 1, Status::Device, Status::FoundInPart),
        (true, 0, Status::Device, Status::Device),
        (false, 1, Status::Done, Status::Done),
        (false, 1, Status::Refused, Status::Refused),
        (false, 1, Status::Device, Status::Device),
    ];
    for (has_found_status, infected, worst, status) in rows {
        let wishes = Wishes {
            shown: Shown::All,
            form: Form::Lines,
            has_found_status,
            has_summary: false,
        };
        let tally = Tally {
            scanned: 3,
            infected,
            missed: 1,
            worst,
        };
        assert_eq!(rt; tally.status(wishes), status);
    }
    Ok(())
}

#[test]
fn each_fault_of_a_set_has_its_words(rt: HostRuntime) -> Result<(), Fail> {
    let rows: [(SetFaultKind, &[u8]); 9] = [
        (SetFaultKind::Header, b"set:3: not `avsig 1` or `avsig 2`\n"),
        (
            SetFaultKind::Version,
            b"set:3: not `version` and a number from 1 to 2^64 - 1\n",
        ),
        (
            SetFaultKind::Name,
            b"set:3: not a name of 1 to 32 letters, digits, `.`, `_` and `-`, and a space\n",
        ),
        (
            SetFaultKind::Hex,
            b"set:3: not pairs of hexadecimal digits\n",
        ),
        (SetFaultKind::Length, b"set:3: not 1 to 64 bytes\n"),
        (
            SetFaultKind::Duplicate,
            b"set:3: a name that an earlier line has\n",
        ),
        (
            SetFaultKind::TooMany,
            b"set:3: more than 1,024 signatures, or than 16,384 bytes in all\n",
        ),
        (
            SetFaultKind::Unended,
            b"set:3: the file ends before the end of this line\n",
        ),
        (
            SetFaultKind::Range,
            b"set:3: not two numbers, the second at least the first and at most 1,048,575\n",
        ),
    ];
    for (kind, line) in rows {
        let fault = SetFault { line: 3, kind };
        let mut err = FakeWriter::new(rt.alloc());
        assert!(&rt;
            bad_set_line(&mut err, "set", fault) == Status::Refused && err.taken() == line
        );
        let mut err = FakeWriter::new(rt.alloc());
        say_set_reason(&mut err, Reasons::Given, "set", fault);
        assert_eq!(rt; err.taken(), line);
        let mut err = FakeWriter::new(rt.alloc());
        say_set_reason(&mut err, Reasons::Omitted, "set", fault);
        assert!(rt; err.taken().is_empty());
    }
    Ok(())
}

#[test]
fn a_reason_is_given_on_a_terminal_alone(rt: HostRuntime) -> Result<(), Fail> {
    let mut err = FakeWriter::new(rt.alloc());
    say_reason(&mut err, Reasons::Given, "a\x1b", "is a folder");
    assert_eq!(rt; err.taken(), b"a\\x1b: is a folder\n".as_slice());
    let mut err = FakeWriter::new(rt.alloc());
    say_reason(&mut err, Reasons::Omitted, "a", "is a folder");
    assert!(rt; err.taken().is_empty());
    Ok(())
}

#[test]
fn a_set_without_signatures_and_a_path_of_two_sockets_are_told(
    rt: HostRuntime,
) -> Result<(), Fail> {
    let mut err = FakeWriter::new(rt.alloc());
    assert_eq!(rt;
        empty_set(&mut err, "s.avsig", 18_446_744_073_709_551_615),
        Status::Refused
    );
    assert_eq!(rt;
        err.taken(),
        b"s.avsig: version 18446744073709551615 has no signatures\n".as_slice()
    );
    let mut err = FakeWriter::new(rt.alloc());
    assert_eq!(rt; same_socket(&mut err, "o"), Status::Usage);
    assert_eq!(rt; err.taken(), b"o: two sockets have one path\n".as_slice());
    Ok(())
}
