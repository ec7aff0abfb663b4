ghost use Rattle.std.specs.Prelude.{◌≡◌, IfSome};

use crate::contents::{Contents, content_of};
use crate::finding::Finding;
use crate::listed::{Failing, Listing, listed, with_listed};
use crate::opened::{Opened, conclude_opened, count_opened, print_opened};
use crate::quoted::quoted_name;
use crate::scan::scan_files;
use crate::scanner::{Input, Scanner, admit_set};
use crate::scanners::{NamedScanner, Scanners};
use crate::streams::look_at;
use av_base::{Cause, Generation, OpenId, ReadFault, StreamId, Verdict, Version};
use av_fakes::{FakeReader, FakeWriter, Fault};
use av_pend::Answer;
use av_status::faults::EmptySets;
use av_status::{Form, Shown, Status, Tally, Wishes};
use std::alloc::{AllocError, Global};
use std::collections::BTreeSet;
use std::test::Fail;

const SET: &[u8] = b"avsig 1\nversion 1\nx 5858\n";

const PLAIN: Wishes = Wishes {
    shown: Shown::All,
    form: Form::Lines,
    has_found_status: false,
    has_summary: false,
};

fn input<'a>(name: &'a str, content: Option<&'a [u8]>) -> Input<'a> {
    Input { name, content }
}

#[test]
fn files_are_scanned_until_the_first_fault(rt: HostRuntime) -> Result<(), Fail> {
    let set = Some(SET);
    let bad = Some(b"avsig 3\n".as_slice());
    let clean = Some(b"ABC".as_slice());
    let infected = Some(b"AXXB".as_slice());
    let cases: [(Option<&[u8]>, Option<&[u8]>, Status, &[u8], &[u8]); 4] = [
        (
            set,
            infected,
            Status::Done,
            b"a clean\nb infected 0 x end 3\n",
            b"",
        ),
        (None, None, Status::Device, b"", b"set: cannot read\n"),
        (bad, None, Status::Refused, b"", b"set line 1: kind 1\n"),
        (set, None, Status::Device, b"", b"b: cannot read\n"),
    ];
    for (set, second, status, lines, line) in cases {
        let files = [input("a", clean), input("b", second)];
        let mut out = FakeWriter::new(rt.alloc()).in_pieces_of(1);
        let mut err = FakeWriter::new(rt.alloc());
        let ended = scan_files(
            rt.alloc(),
            input("set", set),
            files.as_slice(),
            PLAIN,
            &mut out,
            &mut err,
        );
        assert_eq!(rt; ended, status);
        assert_eq!(rt; out.taken(), lines);
        assert_eq!(rt; err.taken(), line);
        assert!(rt; ended != Status::Done || out.flushed() == lines.len());
    }
    Ok(())
}

// The names are those of git's tests of its quoting, and each control character on either side of its range.
#[test]
fn a_name_stands_in_quotes_where_it_would_make_a_line_of_its_own(
    rt: HostRuntime,
) -> Result<(), Fail> {
    let rows: [(&[u8], &[u8]); 20] = [
        (b"plain/name.txt", b"plain/name.txt"),
        (b"with space", b"with space"),
        (b"back\\slash", b"back\\slash"),
        (b"mid\"quote", b"mid\"quote"),
        (b"\"front", b"\"\\\"front\""),
        (b"x\n/etc/passwd clean\ny", b"\"x\\n/etc/passwd clean\\ny\""),
        (
            b"\x07\x08\x09\x0a\x0b\x0c\x0d",
            b"\"\\a\\b\\t\\n\\v\\f\\r\"",
        ),
        (b"\x01\x06\x0e\x1f", b"\"\\001\\006\\016\\037\""),
        (b"\x1b[2J\\\"", b"\"\\033[2J\\\\\\\"\""),
        (b"a\x7fb", b"\"a\\177b\""),
        (b"a~", b"a~"),
        (b"\xc2\x80", b"\"\\302\\200\""),
        (b"\xc2\x9f", b"\"\\302\\237\""),
        (b"\xc2\xa0", b"\xc2\xa0"),
        (b"\xc3\xa9", b"\xc3\xa9"),
        (b"\xc3\x80\xc2\x9b2K", b"\"\xc3\x80\\302\\2332K\""),
        (b"\xe2\x80\xae", b"\xe2\x80\xae"),
        (b"\xc2", b"\xc2"),
        (b"\n", b"\"\\n\""),
        (b"", b""),
    ];
    for (name, shown) in rows {
        let mut room = Vec::new(rt.alloc());
        assert_eq!(rt; quoted_name(name, &mut room)?, shown);
    }
    Ok(())
}

#[test]
fn no_name_of_a_file_makes_a_line_of_its_own_but_a_program_has_it_as_it_is(
    rt: HostRuntime,
) -> Result<(), Fail> {
    let name = "x\n/etc/passwd clean\ny";
    let set = input("set", Some(SET));
    let files = [
        input(name, Some(b"XX".as_slice())),
        input("\u{9b}", Some(b"A".as_slice())),
    ];
    let rows: [(Form, &[u8]); 2] = [
        (
            Form::Lines,
            b"\"x\\n/etc/passwd clean\\ny\" infected 0 x end 2\n\"\\302\\233\" clean\n",
        ),
        (
            Form::ZeroEnded,
            b"x\n/etc/passwd clean\ny infected 0 x end 2\0\xc2\x9b clean\0",
        ),
    ];
    for (form, lines) in rows {
        let wishes = Wishes { form, ..PLAIN };
        let mut out = FakeWriter::new(rt.alloc());
        let mut err = FakeWriter::new(rt.alloc());
        let ended = scan_files(
            rt.alloc(),
            set,
            files.as_slice(),
            wishes,
            &mut out,
            &mut err,
        );
        assert_eq!(rt; ended, Status::Done);
        assert_eq!(rt; out.taken(), lines);
    }
    Ok(())
}

// An open of the file `a` that was told this.
fn told<'a>(answer: Answer) -> Opened<'a> {
    Opened { name: "a", answer }
}

fn denied(cause: Cause) -> Answer {
    Answer::Denied {
        open_id: OpenId::new(1),
        cause,
    }
}

#[test]
fn an_open_that_nobody_judged_is_no_success(rt: HostRuntime) -> Result<(), Fail> {
    let granted = Answer::Granted {
        open_id: OpenId::new(1),
        least: Version::new(0),
        stream: StreamId::new(1),
        generation: Generation::new(2),
        version: Version::new(1),
    };
    let unscanned = Answer::Unscanned {
        open_id: OpenId::new(1),
        stream: StreamId::new(1),
        generation: Generation::new(2),
        cause: Cause::NotConnected,
    };
    let busy = denied(Cause::Busy);
    let infected = denied(Cause::Infected);
    let lost = denied(Cause::PortDisconnected);
    let rows = [
        (granted, infected, Status::Done, Status::Done, Status::Found),
        (granted, granted, Status::Done, Status::Done, Status::Done),
        (granted, busy, Status::Done, Status::Device, Status::Device),
        (
            unscanned,
            granted,
            Status::Done,
            Status::Device,
            Status::Device,
        ),
        (
            infected,
            lost,
            Status::Done,
            Status::Device,
            Status::FoundInPart,
        ),
        (
            granted,
            lost,
            Status::Refused,
            Status::Refused,
            Status::Refused,
        ),
        (
            infected,
            lost,
            Status::Refused,
            Status::Refused,
            Status::FoundInPart,
        ),
        (
            granted,
            infected,
            Status::Device,
            Status::Device,
            Status::FoundInPart,
        ),
    ];
    for (one, other, ended, plain, found) in rows {
        let opened = [told(one), told(other)];
        for (has_found_status, status) in [(false, plain), (true, found)] {
            let wishes = Wishes {
                has_found_status,
                ..PLAIN
            };
            let mut err = FakeWriter::new(rt.alloc());
            let mut tally = Tally::new();
            count_opened(&mut tally, &opened);
            assert_eq!(rt; conclude_opened(tally, 2, ended, wishes, &mut err), status);
        }
    }
    Ok(())
}

#[test]
fn a_set_without_signatures_is_told_and_refused_unless_it_is_allowed(
    rt: HostRuntime,
) -> Result<(), Fail> {
    let empty: &[u8] = b"avsig 1\nversion 7\n";
    let line: &[u8] = b"set: version 7 has no signatures\n";
    let rows: [(&[u8], EmptySets, Result<(), Status>, &[u8]); 4] = [
        (SET, EmptySets::Refused, Ok(()), b""),
        (SET, EmptySets::Allowed, Ok(()), b""),
        (empty, EmptySets::Refused, Err(Status::Refused), line),
        (empty, EmptySets::Allowed, Ok(()), line),
    ];
    for (content, empty_sets, admitted, line) in rows {
        let mut err = FakeWriter::new(rt.alloc());
        let Ok(scanner) = Scanner::read(rt.alloc(), input("set", Some(content)), &mut err) else {
            panic!(rt; "no set");
        };
        let set = scanner.set();
        assert!(&rt;
            admit_set(set, "set", empty_sets, &mut err) == admitted && err.taken() == line
        );
    }
    Ok(())
}

#[test]
fn lines_that_can_not_be_written_are_told(rt: HostRuntime) -> Result<(), Fail> {
    let files = [input("a", Some(b"ABC".as_slice()))];
    for write in 1..9 {
        for fault in [
            Fault::Fails { write },
            Fault::TakesNothing { write },
            Fault::KeepsUnflushed,
        ] {
            let mut out = FakeWriter::new(rt.alloc()).in_pieces_of(1).with(fault);
            let mut err = FakeWriter::new(rt.alloc());
            let set = input("set", Some(SET));
            let ended = scan_files(rt.alloc(), set, files.as_slice(), PLAIN, &mut out, &mut err);
            assert_eq!(rt; ended, Status::Device, "{fault:?}");
            assert_eq!(rt; err.taken(), b"device\n".as_slice());
        }
    }
    Ok(())
}

// Two sets of the same signatures.
fn two_sets(alloc: Global) -> Result<Scanners, Fail> {
    let mut sets = Scanners::of(alloc, named(alloc, "first")?)?;
    sets.add(named(alloc, "second")?)?;
    Ok(sets)
}

fn named(alloc: Global, name: &str) -> Result<NamedScanner, Fail> {
    let mut err = FakeWriter::new(alloc);
    let Ok(scanner) = Scanner::read(alloc, input(name, Some(SET)), &mut err) else {
        return Err(AllocError.into());
    };
    Ok(NamedScanner::new(String::from_str(alloc, name)?, scanner))
}

#[test]
fn a_content_in_pieces_has_the_verdict_of_the_whole_under_each_set(
    rt: HostRuntime,
) -> Result<(), Fail> {
    let sets = two_sets(rt.alloc())?;
    let infected = Verdict::Infected {
        index: 0,
        end_at: 5,
    };
    let rows: [(&[u8], Verdict); 4] = [
        (b"AAAXXA", infected),
        (b"AAAXX", infected),
        (b"AXAXAX", Verdict::Clean),
        (b"", Verdict::Clean),
    ];
    for (content, verdict) in rows {
        for piece in 1..8 {
            let mut buffer = [0u8; 7];
            for most in [content.len() as u64, 100] {
                let mut reader = FakeReader::new(content).in_pieces_of(piece);
                let Ok(found) = sets.scan_pieces(rt.alloc(), &mut reader, &mut buffer, most) else {
                    panic!(rt; "no findings");
                };
                let wanted = [Finding { set: 0, verdict }, Finding { set: 1, verdict }];
                assert!(&rt; found.as_slice() == wanted.as_slice());
            }
        }
    }
    Ok(())
}

#[test]
fn a_content_that_is_too_long_or_fails_is_told(rt: HostRuntime) -> Result<(), Fail> {
    let sets = two_sets(rt.alloc())?;
    let content = b"AAAXXA".as_slice();
    for piece in 1..8 {
        let mut buffer = [0u8; 4];
        let mut reader = FakeReader::new(content).in_pieces_of(piece);
        let got = sets.scan_pieces(rt.alloc(), &mut reader, &mut buffer, 5);
        assert!(&rt; matches!(got, Err(ReadFault::TooLong)));
    }
    for place in 1..8 {
        let mut buffer = [0u8; 4];
        let mut reader = FakeReader::new(content).in_pieces_of(1).failing_at(place);
        let got = sets.scan_pieces(rt.alloc(), &mut reader, &mut buffer, 6);
        assert!(&rt; matches!(got, Err(ReadFault::Device)));
    }
    Ok(())
}

#[test]
fn a_list_has_the_names_between_its_ends(rt: HostRuntime) -> Result<(), Fail> {
    let rows: [(&[u8], &[&[u8]]); 5] = [
        (b"", &[]),
        (b"\n\n", &[]),
        (b"a", &[b"a"]),
        (b"a b\n", &[b"a b"]),
        (b"\na\n\nb\0c\nd", &[b"a", b"b\0c", b"d"]),
    ];
    for (text, names) in rows {
        let got = listed(rt.alloc(), text, b'\n')?;
        assert!(&rt; got.as_slice() == names);
    }
    Ok(())
}

#[test]
fn a_name_that_is_no_text_ends_a_list_or_is_passed_over(rt: HostRuntime) -> Result<(), Fail> {
    let text = b"a\0\0caf\xe9\0b".as_slice();
    for failing in [Failing::Ends, Failing::Passes] {
        let mut err = FakeWriter::new(rt.alloc());
        let mut tally = Tally::new();
        let given = ["g"];
        let list = Listing {
            path: "list",
            text,
            end: 0,
        };
        let got = with_listed(
            rt.alloc(),
            given.as_slice(),
            list,
            failing,
            &mut tally,
            &mut err,
        );
        match got {
            Ok(names) => {
                assert!(&rt;
                    failing == Failing::Passes && names.as_slice() == ["g", "a", "b"].as_slice()
                );
                assert!(&rt; tally.missed == 1 && tally.worst == Status::Refused);
            }
            Err(status) => {
                assert!(&rt; failing == Failing::Ends && status == Status::Refused);
            }
        }
        let line = b"list: name 2 is not UTF-8\n".as_slice();
        assert_eq!(rt; err.taken(), line);
    }
    Ok(())
}

#[test]
fn only_infected_files_are_shown_and_counted(rt: HostRuntime) -> Result<(), Fail> {
    let files = [
        input("a", Some(b"ABC".as_slice())),
        input("b", Some(b"AXX".as_slice())),
    ];
    for found in 0..2usize {
        let mut out = FakeWriter::new(rt.alloc());
        let mut err = FakeWriter::new(rt.alloc());
        let wishes = Wishes {
            shown: Shown::Infected,
            form: Form::Lines,
            has_found_status: true,
            has_summary: true,
        };
        let rows: [(Status, &[u8], &[u8]); 2] = [
            (
                Status::Done,
                b"",
                b"1 files scanned, 0 infected, 0 not scanned\n",
            ),
            (
                Status::Found,
                b"b infected 0 x end 3\n",
                b"2 files scanned, 1 infected, 0 not scanned\n",
            ),
        ];
        let ended = scan_files(
            rt.alloc(),
            input("set", Some(SET)),
            &files[..found + 1],
            wishes,
            &mut out,
            &mut err,
        );
        let (status, lines, line) = rows[found];
        assert_eq!(rt; ended, status);
        assert_eq!(rt; out.taken(), lines);
        assert_eq!(rt; err.taken(), line);
    }
    Ok(())
}

#[test]
fn files_that_were_scanned_are_told_as_objects(rt: HostRuntime) -> Result<(), Fail> {
    let files = [
        input("a \"b\"", Some(b"ABC".as_slice())),
        input("b", Some(b"AXX".as_slice())),
    ];
    let rows: [(Shown, &[u8]); 2] = [
        (
            Shown::All,
            b"{\"file\":\"a \\\"b\\\"\",\"verdict\":\"clean\",\"version\":1}\n\
            {\"file\":\"b\",\"verdict\":\"infected\",\"version\":1,\"index\":0,\"name\":\"x\",\"end\":3}\n",
        ),
        (
            Shown::Infected,
            b"{\"file\":\"b\",\"verdict\":\"infected\",\"version\":1,\"index\":0,\"name\":\"x\",\"end\":3}\n",
        ),
    ];
    for (shown, lines) in rows {
        let mut out = FakeWriter::new(rt.alloc()).in_pieces_of(1);
        let mut err = FakeWriter::new(rt.alloc());
        let wishes = Wishes {
            shown,
            form: Form::Json,
            ..PLAIN
        };
        let ended = scan_files(
            rt.alloc(),
            input("set", Some(SET)),
            &files,
            wishes,
            &mut out,
            &mut err,
        );
        assert_eq!(rt; ended, Status::Done);
        assert_eq!(rt; out.taken(), lines);
        assert!(rt; err.taken().is_empty());
    }
    Ok(())
}

#[test]
fn files_that_were_opened_are_told_as_objects(rt: HostRuntime) -> Result<(), Fail> {
    let open_id = OpenId::new(1);
    let stream = StreamId::new(1);
    let generation = Generation::new(2);
    let opened = [
        Opened {
            name: "a",
            answer: Answer::Granted {
                open_id,
                least: Version::new(0),
                stream,
                generation,
                version: Version::new(5),
            },
        },
        Opened {
            name: "b",
            answer: Answer::Unscanned {
                open_id,
                stream,
                generation,
                cause: Cause::Busy,
            },
        },
        Opened {
            name: "c",
            answer: Answer::Denied {
                open_id,
                cause: Cause::Infected,
            },
        },
    ];
    let rows: [(Shown, &[u8]); 2] = [
        (
            Shown::All,
            b"{\"file\":\"a\",\"answer\":\"granted\",\"generation\":2,\"version\":5}\n\
            {\"file\":\"b\",\"answer\":\"unscanned\",\"generation\":2,\"cause\":4,\"why\":\"busy\"}\n\
            {\"file\":\"c\",\"answer\":\"denied\",\"cause\":2,\"why\":\"infected\"}\n",
        ),
        (
            Shown::Infected,
            b"{\"file\":\"b\",\"answer\":\"unscanned\",\"generation\":2,\"cause\":4,\"why\":\"busy\"}\n\
            {\"file\":\"c\",\"answer\":\"denied\",\"cause\":2,\"why\":\"infected\"}\n",
        ),
    ];
    for (shown, lines) in rows {
        let mut out = FakeWriter::new(rt.alloc()).in_pieces_of(1);
        let mut err = FakeWriter::new(rt.alloc());
        let wishes = Wishes {
            shown,
            form: Form::Json,
            ..PLAIN
        };
        let ended = print_opened(rt.alloc(), &opened, wishes, &mut out, &mut err);
        assert_eq!(rt; ended, Status::Done);
        assert_eq!(rt; out.taken(), lines);
        assert!(rt; err.taken().is_empty());
    }
    Ok(())
}

#[test]
fn a_look_tells_the_first_fault(rt: HostRuntime) -> Result<(), Fail> {
    let most = Some(1_048_576);
    let large = Some(1_048_577);
    let rows: [(&str, Option<u64>, Result<(), Status>, &[u8]); 9] = [
        ("a", None, Err(Status::Device), b"a: cannot read\n"),
        ("a", most, Ok(()), b""),
        ("a", None, Err(Status::Device), b"a: cannot read\n"),
        ("b b", None, Err(Status::Device), b"b b: cannot read\n"),
        ("b b", large, Err(Status::Refused), b"b b: BadName\n"),
        ("a", large, Err(Status::Refused), b"a: Exists\n"),
        ("a", Some(0), Err(Status::Refused), b"a: Exists\n"),
        ("b", large, Err(Status::Refused), b"b: TooLarge\n"),
        ("b", Some(0), Ok(()), b""),
    ];
    let mut seen = BTreeSet::new(rt.alloc());
    for (name, size, ended, line) in rows {
        let mut err = FakeWriter::new(rt.alloc());
        let looked = look_at(rt.alloc(), &mut seen, name, size, &mut err);
        assert!(&rt; looked == ended && err.taken() == line);
    }
    Ok(())
}

// A file in memory: what a read of it gives is known.
#[derive(Drop)]
struct Held<'a> {
    content: &'a [u8],
}

impl<'a> Contents for Held<'a> {
    ghost has_content = { λ held _ content. content ≡ held.content.now };

    fn read(&self, _name: &str, buffer: &mut [u8]) -> Option<usize> {
        let count = self.content.len();
        if buffer.len() < count {
            return None;
        }
        buffer[..count].copy_from_slice(self.content);
        Some(count)
    }
}

// So the content of it is known too.
fn content_held<'a>(held: &Held<'_>, buffer: &'a mut [u8]) -> Option<&'a [u8]>
    ensures { IfSome result (λ content. content.now ≡ held.now.content.now) }
{
    content_of(held, "a", buffer)
}

#[test]
fn a_content_is_what_a_read_gave(rt: HostRuntime) -> Result<(), Fail> {
    let cases: [(&[u8], Option<&[u8]>); 4] = [
        (b"", Some(b"")),
        (b"A", Some(b"A")),
        (b"ABC", Some(b"ABC")),
        (b"ABCD", None),
    ];
    for (content, wanted) in cases {
        let mut buffer = [7u8; 3];
        let held = Held { content };
        assert!(&rt; content_held(&held, &mut buffer) == wanted);
    }
    Ok(())
}
