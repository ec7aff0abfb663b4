use crate::answer::{OpenAnswer, put_answer};
use crate::client_reader::{ClientReader, ClientSays};
use crate::content_answer::{ContentAnswer, ContentAnswerFeed};
use crate::contents::{How, put_begin, put_end, put_part};
use crate::fault::{AnswerFault, ClientFault, UnfitPart};
use crate::large_answer::{LargeAnswer, LargeCause, put_large_answer};
use crate::tests::client_rows::ROWS;
use crate::watch::put_newer;
use av_base::{Cause, Generation, Refusal, Version};
use av_fakes::{may_refuse, refuse_no_more};
use std::alloc::{AllocError, Global};
use std::test::Fail;

// What a client sends, in pieces of a text each, what is heard of it, and the fault that ends it.
#[derive(Clone, Copy)]
pub struct Row<'a> {
    pub name: &'a str,
    pub bytes: &'a [&'a str],
    pub heard: &'a [&'a str],
    pub fault: Option<ClientFault>,
}

// What is told of a client. Bytes of parts that follow each other are counted together.
#[derive(Drop)]
struct Told {
    lines: Vec<String>,
    bytes: usize,
}

impl Told {
    fn take(&mut self, alloc: Global, said: ClientSays<'_>) -> Result<(), AllocError> {
        let line = match said {
            ClientSays::Part { some, .. } => {
                self.bytes = self.bytes.saturating_add(some.len());
                return Ok(());
            }
            ClientSays::Ask(ask) => {
                format!(in alloc; "ask {} {} {}", ask.tag, ask.label.len(), ask.content.len())?
            }
            ClientSays::Begin { tag, .. } => format!(in alloc; "begin {tag}")?,
            ClientSays::End { how, .. } => match how {
                How::Whole => format!(in alloc; "end")?,
                How::GivenUp => format!(in alloc; "given up")?,
            },
            ClientSays::Watch { tag, version } => format!(in alloc; "watch {tag} {version}")?,
        };
        self.end_parts(alloc)?;
        Ok(self.lines.push(line)?)
    }

    fn end_parts(&mut self, alloc: Global) -> Result<(), AllocError> {
        if self.bytes > 0 {
            let line = format!(in alloc; "{} more", self.bytes)?;
            self.lines.push(line)?;
            self.bytes = 0;
        }
        Ok(())
    }
}

// Hears a piece, and answers the fault, if there was one.
fn hear(
    alloc: Global,
    reader: &mut ClientReader,
    piece: &[u8],
    told: &mut Told,
) -> Result<Option<ClientFault>, Fail> {
    let mut rest = piece;
    for _ in 0..piece.len() {
        match reader.hear(rest) {
            Ok(heard) => {
                rest = rest.get(heard.taken..).unwrap_or(&[]);
                if let Some(said) = heard.said {
                    told.take(alloc, said)?;
                }
            }
            Err(Refusal::Fault(fault)) => return Ok(Some(fault)),
            Err(Refusal::NoMemory) => return Err(Fail::from("no memory")),
        }
    }
    Ok(None)
}

// Whether a row is heard as it is written, in pieces of so many bytes at most.
fn is_heard(alloc: Global, row: &Row<'_>, size: usize) -> Result<bool, Fail> {
    let mut bytes = Vec::new(alloc);
    for text in row.bytes {
        bytes.extend_from_slice(&hex::decode(alloc, *text)?)?;
    }
    let mut reader = ClientReader::new(alloc);
    let mut told = Told {
        lines: Vec::new(alloc),
        bytes: 0,
    };
    let mut fault = None;
    for piece in bytes.chunks(size.max(1)) {
        fault = hear(alloc, &mut reader, piece, &mut told)?;
    }
    told.end_parts(alloc)?;
    let mut same = told.lines.len() == row.heard.len() && fault == row.fault;
    for (one, wanted) in told.lines.iter().zip(row.heard.iter()) {
        same = same && one.as_str() == *wanted;
    }
    Ok(same)
}

// The first row that is not heard as it is written.
fn first_other(alloc: Global, size: usize) -> Result<Option<&'static str>, Fail> {
    for row in ROWS.as_slice() {
        if !is_heard(alloc, row, size)? {
            return Ok(Some(row.name));
        }
    }
    Ok(None)
}

#[test]
fn each_client_is_heard_as_written(rt: HostRuntime) -> Result<(), Fail> {
    assert_eq!(rt; first_other(rt.alloc(), usize::MAX)?, None);
    assert_eq!(rt; first_other(rt.alloc(), 1)?, None);
    assert_eq!(rt; first_other(rt.alloc(), 5)?, None);
    assert_eq!(rt; first_other(rt.alloc(), 13)?, None);
    Ok(())
}

#[test]
fn a_watch_is_heard_outside_of_a_content_and_within_one(rt: HostRuntime) -> Result<(), Fail> {
    let row = Row {
        name: "a watch, a content that begins, a watch within it, some of it",
        bytes: &[
            "000000110800000000000001020000000000000304",
            "0000000a05000000000000000700",
            "0000001108ffffffffffffffff0000000000000000",
            "0000000a06000000000000000741",
        ],
        heard: &[
            "watch 258 772",
            "begin 7",
            "watch 18446744073709551615 0",
            "1 more",
        ],
        fault: None,
    };
    assert!(rt; is_heard(rt.alloc(), &row, usize::MAX)?);
    assert!(rt; is_heard(rt.alloc(), &row, 1)?);
    assert!(rt; is_heard(rt.alloc(), &row, 20)?);
    Ok(())
}

#[test]
fn a_watch_has_17_bytes(rt: HostRuntime) -> Result<(), Fail> {
    let longer = Row {
        name: "18 bytes",
        bytes: &["0000001208"],
        heard: &[],
        fault: Some(ClientFault::Shape),
    };
    assert!(rt; is_heard(rt.alloc(), &longer, 1)?);
    let shorter = Row {
        name: "16 bytes",
        bytes: &["0000001008"],
        ..longer
    };
    assert!(rt; is_heard(rt.alloc(), &shorter, 1)?);
    let mut out = Vec::new(rt.alloc());
    put_newer(&mut out, 0x0102_0304_0506_0708, Version::new(0x1112))?;
    let wanted = hex::decode(rt.alloc(), "000000110901020304050607080000000000001112")?;
    assert_eq!(rt; out.as_slice(), wanted.as_slice());
    Ok(())
}

#[test]
fn refused_or_not_a_newer_version_is_spelled(rt: HostRuntime) -> Result<(), Fail> {
    let mut out = Vec::new(rt.alloc());
    may_refuse(rt.alloc());
    let put = put_newer(&mut out, 7, Version::new(1));
    refuse_no_more(rt.alloc());
    assert_eq!(rt; out.len(), if put.is_ok() { 21 } else { 0 });
    Ok(())
}

#[test]
fn each_field_of_a_content_has_its_place(rt: HostRuntime) -> Result<(), Fail> {
    let tag = 0x0102_0304_0506_0708;
    let mut out = Vec::new(rt.alloc());
    put_begin(&mut out, tag, b"ab")?;
    put_part(&mut out, tag, b"ABC")?;
    put_end(&mut out, tag, How::Whole, 0x1112_1314_1516_1718)?;
    put_end(&mut out, tag, How::GivenUp, 3)?;
    let mut wanted = hex::decode(rt.alloc(), "0000000c050102030405060708026162")?;
    wanted.extend_from_slice(&hex::decode(rt.alloc(), "0000000c060102030405060708414243")?)?;
    let whole = hex::decode(rt.alloc(), "00000012070102030405060708001112131415161718")?;
    wanted.extend_from_slice(&whole)?;
    let given_up = hex::decode(rt.alloc(), "00000012070102030405060708010000000000000003")?;
    wanted.extend_from_slice(&given_up)?;
    assert_eq!(rt; out.as_slice(), wanted.as_slice());
    Ok(())
}

#[test]
fn what_does_not_fit_is_not_spelled(rt: HostRuntime) -> Result<(), Fail> {
    let bytes = vec![in rt.alloc(); 0u8; 1_048_577]?;
    let mut out = Vec::new(rt.alloc());
    let label = put_begin(&mut out, 1, &bytes[..256]);
    assert_eq!(rt; label, Err(Refusal::Fault(UnfitPart::Label)));
    assert_eq!(rt;
        put_part(&mut out, 1, &[]),
        Err(Refusal::Fault(UnfitPart::Empty))
    );
    assert_eq!(rt;
        put_part(&mut out, 1, &bytes),
        Err(Refusal::Fault(UnfitPart::TooLong))
    );
    assert!(rt; out.is_empty());
    put_begin(&mut out, 1, &bytes[..255])?;
    assert_eq!(rt; out.len(), 269);
    put_part(&mut out, 1, &bytes[1..])?;
    assert_eq!(rt; out.len(), 1_048_858);
    Ok(())
}

#[test]
fn each_large_cause_has_its_number_and_its_words(rt: HostRuntime) -> Result<(), Fail> {
    let causes = [
        (LargeCause::AskAgain, 11u8, "ask again"),
        (LargeCause::TooLarge, 12, "too large"),
        (LargeCause::GivenUp, 13, "given up"),
        (LargeCause::NoParts, 14, "takes no parts"),
    ];
    for (cause, number, text) in causes.as_slice() {
        assert_eq!(rt; cause.number(), *number);
        assert_eq!(rt; LargeCause::from_number(*number), Some(*cause));
        assert_eq!(rt; cause.text(), *text);
    }
    assert_eq!(rt; LargeCause::from_number(10), None);
    assert_eq!(rt; LargeCause::from_number(15), None);
    let mut out = Vec::new(rt.alloc());
    let denied = LargeAnswer::Denied {
        tag: 0x0102_0304_0506_0708,
        cause: LargeCause::AskAgain,
    };
    put_large_answer(&mut out, &denied)?;
    let passed = LargeAnswer::Unscanned {
        tag: 0x0102_0304_0506_0708,
        generation: Generation::new(2),
        cause: LargeCause::NoParts,
    };
    put_large_answer(&mut out, &passed)?;
    let mut wanted = hex::decode(rt.alloc(), "0000000a0301020304050607080b")?;
    let second = hex::decode(rt.alloc(), "000000120401020304050607080000000000000002")?;
    wanted.extend_from_slice(&second)?;
    wanted.push(14)?;
    assert_eq!(rt; out.as_slice(), wanted.as_slice());
    Ok(())
}

#[test]
fn refused_or_not_a_client_is_heard(rt: HostRuntime) -> Result<(), Fail> {
    let mut out = Vec::new(rt.alloc());
    put_begin(&mut out, 7, b"f")?;
    let mut reader = ClientReader::new(rt.alloc());
    let mut at = 0;
    for _ in 0..16u8 {
        let rest = out.get(at..).unwrap_or(&[]);
        may_refuse(rt.alloc());
        let first = reader.hear(rest);
        refuse_no_more(rt.alloc());
        let taken = match first {
            Ok(heard) => heard.taken,
            Err(refusal) => {
                assert_eq!(rt; refusal, Refusal::NoMemory);
                0
            }
        };
        at = at.saturating_add(taken);
    }
    assert!(rt; at == out.len() && reader.kept() == 0 && reader.is_within());
    Ok(())
}

#[test]
fn refused_or_not_a_content_is_spelled(rt: HostRuntime) -> Result<(), Fail> {
    let mut out = Vec::new(rt.alloc());
    may_refuse(rt.alloc());
    let first = put_part(&mut out, 7, b"ABC");
    refuse_no_more(rt.alloc());
    if first.is_err() {
        assert!(rt; first == Err(Refusal::NoMemory) && out.is_empty());
        put_part(&mut out, 7, b"ABC")?;
    }
    assert_eq!(rt; out.len(), 16);
    Ok(())
}

#[test]
fn refused_or_not_a_content_begins_and_ends(rt: HostRuntime) -> Result<(), Fail> {
    let mut begin = Vec::new(rt.alloc());
    let mut end = Vec::new(rt.alloc());
    may_refuse(rt.alloc());
    let begun = put_begin(&mut begin, 7, b"f");
    let ended = put_end(&mut end, 7, How::Whole, 0);
    refuse_no_more(rt.alloc());
    if begun.is_err() {
        assert!(rt; begun == Err(Refusal::NoMemory) && begin.is_empty());
        put_begin(&mut begin, 7, b"f")?;
    }
    if ended.is_err() {
        assert!(rt; end.is_empty());
        put_end(&mut end, 7, How::Whole, 0)?;
    }
    assert!(rt; begin.len() == 15 && end.len() == 22);
    Ok(())
}

// Denied: tag 8, ask again.
const AGAIN: LargeAnswer = LargeAnswer::Denied {
    tag: 8,
    cause: LargeCause::AskAgain,
};

#[test]
fn refused_or_not_a_large_answer_is_spelled(rt: HostRuntime) -> Result<(), Fail> {
    let mut out = Vec::new(rt.alloc());
    may_refuse(rt.alloc());
    let first = put_large_answer(&mut out, &AGAIN);
    refuse_no_more(rt.alloc());
    if first.is_err() {
        assert!(rt; out.is_empty());
        put_large_answer(&mut out, &AGAIN)?;
    }
    assert_eq!(rt; out.len(), 14);
    Ok(())
}

#[test]
fn refused_or_not_a_large_answer_comes(rt: HostRuntime) -> Result<(), Fail> {
    let mut out = Vec::new(rt.alloc());
    put_large_answer(&mut out, &AGAIN)?;
    let mut feed = ContentAnswerFeed::new(rt.alloc());
    may_refuse(rt.alloc());
    let pushed = feed.push(&out);
    refuse_no_more(rt.alloc());
    if pushed.is_err() {
        assert!(rt; feed.next() == Ok(None));
        feed.push(&out)?;
    }
    assert!(rt; feed.next() == Ok(Some(ContentAnswer::Large(AGAIN))));
    Ok(())
}

#[test]
fn the_room_of_a_large_ask_of_a_client_is_given_back(rt: HostRuntime) -> Result<(), Fail> {
    let mut bytes = Vec::new(rt.alloc());
    crate::ask::put_ask(&mut bytes, 7, b"", &vec![in rt.alloc(); 0u8; 65_536]?)?;
    let mut reader = ClientReader::new(rt.alloc());
    let mut told = Told {
        lines: Vec::new(rt.alloc()),
        bytes: 0,
    };
    assert_eq!(rt;
        hear(rt.alloc(), &mut reader, &bytes[..65_000], &mut told)?,
        None
    );
    assert!(rt; reader.kept() == 65_000 && reader.room() >= 65_000);
    assert_eq!(rt;
        hear(rt.alloc(), &mut reader, &bytes[65_000..], &mut told)?,
        None
    );
    assert!(rt; reader.kept() == 0 && reader.room() < 1_000 && told.lines.len() == 1);
    Ok(())
}

fn answers() -> [ContentAnswer; 3] {
    [
        ContentAnswer::Large(LargeAnswer::Denied {
            tag: 8,
            cause: LargeCause::AskAgain,
        }),
        ContentAnswer::Open(OpenAnswer::Denied {
            tag: 8,
            cause: Cause::Infected,
        }),
        ContentAnswer::Large(LargeAnswer::Unscanned {
            tag: 9,
            generation: Generation::new(2),
            cause: LargeCause::TooLarge,
        }),
    ]
}

#[test]
fn answers_of_both_kinds_are_heard_however_they_are_cut(rt: HostRuntime) -> Result<(), Fail> {
    let mut out = Vec::new(rt.alloc());
    for answer in answers().as_slice() {
        match answer {
            ContentAnswer::Open(open) => put_answer(&mut out, open)?,
            ContentAnswer::Large(large) => put_large_answer(&mut out, large)?,
        }
    }
    for cut in 0..out.len() {
        let (front, rest) = out.split_at(cut.min(out.len()));
        let mut feed = ContentAnswerFeed::new(rt.alloc());
        let mut heard = Vec::new(rt.alloc());
        for piece in [front, rest] {
            feed.push(piece)?;
            for _ in 0..4u8 {
                if let Some(answer) = feed.next()? {
                    heard.push(answer)?;
                }
            }
        }
        assert_eq!(rt; heard.as_slice(), answers().as_slice());
    }
    Ok(())
}

#[test]
fn no_cause_but_1_to_14_is_heard(rt: HostRuntime) -> Result<(), Fail> {
    for number in 0..=255u8 {
        let mut frame = hex::decode(rt.alloc(), "0000000a030000000000000008")?;
        frame.push(number)?;
        let mut feed = ContentAnswerFeed::new(rt.alloc());
        feed.push(&frame)?;
        let heard = feed.next();
        if (1..=14u8).contains(&number) {
            assert!(rt; matches!(heard, Ok(Some(_))));
        } else {
            assert_eq!(rt; heard, Err(AnswerFault::Cause));
            assert_eq!(rt; feed.next(), Err(AnswerFault::Broken));
        }
    }
    Ok(())
}
