use crate::fault::WordFault;
use crate::tests::word_rows::ROWS;
use crate::word::{Said, Unjudged, Word, put_said};
use crate::word_reader::WordReader;
use av_base::Version;
use std::alloc::Global;
use std::test::Fail;

// What a service sends, a frame a text, what is heard of it, and the fault that ends it.
#[derive(Clone, Copy)]
pub struct Row<'a> {
    pub name: &'a str,
    pub frames: &'a [&'a str],
    pub said: &'a [Wanted],
    pub fault: Option<WordFault>,
}

// What is heard, by its numbers in their order.
#[derive(Clone, Copy)]
pub enum Wanted {
    Hello(u64),
    Clean(u64, u64, u64),
    Infected(u64, u64, u32, u64),
    Full(u64),
    Newer(u64),
}

fn said_of(wanted: Wanted) -> Said {
    match wanted {
        Wanted::Hello(version) => Said::Hello {
            version: Version::new(version),
        },
        Wanted::Clean(number, version, count) => Said::Of(Word::Clean {
            number,
            version: Version::new(version),
            count,
        }),
        Wanted::Infected(number, version, index, end_at) => Said::Of(Word::Infected {
            number,
            version: Version::new(version),
            index,
            end_at,
        }),
        Wanted::Full(number) => Said::Of(Word::None {
            number,
            why: Unjudged::Full,
        }),
        Wanted::Newer(number) => Said::Of(Word::None {
            number,
            why: Unjudged::Newer,
        }),
    }
}

// Hears a piece, appends what it says, and answers the fault, if there was one.
fn hear(
    reader: &mut WordReader,
    piece: &[u8],
    heard: &mut Vec<Said>,
) -> Result<Option<WordFault>, Fail> {
    let mut rest = piece;
    for _ in 0..piece.len() {
        match reader.hear(rest) {
            Ok((taken, said)) => {
                if let Some(said) = said {
                    heard.push(said)?;
                }
                rest = rest.get(taken..).unwrap_or(&[]);
            }
            Err(fault) => return Ok(Some(fault)),
        }
    }
    Ok(None)
}

// Whether a row is heard as it is written, in pieces of so many bytes at most.
fn is_heard(alloc: Global, row: &Row<'_>, size: usize) -> Result<bool, Fail> {
    let mut bytes = Vec::new(alloc);
    for frame in row.frames {
        bytes.extend_from_slice(&hex::decode(alloc, *frame)?)?;
    }
    let mut reader = WordReader::new();
    let mut heard = Vec::new(alloc);
    let mut fault = None;
    for piece in bytes.chunks(size.max(1)) {
        fault = hear(&mut reader, piece, &mut heard)?;
    }
    let mut same = heard.len() == row.said.len() && fault == row.fault;
    for (one, wanted) in heard.iter().zip(row.said.iter()) {
        same = same && *one == said_of(*wanted);
    }
    Ok(same && reader.has_greeted() == !row.said.is_empty())
}

// The first row that is not heard as it is written.
fn first_other(alloc: Global, size: usize) -> Result<Option<&'static str>, Fail> {
    for row in ROWS.as_slice() {
        if !is_heard(alloc, row, size)? {
            return Ok(Some(row.name));
        }
    }
    Ok(None)
}

#[test]
fn each_row_is_heard_as_written(rt: HostRuntime) -> Result<(), Fail> {
    assert_eq!(rt; first_other(rt.alloc(), usize::MAX)?, None);
    Ok(())
}

#[test]
fn each_row_is_heard_as_written_byte_by_byte(rt: HostRuntime) -> Result<(), Fail> {
    assert_eq!(rt; first_other(rt.alloc(), 1)?, None);
    Ok(())
}

#[test]
fn each_row_is_heard_as_written_in_pieces_of_five(rt: HostRuntime) -> Result<(), Fail> {
    assert_eq!(rt; first_other(rt.alloc(), 5)?, None);
    Ok(())
}

// One of each of what a service says, with all fields different, and the frame of each.
fn spelled() -> [(Said, &'static str); 5] {
    let number = 0x0102_0304_0506_0708;
    let version = Version::new(0x1112_1314_1516_1718);
    [
        (Said::Hello { version }, "0000000a14011112131415161718"),
        (
            Said::Of(Word::Clean {
                number,
                version,
                count: 0x2122_2324_2526_2728,
            }),
            "0000001a1501020304050607080011121314151617182122232425262728",
        ),
        (
            Said::Of(Word::Infected {
                number,
                version,
                index: 0x0304,
                end_at: 0x2122_2324_2526_2728,
            }),
            "0000001e150102030405060708011112131415161718000003042122232425262728",
        ),
        (
            Said::Of(Word::None {
                number,
                why: Unjudged::Full,
            }),
            "0000000b1501020304050607080201",
        ),
        (
            Said::Of(Word::None {
                number,
                why: Unjudged::Newer,
            }),
            "0000000b1501020304050607080202",
        ),
    ]
}

#[test]
fn each_field_of_a_word_has_its_place(rt: HostRuntime) -> Result<(), Fail> {
    for (said, frame) in spelled().as_slice() {
        let mut out = Vec::new(rt.alloc());
        put_said(&mut out, said)?;
        assert_eq!(rt; out.as_slice(), hex::decode(rt.alloc(), *frame)?.as_slice());
    }
    Ok(())
}
