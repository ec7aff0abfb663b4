ghost use Rattle.std.specs.Prelude.{◌≡◌, ◌+◌, ◌≤◌, ◌++◌, OnOk, OnErr, vec_len, vec_capacity};
ghost use Rattle.av_parts.specs.Spelling.{number_of, said_body, said_frame, said_size, word_body, word_size};

use crate::fields::{put1, put4, put8};
use crate::sizes::{CLEAN_SIZE, HELLO_SIZE, INFECTED_SIZE, UNJUDGED_SIZE};
use av_base::Version;
use std::alloc::AllocError;

/// Why a content has no verdict.
#[derive(Clone, Copy, Debug, PartialEq, Eq)]
pub enum Unjudged {
    /// The service judges as many contents as it may.
    Full,
    /// A newer signature set came, so that the content is to be asked about again.
    Newer,
}

impl Unjudged {
    // The number that stands in a frame.
    fn number(self) -> u8
        ensures { result ≡ number_of self }
    {
        match self {
            Unjudged::Full => 1,
            Unjudged::Newer => 2,
        }
    }
}

/// What a service says of a content, under the guard's number of it.
#[derive(Clone, Copy, Debug, PartialEq, Eq)]
pub enum Word {
    /// It is whole, has so many bytes, and is clean under the signature set of this version.
    Clean {
        number: u64,
        version: Version,
        count: u64,
    },
    /// A signature occurs: its index in the set of this version, and the count of bytes up to its end.
    Infected {
        number: u64,
        version: Version,
        index: u32,
        end_at: u64,
    },
    /// There is no verdict.
    None {
        number: u64,
        why: Unjudged,
    },
}

/// What a service says: it greets first, once, and says words of contents then.
#[derive(Clone, Copy, Debug, PartialEq, Eq)]
pub enum Said {
    /// It judges under the signature set of this version.
    Hello { version: Version },
    /// This of a content.
    Of(Word),
}

/// Appends the frame of what a service says, at most 34 bytes. Where memory is refused nothing is appended.
pub fn put_said(out: &mut Vec<u8>, said: &Said) -> Result<(), AllocError>
    ensures ok { OnOk result (out.new.items ≡ out.old.items ++ said_frame said.now) }
    ensures err { OnErr result (out.new.items ≡ out.old.items) }
{
    let size = size(said);
    out.reserve(4 + size)?;
    put4(out, size as u32);
    put_body(out, said);
    Ok(())
}

// How many bytes the body has.
fn size(said: &Said) -> usize
    ensures size { result ≡ said_size said.now }
    ensures small { result ≤ INFECTED_SIZE }
{
    match *said {
        Said::Hello { .. } => HELLO_SIZE,
        Said::Of(Word::Clean { .. }) => CLEAN_SIZE,
        Said::Of(Word::Infected { .. }) => INFECTED_SIZE,
        Said::Of(Word::None { .. }) => UNJUDGED_SIZE,
    }
}

// Appends the body, for which there is room.
fn put_body(out: &mut Vec<u8>, said: &Said)
    requires { vec_len out.old + said_size said.now ≤ vec_capacity out.old }
    ensures { out.new.items ≡ out.old.items ++ said_body said.now }
{
    match *said {
        Said::Hello { version } => {
            put1(out, 20);
            put1(out, 1);
            put8(out, version.get());
        }
        Said::Of(word) => put_word(out, word),
    }
}

// Appends the body of a word, for which there is room.
fn put_word(out: &mut Vec<u8>, word: Word)
    requires { vec_len out.old + word_size word ≤ vec_capacity out.old }
    ensures { out.new.items ≡ out.old.items ++ word_body word }
{
    match word {
        Word::Clean {
            number,
            version,
            count,
        } => {
            put1(out, 21);
            put8(out, number);
            put1(out, 0);
            put8(out, version.get());
            put8(out, count);
        }
        Word::Infected {
            number,
            version,
            index,
            end_at,
        } => {
            put1(out, 21);
            put8(out, number);
            put1(out, 1);
            put8(out, version.get());
            put4(out, index);
            put8(out, end_at);
        }
        Word::None { number, why } => {
            put1(out, 21);
            put8(out, number);
            put1(out, 2);
            put1(out, why.number());
        }
    }
}
