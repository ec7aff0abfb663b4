ghost use Rattle.std.specs.Prelude.{◌≡◌, ◌<◌, ◌≤◌, ◌^◌};
ghost use Rattle.av_filter_table.specs.Chains.{asked_about, longer, shorter};
ghost use Rattle.av_filter_table.specs.FilterTable.{question_in};

use crate::question::Question;
use av_base::{Generation, MessageId, Port, StreamId};

/// The row of a question: the content that it is of, the port that it is asked on, and its opens, as a chain of so many from
/// the first to the last.
#[derive(Clone, Copy, Debug, PartialEq, Eq)]
pub struct Asked {
    pub stream: StreamId,
    pub generation: Generation,
    pub port: Port,
    pub first: Option<u64>,
    pub last: Option<u64>,
    pub opens: usize,
}

impl Asked {
    // Of a content, asked on a port, for no open yet.
    pub(crate) fn new(stream: StreamId, generation: Generation, port: Port) -> Asked
        ensures { result ≡ asked_about stream generation port }
    {
        Asked {
            stream,
            generation,
            port,
            first: None,
            last: None,
            opens: 0,
        }
    }

    // The question of this row, by its number in a boot.
    pub(crate) fn question(self, boot: u64, seq: u64) -> Question
        ensures { result ≡ question_in boot seq self }
    {
        Question {
            id: MessageId { boot, seq },
            port: self.port,
            stream: self.stream,
            generation: self.generation,
        }
    }

    // With an open behind the others.
    pub(crate) fn longer(self, number: u64) -> Asked
        requires { self.opens < 2 ^ 63 }
        ensures { result ≡ longer self number }
    {
        Asked {
            first: self.first.or(Some(number)),
            last: Some(number),
            opens: self.opens + 1,
            ..self
        }
    }

    // With its first open gone, which named this one as the next.
    pub(crate) fn shorter(self, next: Option<u64>) -> Asked
        requires { 1 ≤ self.opens }
        ensures { result ≡ shorter self next }
    {
        let last = match next {
            None => None,
            Some(_) => self.last,
        };
        Asked {
            first: next,
            last,
            opens: self.opens - 1,
            ..self
        }
    }
}
