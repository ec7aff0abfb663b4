ghost use Rattle.std.specs.Prelude.{◌≡◌};
ghost use Rattle.av_filter.specs.Verdict.{verdict_of};
ghost use Rattle.av_filter_table.specs.Table.{context_of};
ghost use Rattle.av_guard.specs.Telling.{answered, denied_as};

use av_base::{Cause, Generation, StreamId, Verdict, Version};
use av_filter::Filter;
use av_pend::Answer;

/// What an ask is answered.
#[derive(Clone, Copy, Debug, PartialEq, Eq)]
pub enum Answered {
    /// The content is clean under the signature set of this version. The generation is that of the stream that has it.
    Granted {
        generation: Generation,
        version: Version,
    },
    /// A signature occurs in it: the version of the set, the index of the signature, counted from 0 in the set's order, and
    /// the count of bytes up to its last one.
    Infected {
        version: Version,
        signature: u32,
        end: u64,
    },
    /// It could not be judged, and is kept out.
    Denied {
        cause: Cause,
    },
    /// It could not be judged, and is let through.
    Unscanned {
        generation: Generation,
        cause: Cause,
    },
}

impl Answered {
    // An answer of the filter, as the client is told it, of whose content the filter has this stream.
    pub(crate) fn of(filter: &Filter, stream: StreamId, answer: &Answer) -> Answered
        ensures { result ≡ answered filter.now stream answer.now }
    {
        match answer {
            Answer::Granted {
                generation,
                version,
                ..
            } => Answered::Granted {
                generation: *generation,
                version: *version,
            },
            Answer::Unscanned {
                generation,
                cause,
                ..
            } => Answered::Unscanned {
                generation: *generation,
                cause: *cause,
            },
            Answer::Denied { cause, .. } => Answered::denied(filter, stream, *cause),
        }
    }

    // A denial for this cause.
    fn denied(filter: &Filter, stream: StreamId, cause: Cause) -> Answered
        ensures { result ≡ denied_as cause (verdict_of (context_of filter.now.contexts stream)) }
    {
        if cause != Cause::Infected {
            return Answered::Denied { cause };
        }
        let Some((version, verdict)) = filter.verdict_at(stream) else {
            return Answered::Denied { cause };
        };
        match verdict {
            Verdict::Clean => Answered::Denied { cause },
            Verdict::Infected { index, end_at } => Answered::Infected {
                version,
                signature: index,
                end: end_at,
            },
        }
    }
}
