ghost use Rattle.std.specs.Prelude.{◌≡◌, []};
ghost use Rattle.av_filter.specs.Asking.{Calls, event_called};
ghost use Rattle.av_filter.specs.Fit.{Fits};
ghost use Rattle.av_filter.specs.declared.note.Note.TheVariants.{Quiet};

use crate::filter::Filter;
use crate::note::Note;
use crate::out::Out;
use av_base::{Port, StreamId, Version};
use av_frame::Message;
use av_store::Volume;
use std::alloc::Global;

/// What is asked of the filter, or of the volume below it.
#[derive(Clone, Copy)]
pub enum FilterCall<'a> {
    Create {
        name: &'a [u8],
    },
    Write {
        stream: StreamId,
        offset: u64,
        bytes: &'a [u8],
    },
    Cut {
        stream: StreamId,
        length: u64,
    },
    Remove {
        stream: StreamId,
    },
    Open {
        stream: StreamId,
        least: Version,
    },
    Cleanup {
        stream: StreamId,
    },
    Receive {
        message: &'a Message,
    },
    Timeout {
        seq: u64,
    },
    Disconnect {
        port: Port,
    },
    Restart,
}

impl Filter {
    /// Lets the filter, or the volume below it, do what it is asked. None where that is refused: nothing has changed.
    #[tactic(auto, using(crate::proofs::AskLemmas::cleaned_up, crate::proofs::AskLemmas::created, crate::proofs::AskLemmas::disconnected, crate::proofs::AskLemmas::meets, crate::proofs::AskLemmas::received, crate::proofs::AskLemmas::remounted, crate::proofs::AskLemmas::timed_out), unfolding(crate::specs::Conduct::filter_step))]
    pub fn ask(&mut self, alloc: Global, volume: &mut Volume, call: &FilterCall<'_>) -> Option<Out>
        requires fits { Fits self.old volume.old }
        ensures { Calls self.old volume.old self.new volume.new (event_called call.now) result }
    {
        match *call {
            FilterCall::Create { name } => match volume.create(alloc, name) {
                Ok(_) => Some(quiet(alloc)),
                Err(_) => None,
            },
            FilterCall::Write {
                stream,
                offset,
                bytes,
            } => self.write(alloc, volume, stream, offset, bytes).ok(),
            FilterCall::Cut { stream, length } => self.cut(alloc, volume, stream, length).ok(),
            FilterCall::Remove { stream } => self.remove(alloc, volume, stream).ok(),
            FilterCall::Open { stream, least } => self.open(alloc, volume, stream, least).ok(),
            FilterCall::Cleanup { stream } => self.cleanup(alloc, volume, stream).ok(),
            FilterCall::Receive { message } => self.message(alloc, volume, message).ok(),
            FilterCall::Timeout { seq } => self.timeout(alloc, volume, seq).ok(),
            FilterCall::Disconnect { port } => self.disconnect(alloc, volume, port).ok(),
            FilterCall::Restart => {
                if volume.boot() == u64::MAX {
                    return None;
                }
                self.remount(alloc, volume).ok()
            }
        }
    }
}

// A volume's change tells nothing more.
fn quiet(alloc: Global) -> Out
    ensures answers { result.answers.items ≡ [] }
    ensures messages { result.messages.items ≡ [] }
    ensures note { result.note ≡ Quiet }
{
    Out {
        answers: Vec::new(alloc),
        messages: Vec::new(alloc),
        note: Note::Quiet,
    }
}
