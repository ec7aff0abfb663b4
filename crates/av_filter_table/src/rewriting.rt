ghost use Rattle.std.specs.Prelude.{◌≡◌};
ghost use Rattle.av_filter_table.specs.Rewriting.{change_by};
ghost use Rattle.std.specs.Result.{result_err};
ghost use Rattle.av_store.specs.Seen.{change_of};
ghost use Rattle.av_base.specs.Answers.{Steps};

use av_base::{Refusal, StreamId};
use av_store::{StoreFault, Volume};

/// A change of one stream's bytes, which leaves the stream there: some are written from `offset` on, or those before
/// `length` stay alone.
#[derive(Clone, Copy, Debug)]
pub enum Rewriting<'a> {
    Write { offset: u64, bytes: &'a [u8] },
    Cut { length: u64 },
}

impl Rewriting<'_> {
    /// The fault that the volume would answer, where there is one. It takes no memory.
    #[tactic(auto, unfolding(av_store::specs::Seen::change_of))]
    pub fn refusal(self, volume: &Volume, stream: StreamId) -> Option<StoreFault>
        ensures { result ≡ result_err (change_of volume.now (change_by stream self.entry)) }
    {
        match self {
            Rewriting::Write { offset, bytes } => volume.write_refusal(stream, offset, bytes),
            Rewriting::Cut { length } => volume.cut_refusal(stream, length),
        }
    }

    /// Changes the volume, as its own call does. A cut takes no memory.
    #[tactic(auto, unfolding(av_store::specs::Seen::change_of))]
    pub fn apply(self, volume: &mut Volume, stream: StreamId) -> Result<(), Refusal<StoreFault>>
        ensures { Steps volume.old volume.new result (change_of volume.old (change_by stream self.entry)) }
    {
        match self {
            Rewriting::Write { offset, bytes } => volume.write(stream, offset, bytes),
            Rewriting::Cut { length } => match volume.cut(stream, length) {
                Ok(()) => Ok(()),
                Err(fault) => Err(Refusal::Fault(fault)),
            },
        }
    }
}
