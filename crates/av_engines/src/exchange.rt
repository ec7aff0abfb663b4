ghost use Rattle.std.specs.Prelude.{◌≡◌, ◌∷◌, ◌<◌, [], IfErr, IfOk, OnOk};
ghost use Rattle.av_base.specs.Recorded.{AreLeft};
ghost use Rattle.av_engines.specs.Cause.{IsOfReader, IsOfWriter};
ghost use Rattle.av_engines.specs.Exchange.{Passes, StopsAs};
ghost use Rattle.av_engines.specs.Incoming.{listed, nothing_yet, to_come};

use crate::incoming::Incoming;
use crate::outgoing::Outgoing;
use av_base::WriteFault;
use av_base::recorded::{RecordedRead, RecordedWrite};
use av_frame::{End, Message};
use std::alloc::{AllocError, Global};

/// Both directions of a stream of frames.
#[derive(Drop)]
pub struct Exchange {
    pub incoming: Incoming,
    pub outgoing: Outgoing,
}

impl Exchange {
    /// A stream of which nothing was read yet, and nothing waits to go out.
    pub fn new(alloc: Global, turns: u64) -> Result<Exchange, AllocError>
        ensures { IfOk result (λ x. (x.incoming ≡ nothing_yet turns) × (x.outgoing ≡ [])) }
    {
        Ok(Exchange {
            incoming: Incoming::new(alloc, turns)?,
            outgoing: Outgoing::new(alloc),
        })
    }

    /// Sends what waits to go out, and then gives the next message.
    pub fn next<R: RecordedRead, W: RecordedWrite>(
        &mut self,
        reader: &mut R,
        writer: &mut W,
    ) -> Result<Message, End>
        ensures message { IfOk result
            (λ m. Passes self.old self.new (R.remaining reader.old) (R.remaining reader.new) (W.contents writer.old)
            (W.contents writer.new) (m ∷ [])) }
        ensures stops { IfErr result
            (λ e. StopsAs e self.old self.new (R.remaining reader.old) (R.remaining reader.new) (W.contents writer.old)
            (W.contents writer.new)) }
        ensures read { IfErr result (λ e. IsOfReader e (R.has_failed reader.new) self.new.incoming.turns) }
        ensures written { IfErr result (λ e. IsOfWriter e (W.has_failed writer.new)) }
        ensures counted { AreLeft self.old.incoming.turns (R.reads reader.old) (R.reads reader.new) self.new.incoming.turns }
    {
        match self.outgoing.flush(writer) {
            Ok(()) => self.incoming.next(reader),
            Err(WriteFault) => Err(End::WriteFault),
        }
    }

    /// Sends what waits to go out, and then gives the next message where it has come whole, or makes one read for it.
    pub fn look<R: RecordedRead, W: RecordedWrite>(
        &mut self,
        reader: &mut R,
        writer: &mut W,
    ) -> Result<Option<Message>, End>
        ensures message { IfOk result
            (λ o. Passes self.old self.new (R.remaining reader.old) (R.remaining reader.new) (W.contents writer.old)
            (W.contents writer.new) (listed o)) }
        ensures stops { IfErr result
            (λ e. StopsAs e self.old self.new (R.remaining reader.old) (R.remaining reader.new) (W.contents writer.old)
            (W.contents writer.new)) }
        ensures read { IfErr result (λ e. IsOfReader e (R.has_failed reader.new) self.new.incoming.turns) }
        ensures written { IfErr result (λ e. IsOfWriter e (W.has_failed writer.new)) }
        ensures counted { AreLeft self.old.incoming.turns (R.reads reader.old) (R.reads reader.new) self.new.incoming.turns }
        ensures less { OnOk result (to_come self.new.incoming < to_come self.old.incoming) }
    {
        match self.outgoing.flush(writer) {
            Ok(()) => self.incoming.look(reader),
            Err(WriteFault) => Err(End::WriteFault),
        }
    }
}
