ghost use Rattle.std.specs.Prelude.{◌≡◌, ◌++◌, [], true, IfErr, OnErr, OnOk};
ghost use Rattle.std.specs.Io.KnownBytes.{Appends};
ghost use Rattle.std.specs.List.{flat_map};
ghost use Rattle.av_base.specs.Device.{Writes};
ghost use Rattle.av_engines.specs.Cause.{IsOfWriter};
ghost use Rattle.av_engines.specs.Outgoing.{FailsAs};
ghost use Rattle.av_frame.specs.Spelling.{frame};

use av_base::WriteFault;
use av_base::recorded::{RecordedWrite, write_text};
use av_frame::encode::encode_into;
use av_frame::{End, Message};
use std::alloc::{AllocError, Global};
use std::marker::Model;

/// Frames on their way to a writer. The room of frames that went out is used again.
#[derive(Drop)]
pub struct Outgoing {
    buffer: Vec<u8>,
}

impl Model for Outgoing {
    ghost use Rattle.std.specs.Prelude.{ℕ, List};

    ghost Value = { List ℕ };

    ghost view = { λ o. o.buffer.items };
}

impl Outgoing {
    /// No frame. It takes no memory.
    pub fn new(alloc: Global) -> Outgoing
        ensures { result ≡ [] }
    {
        Outgoing {
            buffer: Vec::new(alloc),
        }
    }

    /// Puts the frames of these messages behind those that wait to go out. Where memory is refused, none of them is put.
    pub fn put(&mut self, messages: &[Message]) -> Result<(), AllocError>
        ensures ok { OnOk result (self.new ≡ self.old ++ flat_map frame messages.now) }
        ensures err { OnErr result (self.new ≡ self.old) }
    {
        let before = self.buffer.len();
        'messages: for message in messages {
            if encode_into(message, &mut self.buffer).is_err() {
                self.buffer.truncate(before);
                return Err(AllocError);
            }
        }
        Ok(())
    }

    /// Writes the frames that wait, in one piece where the writer takes it, and flushes the writer. Where that fails a
    /// front of them was written, and the rest is gone.
    pub fn flush<W: RecordedWrite>(&mut self, writer: &mut W) -> Result<(), WriteFault>
        ensures writes { Writes result (W.contents writer.old) (W.contents writer.new) self.old }
        ensures empty { self.new ≡ [] }
        ensures failed { OnErr result (W.has_failed writer.new ≡ true) }
    {
        if self.buffer.is_empty() {
            return Ok(());
        }
        let written = write_flushed(writer, &self.buffer);
        self.buffer.clear();
        written
    }

    /// Sends messages behind those that wait: WriteFault, with a front of the frames written and the rest gone; Memory, with
    /// nothing changed.
    pub fn send<W: RecordedWrite>(
        &mut self,
        writer: &mut W,
        messages: &[Message],
    ) -> Result<(), End>
        ensures ok { OnOk result (Appends (W.contents writer.old) (W.contents writer.new)
            (self.old ++ flat_map frame messages.now) × (self.new ≡ [])) }
        ensures err { IfErr result
            (λ e. FailsAs e self.old self.new (W.contents writer.old) (W.contents writer.new)
            (self.old ++ flat_map frame messages.now)) }
        ensures cause { IfErr result (λ e. IsOfWriter e (W.has_failed writer.new)) }
    {
        if self.put(messages).is_err() {
            return Err(End::Memory);
        }
        match self.flush(writer) {
            Ok(()) => Ok(()),
            Err(WriteFault) => Err(End::WriteFault),
        }
    }
}

// Writes a text and flushes the writer.
fn write_flushed<W: RecordedWrite>(writer: &mut W, text: &[u8]) -> Result<(), WriteFault>
    ensures writes { Writes result (W.contents writer.old) (W.contents writer.new) text.now }
    ensures failed { OnErr result (W.has_failed writer.new ≡ true) }
{
    write_text(writer, text)?;
    if writer.flush_recorded().is_err() {
        return Err(WriteFault);
    }
    Ok(())
}
