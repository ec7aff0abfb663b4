use av_base::Port;
use av_base::recorded::Recorded;
use av_desk::Desk;
use av_engines::Outgoing;
use av_frame::Message;
use av_gate::Gate;
use std::alloc::{AllocError, Global};
use std::io::Write;
use std::sync::{Mutex, Wait};

/// The writing end of a stream, for the loops of one side in threads of their own. Whichever of them sends, frames go out whole
/// and in the order in which their messages were given out. Once a write failed nothing more is written.
#[derive(Drop)]
pub struct Sender<W> {
    open: Mutex<Open<W>>,
}

// What lies under the lock.
#[derive(Drop)]
struct Open<W> {
    writer: Recorded<W>,
    outgoing: Outgoing,
    // What later calls are told where messages were lost, maybe in the middle of a frame.
    lost: Option<Unsent>,
}

/// Why messages didn't go out.
#[derive(Clone, Copy, Debug, PartialEq, Eq)]
pub(crate) enum Unsent {
    /// A write failed just now.
    WriteFault,
    /// A write failed at an earlier call.
    Lost,
    /// Memory was refused.
    Memory,
}

/// What messages wait in.
pub(crate) trait Outbox {
    /// Takes out the messages that wait, in their order.
    fn take_outgoing<R: Wait>(&self, rt: &R, alloc: Global) -> Result<Vec<Message>, AllocError>;
}

/// The messages of a gate's port.
#[derive(Clone, Copy)]
pub(crate) struct PortOutbox<'g> {
    pub(crate) gate: &'g Gate,
    pub(crate) port: Port,
}

impl Outbox for PortOutbox<'_> {
    fn take_outgoing<R: Wait>(&self, rt: &R, alloc: Global) -> Result<Vec<Message>, AllocError> {
        self.gate.take_outgoing(rt, alloc, self.port)
    }
}

impl Outbox for Desk {
    fn take_outgoing<R: Wait>(&self, rt: &R, alloc: Global) -> Result<Vec<Message>, AllocError> {
        Desk::take_outgoing(self, rt, alloc)
    }
}

impl<W: Write> Sender<W> {
    /// An end at which nothing was written yet. It takes no memory.
    pub fn new(alloc: Global, writer: W) -> Sender<W> {
        Sender {
            open: Mutex::new(Open {
                writer: Recorded::new(writer),
                outgoing: Outgoing::new(alloc),
                lost: None,
            }),
        }
    }

    /// Takes out what waits and writes it, in one piece where the writer takes it. It writes nothing where nothing waits.
    pub(crate) fn send<O: Outbox, R: Wait>(
        &self,
        rt: &R,
        alloc: Global,
        outbox: &O,
    ) -> Result<(), Unsent> {
        let mut open = self.open.lock(rt);
        if let Some(unsent) = open.lost {
            return Err(unsent);
        }
        match outbox.take_outgoing(rt, alloc) {
            Ok(messages) => open.write(messages.as_slice()),
            Err(_) => Err(Unsent::Memory),
        }
    }

    /// The writer, once no loop needs it any more.
    #[cfg(test)]
    pub(crate) fn into_writer(self) -> W {
        let Sender { open } = self;
        let Open {
            writer,
            outgoing: _,
            lost: _,
        } = open.into_inner();
        writer.device
    }
}

impl<W: Write> Open<W> {
    fn write(&mut self, messages: &[Message]) -> Result<(), Unsent> {
        if self.outgoing.put(messages).is_err() {
            self.lost = Some(Unsent::Memory);
            return Err(Unsent::Memory);
        }
        if self.outgoing.flush(&mut self.writer).is_err() {
            self.lost = Some(Unsent::Lost);
            return Err(Unsent::WriteFault);
        }
        Ok(())
    }
}
