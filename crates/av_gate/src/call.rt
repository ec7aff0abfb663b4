ghost use Rattle.std.specs.Prelude.{◌≡◌, IfOk};
ghost use Rattle.av_gate.specs.declared.call.Call.TheVariants as call;

use av_base::{ByteList, Port, StreamId, Version};
use av_frame::Message;
use std::alloc::{AllocError, Global};

/// What is asked of a gate. `S` tells its stream: a name, as the caller asks it and a seat keeps it, or a number, as it happens and
/// an audit keeps it; a name that no stream has is number 0.
#[derive(Debug, Drop)]
pub enum Call<S> {
    /// A stream is opened: no version below `least`, the floor that the caller had seen, may grant it.
    Open {
        stream: S,
        least: Version,
    },
    /// Bytes are written over those of a stream from `offset` on.
    Write {
        stream: S,
        offset: u64,
        bytes: ByteList,
    },
    /// The last of those who wrote to a stream has closed it.
    Cleanup {
        stream: S,
    },
    /// A message of the scanning service comes.
    Receive {
        message: Message,
    },
    /// The time of the question of this number is up.
    Timeout {
        seq: u64,
    },
    /// The service of a port is lost.
    Disconnect {
        port: Port,
    },
}

/// What a caller asked.
pub type NamedCall = Call<ByteList>;

/// What happened.
pub type Event = Call<StreamId>;

// Calls by copies of their arguments.
impl Call<ByteList> {
    pub(crate) fn open(alloc: Global, name: &[u8], least: Version) -> Result<NamedCall, AllocError>
        ensures { IfOk result (λ c. c ≡ call.Open name.now least) }
    {
        Ok(Call::Open {
            stream: ByteList::copied(alloc, name)?,
            least,
        })
    }

    pub(crate) fn write(
        alloc: Global,
        name: &[u8],
        offset: u64,
        bytes: &[u8],
    ) -> Result<NamedCall, AllocError>
        ensures { IfOk result (λ c. c ≡ call.Write name.now offset bytes.now) }
    {
        Ok(Call::Write {
            stream: ByteList::copied(alloc, name)?,
            offset,
            bytes: ByteList::copied(alloc, bytes)?,
        })
    }

    pub(crate) fn cleanup(alloc: Global, name: &[u8]) -> Result<NamedCall, AllocError>
        ensures { IfOk result (λ c. c ≡ call.Cleanup name.now) }
    {
        Ok(Call::Cleanup {
            stream: ByteList::copied(alloc, name)?,
        })
    }

    pub(crate) fn receive(message: &Message) -> Result<NamedCall, AllocError>
        ensures { IfOk result (λ c. c ≡ call.Receive message.now) }
    {
        Ok(Call::Receive {
            message: message.clone()?,
        })
    }
}
