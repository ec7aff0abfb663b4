ghost use Rattle.std.specs.Prelude.{◌≡◌, ◌≢◌, ◌≤◌, ◌<◌, ◌++◌, [], IfOk, OnOk, drop, length};
ghost use Rattle.std.specs.List.{count_by};
ghost use Rattle.av_gate.specs.Book.{messages_of};
ghost use Rattle.av_gate.specs.PortCounts.{counts_of, is_at, letters_at};

use crate::entry::GateEntry;
use crate::port_counts::PortCounts;
use av_base::Port;
use av_frame::Message;
use std::alloc::{AllocError, Global};

/// The messages of a port that these events sent, in their order.
pub(crate) fn messages_of(
    alloc: Global,
    entries: &[GateEntry],
    port: Port,
) -> Result<Vec<Message>, AllocError>
    ensures { IfOk result (λ ms. ms.items ≡ letters_at port (messages_of entries.now)) }
{
    let mut messages = Vec::new(alloc);
    for entry in entries {
        add_copies(&mut messages, entry.messages(), port)?;
    }
    Ok(messages)
}

// Copies of those messages that are of a port, behind what is there.
fn add_copies(messages: &mut Vec<Message>, more: &[Message], port: Port) -> Result<(), AllocError>
    ensures { OnOk result (messages.new.items ≡ messages.old.items ++ letters_at port more.now) }
{
    for message in more {
        if is_at(message, port) {
            messages.push(message.clone()?)?;
        }
    }
    Ok(())
}

/// How many events there are before the first that sent a message of a port.
pub(crate) fn quiet_ones(entries: &[GateEntry], port: Port) -> usize
    ensures within { result ≤ length entries.now }
    ensures stopped { result < length entries.now → letters_at port (messages_of entries.now) ≢ [] }
    ensures waiting { letters_at port (messages_of (drop result entries.now)) ≡ letters_at port (messages_of entries.now) }
{
    let mut count = 0;
    for entry in entries {
        if count_at(entry.messages(), port) > 0 {
            return count;
        }
        count += 1;
    }
    count
}

/// How many of these messages there are of each port.
pub(crate) fn count_each(messages: &[Message]) -> PortCounts
    ensures { result ≡ counts_of messages.now }
{
    PortCounts {
        one: count_at(messages, Port::One),
        two: count_at(messages, Port::Two),
    }
}

// How many of these messages are of a port.
fn count_at(messages: &[Message], port: Port) -> usize
    ensures { result ≡ count_by (is_at port) messages.now }
{
    let mut count = 0;
    for message in messages {
        if is_at(message, port) {
            count += 1;
        }
    }
    count
}

// Whether a message is of a port.
fn is_at(message: &Message, port: Port) -> bool
    ensures { result ≡ is_at port message.now }
{
    message.port() == port
}
