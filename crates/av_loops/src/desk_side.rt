ghost use Rattle.std.specs.Prelude.{◌≡◌, ◌≢◌, IfErr};
ghost use Rattle.av_base.specs.Recorded.{AreLeft};
ghost use Rattle.av_engines.specs.Cause.{IsOfReader, IsOfReads};
ghost use Rattle.av_frame.specs.declared.end.End.TheVariants.{Done};
ghost use Rattle.av_loops.specs.Ends.{EndsSo, IsUnread};

use crate::ending::end_of;
use crate::sender::{Sender, Unsent};
use av_base::recorded::RecordedRead;
use av_desk::{Desk, Lent, Taken};
use av_engines::{End, Incoming};
use av_frame::Message;
use av_pool::{Giver, Taker};
use std::alloc::Global;
use std::io::Write;
use std::sync::Wait;

/// A desk with the writing end of its stream, as the loops round it share them.
#[derive(Drop)]
pub struct DeskSide<'a, R, W> {
    pub rt: &'a R,
    pub alloc: Global,
    pub desk: &'a Desk,
    pub sender: &'a Sender<W>,
}

// Who runs a work after which no further message has come whole.
#[derive(Clone, Copy)]
enum Runner {
    Pool,
    Reader,
}

/// Hands each message that a stream of frames spells to the desk, until the stream ends, fails, or was read `turns` times:
/// Closed, ReadFault, Frame, each of which is a disconnection of the desk, and so is WriteFault; Memory and AuditFull, which are
/// none. Each work that a message gives out goes to the pool. What the desk sends meanwhile is written before the stream is read
/// again. At its end it wakes who takes from the pool.
pub fn desk_in<R: Wait, S: RecordedRead, W: Write>(
    side: &DeskSide<'_, R, W>,
    giver: &mut Giver,
    reader: &mut S,
    turns: u64,
) -> End
    ensures same { giver.new.channel ≡ giver.old.channel }
    ensures end { result ≢ Done }
    ensures read { IsOfReads result (S.has_failed reader.new) turns (S.reads reader.old) (S.reads reader.new) }
{
    let runner = Runner::Pool;
    read_to_end(side, giver, reader, turns, runner)
}

/// Does what [`desk_in`] does, but runs a work itself if no further message has come whole. For such a work no other thread has
/// to be woken.
pub fn desk_in_running_works<R: Wait, S: RecordedRead, W: Write>(
    side: &DeskSide<'_, R, W>,
    giver: &mut Giver,
    reader: &mut S,
    turns: u64,
) -> End
    ensures same { giver.new.channel ≡ giver.old.channel }
    ensures end { result ≢ Done }
    ensures read { IsOfReads result (S.has_failed reader.new) turns (S.reads reader.old) (S.reads reader.new) }
{
    let runner = Runner::Reader;
    read_to_end(side, giver, reader, turns, runner)
}

// Both loops into a desk.
fn read_to_end<R: Wait, S: RecordedRead, W: Write>(
    side: &DeskSide<'_, R, W>,
    giver: &mut Giver,
    reader: &mut S,
    turns: u64,
    runner: Runner,
) -> End
    ensures same { giver.new.channel ≡ giver.old.channel }
    ensures end { result ≢ Done }
    ensures read { IsOfReads result (S.has_failed reader.new) turns (S.reads reader.old) (S.reads reader.new) }
{
    let end = match Incoming::new(side.alloc, turns) {
        Ok(mut incoming) => take_messages(side, giver, reader, &mut incoming, runner),
        Err(_) => End::Memory,
    };
    giver.wake(side.rt);
    end
}

// Each message as an event.
fn take_messages<R: Wait, S: RecordedRead, W: Write>(
    side: &DeskSide<'_, R, W>,
    giver: &mut Giver,
    reader: &mut S,
    incoming: &mut Incoming,
    runner: Runner,
) -> End
    ensures same { giver.new.channel ≡ giver.old.channel }
    ensures end { result ≢ Done }
    ensures read { IsOfReads result (S.has_failed reader.new) incoming.old.turns (S.reads reader.old) (S.reads reader.new) }
{
    let mut lent = None;
    'messages: for _ in side.rt.forever() {
        let message = match next_message(side, giver, reader, incoming, runner, lent) {
            Ok(message) => message,
            Err(end) => return end,
        };
        lent = match side.desk.message_quietly(side.rt, side.alloc, message) {
            Ok(Taken { lent, note: _ }) => lent,
            Err(refused) => return after_sending(side, end_of(refused.why)),
        };
    }
    unreachable!()
}

// The end at a refusal. What the desk sent before still goes out.
fn after_sending<R: Wait, W: Write>(side: &DeskSide<'_, R, W>, end: End) -> End
    ensures { EndsSo end result }
{
    match send(side) {
        Ok(()) => end,
        Err(end) => end,
    }
}

// The next message. Before it is waited for, the work that the last one gave out is run or given, and what waits is sent.
fn next_message<R: Wait, S: RecordedRead, W: Write>(
    side: &DeskSide<'_, R, W>,
    giver: &mut Giver,
    reader: &mut S,
    incoming: &mut Incoming,
    runner: Runner,
    lent: Option<Lent>,
) -> Result<Message, End>
    ensures same { giver.new.channel ≡ giver.old.channel }
    ensures end { IfErr result (λ end. end ≢ Done) }
    ensures read { IfErr result (λ end. IsOfReader end (S.has_failed reader.new) incoming.new.turns) }
    ensures counted { AreLeft incoming.old.turns (S.reads reader.old) (S.reads reader.new) incoming.new.turns }
{
    if let Ok(Some(message)) = incoming.arrived() {
        if let Some(lent) = lent {
            giver.give(side.rt, lent);
        }
        return Ok(message);
    }
    if let Some(lent) = lent {
        match runner {
            Runner::Pool => giver.give(side.rt, lent),
            Runner::Reader => finish(side, lent.run())?,
        }
    }
    send(side)?;
    match incoming.next(reader) {
        Ok(message) => Ok(message),
        Err(end) => Err(with_disconnection(side, end)),
    }
}

/// Finishes each work that comes out of the pool and sends what that gives, until a mark comes: Done. Else WriteFault, which is a
/// disconnection of the desk; Memory and AuditFull, which are none.
pub fn desk_done<R: Wait, W: Write>(side: &DeskSide<'_, R, W>, taker: &mut Taker) -> End
    ensures same { taker.new.channel ≡ taker.old.channel }
{
    'works: for _ in side.rt.forever() {
        let Some(done) = taker.take(side.rt) else {
            return End::Done;
        };
        if let Err(end) = finish(side, done) {
            return end;
        }
        if let Err(end) = send(side) {
            return end;
        }
    }
    unreachable!()
}

// Takes a work back that was run.
fn finish<R: Wait, W: Write>(side: &DeskSide<'_, R, W>, done: av_service::Done) -> Result<(), End>
    ensures { IfErr result IsUnread }
{
    match side.desk.finish_quietly(side.rt, side.alloc, done) {
        Ok(_) => Ok(()),
        Err(refused) => {
            refused.value.discard();
            Err(after_sending(side, end_of(refused.why)))
        }
    }
}

/// Writes each message of the desk to a stream as a frame, until the desk is stopped and none is left: Done. Else WriteFault,
/// which is a disconnection of the desk; Memory and AuditFull, which are none. It is woken for what calls of others send, and
/// writes what another loop of the sender has not written.
pub fn desk_out<R: Wait, W: Write>(side: &DeskSide<'_, R, W>) -> End {
    'batches: for _ in side.rt.forever() {
        if !side.desk.await_outgoing(side.rt) {
            return End::Done;
        }
        if let Err(end) = send(side) {
            return end;
        }
    }
    unreachable!()
}

// Sends what waits. A write that fails is told to the desk by who meets it.
fn send<R: Wait, W: Write>(side: &DeskSide<'_, R, W>) -> Result<(), End>
    ensures { IfErr result IsUnread }
{
    match side.sender.send(side.rt, side.alloc, side.desk) {
        Ok(()) => Ok(()),
        Err(Unsent::WriteFault) => Err(with_disconnection(side, End::WriteFault)),
        Err(Unsent::Lost) => Err(End::WriteFault),
        Err(Unsent::Memory) => Err(End::Memory),
    }
}

// Tells the desk that the filter is lost, where this end says so.
fn with_disconnection<R: Wait, W: Write>(side: &DeskSide<'_, R, W>, end: End) -> End
    ensures end { EndsSo end result }
{
    match end {
        End::Done | End::Memory | End::AuditFull => end,
        End::ReadFault | End::WriteFault | End::Frame | End::Closed => {
            match side.desk.disconnect(side.rt, side.alloc) {
                Ok(_) => end,
                Err(refusal) => end_of(refusal),
            }
        }
    }
}
