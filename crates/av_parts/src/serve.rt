ghost use Rattle.std.specs.Prelude.{◌≡◌, ◌≢◌, ◌≤◌, [], length, IfErr, IfOk, OnErr, OnOk};
ghost use Rattle.std.specs.Io.KnownBytes.{Consumes};
ghost use Rattle.std.specs.Arc.{arc_value};
ghost use Rattle.av_base.specs.Device.{Writes};
ghost use Rattle.av_parts.specs.declared.ended.Ended.TheVariants as ended;
ghost use Rattle.av_parts.specs.declared.word.Said.TheVariants.{Hello};
ghost use Rattle.av_parts.specs.Heard.{fresh};
ghost use Rattle.av_parts.specs.Judge.{begun};
ghost use Rattle.av_parts.specs.Serving.{ServesParts};
ghost use Rattle.av_parts.specs.Spelling.{said_frame};
ghost use Rattle.av_parts.specs.Steps.{ClosesAs, FailsToRenew, Gives, GoesOn, IsUnread, LooksUp, Stops};

use crate::ended::Ended;
use crate::newest::Newest;
use crate::order_reader::OrderReader;
use crate::side::{Side, hear};
use av_base::WriteFault;
use av_base::device::write_text;
use av_match::Automaton;
use std::alloc::{AllocError, Global};
use std::io::{ErrorKind, Read, Write};
use std::sync::Arc;

/// How many bytes are read at once.
pub const PIECE: usize = 65_536;

// A service's side of a connection, and the room of a read.
#[derive(Drop)]
struct Engine {
    side: Side,
    buffer: Vec<u8>,
}

/// Runs a service over a connection of the parts protocol, under this set. It greets, and then reads up to 65,536 bytes at a
/// time, obeys each order that comes, and says each word at once. Behind each read, before its first byte is handled, it looks
/// for a newer set, which ends each content without a verdict. What is said is written before the next read. A read that was
/// interrupted or whose time was up (WouldBlock) is made again, behind a look: so reads of a bounded time let a newer set end
/// contents of a guard that is silent. Where the reader answers TimedOut it ends (Idle). At most `turns` reads are made.
///
/// It holds a buffer of 65,536 bytes, the words of one read, and what the judge holds.
pub fn serve_parts<N: Newest, R: Read, W: Write>(
    alloc: Global,
    automaton: Arc<Automaton, Global>,
    newest: &mut N,
    reader: &mut R,
    writer: &mut W,
    turns: u64,
) -> Ended
    ensures { ServesParts (arc_value automaton) (N.looks newest.old) (N.looks newest.new) (R.remaining reader.old) (R.remaining reader.new)
        (W.contents writer.old) (W.contents writer.new) turns result }
{
    let Ok(mut engine) = Engine::new(alloc, automaton) else {
        return Ended::Memory;
    };
    let end = hear_all(&mut engine, newest, reader, writer, turns);
    match write_out(writer, &mut engine.side.waits) {
        Ok(()) => end,
        Err(fault) => fault,
    }
}

impl Engine {
    // A connection to which nothing came yet.
    fn new(alloc: Global, automaton: Arc<Automaton, Global>) -> Result<Engine, AllocError>
        ensures orders { IfOk result (λ e. e.side.orders ≡ fresh) }
        ensures judge { IfOk result (λ e. e.side.judge ≡ begun (arc_value automaton)) }
        ensures waits { IfOk result (λ e. e.side.waits.items ≡ said_frame (Hello (arc_value automaton).version)) }
        ensures room { IfOk result (λ e. length e.buffer.items ≡ PIECE) }
    {
        let mut buffer = Vec::new(alloc);
        buffer.resize(PIECE, 0)?;
        Ok(Engine {
            side: Side::greet(alloc, automaton)?,
            buffer,
        })
    }

    // Writes what waits, makes a read, and does what came.
    fn turn<N: Newest, R: Read, W: Write>(
        &mut self,
        newest: &mut N,
        reader: &mut R,
        writer: &mut W,
    ) -> Result<(), Ended>
        requires { length self.old.buffer.items ≡ PIECE }
        ensures room { length self.new.buffer.items ≡ PIECE }
        ensures ok { OnOk result (GoesOn self.old.side.orders self.new.side.orders self.old.side.judge self.new.side.judge
            self.old.side.waits.items self.new.side.waits.items (N.looks newest.old) (N.looks newest.new) (R.remaining reader.old)
            (R.remaining reader.new) (W.contents writer.old) (W.contents writer.new)) }
        ensures err { IfErr result (λ e. Stops e 1 self.old.side.orders self.old.side.judge self.old.side.waits.items
            self.new.side.waits.items (N.looks newest.old) (N.looks newest.new) (R.remaining reader.old) (R.remaining reader.new)
            (W.contents writer.old) (W.contents writer.new)) }
        ensures unspent { IfErr result (λ e. e ≢ ended.Spent) }
    {
        match write_out(writer, &mut self.side.waits) {
            Ok(()) => {}
            Err(fault) => return Err(fault),
        }
        let count = match read_piece(reader, &mut self.buffer) {
            Ok(Some(count)) => count,
            Ok(None) => return Err(closed(&self.side.orders)),
            Err(fault) => return Err(fault),
        };
        match look(&mut self.side, newest) {
            Ok(()) => hear(&mut self.side, &self.buffer[..count]),
            Err(AllocError) => Err(Ended::Memory),
        }
    }
}

// Makes reads until the connection ends.
fn hear_all<N: Newest, R: Read, W: Write>(
    engine: &mut Engine,
    newest: &mut N,
    reader: &mut R,
    writer: &mut W,
    turns: u64,
) -> Ended
    requires { length engine.old.buffer.items ≡ PIECE }
    ensures { Stops result turns engine.old.side.orders engine.old.side.judge engine.old.side.waits.items engine.new.side.waits.items
        (N.looks newest.old) (N.looks newest.new) (R.remaining reader.old) (R.remaining reader.new) (W.contents writer.old)
        (W.contents writer.new) }
{
    'reads: for _ in 0..turns {
        match engine.turn(newest, reader, writer) {
            Ok(()) => {}
            Err(end) => return end,
        }
    }
    Ended::Spent
}

// Looks for a newer set.
fn look<N: Newest>(side: &mut Side, newest: &mut N) -> Result<(), AllocError>
    ensures orders { side.new.orders ≡ side.old.orders }
    ensures ok { OnOk result (LooksUp (N.looks newest.old) (N.looks newest.new) side.old.judge side.new.judge side.old.waits.items
        side.new.waits.items) }
    ensures err { OnErr result (FailsToRenew (N.looks newest.old) (N.looks newest.new) side.old.waits.items side.new.waits.items) }
{
    match newest.newer() {
        Some(newer) => side.renew(&newer),
        None => Ok(()),
    }
}

// One read. It answers how many bytes came: 0 where it is to be made again, and None where the guard closed the connection.
fn read_piece<R: Read>(reader: &mut R, buffer: &mut Vec<u8>) -> Result<Option<usize>, Ended>
    requires { 1 ≤ length buffer.old.items }
    ensures size { length buffer.new.items ≡ length buffer.old.items }
    ensures ok { IfOk result (λ o. Gives (R.remaining reader.old) (R.remaining reader.new) buffer.new.items o) }
    ensures err { IfErr result (λ e. IsUnread e × Consumes (R.remaining reader.old) (R.remaining reader.new) []) }
{
    match reader.read(buffer) {
        Ok(0) => Ok(None),
        Ok(count) => Ok(Some(count)),
        Err(error) => match error.kind() {
            ErrorKind::Interrupted | ErrorKind::WouldBlock => Ok(Some(0)),
            ErrorKind::TimedOut => Err(Ended::Idle),
            _ => Err(Ended::ReadFault),
        },
    }
}

// How a connection ends that the guard closed.
fn closed(orders: &OrderReader) -> Ended
    ensures { ClosesAs result orders.now }
{
    if orders.is_between() {
        return Ended::Done;
    }
    Ended::Cut
}

// Writes the frames that wait, and flushes the writer. Where that fails a front of them was written, and the rest is gone.
fn write_out<W: Write>(writer: &mut W, waits: &mut Vec<u8>) -> Result<(), Ended>
    ensures writes { Writes result (W.contents writer.old) (W.contents writer.new) waits.old.items }
    ensures empty { waits.new.items ≡ [] }
    ensures err { IfErr result (λ e. e ≡ ended.WriteFault) }
{
    if waits.is_empty() {
        return Ok(());
    }
    let written = write_flushed(writer, waits);
    waits.clear();
    match written {
        Ok(()) => Ok(()),
        Err(WriteFault) => Err(Ended::WriteFault),
    }
}

// Writes a text and flushes the writer.
fn write_flushed<W: Write>(writer: &mut W, text: &[u8]) -> Result<(), WriteFault>
    ensures { Writes result (W.contents writer.old) (W.contents writer.new) text.now }
{
    write_text(writer, text)?;
    if writer.flush().is_err() {
        return Err(WriteFault);
    }
    Ok(())
}
