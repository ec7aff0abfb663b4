ghost use Rattle.std.specs.Prelude.{◌≡◌, ◌≤◌, ◌<◌, ◌+◌, ◌++◌, ◌∷◌, [], length, true, false, IfOk, OnErr, OnOk, vec_len};
ghost use Rattle.std.specs.List.{flat_map};
ghost use Rattle.std.specs.Vec.{vec_capacity};
ghost use Rattle.av_base.specs.declared.port.Port.TheVariants.{One, Two};
ghost use Rattle.av_engines.specs.Cause.{IsOfReads, IsOfWriter};
ghost use Rattle.av_engines.specs.FilterEnd.{Hears, IsAmid, IsAt, Leaves, Puts, RunsOver, WatchesOver, WatchesTo};
ghost use Rattle.av_engines.specs.Watching.{all_happened, begun, due, events_of, happened, heard, joined, opens_of, standing, unled};
ghost use Rattle.av_frame.specs.declared.end.End.TheVariants.{Done};
ghost use Rattle.av_filter.specs.Call.{MeetsAlways};
ghost use Rattle.av_filter.specs.Conduct.{Disconnects, Opens, Receives, filter_step};
ghost use Rattle.av_filter_table.specs.Ports.{is_open};
ghost use Rattle.av_frame.specs.Spelling.{frame};
ghost use Rattle.av_store.specs.Store.{greatest};

use crate::exchange::Exchange;
use crate::outgoing::Outgoing;
use crate::tally::AnswerTally;
use av_base::recorded::{RecordedRead, RecordedWrite};
use av_base::{Port, Refusal, StreamId, Version};
use av_filter::{Mounted, Out};
use av_frame::laws::bytes_spell_one_list;
use av_frame::{End, Message};
use av_pend::Answer;
use std::alloc::{AllocError, Global};

/// How the engine of a filter ended, and each answer that the filter gave meanwhile, the oldest first.
#[derive(Debug, Drop)]
pub struct Watched {
    pub end: End,
    pub answers: Vec<Answer>,
}

impl Watched {
    // The end of an engine, with what its tally has.
    fn of(end: End, tally: AnswerTally) -> Watched
        ensures end { result.end ≡ end }
        ensures answers { result.answers.items ≡ tally.answers.items }
    {
        Watched {
            end,
            answers: tally.answers,
        }
    }
}

/// Runs a filter over a stream of frames at its first port, where no service is connected at the other one: it handles each
/// message of this port that comes, passes over those of the other, and submits an open of each of these streams, in order, for any
/// version, right after the first message that leaves it connected. It ends with Done once all of them are answered, before any read
/// where there are none, and what was sent went out. Else with ReadFault, also once `turns` reads were made; WriteFault; Frame;
/// Closed; each of these disconnects the port, so that each open that was submitted is answered; or with Memory, also where it is
/// refused to that: the filter is where the messages led, or within the next of them. It holds the answers, a buffer, and the frames
/// of one message.
pub fn serve_filter<R: RecordedRead, W: RecordedWrite>(
    alloc: Global,
    mounted: &mut Mounted,
    opens: &[StreamId],
    reader: &mut R,
    writer: &mut W,
    turns: u64,
) -> Watched
    requires alone { is_open Two mounted.old.table.connected ≡ false }
    requires left { mounted.old.volume.opens + length opens.now ≤ greatest }
    ensures watches { WatchesTo opens.now mounted.old.table mounted.old.volume mounted.new.table mounted.new.volume
        result.answers.items (R.remaining reader.old) (W.contents writer.old) (W.contents writer.new) turns result.end }
    ensures read { IsOfReads result.end (R.has_failed reader.new) turns (R.reads reader.old) (R.reads reader.new) }
    ensures written { IsOfWriter result.end (W.has_failed writer.new) }
{
    let tally = AnswerTally::new(alloc, mounted.volume().opens(), false);
    match Exchange::new(alloc, turns) {
        Ok(mut exchange) => serve(mounted, opens, tally, &mut exchange, reader, writer),
        Err(_) => Watched::of(End::Memory, tally),
    }
}

/// The same for further opens over a stream that goes on: they are submitted at once where the filter is connected, else right after
/// the message that connects it. What had come behind the last message before is taken first, and what comes behind the last one now
/// is left to the next call, where this one ended with Done.
pub fn serve_further<R: RecordedRead, W: RecordedWrite>(
    alloc: Global,
    mounted: &mut Mounted,
    opens: &[StreamId],
    exchange: &mut Exchange,
    reader: &mut R,
    writer: &mut W,
) -> Watched
    requires alone { is_open Two mounted.old.table.connected ≡ false }
    requires left { mounted.old.volume.opens + length opens.now ≤ greatest }
    requires nothing { exchange.old.outgoing ≡ [] }
    ensures watches { WatchesOver true opens.now mounted.old.table mounted.old.volume mounted.new.table mounted.new.volume
        result.answers.items exchange.old.incoming exchange.new.incoming
        (R.remaining reader.old) (R.remaining reader.new) (W.contents writer.old) (W.contents writer.new) result.end }
    ensures nothing { result.end ≡ Done → exchange.new.outgoing ≡ [] }
    ensures read { IsOfReads result.end (R.has_failed reader.new) exchange.old.incoming.turns (R.reads reader.old) (R.reads reader.new) }
    ensures written { IsOfWriter result.end (W.has_failed writer.new) }
{
    let tally = AnswerTally::new(alloc, mounted.volume().opens(), true);
    serve(mounted, opens, tally, exchange, reader, writer)
}

// The same, with a tally that has no answer yet.
fn serve<R: RecordedRead, W: RecordedWrite>(
    mounted: &mut Mounted,
    opens: &[StreamId],
    mut tally: AnswerTally,
    exchange: &mut Exchange,
    reader: &mut R,
    writer: &mut W,
) -> Watched
    requires left { mounted.old.volume.opens + length opens.now ≤ greatest }
    requires nothing { exchange.old.outgoing ≡ [] }
    requires none { (tally.answers.items ≡ []) × (tally.first ≡ mounted.old.volume.opens) × (tally.submitted ≡ false) }
    ensures watches { WatchesOver tally.at_once opens.now mounted.old.table mounted.old.volume mounted.new.table
        mounted.new.volume result.answers.items exchange.old.incoming exchange.new.incoming
        (R.remaining reader.old) (R.remaining reader.new) (W.contents writer.old) (W.contents writer.new) result.end }
    ensures nothing { result.end ≡ Done → exchange.new.outgoing ≡ [] }
    ensures read { IsOfReads result.end (R.has_failed reader.new) exchange.old.incoming.turns (R.reads reader.old) (R.reads reader.new) }
    ensures written { IsOfWriter result.end (W.has_failed writer.new) }
{
    let would = watch(mounted, opens, &mut tally, exchange, reader, writer);
    let end = leave(mounted, &mut tally, would);
    Watched::of(end, tally)
}

// Submits the opens where that may be at once, and handles each message that comes, until all opens are answered or none comes.
fn watch<R: RecordedRead, W: RecordedWrite>(
    mounted: &mut Mounted,
    opens: &[StreamId],
    tally: &mut AnswerTally,
    exchange: &mut Exchange,
    reader: &mut R,
    writer: &mut W,
) -> End
    requires left { mounted.old.volume.opens + length opens.now ≤ greatest }
    requires nothing { exchange.old.outgoing ≡ [] }
    requires none { (tally.old.answers.items ≡ []) × (tally.old.first ≡ mounted.old.volume.opens) × (tally.old.submitted ≡ false) }
    ensures runs { RunsOver tally.old.at_once opens.now mounted.old.table mounted.old.volume mounted.new.table
        mounted.new.volume tally.new.answers.items exchange.old.incoming exchange.new.incoming
        (R.remaining reader.old) (R.remaining reader.new) (W.contents writer.old) (W.contents writer.new) result }
    ensures nothing { result ≡ Done → exchange.new.outgoing ≡ [] }
    ensures read { IsOfReads result (R.has_failed reader.new) exchange.old.incoming.turns (R.reads reader.old) (R.reads reader.new) }
    ensures written { IsOfWriter result (W.has_failed writer.new) }
{
    bytes_spell_one_list();
    let outgoing = &mut exchange.outgoing;
    match begin(mounted, opens, tally, outgoing) {
        Ok(()) => {}
        Err(_) => return End::Memory,
    }
    'messages: while tally.answered != opens.len() {
        let message = match exchange.next(reader, writer) {
            Ok(message) => message,
            Err(end) => return end,
        };
        let outgoing = &mut exchange.outgoing;
        match hear(mounted, opens, tally, outgoing, &message) {
            Ok(()) => {}
            Err(_) => return End::Memory,
        }
    }
    match exchange.outgoing.flush(writer) {
        Ok(()) => End::Done,
        Err(_) => End::WriteFault,
    }
}

// Submits the opens where that may be before any message, and the filter is connected.
fn begin(
    mounted: &mut Mounted,
    opens: &[StreamId],
    tally: &mut AnswerTally,
    outgoing: &mut Outgoing,
) -> Result<(), AllocError>
    requires left { mounted.old.volume.opens + length opens.now ≤ greatest }
    requires none { (tally.old.answers.items ≡ []) × (tally.old.submitted ≡ false) }
    ensures ok { OnOk result
        (Hears (begun tally.old.at_once opens.now (unled mounted.old.table mounted.old.volume [])) mounted.new.table
        mounted.new.volume tally.new.answers.items tally.new.submitted outgoing.old outgoing.new) }
    ensures amid { OnErr result ((tally.old.at_once ≡ true)
        × IsAmid (unled mounted.old.table mounted.old.volume []) (due opens.now false mounted.old.table) mounted.new.table
        mounted.new.volume tally.new.answers.items) }
    ensures left { OnOk result (tally.new.submitted ≡ false → mounted.new.volume.opens ≡ mounted.old.volume.opens) }
    ensures first { tally.new.first ≡ tally.old.first }
{
    if !tally.at_once {
        return Ok(());
    }
    join(mounted, opens, tally, outgoing)
}

// Handles a message of the first port, and submits the opens where it connects the filter.
fn hear(
    mounted: &mut Mounted,
    opens: &[StreamId],
    tally: &mut AnswerTally,
    outgoing: &mut Outgoing,
    message: &Message,
) -> Result<(), AllocError>
    requires left { tally.old.submitted ≡ false → mounted.old.volume.opens + length opens.now ≤ greatest }
    ensures ok { OnOk result
        (Hears
        (heard opens.now (standing mounted.old.table mounted.old.volume tally.old.answers.items tally.old.submitted) message.now)
        mounted.new.table mounted.new.volume tally.new.answers.items tally.new.submitted outgoing.old outgoing.new) }
    ensures amid { OnErr result
        (IsAmid (unled mounted.old.table mounted.old.volume tally.old.answers.items)
        (events_of opens.now (standing mounted.old.table mounted.old.volume tally.old.answers.items tally.old.submitted)
        message.now) mounted.new.table mounted.new.volume tally.new.answers.items) }
    ensures left { OnOk result (tally.new.submitted ≡ false
        → (tally.old.submitted ≡ false) × (mounted.new.volume.opens ≡ mounted.old.volume.opens)) }
    ensures first { tally.new.first ≡ tally.old.first }
{
    if message.port() != Port::One {
        return Ok(());
    }
    receive(mounted, tally, outgoing, message)?;
    join(mounted, opens, tally, outgoing)
}

// Submits the opens where the filter is connected and they weren't submitted.
fn join(
    mounted: &mut Mounted,
    opens: &[StreamId],
    tally: &mut AnswerTally,
    outgoing: &mut Outgoing,
) -> Result<(), AllocError>
    requires left { tally.old.submitted ≡ false → mounted.old.volume.opens + length opens.now ≤ greatest }
    ensures ok { OnOk result
        (Hears (joined opens.now tally.old.submitted (unled mounted.old.table mounted.old.volume tally.old.answers.items))
        mounted.new.table mounted.new.volume tally.new.answers.items tally.new.submitted outgoing.old outgoing.new) }
    ensures amid { OnErr result
        (IsAmid (unled mounted.old.table mounted.old.volume tally.old.answers.items)
        (due opens.now tally.old.submitted mounted.old.table) mounted.new.table mounted.new.volume tally.new.answers.items) }
    ensures left { OnOk result (tally.new.submitted ≡ false
        → (tally.old.submitted ≡ false) × (mounted.new.volume.opens ≡ mounted.old.volume.opens)) }
    ensures first { tally.new.first ≡ tally.old.first }
{
    if mounted.filter().connected(Port::One) && !tally.submitted {
        tally.submitted = true;
        submit_all(mounted, opens, tally, outgoing)?;
    }
    Ok(())
}

// Submits an open of each of these streams.
fn submit_all(
    mounted: &mut Mounted,
    opens: &[StreamId],
    tally: &mut AnswerTally,
    outgoing: &mut Outgoing,
) -> Result<(), AllocError>
    requires left { mounted.old.volume.opens + length opens.now ≤ greatest }
    ensures ok { OnOk result
        (Puts (all_happened (unled mounted.old.table mounted.old.volume tally.old.answers.items) (opens_of opens.now))
        mounted.new.table mounted.new.volume tally.new.answers.items outgoing.old outgoing.new) }
    ensures amid { OnErr result
        (IsAmid (unled mounted.old.table mounted.old.volume tally.old.answers.items) (opens_of opens.now)
        mounted.new.table mounted.new.volume tally.new.answers.items) }
    ensures rest { (tally.new.first ≡ tally.old.first) × (tally.new.submitted ≡ tally.old.submitted) }
{
    'opens: for stream in opens {
        submit(mounted, tally, outgoing, *stream)?;
    }
    Ok(())
}

// Disconnects the filter, where its engine did not end with Done or Memory. The end; Memory, where it was refused to that.
fn leave(mounted: &mut Mounted, tally: &mut AnswerTally, end: End) -> End
    ensures leaves { Leaves end result mounted.old.table mounted.old.volume tally.old.answers.items mounted.new.table
        tally.new.answers.items }
    ensures still { mounted.new.volume ≡ mounted.old.volume }
{
    if matches!(end, End::Done | End::Memory | End::AuditFull) {
        return end;
    }
    match disconnect(mounted, tally) {
        Ok(()) => end,
        Err(_) => End::Memory,
    }
}

// Disconnects the filter, behind room for its answers.
#[tactic(auto, using(crate::proofs::EventLemmas::few_disconnected), unfolding(av_filter::specs::Conduct::filter_step))]
fn disconnect(mounted: &mut Mounted, tally: &mut AnswerTally) -> Result<(), AllocError>
    ensures ok { OnOk result
        (IsAt (happened (unled mounted.old.table mounted.old.volume tally.old.answers.items) (Disconnects One)) mounted.new.table
        mounted.old.volume tally.new.answers.items) }
    ensures err { OnErr result ((mounted.new.table ≡ mounted.old.table) × (tally.new.answers.items ≡ tally.old.answers.items)) }
    ensures still { mounted.new.volume ≡ mounted.old.volume }
{
    tally.make_room(mounted)?;
    let out = mounted.disconnect(tally.alloc, Port::One)?;
    tally.add(out.answers);
    Ok(())
}

// A message comes, behind room for its answers.
fn receive(
    mounted: &mut Mounted,
    tally: &mut AnswerTally,
    outgoing: &mut Outgoing,
    message: &Message,
) -> Result<(), AllocError>
    ensures ok { OnOk result
        (Puts (all_happened (unled mounted.old.table mounted.old.volume tally.old.answers.items) (Receives message.now ∷ []))
        mounted.new.table mounted.new.volume tally.new.answers.items outgoing.old outgoing.new) }
    ensures amid { IsAmid (unled mounted.old.table mounted.old.volume tally.old.answers.items) (Receives message.now ∷ [])
        mounted.new.table mounted.new.volume tally.new.answers.items }
    ensures still { mounted.new.volume ≡ mounted.old.volume }
    ensures rest { (tally.new.first ≡ tally.old.first) × (tally.new.submitted ≡ tally.old.submitted) }
{
    tally.make_room(mounted)?;
    let out = tell(tally.alloc, mounted, message)?;
    give(tally, outgoing, out)
}

// A message comes to the filter.
#[tactic(auto, using(crate::proofs::EventLemmas::few_received), unfolding(av_filter::specs::Conduct::filter_step))]
fn tell(alloc: Global, mounted: &mut Mounted, message: &Message) -> Result<Out, AllocError>
    ensures event { MeetsAlways mounted.old.table mounted.old.volume mounted.new.table mounted.new.volume result
        (filter_step mounted.old.table mounted.old.volume (Receives message.now)) }
    ensures few { IfOk result (λ out. length out.answers.items ≤ length mounted.old.table.pended + 1) }
    ensures still { mounted.new.volume ≡ mounted.old.volume }
{
    mounted.message(alloc, message)
}

// An open of a stream comes, behind room for its answer.
fn submit(
    mounted: &mut Mounted,
    tally: &mut AnswerTally,
    outgoing: &mut Outgoing,
    stream: StreamId,
) -> Result<(), AllocError>
    requires left { mounted.old.volume.opens < greatest }
    ensures ok { OnOk result
        (Puts (all_happened (unled mounted.old.table mounted.old.volume tally.old.answers.items) (Opens stream 0 ∷ []))
        mounted.new.table mounted.new.volume tally.new.answers.items outgoing.old outgoing.new) }
    ensures amid { IsAmid (unled mounted.old.table mounted.old.volume tally.old.answers.items) (Opens stream 0 ∷ [])
        mounted.new.table mounted.new.volume tally.new.answers.items }
    ensures taken { OnOk result (mounted.new.volume.opens ≡ mounted.old.volume.opens + 1) }
    ensures rest { (tally.new.first ≡ tally.old.first) × (tally.new.submitted ≡ tally.old.submitted) }
{
    tally.make_room(mounted)?;
    let out = open(tally.alloc, mounted, stream)?;
    give(tally, outgoing, out)
}

// An open of a stream comes to the filter.
#[tactic(auto, using(av_filter::proofs::RoomLemmas::few_opened, crate::proofs::EventLemmas::opens_taken), unfolding(av_filter::specs::Conduct::filter_step, av_filter::specs::Conduct::filter_refusal))]
fn open(alloc: Global, mounted: &mut Mounted, stream: StreamId) -> Result<Out, AllocError>
    requires left { mounted.old.volume.opens < greatest }
    ensures event { MeetsAlways mounted.old.table mounted.old.volume mounted.new.table mounted.new.volume result
        (filter_step mounted.old.table mounted.old.volume (Opens stream 0)) }
    ensures few { IfOk result (λ out. length out.answers.items ≤ length mounted.old.table.pended + 1) }
    ensures taken { OnOk result (mounted.new.volume.opens ≡ mounted.old.volume.opens + 1) }
{
    match mounted.open(alloc, stream, Version::new(0)) {
        Ok(out) => Ok(out),
        Err(Refusal::NoMemory) => Err(AllocError),
        Err(Refusal::Fault(_)) => unreachable!(),
    }
}

// Adds the answers of an event, for which there is room, and puts its messages.
fn give(tally: &mut AnswerTally, outgoing: &mut Outgoing, out: Out) -> Result<(), AllocError>
    requires { vec_len tally.old.answers + vec_len out.answers ≤ vec_capacity tally.old.answers }
    ensures answers { tally.new.answers.items ≡ tally.old.answers.items ++ out.answers.items }
    ensures messages { OnOk result (outgoing.new ≡ outgoing.old ++ flat_map frame out.messages.items) }
    ensures rest { (tally.new.first ≡ tally.old.first) × (tally.new.submitted ≡ tally.old.submitted) }
{
    let Out {
        answers,
        messages,
        ..
    } = out;
    tally.add(answers);
    outgoing.put(messages.as_slice())
}
