ghost use Rattle.std.specs.Prelude.{◌≡◌, ◌≤◌, ◌⊎◌, ◌∷◌, ◌++◌, [], false, None, IfOk, IsSome, OnErr, OnOk};
ghost use Rattle.std.specs.List.{flat_map};
ghost use Rattle.av_engines.specs.Cause.{IsOfReads, IsOfWriter};
ghost use Rattle.av_engines.specs.FreshEnd.{HearsFresh, RunsFresh, ServesFresh};
ghost use Rattle.av_engines.specs.Incoming.{unread};
ghost use Rattle.av_engines.specs.ServiceEnd.{IsAmid, Puts, ServesTo, always};
ghost use Rattle.av_engines.specs.Serving.{gone_on, heard, patterns_at, unserved, worked};
ghost use Rattle.av_frame.specs.Spelling.{frame};
ghost use Rattle.av_service.specs.Conduct.{Connects, Disconnects, connect_refusal, service_step};
ghost use Rattle.av_sigset.specs.Catalogue.{latest, set_at};

use crate::exchange::Exchange;
use crate::fresh::Fresh;
use crate::outgoing::Outgoing;
use crate::renewing::refresh;
use av_base::Refusal;
use av_base::recorded::{RecordedRead, RecordedWrite};
use av_frame::laws::bytes_spell_one_list;
use av_frame::{End, Message};
use av_match::Automaton;
use av_service::laws::works_are_lent_under_the_present_version;
use av_service::{Service, ServiceOut, Work};
use av_sigset::Catalogue;
use std::alloc::{AllocError, AllocFailed, Global};

/// A scanning service, and the catalogue with the set under which it judges.
#[derive(Drop)]
pub struct CataloguedService {
    pub service: Service,
    pub catalogue: Catalogue,
}

// The automaton of the set under which a service judges, and the stream of frames to its filter.
#[derive(Drop)]
struct Session {
    automaton: Automaton,
    exchange: Exchange,
}

/// Runs a scanning service over a stream of frames: it connects, handles each message that comes, and runs each work at
/// once, under the set of its version. It ends with ReadFault, also once `turns` reads were made; WriteFault; Frame; Closed;
/// each of these disconnects the service; or with Memory, which leaves it where the messages led, or within the last of them.
/// It holds the automaton of the set, a buffer and the frames of one message. It is `serve_fresh` where no set comes.
pub fn serve_service<R: RecordedRead, W: RecordedWrite>(
    alloc: Global,
    catalogued: &mut CataloguedService,
    reader: &mut R,
    writer: &mut W,
    turns: u64,
) -> End
    requires idle { catalogued.old.service.desk.connected ≡ false }
    requires version { 1 ≤ catalogued.old.service.desk.version }
    requires set { IsSome (set_at catalogued.old.catalogue.sets catalogued.old.service.desk.version) }
    ensures serves { ServesTo catalogued.old.catalogue.sets catalogued.old.service.desk catalogued.new.service.desk
        (R.remaining reader.old) (W.contents writer.old) (W.contents writer.new) turns result }
    ensures kept { catalogued.new.catalogue.sets ≡ catalogued.old.catalogue.sets }
    ensures read { IsOfReads result (R.has_failed reader.new) turns (R.reads reader.old) (R.reads reader.new) }
    ensures written { IsOfWriter result (W.has_failed writer.new) }
{
    serve_fresh(alloc, catalogued, reader, writer, turns, &mut ())
}

/// The same of a service to which newer sets may come. Before each message and each read it is asked whether one has: it is
/// published, where it is above the set before it and the catalogue has room; the filter is told (Updated), and each job begins
/// anew under it. A set that is refused, also for want of memory, changes nothing. Each is told which it was. A read whose time
/// was up (WouldBlock) is made again, so a reader that gives the sets their turn has reads of a bounded time.
pub fn serve_fresh<R: RecordedRead, W: RecordedWrite, F: Fresh>(
    alloc: Global,
    catalogued: &mut CataloguedService,
    reader: &mut R,
    writer: &mut W,
    turns: u64,
    fresh: &mut F,
) -> End
    requires idle { catalogued.old.service.desk.connected ≡ false }
    requires version { 1 ≤ catalogued.old.service.desk.version }
    requires set { IsSome (set_at catalogued.old.catalogue.sets catalogued.old.service.desk.version) }
    ensures serves { ServesFresh catalogued.old.catalogue.sets catalogued.new.catalogue.sets catalogued.old.service.desk
        catalogued.new.service.desk (F.coming fresh.old) (F.coming fresh.new) (R.remaining reader.old)
        (W.contents writer.old) (W.contents writer.new) turns result }
    ensures read { IsOfReads result (R.has_failed reader.new) turns (R.reads reader.old) (R.reads reader.new) }
    ensures written { IsOfWriter result (W.has_failed writer.new) }
{
    let end = serve(alloc, catalogued, reader, writer, turns, fresh);
    if end != End::Memory {
        leave(alloc, &mut catalogued.service);
    }
    end
}

// The same, without the disconnection.
fn serve<R: RecordedRead, W: RecordedWrite, F: Fresh>(
    alloc: Global,
    catalogued: &mut CataloguedService,
    reader: &mut R,
    writer: &mut W,
    turns: u64,
    fresh: &mut F,
) -> End
    requires idle { catalogued.old.service.desk.connected ≡ false }
    requires version { 1 ≤ catalogued.old.service.desk.version }
    requires set { IsSome (set_at catalogued.old.catalogue.sets catalogued.old.service.desk.version) }
    ensures runs { RunsFresh catalogued.old.catalogue.sets catalogued.new.catalogue.sets catalogued.old.service.desk
        catalogued.new.service.desk (F.coming fresh.old) (F.coming fresh.new) (R.remaining reader.old)
        (W.contents writer.old) (W.contents writer.new) turns result }
    ensures read { IsOfReads result (R.has_failed reader.new) turns (R.reads reader.old) (R.reads reader.new) }
    ensures written { IsOfWriter result (W.has_failed writer.new) }
{
    works_are_lent_under_the_present_version();
    let Ok(automaton) = automaton_of(alloc, &catalogued.service, &catalogued.catalogue) else {
        return End::Memory;
    };
    let Ok(exchange) = Exchange::new(alloc, turns) else {
        return End::Memory;
    };
    let mut session = Session {
        automaton,
        exchange,
    };
    let outgoing = &mut session.exchange.outgoing;
    match greet(alloc, &mut catalogued.service, outgoing) {
        Ok(()) => hear_all(alloc, catalogued, &mut session, reader, writer, fresh),
        Err(_) => End::Memory,
    }
}

// The automaton of the set under which a service judges.
fn automaton_of(
    alloc: Global,
    service: &Service,
    catalogue: &Catalogue,
) -> Result<Automaton, AllocError>
    requires version { 1 ≤ service.now.desk.version }
    requires set { IsSome (set_at catalogue.now.sets service.now.desk.version) }
    ensures patterns { IfOk result (λ a. a.patterns ≡ patterns_at catalogue.now.sets service.now.desk.version) }
    ensures newest { IfOk result (λ a. service.now.desk.version ≤ latest catalogue.now.sets) }
{
    let Some(version) = service.version() else {
        unreachable!()
    };
    let Some(set) = catalogue.at(version) else {
        unreachable!()
    };
    Automaton::build(alloc, set)
}

// Connects, and puts the greeting.
fn greet(alloc: Global, service: &mut Service, outgoing: &mut Outgoing) -> Result<(), AllocError>
    requires { connect_refusal service.old.desk ≡ None }
    ensures ok { OnOk result
        (Puts (gone_on (unserved service.old.desk) (service_step service.old.desk Connects)) service.new.desk outgoing.old outgoing.new) }
    ensures err { OnErr result
        ((service.new.desk ≡ service.old.desk) ⊎ (service.new.desk ≡ (service_step service.old.desk Connects).desk)) }
{
    match service.connect(alloc) {
        Ok(out) => put_plain(outgoing, out),
        Err(Refusal::NoMemory) => Err(AllocError),
        Err(Refusal::Fault(_)) => unreachable!(),
    }
}

// Handles each message and each newer set that comes, until no message does.
fn hear_all<R: RecordedRead, W: RecordedWrite, F: Fresh>(
    alloc: Global,
    catalogued: &mut CataloguedService,
    session: &mut Session,
    reader: &mut R,
    writer: &mut W,
    fresh: &mut F,
) -> End
    requires unread { unread session.old.exchange.incoming ≡ [] }
    requires newest { catalogued.old.service.desk.version ≤ latest catalogued.old.catalogue.sets }
    requires patterns { session.old.automaton.patterns
        ≡ patterns_at catalogued.old.catalogue.sets catalogued.old.service.desk.version }
    ensures hears { HearsFresh catalogued.old.catalogue.sets catalogued.new.catalogue.sets catalogued.old.service.desk
        catalogued.new.service.desk (F.coming fresh.old) (F.coming fresh.new) session.old.exchange.outgoing
        (R.remaining reader.old) (W.contents writer.old) (W.contents writer.new) session.old.exchange.incoming.turns result }
    ensures read { IsOfReads result (R.has_failed reader.new) session.old.exchange.incoming.turns (R.reads reader.old)
        (R.reads reader.new) }
    ensures written { IsOfWriter result (W.has_failed writer.new) }
{
    bytes_spell_one_list();
    works_are_lent_under_the_present_version();
    'looks: loop {
        let Ok(()) = refresh(
            alloc,
            &mut catalogued.service,
            &mut catalogued.catalogue,
            &mut session.automaton,
            &mut session.exchange.outgoing,
            fresh,
        ) else {
            return End::Memory;
        };
        let message = match session.exchange.look(reader, writer) {
            Ok(Some(message)) => message,
            Ok(None) => continue,
            Err(end) => return end,
        };
        match hear(
            alloc,
            &mut catalogued.service,
            &session.automaton,
            &mut session.exchange.outgoing,
            &message,
        ) {
            Ok(()) => {}
            Err(_) => return End::Memory,
        }
    }
}

// Handles a message, and puts what the service sends.
fn hear(
    alloc: Global,
    service: &mut Service,
    automaton: &Automaton,
    outgoing: &mut Outgoing,
    message: &Message,
) -> Result<(), AllocError>
    ensures ok { OnOk result
        (Puts (heard (always automaton.now.patterns) (unserved service.old.desk) message.now) service.new.desk outgoing.old outgoing.new) }
    ensures err { OnErr result (IsAmid (always automaton.now.patterns) service.old.desk message.now service.new.desk) }
{
    let out = service.message(alloc, message)?;
    let ServiceOut {
        messages,
        work,
        note: _,
    } = out;
    match work {
        None => outgoing.put(messages.as_slice()),
        Some(work) => match outgoing.put(messages.as_slice()) {
            Ok(()) => bring_back(alloc, service, automaton, outgoing, work),
            Err(refused) => {
                work.discard();
                Err(refused)
            }
        },
    }
}

// Runs a work and takes it back to the service.
fn bring_back(
    alloc: Global,
    service: &mut Service,
    automaton: &Automaton,
    outgoing: &mut Outgoing,
    work: Work,
) -> Result<(), AllocError>
    ensures ok { OnOk result
        (Puts (worked (always automaton.now.patterns) (unserved service.old.desk) (work ∷ [])) service.new.desk outgoing.old outgoing.new) }
    ensures err { OnErr result
        ((service.new.desk ≡ service.old.desk)
        ⊎ (service.new.desk ≡ (worked (always automaton.now.patterns) (unserved service.old.desk) (work ∷ [])).desk)) }
{
    match service.finish(alloc, work.run(automaton)) {
        Ok(out) => put_plain(outgoing, out),
        Err(AllocFailed { value: done }) => {
            done.discard();
            Err(AllocError)
        }
    }
}

/// Puts the messages of an event. A work, which it doesn't lend, is let go.
pub fn put_plain(outgoing: &mut Outgoing, out: ServiceOut) -> Result<(), AllocError>
    ensures { OnOk result (outgoing.new ≡ outgoing.old ++ flat_map frame out.messages.items) }
{
    let ServiceOut {
        messages,
        work,
        note: _,
    } = out;
    if let Some(work) = work {
        work.discard();
    }
    outgoing.put(messages.as_slice())
}

// Disconnects the service.
fn leave(alloc: Global, service: &mut Service)
    ensures { service.new.desk ≡ (service_step service.old.desk Disconnects).desk }
{
    let out = service.disconnect(alloc);
    let ServiceOut {
        messages: _,
        work,
        note: _,
    } = out;
    if let Some(work) = work {
        work.discard();
    }
}
