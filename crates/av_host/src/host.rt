ghost use Rattle.std.specs.Prelude.{◌≡◌, IfErr, IfOk, IfSome, IsTrue, OnErr, OnOk, map, vec_len};
ghost use Rattle.std.specs.Io.KnownBytes.{Appends};
ghost use Rattle.std.specs.Option.{option_copied};
ghost use Rattle.av_base.specs.Device.{AppendsPrefix};
ghost use Rattle.av_frame.specs.declared.end.End.TheVariants.{Done};
ghost use Rattle.av_files.specs.Opened.{opened_lines, tally_from};
ghost use Rattle.av_gate.specs.Seats.{IsSeatOf};
ghost use Rattle.av_gate.specs.Claims.{IsLegal};
ghost use Rattle.av_host.specs.Files.{HoldsInputs};
ghost use Rattle.av_host.specs.Lines.{AreGiven, AreTrueLines, HaveReceipts, receipts_of};
ghost use Rattle.av_shared.specs.History.{IsDeskAudit};
ghost use Rattle.av_shared.specs.Still.{TellsTrue};
ghost use Rattle.av_host.specs.Brought.{AreBrought, AreHosted, AreTold, IsToldInPart, answer_at, opened_files};
ghost use Rattle.av_status.specs.Status.{EndsWell, graver, gravest_from, IsFault, status_of_end};

use crate::crew::{Met, PortSeats, meet};
use crate::desks::Desks;
use crate::lines::{are_denied_right, are_of_their_files};
use crate::opener::{Brought, Group, Openings};
use crate::service::{HostedService, Services};
use crate::signatures::Signatures;
use crate::threads::threads_for;
use av_base::{Limits, Mode};
use av_desk::Desk;
use av_ends::Receipt;
use av_engines::End;
use av_files::opened::{Opened, conclude_opened, count_opened, print_opened};
use av_files::scanner::{Input, read_set};
use av_files::streams::{add_file, empty_volume};
use av_gate::{Gate, Seat, Unclosed};
use av_pend::Answer;
use av_shared::closing::{Closed, NotClosed, close_all};
use av_shared::looking::Looking;
use av_shared::telling::shows_true;
use av_status::faults::{not_certified, out_of_memory};
use av_status::status::Status;
use av_status::tally::{Tally, Wishes};
use av_status::{Prefixed, Progress, end_told, gravest};
use av_store::Volume;
use std::alloc::{AllocError, Global};
use std::fs::Files;
use std::io::Write;
use std::net::Net;
use std::random::RandomSource;
use std::sync::Wait;
use std::thread::Threads;
use std::time::Clock;

/// What a host asks of the system.
pub trait Hosting: Files
    + Threads
    + Wait
    + Net
    + Clock
    + RandomSource
    + Sync
    + Copy
    + Send
    + 'static {}

impl<R: Files + Threads + Wait + Net + Clock + RandomSource + Sync + Copy + Send + 'static> Hosting
    for R {}

/// How many threads open files, and how many scan for a service: each 1 to 16. With a spare there are two services: what is asked of
/// the first one is asked of the spare where that one is lost.
#[derive(Clone, Copy, Debug, PartialEq, Eq)]
pub struct Crew {
    pub openers: usize,
    pub workers: usize,
    pub has_spare: bool,
}

/// What a host runs on, and how: the system and its memory, the signatures that it judges by, its threads, and what it writes of files.
#[derive(Drop)]
pub struct Host<'a, R> {
    pub rt: &'a R,
    pub alloc: Global,
    pub signatures: &'a Signatures,
    pub crew: Crew,
    pub wishes: Wishes,
}

/// What is asked of a host: the file of signatures by which it judges, the files that it opens, its threads, and what it writes.
#[derive(Clone, Copy)]
pub struct HostRequest<'a> {
    pub set: Input<'a>,
    pub files: &'a [Input<'a>],
    pub crew: Crew,
    pub wishes: Wishes,
}

/// Opens files through a filter and its scanning service, in threads of this process, and writes a line for each, in the
/// order given, as far as it is to be shown. The set and then each file is judged before any is opened; the first fault ends it,
/// with one line to `err`.
pub fn host_files<R: Hosting, W: Write, E: Write>(
    rt: &R,
    alloc: Global,
    request: HostRequest<'_>,
    out: &mut W,
    err: &mut E,
) -> Status
    ensures { EndsWell result
        → AreHosted (option_copied request.entry.set.content) request.entry.crew.openers request.entry.files.now request.entry.wishes
        (W.contents out.old) (W.contents out.new) result }
{
    let HostRequest {
        set,
        files,
        crew,
        wishes,
    } = request;
    let set = match read_set(alloc, set, err) {
        Ok(set) => set,
        Err(status) => return status,
    };
    let Ok(signatures) = Signatures::build(alloc, set) else {
        return out_of_memory(err);
    };
    let (volume, names) = match read_inputs(alloc, files, err) {
        Ok(read) => read,
        Err(status) => return status,
    };
    let group = Group {
        names: names.as_slice(),
        before: 0,
        all: names.len(),
    };
    let host = Host {
        rt,
        alloc,
        signatures: &signatures,
        crew,
        wishes,
    };
    let mut tally = Tally::new();
    let mut quiet = Progress::new(rt, Prefixed::plain(err), false);
    match host_group(&host, volume, group, &mut tally, out, &mut quiet) {
        Ok(ended) => conclude_opened(tally, files.len(), ended, wishes, &mut quiet),
        Err(failed) => failed,
    }
}

// A volume of these files, each read and written once, and their names.
fn read_inputs<'a, E: Write>(
    alloc: Global,
    files: &[Input<'a>],
    err: &mut E,
) -> Result<(Volume, Vec<&'a str>), Status>
    ensures volume { IfOk result (λ r. HoldsInputs files.now r.0) }
    ensures names { IfOk result (λ r. r.1.items ≡ map (λ f. f.name) files.now) }
    ensures failed { IfErr result (λ status. IsFault status) }
{
    let mut volume = empty_volume(alloc);
    let mut names = Vec::new(alloc);
    'files: for file in files {
        add_file(alloc, &mut volume, *file, err)?;
        if names.push(file.name).is_err() {
            return Err(out_of_memory(err));
        }
    }
    Ok((volume, names))
}

/// Opens the streams of a volume by their names, as `host_files` does, and counts those that were opened: Ok says how that ended.
/// Err where none was, or a line could not be written: what was written then is a front of lines that are as true.
pub fn host_group<R: Hosting, C: Clock, W: Write, E: Write>(
    host: &Host<'_, R>,
    volume: Volume,
    group: Group<'_>,
    tally: &mut Tally,
    out: &mut W,
    err: &mut Progress<'_, C, E>,
) -> Result<Status, Status>
    ensures told { IfOk result (λ status. AreTold volume host.now.signatures.now host.now.crew.openers group.entry.names.now host.now.wishes tally.old tally.new (W.contents out.old) (W.contents out.new) status) }
    ensures part { OnErr result (IsToldInPart volume host.now.signatures.now host.now.wishes (W.contents out.old) (W.contents out.new)) }
    ensures failed { IfErr result (λ status. IsFault status) }
{
    let certified = open_group(host, volume, group, err)?;
    tell(host, &certified, tally, out, err)
}

// What the files of a group were told, as their run shows it to be true, and the gravest end of a loop or an opener.
#[derive(Drop)]
struct Certified<'a> {
    opened: Vec<Opened<'a>>,
    end: End,
}

// Opens the files of a group between a gate and services of their own, and certifies what they were told. Else nothing may be written.
fn open_group<'a, R: Hosting, C: Clock, E: Write>(
    host: &Host<'_, R>,
    volume: Volume,
    group: Group<'a>,
    err: &mut Progress<'_, C, E>,
) -> Result<Certified<'a>, Status>
    ensures certified { IfOk result (λ c. AreTrueLines volume host.now.signatures.now c.opened.items) }
    ensures brought { IfOk result (λ c. AreBrought host.now.crew.openers group.entry.names.now c.opened.items c.end) }
    ensures failed { IfErr result (λ status. IsFault status) }
{
    let Ok(before) = volume.copy() else {
        return Err(out_of_memory(err));
    };
    let Ok(desks) = Desks::connected(host.rt, host.alloc, host.signatures, host.crew) else {
        return Err(out_of_memory(err));
    };
    match Gate::new(host.alloc, volume, Mode::FailClosed, Limits::greatest()) {
        Ok((gate, seat)) => {
            let sides = Sides { gate, seat, desks };
            open_between(host, &before, sides, group, err)
        }
        Err(_) => Err(out_of_memory(err)),
    }
}

// A gate with the seat that it came with, and the desks of the services that will be connected to it.
struct Sides {
    gate: Gate,
    seat: Seat,
    desks: Desks,
    ghost own: { IsSeatOf gate seat },
}

// The same between these sides. The volume is as it was handed to the gate.
fn open_between<'a, R: Hosting, C: Clock, E: Write>(
    host: &Host<'_, R>,
    volume: &Volume,
    sides: Sides,
    group: Group<'a>,
    err: &mut Progress<'_, C, E>,
) -> Result<Certified<'a>, Status>
    ensures certified { IfOk result (λ c. AreTrueLines volume.now host.now.signatures.now c.opened.items) }
    ensures brought { IfOk result (λ c. AreBrought host.now.crew.openers group.entry.names.now c.opened.items c.end) }
    ensures failed { IfErr result (λ status. IsFault status) }
{
    let Sides { gate, seat, desks } = sides;
    let opened = open_at(host, &gate, seat, desks, group, err);
    err.wipe();
    match opened {
        Ok(opening) => certify(host, volume, gate, opening, err),
        Err(end) => {
            gate.abandon();
            Err(end_told(err, end))
        }
    }
}

// Closes a gate and its desks, and looks whether their run shows what the files were told.
fn certify<'a, R: Hosting, E: Write>(
    host: &Host<'_, R>,
    volume: &Volume,
    gate: Gate,
    opening: Opening<'a>,
    err: &mut E,
) -> Result<Certified<'a>, Status>
    requires { HaveReceipts opening.opened.items opening.receipts.items }
    ensures certified { IfOk result (λ c. AreTrueLines volume.now host.now.signatures.now c.opened.items) }
    ensures same { IfOk result (λ c. (c.opened.items ≡ opening.entry.opened.items) × (c.end ≡ opening.entry.end)) }
    ensures failed { IfErr result (λ status. IsFault status) }
{
    let Opening {
        opened,
        receipts,
        seats,
        first,
        spare,
        end,
    } = opening;
    let closed = match close_all(gate, seats, receipts, first, spare) {
        Ok(closed) => closed,
        Err(kept) => {
            abandoned(kept);
            return Err(uncertified(end, err));
        }
    };
    let looking = Looking {
        rt: host.rt,
        alloc: host.alloc,
        threads: threads_for(host.rt, &closed),
    };
    match are_shown(
        &looking,
        &closed,
        host.signatures,
        volume,
        opened.as_slice(),
    ) {
        Ok(true) => Ok(Certified { opened, end }),
        Ok(false) => Err(uncertified(end, err)),
        Err(_) => Err(out_of_memory(err)),
    }
}

// A run that its audits don't certify is told by how it ended, if that is a fault.
fn uncertified<E: Write>(end: End, err: &mut E) -> Status
    ensures { IsFault result }
{
    match end {
        End::Done | End::Closed => not_certified(err),
        fault => end_told(err, fault),
    }
}

// Lets a gate go that could not be closed.
fn abandoned(kept: NotClosed) {
    let NotClosed {
        unclosed,
        desk: _,
        spare: _,
    } = kept;
    let Unclosed {
        why: _,
        gate,
        seats: _,
        receipts: _,
    } = unclosed;
    gate.abandon();
}

// Whether a run shows that what these files were told is true of the contents that the volume has under their names, by this set.
fn are_shown<R: Threads + Sync>(
    looking: &Looking<'_, R>,
    closed: &Closed,
    signatures: &Signatures,
    volume: &Volume,
    opened: &[Opened<'_>],
) -> Result<bool, AllocError>
    requires gate { IsLegal closed.now.gate }
    requires desk { IsDeskAudit closed.now.desk }
    requires spare { IfSome closed.now.spare (λ a. IsDeskAudit a) }
    requires given { AreGiven closed.now.gate opened.now }
    ensures { IfOk result (λ yes. IsTrue yes → AreTrueLines volume.now signatures.now opened.now) }
{
    if !is_shown(looking, closed, signatures)? {
        return Ok(false);
    }
    if !are_denied_right(opened, volume, signatures) {
        return Ok(false);
    }
    Ok(are_of_their_files(opened, volume, &closed.gate.volume))
}

fn is_shown<R: Threads + Sync>(
    looking: &Looking<'_, R>,
    closed: &Closed,
    signatures: &Signatures,
) -> Result<bool, AllocError>
    requires gate { IsLegal closed.now.gate }
    requires desk { IsDeskAudit closed.now.desk }
    requires spare { IfSome closed.now.spare (λ a. IsDeskAudit a) }
    ensures { IfOk result (λ yes. IsTrue yes → TellsTrue closed.now.gate signatures.now) }
{
    let set = signatures.set();
    let automaton = signatures.automaton();
    match &closed.spare {
        None => shows_true(looking, &closed.gate, &closed.desk, None, set, automaton),
        Some(spare) => shows_true(
            looking,
            &closed.gate,
            &closed.desk,
            Some(spare),
            set,
            automaton,
        ),
    }
}

// Writes the lines of files that were opened, counts them, and says how that ended, where it is a fault.
fn tell<R, W: Write, E: Write>(
    host: &Host<'_, R>,
    certified: &Certified<'_>,
    tally: &mut Tally,
    out: &mut W,
    err: &mut E,
) -> Result<Status, Status>
    ensures counted { OnOk result (tally.new ≡ tally_from tally.old certified.now.opened.items) }
    ensures lines { OnOk result (Appends (W.contents out.old) (W.contents out.new) (opened_lines host.now.wishes certified.now.opened.items)) }
    ensures ended { IfOk result (λ status. status ≡ status_of_end certified.now.end) }
    ensures front { OnErr result (AppendsPrefix (W.contents out.old) (W.contents out.new) (opened_lines host.now.wishes certified.now.opened.items)) }
    ensures failed { IfErr result (λ status. IsFault status) }
{
    let opened = certified.opened.as_slice();
    match print_opened(host.alloc, opened, host.wishes, out, err) {
        Status::Done => {
            count_opened(tally, opened);
            Ok(end_told(err, certified.end))
        }
        failed => Err(failed),
    }
}

// What came of the opens of a group, and what its gate is closed with.
struct Opening<'a> {
    opened: Vec<Opened<'a>>,
    receipts: Vec<Receipt>,
    seats: Vec<Seat>,
    first: Desk,
    spare: Option<Desk>,
    // The gravest end of a loop or an opener.
    end: End,
}

// Opens the files between this gate and services at these desks: what came of it. Else why none was opened.
fn open_at<'a, R: Hosting, C: Clock, E: Write>(
    host: &Host<'_, R>,
    gate: &Gate,
    seat: Seat,
    desks: Desks,
    group: Group<'a>,
    err: &mut Progress<'_, C, E>,
) -> Result<Opening<'a>, End>
    requires { IsSeatOf gate.now seat }
    ensures brought { IfOk result (λ o. AreBrought host.now.crew.openers group.entry.names.now o.opened.items o.end) }
    ensures receipts { IfOk result (λ o. HaveReceipts o.opened.items o.receipts.items) }
    ensures failed { IfErr result (λ end. IsFault (status_of_end end)) }
{
    let services = Services::connect(host.rt, host.alloc, desks)?;
    let met = open_over(host, gate, seat, &services, group, err);
    let Services {
        first,
        spare,
        wires: _,
    } = services;
    let first = desk_in(first);
    let spare = spare.map(desk_in);
    match met {
        Ok(met) => told_by(host.alloc, group, host.crew.openers, met, first, spare),
        Err(end) => Err(end),
    }
}

// The desk of a service.
fn desk_in(service: HostedService) -> Desk {
    let HostedService { desk, wire: _ } = service;
    desk
}

// The same over the connections of these services.
fn open_over<R: Hosting, C: Clock, E: Write>(
    host: &Host<'_, R>,
    gate: &Gate,
    seat: Seat,
    services: &Services,
    group: Group<'_>,
    err: &mut Progress<'_, C, E>,
) -> Result<Met, End>
    requires { IsSeatOf gate.now seat }
    ensures brought { IfOk result (λ met. vec_len met.brought ≡ host.now.crew.openers) }
    ensures failed { IfErr result (λ end. IsFault (status_of_end end)) }
{
    let openings = Openings::new(group, host.crew.openers, &services.wires);
    meet(host, gate, seat, services, &openings, err)
}

// What came of what so many openers brought back, and the gravest of this end and theirs.
fn told_by<'a>(
    alloc: Global,
    group: Group<'a>,
    openers: usize,
    met: Met,
    first: Desk,
    spare: Option<Desk>,
) -> Result<Opening<'a>, End>
    requires { vec_len met.brought ≡ openers }
    ensures brought { IfOk result (λ o. AreBrought openers group.entry.names.now o.opened.items o.end) }
    ensures receipts { IfOk result (λ o. HaveReceipts o.opened.items o.receipts.items) }
    ensures failed { IfErr result (λ end. IsFault (status_of_end end)) }
{
    let (opened, end) = told_of(alloc, group.names, &met.brought, met.end)?;
    let Ok(receipts) = receipts_of(alloc, &met.brought) else {
        return Err(gravest(end, End::Memory));
    };
    let Ok(seats) = seats_of(alloc, met) else {
        return Err(gravest(end, End::Memory));
    };
    Ok(Opening {
        opened,
        receipts,
        seats,
        first,
        spare,
        end,
    })
}

// The receipts of all openers.
fn receipts_of(alloc: Global, brought: &[Brought]) -> Result<Vec<Receipt>, AllocError>
    ensures { IfOk result (λ all. all.items ≡ receipts_of brought.now) }
{
    let mut all = Vec::new(alloc);
    'openers: for opener in brought {
        all.extend_from_slice(opener.receipts.as_slice())?;
    }
    Ok(all)
}

// The seats of all who made calls.
fn seats_of(alloc: Global, met: Met) -> Result<Vec<Seat>, AllocError> {
    let Met {
        brought,
        first,
        spare,
        end: _,
    } = met;
    let mut seats = Vec::new(alloc);
    add_seats(&mut seats, first)?;
    add_seats(&mut seats, spare)?;
    'openers: for opener in brought {
        seats.push(opener.seat)?;
    }
    Ok(seats)
}

fn add_seats(seats: &mut Vec<Seat>, port: PortSeats) -> Result<(), AllocError> {
    seats.push(port.into)?;
    seats.push(port.out)?;
    Ok(())
}

// What each file was told, of what the openers brought, and the gravest of this end and theirs.
fn told_of<'a>(
    alloc: Global,
    names: &'a [&'a str],
    brought: &[Brought],
    end: End,
) -> Result<(Vec<Opened<'a>>, End), End>
    ensures told { IfOk result (λ r. r.0.items ≡ opened_files brought.now names.now) }
    ensures gravest { IfOk result (λ r. r.1 ≡ graver end (gravest_from Done (map (λ b. b.end) brought.now))) }
    ensures failed { IfErr result (λ end. IsFault (status_of_end end)) }
{
    let end = gravest(end, end_of_openers(brought));
    match opened_files(alloc, names, brought) {
        Ok(opened) => Ok((opened, end)),
        Err(_) => Err(gravest(end, End::Memory)),
    }
}

// The gravest end that an opener came to.
fn end_of_openers(brought: &[Brought]) -> End
    ensures { result ≡ gravest_from Done (map (λ b. b.end) brought.now) }
{
    let mut end = End::Done;
    'openers: for opener in brought {
        end = gravest(end, opener.end);
    }
    end
}

// What each file was told, in the order given, as far as there is an answer. The openers took the files in turn.
fn opened_files<'a>(
    alloc: Global,
    names: &[&'a str],
    brought: &[Brought],
) -> Result<Vec<Opened<'a>>, AllocError>
    ensures { IfOk result (λ opened. opened.items ≡ opened_files brought.now names.now) }
{
    names
        .iter()
        .enumerate()
        .filter_map(|(place, name)| {
            let answer = answer_at(brought, place)?;
            Some(Opened { name, answer })
        })
        .collect(alloc)
}

// The answer of the file at a place.
fn answer_at(brought: &[Brought], place: usize) -> Option<Answer>
    ensures { result ≡ answer_at brought.now place }
{
    let opener = brought.get(place.checked_rem(brought.len())?)?;
    let receipt = opener.receipts.get(place.checked_div(brought.len())?)?;
    Some(receipt.answer)
}
