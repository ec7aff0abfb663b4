//! The threads of a host, each started in a scope. Where one can't be started its part is done in the thread that wanted to
//! start it, after all the others were told to end.

ghost use Rattle.std.specs.Prelude.{◌≡◌, IfErr, IfOk, MatchOption, MatchResult, vec_len};
ghost use Rattle.std.specs.Result.{ForErr, ForOk};
ghost use Rattle.av_gate.specs.Seats.{IsSeatOf};
ghost use Rattle.av_host.specs.Ends.{EndsAlone, EndsBeside};
ghost use Rattle.av_pool.specs.Pool.{AreEndsOf};
ghost use Rattle.av_status.specs.Status.{IsFault, status_of_end};

use crate::carrying::{LoopDirection, back_to_desk, carry, into_desk};
use crate::ends::{PortEnds, end_of_both, with_lack};
use crate::host::{Host, Hosting};
use crate::opener::{Brought, Openings, Part, open_files};
use crate::service::{HostedService, Services};
use crate::staffed::{Staffed, start_pools};
use crate::wire::{BreakOff, PortWire, Wire};
use av_desk::Desk;
use av_engines::End;
use av_gate::{Gate, Seat};
use av_pool::{Giver, Pool, Taker};
use av_status::gravest;
use av_status::progress::Progress;
use std::alloc::{AllocError, Global};
use std::io::Write;
use std::snapshot::Snapshot;
use std::sync::Wait;
use std::thread;
use std::thread::{JoinHandle, Promise, PromisedHandle, Scope, SpawnError, Threads};
use std::time::Clock;

// The giver that a thread gives back gives to the same pool.
#[derive(Drop)]
struct SameGiver(Snapshot<Giver>);

impl Promise<(Giver, End)> for SameGiver {
    ghost kept_by = { λ p r. r.0.channel ≡ p.0.value.channel };
}

// The giver and the taker that a thread gives back are the ends of the pool.
#[derive(Drop)]
struct EndsOf(Snapshot<Pool>);

impl Promise<(Giver, Taker, End)> for EndsOf {
    ghost kept_by = { λ p r. AreEndsOf p.0.value r.0 r.1 };
}

/// The seats of the two loops round a port.
#[derive(Drop)]
pub struct PortSeats {
    pub into: Seat,
    pub out: Seat,
}

/// What came back of the threads of a host: what the openers brought, the seats of the loops round both ports, and the end of the host.
#[derive(Drop)]
pub struct Met {
    pub brought: Vec<Brought>,
    pub first: PortSeats,
    pub spare: PortSeats,
    pub end: End,
}

/// The gate and its services, each with so many workers. Gives what came back; else why nothing was opened.
pub fn meet<R: Hosting, C: Clock, E: Write>(
    host: &Host<'_, R>,
    gate: &Gate,
    seat: Seat,
    services: &Services,
    openings: &Openings<'_>,
    err: &mut Progress<'_, C, E>,
) -> Result<Met, End>
    requires { IsSeatOf gate.now seat }
    ensures brought { IfOk result (λ met. vec_len met.brought ≡ openings.now.openers) }
    ensures failed { IfErr result (λ end. IsFault (status_of_end end)) }
{
    let (rt, alloc, workers) = (host.rt, host.alloc, host.crew.workers);
    thread::scope(
        thread::scope_env(),
        rt,
        |scope| -> Result<Met, End>
            requires { IsSeatOf gate.now seat }
            ensures brought { IfOk result (λ met. vec_len met.brought ≡ openings.entry.now.openers) }
            ensures failed { IfErr result (λ end. IsFault (status_of_end end)) }
        {
            let (first, spare) = start_pools(rt, alloc, services, workers)?;
            let first = Serving::start(scope, rt, alloc, first);
            let spare = spare.map(|spare| Serving::start(scope, rt, alloc, spare));
            let (brought, at_first, at_spare) = open_all(rt, alloc, gate, seat, openings, err);
            let end = conclude(rt, first, at_first.0, spare, at_spare.0);
            let end = with_lack(end, services.lack_thread());
            match brought {
                Ok(brought) => Ok(Met {
                    brought,
                    first: at_first.1,
                    spare: at_spare.1,
                    end,
                }),
                Err(_) => Err(gravest(end, End::Memory)),
            }
        },
    )
}

// The end of the services, once all came to theirs. Then their pools are stopped.
fn conclude<R: Threads + Wait>(
    rt: &R,
    first: Serving<'_>,
    at_first: PortEnds,
    spare: Option<Serving<'_>>,
    at_spare: PortEnds,
) -> End
    ensures { MatchOption spare.entry (EndsAlone at_first result) (λ _. EndsBeside at_first at_spare result) }
{
    let (first, end) = first.join(rt);
    let Some(spare) = spare else {
        first.stop(rt);
        return at_first.alone(end);
    };
    let (spare, spare_end) = spare.join(rt);
    first.stop(rt);
    spare.stop(rt);
    end_of_both(at_first.beside(end), at_spare.beside(spare_end))
}

// A service whose side a thread does. It gives back the ends of the pool, and the gravest end of a loop.
struct Serving<'a> {
    service: &'a HostedService,
    pool: Pool,
    thread: Result<PromisedHandle<(Giver, Taker, End), EndsOf>, (Giver, Taker, End)>,
    ghost running: { ForOk thread (λ h. h.promise.0.value ≡ pool) },
    ghost over: { ForErr thread (λ ended. AreEndsOf pool ended.0 ended.1) },
}

impl<'a> Serving<'a> {
    fn start<'s, S, R: Threads + Wait + Sync>(
        scope: &'s Scope<'s, S>,
        rt: &'s R,
        alloc: Global,
        staffed: Staffed<'s>,
    ) -> Serving<'s>
        ensures { result.pool ≡ staffed.entry.pool }
    {
        let Staffed {
            service,
            pool,
            giver,
            taker,
        } = staffed;
        let wire = &service.wire;
        let desk = &service.desk;
        let started = scope.spawn_with(
            EndsOf(Snapshot::of(&pool)),
            move || -> (Giver, Taker, End)
                ensures giver { result.0.channel ≡ giver.channel }
                ensures taker { result.1.channel ≡ taker.channel }
            { serve(rt, alloc, wire, desk, giver, taker) },
        );
        let thread = or_run_here(started, wire);
        Serving {
            service,
            pool,
            thread,
        }
    }

    fn join<R: Threads>(self, rt: &R) -> (Staffed<'a>, End)
        ensures { result.0.pool ≡ self.entry.pool }
    {
        let Serving {
            service,
            pool,
            thread,
        } = self;
        let (giver, taker, end) = match thread {
            Ok(thread) => thread.join(rt),
            Err(ended) => ended,
        };
        let staffed = Staffed {
            service,
            pool,
            giver,
            taker,
        };
        (staffed, end)
    }
}

// The thread that was started. Where it wasn't, what its part gives in this one, once the others were told to end.
fn or_run_here<B: BreakOff, H, T, F: FnOnce() -> T>(
    started: Result<H, SpawnError<F>>,
    others: &B,
) -> Result<H, T>
    requires { IfErr started (λ refused. F.pre refused.value) }
    ensures { MatchResult started (λ h. result ≡ Ok h) (λ refused. (t : T) × (result ≡ Err t) × F.post refused.value t) }
{
    match started {
        Ok(thread) => Ok(thread),
        Err(refused) => {
            others.break_off();
            Err((refused.value)())
        }
    }
}

// The service's side: two loops round the desk. Once both came to their ends, so does the other side's input. Gives back the ends
// of the pool, and the gravest end of a loop.
fn serve<R: Threads + Wait + Sync>(
    rt: &R,
    alloc: Global,
    wire: &Wire,
    desk: &Desk,
    giver: Giver,
    taker: Taker,
) -> (Giver, Taker, End)
    ensures giver { result.0.channel ≡ giver.channel }
    ensures taker { result.1.channel ≡ taker.channel }
{
    thread::scope(
        thread::scope_env(),
        rt,
        |scope| -> (Giver, Taker, End)
            ensures giver { result.0.channel ≡ giver.channel }
            ensures taker { result.1.channel ≡ taker.channel }
        {
            let into = start_into_desk(scope, rt, alloc, wire, desk, giver);
            let (taker, back) = back_to_desk(rt, alloc, wire, desk, taker);
            let (giver, into) = match into {
                Ok(thread) => thread.join(rt),
                Err(ended) => ended,
            };
            wire.hang_up();
            (giver, taker, gravest(into, back))
        },
    )
}

fn start_into_desk<'s, S, R: Threads + Wait + Sync>(
    scope: &'s Scope<'s, S>,
    rt: &'s R,
    alloc: Global,
    wire: &'s Wire,
    desk: &'s Desk,
    giver: Giver,
) -> Result<PromisedHandle<(Giver, End), SameGiver>, (Giver, End)>
    ensures { MatchResult result (λ h. h.promise.0.value.channel ≡ giver.channel) (λ e. e.0.channel ≡ giver.channel) }
{
    let started = scope.spawn_with(
        SameGiver(Snapshot::of(&giver)),
        move || -> (Giver, End)
            ensures { result.0.channel ≡ giver.channel }
        { into_desk(rt, alloc, wire, desk, giver) },
    );
    or_run_here(started, wire)
}

// Where the threads of the filter's side are started, and the gate that they share.
#[derive(Drop)]
struct Starter<'s, S, R> {
    scope: &'s Scope<'s, S>,
    rt: &'s R,
    alloc: Global,
    gate: &'s Gate,
}

// The filter's side: two loops round each port of the gate that has a connection, and the openers. Gives what the openers brought
// back, and how the loops of the first port ended and of the second, with their seats.
fn open_all<R: Threads + Wait + Sync, C: Clock, E: Write>(
    rt: &R,
    alloc: Global,
    gate: &Gate,
    mut seat: Seat,
    openings: &Openings<'_>,
    err: &mut Progress<'_, C, E>,
) -> (
    Result<Vec<Brought>, AllocError>,
    (PortEnds, PortSeats),
    (PortEnds, PortSeats),
)
    requires { IsSeatOf gate.now seat }
    ensures { IfOk result.0 (λ all. vec_len all ≡ openings.now.openers) }
{
    let reader = gate.seat(&mut seat);
    let writer = gate.seat(&mut seat);
    let spare_reader = gate.seat(&mut seat);
    let spare_writer = gate.seat(&mut seat);
    thread::scope(
        thread::scope_env(),
        rt,
        |scope| -> (
            Result<Vec<Brought>, AllocError>,
            (PortEnds, PortSeats),
            (PortEnds, PortSeats),
        )
            requires reader { IsSeatOf gate.now reader }
            requires writer { IsSeatOf gate.now writer }
            requires spare_reader { IsSeatOf gate.now spare_reader }
            requires spare_writer { IsSeatOf gate.now spare_writer }
            requires seat { IsSeatOf gate.now seat }
            ensures { IfOk result.0 (λ all. vec_len all ≡ openings.entry.now.openers) }
        {
            let first = Some(openings.wires.first());
            let spare = openings.wires.spare();
            let starter = Starter {
                scope,
                rt,
                alloc,
                gate,
            };
            let into = start_loop(&starter, LoopDirection::Into, first, reader);
            let into_spare = start_loop(&starter, LoopDirection::Into, spare, spare_reader);
            let out = start_loop(&starter, LoopDirection::Out, first, writer);
            let out_of_spare = start_loop(&starter, LoopDirection::Out, spare, spare_writer);
            let brought = open_in_threads(&starter, seat, openings, err);
            gate.stop(rt);
            let first = ends_at(rt, into, out);
            let spare = ends_at(rt, into_spare, out_of_spare);
            (brought, first, spare)
        },
    )
}

// The ends of the two loops round a port with their seats, once their threads have come to them.
fn ends_at<R: Threads>(
    rt: &R,
    into: Result<JoinHandle<(Seat, End)>, (Seat, End)>,
    out: Result<JoinHandle<(Seat, End)>, (Seat, End)>,
) -> (PortEnds, PortSeats) {
    let (into_seat, into) = joined(rt, into);
    let (out_seat, out) = joined(rt, out);
    let seats = PortSeats {
        into: into_seat,
        out: out_seat,
    };
    (PortEnds { into, out }, seats)
}

// What a thread gives, or gave where it couldn't be started.
fn joined<R: Threads, T>(rt: &R, started: Result<JoinHandle<T>, T>) -> T {
    match started {
        Ok(thread) => thread.join(rt),
        Err(done) => done,
    }
}

// A loop at a port that has a connection; else Done.
fn start_loop<'s, S, R: Threads + Wait + Sync>(
    starter: &Starter<'s, S, R>,
    way: LoopDirection,
    line: Option<PortWire<'s>>,
    seat: Seat,
) -> Result<JoinHandle<(Seat, End)>, (Seat, End)>
    requires { IsSeatOf starter.now.gate.now seat }
{
    let Some(line) = line else {
        return Err((seat, End::Done));
    };
    let Starter {
        scope,
        rt,
        alloc,
        gate,
    } = *starter;
    let started = scope.spawn(
        move ||
            requires { IsSeatOf gate.now seat }
        { carry(rt, alloc, way, line, gate, seat) },
    );
    or_run_here(started, line.wires)
}

fn start_opener<'s, S, R: Threads + Wait + Sync>(
    starter: &Starter<'s, S, R>,
    seat: Seat,
    part: Part<'s>,
) -> Result<JoinHandle<Brought>, Brought>
    requires { IsSeatOf starter.now.gate.now seat }
{
    let Starter {
        scope,
        rt,
        alloc,
        gate,
    } = *starter;
    let started = scope.spawn(
        move ||
            requires { IsSeatOf gate.now seat }
        { open_files(rt, alloc, gate, seat, part) },
    );
    or_run_here(started, part.openings.wires)
}

// What the openers bring back, each from a thread of its own, the first opener's first.
fn open_in_threads<'s, S, R: Threads + Wait + Sync, C: Clock, E: Write>(
    starter: &Starter<'s, S, R>,
    mut seat: Seat,
    openings: &'s Openings<'s>,
    err: &mut Progress<'_, C, E>,
) -> Result<Vec<Brought>, AllocError>
    requires { IsSeatOf starter.now.gate.now seat }
    ensures { IfOk result (λ all. vec_len all ≡ openings.now.openers) }
{
    let (rt, alloc, gate) = (starter.rt, starter.alloc, starter.gate);
    let mut openers = Vec::with_capacity(alloc, openings.openers)?;
    let mut all = Vec::with_capacity(alloc, openings.openers)?;
    'openers: for first in 0..openings.openers {
        let mine = gate.seat(&mut seat);
        let part = Part { openings, first };
        let opener = start_opener(starter, mine, part);
        openers.push(opener)?;
    }
    watch(rt, openings, err);
    'threads: for opener in openers {
        all.push(joined(rt, opener))?;
    }
    Ok(all)
}

// Shows how many files have their answer, until the openers are done.
fn watch<R: Wait, C: Clock, E: Write>(
    rt: &R,
    openings: &Openings<'_>,
    err: &mut Progress<'_, C, E>,
) {
    if !err.is_wanted() {
        return;
    }
    'looks: for _ in rt.forever() {
        if openings.are_over() {
            return;
        }
        err.step("opened", openings.answered(), openings.group.all);
        err.pause();
    }
}
