use crate::command::Command;
use crate::script::{Script, parse_script};
use crate::tests::port_rows::PORT_ROWS;
use crate::tests::rows::{CONNECTED, CONNECTED_LINES, Head, ROWS, Row, SCANNED, SCANNED_LINES};
use av_base::{LimitField, Limits, Port, Refusal};
use av_fakes::{may_refuse, refuse_no_more};
use av_history::event::Event;
use av_history::report::Judged;
use av_output::judgement::print_judged;
use av_output::refusal::print_refused;
use av_world::world::World;
use std::alloc::Global;
use std::collections::VecDeque;
use std::process::Abort;
use std::test::Fail;

/// Each step of each row with memory refused to it somewhere: it leaves the world as it was, and again with memory it prints
/// the row's lines.
#[test]
fn refused_or_not_a_step_is_as_if_it_was_never_tried(rt: HostRuntime) -> Result<(), Fail> {
    try_rows(&rt, rt.alloc(), ROWS.as_slice())
}

/// The same over two ports: the loss of a port where questions move, and a publication that both services are told.
#[test]
fn refused_or_not_a_step_over_two_ports_is_as_if_it_was_never_tried(
    rt: HostRuntime,
) -> Result<(), Fail> {
    try_rows(&rt, rt.alloc(), PORT_ROWS.as_slice())
}

fn try_rows<R: Abort>(rt: &R, alloc: Global, rows: &[Row]) -> Result<(), Fail> {
    for row in rows {
        let text = with_head(alloc, row.head, CONNECTED, SCANNED, row.commands)?;
        let lines = with_head(alloc, row.head, CONNECTED_LINES, SCANNED_LINES, row.lines)?;
        let Ok(script) = parse_script(alloc, text.as_slice()) else {
            panic!(rt; "{} is no script", row.name);
        };
        let printed = printed_by(rt, alloc, script)?;
        assert_eq!(rt; printed.as_slice(), lines.as_slice(), "{}", row.name);
        row_is_compared(alloc);
    }
    Ok(())
}

// Marks that nothing is left to be compared of what came before: the rows behind this one begin anew. (The size is one that
// tests/refuse_each.c knows.)
fn row_is_compared(alloc: Global) {
    let _ = Vec::<u8>::with_capacity(alloc, 7_654_323);
}

// The text of a row with that of its head in front.
fn with_head(
    alloc: Global,
    head: Head,
    connected: &[u8],
    scanned: &[u8],
    own: &[u8],
) -> Result<Vec<u8>, Fail> {
    let mut text = Vec::new(alloc);
    match head {
        Head::Nothing => {}
        Head::Connected => text.extend_from_slice(connected)?,
        Head::Scanned => {
            text.extend_from_slice(connected)?;
            text.extend_from_slice(scanned)?;
        }
    }
    text.extend_from_slice(own)?;
    Ok(text)
}

// The lines of a script, with each step tried where memory may be refused.
fn printed_by<R: Abort>(rt: &R, alloc: Global, script: Script) -> Result<Vec<u8>, Fail> {
    let mut out = Vec::new(alloc);
    out.extend_from_slice(b"boot 1\n")?;
    let (number, mode) = (script.number(), script.mode());
    // (caches of few verdicts, since this is run hundreds of times)
    let limits = Limits::check(script.limits().values().with(LimitField::Cache, 8))?;
    may_refuse(alloc);
    let first = World::new(alloc, number, mode, limits);
    refuse_no_more(alloc);
    let made = match first {
        Ok(world) => Ok(world),
        Err(_) => World::new(alloc, number, mode, limits),
    };
    let Ok(mut world) = made else {
        panic!(rt; "no world was made with memory");
    };
    let ran = try_commands(rt, alloc, &mut world, script.into_commands(), &mut out);
    world.close();
    ran?;
    Ok(out)
}

fn try_commands<R: Abort>(
    rt: &R,
    alloc: Global,
    world: &mut World,
    mut commands: VecDeque<Command>,
    out: &mut Vec<u8>,
) -> Result<(), Fail> {
    'commands: while let Some(command) = commands.pop_front() {
        match command {
            Command::Step(event) => try_step(rt, alloc, world, event, out)?,
            Command::Judge { name } => match world.judge(name.as_slice()) {
                Ok(judged) => print_judged(&judged, out)?,
                Err(fault) => print_refused(fault.word(), out)?,
            },
        }
    }
    Ok(())
}

fn try_step<R: Abort>(
    rt: &R,
    alloc: Global,
    world: &mut World,
    event: Event,
    out: &mut Vec<u8>,
) -> Result<(), Fail> {
    let before = sizes(world);
    let held = world.held(alloc)?;
    let judged = judgements(world);
    may_refuse(alloc);
    let first = world.step(alloc, event);
    refuse_no_more(alloc);
    match first {
        Ok(report) => world.print(&report, out)?,
        Err(refused) => match refused.why {
            Refusal::Fault(fault) => print_refused(fault.word(), out)?,
            Refusal::NoMemory => {
                assert_eq!(rt; sizes(world), before);
                assert_eq!(rt; world.held(alloc)?.as_slice(), held.as_slice());
                assert_eq!(rt; judgements(world), judged);
                step_with_memory(rt, alloc, world, refused.value, out)?;
            }
        },
    }
    Ok(())
}

fn step_with_memory<R: Abort>(
    rt: &R,
    alloc: Global,
    world: &mut World,
    event: Event,
    out: &mut Vec<u8>,
) -> Result<(), Fail> {
    match world.step(alloc, event) {
        Ok(report) => world.print(&report, out)?,
        Err(refused) => match refused.why {
            Refusal::Fault(fault) => print_refused(fault.word(), out)?,
            Refusal::NoMemory => panic!(rt; "refused with memory"),
        },
    }
    Ok(())
}

// What is judged of two streams now: their generations, their contents and the latest set are in it.
fn judgements(world: &World) -> [Option<Judged>; 2] {
    [world.judge(b"a").ok(), world.judge(b"b").ok()]
}

// How much a world has kept: events, answers, messages each way, works and questions; and whether each service is connected.
fn sizes(world: &World) -> ([usize; 6], [bool; 2]) {
    let kept = [
        world.history().len(),
        world.answers().len(),
        world.down().len(),
        world.up().len(),
        world.work_count(),
        world.question_count(),
    ];
    let connected = [world.connected(Port::One), world.connected(Port::Two)];
    (kept, connected)
}
