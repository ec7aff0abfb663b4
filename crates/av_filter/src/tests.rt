mod plain;
mod rows;
mod say;
mod steps;

ghost use Rattle.std.specs.Prelude.{IfOk};
ghost use Rattle.av_filter.specs.Fit.{Fits};

use self::plain::Plain;
use self::rows::{ROWS, Row};
use self::say::{said, told};
use self::steps::{Step, at_port, message_of};
use crate::{Filter, FilterFault, Note, Out};
use av_base::{LimitField, LimitValues, Limits, Mode, Port, Refusal, Refused, StreamId, Version};
use av_fakes::{may_refuse, refuse_no_more};
use av_store::{BootSpent, Volume};
use std::alloc::{AllocError, Global};
use std::process::Abort;
use std::test::Fail;

#[test]
fn refused_or_not_every_row_is_answered_as_written(rt: HostRuntime) -> Result<(), Fail> {
    run_all(rt.alloc(), &rt, &ROWS)
}

fn run_all(alloc: Global, rt: &impl Abort, rows: &[Row<'_>]) -> Result<(), Fail> {
    for row in rows {
        let name = row.name;
        assert_eq!(rt; run_row(alloc, row)?, None, "{name}");
    }
    Ok(())
}

// The place of the first step that is answered otherwise. The restart is 100, and those after it count on from there.
fn run_row(alloc: Global, row: &Row<'_>) -> Result<Option<usize>, Fail> {
    let (field, value) = row.limit;
    // (a cache of few verdicts, since this is run hundreds of times)
    let values = LimitValues::greatest()
        .with(LimitField::Cache, 8)
        .with(field, value);
    let limits = Limits::check(values)?;
    let mut volume = volume_of_two(alloc)?;
    let mut filter = Filter::mount(alloc, &mut volume, row.mode, limits)?;
    let before = run_steps(alloc, &mut filter, &mut volume, row.steps);
    let Some(want) = row.restart else {
        filter.abandon();
        return Ok(before?);
    };
    let (mut next, out) = restarted(alloc, filter, &mut volume)?;
    let said = told(alloc, &out);
    let after = run_steps(alloc, &mut next, &mut volume, row.after);
    next.abandon();
    let same = said?.as_str() == want;
    let restart = if same { None } else { Some(100) };
    Ok(
        before?
            .or(restart)
            .or(after?.map(|i| i.saturating_add(101))),
    )
}

// A filter after a restart, and what the restart gives out. One that memory refuses has handed the filter back, and is made
// again.
fn restarted(alloc: Global, filter: Filter, volume: &mut Volume) -> Result<(Filter, Out), Fail>
    ensures fits { IfOk result (λ r. Fits r.0 volume.new) }
{
    may_refuse(alloc);
    let first = filter.restart(alloc, volume);
    refuse_no_more(alloc);
    let last = match first {
        Ok(done) => Ok(done),
        Err(refused) => {
            let Refused { value, why: _ } = refused;
            value.restart(alloc, volume)
        }
    };
    match last {
        Ok(done) => Ok(done),
        Err(refused) => {
            let Refused { value, why: _ } = refused;
            value.abandon();
            Err(Fail::new("no restart"))
        }
    }
}

// A volume with the streams 1 and 2, without bytes.
fn volume_of_two(alloc: Global) -> Result<Volume, Fail> {
    let mut volume = Volume::new(alloc, 1, Limits::greatest());
    let _first = volume.create(alloc, b"a")?;
    let _second = volume.create(alloc, b"b")?;
    Ok(volume)
}

// The place of the first step that is answered otherwise. A step that memory refuses has changed nothing that the readers
// tell, and is taken again.
fn run_steps(
    alloc: Global,
    filter: &mut Filter,
    volume: &mut Volume,
    steps: &[(Step<'_>, &str)],
) -> Result<Option<usize>, AllocError>
    requires fits { Fits filter.old volume.old }
{
    for (i, (step, want)) in steps.iter().enumerate() {
        let (port, step) = at_port(*step);
        let before = seen(filter, volume);
        may_refuse(alloc);
        let mut outcome = happen(alloc, filter, volume, port, step);
        refuse_no_more(alloc);
        if let Err(Refusal::NoMemory) = outcome {
            if seen(filter, volume) != before {
                return Ok(Some(i));
            }
            outcome = happen(alloc, filter, volume, port, step);
        }
        if said(alloc, outcome)?.as_str() != *want {
            return Ok(Some(i));
        }
    }
    Ok(None)
}

// What the readers tell: floor, connections, questions, held opens, open numbers.
fn seen(filter: &Filter, volume: &Volume) -> (u64, bool, bool, usize, usize, u64) {
    (
        filter.floor().get(),
        filter.connected(Port::One),
        filter.connected(Port::Two),
        filter.question_count(),
        filter.pended_count(),
        volume.opens_left(),
    )
}

// What a filter gives out at a step that comes at a port.
fn happen(
    alloc: Global,
    filter: &mut Filter,
    volume: &mut Volume,
    port: Port,
    step: Step<'_>,
) -> Result<Out, Refusal<FilterFault>>
    requires fits { Fits filter.old volume.old }
    ensures fits { Fits filter.new volume.new }
{
    match step {
        Step::Open(stream, least) => {
            let (stream, least) = (StreamId::new(stream), Version::new(least));
            filter.open(alloc, volume, stream, least)
        }
        Step::Write(stream, offset, bytes) => {
            filter.write(alloc, volume, StreamId::new(stream), offset, bytes)
        }
        Step::Cut(stream, length) => { filter.cut(alloc, volume, StreamId::new(stream), length) }
        Step::Remove(stream) => filter.remove(alloc, volume, StreamId::new(stream)),
        Step::Cleanup(stream) => Ok(filter.cleanup(alloc, volume, StreamId::new(stream))?),
        Step::Timeout(seq) => Ok(filter.timeout(alloc, volume, seq)?),
        Step::Disconnect => Ok(filter.disconnect(alloc, volume, port)?),
        _ => match message_of(port, step) {
            Some(message) => Ok(filter.message(alloc, volume, &message)?),
            None => Ok(Out {
                answers: Vec::new(alloc),
                messages: Vec::new(alloc),
                note: Note::Ignored,
            }),
        },
    }
}

// Ten thousand steps of a fixed generator in each of two boots, in each mode, beside the plain lists.
#[test]
fn a_filter_keeps_step_with_plain_lists(rt: HostRuntime) -> Result<(), Fail> {
    for mode in [Mode::FailClosed, Mode::FailOpen] {
        assert_eq!(rt; first_apart(rt.alloc(), mode)?, None);
    }
    Ok(())
}

// The boot and the first step in it at which a filter and the plain lists differ. The restart is step 10,000.
fn first_apart(alloc: Global, mode: Mode) -> Result<Option<(u64, u64)>, Fail> {
    let values = LimitValues::greatest()
        .with(LimitField::Questions, 2)
        .with(LimitField::Pended, 3);
    let limits = Limits::check(values)?;
    let mut volume = volume_of_two(alloc)?;
    let mut plain = Plain::new(alloc, mode)?;
    let mut filter = Filter::mount(alloc, &mut volume, mode, limits)?;
    let before = run_beside(alloc, &mut filter, &mut volume, &mut plain);
    let (mut next, out) = restarted(alloc, filter, &mut volume)?;
    let said = told(alloc, &out);
    let want = plain.restart();
    let after = run_beside(alloc, &mut next, &mut volume, &mut plain);
    next.abandon();
    let same = said?.as_str() == want?.as_str();
    let restart = if same { None } else { Some(10_000) };
    let first = before?.or(restart).map(|i| (1, i));
    Ok(first.or(after?.map(|i| (2, i))))
}

// The steps of a boot. The last leaves an open that waits and a verdict that is known, where both streams are there.
fn run_beside(
    alloc: Global,
    filter: &mut Filter,
    volume: &mut Volume,
    plain: &mut Plain,
) -> Result<Option<u64>, AllocError>
    requires fits { Fits filter.old volume.old }
{
    let mut x: u64 = plain.boot().wrapping_add(20_261_122);
    for i in 0..10_000u64 {
        x = x
            .wrapping_mul(6_364_136_223_846_793_005)
            .wrapping_add(1_442_695_040_888_963_407);
        let port = if (x >> 12) % 3 == 0 {
            Port::Two
        } else {
            Port::One
        };
        let step = step_of(i, x >> 20, plain);
        let said = said(alloc, happen(alloc, filter, volume, port, step))?;
        let want = plain.take(port, step)?;
        let counts = (filter.question_count(), filter.pended_count());
        if said.as_str() != want.as_str() || counts != plain.counts() {
            return Ok(Some(i));
        }
        if i >= 9_000 && plain.has_both() {
            return Ok(None);
        }
    }
    Ok(None)
}

// In the second boot the first stream is removed while an open waits for it. Each other step is one for a number.
fn step_of(i: u64, x: u64, plain: &Plain) -> Step<'static> {
    if plain.boot() == 2 && i >= 7_000 && plain.waits_for(1) {
        return Step::Remove(1);
    }
    any_step(x, plain.boot(), plain.last())
}

// Opens come most often, replies are to one of the last three questions, now and then by the first boot's id, and versions
// rise now and then.
fn any_step(x: u64, boot: u64, last: u64) -> Step<'static> {
    let stream = (x >> 8) % 3 + 1;
    let small = (x >> 16) % 4;
    let version = (x >> 24) % 3 + 1;
    let seq = last.saturating_sub((x >> 30) % 3).max(1);
    let boot = if (x >> 36) % 8 == 0 { 1 } else { boot };
    match x % 18 {
        0..=4 => Step::Open(stream, small),
        5 => Step::Write(stream, small, b"AB"),
        6 => Step::Cut(stream, small),
        7 => Step::Cleanup(stream),
        8 => Step::Hello(1, version),
        9 => Step::Updated(version),
        10 => Step::Disconnect,
        11 => Step::Timeout(seq),
        12 => Step::Failed(boot, seq),
        13 => Step::Infected(boot, seq, version),
        14 | 15 => Step::Read(boot, seq, small, (x >> 40) as u32 % 3 + 1),
        _ => Step::Clean(boot, seq, version),
    }
}
