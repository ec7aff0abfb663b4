// Whether runs show by themselves that their grants are true.
ghost use Rattle.std.specs.Prelude.{IfOk};
ghost use Rattle.av_gate.specs.Seats.{IsSeatOf};

use crate::closing::close_all;
use crate::looking::Looking;
use crate::telling::shows_true;
use crate::tests::between::{Desks, Step};
use crate::tests::rows::{APART, Row};
use crate::tests::{abandoned, desk_of, run, volume_of_two};
use av_base::{Limits, Mode, Port, StreamId, Version};
use av_gate::{Gate, Seat};
use av_match::Automaton;
use av_sigset::SignatureSet;
use std::alloc::Global;
use std::process::Abort;
use std::sync::Wait;
use std::test::Fail;
use std::thread::Threads;

// The content ABC, which was there before the gate, is judged and granted, and nothing changes.
const STILL: Row<'static> = Row {
    name: "nothing changes",
    steps: &[
        (Step::Connect(Port::One), "up 1 hello volume 1 version 1\n"),
        (Step::Up(1), "note Welcome\n"),
        (
            Step::Open(b"a"),
            "open 1 pended\ndown 1 scan 1.1 stream 1 generation 2 length 3\n",
        ),
        (Step::Down(1), "up 2 read 1.1 offset 0 count 3\n"),
        (Step::Up(2), "down 2 chunk 1.1 offset 0 bytes 414243\n"),
        (Step::Down(2), ""),
        (Step::Work(Port::One, 1), "up 3 reply 1.1 version 1 clean\n"),
        (
            Step::Up(3),
            "open 1 granted stream 1 generation 2 version 1 least 1\n",
        ),
        (Step::Disconnect(Port::One), ""),
    ],
    filter_steps: 5,
    finished: &[1],
};

// A gate over a volume of which the stream a has the content ABC.
fn gate_over(alloc: Global, mode: Mode) -> Result<(Gate, Seat), Fail>
    ensures { IfOk result (λ r. IsSeatOf r.0 r.1) }
{
    let mut volume = volume_of_two(alloc)?;
    volume.write(StreamId::new(1), 0, b"ABC")?;
    match Gate::new(alloc, volume, mode, Limits::greatest()) {
        Ok(made) => Ok(made),
        Err(_) => Err(Fail::new("no gate")),
    }
}

// Runs a row on a gate and a desk that has the pattern XX as version 1: whether it shows its grants true by this set.
fn shown<R: Wait + Abort + Threads + Sync>(
    rt: &R,
    alloc: Global,
    mode: Mode,
    row: &Row<'_>,
    set: &SignatureSet,
) -> Result<bool, Fail> {
    let automaton = Automaton::build(alloc, set)?;
    let desk = desk_of(alloc, Port::One, b"XX")?;
    let (gate, seat) = gate_over(alloc, mode)?;
    let desks = Desks {
        one: &desk,
        two: None,
    };
    match run(rt, alloc, &gate, desks, seat, row) {
        Ok((seats, receipts)) => match close_all(gate, seats, receipts, desk, None) {
            Ok(closed) => {
                let looking = Looking {
                    rt,
                    alloc,
                    threads: 2,
                };
                Ok(shows_true(&looking, &closed.gate, &closed.desk, None, set, &automaton)?)
            }
            Err(kept) => Err(abandoned(kept)),
        },
        Err(why) => {
            gate.abandon();
            Err(why)
        }
    }
}

#[test]
fn a_run_shows_its_grants_true_where_nothing_changed_and_the_set_is_its_own(
    rt: HostRuntime,
) -> Result<(), Fail> {
    let alloc = rt.alloc();
    let rows: [(Mode, &Row<'_>, u64, &[u8], bool); 5] = [
        (Mode::FailClosed, &STILL, 1, b"XX", true),
        (Mode::FailOpen, &STILL, 1, b"XX", false),
        (Mode::FailClosed, &STILL, 2, b"XX", false),
        (Mode::FailClosed, &STILL, 1, b"XY", false),
        (Mode::FailClosed, &APART, 1, b"XX", false),
    ];
    for (mode, row, version, pattern, holds) in rows {
        let set = SignatureSet::from_patterns(alloc, Version::new(version), &[pattern])?;
        let shows = shown(&rt, alloc, mode, row, &set)?;
        assert!(&rt; shows == holds, "{}, version {version}, {mode:?}", row.name);
    }
    Ok(())
}
