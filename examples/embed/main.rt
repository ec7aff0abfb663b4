//! Opens two files through a filter and its scanning service, in one process, and prints what each open was told.
#![tactic(auto)]

use av_shared::{
    Answer, Catalogue, Desk, Gate, Giver, Limits, Mode, NotClosed, Pool, Port, Receipt, Seat,
    SignatureSet, Taken, Taker, Ticket, Unclosed, Version, Volume, close_all,
};
use std::alloc::Global;
use std::io::Write;
use std::process::ExitCode;
use std::sync::Wait;
use std::thread::Threads;

const FILES: [(&str, &[u8]); 2] = [("letter", b"dear reader"), ("other", b"..XX..")];

// Why the program gives up: memory, or a value that is refused.
struct GivenUp;

fn main(rt: HostRuntime) -> ExitCode {
    match opened(&rt, rt.alloc(), &mut rt.stdout()) {
        Ok(()) => ExitCode::SUCCESS,
        Err(GivenUp) => ExitCode::FAILURE,
    }
}

fn opened<R: Threads + Wait + Copy + Send + 'static, W: Write>(
    rt: &R,
    alloc: Global,
    out: &mut W,
) -> Result<(), GivenUp> {
    let volume = volume_of_files(alloc)?;
    let catalogue = catalogue_of_one(alloc)?;
    let Ok(desk) = Desk::new(alloc, 1, Port::One, catalogue, Limits::greatest()) else {
        return Err(GivenUp);
    };
    let Ok((gate, mut seat)) = Gate::new(alloc, volume, Mode::FailClosed, Limits::greatest()) else {
        return Err(GivenUp);
    };
    let Ok((pool, mut giver, mut taker)) = Pool::start(*rt, alloc, 2, ()) else {
        gate.abandon();
        return Err(GivenUp);
    };
    let receipts = judged(rt, alloc, &gate, &mut seat, &desk, &mut giver, &mut taker);
    pool.stop(rt, giver, taker).discard();
    match receipts {
        Ok(receipts) => told(alloc, gate, seat, receipts, desk, out),
        Err(given_up) => {
            gate.abandon();
            Err(given_up)
        }
    }
}

// Each file is a stream of the volume, created once and written once.
fn volume_of_files(alloc: Global) -> Result<Volume, GivenUp> {
    let mut volume = Volume::new(alloc, 1, Limits::greatest());
    for (name, content) in FILES {
        let Ok(stream) = volume.create(alloc, name.as_bytes()) else {
            return Err(GivenUp);
        };
        if volume.write(stream, 0, content).is_err() {
            return Err(GivenUp);
        }
    }
    Ok(volume)
}

// One set, version 1, of one signature.
fn catalogue_of_one(alloc: Global) -> Result<Catalogue, GivenUp> {
    let patterns: [&[u8]; 1] = [b"XX"];
    let Ok(set) = SignatureSet::from_patterns(alloc, Version::new(1), &patterns) else {
        return Err(GivenUp);
    };
    let mut catalogue = Catalogue::new(alloc);
    match catalogue.publish(set) {
        Ok(()) => Ok(catalogue),
        Err(_) => Err(GivenUp),
    }
}

// Opens each file, and carries messages between gate and desk until all opens are answered.
fn judged<R: Wait>(
    rt: &R,
    alloc: Global,
    gate: &Gate,
    seat: &mut Seat,
    desk: &Desk,
    giver: &mut Giver,
    taker: &mut Taker,
) -> Result<Vec<Receipt>, GivenUp> {
    if desk.connect(rt, alloc).is_err() {
        return Err(GivenUp);
    }
    carry_up(rt, alloc, gate, seat, desk)?;
    let mut tickets = Vec::new(alloc);
    for (name, _) in FILES {
        let Ok(ticket) = gate.open(rt, alloc, seat, name.as_bytes()) else {
            return Err(GivenUp);
        };
        if tickets.push(ticket).is_err() {
            return Err(GivenUp);
        }
    }
    for _ in 0..64 {
        carry_down(rt, alloc, gate, desk, giver, taker)?;
        carry_up(rt, alloc, gate, seat, desk)?;
    }
    receipts_of(alloc, tickets)
}

// What the gate sends comes to the desk; each work that it lends is run by the pool and comes back.
fn carry_down<R: Wait>(
    rt: &R,
    alloc: Global,
    gate: &Gate,
    desk: &Desk,
    giver: &mut Giver,
    taker: &mut Taker,
) -> Result<(), GivenUp> {
    let Ok(messages) = gate.take_outgoing(rt, alloc, Port::One) else {
        return Err(GivenUp);
    };
    for message in messages {
        let Ok(Taken { lent, note: _ }) = desk.message(rt, alloc, message) else {
            return Err(GivenUp);
        };
        if let Some(lent) = lent {
            giver.give(rt, lent);
            let Some(done) = taker.take(rt) else {
                return Err(GivenUp);
            };
            if let Err(refused) = desk.finish(rt, alloc, done) {
                refused.value.discard();
                return Err(GivenUp);
            }
        }
    }
    Ok(())
}

// What the desk sends comes to the gate.
fn carry_up<R: Wait>(
    rt: &R,
    alloc: Global,
    gate: &Gate,
    seat: &mut Seat,
    desk: &Desk,
) -> Result<(), GivenUp> {
    let Ok(messages) = desk.take_outgoing(rt, alloc) else {
        return Err(GivenUp);
    };
    for message in messages {
        if gate.message(rt, alloc, seat, &message).is_err() {
            return Err(GivenUp);
        }
    }
    Ok(())
}

fn receipts_of(alloc: Global, tickets: Vec<Ticket>) -> Result<Vec<Receipt>, GivenUp> {
    let mut receipts = Vec::new(alloc);
    for ticket in tickets {
        let mut note = ticket.note();
        let _ = ticket.poll(&mut note);
        let Ok(receipt) = ticket.receipt(note) else {
            return Err(GivenUp);
        };
        if receipts.push(receipt).is_err() {
            return Err(GivenUp);
        }
    }
    Ok(receipts)
}

// Closes gate and desk, which shows that the receipts stand in their audits, and prints what each open was told.
fn told<W: Write>(
    alloc: Global,
    gate: Gate,
    seat: Seat,
    receipts: Vec<Receipt>,
    desk: Desk,
    out: &mut W,
) -> Result<(), GivenUp> {
    let mut answers = Vec::new(alloc);
    if answers.extend_from_slice(receipts.as_slice()).is_err() {
        gate.abandon();
        return Err(GivenUp);
    }
    let mut seats = Vec::new(alloc);
    if seats.push(seat).is_err() {
        gate.abandon();
        return Err(GivenUp);
    }
    match close_all(gate, seats, receipts, desk, None) {
        Ok(_) => {}
        Err(
            NotClosed {
                unclosed,
                desk: _,
                spare: _,
            },
        ) => {
            let Unclosed {
                why: _,
                gate,
                seats: _,
                receipts: _,
            } = unclosed;
            gate.abandon();
            return Err(GivenUp);
        }
    }
    for ((name, _), receipt) in FILES.iter().zip(answers.as_slice()) {
        if print_answer(name, receipt.answer, out).is_err() {
            return Err(GivenUp);
        }
    }
    Ok(())
}

fn print_answer<W: Write>(name: &str, answer: Answer, out: &mut W) -> std::io::Result<()> {
    match answer {
        Answer::Granted { version, .. } => {
            writeln!(out, "{name} granted version {}", version.get())
        }
        Answer::Denied { cause, .. } => writeln!(out, "{name} denied cause {}", cause.number()),
        Answer::Unscanned { .. } => writeln!(out, "{name} unscanned"),
    }
}
