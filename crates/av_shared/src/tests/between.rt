// What lies between a gate and its desks: each message goes over as a frame, when a step says so, and each work is run then.
ghost use Rattle.av_gate.specs.Seats.{IsSeatOf};

use crate::tests::frames::over_a_frame;
use av_base::{Port, Version};
use av_desk::{Desk, Lent, Taken};
use av_ends::Ticket;
use av_filter::Note as FilterNote;
use av_frame::{Feed, Message};
use av_gate::{Gate, Patch, Seat};
use av_history::{EventNote, Given, Line, Places, Report};
use av_output::Lists;
use av_output::report::print_report;
use av_service::Done;
use av_sigset::SignatureSet;
use std::alloc::Global;
use std::mem;
use std::sync::Wait;
use std::test::Fail;

// An event of either side. Messages are counted from 1, each way.
#[derive(Clone, Copy)]
pub enum Step<'a> {
    // name, offset, bytes
    Write(&'a [u8], u64, &'a [u8]),
    Open(&'a [u8]),
    Connect(Port),
    Up(usize),
    Down(usize),
    // The work that is out is of this lease, and comes back to the desk of this port.
    Work(Port, u64),
    // version, pattern
    Publish(Port, u64, &'a [u8]),
    Disconnect(Port),
}

// The desks of a gate, that of port One and a spare, if there is one.
#[derive(Clone, Copy)]
pub struct Desks<'a> {
    pub one: &'a Desk,
    pub two: Option<&'a Desk>,
}

impl<'a> Desks<'a> {
    fn at(self, port: Port) -> Result<&'a Desk, Fail> {
        match port {
            Port::One => Ok(self.one),
            Port::Two => match self.two {
                Some(desk) => Ok(desk),
                None => Err(Fail::new("there is no spare")),
            },
        }
    }
}

// The desks, all that was sent and answered, and the work that is out.
pub struct Between<'a> {
    alloc: Global,
    desks: Desks<'a>,
    pub tickets: Vec<Ticket>,
    answers: Vec<Given>,
    down: Vec<Message>,
    up: Vec<Message>,
    to_desk: Feed,
    to_gate: Feed,
    lent: Option<Lent>,
}

impl<'a> Between<'a> {
    pub fn new(alloc: Global, desks: Desks<'a>) -> Between<'a> {
        Between {
            alloc,
            desks,
            tickets: Vec::new(alloc),
            answers: Vec::new(alloc),
            down: Vec::new(alloc),
            up: Vec::new(alloc),
            to_desk: Feed::new(alloc),
            to_gate: Feed::new(alloc),
            lent: None,
        }
    }

    // Ends it, and gives the tickets.
    pub fn end(self) -> Vec<Ticket> {
        let Between {
            alloc: _,
            desks: _,
            tickets,
            answers: _,
            down: _,
            up: _,
            to_desk: _,
            to_gate: _,
            lent,
        } = self;
        discard(lent);
        tickets
    }

    // Takes a step, and gives the lines that a script prints for it, without those of volume, catalogue and works.
    pub fn step<R: Wait>(
        &mut self,
        rt: &R,
        gate: &Gate,
        seat: &mut Seat,
        step: Step<'_>,
    ) -> Result<Vec<u8>, Fail>
        requires { IsSeatOf gate.now seat.old }
        ensures { IsSeatOf gate.now seat.new }
    {
        let (alloc, desks) = (self.alloc, self.desks);
        let before = self.places();
        let note = self.happen(rt, gate, seat, step)?;
        for port in [Port::One, Port::Two] {
            add_all(&mut self.down, gate.take_outgoing(rt, alloc, port)?)?;
        }
        add_all(&mut self.up, desks.one.take_outgoing(rt, alloc)?)?;
        if let Some(desk) = desks.two {
            add_all(&mut self.up, desk.take_outgoing(rt, alloc)?)?;
        }
        self.look_at_tickets()?;
        let report = Report {
            line: Line::Silent,
            before,
            after: self.places(),
            note,
        };
        self.printed(&report)
    }

    fn happen<R: Wait>(
        &mut self,
        rt: &R,
        gate: &Gate,
        seat: &mut Seat,
        step: Step<'_>,
    ) -> Result<EventNote, Fail>
        requires { IsSeatOf gate.now seat.old }
        ensures { IsSeatOf gate.now seat.new }
    {
        let (alloc, desks) = (self.alloc, self.desks);
        let note = match step {
            Step::Write(name, offset, bytes) => {
                let patch = Patch { offset, bytes };
                EventNote::Filter(gate.write(rt, alloc, seat, name, patch)?)
            }
            Step::Open(name) => {
                let ticket = gate.open(rt, alloc, seat, name)?;
                let open_id = ticket.open_id();
                self.tickets.push(ticket)?;
                EventNote::Filter(FilterNote::Submitted { open_id })
            }
            Step::Up(number) => {
                let message = carried(alloc, &mut self.to_gate, self.up.as_slice(), number)?;
                EventNote::Filter(gate.message(rt, alloc, seat, &message)?)
            }
            Step::Disconnect(port) => EventNote::Filter(gate.disconnect(rt, alloc, seat, port)?),
            Step::Connect(port) => EventNote::Service(desks.at(port)?.connect(rt, alloc)?),
            Step::Down(number) => {
                let message = carried(alloc, &mut self.to_desk, self.down.as_slice(), number)?;
                let desk = desks.at(message.port())?;
                self.receive(rt, desk, message)?
            }
            Step::Work(port, lease) => {
                let desk = desks.at(port)?;
                finish(rt, alloc, desk, self.done(lease)?)?
            }
            Step::Publish(port, version, pattern) => {
                publish(rt, alloc, desks.at(port)?, version, pattern)?
            }
        };
        Ok(note)
    }

    fn receive<R: Wait>(
        &mut self,
        rt: &R,
        desk: &Desk,
        message: Message,
    ) -> Result<EventNote, Fail> {
        let Ok(taken) = desk.message(rt, self.alloc, message) else {
            return Err(Fail::new("a message was refused"));
        };
        let Taken { lent, note } = taken;
        if let Some(lent) = lent {
            discard(mem::replace(&mut self.lent, Some(lent)));
        }
        Ok(EventNote::Service(note))
    }

    // The work that is out, once it was run. It is of this lease.
    fn done(&mut self, lease: u64) -> Result<Done, Fail> {
        let Some(lent) = mem::replace(&mut self.lent, None) else {
            return Err(Fail::new("no work is out"));
        };
        if lent.work().lease().get() != lease {
            lent.discard();
            return Err(Fail::new("a work of another lease is out"));
        }
        Ok(lent.run())
    }

    // Keeps the answers that tickets show and did not show before.
    fn look_at_tickets(&mut self) -> Result<(), Fail> {
        for ticket in &self.tickets {
            let mut note = ticket.note();
            let Some(answer) = ticket.poll(&mut note).copied() else {
                continue;
            };
            let given = Given { event: 0, answer };
            if !self.answers.contains(&given) {
                self.answers.push(given)?;
            }
        }
        Ok(())
    }

    fn places(&self) -> Places {
        Places {
            answers: self.answers.len() as u64,
            down: self.down.len() as u64,
            up: self.up.len() as u64,
            works: 0,
        }
    }

    fn printed(&self, report: &Report) -> Result<Vec<u8>, Fail> {
        let mut text = Vec::new(self.alloc);
        let works = Vec::new(self.alloc);
        let lists = Lists {
            answers: self.answers.as_slice(),
            down: self.down.as_slice(),
            up: self.up.as_slice(),
            works: works.as_slice(),
        };
        let printed = print_report(report, lists, &mut text);
        works.destroy_empty();
        printed?;
        Ok(text)
    }
}

fn discard(lent: Option<Lent>) {
    match lent {
        None => {}
        Some(lent) => lent.discard(),
    }
}

fn add_all(all: &mut Vec<Message>, messages: Vec<Message>) -> Result<(), Fail> {
    for message in messages {
        all.push(message)?;
    }
    Ok(())
}

// The message of that number as the other side reads it.
fn carried(
    alloc: Global,
    feed: &mut Feed,
    sent: &[Message],
    number: usize,
) -> Result<Message, Fail> {
    let Some(message) = sent.get(number.wrapping_sub(1)) else {
        return Err(Fail::new("no such message was sent"));
    };
    match over_a_frame(alloc, feed, message) {
        Some(message) => Ok(message),
        None => Err(Fail::new("not carried")),
    }
}

fn finish<R: Wait>(rt: &R, alloc: Global, desk: &Desk, done: Done) -> Result<EventNote, Fail> {
    match desk.finish(rt, alloc, done) {
        Ok(note) => Ok(EventNote::Service(note)),
        Err(refused) => {
            refused.value.discard();
            Err(Fail::new("a work was not taken back"))
        }
    }
}

fn publish<R: Wait>(
    rt: &R,
    alloc: Global,
    desk: &Desk,
    version: u64,
    pattern: &[u8],
) -> Result<EventNote, Fail> {
    let set = SignatureSet::from_patterns(alloc, Version::new(version), &[pattern])?;
    match desk.publish(rt, alloc, set) {
        Ok(note) => Ok(EventNote::Service(note)),
        Err(_) => Err(Fail::new("a set was refused")),
    }
}
