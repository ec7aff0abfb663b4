ghost use Rattle.std.specs.Prelude.{◌≤◌};
ghost use Rattle.av_ends.specs.Seats.{IsFloorSeatOf, seen};

use crate::floor::{Floor, FloorSeat};
use crate::ticket::{Receipt, Ticket};
use av_base::{Cause, Generation, OpenId, StreamId, Version};
use av_fakes::{may_refuse, refuse_no_more};
use av_pend::Answer;
use std::alloc::{AllocError, Global};
use std::test::Fail;
use std::thread;
use std::thread::Threads;

fn granted(open_id: u64, least: u64, version: u64) -> Answer {
    Answer::Granted {
        open_id: OpenId::new(open_id),
        least: Version::new(least),
        stream: StreamId::new(1),
        generation: Generation::new(2),
        version: Version::new(version),
    }
}

fn unscanned(open_id: u64) -> Answer {
    Answer::Unscanned {
        open_id: OpenId::new(open_id),
        stream: StreamId::new(1),
        generation: Generation::new(2),
        cause: Cause::TimedOut,
    }
}

fn denied(open_id: u64) -> Answer {
    Answer::Denied {
        open_id: OpenId::new(open_id),
        cause: Cause::Infected,
    }
}

// One thread raises the floor and tells the other, which then loads no less.
fn told<R: Threads + Sync>(
    rt: &R,
    floor: &Floor,
    mut one: FloorSeat,
    mut two: FloorSeat,
    least: Version,
) -> Version
    requires seats { IsFloorSeatOf floor.now one × IsFloorSeatOf floor.now two }
    ensures { least ≤ result }
{
    let (one, before) = thread::join(
        rt,
        move || -> FloorSeat
            requires { IsFloorSeatOf floor.now one }
            ensures { IsFloorSeatOf floor.entry.now result × (least ≤ seen result) }
        {
            floor.raise(&mut one, least);
            one
        },
        move || -> FloorSeat
            requires { IsFloorSeatOf floor.now two }
            ensures { IsFloorSeatOf floor.entry.now result }
        {
            let _ = floor.load(&mut two);
            two
        },
    );
    let mut before = before;
    floor.join(&mut before, one);
    floor.load(&mut before)
}

#[test]
fn a_seat_that_was_told_sees_no_less(rt: HostRuntime) -> Result<(), Fail> {
    let (floor, mut first) = Floor::new(rt.alloc())?;
    assert_eq!(rt; floor.load(&mut first), Version::new(0));
    let second = floor.split(&mut first);
    assert_eq!(rt;
        told(&rt, &floor, first, second, Version::new(7)),
        Version::new(7)
    );
    Ok(())
}

#[test]
fn a_floor_only_rises(rt: HostRuntime) -> Result<(), Fail> {
    let (floor, mut seat) = Floor::new(rt.alloc())?;
    floor.raise(&mut seat, Version::new(3));
    assert_eq!(rt; floor.load(&mut seat), Version::new(3));
    floor.raise(&mut seat, Version::new(2));
    assert_eq!(rt; floor.load(&mut seat), Version::new(3));
    floor.raise(&mut seat, Version::new(u64::MAX));
    assert_eq!(rt; floor.load(&mut seat), Version::new(u64::MAX));
    Ok(())
}

// What two looks at a ticket of open 4 and least 2 give once it is answered, and what its receipt says.
fn looks(
    alloc: Global,
    answer: Answer,
) -> Result<(Option<Answer>, Option<Answer>, Option<Receipt>), AllocError> {
    let (ticket, due) = Ticket::new(alloc, OpenId::new(4), Version::new(2))?;
    let mut note = ticket.note();
    due.show(answer);
    let first = ticket.poll(&mut note).copied();
    let mut other = ticket.note();
    let second = ticket.poll(&mut other).copied();
    ticket.agree(&mut note, other);
    Ok((first, second, ticket.receipt(note).ok()))
}

#[test]
fn an_answer_to_the_open_is_shown_and_stays(rt: HostRuntime) -> Result<(), Fail> {
    for answer in [granted(4, 2, 2), granted(4, 2, 9), unscanned(4), denied(4)] {
        let receipt = Receipt {
            open_id: OpenId::new(4),
            answer,
        };
        let expected = (Some(answer), Some(answer), Some(receipt));
        assert_eq!(rt; looks(rt.alloc(), answer)?, expected);
    }
    Ok(())
}

#[test]
fn what_does_not_fit_the_open_is_never_shown(rt: HostRuntime) -> Result<(), Fail> {
    for answer in [
        granted(5, 2, 2),
        granted(4, 1, 2),
        granted(4, 2, 1),
        unscanned(3),
        denied(5),
    ] {
        assert_eq!(rt; looks(rt.alloc(), answer)?, (None, None, None));
    }
    Ok(())
}

#[test]
fn nothing_is_shown_before_the_answer(rt: HostRuntime) -> Result<(), Fail> {
    let (ticket, due) = Ticket::new(rt.alloc(), OpenId::new(4), Version::new(2))?;
    assert_eq!(rt;
        (ticket.open_id(), ticket.least()),
        (OpenId::new(4), Version::new(2))
    );
    let mut note = ticket.note();
    assert!(rt; ticket.poll(&mut note).is_none());
    assert!(rt; ticket.receipt(note).is_err());
    due.show(denied(4));
    Ok(())
}

#[test]
fn refused_or_not_a_floor_and_a_ticket_are_made(rt: HostRuntime) -> Result<(), Fail> {
    let alloc = rt.alloc();
    may_refuse(alloc);
    let floor = Floor::new(alloc);
    refuse_no_more(alloc);
    let (floor, mut seat) = match floor {
        Ok(made) => made,
        Err(_) => Floor::new(alloc)?,
    };
    may_refuse(alloc);
    let ticket = Ticket::new(alloc, OpenId::new(4), Version::new(2));
    refuse_no_more(alloc);
    let (ticket, due) = match ticket {
        Ok(made) => made,
        Err(_) => Ticket::new(alloc, OpenId::new(4), Version::new(2))?,
    };
    due.show(denied(4));
    let mut note = ticket.note();
    assert_eq!(rt; ticket.poll(&mut note).copied(), Some(denied(4)));
    assert_eq!(rt; floor.load(&mut seat), Version::new(0));
    Ok(())
}
