use crate::client::{Kind, Left};
use crate::line::Standing;
use crate::places::{Arrived, Nth};
use crate::turns::{Admitted, Late, Next, Parsed, Thing, Turns, Why};
use std::alloc::{AllocError, Global};
use std::test::Fail;

// Each call by itself, of client 1: what it answers is tested, and its clauses are not used here.
fn let_in(turns: &mut Turns, client: u64, kind: Kind, now: u64) -> Result<Admitted, AllocError> {
    turns.accepted(client, kind, now)
}

fn told(turns: &mut Turns) -> Result<(), AllocError> {
    turns.told_readable(1)
}

fn next(turns: &mut Turns) -> Next {
    turns.next()
}

fn came(turns: &mut Turns, count: u64, now: u64) -> Result<(), AllocError> {
    let room = turns.room(1);
    turns.read(1, count.min(room), false, now)
}

fn parsed(turns: &mut Turns, thing: Thing, now: u64) -> Option<Parsed> {
    turns.parsed(1, thing, now).ok()
}

fn over(turns: &mut Turns, left: Left, now: u64) -> Result<(), AllocError> {
    turns.turn_over(1, left, now)
}

fn given(turns: &mut Turns) -> Option<Standing> {
    turns.next_in_line().ok().flatten()
}

fn asked(turns: &mut Turns, seq: u64, first: u64) -> Result<(), AllocError> {
    turns.asked(seq, first, 10)
}

fn answered(turns: &mut Turns, now: u64) -> Result<(), AllocError> {
    turns.answered(1, 29, now)
}

fn written(turns: &mut Turns, now: u64) -> Result<(), AllocError> {
    turns.written(1, 29, now)
}

fn late(turns: &mut Turns, now: u64) -> Late {
    turns.late(now)
}

fn timer(turns: &Turns) -> Option<u64> {
    turns.timer()
}

fn room(turns: &Turns) -> u64 {
    turns.room(1)
}

fn arrived(turns: &mut Turns, place: Nth) -> Option<Arrived> {
    let guest = turns.service_came(0)?;
    Some(turns.service_greeted(guest, place))
}

// Two clients may be there, and each has a second. Client 1 is.
fn with_client(alloc: Global) -> Result<Turns, AllocError> {
    let mut turns = Turns::new(alloc, 2, 1_000);
    let _ = let_in(&mut turns, 1, Kind::Opens, 5)?;
    Ok(turns)
}

fn new_ask(alloc: Global, tag: u64) -> Result<Thing, AllocError> {
    let mut content = Vec::new(alloc);
    content.push(7)?;
    Ok(Thing::New { tag, content })
}

// A turn of client 1 in which an ask came.
fn asks(alloc: Global, turns: &mut Turns, tag: u64, now: u64) -> Result<bool, AllocError> {
    let turn = next(turns);
    came(turns, 20, now)?;
    let ends = parsed(turns, new_ask(alloc, tag)?, now) == Some(Parsed::TurnEnds);
    over(turns, Left::Nothing, now)?;
    Ok(
        ends && matches!(
            turn,
            Next::Turn {
                client: 1,
                bytes: 8_192,
                asks: 16
            }
        ),
    )
}

// The same of a client that may be read, whatever else it has in line.
fn asks_of(alloc: Global, turns: &mut Turns, client: u64, tag: u64) -> Result<bool, AllocError> {
    turns.told_readable(client)?;
    'looks: for _ in 0..4 {
        if let Next::Turn { client: who, .. } = turns.next() {
            if who == client {
                break;
            }
        }
    }
    let room = turns.room(client);
    turns.read(client, 20u64.min(room), false, 10)?;
    let ends = turns.parsed(client, new_ask(alloc, tag)?, 10).ok();
    turns.turn_over(client, Left::Nothing, 10)?;
    Ok(ends == Some(Parsed::TurnEnds))
}

#[test]
fn an_unknown_ask_stands_until_it_is_given(rt: HostRuntime) -> Result<(), Fail> {
    let mut turns = with_client(rt.alloc())?;
    assert!(rt; asks(rt.alloc(), &mut turns, 3, 10)?);
    let standing = given(&mut turns).ok_or("an ask")?;
    assert!(rt; standing.client == 1 && standing.tag == 3 && standing.first == 10);
    assert!(rt; given(&mut turns).is_none());
    Ok(())
}

// So that a small ask never waits for a large one.
#[test]
fn small_questions_have_a_window_of_their_own(rt: HostRuntime) -> Result<(), Fail> {
    let mut turns = with_client(rt.alloc())?;
    turns.asked(1, 0, 1_048_576)?;
    for seq in 2..9 {
        asked(&mut turns, seq, 0)?;
    }
    assert!(rt; asks(rt.alloc(), &mut turns, 3, 10)?);
    assert!(rt; given(&mut turns).is_some());
    asked(&mut turns, 9, 0)?;
    told(&mut turns)?;
    assert!(rt; asks(rt.alloc(), &mut turns, 4, 10)?);
    assert!(rt; given(&mut turns).is_none());
    turns.replied(Nth::First, 2);
    assert!(rt; given(&mut turns).is_some());
    Ok(())
}

// A client that asks one thing after the other goes ahead of one with many asks, every second time.
#[test]
fn who_asks_seldom_goes_ahead(rt: HostRuntime) -> Result<(), Fail> {
    let mut turns = with_client(rt.alloc())?;
    for tag in 1..5 {
        assert!(rt; asks_of(rt.alloc(), &mut turns, 1, tag)?);
    }
    assert!(rt; given(&mut turns).ok_or("an ask")?.tag == 1);
    assert!(rt; let_in(&mut turns, 2, Kind::Opens, 5)? == Admitted::Admit);
    assert!(rt; asks_of(rt.alloc(), &mut turns, 2, 9)?);
    assert!(rt; given(&mut turns).ok_or("an ask")?.tag == 2);
    assert!(rt; given(&mut turns).ok_or("an ask")?.tag == 9);
    assert!(rt; given(&mut turns).ok_or("an ask")?.tag == 3);
    assert!(rt; given(&mut turns).ok_or("an ask")?.tag == 4);
    assert!(rt; given(&mut turns).is_none());
    Ok(())
}

#[test]
fn the_timer_is_that_of_the_question_and_then_of_the_output(rt: HostRuntime) -> Result<(), Fail> {
    let mut turns = with_client(rt.alloc())?;
    assert!(rt; asks(rt.alloc(), &mut turns, 3, 10)?);
    let _ = given(&mut turns);
    asked(&mut turns, 1, 10)?;
    assert!(rt; timer(&turns) == Some(1_010));
    turns.replied(Nth::First, 1);
    answered(&mut turns, 20)?;
    assert!(rt; timer(&turns) == Some(1_020));
    written(&mut turns, 30)?;
    assert!(rt; timer(&turns).is_none());
    Ok(())
}

#[test]
fn an_ask_in_line_is_denied_when_its_time_is_up(rt: HostRuntime) -> Result<(), Fail> {
    let mut turns = with_client(rt.alloc())?;
    assert!(rt; asks(rt.alloc(), &mut turns, 3, 10)?);
    assert!(rt; late(&mut turns, 1_009) == Late::Nothing);
    assert!(rt; late(&mut turns, 1_010) == Late::Deny { client: 1, tag: 3 });
    assert!(rt; late(&mut turns, 1_010) == Late::Nothing);
    Ok(())
}

#[test]
fn a_client_that_does_not_end_what_it_began_is_closed(rt: HostRuntime) -> Result<(), Fail> {
    let mut turns = with_client(rt.alloc())?;
    came(&mut turns, 3, 10)?;
    over(&mut turns, Left::Part { held: 3, total: 0 }, 10)?;
    told(&mut turns)?;
    came(&mut turns, 1, 900)?;
    over(&mut turns, Left::Part { held: 4, total: 0 }, 900)?;
    let close = Late::Close {
        client: 1,
        why: Why::SaidNothing,
    };
    assert!(rt; late(&mut turns, 1_010) == close);
    assert!(rt; late(&mut turns, 1_010) == Late::Nothing);
    Ok(())
}

#[test]
fn a_large_ask_has_its_share(rt: HostRuntime) -> Result<(), Fail> {
    let mut turns = with_client(rt.alloc())?;
    came(&mut turns, 5_000, 10)?;
    let begun = Left::Part {
        held: 5_000,
        total: 100_000,
    };
    over(&mut turns, begun, 10)?;
    assert_eq!(rt; room(&turns), 103_192);
    Ok(())
}

#[test]
fn the_client_that_is_idle_longest_goes(rt: HostRuntime) -> Result<(), Fail> {
    let mut turns = with_client(rt.alloc())?;
    assert!(rt; let_in(&mut turns, 2, Kind::Clamd, 6)? == Admitted::Admit);
    assert!(rt; let_in(&mut turns, 3, Kind::Opens, 7)? == Admitted::Instead(1));
    let close = Late::Close {
        client: 2,
        why: Why::Idle,
    };
    assert!(rt; late(&mut turns, 1_006) == close);
    Ok(())
}

#[test]
fn a_known_ask_goes_on_and_much_output_ends_the_turn(rt: HostRuntime) -> Result<(), Fail> {
    let mut turns = with_client(rt.alloc())?;
    let _ = next(&mut turns);
    came(&mut turns, 40, 10)?;
    assert!(rt; parsed(&mut turns, Thing::Known, 10) == Some(Parsed::GoesOn));
    assert!(rt; parsed(&mut turns, Thing::Said(4_096), 10) == Some(Parsed::TurnEnds));
    Ok(())
}

#[test]
fn a_service_that_never_replies_is_lost(rt: HostRuntime) -> Result<(), Fail> {
    let mut turns = with_client(rt.alloc())?;
    assert!(rt; arrived(&mut turns, Nth::Second) == Some(Arrived::Place));
    for seq in 0..8 {
        asked(&mut turns, seq, 0)?;
    }
    for seq in 0..8 {
        assert!(rt; late(&mut turns, 1_000) == Late::Question(seq));
        turns.missed(Nth::Second);
    }
    assert!(rt; late(&mut turns, 1_000) == Late::Service(Nth::Second));
    Ok(())
}

#[test]
fn a_reply_ends_the_misses_of_its_place_alone(rt: HostRuntime) -> Result<(), Fail> {
    let mut turns = with_client(rt.alloc())?;
    let _ = arrived(&mut turns, Nth::First);
    let _ = arrived(&mut turns, Nth::Second);
    for _ in 0..8 {
        turns.missed(Nth::First);
        turns.missed(Nth::Second);
    }
    turns.replied(Nth::First, 1);
    assert!(rt; late(&mut turns, 0) == Late::Service(Nth::Second));
    assert!(rt; turns.service_lost(Nth::Second) == None);
    assert!(rt; late(&mut turns, 0) == Late::Nothing);
    Ok(())
}

#[test]
fn a_successor_has_the_place_of_its_service_at_once(rt: HostRuntime) -> Result<(), Fail> {
    let mut turns = with_client(rt.alloc())?;
    let _ = arrived(&mut turns, Nth::First);
    assert!(rt; arrived(&mut turns, Nth::First) == Some(Arrived::Successor));
    assert!(rt; arrived(&mut turns, Nth::First) == Some(Arrived::Away));
    assert!(rt; arrived(&mut turns, Nth::Second) == Some(Arrived::Place));
    assert!(rt; turns.service_lost(Nth::Second) == None);
    assert!(rt; turns.service_lost(Nth::First) == Some(Nth::First));
    assert!(rt; turns.service_lost(Nth::First) == None);
    assert!(rt; arrived(&mut turns, Nth::First) == Some(Arrived::Place));
    Ok(())
}

#[test]
fn two_guests_wait_and_each_has_its_time_to_greet(rt: HostRuntime) -> Result<(), Fail> {
    let mut turns = with_client(rt.alloc())?;
    assert!(rt; turns.service_came(5) == Some(Nth::First));
    assert!(rt; turns.service_came(3) == Some(Nth::Second));
    assert!(rt; turns.service_came(9) == None);
    assert!(rt; timer(&turns) == Some(1_003));
    assert!(rt; late(&mut turns, 1_002) == Late::Nothing);
    assert!(rt; late(&mut turns, 1_003) == Late::Guest(Nth::Second));
    turns.guest_lost(Nth::Second);
    assert!(rt; turns.service_greeted(Nth::First, Nth::First) == Arrived::Place);
    assert!(rt; late(&mut turns, 9_000) == Late::Nothing);
    Ok(())
}
