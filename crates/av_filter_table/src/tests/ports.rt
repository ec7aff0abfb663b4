use super::{
    ask_again_on, ask_on, assert_answers, assert_counts, assert_none_waits, assert_state, end,
    hold_each, mounted, room, take, unscanned, volume_of_one,
};
use crate::{FilterTable, Ports, Question, answering};
use av_base::{
    Cause, Generation, LimitField, LimitValues, Limits, MessageId, Mode, Port, StreamId,
};
use av_context::ContextState;
use av_pend::Answer;
use std::alloc::Global;
use std::process::Abort;
use std::test::Fail;

// Which ports are connected, where questions are asked then, and what is connected with and without each port.
const NONE: Ports = Ports {
    one: false,
    two: false,
};

const ONE: Ports = Ports {
    one: true,
    two: false,
};

const TWO: Ports = Ports {
    one: false,
    two: true,
};

const BOTH: Ports = Ports {
    one: true,
    two: true,
};

const LEAST: [(Ports, Option<Port>); 4] = [
    (NONE, None),
    (ONE, Some(Port::One)),
    (TWO, Some(Port::Two)),
    (BOTH, Some(Port::One)),
];

const CHANGES: [(Ports, Port, Ports, Ports); 8] = [
    (NONE, Port::One, ONE, NONE),
    (NONE, Port::Two, TWO, NONE),
    (ONE, Port::One, ONE, NONE),
    (ONE, Port::Two, BOTH, ONE),
    (TWO, Port::One, BOTH, TWO),
    (TWO, Port::Two, TWO, NONE),
    (BOTH, Port::One, BOTH, TWO),
    (BOTH, Port::Two, BOTH, ONE),
];

fn assert_change(rt: &impl Abort, ports: Ports, port: Port, with: Ports, without: Ports) {
    assert!(rt; ports.with(port) == with);
    assert!(rt; ports.without(port) == without);
    assert!(rt; with.is_open(port));
    assert!(rt; !without.is_open(port));
    assert!(rt; ports.is_open(port) == (ports == with));
    assert!(rt; with.is_open(port.other()) == ports.is_open(port.other()));
}

#[test]
fn each_port_connects_by_itself_and_one_is_the_least(rt: HostRuntime) -> Result<(), Fail> {
    assert!(rt; Ports::none() == NONE);
    for (ports, least) in LEAST {
        assert!(rt; ports.least() == least);
    }
    for (ports, port, with, without) in CHANGES {
        assert_change(&rt, ports, port, with, without);
    }
    Ok(())
}

fn question(seq: u64, port: Port, stream: u64) -> Question {
    Question {
        id: MessageId { boot: 1, seq },
        port,
        stream: StreamId::new(stream),
        generation: Generation::new(1),
    }
}

fn assert_on(rt: &impl Abort, alloc: Global, table: &FilterTable, port: Port, wanted: &[Question]) {
    match table.questions_on(alloc, port) {
        Ok(found) => assert!(rt; found.as_slice() == wanted),
        Err(_) => panic!(rt; "no memory"),
    }
}

// The last question ends, and its stream is Modified.
fn assert_pops_question(rt: &impl Abort, table: &mut FilterTable, wanted: Option<Question>) {
    assert_none_waits(rt, table);
    assert!(rt; table.pop_question(ContextState::Modified) == wanted);
}

#[test]
fn questions_are_told_by_port_and_end_from_the_last_on(rt: HostRuntime) -> Result<(), Fail> {
    let alloc = rt.alloc();
    let mut table = mounted(&rt, alloc, Mode::FailClosed, Limits::greatest());
    assert_on(&rt, alloc, &table, Port::One, &[]);
    ask_on(&rt, &mut table, Port::Two, 9);
    ask_on(&rt, &mut table, Port::One, 8);
    ask_on(&rt, &mut table, Port::Two, 7);
    assert_on(&rt, alloc, &table, Port::One, &[question(2, Port::One, 8)]);
    let of_two = [question(1, Port::Two, 9), question(3, Port::Two, 7)];
    assert_on(&rt, alloc, &table, Port::Two, of_two.as_slice());
    assert_pops_question(&rt, &mut table, Some(question(3, Port::Two, 7)));
    assert_state(&rt, &table, 7, Some(ContextState::Modified));
    assert_on(&rt, alloc, &table, Port::Two, &[question(1, Port::Two, 9)]);
    assert_pops_question(&rt, &mut table, Some(question(2, Port::One, 8)));
    assert_pops_question(&rt, &mut table, Some(question(1, Port::Two, 9)));
    assert_pops_question(&rt, &mut table, None);
    assert_counts(&rt, &table, (0, 0, 3));
    end(&rt, table);
    Ok(())
}

#[test]
fn a_question_is_asked_again_on_the_port_that_is_told(rt: HostRuntime) -> Result<(), Fail> {
    let alloc = rt.alloc();
    let volume = volume_of_one(&rt, alloc);
    let mut answers = room(&rt, alloc);
    let mut table = mounted(&rt, alloc, Mode::FailOpen, Limits::greatest());
    hold_each(&rt, &mut table, &[(1, 8), (2, 0), (1, 0)]);
    let next = ask_again_on(&rt, &mut table, &volume, Port::Two, 1, &mut answers);
    assert_eq!(rt; next, 3);
    assert_answers(&rt, &answers, &[unscanned(1, 1, 1, Cause::Unsettled)]);
    assert_on(&rt, alloc, &table, Port::One, &[question(2, Port::One, 2)]);
    assert_on(&rt, alloc, &table, Port::Two, &[question(3, Port::Two, 1)]);
    assert!(rt; take(&rt, &mut table, 3) == Some((3, 1)));
    answering::abandon(table);
    Ok(())
}

// Asks as many questions as the limits allow.
fn ask_all(rt: &impl Abort, table: &mut FilterTable) -> u64 {
    let most = table.limits().values().questions;
    'questions: for stream in 1..=most {
        assert!(rt; ask_on(rt, table, Port::One, stream) == stream);
    }
    most
}

// Of a table with as many questions as its limits allow, each is asked again: for a moment one more runs.
fn ask_all_again(rt: &impl Abort, alloc: Global, table: &mut FilterTable) {
    let volume = volume_of_one(rt, alloc);
    let mut answers: Vec<Answer> = room(rt, alloc);
    let most = ask_all(rt, table);
    'questions: for seq in 1..=most {
        let next = ask_again_on(rt, table, &volume, Port::Two, seq, &mut answers);
        assert!(rt; most < 2_000 && next == most + seq);
    }
    assert!(rt; table.question_count() as u64 == most);
    assert!(rt; answers.len() == 0);
}

fn assert_asks_all(rt: &impl Abort, alloc: Global, limits: Limits) {
    let mut table = mounted(rt, alloc, Mode::FailClosed, limits);
    ask_all_again(rt, alloc, &mut table);
    answering::abandon(table);
}

#[test]
fn a_full_table_asks_each_question_again(rt: HostRuntime) -> Result<(), Fail> {
    assert_asks_all(&rt, rt.alloc(), Limits::greatest());
    for most in [1, 3] {
        match Limits::check(LimitValues::greatest().with(LimitField::Questions, most)) {
            Ok(limits) => assert_asks_all(&rt, rt.alloc(), limits),
            Err(_) => panic!(rt; "refused"),
        }
    }
    Ok(())
}
