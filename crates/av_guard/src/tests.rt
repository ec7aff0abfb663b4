mod say;

use self::say::{given_is, hello, reply};
use crate::{AskFault, Class, Guard, Settings, SettingsFault};
use av_base::{Mode, Port, Refusal, Refused};
use av_fakes::{may_refuse, refuse_no_more};
use std::alloc::Global;
use std::hash::RandomState;
use std::io;
use std::random::RandomSource;
use std::test::Fail;

// In place of the system's random bytes: those that are there.
struct NoRandom;

impl RandomSource for NoRandom {
    fn fill_bytes(&self, _buf: &mut [u8]) -> io::Result<()> {
        Ok(())
    }
}

// A guard in boot 7, with clients 1 and 2.
fn guard_of(alloc: Global, mode: Mode, keep: u64, questions: u64) -> Result<Guard, Fail> {
    let key = RandomState::new(&NoRandom)?;
    let settings = Settings {
        mode,
        keep,
        questions,
        boot: 7,
        key,
    };
    match Guard::new(alloc, settings) {
        Ok(mut guard) => {
            let _ = guard.client();
            let _ = guard.client();
            Ok(guard)
        }
        Err(_) => Err(Fail::new("no guard")),
    }
}

// A step of a case.
enum Step<'a> {
    Hello(u64),
    // A greeting at the second port.
    Other(u64),
    Updated(u64),
    // The clean reply to the question of this number, under this version, and one with the signature 0 that ends at 2.
    Clean(u64, u64),
    Infected(u64, u64),
    // The clean reply at the second port.
    OtherClean(u64, u64),
    Ask(u64, u64, &'a [u8]),
    Class(&'a [u8]),
    Lost,
    OtherLost,
    TimeUp(u64),
    Leaves(u64),
}

// What is given out after it, with what makes room.
fn run(alloc: Global, guard: &mut Guard, step: &Step<'_>, said: &mut String) -> Result<(), Fail> {
    let first = match step {
        Step::Hello(version) => guard.message(alloc, &hello(*version))?,
        Step::Other(version) => guard.message(alloc, &say::other(*version))?,
        Step::Updated(version) => guard.message(alloc, &say::updated(*version))?,
        Step::Clean(seq, version) => guard.message(alloc, &reply(*seq, *version, false))?,
        Step::Infected(seq, version) => guard.message(alloc, &reply(*seq, *version, true))?,
        Step::OtherClean(seq, version) => guard.message(alloc, &say::other_reply(*seq, *version))?,
        Step::Ask(client, tag, content) => {
            match guard.ask(alloc, *client, *tag, content.to_vec(alloc)?) {
                Ok(given) => given,
                Err(refused) => return Ok(write!(said, "{:?};", refused.why)?),
            }
        }
        Step::Class(content) => return Ok(write!(said, "{:?};", guard.class(content))?),
        Step::Lost => guard.service_lost(alloc, Port::One)?,
        Step::OtherLost => guard.service_lost(alloc, Port::Two)?,
        Step::TimeUp(seq) => guard.time_up(alloc, *seq)?,
        Step::Leaves(client) => {
            guard.client_lost(*client);
            return Ok(());
        }
    };
    given_is(said, &first)?;
    for _ in 0..1_000 {
        match guard.make_room(alloc) {
            Ok(Some(given)) => given_is(said, &given)?,
            Ok(None) => return Ok(()),
            Err(_) => return Err(Fail::new("room")),
        }
    }
    Err(Fail::new("no end"))
}

struct Case<'a> {
    name: &'a str,
    mode: Mode,
    keep: u64,
    questions: u64,
    steps: &'a [Step<'a>],
    // Answers as client.tag=.., scans as scan question stream generation length, classes and refusals, each followed by a
    // semicolon. What is for the second port has "second" in front.
    said: &'a str,
}

const MANY: u64 = 67_108_864;

const CASES: [Case<'_>; 23] = [
    Case {
        name: "a client that left is told nothing",
        mode: Mode::FailClosed,
        keep: MANY,
        questions: 1_024,
        steps: &[
            Step::Hello(1),
            Step::Ask(1, 1, b"ABC"),
            Step::Leaves(1),
            Step::Clean(1, 1),
            Step::Ask(2, 2, b"ABC"),
        ],
        said: "scan 1 1 2 3;2.2=granted 2 1;",
    },
    Case {
        name: "a content is scanned once",
        mode: Mode::FailClosed,
        keep: MANY,
        questions: 1_024,
        steps: &[
            Step::Hello(1),
            Step::Ask(1, 1, b"ABC"),
            Step::Clean(1, 1),
            Step::Ask(2, 7, b"ABC"),
        ],
        said: "scan 1 1 2 3;1.1=granted 2 1;2.7=granted 2 1;",
    },
    Case {
        name: "a lost service denies what waits",
        mode: Mode::FailClosed,
        keep: MANY,
        questions: 1_024,
        steps: &[Step::Hello(1), Step::Ask(1, 1, b"ABC"), Step::Lost],
        said: "scan 1 1 2 3;1.1=denied 6;",
    },
    Case {
        name: "a service at the second port is asked where it is alone",
        mode: Mode::FailClosed,
        keep: MANY,
        questions: 1_024,
        steps: &[
            Step::Other(1),
            Step::Ask(1, 1, b"ABC"),
            Step::OtherClean(1, 1),
        ],
        said: "second scan 1 1 2 3;1.1=granted 2 1;",
    },
    Case {
        name: "the second service takes over what the first one leaves",
        mode: Mode::FailClosed,
        keep: MANY,
        questions: 1_024,
        steps: &[
            Step::Hello(1),
            Step::Other(1),
            Step::Ask(1, 1, b"ABC"),
            Step::Lost,
            Step::OtherClean(2, 1),
        ],
        said: "scan 1 1 2 3;second scan 2 1 2 3;1.1=granted 2 1;",
    },
    Case {
        name: "a reply of the lost port is late",
        mode: Mode::FailClosed,
        keep: MANY,
        questions: 1_024,
        steps: &[
            Step::Hello(1),
            Step::Other(1),
            Step::Ask(1, 1, b"ABC"),
            Step::Lost,
            Step::Clean(1, 1),
            Step::Clean(2, 1),
            Step::OtherClean(1, 1),
        ],
        said: "scan 1 1 2 3;second scan 2 1 2 3;",
    },
    Case {
        name: "the first service is asked again once it is back",
        mode: Mode::FailClosed,
        keep: MANY,
        questions: 1_024,
        steps: &[
            Step::Other(1),
            Step::Hello(1),
            Step::Ask(1, 1, b"ABC"),
            Step::OtherLost,
            Step::Clean(1, 1),
        ],
        said: "scan 1 1 2 3;1.1=granted 2 1;",
    },
    Case {
        name: "an open survives eight losses and no more",
        mode: Mode::FailClosed,
        keep: MANY,
        questions: 1_024,
        steps: &[
            Step::Hello(1),
            Step::Other(1),
            Step::Ask(1, 1, b"ABC"),
            Step::Lost,
            Step::Hello(1),
            Step::OtherLost,
            Step::Other(1),
            Step::Lost,
            Step::Hello(1),
            Step::OtherLost,
            Step::Other(1),
            Step::Lost,
            Step::Hello(1),
            Step::OtherLost,
            Step::Other(1),
            Step::Lost,
            Step::Hello(1),
            Step::OtherLost,
            Step::Other(1),
            Step::Lost,
        ],
        said: "scan 1 1 2 3;second scan 2 1 2 3;scan 3 1 2 3;second scan 4 1 2 3;scan 5 1 2 3;second scan 6 1 2 3;scan 7 1 2 3;second scan 8 1 2 3;scan 9 1 2 3;1.1=denied 8;",
    },
    Case {
        name: "the last of two services takes all with it",
        mode: Mode::FailClosed,
        keep: MANY,
        questions: 1_024,
        steps: &[
            Step::Hello(1),
            Step::Other(1),
            Step::Ask(1, 1, b"ABC"),
            Step::OtherLost,
            Step::Lost,
            Step::Ask(1, 2, b"ABC"),
        ],
        said: "scan 1 1 2 3;1.1=denied 6;1.2=denied 3;",
    },
    Case {
        name: "an older verdict of the other service grants nothing",
        mode: Mode::FailClosed,
        keep: MANY,
        questions: 1_024,
        steps: &[
            Step::Other(1),
            Step::Ask(1, 1, b"ABC"),
            Step::Hello(2),
            Step::OtherClean(1, 1),
            Step::Clean(2, 2),
        ],
        said: "second scan 1 1 2 3;scan 2 1 2 3;1.1=granted 2 2;",
    },
    Case {
        name: "a time that is up aborts at the port that was asked",
        mode: Mode::FailClosed,
        keep: MANY,
        questions: 1_024,
        steps: &[Step::Other(1), Step::Ask(1, 1, b"ABC"), Step::TimeUp(1)],
        said: "second scan 1 1 2 3;1.1=denied 5;second abort 1;",
    },
    Case {
        name: "a newer set is asked again",
        mode: Mode::FailClosed,
        keep: MANY,
        questions: 1_024,
        steps: &[
            Step::Hello(1),
            Step::Ask(1, 1, b"ABC"),
            Step::Clean(1, 1),
            Step::Updated(2),
            Step::Ask(1, 2, b"ABC"),
            Step::Infected(2, 2),
            Step::Ask(1, 3, b"ABC"),
        ],
        said: "scan 1 1 2 3;1.1=granted 2 1;scan 2 1 2 3;1.2=infected 2 0 2;1.3=infected 2 0 2;",
    },
    Case {
        name: "a question times out",
        mode: Mode::FailClosed,
        keep: MANY,
        questions: 1_024,
        steps: &[Step::Hello(1), Step::Ask(1, 1, b"ABC"), Step::TimeUp(1)],
        said: "scan 1 1 2 3;1.1=denied 5;abort 1;",
    },
    Case {
        name: "an empty content",
        mode: Mode::FailClosed,
        keep: MANY,
        questions: 1_024,
        steps: &[Step::Hello(1), Step::Ask(1, 1, b""), Step::Clean(1, 1)],
        said: "scan 1 1 2 0;1.1=granted 2 1;",
    },
    Case {
        name: "a new content is busy where no question is free",
        mode: Mode::FailClosed,
        keep: MANY,
        questions: 1,
        steps: &[
            Step::Hello(1),
            Step::Ask(1, 1, b"A"),
            Step::Ask(1, 2, b"B"),
            Step::Ask(2, 3, b"A"),
            Step::Clean(1, 1),
            Step::Ask(1, 2, b"B"),
            Step::Ask(2, 4, b"A"),
            Step::Ask(2, 5, b"C"),
            Step::Clean(2, 1),
        ],
        said: "scan 1 1 2 1;Fault(Busy);1.1=granted 2 1;2.3=granted 2 1;scan 2 2 2 1;2.4=granted 2 1;Fault(Busy);1.2=granted 2 1;",
    },
    Case {
        name: "a content is new, then asked, then known",
        mode: Mode::FailClosed,
        keep: MANY,
        questions: 1_024,
        steps: &[
            Step::Hello(1),
            Step::Class(b"ABC"),
            Step::Ask(1, 1, b"ABC"),
            Step::Class(b"ABC"),
            Step::Class(b"ABD"),
            Step::Infected(1, 1),
            Step::Class(b"ABC"),
            Step::Updated(2),
            Step::Class(b"ABC"),
        ],
        said: "New;scan 1 1 2 3;Asked;New;1.1=infected 1 0 2;Known;New;",
    },
    Case {
        name: "a content that was not judged is new again",
        mode: Mode::FailClosed,
        keep: MANY,
        questions: 1_024,
        steps: &[
            Step::Hello(1),
            Step::Ask(1, 1, b"ABC"),
            Step::TimeUp(1),
            Step::Class(b"ABC"),
            Step::Ask(1, 2, b"ABC"),
        ],
        said: "scan 1 1 2 3;1.1=denied 5;abort 1;New;scan 2 1 2 3;",
    },
    Case {
        name: "no service denies",
        mode: Mode::FailClosed,
        keep: MANY,
        questions: 1_024,
        steps: &[Step::Ask(1, 1, b"ABC")],
        said: "1.1=denied 3;",
    },
    Case {
        name: "no service lets through",
        mode: Mode::FailOpen,
        keep: MANY,
        questions: 1_024,
        steps: &[Step::Ask(1, 1, b"ABC")],
        said: "1.1=unscanned 2 3;",
    },
    Case {
        name: "one tag two contents",
        mode: Mode::FailClosed,
        keep: MANY,
        questions: 1_024,
        steps: &[
            Step::Hello(1),
            Step::Ask(1, 1, b"ABC"),
            Step::Ask(2, 1, b"XYZ"),
            Step::Infected(2, 1),
            Step::Clean(1, 1),
        ],
        said: "scan 1 1 2 3;scan 2 2 2 3;2.1=infected 1 0 2;1.1=granted 2 1;",
    },
    Case {
        name: "room is made of the oldest",
        mode: Mode::FailClosed,
        keep: 4,
        questions: 1_024,
        steps: &[
            Step::Hello(1),
            Step::Ask(1, 1, b"ABC"),
            Step::Clean(1, 1),
            Step::Ask(1, 2, b"XYZ"),
            Step::Clean(2, 1),
            Step::Ask(1, 3, b"ABC"),
        ],
        said: "scan 1 1 2 3;1.1=granted 2 1;scan 2 2 2 3;1.2=granted 2 1;scan 3 3 2 3;",
    },
    Case {
        name: "what was asked for again stays longer",
        mode: Mode::FailClosed,
        keep: 6,
        questions: 1_024,
        steps: &[
            Step::Hello(1),
            Step::Ask(1, 1, b"ABC"),
            Step::Clean(1, 1),
            Step::Ask(1, 2, b"XYZ"),
            Step::Clean(2, 1),
            Step::Ask(1, 3, b"ABC"),
            Step::Ask(1, 4, b"DEF"),
            Step::Clean(3, 1),
            Step::Ask(1, 5, b"ABC"),
            Step::Ask(1, 6, b"XYZ"),
        ],
        said: "scan 1 1 2 3;1.1=granted 2 1;scan 2 2 2 3;1.2=granted 2 1;1.3=granted 2 1;scan 3 3 2 3;1.4=granted 2 1;1.5=granted 2 1;scan 4 4 2 3;",
    },
    Case {
        name: "two ask for one content",
        mode: Mode::FailClosed,
        keep: MANY,
        questions: 1_024,
        steps: &[
            Step::Hello(1),
            Step::Ask(1, 1, b"ABC"),
            Step::Ask(2, 1, b"ABC"),
            Step::Clean(1, 1),
        ],
        said: "scan 1 1 2 3;1.1=granted 2 1;2.1=granted 2 1;",
    },
];

fn run_all(
    alloc: Global,
    guard: &mut Guard,
    steps: &[Step<'_>],
    said: &mut String,
) -> Result<(), Fail> {
    for step in steps {
        run(alloc, guard, step, said)?;
    }
    Ok(())
}

fn run_case(alloc: Global, case: &Case<'_>) -> Result<String, Fail> {
    let mut guard = guard_of(alloc, case.mode, case.keep, case.questions)?;
    let mut said = String::new(alloc);
    let result = run_all(alloc, &mut guard, case.steps, &mut said);
    guard.abandon();
    result?;
    Ok(said)
}

#[test]
fn every_case_is_answered_as_written(rt: HostRuntime) -> Result<(), Fail> {
    for case in &CASES {
        let said = run_case(rt.alloc(), case)?;
        let name = case.name;
        assert_eq!(rt; said.as_str(), case.said, "{name}");
    }
    Ok(())
}

// An ask that memory refuses is told to nobody and leaves who waits as it was; with memory it is asked.
fn ask_again(alloc: Global, guard: &mut Guard) -> Result<bool, Fail> {
    let content = b"ABC".as_slice().to_vec(alloc)?;
    may_refuse(alloc);
    let first = guard.ask(alloc, 1, 1, content);
    refuse_no_more(alloc);
    match first {
        Ok(given) => Ok(given.messages.len() == 1),
        Err(refused) => {
            let Refused { value, why } = refused;
            let same = guard.waiting_count() == 0;
            let memory = why == Refusal::NoMemory;
            match guard.ask(alloc, 1, 1, value) {
                Ok(given) => Ok(same && memory && given.messages.len() == 1),
                Err(_) => Ok(false),
            }
        }
    }
}

#[test]
fn refused_or_not_an_ask_is_asked_once(rt: HostRuntime) -> Result<(), Fail> {
    let alloc = rt.alloc();
    let mut guard = guard_of(alloc, Mode::FailClosed, MANY, 16)?;
    let greeted = guard.message(alloc, &hello(1)).is_ok();
    let asked = ask_again(alloc, &mut guard);
    let waits = guard.waiting_count();
    guard.abandon();
    assert!(rt; greeted);
    assert!(rt; asked?);
    assert_eq!(rt; waits, 1);
    Ok(())
}

// Why an ask of so many bytes is refused, and how many of them come back.
fn refusal(
    alloc: Global,
    guard: &mut Guard,
    client: u64,
    bytes: usize,
) -> Option<(Refusal<AskFault>, usize)> {
    let mut content: Vec<u8> = Vec::new(alloc);
    if content.resize(bytes, 7).is_err() {
        return None;
    }
    match guard.ask(alloc, client, 1, content) {
        Ok(_) => None,
        Err(Refused { value, why }) => Some((why, value.len())),
    }
}

#[test]
fn an_ask_is_refused_for_its_first_fault(rt: HostRuntime) -> Result<(), Fail> {
    let alloc = rt.alloc();
    let mut guard = guard_of(alloc, Mode::FailClosed, MANY, 16)?;
    let unknown = refusal(alloc, &mut guard, 3, 1_048_577);
    let too_large = refusal(alloc, &mut guard, 1, 1_048_577);
    guard.abandon();
    assert_eq!(rt;
        unknown,
        Some((Refusal::Fault(AskFault::NoClient), 1_048_577))
    );
    assert_eq!(rt;
        too_large,
        Some((Refusal::Fault(AskFault::TooLarge), 1_048_577))
    );
    Ok(())
}

// The fault of settings with these questions and this boot number; None where a guard began, which has that number.
fn fault_of(alloc: Global, questions: u64, boot: u64) -> Result<Option<SettingsFault>, Fail> {
    let key = RandomState::new(&NoRandom)?;
    let settings = Settings {
        mode: Mode::FailClosed,
        keep: MANY,
        questions,
        boot,
        key,
    };
    match Guard::new(alloc, settings) {
        Ok(guard) => {
            guard.abandon();
            Ok(None)
        }
        Err(Refusal::Fault(fault)) => Ok(Some(fault)),
        Err(Refusal::NoMemory) => Err(Fail::new("no memory")),
    }
}

#[test]
fn settings_out_of_range_are_refused(rt: HostRuntime) -> Result<(), Fail> {
    let cases = [
        (0, 1, Some(SettingsFault::Questions)),
        (1_025, 0, Some(SettingsFault::Questions)),
        (1, 0, Some(SettingsFault::Boot)),
        (1_024, 16_777_217, Some(SettingsFault::Boot)),
        (1, 1, None),
        (1_024, 65_536, None),
    ];
    for (questions, boot, fault) in cases {
        assert_eq!(rt;
            fault_of(rt.alloc(), questions, boot)?,
            fault,
            "{questions} {boot}"
        );
    }
    Ok(())
}

// A reply of another boot than the guard's is passed over, though its number is that of a question.
#[test]
fn a_reply_of_another_boot_grants_nothing(rt: HostRuntime) -> Result<(), Fail> {
    let alloc = rt.alloc();
    let mut guard = guard_of(alloc, Mode::FailClosed, MANY, 16)?;
    let mut said = String::new(alloc);
    let result = other_boot(alloc, &mut guard, &mut said);
    guard.abandon();
    result?;
    assert_eq!(rt; said.as_str(), "scan 1 1 2 3;1.1=granted 2 1;");
    Ok(())
}

fn other_boot(alloc: Global, guard: &mut Guard, said: &mut String) -> Result<(), Fail> {
    run(alloc, guard, &Step::Hello(1), said)?;
    run(alloc, guard, &Step::Ask(1, 1, b"ABC"), said)?;
    given_is(said, &guard.message(alloc, &say::reply_of(1, 1, 1, false))?)?;
    given_is(said, &guard.message(alloc, &say::reply_of(8, 1, 1, false))?)?;
    run(alloc, guard, &Step::Clean(1, 1), said)
}

// One content may be asked about as often as opens can be held, and once more it is busy.
#[test]
fn no_more_opens_wait_than_can_be_held(rt: HostRuntime) -> Result<(), Fail> {
    let alloc = rt.alloc();
    let mut guard = guard_of(alloc, Mode::FailOpen, MANY, 2)?;
    let asked = ask_often(alloc, &mut guard);
    let waits = guard.waiting_count();
    let may = guard.may_ask();
    guard.abandon();
    assert_eq!(rt; asked?, Some(Refusal::Fault(AskFault::Busy)));
    assert_eq!(rt; waits, 4_096);
    assert!(rt; !may);
    Ok(())
}

// Why the first ask that is refused was refused.
fn ask_often(alloc: Global, guard: &mut Guard) -> Result<Option<Refusal<AskFault>>, Fail> {
    let _ = guard.message(alloc, &hello(1))?;
    for tag in 0..5_000 {
        match guard.ask(alloc, 1, tag, b"ABC".as_slice().to_vec(alloc)?) {
            Ok(_) => {}
            Err(refused) => return Ok(Some(refused.why)),
        }
    }
    Ok(None)
}
