use crate::answer::{Answer, Begun, LargeOut, Told};
use crate::content::{Ending, ServicePresence};
use crate::large::Large;
use crate::tests::refused::begins;
use crate::tests::rows::ROWS;
use av_base::Version;
use av_parts::{Order, Unjudged, Word};
use std::alloc::Global;
use std::test::Fail;

// An event, by its numbers.
#[derive(Clone, Copy)]
pub enum Event<'a> {
    // With this version, at the floor before it.
    Greets(u64, u64),
    // A client, a tag, and the most bytes.
    Begins(ServicePresence, u64, u64, u64),
    Brings(u64, &'a str),
    Ends(u64, Ending),
    // The floor, and the word's fields in order.
    Clean(u64, u64, u64, u64),
    Infected(u64, u64, u64, u32, u64),
    Lacks(u64, u64, Unjudged),
    Late(u64),
    Leaves(u64),
    Lost,
}

// Events in turn, and what each gives out.
#[derive(Clone, Copy)]
pub struct Row<'a> {
    pub name: &'a str,
    pub steps: &'a [(Event<'a>, &'a str)],
}

#[test]
fn each_event_gives_out_what_its_row_says(rt: HostRuntime) -> Result<(), Fail> {
    for row in ROWS.iter() {
        let mut large = Large::new(rt.alloc());
        for (event, wanted) in row.steps.iter() {
            let given = happens(rt.alloc(), &mut large, *event)?;
            assert!(rt;
                given.as_str() == *wanted,
                "{}: {}, not {}",
                row.name,
                given.as_str(),
                wanted
            );
        }
    }
    Ok(())
}

#[test]
fn the_readers_tell_the_state(rt: HostRuntime) -> Result<(), Fail> {
    let mut large = Large::new(rt.alloc());
    assert!(rt; !large.takes_parts() && large.len() == 0 && !large.is_within(5));
    large.greet(Version::new(9), Version::new(9))?;
    begins(&mut large, ServicePresence::Connected, 5, 1)?;
    assert!(rt; large.takes_parts() && large.len() == 1 && large.is_within(5) && !large.owes(1));
    let _ = large.end(5, Ending::Whole);
    assert!(rt; large.len() == 1 && !large.is_within(5) && large.owes(1) && !large.owes(2));
    Ok(())
}

// What an event gives out, in words.
fn happens(alloc: Global, large: &mut Large, event: Event<'_>) -> Result<String, Fail> {
    match event {
        Event::Greets(floor, version) => {
            match large.greet(Version::new(floor), Version::new(version)) {
                Ok(()) => Ok(format!(in alloc; "greeted")?),
                Err(why) => Ok(format!(in alloc; "{why}")?),
            }
        }
        Event::Begins(service, client, tag, most) => {
            match large.begin(service, client, tag, most) {
                Ok(Begun::Sent { number }) => order_words(alloc, Order::Begin { number }),
                Ok(Begun::Answered(told)) => told_words(alloc, &told),
                Err(why) => Ok(format!(in alloc; "{why}")?),
            }
        }
        Event::Brings(client, some) => words_of(alloc, &large.bring(client, some.as_bytes())),
        Event::Ends(client, ending) => words_of(alloc, &large.end(client, ending)),
        Event::Late(client) => words_of(alloc, &large.late(client)),
        Event::Leaves(client) => leaves(alloc, large, client),
        Event::Lost => lost(alloc, large),
        _ => says(alloc, large, event),
    }
}

// A word of the service.
fn says(alloc: Global, large: &mut Large, event: Event<'_>) -> Result<String, Fail> {
    let (floor, word) = match event {
        Event::Clean(floor, number, version, count) => (
            floor,
            Word::Clean {
                number,
                version: Version::new(version),
                count,
            },
        ),
        Event::Infected(floor, number, version, index, end_at) => (
            floor,
            Word::Infected {
                number,
                version: Version::new(version),
                index,
                end_at,
            },
        ),
        Event::Lacks(floor, number, why) => (floor, Word::None { number, why }),
        _ => return Ok(String::new(alloc)),
    };
    match large.hear(Version::new(floor), word) {
        Ok(told) => words_of(alloc, &LargeOut { told, order: None }),
        Err(why) => Ok(format!(in alloc; "{why}")?),
    }
}

// A client leaves.
fn leaves(alloc: Global, large: &mut Large, client: u64) -> Result<String, Fail> {
    let mut numbers = Vec::new(alloc);
    large.leave(client, &mut numbers)?;
    let mut out = String::new(alloc);
    for number in numbers.iter() {
        out.push_str(format!(in alloc; "Drop {number} ")?.as_str())?;
    }
    Ok(out)
}

// A connection of the service is lost.
fn lost(alloc: Global, large: &mut Large) -> Result<String, Fail> {
    let mut told = Vec::new(alloc);
    large.lose(&mut told)?;
    let mut out = String::new(alloc);
    for one in told.iter() {
        out.push_str(told_words(alloc, one)?.as_str())?;
    }
    Ok(out)
}

// What an event about one content gives out, in words.
fn words_of(alloc: Global, given: &LargeOut<'_>) -> Result<String, Fail> {
    let mut out = String::new(alloc);
    if let Some(told) = given.told {
        out.push_str(told_words(alloc, &told)?.as_str())?;
    }
    if let Some(order) = given.order {
        out.push_str(order_words(alloc, order)?.as_str())?;
    }
    Ok(out)
}

fn told_words(alloc: Global, told: &Told) -> Result<String, Fail> {
    let client = told.client;
    let tag = told.tag;
    match told.answer {
        Answer::Granted { version } => {
            Ok(format!(in alloc; "{client}/{tag} granted {} ", version.get())?)
        }
        Answer::Infected {
            version,
            index,
            end_at,
        } => Ok(format!(in alloc;
            "{client}/{tag} infected {} {index} {end_at} ",
            version.get()
        )?),
        Answer::Unjudged { cause } => Ok(format!(in alloc;
            "{client}/{tag} cause {} ",
            cause.number()
        )?),
        Answer::Lacks { cause } => Ok(format!(in alloc;
            "{client}/{tag} cause {} ",
            cause.number()
        )?),
    }
}

fn order_words(alloc: Global, order: Order<'_>) -> Result<String, Fail> {
    match order {
        Order::Begin { number } => Ok(format!(in alloc; "Begin {number} ")?),
        Order::Part { number, some } => Ok(format!(in alloc; "Part {number} of {} ", some.len())?),
        Order::End { number, count } => Ok(format!(in alloc; "End {number} of {count} ")?),
        Order::Drop { number } => Ok(format!(in alloc; "Drop {number} ")?),
    }
}
