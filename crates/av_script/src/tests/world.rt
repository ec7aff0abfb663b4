use crate::command::Command;
use crate::script::parse_script;
use av_base::{Generation, Limits, Mode, OpenId, StreamId, Verdict, Version};
use av_cache::Entry;
use av_fakes::{may_refuse, refuse_no_more};
use av_history::event::Event;
use av_history::given::Given;
use av_pend::Answer;
use av_world::world::World;
use std::alloc::Global;
use std::process::Abort;
use std::test::Fail;

// An open that is scanned and granted, with a name that is unknown and a frame that is not there on the way.
const GRANTED: &[u8] = b"\
    volume 1 closed\n\
    publish 1 58\n\
    create a\n\
    write a 0 4142\n\
    write b 0 41\n\
    connect\n\
    up 1\n\
    open a\n\
    down 1\n\
    down 9\n\
    up 2\n\
    down 2\n\
    work 1\n\
    up 3\n";

#[test]
fn refused_or_not_a_granted_content_is_held_clean_in_each_place(
    rt: HostRuntime,
) -> Result<(), Fail> {
    let world = world_after(&rt, rt.alloc(), GRANTED)?;
    assert_held(&rt, rt.alloc(), world, &[clean(); 4])
}

// A second content, which the service of port Two finds infected.
const INFECTED: &[u8] = b"\
    create b\n\
    write b 0 4158\n\
    connect 2\n\
    up 4\n\
    disconnect filter\n\
    open b\n\
    down 3\n\
    up 5\n\
    down 4\n\
    work 2\n\
    up 6\n";

#[test]
fn refused_or_not_the_verdicts_of_both_services_are_held(rt: HostRuntime) -> Result<(), Fail> {
    let mut text = Vec::new(rt.alloc());
    text.extend_from_slice(GRANTED)?;
    text.extend_from_slice(INFECTED)?;
    let world = world_after(&rt, rt.alloc(), text.as_slice())?;
    // Of the contexts, the filter's cache, the caches of both services, and the replies.
    let wanted = [
        clean(),
        infected(),
        infected(),
        clean(),
        clean(),
        infected(),
        clean(),
        infected(),
    ];
    assert_held(&rt, rt.alloc(), world, wanted.as_slice())
}

// What a world holds, also where memory was refused at first. The world ends.
fn assert_held<R: Abort>(
    rt: &R,
    alloc: Global,
    world: World,
    wanted: &[Entry],
) -> Result<(), Fail> {
    may_refuse(alloc);
    let first = world.held(alloc);
    refuse_no_more(alloc);
    let held = match first {
        Ok(held) => Ok(held),
        Err(_) => world.held(alloc),
    };
    world.close();
    assert_eq!(rt; held?.as_slice(), wanted);
    Ok(())
}

fn infected() -> Entry {
    Entry {
        stream: StreamId::new(2),
        generation: Generation::new(2),
        version: Version::new(1),
        verdict: Verdict::Infected {
            index: 0,
            end_at: 2,
        },
    }
}

fn clean() -> Entry {
    Entry {
        stream: StreamId::new(1),
        generation: Generation::new(2),
        version: Version::new(1),
        verdict: Verdict::Clean,
    }
}

#[test]
fn a_world_tells_what_was_sent_and_answered(rt: HostRuntime) -> Result<(), Fail> {
    let world = world_after(&rt, rt.alloc(), GRANTED)?;
    let sent = [world.history().len(), world.down().len(), world.up().len()];
    let answered = world.answers() == [granted_answer()].as_slice();
    let mount = (world.mode(), world.limits());
    world.close();
    assert_eq!(rt; sent, [11, 2, 3]);
    assert!(rt; answered);
    assert_eq!(rt; mount, (Mode::FailClosed, Limits::greatest()));
    Ok(())
}

// No clause can say that memory was refused in truth: a run that lets nothing happen is proved too.
#[test]
fn a_run_that_is_not_refused_memory_lets_each_event_happen(rt: HostRuntime) -> Result<(), Fail> {
    let world = world_after(&rt, rt.alloc(), GRANTED)?;
    let history = world.history();
    let happened = history.len();
    let first = matches!(history.first(), Some(Event::Publish { .. }));
    let last = matches!(history.last(), Some(Event::Up { place: 3 }));
    world.close();
    assert_eq!(rt; happened, 11);
    assert!(rt; first && last);
    Ok(())
}

fn granted_answer() -> Given {
    Given {
        event: 11,
        answer: Answer::Granted {
            open_id: OpenId::new(1),
            least: Version::new(0),
            stream: StreamId::new(1),
            generation: Generation::new(2),
            version: Version::new(1),
        },
    }
}

/// The world after a script.
pub fn world_after<R: Abort>(rt: &R, alloc: Global, text: &[u8]) -> Result<World, Fail> {
    let Ok(script) = parse_script(alloc, text) else {
        panic!(rt; "it is no script");
    };
    let (number, mode, limits) = (script.number(), script.mode(), script.limits());
    let mut commands = script.into_commands();
    let mut events = Vec::new(alloc);
    'commands: while let Some(command) = commands.pop_front() {
        if let Command::Step(event) = command {
            events.push(event)?;
        }
    }
    let world = World::run(alloc, number, mode, limits, events.as_slice())?;
    Ok(world)
}
