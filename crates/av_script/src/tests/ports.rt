use crate::command::Command;
use crate::run_json::run_json;
use crate::script::{ScriptFault, parse_script};
use crate::tests::world::world_after;
use av_base::recorded::Recorded;
use av_base::{Port, Refusal};
use av_history::event::Event;
use std::alloc::Global;
use std::process::Abort;
use std::test::Fail;

// A command of a script that names a port, if it does.
#[derive(Clone, Copy, Debug, PartialEq, Eq)]
enum Said {
    Connect,
    DisconnectFilter,
    DisconnectService,
    RestartService,
}

// A command, and what it says of which port.
struct PortCommand {
    text: &'static [u8],
    said: Said,
    port: Port,
}

const PORT_COMMANDS: [PortCommand; 8] = [
    PortCommand {
        text: b"volume 1 closed\nconnect\n",
        said: Said::Connect,
        port: Port::One,
    },
    PortCommand {
        text: b"volume 1 closed\nconnect 2\n",
        said: Said::Connect,
        port: Port::Two,
    },
    PortCommand {
        text: b"volume 1 closed\ndisconnect filter\n",
        said: Said::DisconnectFilter,
        port: Port::One,
    },
    PortCommand {
        text: b"volume 1 closed\ndisconnect filter 2\n",
        said: Said::DisconnectFilter,
        port: Port::Two,
    },
    PortCommand {
        text: b"volume 1 closed\ndisconnect service\n",
        said: Said::DisconnectService,
        port: Port::One,
    },
    PortCommand {
        text: b"volume 1 closed\ndisconnect service 2\n",
        said: Said::DisconnectService,
        port: Port::Two,
    },
    PortCommand {
        text: b"volume 1 closed\nrestart service\n",
        said: Said::RestartService,
        port: Port::One,
    },
    PortCommand {
        text: b"volume 1 closed\nrestart service 2\n",
        said: Said::RestartService,
        port: Port::Two,
    },
];

fn said_by(event: &Event) -> Option<(Said, Port)> {
    match event {
        Event::Connect { port } => Some((Said::Connect, *port)),
        Event::DisconnectFilter { port } => Some((Said::DisconnectFilter, *port)),
        Event::DisconnectService { port } => Some((Said::DisconnectService, *port)),
        Event::RestartService { port } => Some((Said::RestartService, *port)),
        _ => None,
    }
}

// What the one command of a script says.
fn said_of<R: Abort>(rt: &R, alloc: Global, text: &[u8]) -> Option<(Said, Port)> {
    let Ok(script) = parse_script(alloc, text) else {
        panic!(rt; "it is no script");
    };
    match script.into_commands().pop_front() {
        Some(Command::Step(event)) => said_by(&event),
        _ => None,
    }
}

#[test]
fn a_command_names_its_port(rt: HostRuntime) -> Result<(), Fail> {
    for command in &PORT_COMMANDS {
        let said = said_of(&rt, rt.alloc(), command.text);
        assert_eq!(rt; said, Some((command.said, command.port)));
    }
    Ok(())
}

const NO_COMMANDS: [&[u8]; 24] = [
    b"volume 1 closed\nconnect 1",
    b"volume 1 closed\nconnect 3",
    b"volume 1 closed\nconnect 0",
    b"volume 1 closed\nconnect 02",
    b"volume 1 closed\nconnect 22",
    b"volume 1 closed\nconnect 2 ",
    b"volume 1 closed\nconnect  2",
    b"volume 1 closed\nconnect ",
    b"volume 1 closed\nconnect 2 2",
    b"volume 1 closed\nconnect two",
    b"volume 1 closed\nconnect filter 2",
    b"volume 1 closed\ndisconnect 2",
    b"volume 1 closed\ndisconnect filter 1",
    b"volume 1 closed\ndisconnect filter 3",
    b"volume 1 closed\ndisconnect filter 2 ",
    b"volume 1 closed\ndisconnect filter 2 2",
    b"volume 1 closed\ndisconnect service 1",
    b"volume 1 closed\ndisconnect service 2 ",
    b"volume 1 closed\ndisconnect 2 service",
    b"volume 1 closed\nrestart 2",
    b"volume 1 closed\nrestart filter 2",
    b"volume 1 closed\nrestart filter 1",
    b"volume 1 closed\nrestart service 1",
    b"volume 1 closed\nrestart service 2 2",
];

#[test]
fn no_other_word_names_a_port(rt: HostRuntime) -> Result<(), Fail> {
    for text in &NO_COMMANDS {
        match parse_script(rt.alloc(), text) {
            Ok(_) => panic!(rt; "a bad line was read"),
            Err(why) => assert_eq!(rt; why, Refusal::Fault(ScriptFault { line: 2 })),
        }
    }
    Ok(())
}

// Each kind of message and a work, all of port Two: the commands, and the object of each.
const SECOND_PORT: [(&[u8], &[u8]); 25] = [
    (b"limit jobs 1", b""),
    (
        b"volume 1 closed",
        br#"{"line":2,"command":"volume 1 closed","did":[{"is":"boot","boot":1}]}"#,
    ),
    (
        b"publish 1 4142",
        br#"{"line":3,"command":"publish 1 4142","did":[{"is":"set","version":1,"signatures":1}]}"#,
    ),
    (
        b"create a",
        br#"{"line":4,"command":"create a","did":[{"is":"stream","stream":1,"generation":1}]}"#,
    ),
    (
        b"write a 0 4142",
        br#"{"line":5,"command":"write a 0 4142","did":[{"is":"stream","stream":1,"generation":2,"length":2}]}"#,
    ),
    (
        b"create b",
        br#"{"line":6,"command":"create b","did":[{"is":"stream","stream":2,"generation":1}]}"#,
    ),
    (
        b"write b 0 41",
        br#"{"line":7,"command":"write b 0 41","did":[{"is":"stream","stream":2,"generation":2,"length":1}]}"#,
    ),
    (
        b"connect 2",
        br#"{"line":8,"command":"connect 2","did":[{"is":"hello","up":1,"volume":1,"version":1,"port":2}]}"#,
    ),
    (
        b"up 1",
        br#"{"line":9,"command":"up 1","did":[{"is":"note","note":"Welcome"}]}"#,
    ),
    (
        b"open a",
        br#"{"line":10,"command":"open a","did":[{"is":"pended","open":1},{"is":"scan","down":1,"boot":1,"seq":1,"stream":1,"generation":2,"length":2,"port":2}]}"#,
    ),
    (
        b"open b",
        br#"{"line":11,"command":"open b","did":[{"is":"pended","open":2},{"is":"scan","down":2,"boot":1,"seq":2,"stream":2,"generation":2,"length":1,"port":2}]}"#,
    ),
    (
        b"down 1",
        br#"{"line":12,"command":"down 1","did":[{"is":"read","up":2,"boot":1,"seq":1,"offset":0,"count":2,"port":2}]}"#,
    ),
    (
        b"down 2",
        br#"{"line":13,"command":"down 2","did":[{"is":"reply","up":3,"boot":1,"seq":2,"verdict":"failed","cause":1,"port":2}]}"#,
    ),
    (
        b"up 2",
        br#"{"line":14,"command":"up 2","did":[{"is":"chunk","down":3,"boot":1,"seq":1,"offset":0,"bytes":"4142","port":2}]}"#,
    ),
    (
        b"down 3",
        br#"{"line":15,"command":"down 3","did":[{"is":"work","work":1,"boot":1,"seq":1,"offset":0,"length":2,"port":2}]}"#,
    ),
    (
        b"work 1",
        br#"{"line":16,"command":"work 1","did":[{"is":"reply","up":4,"boot":1,"seq":1,"version":1,"verdict":"infected","index":0,"end":2,"port":2}]}"#,
    ),
    (
        b"write a 0 43",
        br#"{"line":17,"command":"write a 0 43","did":[{"is":"stream","stream":1,"generation":3,"length":2},{"is":"abort","down":4,"boot":1,"seq":1,"port":2},{"is":"scan","down":5,"boot":1,"seq":3,"stream":1,"generation":3,"length":2,"port":2}]}"#,
    ),
    (
        b"up 2",
        br#"{"line":18,"command":"up 2","did":[{"is":"nochunk","down":6,"boot":1,"seq":1,"offset":0,"cause":1,"port":2}]}"#,
    ),
    (
        b"publish 2",
        br#"{"line":19,"command":"publish 2","did":[{"is":"set","version":2,"signatures":0},{"is":"updated","up":5,"version":2,"port":2}]}"#,
    ),
    (
        b"down 5",
        br#"{"line":20,"command":"down 5","did":[{"is":"read","up":6,"boot":1,"seq":3,"offset":0,"count":2,"port":2}]}"#,
    ),
    (
        b"up 6",
        br#"{"line":21,"command":"up 6","did":[{"is":"chunk","down":7,"boot":1,"seq":3,"offset":0,"bytes":"4342","port":2}]}"#,
    ),
    (
        b"down 7",
        br#"{"line":22,"command":"down 7","did":[{"is":"work","work":2,"boot":1,"seq":3,"offset":0,"length":2,"port":2}]}"#,
    ),
    (
        b"work 2",
        br#"{"line":23,"command":"work 2","did":[{"is":"reply","up":7,"boot":1,"seq":3,"version":2,"verdict":"clean","port":2}]}"#,
    ),
    (
        b"disconnect filter 2",
        br#"{"line":24,"command":"disconnect filter 2","did":[{"is":"denied","open":1,"cause":6,"why":"service lost"},{"is":"denied","open":2,"cause":6,"why":"service lost"}]}"#,
    ),
    (
        b"connect 2",
        br#"{"line":25,"command":"connect 2","refused":"AlreadyConnected"}"#,
    ),
];

#[test]
fn an_object_of_the_second_port_names_it_last(rt: HostRuntime) -> Result<(), Fail> {
    let mut script = Vec::new(rt.alloc());
    let mut wanted = Vec::new(rt.alloc());
    for (command, object) in SECOND_PORT {
        script.extend_from_slice(command)?;
        script.push(b'\n')?;
        if !object.is_empty() {
            wanted.extend_from_slice(object)?;
            wanted.push(b'\n')?;
        }
    }
    let mut reader = Recorded::new(script.as_slice());
    let mut objects = Vec::new(rt.alloc());
    let ended = run_json(rt.alloc(), &mut reader, &mut objects, 9);
    assert_eq!(rt; ended, Ok(()));
    assert_eq!(rt; objects.as_slice(), wanted.as_slice());
    Ok(())
}

// Whether the services of port One and Two are connected after a script.
fn connected_after<R: Abort>(rt: &R, alloc: Global, text: &[u8]) -> Result<[bool; 2], Fail> {
    let world = world_after(rt, alloc, text)?;
    let connected = [world.connected(Port::One), world.connected(Port::Two)];
    world.close();
    Ok(connected)
}

const CONNECTIONS: [(&[u8], [bool; 2]); 8] = [
    (b"volume 1 closed\npublish 1\n", [false, false]),
    (b"volume 1 closed\npublish 1\nconnect\n", [true, false]),
    (b"volume 1 closed\npublish 1\nconnect 2\n", [false, true]),
    (
        b"volume 1 closed\npublish 1\nconnect\nconnect 2\n",
        [true, true],
    ),
    (
        b"volume 1 closed\npublish 1\nconnect\nconnect 2\ndisconnect service\n",
        [false, true],
    ),
    (
        b"volume 1 closed\npublish 1\nconnect\nconnect 2\ndisconnect service 2\n",
        [true, false],
    ),
    (
        b"volume 1 closed\npublish 1\nconnect\nconnect 2\nrestart service\n",
        [false, true],
    ),
    (
        b"volume 1 closed\npublish 1\nconnect\nconnect 2\nrestart service 2\n",
        [true, false],
    ),
];

#[test]
fn each_service_is_connected_at_its_own_port(rt: HostRuntime) -> Result<(), Fail> {
    for (text, wanted) in CONNECTIONS {
        let connected = connected_after(&rt, rt.alloc(), text)?;
        assert_eq!(rt; connected, wanted);
    }
    Ok(())
}
