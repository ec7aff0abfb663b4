// Whole courses of events, with what a service says at each, as scripts print it.
use crate::tests::steps::{Stand, Step, discard_all};
use av_base::{LimitField, Port};
use std::alloc::Global;
use std::collections::VecDeque;
use std::process::Abort;
use std::test::Fail;

// A port and a limit, and what a service says at each step. Messages come at its own port, where a step says nothing else.
struct Row<'a> {
    name: &'a str,
    port: Port,
    limit: (LimitField, u64),
    steps: &'a [(Step<'a>, &'a str)],
}

const FULL: (LimitField, u64) = (LimitField::Chunk, 4096);

const ROWS: [Row<'static>; 17] = [
    Row {
        name: "a content that was judged is answered by the cache, until a restart",
        port: Port::One,
        limit: FULL,
        steps: &[
            (Step::Publish(1, b"XX"), ""),
            (Step::Connect, "hello volume 1 version 1"),
            (Step::Scan(1, 1, 3), "read 1.1 offset 0 count 3"),
            (Step::Chunk(1, 0, b"ABC"), "lease 1 1.1 version 1"),
            (Step::Finish, "reply 1.1 version 1 clean"),
            (Step::Scan(2, 1, 3), "reply 1.2 version 1 clean"),
            (Step::Disconnect, ""),
            (Step::Connect, "hello volume 1 version 1"),
            (Step::Scan(3, 1, 3), "reply 1.3 version 1 clean"),
            (Step::Restart, ""),
            (Step::Scan(4, 1, 3), "note Ignored"),
            (Step::Connect, "hello volume 1 version 1"),
            (Step::Scan(4, 1, 3), "read 1.4 offset 0 count 3"),
        ],
    },
    Row {
        name: "what comes at the second port is passed over",
        port: Port::One,
        limit: FULL,
        steps: &[
            (Step::Publish(1, b"XX"), ""),
            (Step::AtTheOther(&Step::Scan(1, 1, 3)), "note Ignored"),
            (Step::Connect, "hello volume 1 version 1"),
            (Step::AtTheOther(&Step::Scan(1, 1, 3)), "note Ignored"),
            (Step::Scan(1, 1, 3), "read 1.1 offset 0 count 3"),
            (Step::AtTheOther(&Step::Scan(1, 1, 3)), "note Ignored"),
            (Step::AtTheOther(&Step::Chunk(1, 0, b"ABC")), "note Ignored"),
            (Step::AtTheOther(&Step::NoChunk(1)), "note Ignored"),
            (Step::AtTheOther(&Step::Abort(1)), "note Ignored"),
            (Step::AtTheOther(&Step::Hello), "note Ignored"),
            (Step::Chunk(1, 0, b"ABC"), "lease 1 1.1 version 1"),
            (Step::Finish, "reply 1.1 version 1 clean"),
        ],
    },
    Row {
        name: "a service of the second port speaks there, and passes over what comes at the first",
        port: Port::Two,
        limit: (LimitField::Chunk, 2),
        steps: &[
            (Step::Publish(1, b"XX"), ""),
            (Step::Scan(1, 1, 3), "note Ignored"),
            (Step::Connect, "hello volume 1 version 1 port 2"),
            (Step::AtTheOther(&Step::Scan(1, 1, 3)), "note Ignored"),
            (Step::Scan(1, 1, 3), "read 1.1 offset 0 count 2 port 2"),
            (Step::AtTheOther(&Step::Scan(1, 1, 3)), "note Ignored"),
            (Step::AtTheOther(&Step::Chunk(1, 0, b"AB")), "note Ignored"),
            (Step::AtTheOther(&Step::NoChunk(1)), "note Ignored"),
            (Step::AtTheOther(&Step::Abort(1)), "note Ignored"),
            (Step::Chunk(1, 0, b"AB"), "lease 1 1.1 version 1"),
            (Step::Finish, "read 1.1 offset 2 count 1 port 2"),
            (
                Step::Publish(2, b"BC"),
                "updated 2 port 2, read 1.1 offset 0 count 2 port 2",
            ),
            (Step::Chunk(1, 0, b"ABCD"), "reply 1.1 failed 2 port 2"),
            (Step::Scan(2, 2, 0), "reply 1.2 version 2 clean port 2"),
            (Step::Scan(3, 2, 0), "reply 1.3 version 2 clean port 2"),
            (Step::Scan(4, 1, 2), "read 1.4 offset 0 count 2 port 2"),
            (Step::Chunk(4, 0, b"BC"), "lease 2 1.4 version 2"),
            (Step::Finish, "reply 1.4 version 2 infected 0 end 2 port 2"),
            (Step::Disconnect, ""),
            (Step::Restart, ""),
            (Step::Connect, "hello volume 1 version 2 port 2"),
        ],
    },
    Row {
        name: "a pattern over three chunks is found in the last",
        port: Port::One,
        limit: (LimitField::Chunk, 1),
        steps: &[
            (Step::Publish(1, b"ABC"), ""),
            (Step::Connect, "hello volume 1 version 1"),
            (Step::Scan(1, 1, 3), "read 1.1 offset 0 count 1"),
            (Step::Chunk(1, 0, b"A"), "lease 1 1.1 version 1"),
            (Step::Finish, "read 1.1 offset 1 count 1"),
            (Step::Chunk(1, 1, b"B"), "lease 2 1.1 version 1"),
            (Step::Finish, "read 1.1 offset 2 count 1"),
            (Step::Chunk(1, 2, b"C"), "lease 3 1.1 version 1"),
            (Step::Finish, "reply 1.1 version 1 infected 0 end 3"),
        ],
    },
    Row {
        name: "an abort that comes behind the reply finds no job",
        port: Port::One,
        limit: FULL,
        steps: &[
            (Step::Publish(1, b"XX"), ""),
            (Step::Connect, "hello volume 1 version 1"),
            (Step::Scan(1, 1, 3), "read 1.1 offset 0 count 3"),
            (Step::Chunk(1, 0, b"ABC"), "lease 1 1.1 version 1"),
            (Step::Finish, "reply 1.1 version 1 clean"),
            (Step::Abort(1), "note Ignored"),
            (Step::NoChunk(1), "note Ignored"),
            (Step::Chunk(1, 0, b"ABC"), "note Ignored"),
        ],
    },
    Row {
        name: "behind a publication a content is judged again",
        port: Port::One,
        limit: FULL,
        steps: &[
            (Step::Publish(1, b"XX"), ""),
            (Step::Connect, "hello volume 1 version 1"),
            (Step::Scan(1, 1, 3), "read 1.1 offset 0 count 3"),
            (Step::Chunk(1, 0, b"ABC"), "lease 1 1.1 version 1"),
            (Step::Finish, "reply 1.1 version 1 clean"),
            (Step::Publish(2, b"XX"), "updated 2"),
            (Step::Scan(2, 1, 3), "read 1.2 offset 0 count 3"),
            (Step::Chunk(2, 0, b"ABC"), "lease 2 1.2 version 2"),
            (Step::Finish, "reply 1.2 version 2 clean"),
        ],
    },
    Row {
        name: "a publication takes no memory where room was made for it",
        port: Port::One,
        limit: FULL,
        steps: &[
            (Step::PublishInRoom(1, b"XX"), ""),
            (Step::Connect, "hello volume 1 version 1"),
            (Step::PublishInRoom(2, b"XX"), "updated 2"),
            (Step::Scan(1, 1, 3), "read 1.1 offset 0 count 3"),
            (
                Step::PublishInRoom(3, b"XX"),
                "updated 3, read 1.1 offset 0 count 3",
            ),
            (Step::Scan(2, 2, 1), "read 1.2 offset 0 count 1"),
            (Step::Chunk(1, 0, b"ABC"), "lease 1 1.1 version 3"),
            (
                Step::PublishInRoom(4, b"XX"),
                "updated 4, read 1.1 offset 0 count 3, read 1.2 offset 0 count 1",
            ),
            (
                Step::Publish(5, b"XX"),
                "updated 5, read 1.1 offset 0 count 3, read 1.2 offset 0 count 1",
            ),
            (Step::Disconnect, ""),
            (Step::PublishInRoom(6, b"XX"), ""),
        ],
    },
    Row {
        name: "work that was lent before a publication is an orphan",
        port: Port::One,
        limit: FULL,
        steps: &[
            (Step::Publish(1, b"XX"), ""),
            (Step::Connect, "hello volume 1 version 1"),
            (Step::Scan(1, 1, 3), "read 1.1 offset 0 count 3"),
            (Step::Chunk(1, 0, b"ABC"), "lease 1 1.1 version 1"),
            (
                Step::Publish(2, b"AB"),
                "updated 2, read 1.1 offset 0 count 3",
            ),
            (Step::Finish, "note Orphan"),
            (Step::Chunk(1, 0, b"ABC"), "lease 2 1.1 version 2"),
            (Step::Finish, "reply 1.1 version 2 infected 0 end 2"),
        ],
    },
    Row {
        name: "a late work does not finish the job of its id",
        port: Port::One,
        limit: FULL,
        steps: &[
            (Step::Publish(1, b"XX"), ""),
            (Step::Connect, "hello volume 1 version 1"),
            (Step::Scan(1, 1, 3), "read 1.1 offset 0 count 3"),
            (Step::Chunk(1, 0, b"ABC"), "lease 1 1.1 version 1"),
            (
                Step::Publish(2, b"AB"),
                "updated 2, read 1.1 offset 0 count 3",
            ),
            (Step::Chunk(1, 0, b"ABC"), "lease 2 1.1 version 2"),
            (Step::Finish, "note Orphan"),
            (Step::Finish, "reply 1.1 version 2 infected 0 end 2"),
        ],
    },
    Row {
        name: "work of a job that was dropped does not finish the next of its id",
        port: Port::One,
        limit: FULL,
        steps: &[
            (Step::Publish(1, b"AB"), ""),
            (Step::Connect, "hello volume 1 version 1"),
            (Step::Scan(1, 1, 3), "read 1.1 offset 0 count 3"),
            (Step::Chunk(1, 0, b"ABC"), "lease 1 1.1 version 1"),
            (Step::Abort(1), ""),
            (Step::Scan(1, 2, 3), "read 1.1 offset 0 count 3"),
            (Step::Chunk(1, 0, b"XYZ"), "lease 2 1.1 version 1"),
            (Step::Finish, "note Orphan"),
            (Step::Finish, "reply 1.1 version 1 clean"),
        ],
    },
    Row {
        name: "a disconnection drops the jobs, and what was lent comes back as an orphan",
        port: Port::One,
        limit: FULL,
        steps: &[
            (Step::Publish(1, b"XX"), ""),
            (Step::Connect, "hello volume 1 version 1"),
            (Step::Scan(1, 1, 3), "read 1.1 offset 0 count 3"),
            (Step::Chunk(1, 0, b"ABC"), "lease 1 1.1 version 1"),
            (Step::Disconnect, ""),
            (Step::Finish, "note Orphan"),
            (Step::Abort(1), "note Ignored"),
            (Step::Publish(2, b"XX"), ""),
            (Step::Disconnect, ""),
            (Step::Connect, "hello volume 1 version 2"),
            (Step::Scan(1, 1, 3), "read 1.1 offset 0 count 3"),
        ],
    },
    Row {
        name: "a restart keeps the count of leases and drops what was lent",
        port: Port::One,
        limit: FULL,
        steps: &[
            (Step::Publish(1, b"XX"), ""),
            (Step::Connect, "hello volume 1 version 1"),
            (Step::Scan(1, 1, 3), "read 1.1 offset 0 count 3"),
            (Step::Chunk(1, 0, b"ABC"), "lease 1 1.1 version 1"),
            (Step::Restart, ""),
            (Step::Connect, "hello volume 1 version 1"),
            (Step::Scan(1, 1, 3), "read 1.1 offset 0 count 3"),
            (Step::Chunk(1, 0, b"ABC"), "lease 2 1.1 version 1"),
            (Step::Finish, "note Orphan"),
            (Step::Finish, "reply 1.1 version 1 clean"),
        ],
    },
    Row {
        name: "an abort may overtake its scan, and scans and chunks may come twice",
        port: Port::One,
        limit: FULL,
        steps: &[
            (Step::Publish(1, b"XX"), ""),
            (Step::Connect, "hello volume 1 version 1"),
            (Step::Abort(1), "note Ignored"),
            (Step::Scan(1, 1, 3), "read 1.1 offset 0 count 3"),
            (Step::NoChunk(1), ""),
            (Step::Scan(1, 1, 3), "read 1.1 offset 0 count 3"),
            (Step::Scan(1, 1, 3), "note Repeat"),
            (Step::Scan(1, 2, 9), "note Repeat"),
            (Step::Chunk(1, 1, b"BC"), "note Ignored"),
            (Step::Chunk(1, 0, b"AB"), "lease 1 1.1 version 1"),
            (Step::Chunk(1, 0, b"AB"), "note Ignored"),
            (Step::Chunk(1, 2, b"C"), "note Ignored"),
            (Step::Scan(1, 1, 3), "note Repeat"),
            (Step::Finish, "read 1.1 offset 2 count 1"),
            (Step::Chunk(1, 0, b"AB"), "note Ignored"),
            (Step::Chunk(1, 2, b"C"), "lease 2 1.1 version 1"),
            (Step::Abort(1), ""),
            (Step::Finish, "note Orphan"),
            (Step::Hello, "note Ignored"),
        ],
    },
    Row {
        name: "a second job does not fit a limit of one",
        port: Port::One,
        limit: (LimitField::Jobs, 1),
        steps: &[
            (Step::Publish(1, b"XX"), ""),
            (Step::Connect, "hello volume 1 version 1"),
            (Step::Scan(1, 1, 3), "read 1.1 offset 0 count 3"),
            (Step::Scan(2, 2, 1), "reply 1.2 failed 1"),
            (Step::Scan(3, 3, 0), "reply 1.3 failed 1"),
            (Step::Abort(1), ""),
            (Step::Scan(3, 3, 0), "reply 1.3 version 1 clean"),
            (Step::Scan(2, 2, 1), "read 1.2 offset 0 count 1"),
            (Step::Scan(4, 3, 0), "reply 1.4 version 1 clean"),
        ],
    },
    Row {
        name: "a chunk past the length ends its job, and a short one is followed by a Read of the rest",
        port: Port::One,
        limit: (LimitField::Chunk, 2),
        steps: &[
            (Step::Publish(1, b"BC"), ""),
            (Step::Connect, "hello volume 1 version 1"),
            (Step::Scan(1, 1, 3), "read 1.1 offset 0 count 2"),
            (Step::Chunk(1, 0, b"ABCD"), "reply 1.1 failed 2"),
            (Step::Chunk(1, 0, b"A"), "note Ignored"),
            (Step::Scan(2, 1, 3), "read 1.2 offset 0 count 2"),
            (Step::Chunk(2, 0, b"A"), "lease 1 1.2 version 1"),
            (Step::Finish, "read 1.2 offset 1 count 2"),
            (Step::Chunk(2, 1, b"BCD"), "reply 1.2 failed 2"),
            (Step::Scan(3, 1, 3), "read 1.3 offset 0 count 2"),
            (Step::Chunk(3, 0, b"ABC"), "lease 2 1.3 version 1"),
            (Step::Finish, "reply 1.3 version 1 infected 0 end 3"),
        ],
    },
    Row {
        name: "jobs end in any order, and go on in the order of their start",
        port: Port::One,
        limit: FULL,
        steps: &[
            (Step::Publish(1, b"XX"), ""),
            (Step::Connect, "hello volume 1 version 1"),
            (Step::Scan(2, 2, 1), "read 1.2 offset 0 count 1"),
            (Step::Scan(1, 1, 3), "read 1.1 offset 0 count 3"),
            (Step::Scan(3, 3, 9), "read 1.3 offset 0 count 9"),
            (Step::Abort(1), ""),
            (
                Step::Publish(2, b"AB"),
                "updated 2, read 1.2 offset 0 count 1, read 1.3 offset 0 count 9",
            ),
            (Step::Chunk(3, 0, b"AXX"), "lease 1 1.3 version 2"),
            (Step::Chunk(2, 0, b"A"), "lease 2 1.2 version 2"),
            (Step::Finish, "read 1.3 offset 3 count 6"),
            (Step::Finish, "reply 1.2 version 2 clean"),
        ],
    },
    Row {
        name: "nothing is judged without a set or a connection",
        port: Port::One,
        limit: FULL,
        steps: &[
            (Step::Connect, "refused NoSignatures"),
            (Step::Scan(1, 1, 3), "note Ignored"),
            (Step::Restart, ""),
            (Step::Connect, "refused NoSignatures"),
            (Step::Publish(1, b"XX"), ""),
            (Step::Scan(1, 1, 3), "note Ignored"),
            (Step::Connect, "hello volume 1 version 1"),
            (Step::Connect, "refused AlreadyConnected"),
        ],
    },
];

// Every call that a row makes is made again where memory was refused it, so this one test is run with each of its requests
// refused in turn, too.
#[test]
fn refused_or_not_every_row_is_answered_as_written(rt: HostRuntime) -> Result<(), Fail> {
    run_all(rt.alloc(), &rt, &ROWS)
}

fn run_all(alloc: Global, rt: &impl Abort, rows: &[Row<'_>]) -> Result<(), Fail> {
    for row in rows {
        let name = row.name;
        assert_eq!(rt; first_wrong(alloc, row)?, None, "{name}");
    }
    Ok(())
}

// The place of the first step of a row that is answered otherwise.
fn first_wrong(alloc: Global, row: &Row<'_>) -> Result<Option<usize>, Fail> {
    let mut stand = Stand::at(alloc, row.port, row.limit)?;
    let mut works = VecDeque::new(alloc);
    let first = stand.first_wrong(alloc, &mut works, row.steps);
    discard_all(works);
    first
}
