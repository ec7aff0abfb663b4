// Whole courses of events, with what a filter gives out at each, as scripts print it.
use crate::tests::steps::Step;
use av_base::{LimitField, Mode};

// Steps on a filter of a volume with the streams 1 and 2, without bytes, each with what the filter gives out; and further
// steps after a restart, with what that gives out.
pub struct Row<'a> {
    pub name: &'a str,
    pub mode: Mode,
    pub limit: (LimitField, u64),
    pub steps: &'a [(Step<'a>, &'a str)],
    pub restart: Option<&'a str>,
    pub after: &'a [(Step<'a>, &'a str)],
}

const FULL: (LimitField, u64) = (LimitField::Pended, 4_096);

// The content is written, the service greets, and an open waits for the first question.
const WELCOME: &str = "note Welcome";

const ASKED: &str = "scan 1.1 stream 1 generation 2 length 3, number 1";

pub const ROWS: [Row<'static>; 24] = [
    Row {
        name: "a clean reply grants, and the next open is granted at once",
        mode: Mode::FailClosed,
        limit: FULL,
        steps: &[
            (Step::Write(1, 0, b"ABC"), ""),
            (Step::Hello(1, 1), WELCOME),
            (Step::Open(1, 0), ASKED),
            (Step::Read(1, 1, 0, 3), "chunk 1.1 offset 0 bytes 65 66 67"),
            (
                Step::Clean(1, 1, 1),
                "open 1 granted stream 1 generation 2 version 1 least 0",
            ),
            (
                Step::Open(1, 0),
                "open 2 granted stream 1 generation 2 version 1 least 0, number 2",
            ),
            (Step::Clean(1, 1, 1), "note NoWaiter"),
        ],
        restart: None,
        after: &[],
    },
    Row {
        name: "a late reply about content from before a write finds no waiter",
        mode: Mode::FailClosed,
        limit: FULL,
        steps: &[
            (Step::Write(1, 0, b"ABC"), ""),
            (Step::Hello(1, 1), WELCOME),
            (Step::Open(1, 0), ASKED),
            (
                Step::Write(1, 3, b"D"),
                "abort 1.1, scan 1.2 stream 1 generation 3 length 4",
            ),
            (Step::Clean(1, 1, 1), "note NoWaiter"),
            (Step::Read(1, 1, 0, 3), "nochunk 1.1 offset 0 cause 1"),
            (
                Step::Read(1, 2, 0, 9),
                "chunk 1.2 offset 0 bytes 65 66 67 68",
            ),
            (Step::Read(1, 2, 1, 2), "chunk 1.2 offset 1 bytes 66 67"),
            (Step::Read(1, 2, 4, 1), "nochunk 1.2 offset 4 cause 2"),
            (
                Step::Cut(1, 1),
                "abort 1.2, scan 1.3 stream 1 generation 4 length 1",
            ),
            (Step::Write(1, 9, b"D"), "refused Hole"),
            (
                Step::Clean(1, 3, 1),
                "open 1 granted stream 1 generation 4 version 1 least 0",
            ),
        ],
        restart: None,
        after: &[],
    },
    Row {
        name: "a timeout answers by the mode, closed, and a late reply finds no waiter",
        mode: Mode::FailClosed,
        limit: FULL,
        steps: &[
            (Step::Write(1, 0, b"ABC"), ""),
            (Step::Hello(1, 1), WELCOME),
            (Step::Open(1, 0), ASKED),
            (Step::Timeout(2), "note NoWaiter"),
            (Step::Timeout(1), "open 1 denied cause 5, abort 1.1"),
            (Step::Clean(1, 1, 1), "note NoWaiter"),
            (
                Step::Open(1, 0),
                "scan 1.2 stream 1 generation 2 length 3, number 2",
            ),
        ],
        restart: None,
        after: &[],
    },
    Row {
        name: "a timeout answers by the mode, open",
        mode: Mode::FailOpen,
        limit: FULL,
        steps: &[
            (Step::Write(1, 0, b"ABC"), ""),
            (Step::Hello(1, 1), WELCOME),
            (Step::Open(1, 0), ASKED),
            (
                Step::Timeout(1),
                "open 1 unscanned stream 1 generation 2 cause 5, abort 1.1",
            ),
            (Step::Clean(1, 1, 1), "note NoWaiter"),
        ],
        restart: None,
        after: &[],
    },
    Row {
        name: "a restart answers by the mode, closed, and ids have the next boot",
        mode: Mode::FailClosed,
        limit: FULL,
        steps: &[
            (Step::Write(1, 0, b"ABC"), ""),
            (Step::Hello(1, 1), WELCOME),
            (Step::Open(1, 0), ASKED),
        ],
        restart: Some("open 1 denied cause 10"),
        after: &[
            (Step::Hello(1, 1), WELCOME),
            (
                Step::Open(1, 0),
                "scan 2.1 stream 1 generation 2 length 3, number 2",
            ),
            (Step::Clean(1, 1, 1), "note NoWaiter"),
            (
                Step::Clean(2, 1, 1),
                "open 2 granted stream 1 generation 2 version 1 least 0",
            ),
        ],
    },
    Row {
        name: "a restart answers by the mode, open, and forgets the floor",
        mode: Mode::FailOpen,
        limit: FULL,
        steps: &[
            (Step::Write(1, 0, b"ABC"), ""),
            (Step::Hello(1, 1), WELCOME),
            (Step::Updated(7), ""),
            (Step::Open(1, 0), ASKED),
        ],
        restart: Some("open 1 unscanned stream 1 generation 2 cause 10"),
        after: &[(Step::Hello(1, 1), WELCOME)],
    },
    Row {
        name: "a reply below the floor is asked again",
        mode: Mode::FailClosed,
        limit: FULL,
        steps: &[
            (Step::Write(1, 0, b"ABC"), ""),
            (Step::Hello(1, 1), WELCOME),
            (Step::Open(1, 0), ASKED),
            (Step::Updated(2), ""),
            (
                Step::Clean(1, 1, 1),
                "scan 1.2 stream 1 generation 2 length 3",
            ),
            (
                Step::Clean(1, 2, 2),
                "open 1 granted stream 1 generation 2 version 2 least 0",
            ),
        ],
        restart: None,
        after: &[],
    },
    Row {
        name: "an open is asked again eight times, and no more",
        mode: Mode::FailClosed,
        limit: FULL,
        steps: &[
            (Step::Write(1, 0, b"ABC"), ""),
            (Step::Hello(1, 1), WELCOME),
            (Step::Open(1, 0), ASKED),
            (
                Step::Write(1, 0, b"A"),
                "abort 1.1, scan 1.2 stream 1 generation 3 length 3",
            ),
            (
                Step::Write(1, 0, b"A"),
                "abort 1.2, scan 1.3 stream 1 generation 4 length 3",
            ),
            (
                Step::Write(1, 0, b"A"),
                "abort 1.3, scan 1.4 stream 1 generation 5 length 3",
            ),
            (
                Step::Write(1, 0, b"A"),
                "abort 1.4, scan 1.5 stream 1 generation 6 length 3",
            ),
            (
                Step::Write(1, 0, b"A"),
                "abort 1.5, scan 1.6 stream 1 generation 7 length 3",
            ),
            (
                Step::Write(1, 0, b"A"),
                "abort 1.6, scan 1.7 stream 1 generation 8 length 3",
            ),
            (
                Step::Write(1, 0, b"A"),
                "abort 1.7, scan 1.8 stream 1 generation 9 length 3",
            ),
            (
                Step::Write(1, 0, b"A"),
                "abort 1.8, scan 1.9 stream 1 generation 10 length 3",
            ),
            (Step::Write(1, 0, b"A"), "open 1 denied cause 8, abort 1.9"),
        ],
        restart: None,
        after: &[],
    },
    Row {
        name: "stale replies are asked again eight times, and no more",
        mode: Mode::FailOpen,
        limit: FULL,
        steps: &[
            (Step::Write(1, 0, b"ABC"), ""),
            (Step::Hello(1, 1), WELCOME),
            (Step::Open(1, 9), ASKED),
            (
                Step::Clean(1, 1, 1),
                "scan 1.2 stream 1 generation 2 length 3",
            ),
            (
                Step::Clean(1, 2, 1),
                "scan 1.3 stream 1 generation 2 length 3",
            ),
            (
                Step::Clean(1, 3, 1),
                "scan 1.4 stream 1 generation 2 length 3",
            ),
            (
                Step::Clean(1, 4, 1),
                "scan 1.5 stream 1 generation 2 length 3",
            ),
            (
                Step::Clean(1, 5, 1),
                "scan 1.6 stream 1 generation 2 length 3",
            ),
            (
                Step::Clean(1, 6, 1),
                "scan 1.7 stream 1 generation 2 length 3",
            ),
            (
                Step::Clean(1, 7, 1),
                "scan 1.8 stream 1 generation 2 length 3",
            ),
            (
                Step::Clean(1, 8, 1),
                "scan 1.9 stream 1 generation 2 length 3",
            ),
            (
                Step::Clean(1, 9, 1),
                "open 1 unscanned stream 1 generation 2 cause 8",
            ),
        ],
        restart: None,
        after: &[],
    },
    Row {
        name: "without the service opens are answered by the mode, closed",
        mode: Mode::FailClosed,
        limit: FULL,
        steps: &[
            (Step::Write(1, 0, b"ABC"), ""),
            (Step::Hello(1, 1), WELCOME),
            (Step::Open(1, 0), ASKED),
            (Step::Disconnect, "open 1 denied cause 6"),
            (Step::Open(1, 0), "open 2 denied cause 3, number 2"),
            (Step::Open(9, 0), "open 3 denied cause 1, number 3"),
            (Step::Write(9, 0, b"A"), "refused NoStream"),
            (Step::Timeout(1), "note NoWaiter"),
            (Step::Disconnect, ""),
        ],
        restart: None,
        after: &[],
    },
    Row {
        name: "without the service opens are answered by the mode, open, but an unknown stream is kept out",
        mode: Mode::FailOpen,
        limit: FULL,
        steps: &[
            (Step::Write(1, 0, b"ABC"), ""),
            (
                Step::Open(1, 0),
                "open 1 unscanned stream 1 generation 2 cause 3, number 1",
            ),
            (Step::Open(9, 0), "open 2 denied cause 1, number 2"),
            (Step::Timeout(1), "note NoWaiter"),
            (Step::Disconnect, ""),
        ],
        restart: None,
        after: &[],
    },
    Row {
        name: "a disconnect answers all opens in the order of their numbers",
        mode: Mode::FailClosed,
        limit: FULL,
        steps: &[
            (Step::Hello(1, 1), WELCOME),
            (
                Step::Open(1, 0),
                "scan 1.1 stream 1 generation 1 length 0, number 1",
            ),
            (
                Step::Open(2, 0),
                "scan 1.2 stream 2 generation 1 length 0, number 2",
            ),
            (Step::Open(1, 0), "number 3"),
            (
                Step::Disconnect,
                "open 1 denied cause 6, open 2 denied cause 6, open 3 denied cause 6",
            ),
        ],
        restart: None,
        after: &[],
    },
    Row {
        name: "a removed stream's opens are denied in either mode",
        mode: Mode::FailOpen,
        limit: FULL,
        steps: &[
            (Step::Write(1, 0, b"ABC"), ""),
            (Step::Hello(1, 1), WELCOME),
            (Step::Open(1, 0), ASKED),
            (Step::Remove(1), "open 1 denied cause 9, abort 1.1"),
            (Step::Remove(1), "refused NoStream"),
            (Step::Remove(2), ""),
            (Step::Cleanup(1), "note NoStream"),
        ],
        restart: None,
        after: &[],
    },
    Row {
        name: "a cleanup asks once, and an open joins it where one more can be held",
        mode: Mode::FailClosed,
        limit: (LimitField::Pended, 1),
        steps: &[
            (Step::Write(1, 0, b"ABC"), ""),
            (Step::Cleanup(1), ""),
            (Step::Hello(1, 1), WELCOME),
            (Step::Cleanup(2), ""),
            (Step::Cleanup(1), "scan 1.1 stream 1 generation 2 length 3"),
            (Step::Cleanup(1), ""),
            (Step::Open(1, 0), "number 1"),
            (Step::Open(1, 0), "open 2 denied cause 4, number 2"),
            (Step::Open(2, 0), "open 3 denied cause 4, number 3"),
        ],
        restart: None,
        after: &[],
    },
    Row {
        name: "a scan that failed answers its own opens alone",
        mode: Mode::FailClosed,
        limit: FULL,
        steps: &[
            (Step::Write(1, 0, b"ABC"), ""),
            (Step::Write(2, 0, b"A"), ""),
            (Step::Hello(1, 1), WELCOME),
            (Step::Open(1, 0), ASKED),
            (
                Step::Open(2, 0),
                "scan 1.2 stream 2 generation 2 length 1, number 2",
            ),
            (Step::Failed(1, 2), "open 2 denied cause 7"),
            (
                Step::Clean(1, 1, 1),
                "open 1 granted stream 1 generation 2 version 1 least 0",
            ),
        ],
        restart: None,
        after: &[],
    },
    Row {
        name: "a second question does not fit a limit of one",
        mode: Mode::FailOpen,
        limit: (LimitField::Questions, 1),
        steps: &[
            (Step::Write(1, 0, b"ABC"), ""),
            (Step::Hello(1, 1), WELCOME),
            (Step::Open(1, 0), ASKED),
            (
                Step::Open(2, 0),
                "open 2 unscanned stream 2 generation 1 cause 4, number 2",
            ),
            (Step::Infected(1, 1, 1), "open 1 denied cause 2"),
            (Step::Open(1, 0), "open 3 denied cause 2, number 3"),
            (
                Step::Open(2, 0),
                "scan 1.2 stream 2 generation 1 length 0, number 4",
            ),
        ],
        restart: None,
        after: &[],
    },
    Row {
        name: "a greeting is taken once, of this volume, and not below the floor",
        mode: Mode::FailClosed,
        limit: FULL,
        steps: &[
            (Step::Updated(3), ""),
            (Step::Hello(2, 3), "note WrongVolume"),
            (Step::Hello(1, 2), "note OldVersion"),
            (Step::Hello(1, 3), WELCOME),
            (Step::Hello(1, 2), "note Connected"),
            (Step::Hello(1, 9), "note Connected"),
            (Step::Abort(1, 1), "note Ignored"),
        ],
        restart: None,
        after: &[],
    },
    Row {
        name: "each port has a service of its own, and a question is asked on the least that is connected",
        mode: Mode::FailClosed,
        limit: FULL,
        steps: &[
            (Step::AtTwo(&Step::Hello(1, 1)), WELCOME),
            (Step::AtTwo(&Step::Hello(1, 1)), "note Connected"),
            (Step::Write(1, 0, b"ABC"), ""),
            (
                Step::Open(1, 0),
                "scan 1.1 stream 1 generation 2 length 3 port 2, number 1",
            ),
            (Step::Hello(1, 1), WELCOME),
            (
                Step::Open(2, 0),
                "scan 1.2 stream 2 generation 1 length 0, number 2",
            ),
            (Step::Read(1, 1, 0, 3), "nochunk 1.1 offset 0 cause 1"),
            (Step::Clean(1, 1, 1), "note NoWaiter"),
            (Step::Failed(1, 1), "note NoWaiter"),
            (Step::AtTwo(&Step::Clean(1, 2, 1)), "note NoWaiter"),
            (
                Step::AtTwo(&Step::Read(1, 2, 0, 3)),
                "nochunk 1.2 offset 0 cause 1 port 2",
            ),
            (
                Step::AtTwo(&Step::Read(1, 1, 0, 3)),
                "chunk 1.1 offset 0 bytes 65 66 67 port 2",
            ),
            (
                Step::AtTwo(&Step::Read(1, 1, 3, 3)),
                "nochunk 1.1 offset 3 cause 2 port 2",
            ),
            (Step::AtTwo(&Step::Abort(1, 1)), "note Ignored"),
            (
                Step::AtTwo(&Step::Clean(1, 1, 1)),
                "open 1 granted stream 1 generation 2 version 1 least 0",
            ),
            (
                Step::Clean(1, 2, 1),
                "open 2 granted stream 2 generation 1 version 1 least 0",
            ),
        ],
        restart: None,
        after: &[],
    },
    Row {
        name: "an abort goes to the question's port, and the scan of the new content to the least that is connected",
        mode: Mode::FailClosed,
        limit: FULL,
        steps: &[
            (Step::AtTwo(&Step::Hello(1, 1)), WELCOME),
            (Step::Write(1, 0, b"ABC"), ""),
            (
                Step::Open(1, 0),
                "scan 1.1 stream 1 generation 2 length 3 port 2, number 1",
            ),
            (Step::Hello(1, 1), WELCOME),
            (
                Step::Write(1, 3, b"D"),
                "abort 1.1 port 2, scan 1.2 stream 1 generation 3 length 4",
            ),
            (Step::Timeout(2), "open 1 denied cause 5, abort 1.2"),
            (Step::Cleanup(1), "scan 1.3 stream 1 generation 3 length 4"),
        ],
        restart: None,
        after: &[],
    },
    Row {
        name: "the questions of a port that is lost are asked again on the other, and nobody hears of it",
        mode: Mode::FailClosed,
        limit: FULL,
        steps: &[
            (Step::Write(1, 0, b"ABC"), ""),
            (Step::Hello(1, 1), WELCOME),
            (Step::AtTwo(&Step::Hello(1, 1)), WELCOME),
            (Step::Open(1, 0), ASKED),
            (
                Step::Open(2, 0),
                "scan 1.2 stream 2 generation 1 length 0, number 2",
            ),
            (Step::Open(1, 0), "number 3"),
            (
                Step::Disconnect,
                "scan 1.3 stream 1 generation 2 length 3 port 2, scan 1.4 stream 2 generation 1 length 0 port 2",
            ),
            (Step::Clean(1, 1, 1), "note NoWaiter"),
            (Step::Read(1, 1, 0, 3), "nochunk 1.1 offset 0 cause 1"),
            (Step::Disconnect, ""),
            (
                Step::AtTwo(&Step::Clean(1, 3, 1)),
                "open 1 granted stream 1 generation 2 version 1 least 0, open 3 granted stream 1 generation 2 version 1 least 0",
            ),
            (Step::AtTwo(&Step::Disconnect), "open 2 denied cause 6"),
            (Step::Open(2, 0), "open 4 denied cause 3, number 4"),
        ],
        restart: None,
        after: &[],
    },
    Row {
        name: "a port that is lost has no question, and the last one loses all",
        mode: Mode::FailOpen,
        limit: FULL,
        steps: &[
            (Step::Write(1, 0, b"ABC"), ""),
            (Step::Hello(1, 1), WELCOME),
            (Step::AtTwo(&Step::Hello(1, 1)), WELCOME),
            (Step::Open(1, 0), ASKED),
            (Step::AtTwo(&Step::Disconnect), ""),
            (
                Step::Disconnect,
                "open 1 unscanned stream 1 generation 2 cause 6",
            ),
            (
                Step::Open(1, 0),
                "open 2 unscanned stream 1 generation 2 cause 3, number 2",
            ),
        ],
        restart: None,
        after: &[],
    },
    Row {
        name: "an open survives eight losses, and what the ninth answers stands in the order of the opens",
        mode: Mode::FailClosed,
        limit: FULL,
        steps: &[
            (Step::Hello(1, 1), WELCOME),
            (Step::AtTwo(&Step::Hello(1, 1)), WELCOME),
            (
                Step::Open(1, 0),
                "scan 1.1 stream 1 generation 1 length 0, number 1",
            ),
            (
                Step::Open(2, 0),
                "scan 1.2 stream 2 generation 1 length 0, number 2",
            ),
            (Step::Open(1, 0), "number 3"),
            (
                Step::Disconnect,
                "scan 1.3 stream 1 generation 1 length 0 port 2, scan 1.4 stream 2 generation 1 length 0 port 2",
            ),
            (Step::Hello(1, 1), WELCOME),
            (
                Step::AtTwo(&Step::Disconnect),
                "scan 1.5 stream 1 generation 1 length 0, scan 1.6 stream 2 generation 1 length 0",
            ),
            (Step::AtTwo(&Step::Hello(1, 1)), WELCOME),
            (
                Step::Disconnect,
                "scan 1.7 stream 1 generation 1 length 0 port 2, scan 1.8 stream 2 generation 1 length 0 port 2",
            ),
            (Step::Hello(1, 1), WELCOME),
            (
                Step::AtTwo(&Step::Disconnect),
                "scan 1.9 stream 1 generation 1 length 0, scan 1.10 stream 2 generation 1 length 0",
            ),
            (Step::AtTwo(&Step::Hello(1, 1)), WELCOME),
            (
                Step::Disconnect,
                "scan 1.11 stream 1 generation 1 length 0 port 2, scan 1.12 stream 2 generation 1 length 0 port 2",
            ),
            (Step::Hello(1, 1), WELCOME),
            (
                Step::AtTwo(&Step::Disconnect),
                "scan 1.13 stream 1 generation 1 length 0, scan 1.14 stream 2 generation 1 length 0",
            ),
            (Step::AtTwo(&Step::Hello(1, 1)), WELCOME),
            (
                Step::Disconnect,
                "scan 1.15 stream 1 generation 1 length 0 port 2, scan 1.16 stream 2 generation 1 length 0 port 2",
            ),
            (Step::Hello(1, 1), WELCOME),
            (
                Step::AtTwo(&Step::Disconnect),
                "scan 1.17 stream 1 generation 1 length 0, scan 1.18 stream 2 generation 1 length 0",
            ),
            (Step::AtTwo(&Step::Hello(1, 1)), WELCOME),
            (
                Step::Disconnect,
                "open 1 denied cause 8, open 2 denied cause 8, open 3 denied cause 8",
            ),
            (
                Step::Open(1, 0),
                "scan 1.19 stream 1 generation 1 length 0 port 2, number 4",
            ),
        ],
        restart: None,
        after: &[],
    },
    Row {
        name: "the floor is one for both ports, and rises at whichever",
        mode: Mode::FailClosed,
        limit: FULL,
        steps: &[
            (Step::Write(1, 0, b"ABC"), ""),
            (Step::Hello(1, 1), WELCOME),
            (Step::Open(1, 0), ASKED),
            (Step::AtTwo(&Step::Hello(1, 2)), WELCOME),
            (
                Step::Clean(1, 1, 1),
                "scan 1.2 stream 1 generation 2 length 3",
            ),
            (Step::AtTwo(&Step::Disconnect), ""),
            (Step::AtTwo(&Step::Hello(1, 1)), "note OldVersion"),
            (Step::AtTwo(&Step::Updated(3)), ""),
            (Step::AtTwo(&Step::Hello(1, 2)), "note OldVersion"),
            (Step::Updated(2), ""),
            (
                Step::Clean(1, 2, 3),
                "open 1 granted stream 1 generation 2 version 3 least 0",
            ),
        ],
        restart: None,
        after: &[],
    },
    Row {
        name: "a chunk has the limit's size at most",
        mode: Mode::FailClosed,
        limit: (LimitField::Chunk, 2),
        steps: &[
            (Step::Write(1, 0, b"ABC"), ""),
            (Step::Hello(1, 1), WELCOME),
            (Step::Open(1, 0), ASKED),
            (Step::Read(1, 1, 0, 3), "chunk 1.1 offset 0 bytes 65 66"),
            (Step::Read(1, 1, 2, 3), "chunk 1.1 offset 2 bytes 67"),
            (Step::Read(1, 1, 3, 1), "nochunk 1.1 offset 3 cause 2"),
        ],
        restart: None,
        after: &[],
    },
];
