// What comes to a filter with one open of stream 1, which has `ABC`, at a moment or with fields at which it means nothing.
use crate::tests::cases::{Case, FULL, Side, first_wrong};
use crate::tests::frames::{ABORT, CHUNK, CLEAN, HELLO, READ, SCAN, SCAN_2};
use crate::tests::told::{LOST, Told};
use av_base::{Cause, LimitField};
use av_frame::End;
use std::test::Fail;

// Hello of volume 1 and version 2.
const HELLO_2: &str = "00000012 0501 [1] [2]";

// Hello of volume 2 and version 9.
const HELLO_OF_2: &str = "00000012 0501 [2] [9]";

// At the second port: Hello of volume 1 and version 9, Read 1.1 of 3 bytes from 0, Reply 1.1 clean under version 1.
const HELLO_AT_2: &str = "00000012 0502 [1] [9]";

const READ_AT_2: &str = "0000001e 0602 [1] [1] [0] 00000003";

const CLEAN_AT_2: &str = "0000001b 0702 [1] [1] 00 [1]";

// NoChunk 1.1 from 0: there is no such question.
const NO_QUESTION: &str = "0000001b 0301 [1] [1] [0] 01";

// Updated to version 2.
const UPDATED_2: &str = "0000000a 0801 [2]";

const GREETINGS: [Case<'static>; 8] = [
    Case {
        name: "at the other port, as what else comes there: it is passed over",
        limit: FULL,
        comes: &[HELLO_AT_2, HELLO, READ_AT_2, CLEAN_AT_2, READ, CLEAN],
        sends: &[SCAN, CHUNK],
        side: Side::Filter(End::Done, Told::Granted(1)),
    },
    Case {
        name: "of another volume: it is not connected, and no open is submitted",
        limit: FULL,
        comes: &[HELLO_OF_2, READ],
        sends: &[NO_QUESTION],
        side: Side::Filter(End::Closed, Told::Nothing),
    },
    Case {
        name: "of another volume, then of its own: the first one's version is not noted",
        limit: FULL,
        comes: &[HELLO_OF_2, HELLO, CLEAN],
        sends: &[SCAN],
        side: Side::Filter(End::Done, Told::Granted(1)),
    },
    Case {
        name: "twice",
        limit: FULL,
        comes: &[HELLO, HELLO, READ, HELLO, CLEAN],
        sends: &[SCAN, CHUNK],
        side: Side::Filter(End::Done, Told::Granted(1)),
    },
    Case {
        name: "again, under a later version or of another volume: neither version is noted",
        limit: FULL,
        comes: &[HELLO, HELLO_2, HELLO_OF_2, CLEAN],
        sends: &[SCAN],
        side: Side::Filter(End::Done, Told::Granted(1)),
    },
    Case {
        name: "under an older version than was told, then under that one",
        limit: FULL,
        // Hello, Reply 1.1 clean under version 2.
        comes: &[UPDATED_2, HELLO, HELLO_2, "0000001b 0701 [1] [1] 00 [2]"],
        sends: &[SCAN],
        side: Side::Filter(End::Done, Told::Granted(2)),
    },
    Case {
        name: "under an older version than was told, alone",
        limit: FULL,
        comes: &[UPDATED_2, HELLO],
        sends: &[],
        side: Side::Filter(End::Closed, Told::Nothing),
    },
    Case {
        name: "behind a Read and a Reply, and behind what only a filter sends",
        limit: FULL,
        comes: &[READ, CLEAN, SCAN, CHUNK, NO_QUESTION, ABORT, HELLO],
        sends: &[NO_QUESTION, SCAN],
        side: Side::Filter(End::Closed, LOST),
    },
];

const READS: [Case<'static>; 7] = [
    Case {
        name: "of a question that is not there, and of one of another boot",
        limit: FULL,
        // Read 1.2 of 3 bytes from 0; Read 2.1 of 1 byte from 5.
        comes: &[
            HELLO,
            "0000001e 0601 [1] [2] [0] 00000003",
            "0000001e 0601 [2] [1] [5] 00000001",
        ],
        // NoChunk 1.2 from 0, cause 1; NoChunk 2.1 from 5, cause 1.
        sends: &[
            SCAN,
            "0000001b 0301 [1] [2] [0] 01",
            "0000001b 0301 [2] [1] [5] 01",
        ],
        side: Side::Filter(End::Closed, LOST),
    },
    Case {
        name: "of a question that has ended",
        limit: FULL,
        comes: &[HELLO, UPDATED_2, CLEAN, READ],
        sends: &[SCAN, SCAN_2, NO_QUESTION],
        side: Side::Filter(End::Closed, LOST),
    },
    Case {
        name: "at the end, and far past it",
        limit: FULL,
        // Read 1.1 of 1 byte from 3; Read 1.1 of 4,096 bytes from 1,048,576.
        comes: &[
            HELLO,
            "0000001e 0601 [1] [1] [3] 00000001",
            "0000001e 0601 [1] [1] [1048576] 00001000",
        ],
        // NoChunk 1.1 from 3, cause 2; NoChunk 1.1 from 1,048,576, cause 2.
        sends: &[
            SCAN,
            "0000001b 0301 [1] [1] [3] 02",
            "0000001b 0301 [1] [1] [1048576] 02",
        ],
        side: Side::Filter(End::Closed, LOST),
    },
    Case {
        name: "of more than is left",
        limit: FULL,
        // Read 1.1 of 4,096 bytes from 2.
        comes: &[HELLO, "0000001e 0601 [1] [1] [2] 00001000"],
        // Chunk 1.1 from 2, `C`.
        sends: &[SCAN, "0000001b 0201 [1] [1] [2] 43"],
        side: Side::Filter(End::Closed, LOST),
    },
    Case {
        name: "of more than a chunk may have",
        limit: (LimitField::Chunk, 2),
        comes: &[HELLO, READ],
        // Chunk 1.1 from 0, `AB`.
        sends: &[SCAN, "0000001c 0201 [1] [1] [0] 4142"],
        side: Side::Filter(End::Closed, LOST),
    },
    Case {
        name: "twice, and backwards",
        limit: FULL,
        // Read 1.1 of 1 byte from 2.
        comes: &[
            HELLO,
            READ,
            READ,
            "0000001e 0601 [1] [1] [2] 00000001",
            READ,
        ],
        // Chunk 1.1 from 2, `C`.
        sends: &[SCAN, CHUNK, CHUNK, "0000001b 0201 [1] [1] [2] 43", CHUNK],
        side: Side::Filter(End::Closed, LOST),
    },
    Case {
        name: "behind what only a filter sends: the Abort has ended nothing",
        limit: FULL,
        comes: &[HELLO, SCAN, CHUNK, NO_QUESTION, ABORT, READ],
        sends: &[SCAN, CHUNK],
        side: Side::Filter(End::Closed, LOST),
    },
];

const REPLIES: [Case<'static>; 10] = [
    Case {
        name: "to a question that is not there, and to one of another boot",
        limit: FULL,
        // Reply 1.2 clean under version 1; 1.2 infected, signature 0 ends at 2; 2.1 failed, cause 1.
        comes: &[
            HELLO,
            "0000001b 0701 [1] [2] 00 [1]",
            "00000027 0701 [1] [2] 01 [1] 00000000 [2]",
            "00000014 0701 [2] [1] 02 01",
        ],
        sends: &[SCAN],
        side: Side::Filter(End::Closed, LOST),
    },
    Case {
        name: "of another version, a later one",
        limit: FULL,
        // Reply 1.1 clean under version 9.
        comes: &[HELLO, "0000001b 0701 [1] [1] 00 [9]"],
        sends: &[SCAN],
        side: Side::Filter(End::Done, Told::Granted(9)),
    },
    Case {
        name: "of another version, an older one: it is asked again",
        limit: FULL,
        // Reply 1.1 infected under version 1, signature 0 ends at 2.
        comes: &[HELLO_2, "00000027 0701 [1] [1] 01 [1] 00000000 [2]"],
        sends: &[SCAN, SCAN_2],
        side: Side::Filter(End::Closed, LOST),
    },
    Case {
        name: "twice: the second finds no waiter",
        limit: FULL,
        // Reply 1.2 clean under version 2.
        comes: &[HELLO_2, CLEAN, CLEAN, "0000001b 0701 [1] [2] 00 [2]"],
        sends: &[SCAN, SCAN_2],
        side: Side::Filter(End::Done, Told::Granted(2)),
    },
    Case {
        name: "of a version below one that was told",
        limit: FULL,
        comes: &[HELLO, UPDATED_2, CLEAN],
        sends: &[SCAN, SCAN_2],
        side: Side::Filter(End::Closed, LOST),
    },
    Case {
        name: "behind an older version that was told, which lowers nothing",
        limit: FULL,
        // Updated to version 1.
        comes: &[HELLO_2, "0000000a 0801 [1]", CLEAN],
        sends: &[SCAN, SCAN_2],
        side: Side::Filter(End::Closed, LOST),
    },
    Case {
        name: "that the scan failed: as many as may ran",
        limit: FULL,
        // Reply 1.1 failed, cause 1.
        comes: &[HELLO, "00000014 0701 [1] [1] 02 01"],
        sends: &[SCAN],
        side: Side::Filter(End::Done, Told::Denied(Cause::ScanFailed)),
    },
    Case {
        name: "that the scan failed: a chunk went past the length",
        limit: FULL,
        // Reply 1.1 failed, cause 2.
        comes: &[HELLO, "00000014 0701 [1] [1] 02 02"],
        sends: &[SCAN],
        side: Side::Filter(End::Done, Told::Denied(Cause::ScanFailed)),
    },
    Case {
        name: "infected past the end of the content, by the last signature that a set can have",
        limit: FULL,
        // Reply 1.1 infected under version 1, signature 1,023 ends at 1,048,576.
        comes: &[HELLO, "00000027 0701 [1] [1] 01 [1] 000003ff [1048576]"],
        sends: &[SCAN],
        side: Side::Filter(End::Done, Told::Denied(Cause::Infected)),
    },
    Case {
        name: "under an older version, nine times",
        limit: FULL,
        // Reply 1.1 to 1.9 clean under version 1.
        comes: &[
            HELLO_2,
            CLEAN,
            "0000001b 0701 [1] [2] 00 [1]",
            "0000001b 0701 [1] [3] 00 [1]",
            "0000001b 0701 [1] [4] 00 [1]",
            "0000001b 0701 [1] [5] 00 [1]",
            "0000001b 0701 [1] [6] 00 [1]",
            "0000001b 0701 [1] [7] 00 [1]",
            "0000001b 0701 [1] [8] 00 [1]",
            "0000001b 0701 [1] [9] 00 [1]",
        ],
        // Scan 1.1 to 1.9.
        sends: &[
            SCAN,
            SCAN_2,
            "0000002a 0101 [1] [3] [1] [2] [3]",
            "0000002a 0101 [1] [4] [1] [2] [3]",
            "0000002a 0101 [1] [5] [1] [2] [3]",
            "0000002a 0101 [1] [6] [1] [2] [3]",
            "0000002a 0101 [1] [7] [1] [2] [3]",
            "0000002a 0101 [1] [8] [1] [2] [3]",
            "0000002a 0101 [1] [9] [1] [2] [3]",
        ],
        side: Side::Filter(End::Done, Told::Denied(Cause::Unsettled)),
    },
];

#[test]
fn a_filter_is_greeted_once_by_its_own_service(rt: HostRuntime) -> Result<(), Fail> {
    assert_eq!(rt; first_wrong(rt.alloc(), &GREETINGS)?, None);
    Ok(())
}

#[test]
fn a_filter_gives_content_to_its_questions_alone(rt: HostRuntime) -> Result<(), Fail> {
    assert_eq!(rt; first_wrong(rt.alloc(), &READS)?, None);
    Ok(())
}

#[test]
fn a_filter_takes_replies_to_its_questions_alone(rt: HostRuntime) -> Result<(), Fail> {
    assert_eq!(rt; first_wrong(rt.alloc(), &REPLIES)?, None);
    Ok(())
}
