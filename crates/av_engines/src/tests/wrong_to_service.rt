// What comes to a service under version 1, whose one signature is `XX`, at a moment or with fields at which it means nothing.
use crate::tests::cases::{Case, FULL, Side, first_wrong};
use crate::tests::frames::{ABORT, CHUNK, CLEAN, HELLO, READ, SCAN, SCAN_2};
use av_base::LimitField;
use av_frame::End;
use std::test::Fail;

// Scan 1.2 of stream 2, generation 2, 3 bytes.
const SCAN_OF_2: &str = "0000002a 0101 [1] [2] [2] [2] [3]";

// Read 1.2 of 3 bytes from 0.
const READ_2: &str = "0000001e 0601 [1] [2] [0] 00000003";

// Chunk 1.2 from 0, `ABC`.
const CHUNK_2: &str = "0000001d 0201 [1] [2] [0] 414243";

// Reply 1.2 clean under version 1.
const CLEAN_2: &str = "0000001b 0701 [1] [2] 00 [1]";

const SCANS: [Case<'static>; 9] = [
    Case {
        name: "again while it runs, of another content",
        limit: FULL,
        // Scan 1.1 of stream 2, generation 3, 9 bytes.
        comes: &[SCAN, "0000002a 0101 [1] [1] [2] [3] [9]", CHUNK],
        sends: &[HELLO, READ, CLEAN],
        side: Side::Service(End::Closed),
    },
    Case {
        name: "again behind its answer, and of another question: the cache answers",
        limit: FULL,
        comes: &[SCAN, CHUNK, SCAN, SCAN_2],
        sends: &[HELLO, READ, CLEAN, CLEAN, CLEAN_2],
        side: Side::Service(End::Closed),
    },
    Case {
        name: "of the next generation of what was judged",
        limit: FULL,
        // Scan 1.2 of stream 1, generation 3, 3 bytes.
        comes: &[SCAN, CHUNK, "0000002a 0101 [1] [2] [1] [3] [3]"],
        sends: &[HELLO, READ, CLEAN, READ_2],
        side: Side::Service(End::Closed),
    },
    Case {
        name: "of a content that another question is about: each runs",
        limit: FULL,
        comes: &[SCAN, SCAN_2, CHUNK_2, CHUNK],
        sends: &[HELLO, READ, READ_2, CLEAN_2, CLEAN],
        side: Side::Service(End::Closed),
    },
    Case {
        name: "of a content without bytes: there is no job, and none comes back",
        limit: FULL,
        // Scan 1.1 of stream 1, generation 2, no byte.
        comes: &["0000002a 0101 [1] [1] [1] [2] [0]", CHUNK, ABORT],
        sends: &[HELLO, CLEAN],
        side: Side::Service(End::Closed),
    },
    Case {
        name: "more than may run, one of them without bytes, and a repeat of the one that runs",
        limit: (LimitField::Jobs, 1),
        // Scan 1.3 of stream 3, generation 1, no byte.
        comes: &[
            SCAN,
            SCAN_OF_2,
            "0000002a 0101 [1] [3] [3] [1] [0]",
            SCAN,
            CHUNK,
            SCAN_OF_2,
        ],
        // Reply 1.2 failed, cause 1; Reply 1.3 failed, cause 1.
        sends: &[
            HELLO,
            READ,
            "00000014 0701 [1] [2] 02 01",
            "00000014 0701 [1] [3] 02 01",
            CLEAN,
            READ_2,
        ],
        side: Side::Service(End::Closed),
    },
    Case {
        name: "more than may run, of a content that was judged",
        limit: (LimitField::Jobs, 1),
        // Scan 1.3 of stream 1, generation 2, 3 bytes.
        comes: &[SCAN, CHUNK, SCAN_OF_2, "0000002a 0101 [1] [3] [1] [2] [3]"],
        // Reply 1.3 clean under version 1.
        sends: &[HELLO, READ, CLEAN, READ_2, "0000001b 0701 [1] [3] 00 [1]"],
        side: Side::Service(End::Closed),
    },
    Case {
        name: "more than may run, of a content without bytes that was answered",
        limit: (LimitField::Jobs, 1),
        // Scan 1.1 of stream 1, generation 2, no byte; Scan 1.3 of the same.
        comes: &[
            "0000002a 0101 [1] [1] [1] [2] [0]",
            SCAN_OF_2,
            "0000002a 0101 [1] [3] [1] [2] [0]",
        ],
        // Reply 1.3 clean under version 1.
        sends: &[HELLO, CLEAN, READ_2, "0000001b 0701 [1] [3] 00 [1]"],
        side: Side::Service(End::Closed),
    },
    Case {
        name: "of the longest content",
        limit: FULL,
        // Scan 1.1 of stream 1, generation 2, 1,048,576 bytes.
        comes: &["0000002a 0101 [1] [1] [1] [2] [1048576]"],
        // Read 1.1 of 4,096 bytes from 0.
        sends: &[HELLO, "0000001e 0601 [1] [1] [0] 00001000"],
        side: Side::Service(End::Closed),
    },
];

const CHUNKS: [Case<'static>; 7] = [
    Case {
        name: "of no job, and of a question of another boot",
        limit: FULL,
        // Chunk 2.1 from 0, `ABC`.
        comes: &[
            CHUNK,
            SCAN,
            CHUNK_2,
            "0000001d 0201 [2] [1] [0] 414243",
            CHUNK,
        ],
        sends: &[HELLO, READ, CLEAN],
        side: Side::Service(End::Closed),
    },
    Case {
        name: "at a wrong offset, before the end and at it",
        limit: FULL,
        // Chunk 1.1 from 1, `BC`; Chunk 1.1 from 3, `D`.
        comes: &[
            SCAN,
            "0000001c 0201 [1] [1] [1] 4243",
            "0000001b 0201 [1] [1] [3] 44",
            CHUNK,
        ],
        sends: &[HELLO, READ, CLEAN],
        side: Side::Service(End::Closed),
    },
    Case {
        name: "shorter than was asked for, and again",
        limit: FULL,
        // Chunk 1.1 from 0, `A`, twice; Chunk 1.1 from 1, `BC`.
        comes: &[
            SCAN,
            "0000001b 0201 [1] [1] [0] 41",
            "0000001b 0201 [1] [1] [0] 41",
            CHUNK,
            "0000001c 0201 [1] [1] [1] 4243",
        ],
        // Read 1.1 of 2 bytes from 1.
        sends: &[HELLO, READ, "0000001e 0601 [1] [1] [1] 00000002", CLEAN],
        side: Side::Service(End::Closed),
    },
    Case {
        name: "longer than was asked for, and not past the length",
        limit: (LimitField::Chunk, 1),
        // Chunk 1.1 from 0, `AB`; Chunk 1.1 from 2, `C`.
        comes: &[
            SCAN,
            "0000001c 0201 [1] [1] [0] 4142",
            "0000001b 0201 [1] [1] [2] 43",
        ],
        // Read 1.1 of 1 byte from 0; Read 1.1 of 1 byte from 2.
        sends: &[
            HELLO,
            "0000001e 0601 [1] [1] [0] 00000001",
            "0000001e 0601 [1] [1] [2] 00000001",
            CLEAN,
        ],
        side: Side::Service(End::Closed),
    },
    Case {
        name: "past the length behind others: the job is gone, and may begin anew",
        limit: FULL,
        // Chunk 1.1 from 0, `AB`; from 2, `CD`; from 2, `C`.
        comes: &[
            SCAN,
            "0000001c 0201 [1] [1] [0] 4142",
            "0000001c 0201 [1] [1] [2] 4344",
            "0000001b 0201 [1] [1] [2] 43",
            SCAN,
        ],
        // Read 1.1 of 1 byte from 2; Reply 1.1 failed, cause 2.
        sends: &[
            HELLO,
            READ,
            "0000001e 0601 [1] [1] [2] 00000001",
            "00000014 0701 [1] [1] 02 02",
            READ,
        ],
        side: Side::Service(End::Closed),
    },
    Case {
        name: "behind a hit, which ends the job and stays in the cache",
        limit: FULL,
        // Chunk 1.1 from 0, `XX`; Chunk 1.1 from 2, `C`.
        comes: &[
            SCAN,
            "0000001c 0201 [1] [1] [0] 5858",
            "0000001b 0201 [1] [1] [2] 43",
            SCAN,
            SCAN_2,
        ],
        // Reply 1.1 infected under version 1, signature 0 ends at 2, twice; Reply 1.2 the same.
        sends: &[
            HELLO,
            READ,
            "00000027 0701 [1] [1] 01 [1] 00000000 [2]",
            "00000027 0701 [1] [1] 01 [1] 00000000 [2]",
            "00000027 0701 [1] [2] 01 [1] 00000000 [2]",
        ],
        side: Side::Service(End::Closed),
    },
    Case {
        name: "whose hit begins in the one before, with a wrong one between",
        limit: FULL,
        // Chunk 1.1 from 0, `AX`; from 1, `XX`; from 2, `X`.
        comes: &[
            SCAN,
            "0000001c 0201 [1] [1] [0] 4158",
            "0000001c 0201 [1] [1] [1] 5858",
            "0000001b 0201 [1] [1] [2] 58",
        ],
        // Read 1.1 of 1 byte from 2; Reply 1.1 infected under version 1, signature 0 ends at 3.
        sends: &[
            HELLO,
            READ,
            "0000001e 0601 [1] [1] [2] 00000001",
            "00000027 0701 [1] [1] 01 [1] 00000000 [3]",
        ],
        side: Side::Service(End::Closed),
    },
];

const ENDS: [Case<'static>; 5] = [
    Case {
        name: "a NoChunk of no job, and one of a question of another boot",
        limit: FULL,
        // NoChunk 1.1 from 0, cause 1, before its Scan; NoChunk 1.2 from 0, cause 1; NoChunk 2.1 from 0, cause 2.
        comes: &[
            "0000001b 0301 [1] [1] [0] 01",
            SCAN,
            "0000001b 0301 [1] [2] [0] 01",
            "0000001b 0301 [2] [1] [0] 02",
            CHUNK,
        ],
        sends: &[HELLO, READ, CLEAN],
        side: Side::Service(End::Closed),
    },
    Case {
        name: "a NoChunk of a job, from an offset that was not asked for",
        limit: FULL,
        // NoChunk 1.1 from 1,048,576, cause 2.
        comes: &[
            SCAN,
            "0000001b 0301 [1] [1] [1048576] 02",
            CHUNK,
            SCAN,
            CHUNK,
        ],
        sends: &[HELLO, READ, READ, CLEAN],
        side: Side::Service(End::Closed),
    },
    Case {
        name: "an Abort of no job, and one of a question of another boot",
        limit: FULL,
        // Abort 1.2; Abort 2.1.
        comes: &[
            ABORT,
            SCAN,
            "00000012 0401 [1] [2]",
            "00000012 0401 [2] [1]",
            CHUNK,
            ABORT,
        ],
        sends: &[HELLO, READ, CLEAN],
        side: Side::Service(End::Closed),
    },
    Case {
        name: "an Abort of one of two jobs, twice",
        limit: FULL,
        comes: &[SCAN, SCAN_OF_2, ABORT, ABORT, CHUNK, CHUNK_2, SCAN],
        sends: &[HELLO, READ, READ_2, CLEAN_2, READ],
        side: Side::Service(End::Closed),
    },
    Case {
        name: "what only a service sends: its version and its job stay",
        limit: FULL,
        // Updated to version 9; Reply 1.1 failed, cause 1.
        comes: &[
            HELLO,
            READ,
            CLEAN,
            SCAN,
            HELLO,
            READ,
            CLEAN,
            "0000000a 0801 [9]",
            "00000014 0701 [1] [1] 02 01",
            CHUNK,
        ],
        sends: &[HELLO, READ, CLEAN],
        side: Side::Service(End::Closed),
    },
];

#[test]
fn a_service_begins_a_scan_once(rt: HostRuntime) -> Result<(), Fail> {
    assert_eq!(rt; first_wrong(rt.alloc(), &SCANS)?, None);
    Ok(())
}

#[test]
fn a_service_takes_the_content_that_comes_next_alone(rt: HostRuntime) -> Result<(), Fail> {
    assert_eq!(rt; first_wrong(rt.alloc(), &CHUNKS)?, None);
    Ok(())
}

#[test]
fn a_service_ends_the_scan_that_is_named_alone(rt: HostRuntime) -> Result<(), Fail> {
    assert_eq!(rt; first_wrong(rt.alloc(), &ENDS)?, None);
    Ok(())
}
