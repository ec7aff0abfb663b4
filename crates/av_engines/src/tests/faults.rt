// Frames that spell no message: either engine ends with Frame, has sent what went before, and reads nothing behind them.
use crate::tests::cases::{Case, FULL, Side, holds};
use crate::tests::frames::{CHUNK, CLEAN, HELLO, READ, SCAN};
use crate::tests::told::{LOST, Told};
use av_frame::End;
use std::alloc::Global;
use std::test::Fail;

const FAULTS: [&str; 33] = [
    // No body, a longer one than there is, and the kinds 0 and 9.
    "00000000",
    "0000101b",
    "00000001 00",
    "00000001 09",
    // The ports 0 and 3 of a Hello, and of a Scan.
    "00000012 0500 [1] [1]",
    "00000012 0503 [1] [1]",
    "0000002a 0100 [1] [1] [1] [2] [3]",
    "0000002a 0103 [1] [1] [1] [2] [3]",
    // Scan of a byte too many; of the boots, numbers, streams and generations 0; of generation 2^48; of 1,048,577 bytes.
    "0000002b 0101 [1] [1] [1] [2] [3] 00",
    "0000002a 0101 [0] [1] [1] [2] [3]",
    "0000002a 0101 [1] [0] [1] [2] [3]",
    "0000002a 0101 [1] [1] [0] [2] [3]",
    "0000002a 0101 [1] [1] [1] [0] [3]",
    "0000002a 0101 [1] [1] [1] [281474976710656] [3]",
    "0000002a 0101 [1] [1] [1] [2] [1048577]",
    // Chunk of no byte, and one that ends past 1,048,576.
    "0000001a 0201 [1] [1] [0]",
    "0000001b 0201 [1] [1] [1048576] 41",
    // NoChunk of the causes 0 and 3.
    "0000001b 0301 [1] [1] [0] 00",
    "0000001b 0301 [1] [1] [0] 03",
    // Abort of a byte too few.
    "00000011 0401 [1] 00000000000000",
    // Hello and Updated of version 0.
    "00000012 0501 [1] [0]",
    "0000000a 0801 [0]",
    // Read of 0 bytes, of 4,097, and from 1,048,577.
    "0000001e 0601 [1] [1] [0] 00000000",
    "0000001e 0601 [1] [1] [0] 00001001",
    "0000001e 0601 [1] [1] [1048577] 00000001",
    // Reply of the statuses 3 and 255; clean under version 0, and with a byte too many.
    "0000001b 0701 [1] [1] 03 [1]",
    "0000001b 0701 [1] [1] ff [1]",
    "0000001b 0701 [1] [1] 00 [0]",
    "0000001c 0701 [1] [1] 00 [1] 00",
    // Reply infected by signature 1,024, and at the end 0; failed for the causes 0 and 3.
    "00000027 0701 [1] [1] 01 [1] 00000400 [1]",
    "00000027 0701 [1] [1] 01 [1] 00000000 [0]",
    "00000014 0701 [1] [1] 02 00",
    "00000014 0701 [1] [1] 02 03",
];

#[test]
fn a_frame_of_no_message_ends_an_engine(rt: HostRuntime) -> Result<(), Fail> {
    assert_eq!(rt; first_read_on(rt.alloc(), &FAULTS)?, None);
    Ok(())
}

// The first of these behind which an engine reads on.
fn first_read_on<'a>(alloc: Global, faults: &[&'a str]) -> Result<Option<&'a str>, Fail> {
    for fault in faults {
        if !(ends_a_filter(alloc, fault)? && ends_a_service(alloc, fault)?) {
            return Ok(Some(*fault));
        }
    }
    Ok(None)
}

// Before its greeting, and behind it.
fn ends_a_filter(alloc: Global, fault: &str) -> Result<bool, Fail> {
    let first = Case {
        name: fault,
        limit: FULL,
        comes: &[fault, HELLO],
        sends: &[],
        side: Side::Filter(End::Frame, Told::Nothing),
    };
    let later = Case {
        comes: &[HELLO, fault, CLEAN],
        sends: &[SCAN],
        side: Side::Filter(End::Frame, LOST),
        ..first
    };
    Ok(holds(alloc, &first)? && holds(alloc, &later)?)
}

// Before its first scan, and behind it.
fn ends_a_service(alloc: Global, fault: &str) -> Result<bool, Fail> {
    let first = Case {
        name: fault,
        limit: FULL,
        comes: &[fault, SCAN],
        sends: &[HELLO],
        side: Side::Service(End::Frame),
    };
    let later = Case {
        comes: &[SCAN, fault, CHUNK],
        sends: &[HELLO, READ],
        ..first
    };
    Ok(holds(alloc, &first)? && holds(alloc, &later)?)
}
