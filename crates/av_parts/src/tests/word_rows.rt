use crate::fault::WordFault;
use crate::tests::words::{Row, Wanted};

// What a service sends, what is heard of it, and the fault at its end.
pub const ROWS: [Row<'static>; 36] = [
    Row {
        name: "a greeting",
        frames: &["0000000a14010000000000000001"],
        said: &[Wanted::Hello(1)],
        fault: None,
    },
    Row {
        name: "a verdict before the greeting",
        frames: &["0000000b1500000000000000010201"],
        said: &[],
        fault: Some(WordFault::Greeting),
    },
    Row {
        name: "another format",
        frames: &["0000000a14020000000000000001"],
        said: &[],
        fault: Some(WordFault::Format),
    },
    Row {
        name: "format 0",
        frames: &["0000000a14000000000000000001"],
        said: &[],
        fault: Some(WordFault::Format),
    },
    Row {
        name: "a greeting of version 0",
        frames: &["0000000a14010000000000000000"],
        said: &[],
        fault: Some(WordFault::Range),
    },
    Row {
        name: "the greatest version",
        frames: &["0000000a1401ffffffffffffffff"],
        said: &[Wanted::Hello(18_446_744_073_709_551_615)],
        fault: None,
    },
    Row {
        name: "a greeting with a byte more",
        frames: &["0000000b1401000000000000000100"],
        said: &[],
        fault: Some(WordFault::Shape),
    },
    Row {
        name: "a second greeting",
        frames: &[
            "0000000a14010000000000000001",
            "0000000a14010000000000000001",
        ],
        said: &[Wanted::Hello(1)],
        fault: Some(WordFault::Greeting),
    },
    Row {
        name: "clean",
        frames: &[
            "0000000a14010000000000000001",
            "0000001a1500000000000000010000000000000000010000000000000004",
        ],
        said: &[Wanted::Hello(1), Wanted::Clean(1, 1, 4)],
        fault: None,
    },
    Row {
        name: "a verdict twice",
        frames: &[
            "0000000a14010000000000000001",
            "0000001a1500000000000000010000000000000000010000000000000004",
            "0000001a1500000000000000010000000000000000010000000000000004",
            "0000001e150000000000000001010000000000000001000000000000000000000001",
            "0000000b1500000000000000010202",
        ],
        said: &[
            Wanted::Hello(1),
            Wanted::Clean(1, 1, 4),
            Wanted::Clean(1, 1, 4),
            Wanted::Infected(1, 1, 0, 1),
            Wanted::Newer(1),
        ],
        fault: None,
    },
    Row {
        name: "fields that differ",
        frames: &[
            "0000000a14010000000000000001",
            "0000001a1501020304050607080011121314151617182122232425262728",
            "0000001e150102030405060708011112131415161718000003ff2122232425262728",
            "0000000b1501020304050607080201",
        ],
        said: &[
            Wanted::Hello(1),
            Wanted::Clean(
                72_623_859_790_382_856,
                1_230_066_625_199_609_624,
                2_387_509_390_608_836_392,
            ),
            Wanted::Infected(
                72_623_859_790_382_856,
                1_230_066_625_199_609_624,
                1_023,
                2_387_509_390_608_836_392,
            ),
            Wanted::Full(72_623_859_790_382_856),
        ],
        fault: None,
    },
    Row {
        name: "an empty content is clean",
        frames: &[
            "0000000a14010000000000000001",
            "0000001a1500000000000000010000000000000000010000000000000000",
        ],
        said: &[Wanted::Hello(1), Wanted::Clean(1, 1, 0)],
        fault: None,
    },
    Row {
        name: "clean with a byte more",
        frames: &[
            "0000000a14010000000000000001",
            "0000001b150000000000000001000000000000000001000000000000000400",
        ],
        said: &[Wanted::Hello(1)],
        fault: Some(WordFault::Shape),
    },
    Row {
        name: "clean with fewer bytes",
        frames: &[
            "0000000a14010000000000000001",
            "00000012150000000000000001000000000000000001",
        ],
        said: &[Wanted::Hello(1)],
        fault: Some(WordFault::Shape),
    },
    Row {
        name: "clean under version 0",
        frames: &[
            "0000000a14010000000000000001",
            "0000001a1500000000000000010000000000000000000000000000000004",
        ],
        said: &[Wanted::Hello(1)],
        fault: Some(WordFault::Range),
    },
    Row {
        name: "clean of number 0",
        frames: &[
            "0000000a14010000000000000001",
            "0000001a1500000000000000000000000000000000010000000000000004",
        ],
        said: &[Wanted::Hello(1)],
        fault: Some(WordFault::Range),
    },
    Row {
        name: "an end at 0",
        frames: &[
            "0000000a14010000000000000001",
            "0000001e150000000000000001010000000000000001000000000000000000000000",
        ],
        said: &[Wanted::Hello(1)],
        fault: Some(WordFault::Range),
    },
    Row {
        name: "index 1024",
        frames: &[
            "0000000a14010000000000000001",
            "0000001e150000000000000001010000000000000001000004000000000000000001",
        ],
        said: &[Wanted::Hello(1)],
        fault: Some(WordFault::Range),
    },
    Row {
        name: "infected under version 0",
        frames: &[
            "0000000a14010000000000000001",
            "0000001e150000000000000001010000000000000000000000000000000000000001",
        ],
        said: &[Wanted::Hello(1)],
        fault: Some(WordFault::Range),
    },
    Row {
        name: "infected of number 0",
        frames: &[
            "0000000a14010000000000000001",
            "0000001e150000000000000000010000000000000001000000000000000000000001",
        ],
        said: &[Wanted::Hello(1)],
        fault: Some(WordFault::Range),
    },
    Row {
        name: "infected with a byte less",
        frames: &[
            "0000000a14010000000000000001",
            "0000001d1500000000000000010100000000000000010000000000000000000000",
        ],
        said: &[Wanted::Hello(1)],
        fault: Some(WordFault::Shape),
    },
    Row {
        name: "no verdict of number 0",
        frames: &[
            "0000000a14010000000000000001",
            "0000000b1500000000000000000201",
        ],
        said: &[Wanted::Hello(1)],
        fault: Some(WordFault::Range),
    },
    Row {
        name: "cause 0",
        frames: &[
            "0000000a14010000000000000001",
            "0000000b1500000000000000010200",
        ],
        said: &[Wanted::Hello(1)],
        fault: Some(WordFault::Range),
    },
    Row {
        name: "cause 3",
        frames: &[
            "0000000a14010000000000000001",
            "0000000b1500000000000000010203",
        ],
        said: &[Wanted::Hello(1)],
        fault: Some(WordFault::Range),
    },
    Row {
        name: "no verdict with a byte more",
        frames: &[
            "0000000a14010000000000000001",
            "0000000c150000000000000001020100",
        ],
        said: &[Wanted::Hello(1)],
        fault: Some(WordFault::Shape),
    },
    Row {
        name: "no verdict without a cause",
        frames: &[
            "0000000a14010000000000000001",
            "0000000a15000000000000000102",
        ],
        said: &[Wanted::Hello(1)],
        fault: Some(WordFault::Shape),
    },
    Row {
        name: "status 3",
        frames: &[
            "0000000a14010000000000000001",
            "0000000b1500000000000000010301",
        ],
        said: &[Wanted::Hello(1)],
        fault: Some(WordFault::Status),
    },
    Row {
        name: "a length above",
        frames: &["0000000a14010000000000000001", "0000001f"],
        said: &[Wanted::Hello(1)],
        fault: Some(WordFault::Length),
    },
    Row {
        name: "a length below",
        frames: &["0000000a14010000000000000001", "00000009"],
        said: &[Wanted::Hello(1)],
        fault: Some(WordFault::Length),
    },
    Row {
        name: "a length of 0",
        frames: &["00000000"],
        said: &[],
        fault: Some(WordFault::Length),
    },
    Row {
        name: "a frame of the first connection",
        frames: &["0000000a14010000000000000001", "0000001205"],
        said: &[Wanted::Hello(1)],
        fault: Some(WordFault::Kind),
    },
    Row {
        name: "a kind of the guard",
        frames: &["0000000a14010000000000000001", "0000000a10"],
        said: &[Wanted::Hello(1)],
        fault: Some(WordFault::Kind),
    },
    Row {
        name: "kind 22",
        frames: &["0000000a14010000000000000001", "0000000b16"],
        said: &[Wanted::Hello(1)],
        fault: Some(WordFault::Kind),
    },
    Row {
        name: "kind 19 before the greeting",
        frames: &["0000000a13"],
        said: &[],
        fault: Some(WordFault::Kind),
    },
    Row {
        name: "nothing behind a fault",
        frames: &[
            "0000000a14010000000000000001",
            "0000000b1500000000000000010203",
            "0000001a1500000000000000010000000000000000010000000000000004",
        ],
        said: &[Wanted::Hello(1)],
        fault: Some(WordFault::Range),
    },
    Row {
        name: "a frame that is not whole",
        frames: &[
            "0000000a14010000000000000001",
            "0000001a15000000000000000100000000000000000100000000000000",
        ],
        said: &[Wanted::Hello(1)],
        fault: None,
    },
];
