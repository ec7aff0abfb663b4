//! Exchanges as bytes: what a client sends, and what its door makes of it, as `write_down` has it.

use crate::door::Sending;
use crate::reply::{Failing, Spoken};

pub const ROWS: [(&[u8], &[u8]); 35] = [
    (b"", b"O"),
    (b"zPIN", b"O"),
    (b"zIDSESSION\0", b"O"),
    // A content in two pieces, in one, and none at all.
    (
        b"zINSTREAM\0\0\0\0\x03hel\0\0\0\x02lo\0\0\0\0",
        b"A0\0hello|D",
    ),
    (b"zINSTREAM\0\0\0\0\x03ABC\0\0\0\0", b"A0\0ABC|D"),
    (
        b"nINSTREAM\n\0\0\0\x03aXX\0\0\0\x03XXX\0\0\0\0",
        b"A0\naXXXXX|D",
    ),
    (b"zINSTREAM\0\0\0\0\0", b"A0\0|D"),
    (b"zINSTREAM\0\0\0\0\x03ABC\0\0\0", b"O"),
    // A command ends as its first byte says.
    (b"PING\n", b"SPONG\n|D"),
    (b"PING\r\n", b"SPONG\n|D"),
    (b"nPING\n", b"SPONG\n|D"),
    (b"zPING\0", b"SPONG\0|D"),
    (b"VERSION\n", b"SVizdroun 1\n|D"),
    (
        b"nVERSIONCOMMANDS\n",
        b"SVizdroun 1| COMMANDS: PING VERSION VERSIONCOMMANDS INSTREAM IDSESSION END\n|D",
    ),
    (b"zVERSION\0", b"SVizdroun 1\0|D"),
    (b"nPING\r\n", b"SUNKNOWN COMMAND\n|D"),
    (b"zPING\n\0", b"SUNKNOWN COMMAND\0|D"),
    (b"nPING\0\n", b"SUNKNOWN COMMAND\n|D"),
    // A session counts its commands.
    (
        b"zIDSESSION\0zPING\0zINSTREAM\0\0\0\0\x03one\0\0\0\0zINSTREAM\0\0\0\0\x03two\0\0\0\0nPING\nzEND\0",
        b"S1: PONG\0|A2\0one|A3\0two|S4: PONG\n|D",
    ),
    (
        b"nIDSESSION\nnPING\nnFOO\nnPING\n",
        b"S1: PONG\n|S2: Command invalid inside IDSESSION. ERROR\n|D",
    ),
    (
        b"nIDSESSION\nnIDSESSION\n",
        b"S1: Command invalid inside IDSESSION. ERROR\n|D",
    ),
    (
        b"nIDSESSION\nINSTREAM\n",
        b"S1: Command invalid inside IDSESSION. ERROR\n|D",
    ),
    // What is not served.
    (b"nFOO\n", b"SUNKNOWN COMMAND\n|D"),
    (b"zping\0", b"SUNKNOWN COMMAND\0|D"),
    (b"\n", b"SUNKNOWN COMMAND\n|D"),
    (b"z\0", b"SUNKNOWN COMMAND\0|D"),
    (b"INSTREAM\n", b"SUNKNOWN COMMAND\n|D"),
    (b"IDSESSION\n", b"SUNKNOWN COMMAND\n|D"),
    (b"zEND\0", b"SUNKNOWN COMMAND\0|D"),
    (b"zSHUTDOWN\0", b"SUNKNOWN COMMAND\0|D"),
    (b"zRELOAD\0", b"SUNKNOWN COMMAND\0|D"),
    (b"zFILDES\0", b"SUNKNOWN COMMAND\0|D"),
    // Paths.
    (
        b"zSCAN /etc/hostname\0",
        b"S/etc/hostname: no path is read here, send the content (INSTREAM). ERROR\0|D",
    ),
    (
        b"zIDSESSION\0nCONTSCAN /a b\nzMULTISCAN /c\0zALLMATCHSCAN /d\0",
        b"S1: /a b: no path is read here, send the content (INSTREAM). ERROR\n|S2: /c: no path is read here, send the content (INSTREAM). ERROR\0|S3: /d: no path is read here, send the content (INSTREAM). ERROR\0|O",
    ),
    (b"zSCAN \0", b"SUNKNOWN COMMAND\0|D"),
];

// What a door that takes paths makes of them.
pub const PATHS: [(&[u8], &[u8]); 9] = [
    (b"zSCAN /etc/hostname\0", b"P0\0F/etc/hostname|D"),
    (b"nCONTSCAN /a b\n", b"P0\nM/a b|D"),
    (b"MULTISCAN /a\r\n", b"P0\nM/a|D"),
    (
        b"zIDSESSION\0nSCAN /a\nzMULTISCAN c\0zALLMATCHSCAN /d\0zEND\0",
        b"P1\nF/a|P2\0Mc|P3\0M/d|D",
    ),
    (b"zSCAN /a\nb\0", b"P0\0F/a\nb|D"),
    (b"zSCAN \0", b"SUNKNOWN COMMAND\0|D"),
    (b"zSCANS /a\0", b"SUNKNOWN COMMAND\0|D"),
    (b"zPING\0", b"SPONG\0|D"),
    (
        b"zVERSIONCOMMANDS\0",
        b"SVizdroun 1| COMMANDS: SCAN CONTSCAN MULTISCAN ALLMATCHSCAN PING VERSION VERSIONCOMMANDS INSTREAM IDSESSION END\0|D",
    ),
];

// A command's number and end, its path, a verdict, and the reply behind a byte.
pub const PATH_REPLIES: [(u64, u8, &[u8], Spoken<'static>, &[u8]); 9] = [
    (0, 0, b"/a", Spoken::Clean, b"</a: OK\0"),
    (7, b'\n', b"/a b", Spoken::Clean, b"<7: /a b: OK\n"),
    (0, 0, b"/a", Spoken::Infected, b"</a: infected FOUND\0"),
    (0, 0, b"/a", Spoken::Found(b"Eicar"), b"</a: Eicar FOUND\0"),
    (
        0,
        0,
        b"/a",
        Spoken::NoVerdict { cause: 12 },
        b"</a: no verdict, cause 12. ERROR\0",
    ),
    (
        0,
        0,
        b"",
        Spoken::Failed(Failing::NotBelow),
        b"<: File path check failure: not below a folder of --below. ERROR\0",
    ),
    (
        0,
        0,
        b"/a",
        Spoken::Failed(Failing::Unreadable),
        b"</a: cannot read. ERROR\0",
    ),
    (
        0,
        0,
        b"/a",
        Spoken::Failed(Failing::NoAnswer),
        b"</a: no answer of the guard. ERROR\0",
    ),
    (
        0,
        0,
        b"/a",
        Spoken::Failed(Failing::NoMemory),
        b"</a: no memory. ERROR\0",
    ),
];

// Bytes of a long exchange, each time with so many zeros behind them.
pub type Runs = &'static [(&'static [u8], usize)];

// Long exchanges: whether contents go in parts, what a client sends, and what its door makes of it.
pub const LONG: [(Sending, Runs, Runs); 10] = [
    // 65,536 bytes are small.
    (
        Sending::InParts,
        &[(b"zINSTREAM\0\0\x01\0\0", 65_536), (b"\0\0\0\0", 0)],
        &[(b"A0\0", 65_536), (b"|D", 0)],
    ),
    (
        Sending::InParts,
        &[
            (b"zINSTREAM\0\0\0\xff\xff", 65_535),
            (b"\0\0\0\x01a\0\0\0\0", 0),
        ],
        &[(b"A0\0", 65_535), (b"a|D", 0)],
    ),
    // 65,537 go in parts.
    (
        Sending::InParts,
        &[(b"zINSTREAM\0\0\x01\0\x01", 65_537), (b"\0\0\0\0", 0)],
        &[(b"B0\0/", 65_537), (b"|D", 0)],
    ),
    (
        Sending::InParts,
        &[
            (b"zINSTREAM\0\0\0\xff\xff", 65_535),
            (b"\0\0\0\x02ab\0\0\0\0", 0),
        ],
        &[(b"B0\0", 65_535), (b"/ab|D", 0)],
    ),
    (
        Sending::InParts,
        &[
            (b"zINSTREAM\0\0\x01\0\0", 65_536),
            (b"\0\0\0\x03ABC\0\0\0\0", 0),
        ],
        &[(b"B0\0", 65_536), (b"/ABC|D", 0)],
    ),
    // A piece of two mebibytes.
    (
        Sending::InParts,
        &[(b"nINSTREAM\n\0\x20\0\0", 2_097_152), (b"\0\0\0\0", 0)],
        &[(b"B0\n/", 2_097_152), (b"|D", 0)],
    ),
    // Commands behind a content in parts, within a session.
    (
        Sending::InParts,
        &[
            (b"zIDSESSION\0zINSTREAM\0\0\x01\0\0", 65_536),
            (b"\0\0\x11\x70", 4_464),
            (b"\0\0\0\0zINSTREAM\0\0\0\0\x03two\0\0\0\0zPING\0zEND\0", 0),
        ],
        &[
            (b"B1\0", 65_536),
            (b"/", 4_464),
            (b"|A2\0two|S3: PONG\0|D", 0),
        ],
    ),
    // A content that has not ended; a piece has up to 4,294,967,295 bytes.
    (
        Sending::InParts,
        &[(b"zINSTREAM\0\0\0\0\x01a\xff\xff\xff\xffxyz", 70_000)],
        &[(b"B0\0a/xyz", 70_000), (b"O", 0)],
    ),
    // Contents that go whole.
    (
        Sending::Whole,
        &[
            (b"zINSTREAM\0\0\x01\0\0", 65_536),
            (b"\0\0\x86\xa0", 34_464),
            (b"\0\0\0\0", 0),
        ],
        &[(b"A0\0", 100_000), (b"|D", 0)],
    ),
    (
        Sending::Whole,
        &[
            (b"zINSTREAM\0\0\x0f\0\0", 983_040),
            (b"\0\x01\0\0", 65_536),
            (b"\0\0\0\x01x\0\0\0\0", 0),
        ],
        &[(b"Sstream: INSTREAM size limit exceeded. ERROR\0|D", 0)],
    ),
];

// A command's number and end, a verdict, and its reply behind a mark.
pub const REPLIES: [(u64, u8, Spoken<'static>, &[u8]); 11] = [
    (0, 0, Spoken::Clean, b"<stream: OK\0"),
    (2, 0, Spoken::Clean, b"<2: stream: OK\0"),
    (0, 0, Spoken::Found(b"Test.X"), b"<stream: Test.X FOUND\0"),
    (0, 10, Spoken::Found(b"Test.X"), b"<stream: Test.X FOUND\n"),
    (
        3,
        0,
        Spoken::Found(b"Test.X"),
        b"<3: stream: Test.X FOUND\0",
    ),
    (
        0,
        0,
        Spoken::FoundAt {
            index: 0,
            version: 8,
        },
        b"<stream: signature-0-of-version-8 FOUND\0",
    ),
    (
        0,
        0,
        Spoken::NoVerdict { cause: 3 },
        b"<stream: no verdict, cause 3. ERROR\0",
    ),
    (
        0,
        0,
        Spoken::NoVerdict { cause: 6 },
        b"<stream: no verdict, cause 6. ERROR\0",
    ),
    (
        18446744073709551615,
        10,
        Spoken::NoVerdict { cause: 10 },
        b"<18446744073709551615: stream: no verdict, cause 10. ERROR\n",
    ),
    (
        0,
        10,
        Spoken::TooLarge,
        b"<stream: INSTREAM size limit exceeded. ERROR\n",
    ),
    (
        12,
        0,
        Spoken::TooLarge,
        b"<12: stream: INSTREAM size limit exceeded. ERROR\0",
    ),
];
