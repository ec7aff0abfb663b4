// The frames of the worked run of both engines, as their bytes, and frames as texts.

// Hello of volume 1 and version 1, Read 1.1 of 3 bytes from 0, Reply 1.1 clean under version 1.
pub const UP: [u8; 87] = [
    0, 0, 0, 18, 5, 1, 0, 0, 0, 0, 0, 0, 0, 1, 0, 0, 0, 0, 0, 0, 0, 1, 0, 0, 0, 30, 6, 1, 0, 0, 0,
    0, 0, 0, 0, 1, 0, 0, 0, 0, 0, 0, 0, 1, 0, 0, 0, 0, 0, 0, 0, 0, 0, 0, 0, 3, 0, 0, 0, 27, 7, 1,
    0, 0, 0, 0, 0, 0, 0, 1, 0, 0, 0, 0, 0, 0, 0, 1, 0, 0, 0, 0, 0, 0, 0, 0, 1,
];

// Scan 1.1 of stream 1, generation 2, 3 bytes; Chunk 1.1 from 0, `ABC`.
pub const DOWN: [u8; 79] = [
    0, 0, 0, 42, 1, 1, 0, 0, 0, 0, 0, 0, 0, 1, 0, 0, 0, 0, 0, 0, 0, 1, 0, 0, 0, 0, 0, 0, 0, 1, 0,
    0, 0, 0, 0, 0, 0, 2, 0, 0, 0, 0, 0, 0, 0, 3, 0, 0, 0, 29, 2, 1, 0, 0, 0, 0, 0, 0, 0, 1, 0, 0,
    0, 0, 0, 0, 0, 1, 0, 0, 0, 0, 0, 0, 0, 0, 65, 66, 67,
];

// Hello of volume 1 and version 1.
pub const HELLO: &str = "00000012 0501 [1] [1]";

// Scan 1.1 of stream 1, generation 2, 3 bytes.
pub const SCAN: &str = "0000002a 0101 [1] [1] [1] [2] [3]";

// Scan 1.2 of the same.
pub const SCAN_2: &str = "0000002a 0101 [1] [2] [1] [2] [3]";

// Read 1.1 of 3 bytes from 0.
pub const READ: &str = "0000001e 0601 [1] [1] [0] 00000003";

// Chunk 1.1 from 0, `ABC`.
pub const CHUNK: &str = "0000001d 0201 [1] [1] [0] 414243";

// Abort 1.1.
pub const ABORT: &str = "00000012 0401 [1] [1]";

// Reply 1.1 clean under version 1.
pub const CLEAN: &str = "0000001b 0701 [1] [1] 00 [1]";
