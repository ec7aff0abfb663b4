use crate::fault::OrderFault;
use crate::tests::orders::Row;

// What a guard sends, what is heard of it, and the fault at its end.
pub const ROWS: [Row<'static>; 24] = [
    Row {
        name: "a content begins",
        frames: &["00000009100000000000000001"],
        heard: &["begin 1"],
        fault: None,
    },
    Row {
        name: "a number of 0",
        frames: &["00000009100000000000000000"],
        heard: &["begin 0"],
        fault: None,
    },
    Row {
        name: "the greatest numbers",
        frames: &[
            "0000000910ffffffffffffffff",
            "0000001112ffffffffffffffffffffffffffffffff",
        ],
        heard: &[
            "begin 18446744073709551615",
            "end 18446744073709551615 18446744073709551615",
        ],
        fault: None,
    },
    Row {
        name: "fields that differ",
        frames: &[
            "00000009100102030405060708",
            "0000000c110102030405060708414243",
            "000000111201020304050607081112131415161718",
            "00000009130102030405060708",
        ],
        heard: &[
            "begin 72623859790382856",
            "part 72623859790382856",
            "3 of 72623859790382856",
            "end 72623859790382856 1230066625199609624",
            "drop 72623859790382856",
        ],
        fault: None,
    },
    Row {
        name: "a part of one byte",
        frames: &["0000000a11000000000000000141"],
        heard: &["part 1", "1 of 1"],
        fault: None,
    },
    Row {
        name: "a part that is not whole",
        frames: &["0000000f1100000000000000014142"],
        heard: &["part 1", "2 of 1"],
        fault: None,
    },
    Row {
        name: "parts of two contents",
        frames: &[
            "0000000a11000000000000000141",
            "0000000b1100000000000000024243",
        ],
        heard: &["part 1", "1 of 1", "part 2", "2 of 2"],
        fault: None,
    },
    Row {
        name: "a front that is not whole",
        frames: &["000000091000000000000000"],
        heard: &[],
        fault: None,
    },
    Row {
        name: "a body of 8 bytes",
        frames: &["00000008"],
        heard: &[],
        fault: Some(OrderFault::Length),
    },
    Row {
        name: "no body",
        frames: &["00000000"],
        heard: &[],
        fault: Some(OrderFault::Length),
    },
    Row {
        name: "a body of 1,048,586 bytes",
        frames: &["0010000a"],
        heard: &[],
        fault: Some(OrderFault::Length),
    },
    Row {
        name: "the longest length",
        frames: &["ffffffff"],
        heard: &[],
        fault: Some(OrderFault::Length),
    },
    Row {
        name: "kind 15",
        frames: &["000000090f"],
        heard: &[],
        fault: Some(OrderFault::Kind),
    },
    Row {
        name: "kind 20",
        frames: &["0000000914"],
        heard: &[],
        fault: Some(OrderFault::Kind),
    },
    Row {
        name: "kind 0",
        frames: &["0000000900"],
        heard: &[],
        fault: Some(OrderFault::Kind),
    },
    Row {
        name: "a frame of the first connection",
        frames: &["0000001204"],
        heard: &[],
        fault: Some(OrderFault::Kind),
    },
    Row {
        name: "a beginning with a byte more",
        frames: &["0000000a10"],
        heard: &[],
        fault: Some(OrderFault::Shape),
    },
    Row {
        name: "a part without bytes",
        frames: &["0000000911"],
        heard: &[],
        fault: Some(OrderFault::Shape),
    },
    Row {
        name: "the longest part begins",
        frames: &["00100009110000000000000001"],
        heard: &["part 1"],
        fault: None,
    },
    Row {
        name: "an end with a byte less",
        frames: &["0000001012"],
        heard: &[],
        fault: Some(OrderFault::Shape),
    },
    Row {
        name: "an end with a byte more",
        frames: &["0000001212"],
        heard: &[],
        fault: Some(OrderFault::Shape),
    },
    Row {
        name: "a drop with a byte more",
        frames: &["0000000a13"],
        heard: &[],
        fault: Some(OrderFault::Shape),
    },
    Row {
        name: "a beginning as long as an end",
        frames: &["0000001110"],
        heard: &[],
        fault: Some(OrderFault::Shape),
    },
    Row {
        name: "what came before a fault is told",
        frames: &[
            "00000009100000000000000001",
            "0000000a11000000000000000141",
            "00000008",
            "00000009130000000000000001",
        ],
        heard: &["begin 1", "part 1", "1 of 1"],
        fault: Some(OrderFault::Length),
    },
];
