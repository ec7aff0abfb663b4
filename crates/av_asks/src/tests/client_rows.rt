use crate::fault::ClientFault;
use crate::tests::clients::Row;

// What a client sends, what is heard of it, and the fault at its end.
pub const ROWS: [Row<'static>; 34] = [
    Row {
        name: "an empty content",
        bytes: &[
            "0000000b0500000000000000070166",
            "00000012070000000000000007000000000000000000",
        ],
        heard: &["begin 7", "end"],
        fault: None,
    },
    Row {
        name: "a content of two parts",
        bytes: &[
            "0000000b0500000000000000070166",
            "0000000b0600000000000000074142",
            "0000000a06000000000000000743",
            "00000012070000000000000007000000000000000003",
        ],
        heard: &["begin 7", "3 more", "end"],
        fault: None,
    },
    Row {
        name: "given up",
        bytes: &[
            "0000000b0500000000000000070166",
            "0000000b0600000000000000074142",
            "00000012070000000000000007010000000000000002",
        ],
        heard: &["begin 7", "2 more", "given up"],
        fault: None,
    },
    Row {
        name: "an ask between parts",
        bytes: &[
            "0000000b0500000000000000070166",
            "0000000b0600000000000000074142",
            "000000100100000000000000090166736d616c6c",
            "0000000b0600000000000000074344",
            "00000012070000000000000007000000000000000004",
        ],
        heard: &["begin 7", "2 more", "ask 9 1 5", "2 more", "end"],
        fault: None,
    },
    Row {
        name: "asks alone",
        bytes: &[
            "0000000a01000000000000000900",
            "0000001001000000000000000a0166736d616c6c",
        ],
        heard: &["ask 9 0 0", "ask 10 1 5"],
        fault: None,
    },
    Row {
        name: "a label of 255 bytes",
        bytes: &[
            "00000109050000000000000007ff6c6c6c6c6c6c6c6c6c6c6c6c6c6c6c6c6c6c6c6c6c6c6c6c6c6c",
            "6c6c6c6c6c6c6c6c6c6c6c6c6c6c6c6c6c6c6c6c6c6c6c6c6c6c6c6c6c6c6c6c6c6c6c6c6c6c6c6c",
            "6c6c6c6c6c6c6c6c6c6c6c6c6c6c6c6c6c6c6c6c6c6c6c6c6c6c6c6c6c6c6c6c6c6c6c6c6c6c6c6c",
            "6c6c6c6c6c6c6c6c6c6c6c6c6c6c6c6c6c6c6c6c6c6c6c6c6c6c6c6c6c6c6c6c6c6c6c6c6c6c6c6c",
            "6c6c6c6c6c6c6c6c6c6c6c6c6c6c6c6c6c6c6c6c6c6c6c6c6c6c6c6c6c6c6c6c6c6c6c6c6c6c6c6c",
            "6c6c6c6c6c6c6c6c6c6c6c6c6c6c6c6c6c6c6c6c6c6c6c6c6c6c6c6c6c6c6c6c6c6c6c6c6c6c6c6c",
            "6c6c6c6c6c6c6c6c6c6c6c6c6c6c6c6c6c6c6c6c6c6c6c6c6c6c6c6c6c",
            "00000012070000000000000007000000000000000000",
        ],
        heard: &["begin 7", "end"],
        fault: None,
    },
    Row {
        name: "no label",
        bytes: &[
            "0000000a05000000000000000700",
            "00000012070000000000000007000000000000000000",
        ],
        heard: &["begin 7", "end"],
        fault: None,
    },
    Row {
        name: "fields that differ",
        bytes: &[
            "0000000c050102030405060708026162",
            "0000000c060102030405060708414243",
            "00000012070102030405060708000000000000000003",
        ],
        heard: &["begin 72623859790382856", "3 more", "end"],
        fault: None,
    },
    Row {
        name: "a part that is not whole",
        bytes: &[
            "0000000b0500000000000000070166",
            "0000000d060000000000000007414243",
        ],
        heard: &["begin 7", "3 more"],
        fault: None,
    },
    Row {
        name: "the same tag again",
        bytes: &[
            "0000000b0500000000000000070166",
            "00000012070000000000000007000000000000000000",
            "0000000b0500000000000000070166",
            "0000000a06000000000000000741",
            "00000012070000000000000007000000000000000001",
        ],
        heard: &["begin 7", "end", "begin 7", "1 more", "end"],
        fault: None,
    },
    Row {
        name: "a length below all",
        bytes: &["00000009"],
        heard: &[],
        fault: Some(ClientFault::Length),
    },
    Row {
        name: "a part without bytes",
        bytes: &[
            "0000000b0500000000000000070166",
            "00000009060000000000000007",
        ],
        heard: &["begin 7"],
        fault: Some(ClientFault::Length),
    },
    Row {
        name: "a length above all",
        bytes: &["0010010a"],
        heard: &[],
        fault: Some(ClientFault::Length),
    },
    Row {
        name: "kind 9",
        bytes: &["0000000a09"],
        heard: &[],
        fault: Some(ClientFault::Kind),
    },
    Row {
        name: "kind 0",
        bytes: &["0000000a00"],
        heard: &[],
        fault: Some(ClientFault::Kind),
    },
    Row {
        name: "an answer",
        bytes: &["0000001902"],
        heard: &[],
        fault: Some(ClientFault::Kind),
    },
    Row {
        name: "a beginning that is too long",
        bytes: &["0000010a05"],
        heard: &[],
        fault: Some(ClientFault::Shape),
    },
    Row {
        name: "a part that is too long",
        bytes: &["0000000b0500000000000000070166", "0010000a06"],
        heard: &["begin 7"],
        fault: Some(ClientFault::Shape),
    },
    Row {
        name: "an end that is short",
        bytes: &["0000000b0500000000000000070166", "0000001107"],
        heard: &["begin 7"],
        fault: Some(ClientFault::Shape),
    },
    Row {
        name: "an end that is long",
        bytes: &["0000000b0500000000000000070166", "0000001307"],
        heard: &["begin 7"],
        fault: Some(ClientFault::Shape),
    },
    Row {
        name: "a part of another tag",
        bytes: &[
            "0000000b0500000000000000070166",
            "0000000a060000000000000008",
        ],
        heard: &["begin 7"],
        fault: Some(ClientFault::Tag),
    },
    Row {
        name: "a part without a beginning",
        bytes: &["0000000a060000000000000007"],
        heard: &[],
        fault: Some(ClientFault::Tag),
    },
    Row {
        name: "an end without a beginning",
        bytes: &["00000012070000000000000007000000000000000000"],
        heard: &[],
        fault: Some(ClientFault::Tag),
    },
    Row {
        name: "an end of another tag",
        bytes: &[
            "0000000b0500000000000000070166",
            "00000012070000000000000008000000000000000000",
        ],
        heard: &["begin 7"],
        fault: Some(ClientFault::Tag),
    },
    Row {
        name: "an end twice",
        bytes: &[
            "0000000b0500000000000000070166",
            "00000012070000000000000007000000000000000000",
            "00000012070000000000000007000000000000000000",
        ],
        heard: &["begin 7", "end"],
        fault: Some(ClientFault::Tag),
    },
    Row {
        name: "a beginning within a content",
        bytes: &[
            "0000000b0500000000000000070166",
            "0000000b0600000000000000074142",
            "0000000b0500000000000000080166",
        ],
        heard: &["begin 7", "2 more"],
        fault: Some(ClientFault::Within),
    },
    Row {
        name: "a beginning whose label is short",
        bytes: &["0000000b0500000000000000070266"],
        heard: &[],
        fault: Some(ClientFault::Label),
    },
    Row {
        name: "a beginning with more after its label",
        bytes: &["0000000c050000000000000007016667"],
        heard: &[],
        fault: Some(ClientFault::Label),
    },
    Row {
        name: "an ask whose label is short",
        bytes: &["0000000b0100000000000000070266"],
        heard: &[],
        fault: Some(ClientFault::Label),
    },
    Row {
        name: "an end of no kind",
        bytes: &[
            "0000000b0500000000000000070166",
            "00000012070000000000000007020000000000000000",
        ],
        heard: &["begin 7"],
        fault: Some(ClientFault::How),
    },
    Row {
        name: "an end that counts too few",
        bytes: &[
            "0000000b0500000000000000070166",
            "0000000b0600000000000000074142",
            "00000012070000000000000007000000000000000001",
        ],
        heard: &["begin 7", "2 more"],
        fault: Some(ClientFault::Count),
    },
    Row {
        name: "an end that counts too many",
        bytes: &[
            "0000000b0500000000000000070166",
            "0000000b0600000000000000074142",
            "00000012070000000000000007000000000000000003",
        ],
        heard: &["begin 7", "2 more"],
        fault: Some(ClientFault::Count),
    },
    Row {
        name: "given up with another count",
        bytes: &[
            "0000000b0500000000000000070166",
            "0000000b0600000000000000074142",
            "00000012070000000000000007010000000000000001",
        ],
        heard: &["begin 7", "2 more"],
        fault: Some(ClientFault::Count),
    },
    Row {
        name: "what came before a fault is heard",
        bytes: &[
            "0000000b0500000000000000070166",
            "0000000b0600000000000000074142",
            "0000000a09",
            "00000012070000000000000007000000000000000002",
        ],
        heard: &["begin 7", "2 more"],
        fault: Some(ClientFault::Kind),
    },
];
