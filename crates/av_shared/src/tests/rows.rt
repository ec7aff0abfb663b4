// Scripts of steps through a gate and its desks, each with its lines: the stream a, in which nothing is written yet, and version 1,
// whose signature is XX.
use crate::tests::between::Step;
use av_base::Port;

#[derive(Clone, Copy)]
pub struct Row<'a> {
    pub name: &'a str,
    pub steps: &'a [(Step<'a>, &'a str)],
    // How many steps are the filter's, and the leases of the works that came back.
    pub filter_steps: usize,
    pub finished: &'a [u64],
}

// The greeting is lost.
pub const APART: Row<'static> = Row {
    name: "nothing comes over",
    steps: &[
        (Step::Write(b"a", 0, b"ABC"), ""),
        (Step::Connect(Port::One), "up 1 hello volume 1 version 1\n"),
        (Step::Open(b"a"), "open 1 denied cause 3\n"),
    ],
    filter_steps: 2,
    finished: &[],
};

pub const ROWS: [Row<'static>; 2] = [
    Row {
        name: "a reply under an older set is asked again",
        steps: &[
            (Step::Write(b"a", 0, b"ABC"), ""),
            (Step::Connect(Port::One), "up 1 hello volume 1 version 1\n"),
            (Step::Up(1), "note Welcome\n"),
            (
                Step::Open(b"a"),
                "open 1 pended\ndown 1 scan 1.1 stream 1 generation 2 length 3\n",
            ),
            (Step::Down(1), "up 2 read 1.1 offset 0 count 3\n"),
            (Step::Up(2), "down 2 chunk 1.1 offset 0 bytes 414243\n"),
            (Step::Down(2), ""),
            (Step::Work(Port::One, 1), "up 3 reply 1.1 version 1 clean\n"),
            (Step::Publish(Port::One, 2, b"XX"), "up 4 updated 2\n"),
            (Step::Up(4), ""),
            (
                Step::Up(3),
                "down 3 scan 1.2 stream 1 generation 2 length 3\n",
            ),
            (Step::Down(3), "up 5 read 1.2 offset 0 count 3\n"),
            (Step::Up(5), "down 4 chunk 1.2 offset 0 bytes 414243\n"),
            (Step::Down(4), ""),
            (Step::Work(Port::One, 2), "up 6 reply 1.2 version 2 clean\n"),
            (
                Step::Up(6),
                "open 1 granted stream 1 generation 2 version 2 least 1\n",
            ),
            (Step::Disconnect(Port::One), ""),
        ],
        filter_steps: 9,
        finished: &[1, 2],
    },
    Row {
        name: "a publication makes a lent work an orphan",
        steps: &[
            (Step::Write(b"a", 0, b"ABC"), ""),
            (Step::Connect(Port::One), "up 1 hello volume 1 version 1\n"),
            (Step::Up(1), "note Welcome\n"),
            (
                Step::Open(b"a"),
                "open 1 pended\ndown 1 scan 1.1 stream 1 generation 2 length 3\n",
            ),
            (Step::Down(1), "up 2 read 1.1 offset 0 count 3\n"),
            (Step::Up(2), "down 2 chunk 1.1 offset 0 bytes 414243\n"),
            (Step::Down(2), ""),
            (
                Step::Publish(Port::One, 2, b"AB"),
                "up 3 updated 2\nup 4 read 1.1 offset 0 count 3\n",
            ),
            (Step::Work(Port::One, 1), "note Orphan\n"),
            (Step::Up(4), "down 3 chunk 1.1 offset 0 bytes 414243\n"),
            (Step::Down(3), ""),
            (
                Step::Work(Port::One, 2),
                "up 5 reply 1.1 version 2 infected 0 end 2\n",
            ),
            (Step::Up(5), "open 1 denied cause 2\n"),
            (Step::Disconnect(Port::One), ""),
        ],
        filter_steps: 7,
        finished: &[1, 2],
    },
];

// With a spare: what ran on the lost port is asked on the other one, and granted there.
pub const BESIDE: Row<'static> = Row {
    name: "a lost port's question is asked on the other",
    steps: &[
        (Step::Write(b"a", 0, b"ABC"), ""),
        (Step::Connect(Port::One), "up 1 hello volume 1 version 1\n"),
        (Step::Up(1), "note Welcome\n"),
        (
            Step::Connect(Port::Two),
            "up 2 hello volume 1 version 1 port 2\n",
        ),
        (Step::Up(2), "note Welcome\n"),
        (
            Step::Open(b"a"),
            "open 1 pended\ndown 1 scan 1.1 stream 1 generation 2 length 3\n",
        ),
        (
            Step::Disconnect(Port::One),
            "down 2 scan 1.2 stream 1 generation 2 length 3 port 2\n",
        ),
        (Step::Down(2), "up 3 read 1.2 offset 0 count 3 port 2\n"),
        (
            Step::Up(3),
            "down 3 chunk 1.2 offset 0 bytes 414243 port 2\n",
        ),
        (Step::Down(3), ""),
        (
            Step::Work(Port::Two, 1),
            "up 4 reply 1.2 version 1 clean port 2\n",
        ),
        (
            Step::Up(4),
            "open 1 granted stream 1 generation 2 version 1 least 1\n",
        ),
        (Step::Down(1), "up 5 read 1.1 offset 0 count 3\n"),
        (Step::Up(5), "down 4 nochunk 1.1 offset 0 cause 1\n"),
    ],
    filter_steps: 8,
    finished: &[],
};

// With a spare, until no port is left.
pub const NONE_LEFT: Row<'static> = Row {
    name: "opens are answered where no port is left",
    steps: &[
        (Step::Write(b"a", 0, b"ABC"), ""),
        (Step::Connect(Port::One), "up 1 hello volume 1 version 1\n"),
        (Step::Up(1), "note Welcome\n"),
        (
            Step::Connect(Port::Two),
            "up 2 hello volume 1 version 1 port 2\n",
        ),
        (Step::Up(2), "note Welcome\n"),
        (
            Step::Open(b"a"),
            "open 1 pended\ndown 1 scan 1.1 stream 1 generation 2 length 3\n",
        ),
        (Step::Disconnect(Port::Two), ""),
        (Step::Disconnect(Port::One), "open 1 denied cause 6\n"),
        (Step::Open(b"a"), "open 2 denied cause 3\n"),
    ],
    filter_steps: 7,
    finished: &[],
};

// Messages that come again, in another order, late, or never.
pub const STRAYS: [Row<'static>; 4] = [
    Row {
        name: "messages come again",
        steps: &[
            (Step::Write(b"a", 0, b"ABC"), ""),
            (Step::Connect(Port::One), "up 1 hello volume 1 version 1\n"),
            (Step::Up(1), "note Welcome\n"),
            (Step::Up(1), "note Connected\n"),
            (
                Step::Open(b"a"),
                "open 1 pended\ndown 1 scan 1.1 stream 1 generation 2 length 3\n",
            ),
            (Step::Down(1), "up 2 read 1.1 offset 0 count 3\n"),
            (Step::Down(1), "note Repeat\n"),
            (Step::Up(2), "down 2 chunk 1.1 offset 0 bytes 414243\n"),
            (Step::Up(2), "down 3 chunk 1.1 offset 0 bytes 414243\n"),
            (Step::Down(2), ""),
            (Step::Down(3), "note Ignored\n"),
            (Step::Work(Port::One, 1), "up 3 reply 1.1 version 1 clean\n"),
            (
                Step::Up(3),
                "open 1 granted stream 1 generation 2 version 1 least 1\n",
            ),
            (Step::Up(3), "note NoWaiter\n"),
            (Step::Down(2), "note Ignored\n"),
        ],
        filter_steps: 8,
        finished: &[1],
    },
    Row {
        name: "messages come in another order",
        steps: &[
            (Step::Write(b"a", 0, b"ABC"), ""),
            (Step::Write(b"b", 0, b"DE"), ""),
            (Step::Connect(Port::One), "up 1 hello volume 1 version 1\n"),
            (Step::Up(1), "note Welcome\n"),
            (
                Step::Open(b"a"),
                "open 1 pended\ndown 1 scan 1.1 stream 1 generation 2 length 3\n",
            ),
            (
                Step::Open(b"b"),
                "open 2 pended\ndown 2 scan 1.2 stream 2 generation 2 length 2\n",
            ),
            (Step::Down(2), "up 2 read 1.2 offset 0 count 2\n"),
            (Step::Down(1), "up 3 read 1.1 offset 0 count 3\n"),
            (Step::Up(3), "down 3 chunk 1.1 offset 0 bytes 414243\n"),
            (Step::Up(2), "down 4 chunk 1.2 offset 0 bytes 4445\n"),
            (Step::Down(4), ""),
            (Step::Work(Port::One, 1), "up 4 reply 1.2 version 1 clean\n"),
            (Step::Down(3), ""),
            (Step::Work(Port::One, 2), "up 5 reply 1.1 version 1 clean\n"),
            (
                Step::Up(5),
                "open 1 granted stream 1 generation 2 version 1 least 1\n",
            ),
            (
                Step::Up(4),
                "open 2 granted stream 2 generation 2 version 1 least 1\n",
            ),
        ],
        filter_steps: 9,
        finished: &[1, 2],
    },
    Row {
        name: "messages are lost",
        steps: &[
            (Step::Write(b"a", 0, b"ABC"), ""),
            (Step::Connect(Port::One), "up 1 hello volume 1 version 1\n"),
            (Step::Up(1), "note Welcome\n"),
            (
                Step::Open(b"a"),
                "open 1 pended\ndown 1 scan 1.1 stream 1 generation 2 length 3\n",
            ),
            (
                Step::Write(b"a", 0, b"DEF"),
                "down 2 abort 1.1\ndown 3 scan 1.2 stream 1 generation 3 length 3\n",
            ),
            (Step::Down(3), "up 2 read 1.2 offset 0 count 3\n"),
            (Step::Up(2), "down 4 chunk 1.2 offset 0 bytes 444546\n"),
            (Step::Down(4), ""),
            (Step::Work(Port::One, 1), "up 3 reply 1.2 version 1 clean\n"),
            (
                Step::Up(3),
                "open 1 granted stream 1 generation 3 version 1 least 1\n",
            ),
        ],
        filter_steps: 6,
        finished: &[1],
    },
    Row {
        name: "messages come late",
        steps: &[
            (Step::Write(b"a", 0, b"ABC"), ""),
            (Step::Connect(Port::One), "up 1 hello volume 1 version 1\n"),
            (Step::Up(1), "note Welcome\n"),
            (
                Step::Open(b"a"),
                "open 1 pended\ndown 1 scan 1.1 stream 1 generation 2 length 3\n",
            ),
            (Step::Disconnect(Port::One), "open 1 denied cause 6\n"),
            (Step::Down(1), "up 2 read 1.1 offset 0 count 3\n"),
            (Step::Up(2), "down 2 nochunk 1.1 offset 0 cause 1\n"),
            (Step::Down(2), ""),
        ],
        filter_steps: 5,
        finished: &[],
    },
];
