use crate::content::{Ending, ServicePresence};
use crate::tests::course::{Event, Row};
use av_parts::Unjudged;

// Each event in each of its cases. An answer stands by client and tag, an order by the number of its content.
pub const ROWS: [Row<'static>; 15] = [
    Row {
        name: "a content is granted",
        steps: &[
            (Event::Greets(9, 9), "greeted"),
            (
                Event::Begins(ServicePresence::Connected, 5, 1, 10),
                "Begin 1 ",
            ),
            (Event::Brings(5, "AB"), "Part 1 of 2 "),
            (Event::Brings(5, "C"), "Part 1 of 1 "),
            (Event::Ends(5, Ending::Whole), "End 1 of 3 "),
            (Event::Clean(9, 1, 9, 3), "5/1 granted 9 "),
            (Event::Clean(9, 1, 9, 3), ""),
        ],
    },
    Row {
        name: "an empty content",
        steps: &[
            (Event::Greets(9, 9), "greeted"),
            (
                Event::Begins(ServicePresence::Connected, 5, 1, 0),
                "Begin 1 ",
            ),
            (Event::Brings(5, ""), ""),
            (Event::Ends(5, Ending::Whole), "End 1 of 0 "),
            (Event::Clean(9, 1, 9, 0), "5/1 granted 9 "),
        ],
    },
    Row {
        name: "an infection is told before the end",
        steps: &[
            (Event::Greets(9, 9), "greeted"),
            (
                Event::Begins(ServicePresence::Connected, 5, 1, 10),
                "Begin 1 ",
            ),
            (Event::Brings(5, "AB"), "Part 1 of 2 "),
            (Event::Infected(9, 1, 9, 3, 2), "5/1 infected 9 3 2 "),
            (Event::Brings(5, "CD"), ""),
            (Event::Ends(5, Ending::Whole), ""),
            (
                Event::Begins(ServicePresence::Connected, 5, 2, 10),
                "Begin 2 ",
            ),
        ],
    },
    Row {
        name: "no service, and a second connection that has not greeted",
        steps: &[
            (
                Event::Begins(ServicePresence::Away, 5, 1, 10),
                "5/1 cause 3 ",
            ),
            (Event::Brings(5, "AB"), ""),
            (Event::Ends(5, Ending::Whole), ""),
            (
                Event::Begins(ServicePresence::Connected, 5, 2, 10),
                "5/2 cause 14 ",
            ),
            (
                Event::Begins(ServicePresence::Connected, 5, 3, 10),
                "Within",
            ),
            (Event::Ends(5, Ending::GivenUp), ""),
            (Event::Greets(9, 9), "greeted"),
            (
                Event::Begins(ServicePresence::Away, 5, 3, 10),
                "5/3 cause 3 ",
            ),
            (Event::Ends(5, Ending::Whole), ""),
            (
                Event::Begins(ServicePresence::Connected, 5, 4, 10),
                "Begin 1 ",
            ),
        ],
    },
    Row {
        name: "a content begins within another",
        steps: &[
            (Event::Greets(9, 9), "greeted"),
            (
                Event::Begins(ServicePresence::Connected, 5, 1, 10),
                "Begin 1 ",
            ),
            (
                Event::Begins(ServicePresence::Connected, 5, 2, 10),
                "Within",
            ),
            (Event::Begins(ServicePresence::Away, 5, 2, 10), "Within"),
            (
                Event::Begins(ServicePresence::Connected, 6, 2, 10),
                "Begin 2 ",
            ),
        ],
    },
    Row {
        name: "as large as may be, and a byte more",
        steps: &[
            (Event::Greets(9, 9), "greeted"),
            (
                Event::Begins(ServicePresence::Connected, 5, 1, 3),
                "Begin 1 ",
            ),
            (Event::Brings(5, "ABC"), "Part 1 of 3 "),
            (Event::Brings(5, ""), ""),
            (Event::Brings(5, "D"), "5/1 cause 12 Drop 1 "),
            (Event::Brings(5, "E"), ""),
            (Event::Ends(5, Ending::Whole), ""),
            (Event::Clean(9, 1, 9, 3), ""),
        ],
    },
    Row {
        name: "a content is given up",
        steps: &[
            (Event::Greets(9, 9), "greeted"),
            (
                Event::Begins(ServicePresence::Connected, 5, 1, 10),
                "Begin 1 ",
            ),
            (Event::Brings(5, "AB"), "Part 1 of 2 "),
            (Event::Ends(5, Ending::GivenUp), "5/1 cause 13 Drop 1 "),
            (Event::Brings(5, "C"), ""),
            (Event::Ends(5, Ending::Whole), ""),
            (Event::Clean(9, 1, 9, 2), ""),
        ],
    },
    Row {
        name: "a client that is silent in a content",
        steps: &[
            (Event::Greets(9, 9), "greeted"),
            (Event::Late(5), ""),
            (
                Event::Begins(ServicePresence::Connected, 5, 1, 10),
                "Begin 1 ",
            ),
            (Event::Late(5), "5/1 cause 5 Drop 1 "),
            (Event::Late(5), ""),
            (Event::Brings(5, "C"), ""),
            (Event::Ends(5, Ending::Whole), ""),
            (
                Event::Begins(ServicePresence::Connected, 5, 2, 10),
                "Begin 2 ",
            ),
            (Event::Ends(5, Ending::Whole), "End 2 of 0 "),
            (Event::Late(5), ""),
        ],
    },
    Row {
        name: "verdicts of other versions",
        steps: &[
            (Event::Greets(9, 9), "greeted"),
            (
                Event::Begins(ServicePresence::Connected, 5, 1, 10),
                "Begin 1 ",
            ),
            (Event::Ends(5, Ending::Whole), "End 1 of 0 "),
            (Event::Clean(9, 1, 8, 0), "5/1 cause 11 "),
            (
                Event::Begins(ServicePresence::Connected, 5, 2, 10),
                "Begin 2 ",
            ),
            (Event::Ends(5, Ending::Whole), "End 2 of 0 "),
            (Event::Clean(9, 2, 10, 0), "5/2 cause 11 "),
            (
                Event::Begins(ServicePresence::Connected, 5, 3, 10),
                "Begin 3 ",
            ),
            (Event::Brings(5, "AB"), "Part 3 of 2 "),
            (Event::Infected(9, 3, 8, 0, 2), "5/3 cause 11 "),
            (Event::Ends(5, Ending::Whole), ""),
            (
                Event::Begins(ServicePresence::Connected, 5, 4, 10),
                "Begin 4 ",
            ),
            (Event::Brings(5, "AB"), "Part 4 of 2 "),
            (Event::Infected(9, 4, 10, 0, 2), "5/4 cause 11 "),
        ],
    },
    Row {
        name: "no verdict",
        steps: &[
            (Event::Greets(9, 9), "greeted"),
            (
                Event::Begins(ServicePresence::Connected, 5, 1, 10),
                "Begin 1 ",
            ),
            (Event::Lacks(9, 1, Unjudged::Full), "5/1 cause 4 "),
            (Event::Ends(5, Ending::Whole), ""),
            (
                Event::Begins(ServicePresence::Connected, 5, 2, 10),
                "Begin 2 ",
            ),
            (Event::Lacks(9, 2, Unjudged::Newer), "5/2 cause 11 "),
            (Event::Lacks(9, 2, Unjudged::Newer), ""),
        ],
    },
    Row {
        name: "words that may not come",
        steps: &[
            (Event::Greets(9, 9), "greeted"),
            (Event::Clean(9, 1, 9, 0), "NotGiven"),
            (Event::Infected(9, 1, 9, 0, 1), "NotGiven"),
            (Event::Lacks(9, 0, Unjudged::Full), "NotGiven"),
            (
                Event::Begins(ServicePresence::Connected, 5, 1, 10),
                "Begin 1 ",
            ),
            (Event::Clean(9, 2, 9, 0), "NotGiven"),
            (Event::Clean(9, 0, 9, 0), "NotGiven"),
            (Event::Clean(9, 1, 9, 0), "NotEnded"),
            (Event::Clean(9, 1, 9, 7), "NotEnded"),
            (Event::Brings(5, "AB"), "Part 1 of 2 "),
            (Event::Infected(9, 1, 9, 0, 3), "PastEnd"),
            (Event::Ends(5, Ending::Whole), "End 1 of 2 "),
            (Event::Clean(9, 1, 9, 1), "Count"),
            (Event::Clean(9, 1, 9, 3), "Count"),
            (Event::Infected(9, 1, 8, 0, 3), "PastEnd"),
            (Event::Infected(9, 1, 9, 0, 2), "5/1 infected 9 0 2 "),
        ],
    },
    Row {
        name: "greetings",
        steps: &[
            (Event::Greets(9, 8), "Older"),
            (Event::Greets(9, 10), "greeted"),
            (Event::Greets(9, 10), "Twice"),
            (Event::Greets(9, 8), "Twice"),
            (Event::Lost, ""),
            (Event::Greets(9, 9), "greeted"),
        ],
    },
    Row {
        name: "a connection is lost",
        steps: &[
            (Event::Greets(9, 9), "greeted"),
            (
                Event::Begins(ServicePresence::Connected, 5, 1, 10),
                "Begin 1 ",
            ),
            (Event::Ends(5, Ending::Whole), "End 1 of 0 "),
            (
                Event::Begins(ServicePresence::Connected, 6, 7, 10),
                "Begin 2 ",
            ),
            (
                Event::Begins(ServicePresence::Connected, 5, 2, 10),
                "Begin 3 ",
            ),
            (Event::Lost, "5/1 cause 6 6/7 cause 6 5/2 cause 6 "),
            (Event::Brings(6, "AB"), ""),
            (Event::Ends(6, Ending::Whole), ""),
            (
                Event::Begins(ServicePresence::Connected, 6, 8, 10),
                "6/8 cause 14 ",
            ),
            (Event::Ends(6, Ending::Whole), ""),
            (Event::Greets(9, 9), "greeted"),
            (Event::Clean(9, 1, 9, 0), ""),
            (
                Event::Begins(ServicePresence::Connected, 6, 9, 10),
                "Begin 4 ",
            ),
        ],
    },
    Row {
        name: "a client leaves",
        steps: &[
            (Event::Greets(9, 9), "greeted"),
            (
                Event::Begins(ServicePresence::Connected, 5, 1, 10),
                "Begin 1 ",
            ),
            (Event::Ends(5, Ending::Whole), "End 1 of 0 "),
            (
                Event::Begins(ServicePresence::Connected, 6, 1, 10),
                "Begin 2 ",
            ),
            (
                Event::Begins(ServicePresence::Connected, 5, 2, 10),
                "Begin 3 ",
            ),
            (Event::Ends(5, Ending::Whole), "End 3 of 0 "),
            (
                Event::Begins(ServicePresence::Connected, 5, 3, 10),
                "Begin 4 ",
            ),
            (Event::Clean(9, 1, 9, 0), "5/1 granted 9 "),
            (Event::Leaves(5), "Drop 3 Drop 4 "),
            (Event::Leaves(5), ""),
            (Event::Clean(9, 3, 9, 0), ""),
            (Event::Clean(9, 4, 9, 7), ""),
            (Event::Brings(6, "A"), "Part 2 of 1 "),
            (Event::Leaves(6), "Drop 2 "),
            (
                Event::Begins(ServicePresence::Connected, 5, 9, 10),
                "Begin 5 ",
            ),
        ],
    },
    Row {
        name: "two clients side by side",
        steps: &[
            (Event::Greets(9, 9), "greeted"),
            (
                Event::Begins(ServicePresence::Connected, 5, 1, 10),
                "Begin 1 ",
            ),
            (
                Event::Begins(ServicePresence::Connected, 6, 1, 10),
                "Begin 2 ",
            ),
            (Event::Brings(6, "ABC"), "Part 2 of 3 "),
            (Event::Brings(5, "AB"), "Part 1 of 2 "),
            (Event::Brings(7, "AB"), ""),
            (Event::Ends(6, Ending::Whole), "End 2 of 3 "),
            (Event::Ends(5, Ending::Whole), "End 1 of 2 "),
            (Event::Clean(9, 2, 9, 3), "6/1 granted 9 "),
            (Event::Clean(9, 1, 9, 2), "5/1 granted 9 "),
        ],
    },
];
