use crate::fault::{OrderFault, UnfitPart};
use crate::order::{Order, put_order};
use crate::order_reader::OrderReader;
use crate::tests::order_rows::ROWS;
use av_base::Refusal;
use std::alloc::{AllocError, Global};
use std::test::Fail;

// What a guard sends, a frame a text, what is heard of it, and the fault that ends it.
#[derive(Clone, Copy)]
pub struct Row<'a> {
    pub name: &'a str,
    pub frames: &'a [&'a str],
    pub heard: &'a [&'a str],
    pub fault: Option<OrderFault>,
}

// What is told of orders that come in pieces. Bytes of one part are counted together.
#[derive(Drop)]
struct Told {
    lines: Vec<String>,
    part: u64,
    bytes: usize,
}

impl Told {
    fn take(&mut self, alloc: Global, order: Order<'_>) -> Result<(), AllocError> {
        if let Order::Part { number, some } = order
            && !some.is_empty()
        {
            self.part = number;
            self.bytes = self.bytes.saturating_add(some.len());
            return Ok(());
        }
        self.end_part(alloc)?;
        let line = match order {
            Order::Begin { number } => format!(in alloc; "begin {number}")?,
            Order::Part { number, .. } => format!(in alloc; "part {number}")?,
            Order::End { number, count } => format!(in alloc; "end {number} {count}")?,
            Order::Drop { number } => format!(in alloc; "drop {number}")?,
        };
        Ok(self.lines.push(line)?)
    }

    fn end_part(&mut self, alloc: Global) -> Result<(), AllocError> {
        if self.bytes > 0 {
            let line = format!(in alloc; "{} of {}", self.bytes, self.part)?;
            self.lines.push(line)?;
            self.bytes = 0;
        }
        Ok(())
    }
}

// Hears a piece, and answers the fault, if there was one.
fn hear(
    alloc: Global,
    reader: &mut OrderReader,
    piece: &[u8],
    told: &mut Told,
) -> Result<Option<OrderFault>, Fail> {
    let mut rest = piece;
    for _ in 0..piece.len() {
        match reader.hear(rest) {
            Ok(heard) => {
                if let Some(order) = heard.order {
                    told.take(alloc, order)?;
                }
                rest = rest.get(heard.taken..).unwrap_or(&[]);
            }
            Err(fault) => return Ok(Some(fault)),
        }
    }
    Ok(None)
}

// Whether a row is heard as it is written, in pieces of so many bytes at most.
fn is_heard(alloc: Global, row: &Row<'_>, size: usize) -> Result<bool, Fail> {
    let mut bytes = Vec::new(alloc);
    for frame in row.frames {
        bytes.extend_from_slice(&hex::decode(alloc, *frame)?)?;
    }
    let mut reader = OrderReader::new();
    let mut told = Told {
        lines: Vec::new(alloc),
        part: 0,
        bytes: 0,
    };
    let mut fault = None;
    for piece in bytes.chunks(size.max(1)) {
        fault = hear(alloc, &mut reader, piece, &mut told)?;
    }
    told.end_part(alloc)?;
    let mut same = told.lines.len() == row.heard.len() && fault == row.fault;
    for (one, wanted) in told.lines.iter().zip(row.heard.iter()) {
        same = same && one.as_str() == *wanted;
    }
    Ok(same)
}

// The first row that is not heard as it is written.
fn first_other(alloc: Global, size: usize) -> Result<Option<&'static str>, Fail> {
    for row in ROWS.as_slice() {
        if !is_heard(alloc, row, size)? {
            return Ok(Some(row.name));
        }
    }
    Ok(None)
}

#[test]
fn each_order_is_heard_as_written(rt: HostRuntime) -> Result<(), Fail> {
    assert_eq!(rt; first_other(rt.alloc(), usize::MAX)?, None);
    Ok(())
}

#[test]
fn each_order_is_heard_as_written_byte_by_byte(rt: HostRuntime) -> Result<(), Fail> {
    assert_eq!(rt; first_other(rt.alloc(), 1)?, None);
    Ok(())
}

#[test]
fn each_order_is_heard_as_written_in_pieces_of_five(rt: HostRuntime) -> Result<(), Fail> {
    assert_eq!(rt; first_other(rt.alloc(), 5)?, None);
    Ok(())
}

// One of each order, with all fields different, and its frame.
const SPELLED: [(Order<'static>, &str); 4] = [
    (
        Order::Begin {
            number: 0x0102_0304_0506_0708,
        },
        "00000009100102030405060708",
    ),
    (
        Order::Part {
            number: 0x0102_0304_0506_0708,
            some: b"ABC",
        },
        "0000000c110102030405060708414243",
    ),
    (
        Order::End {
            number: 0x0102_0304_0506_0708,
            count: 0x1112_1314_1516_1718,
        },
        "000000111201020304050607081112131415161718",
    ),
    (
        Order::Drop {
            number: 0x0102_0304_0506_0708,
        },
        "00000009130102030405060708",
    ),
];

#[test]
fn each_field_of_an_order_has_its_place(rt: HostRuntime) -> Result<(), Fail> {
    for (order, frame) in SPELLED.as_slice() {
        let mut out = Vec::new(rt.alloc());
        put_order(&mut out, *order)?;
        assert_eq!(rt; out.as_slice(), hex::decode(rt.alloc(), *frame)?.as_slice());
    }
    Ok(())
}

#[test]
fn a_part_has_1_to_1048576_bytes(rt: HostRuntime) -> Result<(), Fail> {
    let bytes = vec![in rt.alloc(); 0u8; 1_048_577]?;
    let mut out = Vec::new(rt.alloc());
    let empty = put_order(
        &mut out,
        Order::Part {
            number: 1,
            some: &[],
        },
    );
    assert_eq!(rt; empty, Err(Refusal::Fault(UnfitPart::Empty)));
    let long = put_order(
        &mut out,
        Order::Part {
            number: 1,
            some: &bytes,
        },
    );
    assert_eq!(rt; long, Err(Refusal::Fault(UnfitPart::TooLong)));
    assert!(rt; out.is_empty());
    let longest = Order::Part {
        number: 1,
        some: &bytes[1..],
    };
    put_order(&mut out, longest)?;
    assert_eq!(rt; out.len(), 1_048_589);
    Ok(())
}
