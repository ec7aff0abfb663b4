//! Requests for memory that tests/refused-memory.sh refuses one by one. It runs a test again and again over a `malloc` that
//! takes requests of two sizes, which nothing else makes, for marks. Without it no request is refused.

use std::alloc::Global;

// The sizes that tests/fail_nth.c knows.
const COUNT: usize = 7_654_321;

const COUNT_NO_MORE: usize = 7_654_322;

/// From here on a request may be refused.
pub fn may_refuse(alloc: Global) {
    let _ = Vec::<u8>::with_capacity(alloc, COUNT);
}

/// From here on no request is refused.
pub fn refuse_no_more(alloc: Global) {
    let _ = Vec::<u8>::with_capacity(alloc, COUNT_NO_MORE);
}
