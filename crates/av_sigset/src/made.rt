//! Sets that are made of patterns without names.
ghost use Rattle.std.specs.Prelude.{◌≡◌, length, map, IfOk};
ghost use Rattle.av_sigset.specs.Made.{fault_in, serial_signatures, serial_signature};

use crate::fault::{SetFault, SetFaultKind, bad_line};
use crate::set::{MAX_BYTES, MAX_SIGNATURES};
use crate::signature::{AsPattern, MAX_PATTERN, MAX_PLACE, Pattern, Signature};
use av_base::ByteList;
use itoa::Buffer;
use std::alloc::{AllocError, Global};

/// The first of these patterns that can't stand in a file.
#[tactic(auto, unfolding(crate::specs::Made::fault_in))]
pub fn fault_in<P: AsPattern>(patterns: &[P]) -> Option<SetFault>
    ensures { result ≡ fault_in 0 0 (map P.pattern patterns.now) }
{
    let mut bytes = 0usize;
    for index in 0..patterns.len() {
        let length = patterns[index].bytes().len();
        let span = patterns[index].span();
        let line = index as u64 + 3;
        if length == 0 || length > MAX_PATTERN {
            return Some(bad_line(line, SetFaultKind::Length));
        }
        if span.high < span.low || span.high > MAX_PLACE {
            return Some(bad_line(line, SetFaultKind::Range));
        }
        if index >= MAX_SIGNATURES || bytes + length > MAX_BYTES {
            return Some(bad_line(line, SetFaultKind::TooMany));
        }
        bytes += length;
    }
    None
}

/// These patterns, named by their places.
#[tactic(auto, unfolding(crate::specs::Made::serial_signatures))]
pub fn serial_signatures<P: AsPattern>(
    alloc: Global,
    patterns: &[P],
) -> Result<Vec<Signature>, AllocError>
    ensures { IfOk result (λ v. v.items ≡ serial_signatures 0 (map P.pattern patterns.now)) }
{
    let mut signatures = Vec::with_capacity(alloc, patterns.len())?;
    for index in 0..patterns.len() {
        signatures.push(serial_signature(alloc, index, &patterns[index])?)?;
    }
    Ok(signatures)
}

// A pattern, named by its place.
fn serial_signature<P: AsPattern>(
    alloc: Global,
    index: usize,
    pattern: &P,
) -> Result<Signature, AllocError>
    ensures { IfOk result (λ s. s ≡ serial_signature index (P.pattern pattern.now)) }
{
    let mut buffer = Buffer::new();
    let mut name = Vec::from_slice(alloc, b"s")?;
    name.extend_from_slice(buffer.format(index).as_bytes())?;
    Ok(Signature {
        name: ByteList::from_vec(name),
        pattern: Pattern {
            bytes: ByteList::copied(alloc, pattern.bytes())?,
            span: pattern.span(),
        },
    })
}
