//! Signatures of a set, compared with those that came before.
ghost use Rattle.std.specs.Prelude.{◌≡◌, ◌≤◌, length, position, IfOk};
ghost use Rattle.av_merge.specs.Merge.{added_by, clashes, is_new, is_same};
ghost use Rattle.av_sigset.specs.Set.{byte_count, patterns_of};

use av_sigset::set::MAX_BYTES;
use av_sigset::{Pattern, Signature, stands_in};
use std::alloc::{AllocError, Global};

/// What a set adds to the signatures before it, in numbers.
#[derive(Clone, Copy)]
pub struct Amount {
    pub count: usize,
    pub bytes: usize,
}

/// The place of the first of these signatures that has the name of this one and looks for something else.
pub fn clash_in(before: &[Signature], signature: &Signature) -> Option<usize>
    ensures { result ≡ position (clashes signature.now) before.now }
{
    before.iter().position(|other| clashes(signature, other))
}

fn clashes(signature: &Signature, other: &Signature) -> bool
    ensures { result ≡ clashes signature.now other.now }
{
    other.name.as_slice() == signature.name.as_slice()
        && !is_same(&other.pattern, &signature.pattern)
}

// Whether two patterns look for the same.
fn is_same(pattern: &Pattern, other: &Pattern) -> bool
    ensures { result ≡ is_same pattern.now other.now }
{
    pattern.bytes.as_slice() == other.bytes.as_slice()
        && pattern.span.low == other.span.low
        && pattern.span.high == other.span.high
}

// Whether none of these signatures has the name of this one.
fn is_new(before: &[Signature], signature: &Signature) -> bool
    ensures { result ≡ is_new before.now signature.now }
{
    !stands_in(before, signature.name.as_slice())
}

/// How much these signatures add to those before them.
pub fn amount_added(before: &[Signature], given: &[Signature]) -> Amount
    requires { byte_count (patterns_of given.now) ≤ MAX_BYTES }
    ensures count { result.count ≡ length (added_by before.now given.now) }
    ensures bytes { result.bytes ≡ byte_count (patterns_of (added_by before.now given.now)) }
{
    let mut count = 0usize;
    let mut bytes = 0usize;
    for signature in given {
        if is_new(before, signature) {
            count += 1;
            bytes += signature.pattern.bytes.len();
        }
    }
    Amount { count, bytes }
}

/// Copies of the signatures that are added to those before them.
pub fn copies_added(
    alloc: Global,
    before: &[Signature],
    given: &[Signature],
) -> Result<Vec<Signature>, AllocError>
    ensures { IfOk result (λ copies. copies.items ≡ added_by before.now given.now) }
{
    let mut copies = Vec::new(alloc);
    for signature in given {
        if is_new(before, signature) {
            copies.push(copy_of(alloc, signature)?)?;
        }
    }
    Ok(copies)
}

fn copy_of(alloc: Global, signature: &Signature) -> Result<Signature, AllocError>
    ensures { IfOk result (λ copy. copy ≡ signature.now) }
{
    Ok(Signature {
        name: signature.name.clone()?,
        pattern: signature.pattern.clone()?,
    })
}
