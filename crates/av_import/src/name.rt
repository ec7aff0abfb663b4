//! Names, made of those that other products give.
ghost use Rattle.std.specs.Prelude.{◌≡◌, ◌++◌, IfOk, OnOk, map, take};
ghost use Rattle.av_import.specs.Name.{free_name, numbered, sign_name, sign_of};

use av_sigset::{MAX_NAME, Signature, is_name_byte, stands_in};
use itoa::Buffer;
use std::alloc::{AllocError, Global};

/// How many numbers are tried for a name that was taken.
pub const TRIES: u64 = 1_026;

/// The name under which a signature is taken behind these: of 1 to 32 signs, with `.2`, `.3` and on at its end where it was
/// taken.
pub fn free_name(alloc: Global, before: &[Signature], raw: &[u8]) -> Result<Vec<u8>, AllocError>
    ensures { IfOk result (λ name. name.items ≡ free_name before.now raw.now) }
{
    let name = sign_name(alloc, raw)?;
    'numbers: for number in 1..TRIES + 1 {
        let candidate = numbered(alloc, name.as_slice(), number)?;
        if !stands_in(before, candidate.as_slice()) {
            return Ok(candidate);
        }
    }
    numbered(alloc, name.as_slice(), TRIES + 1)
}

/// A name of 1 to 32 letters, digits, `.`, `_` or `-`. Other bytes become `_`, and of more than 32 the first 15 and the last 16
/// stay, with a `.` between.
pub fn sign_name(alloc: Global, raw: &[u8]) -> Result<Vec<u8>, AllocError>
    ensures { IfOk result (λ name. name.items ≡ sign_name raw.now) }
{
    let mut name = Vec::new(alloc);
    if raw.is_empty() {
        name.push(b'_')?;
        return Ok(name);
    }
    if raw.len() <= MAX_NAME {
        push_signs(&mut name, raw)?;
        return Ok(name);
    }
    push_signs(&mut name, &raw[..15])?;
    name.push(b'.')?;
    push_signs(&mut name, &raw[raw.len() - 16..])?;
    Ok(name)
}

fn push_signs(name: &mut Vec<u8>, raw: &[u8]) -> Result<(), AllocError>
    ensures { OnOk result (name.new.items ≡ name.old.items ++ map sign_of raw.now) }
{
    for byte in raw {
        let sign = if is_name_byte(*byte) { *byte } else { b'_' };
        name.push(sign)?;
    }
    Ok(())
}

// The name for the so-maniest time.
#[tactic(auto, unfolding(crate::specs::Name::numbered))]
fn numbered(alloc: Global, name: &[u8], number: u64) -> Result<Vec<u8>, AllocError>
    ensures { IfOk result (λ text. text.items ≡ numbered name.now number) }
{
    if number == 1 {
        return name.to_vec(alloc);
    }
    let mut buffer = Buffer::new();
    let digits = buffer.format(number).as_bytes();
    let mut text = first_of(name, MAX_NAME.saturating_sub(digits.len() + 1)).to_vec(alloc)?;
    text.push(b'.')?;
    text.extend_from_slice(digits)?;
    Ok(text)
}

// So many bytes, or all.
fn first_of(name: &[u8], count: usize) -> &[u8]
    ensures { result.now ≡ take count name.now }
{
    if count < name.len() {
        &name[..count]
    } else {
        name
    }
}
