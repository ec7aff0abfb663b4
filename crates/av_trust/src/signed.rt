//! What a signed file is: one line with the code of all bytes behind it, and then these as they are.

ghost use Rattle.std.specs.Prelude.{◌≡◌, ◌<◌, ℕ, List, Ok, Err, codes, drop, length, IfOk, IsOkAnd, MatchResult, true};
ghost use Rattle.std.specs.Str.{bytes_eq};
ghost use Rattle.hex.specs.Hex.{encode_lower};
ghost use Rattle.av_trust.specs.Hmac.{hmac};
ghost use Rattle.av_trust.specs.Signed.{begins, code_digits, has_line, is_coded, signed, trusted_of};

use crate::key::Key;
use crate::mac::hmac_sha256;
use crate::trust::TrustFault;
use std::alloc::{AllocError, Global};

// How a signed file begins, whatever its format.
const SIGNED: &[u8; 8] = b"avsigned";

// How the first line of this format begins, before the digits of the code.
const FRONT: &[u8; 11] = b"avsigned 1 ";

// Where the digits of the code end, and where the text begins.
const DIGITS_END: usize = 75;

const LINE: usize = 76;

/// A text, signed with a key.
#[tactic(auto, unfolding(crate::specs::Signed::signed))]
pub fn sign(alloc: Global, key: &Key, text: &[u8]) -> Result<Vec<u8>, AllocError>
    ensures { IfOk result (λ file. file.items ≡ signed key.now text.now) }
{
    let mut file = Vec::new(alloc);
    file.extend_from_slice(FRONT)?;
    file.extend_from_slice(&code_digits(key, text))?;
    file.push(b'\n')?;
    file.extend_from_slice(text)?;
    Ok(file)
}

/// The text of a file that was signed with a key. The faults come in this order: it is no signed file, its first line is none of this
/// format, it was not signed with this key or was changed since.
#[tactic(auto, using(crate::proofs::SignedLemmas::trusted_is_signed, crate::proofs::SignedLemmas::signed_is_trusted))]
pub fn trusted<'a>(key: &Key, file: &'a [u8]) -> Result<&'a [u8], TrustFault>
    ensures exact { MatchResult result (λ text. trusted_of key.now file.now ≡ Ok text.now) (λ fault. trusted_of key.now file.now ≡ Err fault) }
    ensures found { IfOk result (λ text. file.now ≡ signed key.now text.now) }
    ensures only { (text : List ℕ) → file.now ≡ signed key.now text → IsOkAnd result (λ t. t.now ≡ text) }
{
    judged(key, file)
}

// The same by its parts.
#[tactic(auto, unfolding(crate::specs::Signed::trusted_of))]
fn judged<'a>(key: &Key, file: &'a [u8]) -> Result<&'a [u8], TrustFault>
    ensures { MatchResult result (λ text. trusted_of key.now file.now ≡ Ok text.now) (λ fault. trusted_of key.now file.now ≡ Err fault) }
{
    if !begins(file, SIGNED) {
        return Err(TrustFault::NotSigned);
    }
    if !has_line(file) {
        return Err(TrustFault::BadLine);
    }
    if is_coded(key, file) {
        Ok(text_in(file))
    } else {
        Err(TrustFault::OtherKey)
    }
}

// Whether a file's line has the code of its text.
fn is_coded(key: &Key, file: &[u8]) -> bool
    requires { 75 < length file.now }
    ensures { result ≡ is_coded key.now file.now }
{
    let digits = &file[FRONT.len()..DIGITS_END];
    is_same(digits, &code_digits(key, text_in(file)))
}

// What stands behind a file's first line.
fn text_in(file: &[u8]) -> &[u8]
    requires { 75 < length file.now }
    ensures { result.now ≡ drop 76 file.now }
{
    &file[LINE..]
}

/// Whether a file begins as signed ones do.
pub(crate) fn is_signed(file: &[u8]) -> bool
    ensures { result ≡ begins (codes "avsigned") file.now }
{
    begins(file, SIGNED)
}

// The digits of a text's code.
#[tactic(auto, unfolding(crate::specs::Signed::code_digits))]
fn code_digits(key: &Key, text: &[u8]) -> [u8; 64]
    ensures { result ≡ code_digits key.now text.now }
{
    let mut digits = [0u8; 64];
    let _ = hex::encode_to_slice(hmac_sha256(key.bytes(), text), &mut digits);
    digits
}

// Whether a file begins with these bytes.
fn begins(file: &[u8], first: &[u8]) -> bool
    ensures { result ≡ begins first.now file.now }
{
    match file.get(..first.len()) {
        Some(front) => front == first,
        None => false,
    }
}

// Whether the first line of a file is as long as that of a signed one, and begins so.
fn has_line(file: &[u8]) -> bool
    ensures value { result ≡ has_line file.now }
    ensures long { result ≡ true → 75 < length file.now }
{
    begins(file, FRONT) && file.len() > DIGITS_END && file[DIGITS_END] == b'\n'
}

// Whether two texts of one length are the same. All bytes are compared, wherever the first difference is, so that the time says nothing
// of it.
fn is_same(left: &[u8], right: &[u8]) -> bool
    requires { length left.now ≡ length right.now }
    ensures { result ≡ bytes_eq left.now right.now }
{
    let mut turned = 0u8;
    'bytes: for place in 0..left.len() {
        turned |= left[place] ^ right[place];
    }
    turned == 0
}
