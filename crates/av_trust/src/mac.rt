//! HMAC-SHA-256 (RFC 2104).

ghost use Rattle.std.specs.Prelude.{◌≡◌, ◌≤◌, ◌++◌, length};
ghost use Rattle.sha2.specs.Sha256.{sha256};
ghost use Rattle.av_trust.specs.Hmac.{block_of, hmac, keyed, masked};

use sha2::{Digest, Sha256};

// The bytes of a block of SHA-256.
const BLOCK: usize = 64;

const INNER: u8 = 0x36;

const OUTER: u8 = 0x5c;

/// The code of a text under a key of any length.
pub fn hmac_sha256(key: &[u8], text: &[u8]) -> [u8; 32]
    ensures { result ≡ hmac key.now text.now }
{
    if key.len() > BLOCK {
        let digest = Sha256::digest(key);
        keyed(&digest, text)
    } else {
        keyed(key, text)
    }
}

// The same, under a key of a block at most.
#[tactic(auto, unfolding(crate::specs::Hmac::keyed))]
fn keyed(key: &[u8], text: &[u8]) -> [u8; 32]
    requires { length key.now ≤ 64 }
    ensures { result ≡ keyed key.now text.now }
{
    let block = block_of(key);
    let inner = digest_of(&masked(&block, INNER), text);
    digest_of(&masked(&block, OUTER), &inner)
}

// A key with zeros behind it.
fn block_of(key: &[u8]) -> [u8; BLOCK]
    requires { length key.now ≤ 64 }
    ensures { result ≡ block_of key.now }
{
    let mut block = [0u8; BLOCK];
    'bytes: for place in 0..key.len() {
        block[place] = key[place];
    }
    block
}

// Each byte with the bits of a mask turned.
fn masked(block: &[u8; BLOCK], mask: u8) -> [u8; BLOCK]
    ensures { result ≡ masked mask block.now }
{
    let mut turned = *block;
    'bytes: for place in 0..BLOCK {
        turned[place] = block[place] ^ mask;
    }
    turned
}

fn digest_of(first: &[u8], then: &[u8]) -> [u8; 32]
    ensures { result ≡ sha256 (first.now ++ then.now) }
{
    let mut hasher = Sha256::new();
    hasher.update(first);
    hasher.update(then);
    hasher.finalize()
}
