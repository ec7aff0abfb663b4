//! What each state gives out, and at which pattern it stops: what it has of its own, or else what its fail has. The fail of a
//! state is that of the longest word that ends its own word and is shorter.
ghost use Rattle.std.specs.Prelude.{◌≡◌, ◌<◌, ◌≤◌, ℕ, length, slice_index, IfOk};
ghost use Rattle.av_match.specs.Part.{ArePatterns};
ghost use Rattle.av_match.specs.States.{AreDistinct, AreEnds, AreLed, AreOwn, first_some, lesser};

use av_base::ByteList;
use std::alloc::{AllocError, Global};

/// For each word the number of the first pattern that is this word, counted from 1, and 0 where none is. The ends are the
/// patterns' states.
pub fn own_outputs(
    alloc: Global,
    patterns: &[ByteList],
    words: &[ByteList],
    ends: &[u16],
) -> Result<Vec<u16>, AllocError>
    requires patterns { ArePatterns patterns.now }
    requires distinct { AreDistinct words.now }
    requires ends { AreEnds 64 0 patterns.now words.now ends.now }
    ensures { IfOk result (λ o. AreOwn patterns.now words.now o.items) }
{
    let mut own = Vec::from_elem(alloc, 0u16, words.len())?;
    for index in 0..patterns.len() {
        let state = ends[index] as usize;
        if own[state] == 0 {
            own[state] = index as u16 + 1;
        }
    }
    Ok(own)
}

/// The number of the first pattern that ends each word: the lesser of its own and of what its fail gives out.
pub fn outputs_of(alloc: Global, own: &[u16], fails: &[u16]) -> Result<Vec<u16>, AllocError>
    requires size { length fails.now ≡ length own.now }
    requires earlier { (s : ℕ) → 1 ≤ s → s < length own.now → slice_index fails.now s < s }
    ensures { IfOk result (λ o. AreLed lesser own.now fails.now o.items) }
{
    let mut outputs = own.to_vec(alloc)?;
    for state in 1..outputs.len() {
        outputs[state] = lesser(outputs[state], outputs[fails[state] as usize]);
    }
    Ok(outputs)
}

/// The number of a longest pattern that ends each word: its own, or else that at which its fail stops.
pub fn stops_of(alloc: Global, own: &[u16], fails: &[u16]) -> Result<Vec<u16>, AllocError>
    requires size { length fails.now ≡ length own.now }
    requires earlier { (s : ℕ) → 1 ≤ s → s < length own.now → slice_index fails.now s < s }
    ensures { IfOk result (λ o. AreLed first_some own.now fails.now o.items) }
{
    let mut stops = own.to_vec(alloc)?;
    for state in 1..stops.len() {
        if stops[state] == 0 {
            stops[state] = stops[fails[state] as usize];
        }
    }
    Ok(stops)
}

// The lesser of two numbers, where 0 stands for none.
fn lesser(one: u16, other: u16) -> u16
    ensures { result ≡ lesser one other }
{
    if one == 0 {
        other
    } else if other == 0 {
        one
    } else {
        one.min(other)
    }
}
