ghost use Rattle.std.specs.Prelude.{◌≡◌, ◌≤◌, ◌+◌, ◌++◌};
ghost use Rattle.arrayvec.specs.ArrayVec.{array_vec_len};
ghost use Rattle.av_guard.specs.Naming.{hash_of, letters, stem_of};

use arrayvec::ArrayVec;
use std::hash::{BuildHasher, Hasher, RandomState};

/// A name: 48 letters.
pub(crate) type Name = ArrayVec<u8, 48>;

/// What all names of a content begin with: its length and its hash under a key. It takes no memory, and a look at each byte.
#[tactic(auto, unfolding(crate::specs::Naming::stem_of))]
pub(crate) fn stem_of(key: RandomState, content: &[u8]) -> Name
    ensures name { result.items ≡ stem_of key content.now }
    ensures len { array_vec_len result ≡ 32 }
{
    let mut name = ArrayVec::new();
    push_letters(&mut name, content.len() as u64);
    push_letters(&mut name, hash_of(key, content));
    name
}

/// Adds a number in sixteen letters, for which there is room.
#[tactic(auto, using(crate::proofs::NameLemmas::letters_step, crate::proofs::NameLemmas::letters_end))]
pub(crate) fn push_letters(name: &mut Name, number: u64)
    requires { array_vec_len name.old + 16 ≤ 48 }
    ensures items { name.new.items ≡ name.old.items ++ letters 16 number }
    ensures len { array_vec_len name.new ≡ array_vec_len name.old + 16 }
{
    let mut rest = number;
    'letters: for _letter in 0_u64..16 {
        name.push(b'a' + (rest % 16) as u8);
        rest /= 16;
    }
}

// The keyed hash of a content. Without the key nobody finds contents that share a name faster than by trying them.
#[tactic(auto, unfolding(crate::specs::Naming::hash_of))]
fn hash_of(key: RandomState, content: &[u8]) -> u64
    ensures { result ≡ hash_of key content.now }
{
    let mut hasher = key.build_hasher();
    hasher.write(content);
    hasher.finish()
}
