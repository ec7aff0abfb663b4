//! What a client asked about and was not answered yet, for the line of the answer.

ghost use Rattle.std.specs.Prelude.{◌≡◌, ◌≤◌, ◌<◌, ◌+◌, ◌++◌, ◌∷◌, [], length, drop, take, slice_get, None, IfErr, IfNone, IfSome, OnOk};
ghost use Rattle.av_log.specs.Notes.{note_of, others_of};

use av_base::ByteList;
use std::alloc::Global;
use std::marker::Model;

// The most notes of one client. It is owed fewer answers than that.
const MOST: usize = 512;

/// What an ask was about.
#[derive(Drop)]
pub struct AskNote {
    /// The client's number of the ask.
    pub tag: u64,
    /// How many bytes the content has.
    pub bytes: u64,
    /// The client's name for the content, where it says one.
    pub label: Option<ByteList>,
}

/// The notes of one client, in the order of its asks.
#[derive(Drop)]
pub struct Notes {
    notes: Vec<AskNote>,
}

impl Model for Notes {
    ghost use Rattle.std.specs.Prelude.{◌≤◌, List, vec_len};
    ghost use Rattle.av_log.specs.declared.notes.AskNote.{AskNote};

    ghost Value = { List AskNote };

    ghost view = { λ n. n.notes.items };

    ghost invariant = { λ n. vec_len n.notes ≤ 512 };
}

impl Notes {
    /// None.
    pub fn new(alloc: Global) -> Notes
        ensures { result ≡ [] }
    {
        Notes {
            notes: Vec::new(alloc),
        }
    }

    /// One more. Where there are 512, or memory is refused, it is handed back.
    pub fn put(&mut self, note: AskNote) -> Result<(), AskNote>
        ensures ok { OnOk result (self.new ≡ self.old ++ note ∷ []) }
        ensures err { IfErr result (λ n. (n ≡ note) × (self.new ≡ self.old)) }
        ensures bounded { length self.new ≤ 512 }
    {
        if self.notes.len() >= MOST {
            return Err(note);
        }
        match self.notes.push(note) {
            Ok(_) => Ok(()),
            Err(failed) => Err(failed.value),
        }
    }

    /// The first note of a tag leaves: the client is answered. Where it asked under one tag more than once, its asks are told in the order
    /// in which they came.
    pub fn take(&mut self, tag: u64) -> Option<AskNote>
        ensures taken { result ≡ note_of tag self.old }
        ensures others { self.new ≡ others_of tag self.old }
    {
        let place = place_of(self.notes.as_slice(), tag)?;
        Some(self.notes.remove(place))
    }
}

// Where the first note of a tag is.
#[tactic(auto, using(crate::proofs::NotesLemmas::drop_next, crate::proofs::NotesLemmas::take_next, crate::proofs::NotesLemmas::get_next))]
fn place_of(notes: &[AskNote], tag: u64) -> Option<usize>
    ensures none { IfNone result ((note_of tag notes.now ≡ None) × (others_of tag notes.now ≡ notes.now)) }
    ensures within { IfSome result (λ i. i < length notes.now) }
    ensures note { IfSome result (λ i. slice_get notes.now i ≡ note_of tag notes.now) }
    ensures others { IfSome result (λ i. take i notes.now ++ drop (i + 1) notes.now ≡ others_of tag notes.now) }
{
    let mut place = 0usize;
    let mut rest = notes;
    'notes: while let Some((note, below)) = rest.split_first() {
        if note.tag == tag {
            return Some(place);
        }
        place += 1;
        rest = below;
    }
    None
}
