//! The items of a glob.
ghost use Rattle.std.specs.Prelude.{◌≡◌};
ghost use Rattle.av_glob.specs.Glob.{fits, repeats};

use crate::class::is_member;
use av_base::ByteList;

/// A slash, which only some items take.
pub const SLASH: u8 = 47;

/// What a part of a path may be.
#[derive(Drop)]
pub enum Item {
    /// This byte.
    Byte(u8),
    /// A byte that is no slash.
    One,
    /// A byte of a class, or one that is none of it, and no slash.
    Class { is_negated: bool, members: ByteList },
    /// Any number of bytes that are no slash.
    Star,
    /// Any number of bytes.
    Stars,
}

impl Item {
    /// Whether the item takes this byte.
    pub fn fits(&self, byte: u8) -> bool
        ensures { result ≡ fits self.now byte }
    {
        match self {
            Item::Byte(wanted) => *wanted == byte,
            Item::One | Item::Star => byte != SLASH,
            Item::Class {
                is_negated,
                members,
            } => byte != SLASH && is_member(members.as_slice(), byte) != *is_negated,
            Item::Stars => true,
        }
    }

    /// Whether the item takes any number of bytes.
    pub fn repeats(&self) -> bool
        ensures { result ≡ repeats self.now }
    {
        matches!(self, Item::Star | Item::Stars)
    }
}
