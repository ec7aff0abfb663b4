ghost use Rattle.std.specs.Prelude.{◌≡◌};
ghost use Rattle.av_sigset.specs.Set.{widest};
ghost use Rattle.av_sigset.specs.declared.signature.Pattern.{Pattern};

use av_base::ByteList;
use std::convert::AsSlice;

/// The most bytes of a pattern.
pub const MAX_PATTERN: usize = 64;

/// The last place of a content at which a match can begin, counted from 0.
pub const MAX_PLACE: u64 = 1_048_575;

/// The places of a content at which a match may begin, both among them: 0 to `MAX_PLACE`.
#[derive(Clone, Copy, Debug, PartialEq, Eq)]
pub struct Span {
    pub low: u64,
    pub high: u64,
}

impl Span {
    /// Every place of a content.
    pub const WIDEST: Span = Span {
        low: 0,
        high: MAX_PLACE,
    };
}

/// What a signature looks for: these bytes, 1 to `MAX_PATTERN` of them, one behind the other, where the first stands at
/// a place of the span.
#[derive(Clone, Debug, Drop)]
pub struct Pattern {
    pub bytes: ByteList,
    pub span: Span,
}

/// What lends itself as a pattern. Bare bytes may begin anywhere.
pub trait AsPattern {
    // The pattern that is lent.
    ghost pattern: { Self → Pattern };

    /// Its bytes.
    fn bytes(&self) -> &[u8]
        ensures { let p = pattern self.now in result.now ≡ p.bytes };

    /// Where a match of it may begin.
    fn span(&self) -> Span
        ensures { let p = pattern self.now in result ≡ p.span };
}

impl AsPattern for Pattern {
    ghost pattern = { λ p. p };

    fn bytes(&self) -> &[u8] {
        self.bytes.as_slice()
    }

    fn span(&self) -> Span {
        self.span
    }
}

impl AsPattern for &[u8] {
    ghost pattern = { λ x. record { bytes = x.now; span = widest } };

    fn bytes(&self) -> &[u8] {
        *self
    }

    fn span(&self) -> Span {
        Span::WIDEST
    }
}

impl AsPattern for (&[u8], u64, u64) {
    ghost pattern = { λ x. record { bytes = x.0.now; span = record { low = x.1; high = x.2 } } };

    fn bytes(&self) -> &[u8] {
        self.0
    }

    fn span(&self) -> Span {
        Span {
            low: self.1,
            high: self.2,
        }
    }
}

impl AsPattern for Signature {
    ghost pattern = { λ s. s.pattern };

    fn bytes(&self) -> &[u8] {
        self.pattern.bytes.as_slice()
    }

    fn span(&self) -> Span {
        self.pattern.span
    }
}

/// A pattern under its name, which is 1 to 32 letters, digits, `.`, `_` or `-` where it comes from a file.
#[derive(Debug, Drop)]
pub struct Signature {
    pub name: ByteList,
    pub pattern: Pattern,
}
