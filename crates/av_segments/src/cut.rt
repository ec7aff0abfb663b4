//! Whether a content may be cut.
ghost use Rattle.std.specs.Prelude.{◌≡◌};
ghost use Rattle.av_match.specs.Scanning.{are_bound, is_bound};
ghost use Rattle.av_sigset.specs.Set.{patterns_of};
ghost use Rattle.av_segments.specs.Segments.{may_be_cut};

use av_files::Scanners;
use av_sigset::signature::MAX_PLACE;
use av_sigset::{Signature, Span};

/// Whether a content may be cut for these sets: no signature of theirs is bound to places.
pub fn may_be_cut(scanners: &Scanners) -> bool
    ensures { result ≡ may_be_cut scanners.now }
{
    'sets: for place in 0..scanners.len() {
        if let Some(named) = scanners.get(place) {
            if are_bound(named.scanner().set().signatures()) {
                return false;
            }
        }
    }
    true
}

// Whether one of these signatures is bound to places.
fn are_bound(signatures: &[Signature]) -> bool
    ensures { result ≡ are_bound (patterns_of signatures.now) }
{
    'signatures: for index in 0..signatures.len() {
        if is_bound(signatures[index].pattern.span) {
            return true;
        }
    }
    false
}

// Whether a match may not begin everywhere.
fn is_bound(span: Span) -> bool
    ensures { result ≡ is_bound span }
{
    0 < span.low || span.high < MAX_PLACE
}
