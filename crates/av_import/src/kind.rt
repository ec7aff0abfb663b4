ghost use Rattle.std.specs.Prelude.{◌≡◌};
ghost use Rattle.av_base.specs.Line.{pieces_of};
ghost use Rattle.av_import.specs.Kind.{has_ending, is_of_hashes, kind_of, last_of};

use av_base::line::first_piece;

/// The forms of ClamAV's lines.
#[derive(Clone, Copy, Debug, PartialEq, Eq)]
pub enum Form {
    /// Name:Target:Offset:Hex
    Ndb,
    /// Name=Hex
    Db,
}

/// What a file is, by its ending.
#[derive(Clone, Copy, Debug, PartialEq, Eq)]
pub enum Kind {
    /// Lines of a form: `.ndb`, `.ndu`, `.db`.
    Lines(Form),
    /// YARA rules: `.yar`, `.yara`.
    Yara,
    /// Hashes of whole files or of sections.
    Hashes,
    /// Anything else.
    Unknown,
}

/// What a file of this path is.
pub fn kind_of(path: &[u8]) -> Kind
    ensures { result ≡ kind_of path.now }
{
    let ending = ending_of(path);
    if has_ending(ending, b"ndb") || has_ending(ending, b"ndu") {
        return Kind::Lines(Form::Ndb);
    }
    if has_ending(ending, b"db") {
        return Kind::Lines(Form::Db);
    }
    if has_ending(ending, b"yar") || has_ending(ending, b"yara") {
        return Kind::Yara;
    }
    if is_of_hashes(ending) {
        Kind::Hashes
    } else {
        Kind::Unknown
    }
}

fn is_of_hashes(ending: &[u8]) -> bool
    ensures { result ≡ is_of_hashes ending.now }
{
    has_ending(ending, b"hdb")
        || has_ending(ending, b"hdu")
        || has_ending(ending, b"hsb")
        || has_ending(ending, b"hsu")
        || has_ending(ending, b"mdb")
        || has_ending(ending, b"mdu")
        || has_ending(ending, b"msb")
        || has_ending(ending, b"msu")
        || has_ending(ending, b"imp")
        || has_ending(ending, b"fp")
        || has_ending(ending, b"sfp")
}

// Whether a word is this one, in letters of either case.
fn has_ending(ending: &[u8], word: &[u8]) -> bool
    ensures { result ≡ has_ending ending.now word.now }
{
    ending.eq_ignore_ascii_case(word)
}

// What stands behind the last dot, or the whole.
#[tactic(auto, using(crate::proofs::KindLemmas::last_behind, crate::proofs::KindLemmas::last_one))]
fn ending_of(path: &[u8]) -> &[u8]
    ensures { result.now ≡ last_of (pieces_of 46 path.now) }
{
    let mut rest = path;
    'dots: loop {
        let (piece, more) = first_piece(rest, b'.');
        match more {
            Some(more) => rest = more,
            None => return piece,
        }
    }
}
