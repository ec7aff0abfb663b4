ghost use Rattle.std.specs.Prelude.{◌≡◌, [], map, IfErr, IfOk};
ghost use Rattle.av_files.specs.Listed.{AreGivenAndListed, IsListOf};
ghost use Rattle.av_files.specs.declared.listed.Failing.TheVariants.{Ends};
ghost use Rattle.av_status.specs.Status.{IsFault};

use av_base::line::first_piece;
use av_status::faults::{bad_name, out_of_memory};
use av_status::status::Status;
use av_status::tally::Tally;
use std::alloc::{AllocError, Global};
use std::io::Write;

/// The names of a list, each ended by this byte, which the last may lack. An empty name is none.
pub fn listed<'a>(alloc: Global, text: &'a [u8], end: u8) -> Result<Vec<&'a [u8]>, AllocError>
    ensures { IfOk result (λ names. IsListOf end text.now (map (λ n. n.now) names.items)) }
{
    let mut names = Vec::new(alloc);
    let mut rest = text;
    'names: while !rest.is_empty() {
        let (name, below) = first_piece(rest, end);
        if !name.is_empty() {
            names.push(name)?;
        }
        rest = below.unwrap_or(b"".as_slice());
    }
    Ok(names)
}

/// What becomes of a file that can't be read, or of a name that is no text.
#[derive(Clone, Copy, Debug, PartialEq, Eq)]
pub enum Failing {
    /// It ends the program.
    Ends,
    /// It is told and passed over.
    Passes,
}

/// A list of names as it was read: the path of its file, its text, and the byte that ends each name.
#[derive(Clone, Copy)]
pub struct Listing<'a> {
    pub path: &'a str,
    pub text: &'a [u8],
    pub end: u8,
}

/// The given names, and after them the names of a list. A name that is not UTF-8 is told, with its number in the list. It ends the
/// run, or counts as missed.
pub fn with_listed<'a, 'b: 'a, E: Write>(
    alloc: Global,
    given: &[&'b str],
    list: Listing<'a>,
    failing: Failing,
    tally: &mut Tally,
    err: &mut E,
) -> Result<Vec<&'a str>, Status>
    ensures names { IfOk result (λ names. AreGivenAndListed list.entry.end list.entry.text.now (map (λ n. n.now) given.now) (map (λ n. n.now) names.items) tally.old tally.new) }
    ensures alone { list.entry.text.now ≡ [] → IfOk result (λ names. (map (λ n. n.now) names.items ≡ map (λ n. n.now) given.now) × (tally.new ≡ tally.old)) }
    ensures ends { failing ≡ Ends → IfOk result (λ names. tally.new ≡ tally.old) }
    ensures status { IfErr result (λ status. IsFault status) }
{
    let (Ok(listed), Ok(mut names)) = (listed(alloc, list.text, list.end), copied(alloc, given))
    else {
        return Err(out_of_memory(err));
    };
    for (before, bytes) in listed.iter().enumerate() {
        let Ok(name) = str::from_utf8(bytes) else {
            let status = bad_name(err, list.path, before as u64 + 1);
            if failing == Failing::Ends {
                return Err(status);
            }
            tally.add_missed(status);
            continue;
        };
        if names.push(name).is_err() {
            return Err(out_of_memory(err));
        }
    }
    Ok(names)
}

// The same names, for as long as those behind them are lent.
fn copied<'a, 'b: 'a>(alloc: Global, given: &[&'b str]) -> Result<Vec<&'a str>, AllocError>
    ensures { IfOk result (λ names. map (λ n. n.now) names.items ≡ map (λ n. n.now) given.now) }
{
    let mut names: Vec<&'a str> = Vec::new(alloc);
    for name in given {
        let name: &'a str = *name;
        names.push(name)?;
    }
    Ok(names)
}
