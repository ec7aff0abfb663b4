ghost use Rattle.std.specs.Prelude.{◌≡◌, [], map, IfErr, IfOk, IfSome, IsOkAnd, None};
ghost use Rattle.av_files.specs.declared.listed.Failing.TheVariants.{Ends};
ghost use Rattle.av_status.specs.Status.{IsFault};
ghost use Rattle.av_program.specs.List.{AreNamed, failing_of};

use crate::reading::{Source, say_why};
use av_base::ReadFault;
use av_base::recorded::{Recorded, RecordedRead, read_whole};
use av_files::{Failing, Listing, TURNS, with_listed};
use av_status::faults::{out_of_memory, unreadable};
use av_status::{Status, Tally};
use av_words::{Finding, List, Named};
use std::alloc::Global;
use std::fs;
use std::io::Write;

/// The names that were given, and behind them those of a list, where there is one: its text is put into this room.
pub fn names_of<'a, 'b: 'a, E: Write>(
    rt: &HostRuntime,
    named: &Named<'b>,
    room: &'a mut Vec<u8>,
    failing: Failing,
    tally: &mut Tally,
    err: &mut E,
) -> Result<Vec<&'a str>, Status>
    ensures names { IfOk result (λ names. AreNamed named.now (map (λ n. n.now) names.items) tally.old tally.new) }
    ensures alone { named.now.list ≡ None → IfOk result (λ names.
        (map (λ n. n.now) names.items ≡ map (λ n. n.now) named.now.files.items) × (tally.new ≡ tally.old)) }
    ensures ends { failing ≡ Ends → IfOk result (λ names. tally.new ≡ tally.old) }
    ensures fault { IfErr result (λ status. IsFault status) }
{
    let alloc = rt.alloc();
    *room = list_text(rt, alloc, named.list, err)?;
    let (path, end) = match named.list {
        Some(list) => (list.path, list.end),
        None => ("", 0),
    };
    let text = room.as_slice();
    let list = Listing { path, text, end };
    with_listed(alloc, named.files.as_slice(), list, failing, tally, err)
}

// The text of a list, where one is asked for.
fn list_text<E: Write>(
    rt: &HostRuntime,
    alloc: Global,
    list: Option<List<'_>>,
    err: &mut E,
) -> Result<Vec<u8>, Status>
    ensures none { list.entry ≡ None → IsOkAnd result (λ text. text.items ≡ []) }
    ensures fault { IfErr result (λ status. IsFault status) }
{
    match list {
        Some(List { path: "-", .. }) => text_of(alloc, "-", &mut Recorded::new(rt.stdin()), err),
        Some(List { path, .. }) => whole_text(rt, alloc, path, err),
        None => Ok(Vec::new(alloc)),
    }
}

/// The whole text of a file, of any length.
pub fn whole_text<E: Write>(
    rt: &HostRuntime,
    alloc: Global,
    path: &str,
    err: &mut E,
) -> Result<Vec<u8>, Status>
    ensures { IfErr result (λ status. IsFault status) }
{
    match fs::open(rt, path) {
        Ok(file) => text_of(alloc, path, &mut Recorded::new(file), err),
        Err(_) => {
            let status = unreadable(err, path);
            say_why(rt, alloc, path, Source::Other, err);
            Err(status)
        }
    }
}

// All that a reader has left.
fn text_of<R: RecordedRead, E: Write>(
    alloc: Global,
    path: &str,
    reader: &mut R,
    err: &mut E,
) -> Result<Vec<u8>, Status>
    ensures whole { IfOk result (λ text. IfSome (R.remaining reader.old) (λ input. text.items ≡ input)) }
    ensures fault { IfErr result (λ status. IsFault status) }
{
    match read_whole(alloc, reader, usize::MAX, TURNS) {
        Ok(text) => Ok(text),
        Err(ReadFault::NoMemory) => Err(out_of_memory(err)),
        Err(_) => Err(unreadable(err, path)),
    }
}

/// What becomes of a run where a file fails.
pub fn failing(finding: Finding) -> Failing
    ensures { result ≡ failing_of finding }
{
    if finding.keeps_going {
        Failing::Passes
    } else {
        Failing::Ends
    }
}
