// How names come to a line-up, and when one leaves.

ghost use Rattle.std.specs.Prelude.{◌≡◌, ℕ, List, Option, IfErr, IsOk};
ghost use Rattle.av_scan.specs.Coming.{AreAll};
ghost use Rattle.av_scan.specs.declared.coming.Coming.TheVariants.{More, Over};
ghost use Rattle.av_status.specs.Status.{IsFault};

use crate::feed::Feed;
use crate::line_up::LineUp;
use crate::truth::Truth;
use av_status::Status;
use av_status::faults::out_of_memory;
use std::fs::Files;
use std::io::Write;
use std::sync::Wait;

/// Whether names come to a line-up.
#[derive(Clone, Copy, Debug, PartialEq, Eq)]
pub enum Coming {
    More,
    /// All have come.
    Over,
    /// There was no memory for the next one, and none comes any more.
    Failed,
}

/// Lets the next name come, where there is room for it.
pub(crate) fn come<T: Truth, D: Files, R: Wait>(
    rt: &R,
    line: &mut LineUp<T>,
    feed: &mut Feed<'_, D>,
    coming: Coming,
) -> Coming
    ensures { (all : Option (List (List ℕ))) (told : List (List ℕ)) → AreAll all coming told line.old feed.old → AreAll all result told line.new feed.new }
{
    if coming == Coming::More && line.has_room() {
        next_comes(rt, line, feed)
    } else {
        coming
    }
}

fn next_comes<T: Truth, D: Files, R: Wait>(
    rt: &R,
    line: &mut LineUp<T>,
    feed: &mut Feed<'_, D>,
) -> Coming
    ensures { (all : Option (List (List ℕ))) (told : List (List ℕ)) → AreAll all More told line.old feed.old → AreAll all result told line.new feed.new }
{
    match feed.next() {
        Ok(Some(entry)) => match line.give(rt, entry) {
            Ok(()) => Coming::More,
            Err(_) => Coming::Failed,
        },
        Ok(None) => Coming::Over,
        Err(_) => Coming::Failed,
    }
}

/// Whether the first name has to leave: what became of it is known, or no other one may come before.
pub(crate) fn is_due<T: Truth, R: Wait>(rt: &R, line: &mut LineUp<T>, coming: Coming) -> bool
    ensures { line.new ≡ line.old }
{
    coming != Coming::More || !line.has_room() || line.is_ready(rt)
}

/// How a scan ends that nothing comes to any more.
pub(crate) fn over<E: Write>(coming: Coming, err: &mut E) -> Result<(), Status>
    ensures over { IsOk result → coming ≡ Over }
    ensures fault { IfErr result (λ status. IsFault status) }
{
    match coming {
        Coming::Over => Ok(()),
        Coming::More | Coming::Failed => Err(out_of_memory(err)),
    }
}
