// Which fronts of a text are matched: a row has a mark for each place of the text, and an item moves the marks on. So items match
// a text in a time that grows with the product of both lengths.
ghost use Rattle.std.specs.Prelude.{◌≡◌, ◌++◌, IfOk, OnOk, false};
ghost use Rattle.av_glob.specs.Glob.{fits, matches, repeats};
ghost use Rattle.av_glob.specs.Row.{begun, is_open, is_reached, last_so, moved};

use crate::item::Item;
use std::alloc::{AllocError, Global};
use std::mem;

/// Whether items match a whole text.
pub(crate) fn matches(alloc: Global, items: &[Item], text: &[u8]) -> Result<bool, AllocError>
    ensures { IfOk result (λ is_matched. is_matched ≡ matches items.now text.now) }
{
    let mut row = begun(alloc, text)?;
    let mut next = Vec::with_capacity(alloc, row.len())?;
    let mut rest = items;
    'items: while let Some((item, below)) = rest.split_first() {
        next.clear();
        move_on(item, row.as_slice(), text, &mut next)?;
        mem::swap(&mut row, &mut next);
        rest = below;
    }
    Ok(is_last_marked(row.as_slice()))
}

// No item yet: the empty front alone is matched.
fn begun(alloc: Global, text: &[u8]) -> Result<Vec<bool>, AllocError>
    ensures row { IfOk result (λ row. row.items ≡ begun text.now) }
{
    let mut row = Vec::new(alloc);
    row.push(true)?;
    let mut rest = text;
    'bytes: while let Some((_, below)) = rest.split_first() {
        row.push(false)?;
        rest = below;
    }
    Ok(row)
}

// Puts the row behind one item more.
fn move_on(item: &Item, row: &[bool], text: &[u8], next: &mut Vec<bool>) -> Result<(), AllocError>
    ensures { OnOk result (next.new.items ≡ next.old.items ++ moved (repeats item.now) (fits item.now) false row.now text.now) }
{
    let is_repeated = item.repeats();
    let mut before = false;
    let mut marks = row;
    let mut rest = text;
    'marks: while let Some((mark, later)) = marks.split_first() {
        next.push(is_reached(is_repeated, before, *mark))?;
        let Some((byte, below)) = rest.split_first() else {
            return Ok(());
        };
        before = is_open(is_repeated, before, *mark) && item.fits(*byte);
        marks = later;
        rest = below;
    }
    Ok(())
}

// Whether a place is reached: from the place before by a byte, and where any number is taken with none.
fn is_reached(is_repeated: bool, before: bool, mark: bool) -> bool
    ensures { result ≡ is_reached is_repeated before mark }
{
    if is_repeated { before || mark } else { before }
}

// Whether a further byte may be taken from a place.
fn is_open(is_repeated: bool, before: bool, mark: bool) -> bool
    ensures { result ≡ is_open is_repeated before mark }
{
    if is_repeated { before || mark } else { mark }
}

// Whether the last place is marked.
fn is_last_marked(row: &[bool]) -> bool
    ensures { result ≡ last_so false row.now }
{
    let mut last = false;
    let mut marks = row;
    'marks: while let Some((mark, later)) = marks.split_first() {
        last = *mark;
        marks = later;
    }
    last
}
