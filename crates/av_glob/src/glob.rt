ghost use Rattle.std.specs.Prelude.{◌≡◌, IfOk};
ghost use Rattle.av_glob.specs.Glob.{component, is_left_out, last_component, leaves_out};
ghost use Rattle.av_glob.specs.Reading.{ReadsGlob, glob_of};

use crate::item::{Item, SLASH};
use crate::reading::{GlobFault, ends, has, read_items};
use crate::row::matches;
use av_base::Refusal;
use std::alloc::{AllocError, Global};
use std::marker::Model;

/// Which paths a user leaves out. A glob without a slash is of last components, and one with a slash of whole paths.
#[derive(Drop)]
pub struct Glob {
    is_of_paths: bool,
    items: Vec<Item>,
}

impl Model for Glob {
    ghost use Rattle.av_glob.specs.Glob.{GlobValue};

    ghost Value = { GlobValue };

    ghost view = { λ g. record { is_of_paths = g.is_of_paths; items = g.items.items } };
}

impl Glob {
    /// The glob that a text spells.
    pub fn read(alloc: Global, text: &[u8]) -> Result<Glob, Refusal<GlobFault>>
        ensures { ReadsGlob result (glob_of text.now) }
    {
        if text.is_empty() {
            return Err(Refusal::Fault(GlobFault::Empty));
        }
        if ends(SLASH, text) {
            return Err(Refusal::Fault(GlobFault::Slash));
        }
        let items = read_items(alloc, text)?;
        Ok(Glob {
            is_of_paths: has(SLASH, text),
            items,
        })
    }

    /// Whether a path is left out.
    pub fn leaves_out(&self, alloc: Global, path: &[u8]) -> Result<bool, AllocError>
        ensures { IfOk result (λ is_out. is_out ≡ leaves_out self.now path.now) }
    {
        if self.is_of_paths {
            matches(alloc, self.items.as_slice(), path)
        } else {
            matches(alloc, self.items.as_slice(), last_component(path))
        }
    }
}

/// Whether some glob leaves a path out.
pub fn any_leaves_out(alloc: Global, globs: &[Glob], path: &[u8]) -> Result<bool, AllocError>
    ensures { IfOk result (λ is_out. is_out ≡ is_left_out globs.now path.now) }
{
    let mut rest = globs;
    'globs: while let Some((glob, below)) = rest.split_first() {
        if glob.leaves_out(alloc, path)? {
            return Ok(true);
        }
        rest = below;
    }
    Ok(false)
}

// The last component of a path.
fn last_component(path: &[u8]) -> &[u8]
    ensures { result.now ≡ last_component path.now }
{
    let mut last = path;
    let mut rest = path;
    'bytes: while let Some((byte, below)) = rest.split_first() {
        if *byte == SLASH {
            last = below;
        }
        rest = below;
    }
    last
}
