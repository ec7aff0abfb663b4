//! The names that a file can get in a folder.
ghost use Rattle.std.specs.Prelude.{◌≡◌, ◌++◌, codes, decimal, string_bytes, IfOk};
ghost use Rattle.std.specs.Path.{path_buf_bytes};
ghost use Rattle.av_quarantine.specs.Naming.{numbered, place_of};

use std::alloc::{AllocError, Global};
use std::path::{Path, PathBuf};

/// The path of a name in a folder, with a number behind it from 1 on.
pub fn place(alloc: Global, folder: &str, name: &str, number: u16) -> Result<PathBuf, AllocError>
    ensures { IfOk result (λ path. path_buf_bytes path ≡ place_of folder.now name.now number) }
{
    let numbered = numbered(alloc, name, number)?;
    Path::new(folder).join(alloc, numbered.as_str())
}

fn numbered(alloc: Global, name: &str, number: u16) -> Result<String, AllocError>
    ensures { IfOk result (λ text. string_bytes text ≡ numbered name.now number) }
{
    if number == 0 {
        String::from_str(alloc, name)
    } else {
        with_number(alloc, name, u64::from(number))
    }
}

fn with_number(alloc: Global, name: &str, number: u64) -> Result<String, AllocError>
    ensures { IfOk result (λ text. string_bytes text ≡ name.now ++ codes "." ++ decimal number) }
{
    format!(in alloc; "{name}.{number}")
}
