//! Which paths may be asked about.

ghost use Rattle.std.specs.Prelude.{◌≡◌, ◌↔◌, IsTrue};
ghost use Rattle.std.specs.Path.{path_components};
ghost use Rattle.av_paths.specs.Below.{BeginsWith, BeginsWithOne, IsBelow, IsPlain, has_up, has_zero};

use std::path::Path;

/// Whether a path is absolute, and has neither a component `..` nor a zero byte.
pub fn is_plain(path: &str) -> bool
    ensures { IsTrue result ↔ IsPlain path.now }
{
    Path::new(path).is_absolute() && !has_zero(path.as_bytes()) && !goes_up(path)
}

/// Whether a path is plain, and that of one of these folders or of something below one. They are compared by their components: `/a/bc`
/// is not below `/a/b`. A folder that is not plain has nothing below it.
pub fn is_below(path: &str, folders: &[&str]) -> bool
    ensures { IsTrue result ↔ IsBelow path.now folders.now }
{
    is_plain(path) && begins_with_one(path, folders)
}

fn begins_with_one(path: &str, folders: &[&str]) -> bool
    ensures { IsTrue result ↔ BeginsWithOne path.now folders.now }
{
    'folders: for place in 0..folders.len() {
        if begins_with(path, folders[place]) {
            return true;
        }
    }
    false
}

fn begins_with(path: &str, folder: &str) -> bool
    ensures { IsTrue result ↔ BeginsWith path.now folder.now }
{
    is_plain(folder) && Path::new(path).starts_with(folder)
}

fn has_zero(path: &[u8]) -> bool
    ensures { result ≡ has_zero path.now }
{
    let mut rest = path;
    'bytes: while let Some((byte, behind)) = rest.split_first() {
        if *byte == 0 {
            return true;
        }
        rest = behind;
    }
    false
}

// Whether a component is `..`.
fn goes_up(path: &str) -> bool
    ensures { result ≡ has_up (path_components path.now) }
{
    'components: for component in Path::new(path).components() {
        if component.as_os_str() == ".." {
            return true;
        }
    }
    false
}
