//! What is wrong with a configuration file, and how that is told.

ghost use Rattle.std.specs.Prelude.{◌≡◌};
ghost use Rattle.av_status.specs.declared.status.Status.TheVariants.{Usage};

use crate::bounds::Bounds;
use crate::place::Place;
use av_base::Part;
use av_status::Status;
use av_status::faults::{say_of, text};
use std::io::Write;

/// A key that a configuration file may not have, or whose value is none of what is wanted.
#[derive(Clone, Copy, Debug, PartialEq, Eq)]
pub struct Misfit<'a> {
    pub key: &'a str,
    pub wants: Wanted,
}

/// What is wanted at a key.
#[derive(Clone, Copy, Debug, PartialEq, Eq)]
pub enum Wanted {
    /// There is no such key.
    NoKey,
    /// The path of a socket.
    Socket,
    /// The path of a file.
    File,
    Flag,
    /// A number within bounds.
    Number(Bounds),
    /// The rights of a socket.
    Rights,
}

/// A configuration file is longer than it may be.
pub fn config_too_long<E: Write>(err: &mut E, file: &str) -> Status
    ensures { result ≡ Usage }
{
    say_of(err, file, &[text(": more than 65536 bytes")]);
    Status::Usage
}

/// A configuration file is no document of TOML from this place on.
pub fn bad_document<E: Write>(err: &mut E, file: &str, place: Place, why: &str) -> Status
    ensures { result ≡ Usage }
{
    say_of(
        err,
        file,
        &[
            text(":"),
            Part::Number(place.line),
            text(":"),
            Part::Number(place.column),
            text(": "),
            Part::Text(why.as_bytes()),
        ],
    );
    Status::Usage
}

/// A configuration file has a key that it may not have, or a value that is none of its key.
pub fn bad_setting<E: Write>(err: &mut E, file: &str, place: Place, misfit: Misfit<'_>) -> Status
    ensures { result ≡ Usage }
{
    let [least, between, greatest] = wanted_numbers(misfit.wants);
    let (key, colon) = shown_key(misfit.key);
    say_of(
        err,
        file,
        &[
            text(":"),
            Part::Number(place.line),
            text(":"),
            Part::Number(place.column),
            text(": "),
            Part::Text(key.as_bytes()),
            text(colon),
            text(wanted_words(misfit.wants)),
            least,
            between,
            greatest,
        ],
    );
    Status::Usage
}

// What is wanted, in words.
fn wanted_words(wanted: Wanted) -> &'static str {
    match wanted {
        Wanted::NoKey => "no such key",
        Wanted::Socket => "expected the path of a socket, 1 to 107 bytes in quotes",
        Wanted::File => "expected the path of a file in quotes",
        Wanted::Flag => "expected true or false",
        Wanted::Number(_) => "expected a number from ",
        Wanted::Rights => "expected \"600\", \"660\" or \"666\"",
    }
}

fn wanted_numbers(wanted: Wanted) -> [Part<'static>; 3] {
    match wanted {
        Wanted::Number(bounds) => [
            Part::Number(bounds.least),
            text(" to "),
            Part::Number(bounds.greatest),
        ],
        _ => [text(""), text(""), text("")],
    }
}

// A key as it is shown, and what follows it. One that has other bytes than those of keys without quotes isn't shown.
fn shown_key(key: &str) -> (&str, &'static str) {
    let is_bare = key.as_bytes().iter().all(|byte| byte.is_ascii_alphanumeric()
        || *byte == b'-'
        || *byte == b'_');
    if is_bare { (key, ": ") } else { ("", "") }
}

/// A guard can't be without a setting that neither the file nor the command line names.
pub fn setting_missing<E: Write>(err: &mut E, file: &str, key: &'static str) -> Status
    ensures { result ≡ Usage }
{
    say_of(err, file, &[text(": "), text(key), text(" is missing")]);
    Status::Usage
}
