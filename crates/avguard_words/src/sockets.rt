//! The guard that words and a configuration file ask for: its sockets can be ones, no two are the same, and names are of use.

ghost use Rattle.std.specs.Prelude.{◌≡◌, All, IfErr, IfNone, IfOk, true, string_bytes};
ghost use Rattle.std.specs.BTreeMap.{keys};
ghost use Rattle.toml.specs.View.{table_view};
ghost use Rattle.av_status.specs.declared.status.Status.TheVariants.{Usage};
ghost use Rattle.avguard_words.specs.Config.{IsRunBy, is_key};
ghost use Rattle.avguard_words.specs.Settings.{HasUseOfNames, IsConfigured};
ghost use Rattle.avguard_words.specs.Words.{AreApart, HasSockets};

use crate::config::config_settings;
use crate::misfit::setting_missing;
use crate::request::{Configured, Guard};
use crate::settings::Settings;
use av_status::faults::{bad_socket, same_socket};
use av_status::status::Status;
use av_words::bad_socket_of;
use std::alloc::Global;
use std::io::Write;
use toml::Table;

/// The guard that is run as the words say, and as the document of a configuration file does where they say nothing. `text` is its
/// text, by which the place of a fault is told.
pub fn configured<'a, E: Write>(
    alloc: Global,
    asked: Configured<'a>,
    text: &[u8],
    table: &'a Table,
    err: &mut E,
) -> Result<Guard<'a>, Status>
    ensures guard { IfOk result (IsRunBy asked.entry.words (table_view table.now)) }
    ensures known { IfOk result (λ _. All (λ key. is_key (string_bytes key) ≡ true) (keys table.now)) }
    ensures sockets { IfOk result HasSockets }
    ensures apart { IfOk result AreApart }
    ensures names { IfOk result HasUseOfNames }
    ensures fault { IfErr result (λ status. status ≡ Usage) }
{
    match config_settings(alloc, asked.config, text, table, err) {
        Ok(file) => guard_by(asked, file, err),
        Err(status) => Err(status),
    }
}

// The same, by what the file says.
fn guard_by<'a, E: Write>(
    asked: Configured<'a>,
    file: Settings<'a>,
    err: &mut E,
) -> Result<Guard<'a>, Status>
    ensures guard { IfOk result (IsConfigured asked.entry.words file.entry) }
    ensures sockets { IfOk result HasSockets }
    ensures apart { IfOk result AreApart }
    ensures names { IfOk result HasUseOfNames }
    ensures fault { IfErr result (λ status. status ≡ Usage) }
{
    let both = asked.words.over(file);
    let Some(opens) = both.opens else {
        return Err(setting_missing(err, asked.config, "opens"));
    };
    let Some(service) = both.service else {
        return Err(setting_missing(err, asked.config, "service"));
    };
    if both.names.is_some() && both.clamd.is_none() {
        return Err(setting_missing(err, asked.config, "clamd"));
    }
    if both.trust.is_some() && both.names.is_none() {
        return Err(setting_missing(err, asked.config, "names"));
    }
    with_sockets(both.guard_at(opens, service), err)
}

/// The guard, where the paths of its sockets can be ones, and no two are the same.
pub(crate) fn with_sockets<'a, E: Write>(guard: Guard<'a>, err: &mut E) -> Result<Guard<'a>, Status>
    ensures same { IfOk result (λ same. same ≡ guard.entry) }
    ensures sockets { IfOk result HasSockets }
    ensures apart { IfOk result AreApart }
    ensures fault { IfErr result (λ status. status ≡ Usage) }
{
    if let Some(socket) = first_bad_of(guard) {
        return Err(bad_socket(err, socket));
    }
    match twice_of(guard) {
        Some(socket) => Err(same_socket(err, socket)),
        None => Ok(guard),
    }
}

// A path that two sockets of the guard have.
fn twice_of<'a>(guard: Guard<'a>) -> Option<&'a str>
    ensures { IfNone result (AreApart guard.entry) }
{
    if guard.opens == guard.service {
        return Some(guard.opens);
    }
    match guard.clamd {
        Some(clamd) if clamd == guard.opens || clamd == guard.service => Some(clamd),
        _ => None,
    }
}

fn first_bad_of<'a>(guard: Guard<'a>) -> Option<&'a str>
    ensures { IfNone result (HasSockets guard.entry) }
{
    if let Some(opens) = bad_socket_of(guard.opens) {
        return Some(opens);
    }
    if let Some(service) = bad_socket_of(guard.service) {
        return Some(service);
    }
    match guard.clamd {
        Some(clamd) => bad_socket_of(clamd),
        None => None,
    }
}
