//! What a configuration file says: a document of TOML whose keys are the words of `avguard run`.

ghost use Rattle.std.specs.Prelude.{◌≡◌, ◌≤◌, length, All, Err, Some, None, IfErr, IfNone, IfOk, IfSome, IsUtf8, false, true, string_bytes, option_map, option_copied};
ghost use Rattle.toml.specs.Errors.{IsMemory};
ghost use Rattle.std.specs.BTreeMap.{keys};
ghost use Rattle.toml.specs.Data.{as_bool, get_member};
ghost use Rattle.toml.specs.Parse.{parse_document};
ghost use Rattle.toml.specs.View.{table_view, view};
ghost use Rattle.av_status.specs.Status.{IsFault};
ghost use Rattle.av_status.specs.declared.status.Status.TheVariants.{Memory, Usage};
ghost use Rattle.avguard_words.specs.Config.{IsOfConfig, IsRead, IsSaid, IsWrong, file_in, is_file_key, is_flag_key, is_key, is_number_key, is_socket_key, number_in, rights_in, rights_named, socket_in};

use crate::bounds::{Bounds, KEEP, MAX_SOCKET, QUESTIONS, SIZES, VERSIONS, WAIT};
use crate::misfit::{Misfit, Wanted, bad_document, bad_setting, config_too_long};
use crate::place::{Place, find_key};
use crate::settings::Settings;
use av_status::Status;
use av_status::faults::out_of_memory;
use std::alloc::Global;
use std::io::Write;
use toml::de::Error;
use toml::{Table, Value};

/// The most bytes of a configuration file.
pub const MAX_CONFIG: usize = 65_536;

/// The document that the text of a configuration file is.
pub fn config_table<E: Write>(
    alloc: Global,
    file: &str,
    text: &[u8],
    err: &mut E,
) -> Result<Table, Status>
    ensures table { IfOk result (λ table. parse_document text.now ≡ Some (table_view table)) }
    ensures text { IfOk result (λ _. IsUtf8 text.now) }
    ensures short { IfOk result (λ _. length text.now ≤ 65_536) }
    ensures status { IfErr result IsOfConfig }
    ensures fault { IfErr result (λ status. IsFault status) }
    ensures refused { result ≡ Err Usage → length text.now ≤ 65_536 → IsUtf8 text.now → parse_document text.now ≡ None }
{
    if text.len() > MAX_CONFIG {
        return Err(config_too_long(err, file));
    }
    match toml::table_from_slice(alloc, text) {
        Ok(table) => Ok(table),
        Err(fault) => Err(no_document(file, text, &fault, err)),
    }
}

fn no_document<E: Write>(file: &str, text: &[u8], fault: &Error, err: &mut E) -> Status
    ensures status { IsOfConfig result }
    ensures fault { IsFault result }
    ensures usage { result ≡ Usage → ¬ IsMemory fault.now }
{
    let Some(span) = fault.span() else {
        return out_of_memory(err);
    };
    let front = text.get(..span.start).unwrap_or(b"".as_slice());
    bad_document(err, file, Place::behind(front), fault.message())
}

/// What the document of a configuration file says. `text` is its text, by which the place of a fault is told.
pub(crate) fn config_settings<'a, E: Write>(
    alloc: Global,
    file: &str,
    text: &[u8],
    table: &'a Table,
    err: &mut E,
) -> Result<Settings<'a>, Status>
    ensures said { IfOk result (IsSaid (table_view table.now)) }
    ensures known { IfOk result (λ _. All (λ key. is_key (string_bytes key) ≡ true) (keys table.now)) }
    ensures status { IfErr result (λ status. status ≡ Usage) }
{
    match settings_in(table) {
        Ok(settings) => Ok(settings),
        Err(misfit) => {
            let found = find_key(alloc, str::from_utf8(text).unwrap_or(""), misfit.key);
            let place = match misfit.wants {
                Wanted::NoKey => found.key,
                _ => found.value,
            };
            Err(bad_setting(err, file, place, misfit))
        }
    }
}

// The same, with what is wrong.
fn settings_in<'a>(table: &'a Table) -> Result<Settings<'a>, Misfit<'a>>
    ensures said { IfOk result (IsSaid (table_view table.now)) }
    ensures known { IfOk result (λ _. All (λ key. is_key (string_bytes key) ≡ true) (keys table.now)) }
    ensures wrong { IfErr result (IsWrong (table_view table.now)) }
{
    if let Some(key) = unknown_in(table) {
        let wants = Wanted::NoKey;
        return Err(Misfit { key, wants });
    }
    Ok(Settings {
        opens: socket_at(table, "opens")?,
        service: socket_at(table, "service")?,
        clamd: socket_at(table, "clamd")?,
        names: file_at(table, "names")?,
        trust: file_at(table, "trust")?,
        is_open: flag_at(table, "open")?,
        wait: number_at(table, "wait", WAIT)?,
        keep: number_at(table, "keep", KEEP)?,
        questions: number_at(table, "questions", QUESTIONS)?,
        max_size: number_at(table, "max-size", SIZES)?,
        stream_max_size: number_at(table, "stream-max-size", SIZES)?,
        mode: rights_at(table, "mode")?,
        service_mode: rights_at(table, "service-mode")?,
        least: number_at(table, "least", VERSIONS)?,
        most_version: number_at(table, "most-version", VERSIONS)?,
        state: file_at(table, "state")?,
        log: file_at(table, "log")?,
        log_grants: flag_at(table, "log-grants")?,
        log_json: flag_at(table, "log-json")?,
    })
}

// A key that no configuration file has.
fn unknown_in<'a>(table: &'a Table) -> Option<&'a str>
    ensures none { IfNone result (All (λ key. is_key (string_bytes key) ≡ true) (keys table.now)) }
    ensures some { IfSome result (λ key. is_key key.now ≡ false) }
{
    'keys: for key in table.keys() {
        if !is_known(key.as_str()) {
            return Some(key.as_str());
        }
    }
    None
}

fn is_known(name: &str) -> bool
    ensures { result ≡ is_key name.now }
{
    is_socket_key(name) || is_file_key(name) || is_number_key(name) || is_flag_key(name)
}

fn is_socket_key(name: &str) -> bool
    ensures { result ≡ is_socket_key name.now }
{
    name == "opens"
        || name == "service"
        || name == "clamd"
        || name == "mode"
        || name == "service-mode"
}

fn is_file_key(name: &str) -> bool
    ensures { result ≡ is_file_key name.now }
{
    name == "names" || name == "trust" || name == "state" || name == "log"
}

fn is_number_key(name: &str) -> bool
    ensures { result ≡ is_number_key name.now }
{
    name == "wait"
        || name == "keep"
        || name == "questions"
        || name == "max-size"
        || name == "stream-max-size"
        || name == "least"
        || name == "most-version"
}

fn is_flag_key(name: &str) -> bool
    ensures { result ≡ is_flag_key name.now }
{
    name == "open" || name == "log-grants" || name == "log-json"
}

// The value at a key.
fn value_at<'a>(table: &'a Table, key: &str) -> Option<&'a Value>
    ensures { option_map (λ v. view v.now) result ≡ get_member key.now (table_view table.now) }
{
    table.get(key)
}

fn socket_at<'a>(table: &'a Table, key: &'static str) -> Result<Option<&'a str>, Misfit<'a>>
    ensures read { IfOk result (λ found. IsRead socket_in (get_member key.entry.now (table_view table.now)) (option_copied found)) }
    ensures wrong { IfErr result (IsWrong (table_view table.now)) }
{
    let Some(value) = value_at(table, key) else {
        return Ok(None);
    };
    match socket_of(value) {
        Some(path) => Ok(Some(path)),
        None => Err(Misfit {
            key,
            wants: Wanted::Socket,
        }),
    }
}

fn socket_of(value: &Value) -> Option<&str>
    ensures { option_copied result ≡ socket_in (view value.now) }
{
    let path = value.as_str()?;
    if path.is_empty() || path.len() > MAX_SOCKET {
        return None;
    }
    Some(path)
}

fn file_at<'a>(table: &'a Table, key: &'static str) -> Result<Option<&'a str>, Misfit<'a>>
    ensures read { IfOk result (λ found. IsRead file_in (get_member key.entry.now (table_view table.now)) (option_copied found)) }
    ensures wrong { IfErr result (IsWrong (table_view table.now)) }
{
    let Some(value) = value_at(table, key) else {
        return Ok(None);
    };
    match file_of(value) {
        Some(path) => Ok(Some(path)),
        None => Err(Misfit {
            key,
            wants: Wanted::File,
        }),
    }
}

fn file_of(value: &Value) -> Option<&str>
    ensures { option_copied result ≡ file_in (view value.now) }
{
    let path = value.as_str()?;
    if path.is_empty() {
        return None;
    }
    Some(path)
}

fn flag_at<'a>(table: &'a Table, key: &'static str) -> Result<Option<bool>, Misfit<'a>>
    ensures read { IfOk result (IsRead as_bool (get_member key.entry.now (table_view table.now))) }
    ensures wrong { IfErr result (IsWrong (table_view table.now)) }
{
    let Some(value) = value_at(table, key) else {
        return Ok(None);
    };
    match value.as_bool() {
        Some(flag) => Ok(Some(flag)),
        None => Err(Misfit {
            key,
            wants: Wanted::Flag,
        }),
    }
}

fn number_at<'a>(
    table: &'a Table,
    key: &'static str,
    bounds: Bounds,
) -> Result<Option<u64>, Misfit<'a>>
    ensures read { IfOk result (IsRead (number_in bounds) (get_member key.entry.now (table_view table.now))) }
    ensures wrong { IfErr result (IsWrong (table_view table.now)) }
{
    let Some(value) = value_at(table, key) else {
        return Ok(None);
    };
    match number_of(value, bounds) {
        Some(number) => Ok(Some(number)),
        None => Err(Misfit {
            key,
            wants: Wanted::Number(bounds),
        }),
    }
}

fn number_of(value: &Value, bounds: Bounds) -> Option<u64>
    ensures { result ≡ number_in bounds (view value.now) }
{
    let signed = value.as_integer()?;
    if signed < 0 {
        return None;
    }
    let number = signed as u64;
    if bounds.least <= number && number <= bounds.greatest {
        Some(number)
    } else {
        None
    }
}

fn rights_at<'a>(table: &'a Table, key: &'static str) -> Result<Option<u32>, Misfit<'a>>
    ensures read { IfOk result (IsRead rights_in (get_member key.entry.now (table_view table.now))) }
    ensures wrong { IfErr result (IsWrong (table_view table.now)) }
{
    let Some(value) = value_at(table, key) else {
        return Ok(None);
    };
    match rights_of(value) {
        Some(rights) => Ok(Some(rights)),
        None => Err(Misfit {
            key,
            wants: Wanted::Rights,
        }),
    }
}

fn rights_of(value: &Value) -> Option<u32>
    ensures { result ≡ rights_in (view value.now) }
{
    rights_of_digits(value.as_str()?)
}

// The rights of three digits.
fn rights_of_digits(digits: &str) -> Option<u32>
    ensures { result ≡ rights_named digits.now }
{
    if digits == "600" {
        Some(0o600)
    } else if digits == "660" {
        Some(0o660)
    } else if digits == "666" {
        Some(0o666)
    } else {
        None
    }
}
