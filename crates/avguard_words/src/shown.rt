//! How a guard is run, as a configuration file would say it.

use crate::request::Guard;
use std::alloc::{AllocError, Global};

// The greatest number that TOML has.
const GREATEST: u64 = 9_223_372_036_854_775_807;

/// A line for each setting, of which the whole is a configuration file. A setting that is absent, and a version that no file can have,
/// have no line.
pub fn config_lines(alloc: Global, guard: Guard<'_>) -> Result<String, AllocError> {
    let mut lines = String::new(alloc);
    add_text(alloc, "opens", Some(guard.opens), &mut lines)?;
    add_text(alloc, "service", Some(guard.service), &mut lines)?;
    add_text(alloc, "clamd", guard.clamd, &mut lines)?;
    add_text(alloc, "names", guard.names, &mut lines)?;
    add_text(alloc, "trust", guard.trust, &mut lines)?;
    add_flag(alloc, "open", guard.is_open, &mut lines)?;
    add_number(alloc, "wait", guard.wait, &mut lines)?;
    add_number(alloc, "keep", guard.keep, &mut lines)?;
    add_number(alloc, "questions", guard.questions, &mut lines)?;
    add_number(alloc, "max-size", guard.max_size, &mut lines)?;
    add_number(alloc, "stream-max-size", guard.stream_max_size, &mut lines)?;
    add_text(alloc, "mode", Some(digits_of(guard.mode)), &mut lines)?;
    add_text(
        alloc,
        "service-mode",
        Some(digits_of(guard.service_mode)),
        &mut lines,
    )?;
    add_number(alloc, "least", guard.least, &mut lines)?;
    add_number(alloc, "most-version", guard.most_version, &mut lines)?;
    add_text(alloc, "state", guard.state, &mut lines)?;
    add_text(alloc, "log", guard.log, &mut lines)?;
    add_flag(alloc, "log-grants", guard.log_grants, &mut lines)?;
    add_flag(alloc, "log-json", guard.log_json, &mut lines)?;
    Ok(lines)
}

// The three digits that chmod has for rights.
fn digits_of(rights: u32) -> &'static str {
    match rights {
        0o660 => "660",
        0o666 => "666",
        _ => "600",
    }
}

fn add_text(
    alloc: Global,
    key: &str,
    text: Option<&str>,
    lines: &mut String,
) -> Result<(), AllocError> {
    let Some(text) = text else {
        return Ok(());
    };
    let quoted = quoted(alloc, text)?;
    add_line(alloc, key, quoted.as_str(), lines)
}

// A text in double quotes on one line, with each control character as an escape.
fn quoted(alloc: Global, text: &str) -> Result<String, AllocError> {
    let mut shown = String::new(alloc);
    shown.push('"')?;
    'characters: for character in text.chars() {
        if character == '"' || character == '\\' {
            shown.push('\\')?;
        }
        if character.is_control() {
            add_escape(alloc, character, &mut shown)?;
        } else {
            shown.push(character)?;
        }
    }
    shown.push('"')?;
    Ok(shown)
}

// A control character, which has a code below 256.
fn add_escape(alloc: Global, character: char, shown: &mut String) -> Result<(), AllocError> {
    let code = character as u32;
    match format!(in alloc; "\\u{code:04x}") {
        Ok(escape) => shown.push_str(escape.as_str()),
        Err(_) => Err(AllocError),
    }
}

fn add_flag(alloc: Global, key: &str, flag: bool, lines: &mut String) -> Result<(), AllocError> {
    let word = if flag { "true" } else { "false" };
    add_line(alloc, key, word, lines)
}

fn add_number(alloc: Global, key: &str, number: u64, lines: &mut String) -> Result<(), AllocError> {
    if number > GREATEST {
        return Ok(());
    }
    match format!(in alloc; "{number}") {
        Ok(digits) => add_line(alloc, key, digits.as_str(), lines),
        Err(_) => Err(AllocError),
    }
}

fn add_line(alloc: Global, key: &str, value: &str, lines: &mut String) -> Result<(), AllocError> {
    match format!(in alloc; "{key} = {value}\n") {
        Ok(line) => lines.push_str(line.as_str()),
        Err(_) => Err(AllocError),
    }
}
