//! What clap read, as several programs ask for it.

use crate::request::{Finding, List, Named};
use av_base::line::LF;
use av_status::faults::EmptySets;
use av_status::tally::{Form, Shown, Wishes};
use clap::ArgMatches;
use std::alloc::{AllocError, Global};

/// The files that were named, and what is printed of them.
pub fn named_of<'a>(alloc: Global, matches: &ArgMatches<'a>) -> Result<Named<'a>, AllocError> {
    Ok(Named {
        files: files_of(alloc, matches)?,
        list: list_of(matches),
        wishes: wishes_of(matches),
        is_quiet: matches.get_flag("quiet"),
    })
}

pub fn finding_of(matches: &ArgMatches<'_>, max_size: u64) -> Finding {
    let is_recursive = matches.get_flag("recursive");
    Finding {
        is_recursive,
        keeps_going: is_recursive || matches.get_flag("keep-going"),
        max_size,
    }
}

fn wishes_of(matches: &ArgMatches<'_>) -> Wishes {
    let shown = if matches.get_flag("infected") {
        Shown::Infected
    } else {
        Shown::All
    };
    Wishes {
        shown,
        form: form_of(matches, ended_form(matches)),
        has_found_status: matches.get_flag("found-status"),
        has_summary: matches.get_flag("summary"),
    }
}

/// In JSON, where that is asked for, or as is said else.
pub fn form_of(matches: &ArgMatches<'_>, form: Form) -> Form {
    if matches.get_flag("json") {
        Form::Json
    } else {
        form
    }
}

// Words of files: in lines, or each ended by a zero byte.
fn ended_form(matches: &ArgMatches<'_>) -> Form {
    if matches.get_flag("print0") {
        Form::ZeroEnded
    } else {
        Form::Lines
    }
}

pub fn files_of<'a>(alloc: Global, matches: &ArgMatches<'a>) -> Result<Vec<&'a str>, AllocError> {
    let mut files = Vec::new(alloc);
    if let Some(names) = matches.get_strs("file") {
        files.extend_from_slice(names)?;
    }
    Ok(files)
}

// The list of further files, where there is one.
fn list_of<'a>(matches: &ArgMatches<'a>) -> Option<List<'a>> {
    let path = matches.get_str("files-from")?;
    let end = if matches.get_flag("null") { 0 } else { LF };
    Some(List { path, end })
}

pub fn empty_sets_of(matches: &ArgMatches<'_>) -> EmptySets {
    if matches.get_flag("allow-empty") {
        EmptySets::Allowed
    } else {
        EmptySets::Refused
    }
}

/// A word that the command requires.
pub fn text_of<'a>(matches: &ArgMatches<'a>, name: &str) -> &'a str {
    matches.get_str(name).unwrap_or("-")
}

pub fn number_of(matches: &ArgMatches<'_>, name: &str) -> u64 {
    matches.get_one::<u64>(name).unwrap_or(1)
}

/// A number that has a default.
pub fn count_of(matches: &ArgMatches<'_>, name: &str) -> usize {
    matches.get_one::<usize>(name).unwrap_or(1)
}

/// The rights of a socket, by the three digits that chmod has for them.
pub fn mode_of(matches: &ArgMatches<'_>, name: &str) -> u32 {
    match matches.get_str(name) {
        Some("660") => 0o660,
        Some("666") => 0o666,
        _ => 0o600,
    }
}
