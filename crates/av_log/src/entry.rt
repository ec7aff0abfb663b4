//! What a line says.

ghost use Rattle.std.specs.Prelude.{◌≡◌, ◌++◌, ◌∷◌, [], codes, map, IfOk, OnOk};
ghost use Rattle.av_base.specs.Port.{port_number};
ghost use Rattle.av_log.specs.Entry.{asked_items, asker_items, at_port, cause_items, denial_items, end_items, found_items, happened, is_logged, items_of, judged_items, label_items, large_cause_items, large_items, name_items, told_items, versioned, way_of};
ghost use Rattle.av_log.specs.Words.{Bytes, Number, Word, item_of};

use crate::field::Field;
use av_asks::LargeCause;
use av_base::{Cause, Port, Version};
use av_json::why;
use std::alloc::{AllocError, Global};

/// What an ask was answered.
#[derive(Clone, Copy)]
pub enum Judged {
    /// The content is clean under the set of this version.
    Granted {
        version: Version,
    },
    /// A signature of this index, counted from 0 in the set of this version, occurs in it, and ends with this byte.
    Infected {
        version: Version,
        signature: u32,
        end: u64,
    },
    /// It could not be judged, and is kept out.
    Denied {
        cause: Cause,
    },
    /// It could not be judged, and is let through.
    Unscanned {
        cause: Cause,
    },
    /// It came in parts, was not judged for a cause of its own, and is kept out.
    LargeDenied {
        cause: LargeCause,
    },
    /// It came in parts, was not judged for a cause of its own, and is let through.
    LargeUnscanned {
        cause: LargeCause,
    },
}

/// At which socket an ask came.
#[derive(Clone, Copy)]
pub enum AskSocket {
    Opens,
    Clamd,
}

/// What was asked about.
#[derive(Clone, Copy)]
pub struct Asked<'a> {
    /// How many bytes the content has.
    pub bytes: u64,
    /// The client's name for it, where it says one.
    pub label: Option<&'a [u8]>,
}

/// An answer, and to whom.
#[derive(Clone, Copy)]
pub struct Told<'a> {
    pub judged: Judged,
    /// The name of the signature, where the guard is told names.
    pub name: Option<&'a [u8]>,
    pub way: AskSocket,
    /// The guard's number of the client.
    pub client: u64,
    /// The client's own number of the ask.
    pub tag: u64,
    /// What was asked about, where that was kept.
    pub asked: Option<Asked<'a>>,
}

/// What has a line.
#[derive(Clone, Copy)]
pub enum LogEntry<'a> {
    Told(Told<'a>),
    /// A service with a set of this version is there, at this port.
    Connected { port: Port, version: Version },
    /// The service of a port is gone.
    Lost(Port),
    /// The service of a port has a newer set.
    Newer { port: Port, version: Version },
    /// A service was turned away, whose set is older than the least that is believed.
    Older { version: Version, least: Version },
    /// A service was turned away, whose set is above the most that is believed.
    Above { version: Version, most: Version },
    /// A service did not greet.
    Silent,
    /// The service of a port answered none of many questions in a row.
    Stuck(Port),
    /// The service of a port answered none of its questions for too long, and the other one is asked.
    Quiet(Port),
    /// The second connection of the service is there, for contents in parts, under a set of this version.
    PartsConnected(Version),
    /// The second connection of the service is gone.
    PartsLost,
    /// A second connection was turned away, whose set is older than the guard's.
    PartsOlder { version: Version, least: Version },
    /// The file that keeps the version could not be written.
    Unkept(Version),
    /// The longest idle client was closed, since all places are taken.
    Crowded,
    /// So many lines of this log were dropped.
    Dropped(u64),
}

/// Whether an answer has a line: a grant has one where that is asked for, and any other always.
pub fn is_logged(has_grants: bool, judged: Judged) -> bool
    ensures { result ≡ is_logged has_grants judged }
{
    has_grants || !matches!(judged, Judged::Granted { .. })
}

/// The fields of a line, behind its time.
pub fn fields_of<'a>(alloc: Global, entry: &LogEntry<'a>) -> Result<Vec<Field<'a>>, AllocError>
    ensures { IfOk result (λ fields. map item_of fields.items ≡ items_of entry.now) }
{
    let mut fields = Vec::with_capacity(alloc, 16)?;
    put_entry(&mut fields, entry)?;
    Ok(fields)
}

fn put_entry<'a>(fields: &mut Vec<Field<'a>>, entry: &LogEntry<'a>) -> Result<(), AllocError>
    ensures { OnOk result (map item_of fields.new.items ≡ map item_of fields.old.items ++ items_of entry.now) }
{
    match entry {
        LogEntry::Told(told) => {
            put_word(fields, "event", "answer")?;
            put_told(fields, told)
        }
        LogEntry::Connected { port, version } => {
            put_version(fields, "service", "connected", *version)?;
            put_port(fields, *port)
        }
        LogEntry::Lost(port) => put_at_port(fields, "lost", *port),
        LogEntry::Newer { port, version } => {
            put_version(fields, "service", "newer", *version)?;
            put_port(fields, *port)
        }
        LogEntry::Older { version, least } => {
            put_version(fields, "service", "refused", *version)?;
            put_number(fields, "least", least.get())
        }
        LogEntry::Above { version, most } => {
            put_version(fields, "service", "refused", *version)?;
            put_number(fields, "most", most.get())
        }
        LogEntry::Silent => put_event(fields, "service", "silent"),
        LogEntry::Stuck(port) => put_at_port(fields, "stuck", *port),
        LogEntry::Quiet(port) => put_at_port(fields, "quiet", *port),
        LogEntry::PartsConnected(version) => put_version(fields, "parts", "connected", *version),
        LogEntry::PartsLost => put_event(fields, "parts", "lost"),
        LogEntry::PartsOlder { version, least } => {
            put_version(fields, "parts", "refused", *version)?;
            put_number(fields, "least", least.get())
        }
        LogEntry::Unkept(version) => put_version(fields, "state", "unwritten", *version),
        LogEntry::Crowded => put_event(fields, "client", "closed"),
        LogEntry::Dropped(lines) => {
            put_event(fields, "log", "dropped")?;
            put_number(fields, "lines", *lines)
        }
    }
}

// Puts what became of the service of a port.
fn put_at_port<'a>(fields: &mut Vec<Field<'a>>, how: &'a str, port: Port) -> Result<(), AllocError>
    ensures { OnOk result (map item_of fields.new.items ≡ map item_of fields.old.items ++ at_port how.now port) }
{
    put_event(fields, "service", how)?;
    put_port(fields, port)
}

fn put_port(fields: &mut Vec<Field<'_>>, port: Port) -> Result<(), AllocError>
    ensures { OnOk result (map item_of fields.new.items ≡ map item_of fields.old.items ++ Number (codes "port") (port_number port) ∷ []) }
{
    put_number(fields, "port", u64::from(port.number()))
}

fn put_told<'a>(fields: &mut Vec<Field<'a>>, told: &Told<'a>) -> Result<(), AllocError>
    ensures { OnOk result (map item_of fields.new.items ≡ map item_of fields.old.items ++ told_items told.now) }
{
    put_judged(fields, told.judged, told.name)?;
    put_asker(fields, told.way, told.client, told.tag)?;
    put_asked(fields, told.asked)
}

fn put_judged<'a>(
    fields: &mut Vec<Field<'a>>,
    judged: Judged,
    name: Option<&'a [u8]>,
) -> Result<(), AllocError>
    ensures { OnOk result (map item_of fields.new.items ≡ map item_of fields.old.items ++ judged_items judged name.entry) }
{
    match judged {
        Judged::Granted { version } => {
            put_word(fields, "answer", "granted")?;
            put_number(fields, "version", version.get())
        }
        Judged::Infected {
            version,
            signature,
            end,
        } => {
            put_denial(fields, "denied", Cause::Infected)?;
            put_found(fields, u64::from(signature), name)?;
            put_end(fields, end, version)
        }
        Judged::Denied { cause } => put_denial(fields, "denied", cause),
        Judged::Unscanned { cause } => put_denial(fields, "unscanned", cause),
        Judged::LargeDenied { cause } => put_large(fields, "denied", cause),
        Judged::LargeUnscanned { cause } => put_large(fields, "unscanned", cause),
    }
}

// Puts that a content in parts was not judged.
fn put_large<'a>(
    fields: &mut Vec<Field<'a>>,
    answer: &'a str,
    cause: LargeCause,
) -> Result<(), AllocError>
    ensures { OnOk result (map item_of fields.new.items ≡ map item_of fields.old.items ++ large_items answer.now cause) }
{
    put_word(fields, "answer", answer)?;
    put_large_cause(fields, cause)
}

fn put_large_cause(fields: &mut Vec<Field<'_>>, cause: LargeCause) -> Result<(), AllocError>
    ensures { OnOk result (map item_of fields.new.items ≡ map item_of fields.old.items ++ large_cause_items cause) }
{
    put_number(fields, "cause", u64::from(cause.number()))?;
    put_bytes(fields, "why", "why_hex", cause.text().as_bytes())
}

// Puts which signature occurs.
fn put_found<'a>(
    fields: &mut Vec<Field<'a>>,
    signature: u64,
    name: Option<&'a [u8]>,
) -> Result<(), AllocError>
    ensures { OnOk result (map item_of fields.new.items ≡ map item_of fields.old.items ++ found_items signature name.entry) }
{
    put_number(fields, "signature", signature)?;
    put_name(fields, name)
}

// Puts where it ends, and of which set it is.
fn put_end(fields: &mut Vec<Field<'_>>, end: u64, version: Version) -> Result<(), AllocError>
    ensures { OnOk result (map item_of fields.new.items ≡ map item_of fields.old.items ++ end_items end version) }
{
    put_number(fields, "end", end)?;
    put_number(fields, "version", version.get())
}

fn put_denial<'a>(
    fields: &mut Vec<Field<'a>>,
    answer: &'a str,
    cause: Cause,
) -> Result<(), AllocError>
    ensures { OnOk result (map item_of fields.new.items ≡ map item_of fields.old.items ++ denial_items answer.now cause) }
{
    put_word(fields, "answer", answer)?;
    put_cause(fields, cause)
}

fn put_cause(fields: &mut Vec<Field<'_>>, cause: Cause) -> Result<(), AllocError>
    ensures { OnOk result (map item_of fields.new.items ≡ map item_of fields.old.items ++ cause_items cause) }
{
    put_number(fields, "cause", u64::from(cause.number()))?;
    put_bytes(fields, "why", "why_hex", why(cause).as_bytes())
}

fn put_name<'a>(fields: &mut Vec<Field<'a>>, name: Option<&'a [u8]>) -> Result<(), AllocError>
    ensures { OnOk result (map item_of fields.new.items ≡ map item_of fields.old.items ++ name_items name.entry) }
{
    match name {
        None => Ok(()),
        Some(name) => put_bytes(fields, "name", "name_hex", name),
    }
}

fn put_asker(
    fields: &mut Vec<Field<'_>>,
    way: AskSocket,
    client: u64,
    tag: u64,
) -> Result<(), AllocError>
    ensures { OnOk result (map item_of fields.new.items ≡ map item_of fields.old.items ++ asker_items way client tag) }
{
    put_word(fields, "socket", way_of(way))?;
    put_number(fields, "client", client)?;
    put_number(fields, "tag", tag)
}

fn way_of(way: AskSocket) -> &'static str
    ensures { result.now ≡ way_of way }
{
    match way {
        AskSocket::Opens => "opens",
        AskSocket::Clamd => "clamd",
    }
}

fn put_asked<'a>(fields: &mut Vec<Field<'a>>, asked: Option<Asked<'a>>) -> Result<(), AllocError>
    ensures { OnOk result (map item_of fields.new.items ≡ map item_of fields.old.items ++ asked_items asked.entry) }
{
    match asked {
        None => Ok(()),
        Some(asked) => {
            put_number(fields, "bytes", asked.bytes)?;
            put_label(fields, asked.label)
        }
    }
}

fn put_label<'a>(fields: &mut Vec<Field<'a>>, label: Option<&'a [u8]>) -> Result<(), AllocError>
    ensures { OnOk result (map item_of fields.new.items ≡ map item_of fields.old.items ++ label_items label.entry) }
{
    match label {
        None => Ok(()),
        Some(label) => put_bytes(fields, "label", "label_hex", label),
    }
}

fn put_version<'a>(
    fields: &mut Vec<Field<'a>>,
    what: &'a str,
    how: &'a str,
    version: Version,
) -> Result<(), AllocError>
    ensures { OnOk result (map item_of fields.new.items ≡ map item_of fields.old.items ++ versioned what.now how.now version) }
{
    put_event(fields, what, how)?;
    put_number(fields, "version", version.get())
}

fn put_event<'a>(fields: &mut Vec<Field<'a>>, what: &'a str, how: &'a str) -> Result<(), AllocError>
    ensures { OnOk result (map item_of fields.new.items ≡ map item_of fields.old.items ++ happened what.now how.now) }
{
    put_word(fields, "event", what)?;
    put_word(fields, "state", how)
}

fn put_word<'a>(fields: &mut Vec<Field<'a>>, name: &'a str, text: &'a str) -> Result<(), AllocError>
    ensures { OnOk result (map item_of fields.new.items ≡ map item_of fields.old.items ++ Word name.now text.now ∷ []) }
{
    put(fields, Field::Word(name, text))
}

fn put_number<'a>(fields: &mut Vec<Field<'a>>, name: &'a str, number: u64) -> Result<(), AllocError>
    ensures { OnOk result (map item_of fields.new.items ≡ map item_of fields.old.items ++ Number name.now number ∷ []) }
{
    put(fields, Field::Number(name, number))
}

fn put_bytes<'a>(
    fields: &mut Vec<Field<'a>>,
    name: &'a str,
    digits: &'a str,
    bytes: &'a [u8],
) -> Result<(), AllocError>
    ensures { OnOk result (map item_of fields.new.items ≡ map item_of fields.old.items ++ Bytes name.now digits.now bytes.now ∷ []) }
{
    put(fields, Field::Bytes(name, digits, bytes))
}

#[tactic(auto, using(crate::proofs::WordsLemmas::map_one))]
fn put<'a>(fields: &mut Vec<Field<'a>>, field: Field<'a>) -> Result<(), AllocError>
    ensures { OnOk result (map item_of fields.new.items ≡ map item_of fields.old.items ++ item_of field.entry ∷ []) }
{
    fields.push(field)?;
    Ok(())
}
