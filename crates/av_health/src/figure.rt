//! The figures of a report by their names.

ghost use Rattle.std.specs.Prelude.{◌≡◌, ◌++◌, ◌∷◌, [], map, IfOk, OnOk};
ghost use Rattle.av_health.specs.Figures.{help_line, metric_lines, metrics, names, number_line, object_of, sort_line, sort_word, text_line, text_lines};
ghost use Rattle.av_health.specs.Report.{numbers_of};
ghost use Rattle.av_json.specs.Member.{Puts, joined, number_tokens, object_tokens};

use crate::report::{FIGURES, Report};
use av_json::write_line;
use itoa::Buffer;
use json::Writer;
use std::alloc::{AllocError, Global};

/// Of which sort a figure is.
#[derive(Clone, Copy, Debug, PartialEq, Eq)]
pub enum Sort {
    /// It rises and falls.
    Gauge,
    /// It only rises, as long as the guard runs.
    Counter,
}

/// A number with its name.
#[derive(Clone, Copy)]
pub struct Figure {
    pub name: &'static str,
    /// What it counts, in a line.
    pub help: &'static str,
    pub sort: Sort,
    pub number: u64,
}

/// The figures of a report, each with its name.
#[tactic(auto, unfolding(crate::specs::Report::numbers_of))]
pub fn figures_of(report: &Report) -> [Figure; FIGURES]
    ensures numbers { map (λ f. f.number) result ≡ numbers_of report.now }
    ensures names { map (λ f. f.name.now) result ≡ names }
{
    let counts = &report.counts;
    [
        gauge(
            "ready",
            "1 if a service that has greeted is connected, else 0",
            report.ready,
        ),
        gauge(
            "version",
            "version of the signature set that grants",
            report.version,
        ),
        gauge("services", "connected services", report.services),
        gauge("clients", "connected clients", report.clients),
        gauge("unanswered", "asks without an answer", report.unanswered),
        gauge(
            "questions",
            "contents that the service is asked about",
            report.questions,
        ),
        gauge(
            "contents",
            "contents that are kept for later asks",
            report.contents,
        ),
        gauge(
            "content_bytes",
            "bytes of these contents",
            report.content_bytes,
        ),
        counter("asks_total", "asks", counts.asks),
        counter("grants_total", "answers that granted", counts.grants),
        counter("denials_total", "answers that denied", counts.denials),
        counter(
            "unscanned_total",
            "answers that let through what nobody judged",
            counts.unscanned,
        ),
        counter(
            "timeouts_total",
            "answers after the time was up",
            counts.timeouts,
        ),
        counter(
            "dropped_lines_total",
            "lines of the log that were dropped",
            counts.dropped_lines,
        ),
        gauge(
            "uptime_seconds",
            "seconds since the guard began",
            report.uptime_seconds,
        ),
        gauge(
            "service_seconds",
            "seconds since the service connected",
            report.service_seconds,
        ),
        gauge("memory_bytes", "memory of the guard", report.memory_bytes),
        gauge(
            "parts",
            "1 if the service takes contents in parts, else 0",
            report.parts,
        ),
        gauge(
            "open_contents",
            "contents in parts without an answer",
            report.open_contents,
        ),
        gauge(
            "signatures",
            "signatures of that set, or 0 where --names has none of this version",
            report.signatures,
        ),
        gauge(
            "version_time_seconds",
            "when the guard took up that version, in seconds since 1970",
            report.version_time,
        ),
    ]
}

fn gauge(name: &'static str, help: &'static str, number: u64) -> Figure
    ensures { result ≡ record { name = name.entry; help = help.entry; sort = Sort.Gauge; number = number } }
{
    Figure {
        name,
        help,
        sort: Sort::Gauge,
        number,
    }
}

fn counter(name: &'static str, help: &'static str, number: u64) -> Figure
    ensures { result ≡ record { name = name.entry; help = help.entry; sort = Sort.Counter; number = number } }
{
    Figure {
        name,
        help,
        sort: Sort::Counter,
        number,
    }
}

/// A line a figure: its name, a space, its number.
pub fn text_of(alloc: Global, figures: &[Figure]) -> Result<Vec<u8>, AllocError>
    ensures { IfOk result (λ text. text.items ≡ text_lines figures.now) }
{
    let mut out = Vec::new(alloc);
    let mut rest = figures;
    'figures: while let Some((figure, below)) = rest.split_first() {
        put_text(&mut out, *figure)?;
        rest = below;
    }
    Ok(out)
}

fn put_text(out: &mut Vec<u8>, figure: Figure) -> Result<(), AllocError>
    ensures { OnOk result (out.new.items ≡ out.old.items ++ text_line figure) }
{
    let mut buffer = Buffer::new();
    out.extend_from_slice(figure.name.as_bytes())?;
    out.push(b' ')?;
    out.extend_from_slice(buffer.format(figure.number).as_bytes())?;
    out.push(b'\n')?;
    Ok(())
}

/// The text that Prometheus reads: of each figure what it says, its sort, and its number.
pub fn metrics_of(alloc: Global, figures: &[Figure]) -> Result<Vec<u8>, AllocError>
    ensures { IfOk result (λ text. text.items ≡ metrics figures.now) }
{
    let mut out = Vec::new(alloc);
    let mut rest = figures;
    'figures: while let Some((figure, below)) = rest.split_first() {
        put_metric(&mut out, *figure)?;
        rest = below;
    }
    Ok(out)
}

fn put_metric(out: &mut Vec<u8>, figure: Figure) -> Result<(), AllocError>
    ensures { OnOk result (out.new.items ≡ out.old.items ++ metric_lines figure) }
{
    put_help(out, figure.name, figure.help)?;
    put_sort(out, figure.name, sort_word(figure.sort))?;
    put_number(out, figure)
}

#[tactic(auto, unfolding(crate::specs::Figures::help_line))]
fn put_help(out: &mut Vec<u8>, name: &str, help: &str) -> Result<(), AllocError>
    ensures { OnOk result (out.new.items ≡ out.old.items ++ help_line name.now help.now) }
{
    out.extend_from_slice(b"# HELP avguard_")?;
    put_said(out, name, help)
}

#[tactic(auto, unfolding(crate::specs::Figures::sort_line))]
fn put_sort(out: &mut Vec<u8>, name: &str, word: &str) -> Result<(), AllocError>
    ensures { OnOk result (out.new.items ≡ out.old.items ++ sort_line name.now word.now) }
{
    out.extend_from_slice(b"# TYPE avguard_")?;
    put_said(out, name, word)
}

// Puts a name, a space, and what is said of it.
fn put_said(out: &mut Vec<u8>, name: &str, said: &str) -> Result<(), AllocError>
    ensures { OnOk result (out.new.items ≡ out.old.items ++ (name.now ++ 32 ∷ (said.now ++ 10 ∷ []))) }
{
    out.extend_from_slice(name.as_bytes())?;
    out.push(b' ')?;
    out.extend_from_slice(said.as_bytes())?;
    out.push(b'\n')?;
    Ok(())
}

#[tactic(auto, unfolding(crate::specs::Figures::number_line))]
fn put_number(out: &mut Vec<u8>, figure: Figure) -> Result<(), AllocError>
    ensures { OnOk result (out.new.items ≡ out.old.items ++ number_line figure) }
{
    out.extend_from_slice(b"avguard_")?;
    put_text(out, figure)
}

fn sort_word(sort: Sort) -> &'static str
    ensures { result.now ≡ sort_word sort }
{
    match sort {
        Sort::Gauge => "gauge",
        Sort::Counter => "counter",
    }
}

/// An object of JSON with a member a figure, and a line feed behind it.
pub fn json_of(alloc: Global, figures: &[Figure]) -> Result<Vec<u8>, AllocError>
    ensures { IfOk result (λ text. text.items ≡ object_of figures.now) }
{
    let mut out = Vec::new(alloc);
    let mut line = Writer::new(Vec::new(alloc));
    put_object(&mut line, figures)?;
    match write_line(line, &mut out) {
        Ok(_) => Ok(out),
        Err(_) => Err(AllocError),
    }
}

#[tactic(auto, unfolding(av_json::specs::Member::object_tokens))]
fn put_object(line: &mut Writer, figures: &[Figure]) -> Result<(), AllocError>
    ensures { Puts result line.old line.new (object_tokens (map (λ f. number_tokens f.name.now f.number) figures.now)) }
{
    line.begin_object()?;
    put_members(line, figures)?;
    line.end_object()
}

fn put_members(line: &mut Writer, figures: &[Figure]) -> Result<(), AllocError>
    ensures { Puts result line.old line.new (joined (map (λ f. number_tokens f.name.now f.number) figures.now)) }
{
    let mut rest = figures;
    'figures: while let Some((figure, below)) = rest.split_first() {
        put_member(line, *figure)?;
        rest = below;
    }
    Ok(())
}

#[tactic(auto, unfolding(av_json::specs::Member::number_tokens))]
fn put_member(line: &mut Writer, figure: Figure) -> Result<(), AllocError>
    ensures { Puts result line.old line.new (number_tokens figure.name.now figure.number) }
{
    line.key(figure.name)?;
    line.u64(figure.number)
}
