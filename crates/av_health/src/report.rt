//! The figures of a guard at one moment, and their bytes.

ghost use Rattle.std.specs.Prelude.{◌≡◌, ◌+◌, ◌≤◌, ◌++◌, length, IfOk, OnOk};
ghost use Rattle.av_health.specs.Report.{counts_in, fields, figures_in, number8, numbers_of, report_of, spelled};

use crate::counts::Counts;
use std::alloc::{AllocError, Global};

/// How many figures there are.
pub const FIGURES: usize = 21;

/// The first byte of a report's bytes.
pub const FORMAT: u8 = 3;

/// How many bytes a report has: its format, and eight a figure.
pub const REPORT_SIZE: usize = 169;

/// A guard at one moment.
#[derive(Clone, Copy, Debug, PartialEq, Eq)]
pub struct Report {
    /// 1 if a service that has greeted is connected, else 0.
    pub ready: u64,
    /// The version of the set that grants; 0 if none was heard of yet.
    pub version: u64,
    /// Services that are connected, the one that stands by among them.
    pub services: u64,
    /// Clients that are connected.
    pub clients: u64,
    /// Asks of these clients that have no answer yet.
    pub unanswered: u64,
    /// Contents that the service is asked about now.
    pub questions: u64,
    /// Contents that are kept for later asks.
    pub contents: u64,
    /// Their bytes.
    pub content_bytes: u64,
    pub counts: Counts,
    /// Since when the guard runs.
    pub uptime_seconds: u64,
    /// Since when the service is connected; 0 without one.
    pub service_seconds: u64,
    /// The memory that the guard's process has; 0 where the system doesn't tell.
    pub memory_bytes: u64,
    /// 1 if the service has a second connection, for contents in parts, else 0.
    pub parts: u64,
    /// Contents in parts that have no answer yet.
    pub open_contents: u64,
    /// Signatures of the set of that version, where the guard has it for their names; else 0.
    pub signatures: u64,
    /// When the guard took up that version, in seconds since 1970; 0 before the first.
    pub version_time: u64,
}

// The figures in their order.
#[tactic(auto, unfolding(crate::specs::Report::numbers_of))]
pub(crate) fn numbers_of(report: &Report) -> [u64; FIGURES]
    ensures { result ≡ numbers_of report.now }
{
    [
        report.ready,
        report.version,
        report.services,
        report.clients,
        report.unanswered,
        report.questions,
        report.contents,
        report.content_bytes,
        report.counts.asks,
        report.counts.grants,
        report.counts.denials,
        report.counts.unscanned,
        report.counts.timeouts,
        report.counts.dropped_lines,
        report.uptime_seconds,
        report.service_seconds,
        report.memory_bytes,
        report.parts,
        report.open_contents,
        report.signatures,
        report.version_time,
    ]
}

/// The bytes of a report.
pub fn report_bytes(alloc: Global, report: &Report) -> Result<Vec<u8>, AllocError>
    ensures { IfOk result (λ bytes. bytes.items ≡ spelled report.now) }
{
    let mut bytes = Vec::new(alloc);
    bytes.push(FORMAT)?;
    put_fields(&mut bytes, numbers_of(report).as_slice())?;
    Ok(bytes)
}

#[tactic(auto, unfolding(crate::specs::Report::field8))]
fn put_fields(bytes: &mut Vec<u8>, numbers: &[u64]) -> Result<(), AllocError>
    ensures { OnOk result (bytes.new.items ≡ bytes.old.items ++ fields numbers.now) }
{
    let mut rest = numbers;
    'numbers: while let Some((number, below)) = rest.split_first() {
        bytes.extend_from_slice(&number.to_be_bytes())?;
        rest = below;
    }
    Ok(())
}

/// The report that these are the bytes of, if they are those of one.
pub fn report_in(bytes: &[u8]) -> Option<Report>
    ensures { result ≡ report_of bytes.now }
{
    if bytes.len() != REPORT_SIZE {
        return None;
    }
    if bytes[0] != FORMAT {
        return None;
    }
    Some(figures_in(bytes))
}

#[tactic(auto, unfolding(crate::specs::Report::figures_in))]
fn figures_in(bytes: &[u8]) -> Report
    requires { 169 ≤ length bytes.now }
    ensures { result ≡ figures_in bytes.now }
{
    Report {
        ready: u64_at(bytes, 1),
        version: u64_at(bytes, 9),
        services: u64_at(bytes, 17),
        clients: u64_at(bytes, 25),
        unanswered: u64_at(bytes, 33),
        questions: u64_at(bytes, 41),
        contents: u64_at(bytes, 49),
        content_bytes: u64_at(bytes, 57),
        counts: counts_in(bytes),
        uptime_seconds: u64_at(bytes, 113),
        service_seconds: u64_at(bytes, 121),
        memory_bytes: u64_at(bytes, 129),
        parts: u64_at(bytes, 137),
        open_contents: u64_at(bytes, 145),
        signatures: u64_at(bytes, 153),
        version_time: u64_at(bytes, 161),
    }
}

#[tactic(auto, unfolding(crate::specs::Report::counts_in))]
fn counts_in(bytes: &[u8]) -> Counts
    requires { 169 ≤ length bytes.now }
    ensures { result ≡ counts_in bytes.now }
{
    Counts {
        asks: u64_at(bytes, 65),
        grants: u64_at(bytes, 73),
        denials: u64_at(bytes, 81),
        unscanned: u64_at(bytes, 89),
        timeouts: u64_at(bytes, 97),
        dropped_lines: u64_at(bytes, 105),
    }
}

// The number in the eight bytes from `at` on.
fn u64_at(bytes: &[u8], at: usize) -> u64
    requires { at + 8 ≤ length bytes.now }
    ensures { result ≡ number8 bytes.now at }
{
    let mut field = [0u8; 8];
    field.copy_from_slice(&bytes[at..at + 8]);
    u64::from_be_bytes(field)
}
