//! How a guard is.

ghost use Rattle.std.specs.Prelude.{◌≡◌, IfErr, IfOk, OnOk};
ghost use Rattle.std.specs.Io.KnownBytes.{Appends};
ghost use Rattle.av_base.specs.Device.{AppendsPrefix};
ghost use Rattle.av_status.specs.Status.{IsFault};
ghost use Rattle.av_status.specs.declared.status.Status.TheVariants.{Device, Done};
ghost use Rattle.avguard.specs.Report.{HasShown, IsShown, IsShownSoFar, IsText, is_enough};

use crate::guarding::Guards;
use av_base::device::write_text;
use av_client::{no_report, report_at, status_path};
use av_health::{Report as Health, figures_of, json_of, metrics_of, text_of};
use av_sockets::Meeting;
use av_sockets::fault::socket_failed;
use av_status::Status;
use av_status::faults::{device_failed, out_of_memory, say_of, text};
use avguard_words::{Report, View};
use std::alloc::{AllocError, Global};
use std::io::Write;

/// Prints what a guard says of itself. Without a service all is not done, unless metrics are asked for.
pub fn print_report<R: Guards, W: Write, E: Write>(
    system: &R,
    alloc: Global,
    asked: Report<'_>,
    out: &mut W,
    err: &mut E,
) -> Status
    ensures so_far { IsShownSoFar asked.entry.view (W.contents out.old) (W.contents out.new) }
    ensures done { result ≡ Done → HasShown asked.entry.view (W.contents out.old) (W.contents out.new) }
{
    let path = match status_path(alloc, asked.opens) {
        Ok(Some(path)) => path,
        Ok(None) => return no_report(err, asked.opens),
        Err(_) => return out_of_memory(err),
    };
    let path = path.as_str();
    match report_at(system, alloc, Meeting::within(path, asked.wait)) {
        Ok(health) => match show(alloc, &health, asked.view, out, err) {
            Ok(()) if is_enough(asked.view, &health) => Status::Done,
            Ok(()) => no_service(err, asked.opens),
            Err(status) => status,
        },
        Err(fault) => socket_failed(err, path, fault),
    }
}

// Whether a guard is as it is to be: a service that has greeted is there. Metrics are of any guard.
fn is_enough(view: View, health: &Health) -> bool
    ensures { result ≡ is_enough view health.now }
{
    view == View::Metrics || health.ready == 1
}

// Prints what is said of a guard.
fn show<W: Write, E: Write>(
    alloc: Global,
    health: &Health,
    view: View,
    out: &mut W,
    err: &mut E,
) -> Result<(), Status>
    ensures shown { OnOk result (IsShown view health.now (W.contents out.old) (W.contents out.new)) }
    ensures so_far { IsShownSoFar view (W.contents out.old) (W.contents out.new) }
    ensures fault { IfErr result (λ status. IsFault status) }
{
    let Ok(said) = text_in(alloc, health, view) else {
        return Err(out_of_memory(err));
    };
    put(said.as_slice(), out, err)
}

// Writes a text, and leaves none of it in a buffer.
#[tactic(auto, using(crate::proofs::ReportLemmas::all_of_it))]
fn put<W: Write, E: Write>(said: &[u8], out: &mut W, err: &mut E) -> Result<(), Status>
    ensures whole { OnOk result (Appends (W.contents out.old) (W.contents out.new) said.now) }
    ensures front { AppendsPrefix (W.contents out.old) (W.contents out.new) said.now }
    ensures fault { IfErr result (λ status. IsFault status) }
{
    if write_text(out, said).is_err() {
        return Err(device_failed(err));
    }
    if out.flush().is_err() {
        return Err(device_failed(err));
    }
    Ok(())
}

// The text in which it is said.
fn text_in(alloc: Global, health: &Health, view: View) -> Result<Vec<u8>, AllocError>
    ensures { IfOk result (λ said. IsText view health.now said.items) }
{
    let figures = figures_of(health);
    match view {
        View::Text => text_of(alloc, &figures),
        View::Json => json_of(alloc, &figures),
        View::Metrics => metrics_of(alloc, &figures),
    }
}

fn no_service<E: Write>(err: &mut E, opens: &str) -> Status
    ensures { result ≡ Device }
{
    say_of(err, opens, &[text(": no service is connected")]);
    Status::Device
}
