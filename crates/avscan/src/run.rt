ghost use Rattle.std.specs.Prelude.{◌≡◌, ◌≢◌, None, OnOk, OnErr};
ghost use Rattle.av_script.specs.Output.{IsFrontOfRead, IsOfRead};
ghost use Rattle.av_status.specs.declared.status.Status.TheVariants.{Done, Usage};
ghost use Rattle.avscan.specs.Run.{PrintsIn, PrintsInFront, status_of};

use av_base::recorded::{Recorded, RecordedRead};
use av_files::TURNS;
use av_program::{Source, say_why};
use av_script::RunFault;
use av_script::run_json::run_json;
use av_script::run_script::run_script;
use av_status::Form;
use av_status::faults::{bad_script, device_failed, out_of_memory, script_too_long, unreadable};
use av_status::status::Status;
use avscan_words::Script;
use std::alloc::Global;
use std::fs;
use std::io::Write;

/// Runs the script in this file, or on standard input for `-`: the whole output of a text that was read, or a front of it.
pub fn run_named<W: Write, E: Write>(
    rt: &HostRuntime,
    alloc: Global,
    script: Script<'_>,
    out: &mut W,
    err: &mut E,
) -> Status
    ensures done { result ≡ Done → IsOfRead None (PrintsIn script.entry.form (W.contents out.old) (W.contents out.new)) }
    ensures failed { result ≢ Done → IsFrontOfRead None (W.contents out.old) (W.contents out.new) (PrintsInFront script.entry.form (W.contents out.old) (W.contents out.new)) }
    ensures words { result ≢ Usage }
{
    if script.path == "-" {
        return run_text(script.form, alloc, &mut Recorded::new(rt.stdin()), out, err);
    }
    match fs::open(rt, script.path) {
        Ok(file) => run_text(script.form, alloc, &mut Recorded::new(file), out, err),
        Err(_) => {
            let status = unreadable(err, script.path);
            say_why(rt, alloc, script.path, Source::Other, err);
            status
        }
    }
}

/// Runs the script that a reader gives. The lines that it prints in this form go to `out`; where it does not end well one line
/// to `err` says why, as far as that can be written.
pub fn run_text<R: RecordedRead, W: Write, E: Write>(
    form: Form,
    alloc: Global,
    reader: &mut R,
    out: &mut W,
    err: &mut E,
) -> Status
    ensures done { result ≡ Done → IsOfRead (R.remaining reader.old) (PrintsIn form (W.contents out.old) (W.contents out.new)) }
    ensures failed { result ≢ Done → IsFrontOfRead (R.remaining reader.old) (W.contents out.old) (W.contents out.new) (PrintsInFront form (W.contents out.old) (W.contents out.new)) }
    ensures words { result ≢ Usage }
{
    match run_in(form, alloc, reader, out) {
        Ok(()) => Status::Done,
        Err(fault) => failed(err, fault),
    }
}

// Runs the script that a reader gives, in this form.
fn run_in<R: RecordedRead, W: Write>(
    form: Form,
    alloc: Global,
    reader: &mut R,
    out: &mut W,
) -> Result<(), RunFault>
    ensures ok { OnOk result (IsOfRead (R.remaining reader.old) (PrintsIn form (W.contents out.old) (W.contents out.new))) }
    ensures err { OnErr result (IsFrontOfRead (R.remaining reader.old) (W.contents out.old) (W.contents out.new) (PrintsInFront form (W.contents out.old) (W.contents out.new))) }
{
    match form {
        Form::Lines | Form::ZeroEnded => run_script(alloc, reader, out, TURNS),
        Form::Json => run_json(alloc, reader, out, TURNS),
    }
}

// Says why a script did not run to its end.
fn failed<E: Write>(err: &mut E, fault: RunFault) -> Status
    ensures { result ≡ status_of fault }
{
    match fault {
        RunFault::Read | RunFault::Write => device_failed(err),
        RunFault::TooLong => script_too_long(err),
        RunFault::BadScript { line } => bad_script(err, line),
        RunFault::NoMemory => out_of_memory(err),
    }
}
