ghost use Rattle.std.specs.Prelude.{◌≡◌, ◌*◌, IfErr, if◌then◌else◌};
ghost use Rattle.std.specs.Duration.{as_nanos};
ghost use Rattle.av_base.specs.declared.mode.Mode.TheVariants.{FailClosed, FailOpen};
ghost use Rattle.av_program.specs.Sets.{IsTrustFor};
ghost use Rattle.av_status.specs.Status.{IsFault};
ghost use Rattle.avguard.specs.Logging.{IsLogged, IsLogging, form_of, is_dash};

use av_base::Mode;
use av_daemon::{Doors, Guarding, Logging, Sizes, guard_at};
use av_log::Form;
use av_program::{key_asked, set_named};
use av_status::faults::EmptySets;
use av_status::{Prefixed, Status};
use av_trust::Trust;
use avguard_words::Guard;
use std::alloc::Global;
use std::fs::Files;
use std::io::Write;
use std::net::Net;
use std::random::RandomSource;
use std::time::{Clock, Duration};

/// A system on which a guard runs, and on which one is asked.
pub trait Guards: Files + Net + Clock + RandomSource {}

impl<R: Files + Net + Clock + RandomSource> Guards for R {}

/// Answers opens that other programs ask about, until the process is ended. Where it has the names of signatures from a file, that
/// has to be a signature set, signed where a key is trusted, when it begins.
#[tactic(auto, using(av_program::proofs::SetLemmas::trust_for))]
pub fn guard_named<R: Guards, E: Write>(
    rt: &HostRuntime,
    system: &R,
    alloc: Global,
    asked: Guard<'_>,
    err: &mut Prefixed<E>,
) -> Status
    ensures { IsFault result }
{
    let key = match key_asked(rt, alloc, asked.trust, err) {
        Ok(key) => key,
        Err(status) => return status,
    };
    let trust = Trust::by(key.as_ref());
    match check_names(rt, alloc, asked, trust, err) {
        Ok(()) => guard_at(system, alloc, guarding(asked, trust), err),
        Err(status) => status,
    }
}

// Reads the set whose names are told, where there is one.
fn check_names<E: Write>(
    rt: &HostRuntime,
    alloc: Global,
    asked: Guard<'_>,
    trust: Trust<'_>,
    err: &mut E,
) -> Result<(), Status>
    requires { IsTrustFor asked.trust trust }
    ensures { IfErr result (λ status. IsFault status) }
{
    let Some(name) = asked.names else {
        return Ok(());
    };
    let _set = set_named(rt, alloc, name, trust, EmptySets::Allowed, err)?;
    Ok(())
}

// How is guarded.
fn guarding<'a>(asked: Guard<'a>, trust: Trust<'a>) -> Guarding<'a>
    requires { IsTrustFor asked.trust trust }
    ensures doors { result.doors ≡ record { opens = asked.entry.opens; service = asked.entry.service; clamd = asked.entry.clamd; names = asked.entry.names } }
    ensures trust { result.trust ≡ trust.entry }
    ensures mode { result.mode ≡ (if asked.entry.is_open then FailOpen else FailClosed) }
    ensures keep { result.keep ≡ asked.entry.keep }
    ensures questions { result.questions ≡ asked.entry.questions }
    ensures sizes { result.most ≡ record { contents = asked.entry.max_size; streams = asked.entry.stream_max_size } }
    ensures wait { as_nanos result.wait ≡ asked.entry.wait * 1_000_000_000 }
    ensures rights { (result.rights ≡ asked.entry.mode) × (result.service_rights ≡ asked.entry.service_mode) }
    ensures versions { (result.least ≡ asked.entry.least) × (result.most_version ≡ asked.entry.most_version) }
    ensures state { result.state ≡ asked.entry.state }
    ensures log { IsLogging asked.entry result.log }
{
    let doors = Doors {
        opens: asked.opens,
        service: asked.service,
        clamd: asked.clamd,
        names: asked.names,
    };
    Guarding {
        doors,
        trust,
        mode: if asked.is_open {
            Mode::FailOpen
        } else {
            Mode::FailClosed
        },
        keep: asked.keep,
        questions: asked.questions,
        most: Sizes {
            contents: asked.max_size,
            streams: asked.stream_max_size,
        },
        wait: Duration::from_secs(asked.wait),
        rights: asked.mode,
        service_rights: asked.service_mode,
        least: asked.least,
        most_version: asked.most_version,
        state: asked.state,
        log: logging(asked.log, asked.log_grants, asked.log_json),
    }
}

// How decisions are logged, where they are: `-` is standard error.
fn logging(file: Option<&str>, has_grants: bool, is_json: bool) -> Option<Logging<'_>>
    ensures { IsLogged file.entry has_grants is_json result }
{
    let file = file?;
    Some(Logging {
        file: if is_dash(file) { None } else { Some(file) },
        has_grants,
        form: form_of(is_json),
    })
}

fn is_dash(file: &str) -> bool
    ensures { result ≡ is_dash file.now }
{
    file == "-"
}

fn form_of(is_json: bool) -> Form
    ensures { result ≡ form_of is_json }
{
    if is_json { Form::Json } else { Form::Words }
}
