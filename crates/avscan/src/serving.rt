ghost use Rattle.std.specs.Prelude.{◌≡◌, codes, IfErr, IfOk, IfSome};
ghost use Rattle.std.specs.Io.KnownBytes.{Appends};
ghost use Rattle.av_program.specs.Sets.{IsTrustFor, IsTrustedFor};
ghost use Rattle.av_status.specs.Status.{IsDoneOrFault, IsFault};
ghost use Rattle.av_status.specs.declared.status.Status.TheVariants.{Done};

use av_base::Port;
use av_host::Hosting;
use av_program::{key_asked, set_named};
use av_sigset::SignatureSet;
use av_sockets::{Beginning, Look, Meeting, Watched, looked_at, serve_at};
use av_status::Status;
use av_trust::Trust;
use avscan_words::Service;
use std::alloc::Global;
use std::io::Write;
use std::time::Duration;

/// Scans under a set for the filter at a socket, and under newer ones where its file is to be watched.
#[tactic(auto, using(av_program::proofs::SetLemmas::trust_for))]
pub fn serve_named<R: Hosting, W: Write, E: Write>(
    rt: &HostRuntime,
    system: &R,
    alloc: Global,
    asked: Service<'_>,
    out: &mut W,
    err: &mut E,
) -> Status
where
    R::Stream: Send,
    R::Listener: Send,
    ensures closed { result ≡ Done → Appends (W.contents out.old) (W.contents out.new) (codes "closed\n") }
    ensures ended { IsDoneOrFault result }
{
    let key = match key_asked(rt, alloc, asked.trust, err) {
        Ok(key) => key,
        Err(status) => return status,
    };
    let trust = Trust::by(key.as_ref());
    let seen = looked_at(rt, asked.set);
    match first_set(rt, alloc, asked, trust, err) {
        Ok(set) => {
            let meeting = Meeting::within(asked.socket, asked.wait);
            let beginning = Beginning {
                port: port_of(asked),
                set,
                watched: watched(rt, asked, trust, seen),
            };
            serve_at(system, alloc, meeting, beginning, out, err)
        }
        Err(status) => status,
    }
}

// The set that is published first, of a file that is trusted as the words ask for it.
fn first_set<E: Write>(
    rt: &HostRuntime,
    alloc: Global,
    asked: Service<'_>,
    trust: Trust<'_>,
    err: &mut E,
) -> Result<SignatureSet, Status>
    requires { IsTrustFor asked.trust trust }
    ensures set { IfOk result (IsTrustedFor asked.entry.trust) }
    ensures status { IfErr result (λ status. IsFault status) }
{
    set_named(rt, alloc, asked.set, trust, asked.empty_sets, err)
}

// The port at which it greets.
fn port_of(asked: Service<'_>) -> Port {
    if asked.is_spare { Port::Two } else { Port::One }
}

// How the set's file is watched, where it is to be. What was seen of it before it was read counts where it is still seen.
fn watched<'a>(
    rt: &HostRuntime,
    asked: Service<'a>,
    trust: Trust<'a>,
    seen: Option<Look>,
) -> Option<Watched<'a>>
    requires { IsTrustFor asked.trust trust }
    ensures { IfSome result (λ watched. watched.trust ≡ trust.entry) }
{
    let seconds = asked.watch?;
    let stays = looked_at(rt, asked.set) == seen;
    Some(Watched {
        path: asked.set,
        every: Duration::from_secs(seconds),
        seen: if stays { seen } else { None },
        trust,
        empty: asked.empty_sets,
    })
}
