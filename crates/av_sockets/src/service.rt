ghost use Rattle.std.specs.Prelude.{◌≡◌, ◌≤◌, codes, false, IfOk, IsSome};
ghost use Rattle.std.specs.Io.KnownBytes.{Appends};
ghost use Rattle.av_status.specs.Status.{IsDoneOrFault};
ghost use Rattle.av_sigset.specs.Catalogue.{set_at};
ghost use Rattle.av_status.specs.declared.status.Status.TheVariants.{Done};

use crate::duplex::{Duplex, Saying};
use crate::fault::{SocketFault, socket_failed};
use crate::second::Second;
use crate::sharing::{Greeting, Sharing};
use crate::sockets::{Meeting, connect};
use crate::watch::{Watch, Watched};
use av_arrival::turned_away;
use av_base::device::write_text;
use av_base::recorded::Recorded;
use av_base::{Limits, Port, Version};
use av_engines::{CataloguedService, End, serve_fresh, serve_service};
use av_files::streams::VOLUME;
use av_service::Service;
use av_sigset::{Catalogue, SignatureSet};
use av_status::faults::{bad_frame, device_failed, out_of_memory};
use av_status::status::Status;
use std::alloc::{AllocError, Global};
use std::fs::Files;
use std::io::Write;
use std::net::Net;
use std::sync::Wait;
use std::thread::Threads;
use std::time::Clock;

// How many reads a service makes of its connection at most: it may run for as long as it likes.
const READS: u64 = u64::MAX;

/// What a service begins with.
#[derive(Drop)]
pub struct Beginning<'a> {
    /// The port at which it greets: the first, or the second as a spare.
    pub port: Port,
    /// The set under which it judges.
    pub set: SignatureSet,
    /// The signature file that is watched for newer sets, where one is.
    pub watched: Option<Watched<'a>>,
}

/// Scans under a set for the filter that listens at a socket, or will within the wait, until the filter closes the
/// connection: then `closed` is written. Else one line to `err` says why, also where a guard turns the service away. Where a signature file is watched, its newer sets are
/// published meanwhile, and an idle filter is waited for without an end.
pub fn serve_at<
    R: Files + Net + Clock + Threads + Wait + Copy + Send + 'static,
    W: Write,
    E: Write,
>(
    rt: &R,
    alloc: Global,
    meeting: Meeting<'_>,
    beginning: Beginning<'_>,
    out: &mut W,
    err: &mut E,
) -> Status
where
    R::Stream: Send,
    R::Listener: Send,
    ensures closed { result ≡ Done → Appends (W.contents out.old) (W.contents out.new) (codes "closed\n") }
    ensures ended { IsDoneOrFault result }
{
    let Beginning { port, set, watched } = beginning;
    let Ok(mut catalogued) = service_of(alloc, port, set) else {
        return out_of_memory(err);
    };
    match connect(rt, alloc, meeting) {
        Ok(duplex) => {
            let second = Second::start(rt, alloc, meeting.path, newest(alloc, &catalogued));
            let lines = Lines {
                rt,
                alloc,
                first: &duplex,
                second: second.as_ref(),
            };
            let end = serve_over(lines, &mut catalogued, watched, err);
            if let Some(second) = second {
                end_second(rt, second, err);
            }
            match duplex.refusal() {
                Some(why) => turned_away(err, meeting.path, version_of(&catalogued.service), why),
                None => told(meeting.path, end, out, err),
            }
        }
        Err(fault) => socket_failed(err, meeting.path, fault),
    }
}

// Where a service runs, and both of its connections.
#[derive(Clone, Copy)]
struct Lines<'a, 'b, R> {
    rt: &'a R,
    alloc: Global,
    first: &'b Duplex<'a, R>,
    second: Option<&'b Second>,
}

// Scans until the connection ends.
fn serve_over<'a, R: Files + Clock + Wait, E: Write>(
    lines: Lines<'a, '_, R>,
    catalogued: &mut CataloguedService,
    watched: Option<Watched<'_>>,
    err: &mut E,
) -> End
    requires idle { catalogued.old.service.desk.connected ≡ false }
    requires version { 1 ≤ catalogued.old.service.desk.version }
    requires set { IsSome (set_at catalogued.old.catalogue.sets catalogued.old.service.desk.version) }
{
    let Lines {
        rt,
        alloc,
        first: duplex,
        second,
    } = lines;
    let mut reader = Recorded::new(Greeting { rt, duplex, second });
    let mut writer = Recorded::new(Saying { duplex });
    let Some(watched) = watched else {
        return serve_service(alloc, catalogued, &mut reader, &mut writer, READS);
    };
    let version = version_of(&catalogued.service);
    let watch = Watch::new(rt, alloc, duplex, watched, version, err);
    let mut sharing = Sharing {
        rt,
        alloc,
        watch,
        second,
        kept: None,
    };
    serve_fresh(
        alloc,
        catalogued,
        &mut reader,
        &mut writer,
        READS,
        &mut sharing,
    )
}

// A copy of the set under which a service judges.
fn newest(alloc: Global, catalogued: &CataloguedService) -> Option<SignatureSet> {
    let set = catalogued.catalogue.at(catalogued.service.version()?)?;
    set.copied(alloc).ok()
}

// Ends the second connection, and reports what came over it that is no frame, where that was not reported before.
fn end_second<R: Threads, E: Write>(rt: &R, second: Second, err: &mut E) {
    if second.end(rt) {
        bad_frame(err);
    }
}

fn version_of(service: &Service) -> Version {
    service.version().unwrap_or(Version::new(0))
}

// How the service's side ended.
fn told<W: Write, E: Write>(socket: &str, end: End, out: &mut W, err: &mut E) -> Status
    ensures closed { result ≡ Done → Appends (W.contents out.old) (W.contents out.new) (codes "closed\n") }
    ensures ended { IsDoneOrFault result }
{
    match end {
        End::Closed | End::Done => print_closed(out, err),
        End::Frame => bad_frame(err),
        End::ReadFault | End::WriteFault => socket_failed(err, socket, SocketFault::FilterLost),
        End::Memory | End::AuditFull => out_of_memory(err),
    }
}

// A service of this port, just started over this one set.
#[tactic(auto, using(crate::proofs::ServiceLemmas::newest_found))]
fn service_of(alloc: Global, port: Port, set: SignatureSet) -> Result<CataloguedService, AllocError>
    ensures port { IfOk result (λ r. r.service.desk.port ≡ port) }
    ensures idle { IfOk result (λ r. r.service.desk.connected ≡ false) }
    ensures version { IfOk result (λ r. 1 ≤ r.service.desk.version) }
    ensures set { IfOk result (λ r. IsSome (set_at r.catalogue.sets r.service.desk.version)) }
{
    let mut catalogue = Catalogue::new(alloc);
    if catalogue.publish(set).is_err() {
        return Err(AllocError);
    }
    let service = Service::start(alloc, VOLUME, port, &catalogue, Limits::greatest())?;
    Ok(CataloguedService { service, catalogue })
}

fn print_closed<W: Write, E: Write>(out: &mut W, err: &mut E) -> Status
    ensures closed { result ≡ Done → Appends (W.contents out.old) (W.contents out.new) (codes "closed\n") }
    ensures ended { IsDoneOrFault result }
{
    if write_text(out, b"closed\n".as_slice()).is_err() || out.flush().is_err() {
        return device_failed(err);
    }
    Status::Done
}
