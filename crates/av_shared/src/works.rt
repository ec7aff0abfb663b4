ghost use Rattle.std.specs.Prelude.{◌≡◌, ◌<◌, ℕ, Bool, IfOk, IfSome, IsTrue, [], Some, length, slice_index_or, take};
ghost use Rattle.std.specs.Option.{option_copied};
ghost use Rattle.av_desk.specs.Audit.{opened_by};
ghost use Rattle.av_desk.specs.Book.{compiled};
ghost use Rattle.av_desk.specs.Entry.{call_of};
ghost use Rattle.av_match.specs.Scanning.{fitting, if_found, run};
ghost use Rattle.av_service.specs.Audit.{By, lent_by, sets_after};
ghost use Rattle.av_service.specs.Conduct.{Finishes};
ghost use Rattle.av_shared.specs.History.{AreOwnWorks, IsDeskAudit};
ghost use Rattle.av_shared.specs.Works.{BringsBytes, HasOwnWorks, IsOpenedWith, IsOwnAt, IsShareOwn, SpareHasOwnWorks, SpareIsOpenedWith};
ghost use Rattle.av_sigset.specs.Publication.{publication_of, published_as};
ghost use Rattle.av_history.specs.Audits.{IsOfWorks};

use crate::looking::Looking;
use av_base::Lease;
use av_desk::{Audit as DeskAudit, DeskEntry, Event as DeskEvent};
use av_frame::Body;
use av_match::Automaton;
use av_service::ContentScan;
use av_sigset::SignatureSet;
use std::alloc::{AllocError, Global};
use std::thread;
use std::thread::Threads;

// Each share has so many events one after the other, and the shares take turns.
const BLOCK: usize = 16;

/// Whether each work that came back to a desk is one that it had lent, run under its set; each is run again to see it, in as many
/// threads as may look at once. Only of desks that were opened with this set alone, and where nothing was published. It takes memory
/// for the place of each work.
pub fn are_own_works<R: Threads + Sync>(
    looking: &Looking<'_, R>,
    desk: &DeskAudit,
    spare: Option<&DeskAudit>,
    set: &SignatureSet,
    automaton: &Automaton,
) -> Result<bool, AllocError>
    requires desk { IsDeskAudit desk.now }
    requires spare { IfSome (option_copied spare) (λ a. IsDeskAudit a) }
    requires built { automaton.now ≡ compiled (publication_of set.now) }
    requires opened { IsOpenedWith desk.now (publication_of set.now) }
    requires beside { SpareIsOpenedWith (option_copied spare) (publication_of set.now) }
    ensures { IfOk result (λ yes. IsTrue yes → AreOwnWorks desk.now (option_copied spare.entry)) }
{
    if !has_own_works(looking, desk, set, automaton)? {
        return Ok(false);
    }
    spare_has_own_works(looking, spare, set, automaton)
}

fn spare_has_own_works<R: Threads + Sync>(
    looking: &Looking<'_, R>,
    spare: Option<&DeskAudit>,
    set: &SignatureSet,
    automaton: &Automaton,
) -> Result<bool, AllocError>
    requires spare { IfSome (option_copied spare) (λ a. IsDeskAudit a) }
    requires built { automaton.now ≡ compiled (publication_of set.now) }
    requires beside { SpareIsOpenedWith (option_copied spare) (publication_of set.now) }
    ensures { IfOk result (λ yes. IsTrue yes → SpareHasOwnWorks (option_copied spare.entry)) }
{
    match spare {
        None => Ok(true),
        Some(audit) => has_own_works(looking, audit, set, automaton),
    }
}

fn has_own_works<R: Threads + Sync>(
    looking: &Looking<'_, R>,
    audit: &DeskAudit,
    set: &SignatureSet,
    automaton: &Automaton,
) -> Result<bool, AllocError>
    requires legal { IsDeskAudit audit.now }
    requires built { automaton.now ≡ compiled (publication_of set.now) }
    requires opened { IsOpenedWith audit.now (publication_of set.now) }
    ensures { IfOk result (λ yes. IsTrue yes → HasOwnWorks audit.now) }
{
    finishes_own(looking, audit, automaton)
}

fn finishes_own<R: Threads + Sync>(
    looking: &Looking<'_, R>,
    audit: &DeskAudit,
    automaton: &Automaton,
) -> Result<bool, AllocError>
    requires legal { IsDeskAudit audit.now }
    requires published { published_as (opened_by audit.now) automaton.now.version ≡ Some automaton.now.patterns }
    ensures { IfOk result (λ yes. IsTrue yes → HasOwnWorks audit.now) }
{
    let places = places_of(looking.alloc, audit)?;
    let places = places.as_slice();
    let of = looking.threads.max(1);
    let shares = thread::map_indices(
        looking.rt,
        looking.alloc,
        of,
        &|number: usize| -> bool
            requires { (0 < of) × IsDeskAudit audit.now × (published_as (opened_by audit.now) automaton.now.version ≡ Some automaton.now.patterns) }
            ensures { IsTrue result → IsShareOwn audit.entry.now of number }
        { is_share_own(audit, automaton, places, Share { number, of }) },
    )?;
    Ok(are_all(shares.as_slice()))
}

// At each place in order a work was lent.
fn places_of(alloc: Global, audit: &DeskAudit) -> Result<Vec<usize>, AllocError> {
    let mut places = Vec::new(alloc);
    'events: for (at, entry) in audit.events.iter().enumerate() {
        if entry.lent().is_some() {
            places.push(at)?;
        }
    }
    Ok(places)
}

fn are_all(shares: &[bool]) -> bool
    ensures { IsTrue result → (number : ℕ) (d : Bool) → number < length shares.now → IsTrue (slice_index_or shares.now number d) }
{
    shares.iter().all(|own| *own)
}

// One of so many shares of the events of an audit.
#[derive(Clone, Copy)]
struct Share {
    number: usize,
    of: usize,
}

// Whether the same holds of each event of a share.
fn is_share_own(audit: &DeskAudit, automaton: &Automaton, places: &[usize], share: Share) -> bool
    requires legal { IsDeskAudit audit.now }
    requires published { published_as (opened_by audit.now) automaton.now.version ≡ Some automaton.now.patterns }
    requires shares { 0 < share.of }
    ensures { IsTrue result → IsShareOwn audit.now share.of share.number }
{
    'events: for at in 0..audit.events.len() {
        if at / BLOCK % share.of != share.number {
            continue;
        }
        if !is_own_at(audit, at, places, automaton) {
            return false;
        }
    }
    true
}

// The same of the event at a place.
fn is_own_at(audit: &DeskAudit, at: usize, places: &[usize], automaton: &Automaton) -> bool
    requires legal { IsDeskAudit audit.now }
    requires published { published_as (opened_by audit.now) automaton.now.version ≡ Some automaton.now.patterns }
    ensures { IsTrue result → IsOwnAt audit.now at }
{
    match audit.events.get(at) {
        None => false,
        Some(entry) => is_own(audit, at, places, automaton, entry.event()),
    }
}

// Whether an event is no publication, and brings back no work but one that was lent before.
fn is_own(
    audit: &DeskAudit,
    at: usize,
    places: &[usize],
    automaton: &Automaton,
    event: &DeskEvent,
) -> bool
    requires legal { IsDeskAudit audit.now }
    requires published { published_as (opened_by audit.now) automaton.now.version ≡ Some automaton.now.patterns }
    ensures own { IsTrue result → IsOfWorks (opened_by audit.now) (lent_by [] (take at audit.now.events.items)) (call_of event.now) }
    ensures same { IsTrue result → sets_after (opened_by audit.now) (call_of event.now) ≡ opened_by audit.now }
{
    match event {
        DeskEvent::Finish { lease, scan } => is_run(audit, at, places, automaton, *lease, *scan),
        DeskEvent::Publish { .. } => false,
        _ => true,
    }
}

// Whether this is the scan after the run of the work that was lent under a lease. Leases count from 1.
fn is_run(
    audit: &DeskAudit,
    at: usize,
    places: &[usize],
    automaton: &Automaton,
    lease: Lease,
    scan: ContentScan,
) -> bool
    requires legal { IsDeskAudit audit.now }
    requires published { published_as (opened_by audit.now) automaton.now.version ≡ Some automaton.now.patterns }
    ensures { IsTrue result → IsOfWorks (opened_by audit.now) (lent_by [] (take at audit.now.events.items))
        (By (Finishes lease scan (if_found scan))) }
{
    let Some(place) = places.get(lease.get().saturating_sub(1) as usize) else {
        return false;
    };
    let place = *place;
    if place >= at {
        return false;
    }
    let Some(lender) = audit.events.get(place) else {
        return false;
    };
    let Some((given, version, begun)) = lender.lent() else {
        return false;
    };
    if given != lease || version != automaton.version() {
        return false;
    }
    match came(lender) {
        None => false,
        Some(chunk) => run_again(begun, automaton, chunk).is_same(&scan),
    }
}

// The bytes of the chunk that an event brought.
fn came(entry: &DeskEntry) -> Option<&[u8]>
    ensures { IfSome result (λ chunk. BringsBytes entry.now.call chunk.now) }
{
    match entry.event() {
        DeskEvent::Receive { message } => match message.body() {
            Body::Chunk { bytes, .. } => Some(bytes.as_slice()),
            _ => None,
        },
        _ => None,
    }
}

fn run_again(scan: ContentScan, automaton: &Automaton, chunk: &[u8]) -> ContentScan
    ensures { result ≡ run automaton.now.patterns scan (fitting scan chunk.now) }
{
    let mut scan = scan;
    scan.feed(automaton, chunk);
    scan
}
