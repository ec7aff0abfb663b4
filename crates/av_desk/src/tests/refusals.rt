// Each refusal, in its order: nothing has changed, and what was handed in comes back.
use crate::tests::calls;
use crate::tests::said::{Said, told};
use crate::{Desk, DeskFault, Taken};
use av_base::{Lease, LimitField, Limits, Refusal, Refused, Version};
use av_frame::Message;
use av_service::{Done, ServiceNote};
use av_sigset::{Catalogue, SignatureSet};
use std::alloc::{AllocError, Global};
use std::process::Abort;
use std::sync::Wait;
use std::test::Fail;

const FULL: Refusal<DeskFault> = Refusal::Fault(DeskFault::AuditFull);

// Why a set is not published, and the version of the set that came back.
fn not_published<R: Wait>(
    rt: &R,
    alloc: Global,
    desk: &Desk,
    set: SignatureSet,
) -> Option<(Version, Refusal<DeskFault>)> {
    match desk.publish(rt, alloc, set) {
        Ok(_) => None,
        Err(refused) => Some((refused.value.version(), refused.why)),
    }
}

fn not_received<R: Wait>(
    rt: &R,
    alloc: Global,
    desk: &Desk,
    message: Message,
) -> Option<(Said, Refusal<DeskFault>)> {
    match desk.message(rt, alloc, message) {
        Ok(taken) => {
            let Taken { lent, note: _ } = taken;
            match lent {
                Some(lent) => lent.discard(),
                None => {}
            }
            None
        }
        Err(refused) => Some((told(&refused.value), refused.why)),
    }
}

fn not_finished<R: Wait>(
    rt: &R,
    alloc: Global,
    desk: &Desk,
    done: Done,
) -> Option<(Lease, Refusal<DeskFault>)> {
    match desk.finish(rt, alloc, done) {
        Ok(_) => None,
        Err(refused) => {
            let Refused { value, why } = refused;
            let lease = value.lease();
            value.discard();
            Some((lease, why))
        }
    }
}

fn full_audit<R: Wait + Abort>(rt: &R, alloc: Global) -> Result<(), Fail> {
    let limits = calls::limits(LimitField::Audit, 3)?;
    let desk = calls::desk_of(alloc, calls::catalogue(alloc, b"XX")?, limits)?;
    calls::connect(rt, alloc, &desk)?;
    calls::quiet(rt, alloc, &desk, calls::scan(1, 3)?)?;
    let old = calls::set(alloc, 1, b"XX")?;
    let scan = calls::scan(2, 3)?;
    let lent = calls::lending(rt, alloc, &desk, calls::chunk(alloc, 1, 0, b"ABC")?)?;
    let finished = not_finished(rt, alloc, &desk, lent.run());
    assert_eq!(rt; finished, Some((Lease::new(1), FULL)));
    assert_eq!(rt; desk.connect(rt, alloc), Err(FULL));
    assert_eq!(rt;
        not_received(rt, alloc, &desk, scan),
        Some((Said::Scan(2), FULL))
    );
    assert_eq!(rt;
        not_published(rt, alloc, &desk, old),
        Some((Version::new(1), FULL))
    );
    assert_eq!(rt; desk.disconnect(rt, alloc), Err(FULL));
    assert_eq!(rt; desk.restart(rt, alloc), Err(FULL));
    let waiting = [Said::Hello(7, 1), Said::Read(1, 0, 3)];
    assert_eq!(rt;
        calls::take(rt, alloc, &desk)?.as_slice(),
        waiting.as_slice()
    );
    let audit = desk.close();
    assert_eq!(rt; (audit.events.len(), audit.catalogue.len()), (3, 1));
    Ok(())
}

#[test]
fn a_full_audit_takes_no_event_and_hands_all_back(rt: HostRuntime) -> Result<(), Fail> {
    full_audit(&rt, rt.alloc())
}

fn connections<R: Wait + Abort>(rt: &R, alloc: Global) -> Result<(), Fail> {
    let desk = calls::desk_of(alloc, Catalogue::new(alloc), Limits::greatest())?;
    let unknown = Err(Refusal::Fault(DeskFault::NoSignatures));
    assert_eq!(rt; desk.connect(rt, alloc), unknown);
    calls::publish(rt, alloc, &desk, calls::set(alloc, 1, b"XX")?)?;
    assert_eq!(rt; desk.connect(rt, alloc), Ok(ServiceNote::Quiet));
    let again = Err(Refusal::Fault(DeskFault::AlreadyConnected));
    assert_eq!(rt; desk.connect(rt, alloc), again);
    calls::quiet(rt, alloc, &desk, calls::scan(1, 2)?)?;
    let lent = calls::lending(rt, alloc, &desk, calls::chunk(alloc, 1, 0, b"XX")?)?;
    let version = lent.work().version();
    let done = lent.run();
    let hit = done.hit().is_some();
    calls::finish(rt, alloc, &desk, done)?;
    assert_eq!(rt; (version, hit), (Version::new(1), true));
    let audit = desk.close();
    assert_eq!(rt; (audit.opening, audit.events.len()), (0, 5));
    Ok(())
}

#[test]
fn a_service_connects_once_and_with_a_set(rt: HostRuntime) -> Result<(), Fail> {
    connections(&rt, rt.alloc())
}

// A catalogue of as many sets as it may have.
fn full_catalogue(alloc: Global) -> Result<Catalogue, Fail> {
    let mut catalogue = Catalogue::new(alloc);
    let none: [&[u8]; 0] = [];
    for version in 1..4097u64 {
        let set = SignatureSet::from_patterns(alloc, Version::new(version), &none)?;
        if catalogue.publish(set).is_err() {
            return Err(AllocError.into());
        }
    }
    Ok(catalogue)
}

fn publications<R: Wait + Abort>(rt: &R, alloc: Global) -> Result<(), Fail> {
    let desk = calls::desk_of(alloc, full_catalogue(alloc)?, Limits::greatest())?;
    let last = calls::set(alloc, 4096, b"XX")?;
    let old = (Version::new(4096), Refusal::Fault(DeskFault::OldVersion));
    assert_eq!(rt; not_published(rt, alloc, &desk, last), Some(old));
    let next = calls::set(alloc, 4097, b"XX")?;
    let many = (Version::new(4097), Refusal::Fault(DeskFault::CatalogueFull));
    assert_eq!(rt; not_published(rt, alloc, &desk, next), Some(many));
    calls::connect(rt, alloc, &desk)?;
    assert_eq!(rt;
        calls::take(rt, alloc, &desk)?.as_slice(),
        [Said::Hello(7, 4096)].as_slice()
    );
    let audit = desk.close();
    assert_eq!(rt;
        (audit.opening, audit.catalogue.len(), audit.events.len()),
        (4096, 4096, 1)
    );
    Ok(())
}

#[test]
fn a_set_is_published_above_the_others_while_there_is_room(rt: HostRuntime) -> Result<(), Fail> {
    publications(&rt, rt.alloc())
}
