// Courses of events through a desk, driven by hand, with what they send and what the audit says of them.
use crate::tests::calls;
use crate::tests::said::{Asked, Row, Said, rows};
use crate::{Desk, Lent};
use av_base::{Limits, Port, Verdict};
use av_service::ServiceNote;
use std::alloc::Global;
use std::process::Abort;
use std::sync::Wait;
use std::test::Fail;

const HIT: Verdict = Verdict::Infected {
    index: 0,
    end_at: 2,
};

// A content is judged, and after a publication another.
pub fn judged_twice<R: Wait>(rt: &R, alloc: Global, desk: &Desk) -> Result<(), Fail> {
    calls::connect(rt, alloc, desk)?;
    calls::quiet(rt, alloc, desk, calls::scan(1, 3)?)?;
    let lent = calls::lending(rt, alloc, desk, calls::chunk(alloc, 1, 0, b"ABC")?)?;
    calls::finish(rt, alloc, desk, lent.run())?;
    calls::publish(rt, alloc, desk, calls::set(alloc, 2, b"AB")?)?;
    calls::quiet(rt, alloc, desk, calls::scan(2, 3)?)?;
    let lent = calls::lending(rt, alloc, desk, calls::chunk(alloc, 2, 0, b"ABC")?)?;
    calls::finish(rt, alloc, desk, lent.run())?;
    Ok(())
}

pub const JUDGED_TWICE: [Said; 6] = [
    Said::Hello(7, 1),
    Said::Read(1, 0, 3),
    Said::Judged(1, 1, Verdict::Clean),
    Said::Updated(2),
    Said::Read(2, 0, 3),
    Said::Judged(2, 2, HIT),
];

// A set is published while a work is out: that comes back as an orphan, and its scan begins again under the new set.
pub fn published_amidst<R: Wait>(rt: &R, alloc: Global, desk: &Desk) -> Result<(), Fail> {
    calls::connect(rt, alloc, desk)?;
    calls::quiet(rt, alloc, desk, calls::scan(1, 3)?)?;
    let old = calls::lending(rt, alloc, desk, calls::chunk(alloc, 1, 0, b"ABC")?)?;
    let orphan = published_before(rt, alloc, desk, old)?;
    if orphan != ServiceNote::Orphan {
        return Err(Fail::new("no orphan"));
    }
    let lent = calls::lending(rt, alloc, desk, calls::chunk(alloc, 1, 0, b"ABC")?)?;
    calls::finish(rt, alloc, desk, lent.run())?;
    calls::restart(rt, alloc, desk)?;
    calls::disconnect(rt, alloc, desk)?;
    Ok(())
}

// A set is published, and then a work comes back.
fn published_before<R: Wait>(
    rt: &R,
    alloc: Global,
    desk: &Desk,
    lent: Lent,
) -> Result<ServiceNote, Fail> {
    let published = match calls::set(alloc, 2, b"AB") {
        Ok(set) => calls::publish(rt, alloc, desk, set),
        Err(fail) => Err(fail),
    };
    let done = lent.run();
    match published {
        Ok(_) => calls::finish(rt, alloc, desk, done),
        Err(fail) => {
            done.discard();
            Err(fail)
        }
    }
}

pub const PUBLISHED_AMIDST: [Said; 5] = [
    Said::Hello(7, 1),
    Said::Read(1, 0, 3),
    Said::Updated(2),
    Said::Read(1, 0, 3),
    Said::Judged(1, 2, HIT),
];

pub const ITS_AUDIT: [Row; 9] = [
    (Asked::Connect, 1, None, ServiceNote::Quiet),
    (Asked::Receive(Said::Scan(1)), 1, None, ServiceNote::Quiet),
    (
        Asked::Receive(Said::Chunk(1, 0, 3)),
        0,
        Some(1),
        ServiceNote::Quiet,
    ),
    (Asked::Publish(2), 2, None, ServiceNote::Quiet),
    (Asked::Finish(1, None), 0, None, ServiceNote::Orphan),
    (
        Asked::Receive(Said::Chunk(1, 0, 3)),
        0,
        Some(2),
        ServiceNote::Quiet,
    ),
    (Asked::Finish(2, Some(HIT)), 1, None, ServiceNote::Quiet),
    (Asked::Restart(2), 0, None, ServiceNote::Quiet),
    (Asked::Disconnect, 0, None, ServiceNote::Quiet),
];

fn check<R: Wait + Abort>(rt: &R, alloc: Global) -> Result<(), Fail> {
    let desk = calls::desk(alloc, b"XX")?;
    judged_twice(rt, alloc, &desk)?;
    assert_eq!(rt;
        calls::take(rt, alloc, &desk)?.as_slice(),
        JUDGED_TWICE.as_slice()
    );
    assert_eq!(rt; calls::take(rt, alloc, &desk)?.len(), 0);
    Ok(())
}

#[test]
fn refused_or_not_contents_are_judged_under_the_set_published_last(
    rt: HostRuntime,
) -> Result<(), Fail> {
    check(&rt, rt.alloc())
}

fn check_audit<R: Wait + Abort>(rt: &R, alloc: Global) -> Result<(), Fail> {
    let desk = calls::desk(alloc, b"XX")?;
    published_amidst(rt, alloc, &desk)?;
    assert_eq!(rt;
        calls::take(rt, alloc, &desk)?.as_slice(),
        PUBLISHED_AMIDST.as_slice()
    );
    let audit = desk.close();
    assert_eq!(rt; rows(alloc, &audit)?.as_slice(), ITS_AUDIT.as_slice());
    assert_eq!(rt;
        (audit.volume_number, audit.opening, audit.catalogue.len()),
        (7, 1, 2)
    );
    assert_eq!(rt; audit.limits, Limits::greatest());
    Ok(())
}

#[test]
fn refused_or_not_the_audit_has_each_call_with_its_arguments(rt: HostRuntime) -> Result<(), Fail> {
    check_audit(&rt, rt.alloc())
}

fn check_second_port<R: Wait + Abort>(rt: &R, alloc: Global) -> Result<(), Fail> {
    let catalogue = calls::catalogue(alloc, b"XX")?;
    let desk = calls::desk_at(alloc, Port::Two, catalogue, Limits::greatest())?;
    calls::connect(rt, alloc, &desk)?;
    let at_one = calls::quiet(rt, alloc, &desk, calls::scan(1, 3)?)?;
    let at_two = calls::quiet(rt, alloc, &desk, calls::scan_at(Port::Two, 1, 3)?)?;
    assert_eq!(rt;
        (at_one, at_two),
        (ServiceNote::Ignored, ServiceNote::Quiet)
    );
    let sent = desk.take_outgoing(rt, alloc)?;
    let ports: Vec<Port> = sent.iter().map(|message| message.port()).collect(alloc)?;
    assert_eq!(rt; ports.as_slice(), [Port::Two, Port::Two].as_slice());
    let audit = desk.close();
    assert_eq!(rt; (audit.port, audit.events.len()), (Port::Two, 3));
    Ok(())
}

#[test]
fn a_desk_of_the_second_port_speaks_there(rt: HostRuntime) -> Result<(), Fail> {
    check_second_port(&rt, rt.alloc())
}
