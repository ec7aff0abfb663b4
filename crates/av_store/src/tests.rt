use crate::fault::StoreFault;
use crate::volume::Volume;
use av_base::{Generation, LimitValues, Limits, OpenId, Refusal, StreamId};
use av_fakes::{may_refuse, refuse_no_more};
use std::test::Fail;

fn limits(streams: u64) -> Result<Limits, Fail> {
    Ok(Limits::check(LimitValues {
        streams,
        length: 16,
        generation: 3,
        questions: 1,
        pended: 1,
        jobs: 1,
        cache: 1,
        chunk: 1,
        audit: 1,
    })?)
}

#[test]
fn a_removed_name_comes_back_under_a_new_number(rt: HostRuntime) -> Result<(), Fail> {
    let mut volume = Volume::new(rt.alloc(), 7, limits(2)?);
    assert_eq!(rt;
        volume.create(rt.alloc(), b"a b"),
        Err(Refusal::Fault(StoreFault::BadName))
    );
    assert_eq!(rt; volume.create(rt.alloc(), b"one"), Ok(StreamId::new(1)));
    assert_eq!(rt;
        volume.create(rt.alloc(), b"one"),
        Err(Refusal::Fault(StoreFault::Exists))
    );
    assert_eq!(rt; volume.create(rt.alloc(), b"two"), Ok(StreamId::new(2)));
    assert_eq!(rt;
        volume.create(rt.alloc(), b"three"),
        Err(Refusal::Fault(StoreFault::Full))
    );
    assert_eq!(rt; volume.remove(StreamId::new(1)), Ok(()));
    assert_eq!(rt; volume.remove(StreamId::new(1)), Err(StoreFault::NoStream));
    assert_eq!(rt; volume.create(rt.alloc(), b"one"), Ok(StreamId::new(3)));
    assert_eq!(rt; volume.find(b"one"), Some(StreamId::new(3)));
    assert_eq!(rt; volume.find(b"three"), None);
    Ok(())
}

#[test]
fn writes_and_cuts_are_refused_in_order(rt: HostRuntime) -> Result<(), Fail> {
    let mut volume = Volume::new(rt.alloc(), 7, limits(2)?);
    let id = volume.create(rt.alloc(), b"one")?;
    assert_eq!(rt; volume.write(id, 0, b"0123456789"), Ok(()));
    assert_eq!(rt; volume.write(id, 8, b"abcd"), Ok(()));
    assert_eq!(rt;
        volume.write(id, 8, b"abcd"),
        Err(Refusal::Fault(StoreFault::GenerationSpent))
    );
    assert_eq!(rt;
        volume.write(id, 13, b"abcd"),
        Err(Refusal::Fault(StoreFault::Hole))
    );
    assert_eq!(rt;
        volume.write(id, 12, b"abcde"),
        Err(Refusal::Fault(StoreFault::TooLarge))
    );
    assert_eq!(rt; volume.cut(id, 4), Err(StoreFault::GenerationSpent));
    assert_eq!(rt; volume.generation(id), Some(Generation::new(3)));
    assert_eq!(rt; volume.length(id), Some(12));
    let read = volume.read(rt.alloc(), id, 6, 4)?;
    assert_eq!(rt; read.as_slice(), b"67ab".as_slice());
    Ok(())
}

#[test]
fn boots_and_open_numbers_count_from_one(rt: HostRuntime) -> Result<(), Fail> {
    let mut volume = Volume::new(rt.alloc(), 7, limits(2)?);
    assert_eq!(rt; volume.mount()?, 1);
    assert_eq!(rt; volume.mount()?, 2);
    assert_eq!(rt; volume.take_open_number()?, OpenId::new(1));
    assert_eq!(rt; volume.opens(), 1);
    assert_eq!(rt; volume.opens_left(), u64::MAX - 1);
    let id = volume.create(rt.alloc(), b"one")?;
    let mut copy = volume.copy()?;
    assert_eq!(rt; copy.take_open_number()?, OpenId::new(2));
    assert_eq!(rt; copy.write(id, 0, b"xyz"), Ok(()));
    assert_eq!(rt; copy.cut(id, 1), Ok(()));
    assert_eq!(rt; copy.length(id), Some(1));
    assert_eq!(rt; volume.length(id), Some(0));
    Ok(())
}

// What readers tell of a stream.
fn seen(volume: &Volume) -> (Option<StreamId>, Option<Generation>, Option<u64>, u64) {
    let id = StreamId::new(1);
    (
        volume.find(b"two"),
        volume.generation(id),
        volume.length(id),
        volume.opens_left(),
    )
}

#[test]
fn refused_or_not_a_volume_is_as_it_was_or_changed(rt: HostRuntime) -> Result<(), Fail> {
    let alloc = rt.alloc();
    let id = StreamId::new(1);
    let mut volume = Volume::new(alloc, 7, limits(2)?);
    volume.create(alloc, b"one")?;
    volume.write(id, 0, b"abc")?;
    let before = seen(&volume);
    may_refuse(alloc);
    let created = volume.create(alloc, b"two");
    refuse_no_more(alloc);
    if created == Err(Refusal::NoMemory) {
        assert_eq!(rt; seen(&volume), before);
        volume.create(alloc, b"two")?;
    }
    assert_eq!(rt; volume.find(b"two"), Some(StreamId::new(2)));
    let first = volume.copy()?;
    let before = seen(&volume);
    may_refuse(alloc);
    let written = volume.write(id, 3, b"defghijklmnop");
    refuse_no_more(alloc);
    if written == Err(Refusal::NoMemory) {
        assert_eq!(rt; seen(&volume), before);
        volume.write(id, 3, b"defghijklmnop")?;
    }
    assert_eq!(rt; volume.content(id), Some(b"abcdefghijklmnop".as_slice()));
    assert_eq!(rt; first.content(id), Some(b"abc".as_slice()));
    may_refuse(alloc);
    let read = volume.read(alloc, id, 2, 2);
    let copy = volume.copy();
    refuse_no_more(alloc);
    match read {
        Ok(bytes) => assert_eq!(rt; bytes.as_slice(), b"cd".as_slice()),
        Err(refusal) => assert_eq!(rt; refusal, Refusal::NoMemory),
    }
    match copy {
        Ok(copy) => assert_eq!(rt; seen(&copy), seen(&volume)),
        Err(_) => assert_eq!(rt; seen(&volume.copy()?), seen(&volume)),
    }
    Ok(())
}
