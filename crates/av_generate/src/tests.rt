use crate::{GenerateFault, Profile, write_script};
use av_fakes::{FakeWriter, Fault, may_refuse, refuse_no_more};
use std::test::Fail;

// The first eight commands of these seeds, as another generator of the same definition wrote them.
const DEEP_1: &[u8] = b"limit generation 12\n\
    limit questions 3\n\
    limit pended 2\n\
    limit jobs 1\n\
    limit cache 2\n\
    volume 1 closed\n\
    create b\n\
    write b 0 41\n\
    write b 0 -\n\
    create a\n\
    up 1\n\
    create a\n\
    write b 0 414242\n\
    disconnect service\n";

const DEEP_2: &[u8] = b"limit generation 13\n\
    limit pended 3\n\
    limit cache 3\n\
    volume 1 closed\n\
    write b 0 42424142\n\
    connect\n\
    create b\n\
    write c 0 -\n\
    publish 2\n\
    write a 0 42\n\
    remove b\n\
    write b 0 41\n";

const UNIFORM_1: &[u8] = b"limit generation 12\n\
    limit questions 3\n\
    limit pended 2\n\
    limit jobs 1\n\
    limit cache 2\n\
    volume 1 closed\n\
    judge a\n\
    cleanup a\n\
    remove a\n\
    up 1\n\
    publish 1\n\
    open b\n\
    timeout 0\n\
    work 1\n";

const ROWS: [(u64, Profile, &[u8]); 3] = [
    (1, Profile::Deep, DEEP_1),
    (2, Profile::Deep, DEEP_2),
    (1, Profile::Uniform, UNIFORM_1),
];

#[test]
fn a_seed_has_one_script(rt: HostRuntime) -> Result<(), Fail> {
    for (seed, profile, wanted) in ROWS {
        let mut out = FakeWriter::new(rt.alloc()).in_pieces_of(3);
        assert!(rt; write_script(rt.alloc(), seed, 8, profile, &mut out).is_ok());
        assert_eq!(rt; out.taken(), wanted);
        assert_eq!(rt; out.flushed(), wanted.len());
    }
    Ok(())
}

#[test]
fn a_script_without_commands_is_a_head(rt: HostRuntime) -> Result<(), Fail> {
    let mut out = FakeWriter::new(rt.alloc());
    assert!(rt; write_script(rt.alloc(), 1, 0, Profile::Deep, &mut out).is_ok());
    assert!(rt; DEEP_1.starts_with(out.taken()));
    assert!(rt; out.taken().ends_with(b"volume 1 closed\n".as_slice()));
    Ok(())
}

#[test]
fn a_write_that_fails_leaves_a_front(rt: HostRuntime) -> Result<(), Fail> {
    for place in 1..24 {
        let mut out = FakeWriter::new(rt.alloc())
            .in_pieces_of(7)
            .with(Fault::Fails { write: place });
        let written = write_script(rt.alloc(), 1, 8, Profile::Deep, &mut out);
        assert_eq!(rt; written, Err(GenerateFault::Write));
        assert!(rt; DEEP_1.starts_with(out.taken()));
    }
    Ok(())
}

#[test]
fn refused_or_not_a_script_is_whole_or_a_front(rt: HostRuntime) -> Result<(), Fail> {
    let mut out = FakeWriter::new(rt.alloc());
    let alloc = rt.alloc();
    may_refuse(alloc);
    let written = write_script(alloc, 1, 8, Profile::Deep, &mut out);
    refuse_no_more(alloc);
    match written {
        Ok(()) => assert_eq!(rt; out.taken(), DEEP_1),
        Err(_) => assert!(rt; DEEP_1.starts_with(out.taken())),
    }
    Ok(())
}
