use crate::run_script::{RunFault, run_script};
use crate::script::{ScriptFault, parse_script};
use av_base::recorded::Recorded;
use av_base::{Mode, Refusal};
use av_fakes::{FakeReader, FakeWriter, Fault, may_refuse, refuse_no_more};
use av_history::fault::{JudgeFault, StepFault};
use av_store::StoreFault;
use std::test::Fail;

#[test]
fn a_fault_has_its_word(rt: HostRuntime) -> Result<(), Fail> {
    assert_eq!(rt;
        StepFault::Store(StoreFault::GenerationSpent).word(),
        "GenerationSpent"
    );
    assert_eq!(rt; JudgeFault::NoSignatures.word(), "NoSignatures");
    Ok(())
}

#[test]
fn a_script_is_read_and_run(rt: HostRuntime) -> Result<(), Fail> {
    let alloc = rt.alloc();
    let text = b"limit chunk 7\nvolume 9 open\ncreate a\ncut a 1".as_slice();
    let Ok(script) = parse_script(alloc, text) else {
        panic!(rt; "it was refused");
    };
    assert_eq!(rt; script.number(), 9);
    assert_eq!(rt; script.mode(), Mode::FailOpen);
    assert_eq!(rt; script.limits().values().chunk, 7);
    assert_eq!(rt; script.into_commands().len(), 2);
    let bad = match parse_script(alloc, b"volume 1 closed\ncreate") {
        Ok(_) => panic!(rt; "a bad script was read"),
        Err(why) => why,
    };
    assert_eq!(rt; bad, Refusal::Fault(ScriptFault { line: 2 }));
    let mut output = Vec::new(alloc);
    let mut reader = Recorded::new(text);
    assert_eq!(rt; run_script(alloc, &mut reader, &mut output, 3), Ok(()));
    assert_eq!(rt;
        output.as_slice(),
        b"boot 1\nstream 1 generation 1\nrefused Hole\n".as_slice()
    );
    let mut again = Recorded::new(text);
    assert_eq!(rt;
        run_script(alloc, &mut again, &mut output, 1),
        Err(RunFault::Read)
    );
    Ok(())
}

const SCRIPT: &[u8] = b"volume 1 closed\ncreate a\ncreate a\n";

const LINES: &[u8] = b"boot 1\nstream 1 generation 1\nrefused Exists\n";

#[test]
fn a_script_prints_the_same_however_reads_and_writes_are_cut(rt: HostRuntime) -> Result<(), Fail> {
    for piece in 1..40 {
        let mut reader = Recorded::new(FakeReader::new(SCRIPT).in_pieces_of(piece));
        let mut writer = FakeWriter::new(rt.alloc()).in_pieces_of(piece);
        assert_eq!(rt;
            run_script(rt.alloc(), &mut reader, &mut writer, 99),
            Ok(())
        );
        assert_eq!(rt; writer.taken(), LINES, "in pieces of {piece}");
        assert_eq!(rt; writer.flushed(), LINES.len(), "in pieces of {piece}");
    }
    Ok(())
}

#[test]
fn a_failing_read_writes_nothing(rt: HostRuntime) -> Result<(), Fail> {
    for read in 1..36 {
        let mut reader = Recorded::new(FakeReader::new(SCRIPT).in_pieces_of(1).failing_at(read));
        let mut writer = FakeWriter::new(rt.alloc());
        let ended = run_script(rt.alloc(), &mut reader, &mut writer, 99);
        assert_eq!(rt; ended, Err(RunFault::Read), "at read {read}");
        assert!(rt; writer.taken().is_empty(), "at read {read}");
    }
    let mut reader = Recorded::new(FakeReader::new(SCRIPT).in_pieces_of(1));
    let mut writer = FakeWriter::new(rt.alloc());
    let ended = run_script(rt.alloc(), &mut reader, &mut writer, 34);
    assert_eq!(rt; ended, Err(RunFault::Read));
    Ok(())
}

#[test]
fn a_failing_write_leaves_a_front_of_the_lines(rt: HostRuntime) -> Result<(), Fail> {
    for write in 1..45 {
        for fault in [Fault::Fails { write }, Fault::TakesNothing { write }] {
            let mut reader = Recorded::new(SCRIPT);
            let mut writer = FakeWriter::new(rt.alloc()).in_pieces_of(1).with(fault);
            let ended = run_script(rt.alloc(), &mut reader, &mut writer, 9);
            assert_eq!(rt; ended, Err(RunFault::Write), "{fault:?}");
            let front = usize::try_from(write)?.saturating_sub(1);
            assert_eq!(rt;
                writer.taken(),
                &LINES[..front.min(LINES.len())],
                "{fault:?}"
            );
        }
    }
    let mut reader = Recorded::new(SCRIPT);
    let mut writer = FakeWriter::new(rt.alloc()).with(Fault::KeepsUnflushed);
    let ended = run_script(rt.alloc(), &mut reader, &mut writer, 9);
    assert_eq!(rt; ended, Err(RunFault::Write));
    Ok(())
}

#[test]
fn refused_or_not_a_script_prints_its_lines_or_a_front_of_them(
    rt: HostRuntime,
) -> Result<(), Fail> {
    let alloc = rt.alloc();
    may_refuse(alloc);
    let parsed = parse_script(alloc, SCRIPT);
    let mut reader = Recorded::new(SCRIPT);
    let mut writer = FakeWriter::new(alloc);
    let ended = run_script(alloc, &mut reader, &mut writer, 9);
    refuse_no_more(alloc);
    assert!(rt; parsed.is_ok() || parsed.err() == Some(Refusal::NoMemory));
    assert!(rt; LINES.starts_with(writer.taken()));
    match ended {
        Ok(()) => assert_eq!(rt; writer.taken(), LINES),
        Err(fault) => assert!(rt; fault == RunFault::NoMemory || fault == RunFault::Write),
    }
    Ok(())
}
