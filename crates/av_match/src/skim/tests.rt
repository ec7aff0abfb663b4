ghost use Rattle.std.specs.Prelude.{◌≤◌, ◌^◌, length};

use crate::automaton::Automaton;
use crate::credit::Stop;
use crate::leaps::leaped;
use crate::skim::{passed, skim};
use av_base::Version;
use av_sigset::SignatureSet;
use std::alloc::{AllocError, Global};
use std::test::Fail;

/// As many bytes as one piece has.
const PIECE: usize = 12288;

/// Three patterns, of which the shortest has 12 bytes.
const PATTERNS: [&[u8]; 3] = [
    b"a worm in the core",
    b"rootkit: take it",
    b"\x00\x01\x00\x02zerofill",
];

// So many bytes of a sentence that is told again and again.
fn told(alloc: Global, sentence: &[u8], count: usize) -> Result<Vec<u8>, AllocError> {
    let mut bytes = Vec::with_capacity(alloc, count)?;
    'told: for _ in 0..count {
        for byte in sentence {
            if bytes.len() == count {
                break 'told;
            }
            bytes.push(*byte)?;
        }
    }
    Ok(bytes)
}

fn automaton_of(alloc: Global, patterns: &[&[u8]]) -> Result<Automaton, Fail> {
    let set = SignatureSet::from_patterns(alloc, Version::new(1), patterns)?;
    Ok(Automaton::build(alloc, &set)?)
}

// Whether windows lead through a content, and how many of its bytes leaps and parts let pass.
fn counts(automaton: &Automaton, content: &[u8]) -> (bool, usize, usize)
    requires { length content.now ≤ 2 ^ 32 }
{
    let tables = automaton.tables();
    if tables.window < 2 {
        return (false, 0, 0);
    }
    (
        skim(&tables, 0, content).is_ok(),
        leaped(&tables, content).unwrap_or(0),
        passed(&tables, content).unwrap_or(0),
    )
}

// Why windows do not lead through a content, if they don't.
fn stopped(automaton: &Automaton, content: &[u8]) -> Option<Stop>
    requires { length content.now ≤ 2 ^ 32 }
{
    skim(&automaton.tables(), 0, content).err()
}

// No pair of these bytes is in a pattern, so each window moves by 11 bytes, and only the last ones are walked.
#[test]
fn leaps_let_all_but_the_last_bytes_pass(rt: HostRuntime) -> Result<(), Fail> {
    let automaton = automaton_of(rt.alloc(), PATTERNS.as_slice())?;
    let content = told(rt.alloc(), b"XYZ ", PIECE)?;
    assert_eq!(rt; content.len(), PIECE);
    let (through, leapt, parts) = counts(&automaton, content.as_slice());
    assert!(rt; through);
    assert!(rt; leapt > PIECE - 8 * 11 - 12);
    assert!(rt; parts > PIECE - 12);
    Ok(())
}

// These words have pairs of the patterns, so leaps stop soon, and six parts go on.
#[test]
fn parts_let_all_but_the_last_bytes_pass(rt: HostRuntime) -> Result<(), Fail> {
    let automaton = automaton_of(rt.alloc(), PATTERNS.as_slice())?;
    let content = told(
        rt.alloc(),
        b"Nobody eats an apple whole, not even a hungry horse. ",
        PIECE,
    )?;
    assert_eq!(rt; content.len(), PIECE);
    let (through, _, parts) = counts(&automaton, content.as_slice());
    assert!(rt; through);
    assert!(rt; parts > PIECE - 12);
    Ok(())
}

// Each window ends in a pair with which a pattern begins, and a walk has to tell that none does.
#[test]
fn where_windows_cost_more_than_they_spare_they_give_up(rt: HostRuntime) -> Result<(), Fail> {
    let automaton = automaton_of(rt.alloc(), PATTERNS.as_slice())?;
    let content = told(rt.alloc(), b"a worm in the cor", PIECE)?;
    assert_eq!(rt; content.len(), PIECE);
    assert_eq!(rt; stopped(&automaton, content.as_slice()), Some(Stop::Costly));
    Ok(())
}

#[test]
fn a_pattern_that_is_passed_is_told(rt: HostRuntime) -> Result<(), Fail> {
    let automaton = automaton_of(rt.alloc(), PATTERNS.as_slice())?;
    let mut content = told(rt.alloc(), b"XYZ ", PIECE / 2)?;
    content.extend_from_slice(PATTERNS[1])?;
    content.extend_from_slice(b"XYZ ")?;
    assert!(rt; content.len() <= PIECE);
    assert_eq!(rt; stopped(&automaton, content.as_slice()), Some(Stop::Hit));
    Ok(())
}

// The short ones are looked for by themselves, so windows are as wide as the long one.
#[test]
fn short_patterns_leave_windows_wide(rt: HostRuntime) -> Result<(), Fail> {
    let automaton = automaton_of(rt.alloc(), &[b"ab".as_slice(), PATTERNS[1], b"Xq9"])?;
    let mut content = told(rt.alloc(), b"XYZ ", PIECE)?;
    assert_eq!(rt; content.len(), PIECE);
    let (through, _, parts) = counts(&automaton, content.as_slice());
    assert!(rt; through);
    assert!(rt; parts > PIECE - 16);
    content[PIECE / 2] = b'a';
    content[PIECE / 2 + 1] = b'b';
    assert_eq!(rt; stopped(&automaton, content.as_slice()), Some(Stop::Hit));
    Ok(())
}

/// One pattern; the first and the last of its bytes are the rarest in usual contents.
const ALONE: &[u8] = b"\x01ababababababababab\x02";

// Whether leaps of the one pattern let all but the last bytes pass of these, told again and again.
fn are_let_pass(alloc: Global, sentence: &[u8]) -> Result<bool, Fail> {
    let automaton = automaton_of(alloc, &[ALONE])?;
    let content = told(alloc, sentence, PIECE)?;
    if content.len() != PIECE {
        return Ok(false);
    }
    let (through, leapt, _) = counts(&automaton, content.as_slice());
    Ok(through && leapt > PIECE - ALONE.len())
}

// Windows would stand still at these bytes, but the rarest of the pattern's is none of them.
#[test]
fn a_content_without_the_rarest_byte_is_let_pass(rt: HostRuntime) -> Result<(), Fail> {
    assert!(rt; are_let_pass(rt.alloc(), b"ab")?);
    Ok(())
}

// The rarest byte comes often, but never with the other one before it.
#[test]
fn a_content_without_the_two_rarest_bytes_is_let_pass(rt: HostRuntime) -> Result<(), Fail> {
    assert!(rt; are_let_pass(rt.alloc(), b"abababababababababab\x02")?);
    Ok(())
}

#[test]
fn one_pattern_that_is_there_is_told(rt: HostRuntime) -> Result<(), Fail> {
    let automaton = automaton_of(rt.alloc(), &[ALONE])?;
    let mut content = told(rt.alloc(), b"ab", PIECE / 2)?;
    content.extend_from_slice(ALONE)?;
    content.extend_from_slice(b"abab")?;
    assert!(rt; content.len() <= PIECE);
    assert_eq!(rt; stopped(&automaton, content.as_slice()), Some(Stop::Hit));
    Ok(())
}
