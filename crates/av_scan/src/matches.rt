// Each signature that occurs in a content.

ghost use Rattle.std.specs.Prelude.{◌≡◌, ◌++◌, List, slice_get, IfErr, IfOk};
ghost use Rattle.av_base.specs.declared.verdict.Verdict.{Verdict};
ghost use Rattle.av_files.specs.Findings.{NamedSet, findings_of};
ghost use Rattle.av_findings.specs.Findings.{all_verdicts};
ghost use Rattle.av_match.specs.Match.{verdict};
ghost use Rattle.av_scan.specs.Matches.{at_place, matches_from};
ghost use Rattle.av_sigset.specs.Set.{patterns_of};

use av_base::{ReadFault, Verdict};
use av_files::{Finding, Scanners};
use av_findings::all_verdicts;
use std::alloc::{AllocError, Global};

// The bytes of a content that the first pass takes at a time.
const PIECE: usize = 65_536;

/// Each signature that occurs in a content, under each set. One pass finds the sets under which it is clean; under the others each
/// signature is looked for by itself.
pub(crate) fn matches_in(
    alloc: Global,
    scanners: &Scanners,
    content: &[u8],
) -> Result<Vec<Finding>, ReadFault>
    ensures { IfOk result (λ found. found.items ≡ matches_from 0 scanners.now content.now) }
{
    let firsts = firsts_in(alloc, scanners, content)?;
    Ok(matches_of(alloc, scanners, firsts.as_slice(), content)?)
}

// The verdict under each set.
fn firsts_in(alloc: Global, scanners: &Scanners, content: &[u8]) -> Result<Vec<Finding>, ReadFault>
    ensures { IfOk result (λ found. found.items ≡ findings_of scanners.now content.now) }
{
    let mut piece = vec![in alloc; 0u8; PIECE]?;
    let mut reader = content;
    scanners.scan_pieces(alloc, &mut reader, &mut piece, content.len() as u64)
}

// Each signature that occurs, by the verdicts of the content.
fn matches_of(
    alloc: Global,
    scanners: &Scanners,
    firsts: &[Finding],
    content: &[u8],
) -> Result<Vec<Finding>, AllocError>
    requires { firsts.now ≡ findings_of scanners.now content.now }
    ensures { IfOk result (λ found. found.items ≡ matches_from 0 scanners.now content.now) }
{
    let mut found = Vec::new(alloc);
    let mut rest = firsts;
    'firsts: while let Some((first, after)) = rest.split_first() {
        add_matches(alloc, scanners, *first, content, &mut found)?;
        rest = after;
    }
    Ok(found)
}

// Adds what is found under the set of a verdict.
fn add_matches(
    alloc: Global,
    scanners: &Scanners,
    first: Finding,
    content: &[u8],
    found: &mut Vec<Finding>,
) -> Result<(), AllocError>
    ensures { IfOk result (λ _. (s : NamedSet) → slice_get scanners.now first.set ≡ Some s → first.verdict ≡ verdict (patterns_of s.set.signatures) content.now
        → found.new.items ≡ found.old.items ++ at_place first.set (all_verdicts (patterns_of s.set.signatures) content.now)) }
{
    if first.verdict == Verdict::Clean {
        found.push(first)?;
        return Ok(());
    }
    let Some(named) = scanners.get(first.set) else {
        return Err(AllocError);
    };
    let verdicts = all_verdicts(alloc, named.scanner().set(), content)?;
    add_each(first.set, verdicts.as_slice(), found)
}

// Adds these verdicts under the set at a place.
fn add_each(place: usize, verdicts: &[Verdict], found: &mut Vec<Finding>) -> Result<(), AllocError>
    ensures { IfOk result (λ _. found.new.items ≡ found.old.items ++ at_place place verdicts.now) }
{
    let mut rest = verdicts;
    'verdicts: while let Some((verdict, after)) = rest.split_first() {
        found.push(Finding {
            set: place,
            verdict: *verdict,
        })?;
        rest = after;
    }
    Ok(())
}
