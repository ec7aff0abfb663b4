//! What is found in a file under one of several sets.

ghost use Rattle.std.specs.Prelude.{◌≡◌};
ghost use Rattle.av_files.specs.Findings.{is_found};

use crate::scan::is_infected;
use av_base::Verdict;

/// A verdict of a file, and the place of the set that it is under, counted from 0.
#[derive(Clone, Copy, Debug, PartialEq, Eq)]
pub struct Finding {
    pub set: usize,
    pub verdict: Verdict,
}

/// Whether a signature was found under some set.
pub fn is_found(findings: &[Finding]) -> bool
    ensures { result ≡ is_found findings.now }
{
    let mut rest = findings;
    'findings: while let Some((finding, after)) = rest.split_first() {
        if is_infected(finding.verdict) {
            return true;
        }
        rest = after;
    }
    false
}
