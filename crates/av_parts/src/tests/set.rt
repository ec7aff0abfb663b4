use av_base::Version;
use av_match::Automaton;
use av_sigset::SignatureSet;
use std::alloc::Global;
use std::sync::Arc;
use std::test::Fail;

// Patterns with the places at which they may begin.
pub type Patterns<'a> = &'a [(&'a [u8], u64, u64)];

// The automaton of the set of these patterns.
pub fn automaton_of(
    alloc: Global,
    version: u64,
    patterns: Patterns<'_>,
) -> Result<Arc<Automaton, Global>, Fail> {
    let set = SignatureSet::from_ranged(alloc, Version::new(version), patterns)?;
    let automaton = Automaton::build(alloc, &set)?;
    Ok(Arc::new(alloc, automaton)?)
}
