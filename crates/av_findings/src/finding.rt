ghost use Rattle.std.specs.Prelude.{◌≡◌, ◌↔◌, ◌≤◌, ◌∷◌, [], length, map, IfOk};
ghost use Rattle.std.specs.Option.{option_map};
ghost use Rattle.av_base.specs.Among.{Among};
ghost use Rattle.av_base.specs.declared.verdict.Verdict.TheVariants.{Clean};
ghost use Rattle.av_match.specs.Match.{begins_in, verdict};
ghost use Rattle.av_findings.specs.Findings.{all_verdicts, end_alone, hits_from};
ghost use Rattle.av_sigset.specs.Set.{patterns_of};

use av_base::Verdict;
use av_sigset::signature::MAX_PLACE;
use av_sigset::{Pattern, Signature, SignatureSet, Span};
use memchr::memmem;
use std::alloc::{AllocError, Global};

/// Each signature of a set that occurs in a content, with the least place at which it ends, in the order of the set; or `[Clean]`
/// if none occurs. Each signature is searched for by itself, so the time is that of as many searches as there are signatures.
/// A caller that knows the content to be clean under the set knows the answer without this call.
pub fn all_verdicts(
    alloc: Global,
    set: &SignatureSet,
    content: &[u8],
) -> Result<Vec<Verdict>, AllocError>
    ensures all { IfOk result (λ all. all.items ≡ all_verdicts (patterns_of set.now.signatures) content.now) }
    ensures clean { IfOk result (λ all. (all.items ≡ Clean ∷ []) ↔ (verdict (patterns_of set.now.signatures) content.now ≡ Clean)) }
    ensures first { IfOk result (λ all. Among (verdict (patterns_of set.now.signatures) content.now) all.items) }
{
    let mut all = hits(alloc, set.signatures(), content)?;
    if all.is_empty() {
        all.push(Verdict::Clean)?;
    }
    Ok(all)
}

// Each signature that occurs, with the least end of its own.
#[tactic(auto, unfolding(crate::specs::Findings::hits_from))]
fn hits(alloc: Global, signatures: &[Signature], content: &[u8]) -> Result<Vec<Verdict>, AllocError>
    requires { length signatures.now ≤ 1024 }
    ensures { IfOk result (λ hits. hits.items ≡ hits_from 0 (patterns_of signatures.now) content.now) }
{
    let mut hits = Vec::new(alloc);
    for index in 0..signatures.len() {
        if let Some(end_at) = least_end(&signatures[index].pattern, content) {
            hits.push(Verdict::Infected {
                index: index as u32,
                end_at,
            })?;
        }
    }
    Ok(hits)
}

// The least place at which this pattern ends. The first match from the first place of the span on decides: the others begin
// after it.
fn least_end(pattern: &Pattern, content: &[u8]) -> Option<u64>
    ensures { result ≡ end_alone pattern.now content.now }
{
    let low = pattern.span.low;
    if low > content.len() as u64 {
        return None;
    }
    let bytes = pattern.bytes.as_slice();
    let Some(after) = memmem::find(&content[low as usize..], bytes) else {
        return None;
    };
    let start = low as usize + after;
    if begins_in(pattern.span, start as u64) {
        Some((start + bytes.len()) as u64)
    } else {
        None
    }
}

// Whether a match that begins at this place is in the span.
fn begins_in(span: Span, start: u64) -> bool
    ensures { result ≡ begins_in span start }
{
    span.low <= start && (MAX_PLACE <= span.high || start <= span.high)
}
