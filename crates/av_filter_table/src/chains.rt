ghost use Rattle.std.specs.Prelude.{◌≡◌, ◌≢◌, ℕ, ◌≤◌, ◌<◌, ◌++◌, ◌∷◌, [], None, Some, IsSome, IsSomeAnd, IfSome, IfNone, OnOk, OnErr, IfErr};
ghost use Rattle.std.specs.List.{AllByRecursion, list_any};
ghost use Rattle.std.specs.Map.{keys_of};
ghost use Rattle.std.specs.Option.{option_map};
ghost use Rattle.av_context.specs.Contexts.{at, with, PutsAt};
ghost use Rattle.av_filter_table.specs.FilterTable.{AreNumbered};
ghost use Rattle.av_filter_table.specs.Chains.{AreChained, plains, of, others, shorter, essences, first_waiting, without_first, moved_first, once_more, IsBehind, is_left, is_spent};

use crate::asked::Asked;
use crate::waits::Waits;
use av_context::ContextRef;
use av_numbered::{Bounded, Numbered};
use av_pend::pended_open::MOST_RESCANS;
use av_pend::{Again, PendedOpen};
use std::alloc::AllocFailed;

/// Puts an open behind all others, and behind those of its question. Where memory is refused the open comes back.
pub fn append(
    questions: &mut Bounded<Asked, ContextRef>,
    pended: &mut Numbered<Waits, PendedOpen>,
    question: u64,
    number: u64,
    held: PendedOpen,
) -> Result<(), AllocFailed<PendedOpen>>
    requires there { IsSome (at questions.old question) }
    requires chained { AreChained questions.old pended.old }
    requires last { AllByRecursion (λ k. k < number) (keys_of pended.old) }
    ensures ok { OnOk result (plains pended.new ≡ plains pended.old ++ (question, held) ∷ []) }
    ensures keys { OnOk result (keys_of pended.new ≡ keys_of pended.old ++ number ∷ []) }
    ensures chained { AreChained questions.new pended.new }
    ensures same { essences questions.new ≡ essences questions.old }
    ensures err { OnErr result ((pended.new ≡ pended.old) × (questions.new ≡ questions.old)) }
    ensures back { IfErr result (λ failed. failed.value ≡ held) }
{
    let _few = pended.len();
    let _ascend = questions.len();
    pended.insert(
        number,
        Waits {
            question,
            next: None,
        },
        held,
    )?;
    let Some(asked) = questions.row(question) else {
        unreachable!()
    };
    link(pended, asked.last, number);
    questions.set_row(question, asked.longer(number));
    Ok(())
}

// Lets the last open of a question name the one that comes behind it.
fn link(pended: &mut Numbered<Waits, PendedOpen>, last: Option<u64>, number: u64)
    requires { IfSome last (λ k. IsSome (at pended.old k)) }
    ensures none { IfNone last (pended.new ≡ pended.old) }
    ensures some { IfSome last
        (λ k. IfSome (at pended.old k) (λ x. pended.new ≡ with pended.old k (record x.0 { next = Some number }, x.1))) }
{
    let Some(last) = last else {
        return;
    };
    let Some(row) = pended.row(last) else {
        unreachable!()
    };
    pended.set_row(
        last,
        Waits {
            next: Some(number),
            ..row
        },
    );
}

/// Whether the first open of a question saw as many rescans as it may, if one waits.
pub fn first_is_spent(
    questions: &Bounded<Asked, ContextRef>,
    pended: &Numbered<Waits, PendedOpen>,
    question: u64,
) -> Option<bool>
    requires there { IsSome (at questions.now question) }
    requires chained { AreChained questions.now pended.now }
    ensures { result ≡ option_map is_spent (first_waiting question (plains pended.now)) }
{
    let _opens_ascend = pended.len();
    let Some(asked) = questions.row(question) else {
        unreachable!()
    };
    let first = asked.first?;
    let Some(held) = pended.value(first) else {
        unreachable!()
    };
    Some(held.rescans() >= MOST_RESCANS)
}

/// Whether an open that waits for a question has a rescan left: it goes along the chain until it finds one.
pub fn has_rescan_left(
    questions: &Bounded<Asked, ContextRef>,
    pended: &Numbered<Waits, PendedOpen>,
    question: u64,
) -> bool
    requires there { IsSome (at questions.now question) }
    requires chained { AreChained questions.now pended.now }
    ensures { result ≡ list_any (is_left question) (plains pended.now) }
{
    let _opens_ascend = pended.len();
    let Some(asked) = questions.row(question) else {
        unreachable!()
    };
    let mut next = asked.first;
    'opens: for _ in 0..asked.opens {
        let Some(number) = next else { unreachable!() };
        let Some(row) = pended.row(number) else {
            unreachable!()
        };
        let Some(held) = pended.value(number) else {
            unreachable!()
        };
        if held.rescans() < MOST_RESCANS {
            return true;
        }
        next = row.next;
    }
    false
}

// One rescan more.
fn again(held: PendedOpen) -> PendedOpen
    requires { held.rescans < 8 }
    ensures { result ≡ once_more held }
{
    match held.again() {
        Again::Held(held) => held,
        Again::Spent(_held) => unreachable!(),
    }
}

/// Lets the first open of a question wait for another one, in its place, with one rescan more. It takes no memory.
pub fn move_first(
    questions: &mut Bounded<Asked, ContextRef>,
    pended: &mut Numbered<Waits, PendedOpen>,
    old: u64,
    new: u64,
)
    requires from { IsSome (at questions.old old) }
    requires to { IsSome (at questions.old new) }
    requires apart { old ≢ new }
    requires chained { AreChained questions.old pended.old }
    requires behind { IsBehind old new (plains pended.old) }
    requires left { IsSomeAnd (first_waiting old (plains pended.old)) (λ x. x.1.rescans < 8) }
    ensures moved { plains pended.new ≡ moved_first old new (plains pended.old) }
    ensures numbered { AreNumbered pended.old → AreNumbered pended.new }
    ensures chained { AreChained questions.new pended.new }
    ensures same { essences questions.new ≡ essences questions.old }
{
    let _ascend = questions.len();
    let _few = pended.len();
    let Some(from) = questions.row(old) else {
        unreachable!()
    };
    let Some(to) = questions.row(new) else {
        unreachable!()
    };
    let Some(first) = from.first else {
        unreachable!()
    };
    let Some(row) = pended.row(first) else {
        unreachable!()
    };
    pended.exchange(
        first,
        Waits {
            question: new,
            next: None,
        },
        |held: PendedOpen| -> PendedOpen
            requires { held.rescans < 8 }
            ensures { result ≡ once_more held }
        { again(held) },
    );
    link(pended, to.last, first);
    questions.set_row(old, from.shorter(row.next));
    questions.set_row(new, to.longer(first));
}

/// Takes the first open of a question out.
pub fn take_first(
    questions: &mut Bounded<Asked, ContextRef>,
    pended: &mut Numbered<Waits, PendedOpen>,
    question: u64,
) -> Option<PendedOpen>
    requires there { IsSome (at questions.old question) }
    requires chained { AreChained questions.old pended.old }
    ensures none { IfNone result (of question (plains pended.old) ≡ []) }
    ensures kept { IfNone result ((pended.new ≡ pended.old) × (questions.new ≡ questions.old)) }
    ensures some { IfSome result (λ held. of question (plains pended.old) ≡ (question, held) ∷ of question (plains pended.new)) }
    ensures rest { IfSome result (λ _. plains pended.new ≡ without_first question (plains pended.old)) }
    ensures others { others question (plains pended.new) ≡ others question (plains pended.old) }
    ensures numbered { AreNumbered pended.old → AreNumbered pended.new }
    ensures chained { AreChained questions.new pended.new }
    ensures same { essences questions.new ≡ essences questions.old }
{
    let _ascend = questions.len();
    let _opens_ascend = pended.len();
    let Some(asked) = questions.row(question) else {
        unreachable!()
    };
    let first = asked.first?;
    let Some((row, held)) = pended.remove(first) else {
        unreachable!()
    };
    questions.set_row(question, asked.shorter(row.next));
    Some(held)
}

/// Takes the first of all opens out.
pub fn pop_first(
    questions: &mut Bounded<Asked, ContextRef>,
    pended: &mut Numbered<Waits, PendedOpen>,
) -> Option<PendedOpen>
    requires { AreChained questions.old pended.old }
    ensures none { IfNone result ((pended.old ≡ []) × (pended.new ≡ pended.old) × (questions.new ≡ questions.old)) }
    ensures some { IfSome result (λ held. (n : ℕ) × (plains pended.old ≡ (n, held) ∷ plains pended.new)) }
    ensures fewer { (n : ℕ) → of n (plains pended.old) ≡ [] → of n (plains pended.new) ≡ [] }
    ensures numbered { AreNumbered pended.old → AreNumbered pended.new }
    ensures chained { AreChained questions.new pended.new }
    ensures same { essences questions.new ≡ essences questions.old }
{
    let _ascend = questions.len();
    let _opens_ascend = pended.len();
    let (_number, waits, held) = pended.pop_first()?;
    unlink(questions, waits.question, waits.next);
    Some(held)
}

// Lets a question, where it runs, have one open less, the first of which named this one as the next.
fn unlink(questions: &mut Bounded<Asked, ContextRef>, question: u64, next: Option<u64>)
    requires { IfSome (at questions.old question) (λ x. 1 ≤ x.0.opens) }
    ensures none { IfNone (at questions.old question) (questions.new ≡ questions.old) }
    ensures some { IfSome (at questions.old question)
        (λ x. PutsAt questions.old questions.new question (Some (shorter x.0 next, x.1))) }
{
    let Some(asked) = questions.row(question) else {
        return;
    };
    questions.set_row(question, asked.shorter(next));
}
