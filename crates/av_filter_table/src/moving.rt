ghost use Rattle.std.specs.Prelude.{◌≡◌, ◌≢◌, ◌+◌, ◌≤◌, ◌++◌, [], length, vec_len, vec_capacity, IsSome};
ghost use Rattle.av_base.specs.declared.cause.Cause.TheVariants.{Unsettled};
ghost use Rattle.av_context.specs.Contexts.{at};
ghost use Rattle.av_filter_table.specs.Chains.{AreChained, plains, of, essences};
ghost use Rattle.av_filter_table.specs.Moving.{overs, moved_all, refusals};
ghost use Rattle.av_filter_table.specs.FilterTable.{AreNumbered};

use crate::asked::Asked;
use crate::chains;
use crate::present::generation_now;
use crate::waits::Waits;
use av_base::{Cause, Mode};
use av_context::ContextRef;
use av_numbered::{Bounded, Numbered};
use av_pend::{Answer, PendedOpen};
use av_store::Volume;

/// A question and the one that is asked anew for it, by their numbers.
#[derive(Clone, Copy)]
pub struct Renewal {
    pub old: u64,
    pub new: u64,
}

/// Lets the opens of a question wait for the one that is asked anew, which has none yet, with one rescan more; those with no
/// rescan left are answered. It takes no memory.
pub fn move_opens(
    questions: &mut Bounded<Asked, ContextRef>,
    pended: &mut Numbered<Waits, PendedOpen>,
    renewal: Renewal,
    mode: Mode,
    volume: &Volume,
    answers: &mut Vec<Answer>,
)
    requires from { IsSome (at questions.old renewal.old) }
    requires to { IsSome (at questions.old renewal.new) }
    requires apart { renewal.old ≢ renewal.new }
    requires chained { AreChained questions.old pended.old }
    requires fresh { of renewal.new (plains pended.old) ≡ [] }
    requires room { vec_len answers.old + length (of renewal.old (plains pended.old)) ≤ vec_capacity answers.old }
    ensures answers { answers.new.items
        ≡ answers.old.items ++ refusals mode volume.now Unsettled (overs renewal.old (plains pended.old)) }
    ensures moved { plains pended.new ≡ moved_all renewal.old renewal.new (plains pended.old) }
    ensures numbered { AreNumbered pended.old → AreNumbered pended.new }
    ensures chained { AreChained questions.new pended.new }
    ensures same { essences questions.new ≡ essences questions.old }
    ensures capacity { vec_capacity answers.new ≡ vec_capacity answers.old }
{
    'opens: while let Some(is_spent) = chains::first_is_spent(questions, pended, renewal.old) {
        if is_spent {
            let Some(held) = chains::take_first(questions, pended, renewal.old) else {
                unreachable!()
            };
            let generation = generation_now(volume, held.stream());
            answers.push_reserved(held.refuse(mode, generation, Cause::Unsettled));
        } else {
            chains::move_first(questions, pended, renewal.old, renewal.new);
        }
    }
}
