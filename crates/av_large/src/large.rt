ghost use Rattle.std.specs.Prelude.{◌≡◌, ◌≤◌, ◌++◌, ◌∷◌, [], length, is_some, IfSome, None, Some, OnErr, OnOk};
ghost use Rattle.std.specs.Option.{option_map};
ghost use Rattle.av_base.specs.Answers.{AnswersAtOnce, StepsAtOnce};
ghost use Rattle.av_large.specs.Calls.{BeginsBy, begins, begun_by, brought_by, ended_by, ends, greeted_with, grows, heard, is_owed, late, left_by, lost};
ghost use Rattle.av_large.specs.State.{Gives, answers, at_first, numbers_of, theirs};
ghost use Rattle.av_parts.specs.Judge.{at};
ghost use Rattle.av_parts.specs.Orders.{Drops, order_of};
ghost use Rattle.av_parts.specs.Spelling.{IsSpelled};
ghost use Rattle.av_parts.specs.declared.sizes.TheConstants.{MAX_PART};

use crate::answer::{Answer, Begun, LargeOut, Told, nothing, number_in};
use crate::content::{Content, Ending, ServicePresence};
use crate::fault::{BeginFault, Unwelcome};
use crate::held::{Held, drop_all, lose_all};
use av_asks::LargeCause;
use av_base::{Cause, Refusal, Version};
use av_parts::{Order, Word};
use std::alloc::{AllocError, Global};
use std::collections::BTreeMap;
use std::marker::Model;

/// The contents in parts that a guard relays to its scanning service, from any number of clients. A client sends one content at a
/// time, and may wait for verdicts of others. Each content has one answer.
#[derive(Drop)]
pub struct Large {
    takes: bool,
    last: u64,
    held: Held,
    // The number of the content that each client is within: 0 where it was answered at once.
    current: BTreeMap<u64, u64>,
}

impl Model for Large {
    ghost use Rattle.av_large.specs.State.{State};

    ghost Value = { State };

    ghost view = { λ l. record { takes = l.takes; last = l.last; held = l.held; current = l.current.entries } };
}

impl Large {
    /// A guard's contents before any came. It takes no memory yet.
    pub fn new(alloc: Global) -> Large
        ensures { result ≡ at_first }
    {
        Large {
            takes: false,
            last: 0,
            held: Held::new(alloc),
            current: BTreeMap::new(alloc),
        }
    }

    /// Whether the service takes contents in parts: its second connection has greeted.
    pub fn takes_parts(&self) -> bool
        ensures { result ≡ self.now.takes }
    {
        self.takes
    }

    /// How many contents have no answer.
    pub fn len(&self) -> usize
        ensures { result ≡ length self.now.held }
    {
        self.held.len()
    }

    /// Whether a client is within a content, answered or not.
    pub fn is_within(&self, client: u64) -> bool
        ensures { result ≡ is_some (at self.now.current client) }
    {
        self.current.contains_key(&client)
    }

    /// The service greets at its second connection, once.
    pub fn greet(&mut self, floor: Version, version: Version) -> Result<(), Unwelcome>
        ensures { StepsAtOnce self.old self.new result (greeted_with self.old floor version) }
    {
        if self.takes {
            return Err(Unwelcome::Twice);
        }
        if version.get() < floor.get() {
            return Err(Unwelcome::Older);
        }
        self.takes = true;
        Ok(())
    }

    /// Whose content has this number, as long as it has no answer.
    pub fn client_of(&self, number: u64) -> Option<u64>
        ensures { result ≡ option_map (λ c. c.client) (at self.now.held number) }
    {
        match self.held.get(number) {
            Some(content) => Some(content.client),
            None => None,
        }
    }

    /// A client begins a content of at most so many bytes. It has a number, under which the service is sent an `Order::Begin`. Or
    /// it is told at once, if no service can judge it. Of the calls about one content only this one requests memory.
    pub fn begin(
        &mut self,
        service: ServicePresence,
        client: u64,
        tag: u64,
        most: u64,
    ) -> Result<Begun, Refusal<BeginFault>>
        ensures { BeginsBy self.old self.new result (begun_by self.old service client tag most) }
    {
        if self.current.contains_key(&client) {
            return Err(Refusal::Fault(BeginFault::Within));
        }
        let content = Content {
            client,
            tag,
            most,
            count: 0,
            ended: false,
        };
        match service.lacks(self.takes) {
            Some(answer) => self.refuse(content, answer),
            None => self.open(content),
        }
    }

    // A content is answered as it begins.
    fn refuse(&mut self, content: Content, answer: Answer) -> Result<Begun, Refusal<BeginFault>>
        ensures { BeginsBy self.old self.new result (begins self.old content (Some answer)) }
    {
        self.current.insert(content.client, 0)?;
        Ok(Begun::Answered(content.tell(answer)))
    }

    // A content has a number.
    #[tactic(auto, using(crate::proofs::MapLemmas::taken_back))]
    fn open(&mut self, content: Content) -> Result<Begun, Refusal<BeginFault>>
        requires { at self.old.current content.client ≡ None }
        ensures { BeginsBy self.old self.new result (begins self.old content None) }
    {
        if self.last == u64::MAX {
            return Err(Refusal::Fault(BeginFault::NumbersSpent));
        }
        let number = self.last + 1;
        self.current.insert(content.client, number)?;
        if self.held.hold(number, content).is_err() {
            let _ = self.current.remove(&content.client);
            return Err(Refusal::NoMemory);
        }
        self.last = number;
        Ok(Begun::Sent { number })
    }

    /// A client sends some of the content that it is within, at most 1,048,576 bytes at once. They go on as they lie in the piece.
    pub fn bring<'a>(&mut self, client: u64, some: &'a [u8]) -> LargeOut<'a>
        ensures gives { Gives (brought_by self.old client some.now) self.new result }
        ensures spelled { length some.now ≤ MAX_PART → IfSome result.order (λ o. IsSpelled (order_of o)) }
    {
        if some.is_empty() {
            return nothing();
        }
        let Some(number) = self.current.get(&client).copied() else {
            return nothing();
        };
        self.grow(number, some)
    }

    // Some of a content comes.
    fn grow<'a>(&mut self, number: u64, some: &'a [u8]) -> LargeOut<'a>
        requires { 1 ≤ length some.now }
        ensures gives { Gives (grows self.old number some.now (at self.old.held number)) self.new result }
        ensures spelled { length some.now ≤ MAX_PART → IfSome result.order (λ o. IsSpelled (order_of o)) }
    {
        let Some(content) = self.held.get(number) else {
            return nothing();
        };
        match content.count.checked_add(some.len() as u64) {
            Some(count) if count <= content.most => {
                self.held.set(number, Content { count, ..content });
                LargeOut {
                    told: None,
                    order: Some(Order::Part { number, some }),
                }
            }
            _ => self.give_up(
                number,
                content,
                Answer::Lacks {
                    cause: LargeCause::TooLarge,
                },
            ),
        }
    }

    // A content is answered, and the service is to drop it.
    fn give_up<'a>(&mut self, number: u64, content: Content, answer: Answer) -> LargeOut<'a>
        ensures { Gives (answers self.old number content answer (Drops number ∷ [])) self.new result }
    {
        self.held.remove(number);
        LargeOut {
            told: Some(content.tell(answer)),
            order: Some(Order::Drop { number }),
        }
    }

    /// A client ends the content that it is within, and may begin the next.
    pub fn end<'a>(&mut self, client: u64, ending: Ending) -> LargeOut<'a>
        ensures { Gives (ended_by self.old client ending) self.new result }
    {
        let Some(number) = self.current.remove(&client) else {
            return nothing();
        };
        self.finish(number, ending)
    }

    // A content is whole, or given up.
    fn finish<'a>(&mut self, number: u64, ending: Ending) -> LargeOut<'a>
        ensures { Gives (ends self.old number ending (at self.old.held number)) self.new result }
    {
        let Some(content) = self.held.get(number) else {
            return nothing();
        };
        if ending == Ending::GivenUp {
            let cause = LargeCause::GivenUp;
            return self.give_up(number, content, Answer::Lacks { cause });
        }
        self.held.set(
            number,
            Content {
                ended: true,
                ..content
            },
        );
        LargeOut {
            told: None,
            order: Some(Order::End {
                number,
                count: content.count,
            }),
        }
    }

    /// A client that is within a content sent nothing for too long.
    pub fn late<'a>(&mut self, client: u64) -> LargeOut<'a>
        ensures { Gives (late self.old client) self.new result }
    {
        let Some(number) = self.current.get(&client).copied() else {
            return nothing();
        };
        let Some(content) = self.held.get(number) else {
            return nothing();
        };
        let cause = Cause::TimedOut;
        self.give_up(number, content, Answer::Unjudged { cause })
    }

    /// A word of the service, at the guard's floor. A word that may not come is refused, and changes nothing: the caller closes
    /// the second connection, and says that it is lost.
    pub fn hear(&mut self, floor: Version, word: Word) -> Result<Option<Told>, Unwelcome>
        ensures { AnswersAtOnce self.old self.new result (heard self.old floor word) }
    {
        let number = number_in(&word);
        let Some(content) = self.held.get(number) else {
            return if number >= 1 && number <= self.last {
                Ok(None)
            } else {
                Err(Unwelcome::NotGiven)
            };
        };
        if let Some(why) = content.fault(&word) {
            return Err(why);
        }
        self.held.remove(number);
        Ok(Some(content.tell(Answer::of(floor, &word))))
    }

    /// A client is gone. The numbers of its contents without an answer are appended: the service is sent an `Order::Drop` for
    /// each. If memory is refused nothing has changed.
    pub fn leave(&mut self, client: u64, dropped: &mut Vec<u64>) -> Result<(), AllocError>
        ensures ok { OnOk result (self.new ≡ (left_by self.old client).state) }
        ensures dropped { OnOk result (dropped.new.items ≡ dropped.old.items ++ numbers_of (theirs client self.old.held)) }
        ensures err { OnErr result ((self.new ≡ self.old) × (dropped.new.items ≡ dropped.old.items)) }
    {
        drop_all(&mut self.held, client, dropped)?;
        let _ = self.current.remove(&client);
        Ok(())
    }

    /// Whether the service owes the verdict of a content: its end was sent. If that is so for too long, the caller closes the
    /// second connection, and says that it is lost.
    pub fn owes(&self, number: u64) -> bool
        ensures { result ≡ is_owed (at self.now.held number) }
    {
        match self.held.get(number) {
            Some(content) => content.ended,
            None => false,
        }
    }

    /// The second connection of a service is lost, or no service is there any more, with which the caller closes it.
    /// Each content without an answer is told, by rising number. If memory is refused nothing has changed.
    pub fn lose(&mut self, told: &mut Vec<Told>) -> Result<(), AllocError>
        ensures ok { OnOk result (self.new ≡ (lost self.old).state) }
        ensures told { OnOk result (told.new.items ≡ told.old.items ++ (lost self.old).told) }
        ensures err { OnErr result ((self.new ≡ self.old) × (told.new.items ≡ told.old.items)) }
    {
        lose_all(&mut self.held, told)?;
        self.takes = false;
        Ok(())
    }
}
