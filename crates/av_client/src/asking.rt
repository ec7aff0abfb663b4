ghost use Rattle.std.specs.Prelude.{◌≡◌, ◌≤◌, ◌+◌, ◌-◌, ◌<◌, ◌++◌, ◌∷◌, [], length, true, vec_len, None, Option, IfErr, IfOk, IsSome, OnErr, OnOk};
ghost use Rattle.std.specs.Io.KnownBytes.{IsAtEnd};
ghost use Rattle.std.specs.List.{All};
ghost use Rattle.std.specs.Vec.{vec_capacity};
ghost use Rattle.av_asks.specs.Spelling.{ask_frame};
ghost use Rattle.av_client.specs.Asking.{AreAtTheirTags, Forgets, HasAnswer, Hears, IsGuardless, IsKept, IsOwedEach, IsReadOrRefused, IsRefused, Stays, ask_of, told_of};
ghost use Rattle.av_client.specs.Again.{taken_after};
ghost use Rattle.av_client.specs.declared.reply.Reply.{Reply};

use crate::again::taken_after;
use crate::reply::{Reply, is_given_up, is_grant, told};
use crate::sending::{Early, SendingFault, label_of, send_content, send_given_up};
use av_asks::{ContentAnswer, ContentAnswerFeed, How, put_ask};
use av_base::Refusal;
use av_sockets::{Duplex, Hearing, Meeting, Saying, SocketFault, connect};
use std::alloc::Global;
use std::io::{Read, Write};
use std::net::Net;
use std::time::Clock;

// How many answers may be owed before the next content is asked about.
const MOST_OWED: usize = 128;

// How many bytes are read at a time.
const PIECE: usize = 4_096;

/// A client's connection to a guard, over which it asks about contents, one behind the other, and hears the answers as they come
/// about.
#[derive(Drop)]
pub struct Asker<'a, R> {
    alloc: Global,
    duplex: Duplex<'a, R>,
    feed: ContentAnswerFeed,
    // The answer to each content that was asked about, where it has come.
    answers: Vec<Option<Reply>>,
    owed: usize,
    room: Vec<u8>,
    takes_parts: bool,
}

// What comes to a client that is owed the answer to one content alone.
#[derive(Drop)]
struct Coming<'a, 'b, R> {
    duplex: &'b Duplex<'a, R>,
}

impl<'a, 'b, R: Clock> Early for Coming<'a, 'b, R> {
    fn has_answer(&self) -> bool {
        self.duplex.has_come()
    }
}

/// Why a content has no answer.
#[derive(Clone, Copy, Debug, PartialEq, Eq)]
pub enum AskingFault {
    /// It has more than 1,048,576 bytes, and was not asked about as one.
    TooLarge,
    /// It could not be read to its end, and was given up.
    Unread,
    /// Memory was refused.
    Memory,
    /// The guard is gone, or answered nothing for too long, or what is no answer.
    Lost,
}

impl<'a, R: Net + Clock> Asker<'a, R> {
    /// Connects to the guard that listens at a socket, or will within the wait. No answer may take longer than that.
    pub fn connect(
        rt: &'a R,
        alloc: Global,
        meeting: Meeting<'_>,
    ) -> Result<Asker<'a, R>, SocketFault>
        ensures none { IfOk result (λ asker. (asker.answers.items ≡ []) × (asker.owed ≡ 0)) }
        ensures parts { IfOk result (λ asker. asker.takes_parts ≡ true) }
        ensures fault { IfErr result IsGuardless }
    {
        let duplex = meet(rt, alloc, meeting)?;
        Ok(Asker {
            alloc,
            duplex,
            feed: ContentAnswerFeed::new(alloc),
            answers: Vec::new(alloc),
            owed: 0,
            room: Vec::new(alloc),
            takes_parts: true,
        })
    }

    /// Asks about a content of at most 1,048,576 bytes, whose name the guard is told as far as it has room for it. The answer may
    /// come later.
    #[tactic(auto, using(crate::proofs::TagLemmas::asked_stays, crate::proofs::TagLemmas::asked_tags))]
    pub fn ask(&mut self, name: &str, content: &[u8]) -> Result<(), AskingFault>
        ensures place { OnOk result (length self.new.answers.items ≡ length self.old.answers.items + 1) }
        ensures fewer { OnOk result (self.new.owed < 128) }
        ensures small { OnOk result (length content.now ≤ 1_048_576) }
        ensures frame { OnOk result (self.new.room.items ≡ ask_frame (ask_of (length self.old.answers.items) name.now content.now)) }
        ensures large { result ≡ Err AskingFault.TooLarge → 1_048_576 < length content.now }
        ensures each { IsOwedEach self.old.owed self.old.answers.items → IsOwedEach self.new.owed self.new.answers.items }
        ensures stays { Stays self.old.answers.items self.new.answers.items }
        ensures tags { AreAtTheirTags self.old.answers.items → AreAtTheirTags self.new.answers.items }
    {
        self.put(name, content)?;
        let _place = self.reserve_place()?;
        let mut saying = Saying {
            duplex: &self.duplex,
        };
        if saying.write(self.room.as_slice()).is_err() {
            return Err(AskingFault::Lost);
        }
        self.take_place();
        self.hear_until(MOST_OWED)
    }

    // Puts the frame of a content's ask into the room.
    #[tactic(auto, using(crate::proofs::AskLemmas::too_large))]
    fn put(&mut self, name: &str, content: &[u8]) -> Result<(), AskingFault>
        ensures frame { OnOk result (self.new.room.items ≡ ask_frame (ask_of (length self.old.answers.items) name.now content.now)) }
        ensures small { OnOk result (length content.now ≤ 1_048_576) }
        ensures large { result ≡ Err AskingFault.TooLarge → 1_048_576 < length content.now }
        ensures same { (self.new.answers.items ≡ self.old.answers.items) × (self.new.owed ≡ self.old.owed) }
    {
        self.room.clear();
        let tag = self.answers.len() as u64;
        match put_ask(&mut self.room, tag, label_of(name), content) {
            Ok(()) => Ok(()),
            Err(Refusal::Fault(_)) => Err(AskingFault::TooLarge),
            Err(Refusal::NoMemory) => Err(AskingFault::Memory),
        }
    }

    /// Asks about a content of any size, which goes to the guard in parts as a reader gives it, and waits for its answer. Where the
    /// reader fails the content is given up, and has no place among the answers. Where an answer comes before all was sent the rest is
    /// not read; such an answer grants nothing.
    #[tactic(auto, using(crate::proofs::TagLemmas::stays_on))]
    pub fn ask_in_parts<C: Read>(&mut self, name: &str, content: &mut C) -> Result<(), AskingFault>
        ensures place { OnOk result (length self.new.answers.items ≡ length self.old.answers.items + 1) }
        ensures answered { OnOk result (HasAnswer self.new.answers.items (length self.old.answers.items)) }
        ensures read { OnOk result (IsReadOrRefused (C.remaining content.new) self.new.answers.items (length self.old.answers.items)) }
        ensures fewer { OnOk result (self.new.owed < 128) }
        ensures each { IsOwedEach self.old.owed self.old.answers.items → IsOwedEach self.new.owed self.new.answers.items }
        ensures stays { Stays self.old.answers.items self.new.answers.items }
        ensures tags { AreAtTheirTags self.old.answers.items → AreAtTheirTags self.new.answers.items }
    {
        // (so that what comes while it is sent is its answer)
        self.finish()?;
        self.ask_alone(name, content)
    }

    // The same where nothing else is owed.
    #[tactic(auto, using(crate::proofs::TagLemmas::asked_stays, crate::proofs::TagLemmas::asked_tags, crate::proofs::TagLemmas::forgot_stays))]
    fn ask_alone<C: Read>(&mut self, name: &str, content: &mut C) -> Result<(), AskingFault>
        ensures place { OnOk result (length self.new.answers.items ≡ length self.old.answers.items + 1) }
        ensures answered { OnOk result (HasAnswer self.new.answers.items (length self.old.answers.items)) }
        ensures read { OnOk result (IsReadOrRefused (C.remaining content.new) self.new.answers.items (length self.old.answers.items)) }
        ensures fewer { OnOk result (self.new.owed < 128) }
        ensures each { IsOwedEach self.old.owed self.old.answers.items → IsOwedEach self.new.owed self.new.answers.items }
        ensures stays { Stays self.old.answers.items self.new.answers.items }
        ensures tags { AreAtTheirTags self.old.answers.items → AreAtTheirTags self.new.answers.items }
    {
        let place = self.reserve_place()?;
        let how = self.send_under(place, name, content)?;
        self.take_place();
        self.await_answer(place)?;
        match how {
            How::Whole => Ok(()),
            How::GivenUp => self.settle_given_up(place),
        }
    }

    // Sends a content under the tag of a place, as long as nothing comes.
    fn send_under<C: Read>(
        &self,
        place: usize,
        name: &str,
        content: &mut C,
    ) -> Result<How, AskingFault>
        ensures whole { IfOk result (λ how. how ≡ How.Whole → IsAtEnd (C.remaining content.new)) }
        ensures large { ¬ (result ≡ Err AskingFault.TooLarge) }
    {
        let mut saying = Saying {
            duplex: &self.duplex,
        };
        let early = Coming {
            duplex: &self.duplex,
        };
        match send_content(self.alloc, place as u64, name, content, &mut saying, &early) {
            Ok(how) => Ok(how),
            Err(fault) => Err(fault_of(fault)),
        }
    }

    // The content at a place was given up, and has an answer: one that only says so is taken back. No such content can be granted.
    fn settle_given_up(&mut self, place: usize) -> Result<(), AskingFault>
        ensures same { OnOk result (self.new ≡ self.old) }
        ensures refused { OnOk result (IsRefused self.new.answers.items place) }
        ensures taken { OnErr result ((last : Option Reply) × Forgets self.old.answers.items self.new.answers.items last) }
        ensures each { IsOwedEach self.old.owed self.old.answers.items → IsOwedEach self.new.owed self.new.answers.items }
        ensures tags { AreAtTheirTags self.old.answers.items → AreAtTheirTags self.new.answers.items }
    {
        match self.answers.get(place) {
            Some(Some(reply)) if is_grant(reply) => Err(AskingFault::Lost),
            Some(Some(reply)) if !is_given_up(reply) => Ok(()),
            _ => {
                self.forget_last();
                Err(AskingFault::Unread)
            }
        }
    }

    /// Asks about a content of which nothing is sent: it begins and is given up at once. The guard says why it takes none in parts,
    /// and waits for the answer.
    #[tactic(auto, using(crate::proofs::TagLemmas::asked_stays, crate::proofs::TagLemmas::asked_tags))]
    pub fn ask_in_vain(&mut self, name: &str) -> Result<(), AskingFault>
        ensures place { OnOk result (length self.new.answers.items ≡ length self.old.answers.items + 1) }
        ensures answered { OnOk result (HasAnswer self.new.answers.items (length self.old.answers.items)) }
        ensures fewer { OnOk result (self.new.owed < 128) }
        ensures each { IsOwedEach self.old.owed self.old.answers.items → IsOwedEach self.new.owed self.new.answers.items }
        ensures stays { Stays self.old.answers.items self.new.answers.items }
        ensures tags { AreAtTheirTags self.old.answers.items → AreAtTheirTags self.new.answers.items }
    {
        let place = self.reserve_place()?;
        let mut saying = Saying {
            duplex: &self.duplex,
        };
        if let Err(fault) = send_given_up(self.alloc, place as u64, name, &mut saying) {
            return Err(fault_of(fault));
        }
        self.take_place();
        self.await_answer(place)
    }

    // Makes room for the answer to one more content, which has this place once it was sent: no answer is owed before.
    fn reserve_place(&mut self) -> Result<usize, AskingFault>
        ensures same { (self.new.answers.items ≡ self.old.answers.items) × (self.new.owed ≡ self.old.owed) }
        ensures place { IfOk result (λ place. place ≡ length self.old.answers.items) }
        ensures reserved { OnOk result (vec_len self.new.answers < vec_capacity self.new.answers) }
        ensures room { self.new.room.items ≡ self.old.room.items }
        ensures large { ¬ (result ≡ Err AskingFault.TooLarge) }
    {
        match self.answers.reserve(1) {
            Ok(()) => Ok(self.answers.len()),
            Err(_) => Err(AskingFault::Memory),
        }
    }

    // The content was sent: its answer is owed.
    #[tactic(auto, using(crate::proofs::OwedLemmas::asked_each))]
    fn take_place(&mut self)
        requires { vec_len self.old.answers < vec_capacity self.old.answers }
        ensures more { self.new.answers.items ≡ self.old.answers.items ++ None ∷ [] }
        ensures room { self.new.room.items ≡ self.old.room.items }
        ensures each { IsOwedEach self.old.owed self.old.answers.items → IsOwedEach self.new.owed self.new.answers.items }
    {
        self.answers.push_reserved(None);
        self.owed = self.owed.saturating_add(1);
    }

    /// Takes back the answer to the content that was asked about last, where it has come: the next one has its place.
    #[tactic(auto, using(crate::proofs::OwedLemmas::forgot_each, crate::proofs::TagLemmas::forgot_tags))]
    pub fn forget_last(&mut self) -> Option<Reply>
        ensures last { Forgets self.old.answers.items self.new.answers.items result }
        ensures owed { self.new.owed ≡ self.old.owed }
        ensures each { IsOwedEach self.old.owed self.old.answers.items → IsOwedEach self.new.owed self.new.answers.items }
        ensures tags { AreAtTheirTags self.old.answers.items → AreAtTheirTags self.new.answers.items }
    {
        match self.answers.last() {
            Some(Some(reply)) => {
                let reply = *reply;
                let _ = self.answers.pop();
                Some(reply)
            }
            _ => None,
        }
    }

    /// Waits until all is answered.
    #[tactic(auto, using(crate::proofs::OwedLemmas::none_left))]
    pub fn finish(&mut self) -> Result<(), AskingFault>
        ensures none { OnOk result (self.new.owed ≡ 0) }
        ensures each { IsOwedEach self.old.owed self.old.answers.items → IsOwedEach self.new.owed self.new.answers.items }
        ensures all { IsOwedEach self.old.owed self.old.answers.items → OnOk result (All IsSome self.new.answers.items) }
        ensures heard { Hears self.old.answers.items self.new.answers.items }
    {
        self.hear_until(1)
    }

    /// The answers to what was asked about, in that order, where they have come.
    pub fn answers(&self) -> &[Option<Reply>]
        ensures { result.now ≡ self.now.answers.items }
    {
        self.answers.as_slice()
    }

    /// Whether contents in parts are taken, as far as the answers say: the last one of them that tells so decides.
    pub fn takes_parts(&self) -> bool
        ensures { result ≡ self.now.takes_parts }
    {
        self.takes_parts
    }

    // Waits until fewer answers than these are owed.
    fn hear_until(&mut self, count: usize) -> Result<(), AskingFault>
        ensures fewer { OnOk result (self.new.owed < count) }
        ensures room { self.new.room.items ≡ self.old.room.items }
        ensures large { ¬ (result ≡ Err AskingFault.TooLarge) }
        ensures heard { Hears self.old.answers.items self.new.answers.items }
        ensures each { IsOwedEach self.old.owed self.old.answers.items → IsOwedEach self.new.owed self.new.answers.items }
    {
        'pieces: for _ in 0..u64::MAX {
            if self.owed < count {
                return Ok(());
            }
            self.hear_piece()?;
        }
        Err(AskingFault::Lost)
    }

    // Waits until the answer at this place has come, and few are owed.
    #[tactic(auto, using(crate::proofs::TagLemmas::both_heard, crate::proofs::TagLemmas::heard_answer))]
    fn await_answer(&mut self, place: usize) -> Result<(), AskingFault>
        ensures answered { OnOk result (HasAnswer self.new.answers.items place) }
        ensures fewer { OnOk result (self.new.owed < 128) }
        ensures heard { Hears self.old.answers.items self.new.answers.items }
        ensures each { IsOwedEach self.old.owed self.old.answers.items → IsOwedEach self.new.owed self.new.answers.items }
    {
        self.hear_of(place)?;
        let few = MOST_OWED;
        self.hear_until(few)
    }

    // Waits until the answer at this place has come.
    fn hear_of(&mut self, place: usize) -> Result<(), AskingFault>
        ensures answered { OnOk result (HasAnswer self.new.answers.items place) }
        ensures heard { Hears self.old.answers.items self.new.answers.items }
        ensures each { IsOwedEach self.old.owed self.old.answers.items → IsOwedEach self.new.owed self.new.answers.items }
    {
        'pieces: for _ in 0..u64::MAX {
            if let Some(Some(_)) = self.answers.get(place) {
                return Ok(());
            }
            self.hear_piece()?;
        }
        Err(AskingFault::Lost)
    }

    // Waits for some more of the answers.
    fn hear_piece(&mut self) -> Result<(), AskingFault>
        ensures room { self.new.room.items ≡ self.old.room.items }
        ensures large { ¬ (result ≡ Err AskingFault.TooLarge) }
        ensures heard { Hears self.old.answers.items self.new.answers.items }
        ensures each { IsOwedEach self.old.owed self.old.answers.items → IsOwedEach self.new.owed self.new.answers.items }
    {
        let mut piece = [0u8; PIECE];
        let mut hearing = Hearing {
            duplex: &self.duplex,
        };
        match hearing.read(&mut piece) {
            Ok(read) if read > 0 => self.take(piece.get(..read).unwrap_or(b"".as_slice())),
            _ => Err(AskingFault::Lost),
        }
    }

    // Takes the answers that are whole.
    fn take(&mut self, piece: &[u8]) -> Result<(), AskingFault>
        ensures room { self.new.room.items ≡ self.old.room.items }
        ensures large { ¬ (result ≡ Err AskingFault.TooLarge) }
        ensures heard { Hears self.old.answers.items self.new.answers.items }
        ensures each { IsOwedEach self.old.owed self.old.answers.items → IsOwedEach self.new.owed self.new.answers.items }
    {
        if self.feed.push(piece).is_err() {
            return Err(AskingFault::Lost);
        }
        'answers: for _ in 0..u64::MAX {
            match self.feed.next() {
                Ok(Some(answer)) => self.keep(answer)?,
                Ok(None) => return Ok(()),
                Err(_) => break,
            }
        }
        Err(AskingFault::Lost)
    }

    // Keeps an answer, where one is owed to its tag.
    fn keep(&mut self, answer: ContentAnswer) -> Result<(), AskingFault>
        ensures kept { OnOk result (IsKept self.old.answers.items self.new.answers.items (told_of answer)) }
        ensures owed { OnOk result (self.new.owed ≡ self.old.owed - 1) }
        ensures parts { OnOk result (self.new.takes_parts ≡ taken_after answer self.old.takes_parts) }
        ensures err { OnErr result ((self.new.answers.items ≡ self.old.answers.items) × (self.new.owed ≡ self.old.owed)) }
        ensures room { self.new.room.items ≡ self.old.room.items }
        ensures large { ¬ (result ≡ Err AskingFault.TooLarge) }
    {
        let takes_parts = taken_after(&answer, self.takes_parts);
        let (tag, reply) = told(answer);
        let Ok(place) = usize::try_from(tag) else {
            return Err(AskingFault::Lost);
        };
        match self.answers.get_mut(place) {
            Some(kept) if kept.is_none() => *kept = Some(reply),
            _ => return Err(AskingFault::Lost),
        }
        self.owed = self.owed.saturating_sub(1);
        self.takes_parts = takes_parts;
        Ok(())
    }
}

/// A connection to the guard that listens at a socket, or will within the wait.
pub(crate) fn meet<'a, R: Net + Clock>(
    rt: &'a R,
    alloc: Global,
    meeting: Meeting<'_>,
) -> Result<Duplex<'a, R>, SocketFault>
    ensures { IfErr result IsGuardless }
{
    match connect(rt, alloc, meeting) {
        Ok(duplex) => Ok(duplex),
        Err(SocketFault::NotAllowed) => Err(SocketFault::NotAllowed),
        Err(SocketFault::FilterLost) => Err(SocketFault::GuardLost),
        Err(_) => Err(SocketFault::NoGuard),
    }
}

// Why a content was not sent.
fn fault_of(fault: SendingFault) -> AskingFault
    ensures { ¬ (result ≡ AskingFault.TooLarge) }
{
    match fault {
        SendingFault::Memory => AskingFault::Memory,
        SendingFault::Write => AskingFault::Lost,
    }
}
