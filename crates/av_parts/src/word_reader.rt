ghost use Rattle.std.specs.Prelude.{◌≡◌, ◌<◌, ◌≤◌, [], drop, length, false, IfErr, IfOk, None, Ok, Some};
ghost use Rattle.av_parts.specs.Listening.{after};
ghost use Rattle.av_parts.specs.WordsHeard.{clean_of, fresh, heard_of, hello_of, infected_of, lacks_of, said_as, said_list, said_of, step, verdict_of, why_of};

use crate::fault::WordFault;
use crate::fields::{u32_at, u64_at};
use crate::sizes::{CLEAN_SIZE, HELLO_SIZE, INFECTED_SIZE, MAX_INDEX, UNJUDGED_SIZE, WORD_FRONT};
use crate::word::{Said, Unjudged, Word};
use arrayvec::ArrayVec;
use av_base::Version;
use std::marker::Model;

/// The stream of words that a guard hears of a service, which comes in pieces cut anywhere: a greeting, and then verdicts. A
/// reader keeps less than one frame, at most 33 bytes, and takes no memory.
#[derive(Drop)]
pub struct WordReader {
    front: ArrayVec<u8, WORD_FRONT>,
    greeted: bool,
    fault: Option<WordFault>,
}

impl Model for WordReader {
    ghost use Rattle.std.specs.Prelude.{◌<◌, length};
    ghost use Rattle.av_parts.specs.declared.sizes.TheConstants.{WORD_FRONT};
    ghost use Rattle.av_parts.specs.WordsHeard.{Attending};

    ghost Value = { Attending };

    ghost view = { λ r. record { front = r.front.items; greeted = r.greeted; fault = r.fault } };

    ghost invariant = { λ r. length r.front.items < WORD_FRONT };
}

impl WordReader {
    /// A reader that nothing came to.
    pub fn new() -> WordReader
        ensures { result ≡ fresh }
    {
        WordReader {
            front: ArrayVec::new(),
            greeted: false,
            fault: None,
        }
    }

    /// Whether the service has greeted.
    pub fn has_greeted(&self) -> bool
        ensures { result ≡ self.now.greeted }
    {
        let WordReader { greeted, .. } = self;
        *greeted
    }

    /// Takes bytes of a piece up to the end of the first frame. It answers how many bytes it took, all of them where no frame
    /// ended, and what that frame says. A fault is told again by each later call, and nothing more is heard.
    pub fn hear(&mut self, piece: &[u8]) -> Result<(usize, Option<Said>), WordFault>
        ensures within { IfOk result (λ r. r.0 ≤ length piece.now) }
        ensures some { IfOk result (λ r. 1 ≤ length piece.now → 1 ≤ r.0) }
        ensures whole { IfOk result (λ r. r.1 ≡ None → r.0 ≡ length piece.now) }
        ensures heard { IfOk result (λ r. after (said_list r.1) (heard_of (drop r.0 piece.now) self.new) ≡ heard_of piece.now self.old) }
        ensures fault { IfErr result (λ f. (heard_of piece.now self.old ≡ (self.new, [])) × (self.new.fault ≡ Some f)) }
    {
        if let Some(fault) = self.fault {
            return Err(fault);
        }
        hear_frame(self, piece)
    }

    // Takes a byte.
    #[tactic(auto, unfolding(crate::specs::WordsHeard::step))]
    fn byte(&mut self, byte: u8) -> Result<Option<Said>, WordFault>
        requires { self.old.fault ≡ None }
        ensures ok { IfOk result (λ s. (self.new, said_list s) ≡ step byte self.old) }
        ensures well { IfOk result (λ s. self.new.fault ≡ None) }
        ensures fault { IfErr result (λ f. ((self.new, []) ≡ step byte self.old) × (self.new.fault ≡ Some f)) }
    {
        self.front.push(byte);
        match read_said(self.greeted, self.front.as_slice()) {
            Ok(None) => Ok(None),
            Ok(Some(said)) => {
                self.front.clear();
                self.greeted = true;
                Ok(Some(said))
            }
            Err(fault) => {
                self.front.clear();
                self.fault = Some(fault);
                Err(fault)
            }
        }
    }
}

// Takes bytes until a frame is whole.
fn hear_frame(reader: &mut WordReader, piece: &[u8]) -> Result<(usize, Option<Said>), WordFault>
    requires { reader.old.fault ≡ None }
    ensures within { IfOk result (λ r. r.0 ≤ length piece.now) }
    ensures some { IfOk result (λ r. 1 ≤ length piece.now → 1 ≤ r.0) }
    ensures whole { IfOk result (λ r. r.1 ≡ None → r.0 ≡ length piece.now) }
    ensures heard { IfOk result (λ r. after (said_list r.1) (heard_of (drop r.0 piece.now) reader.new) ≡ heard_of piece.now reader.old) }
    ensures fault { IfErr result (λ f. (heard_of piece.now reader.old ≡ (reader.new, [])) × (reader.new.fault ≡ Some f)) }
{
    let mut taken = 0;
    'bytes: while taken < piece.len() {
        let byte = piece[taken];
        taken += 1;
        match reader.byte(byte) {
            Ok(None) => {}
            Ok(Some(said)) => return Ok((taken, Some(said))),
            Err(fault) => return Err(fault),
        }
    }
    Ok((taken, None))
}

// What the bytes of a frame that came say, once they are all. A length is judged once its four bytes are there, and a kind with
// the byte behind them.
#[tactic(auto, unfolding(crate::specs::WordsHeard::said_of))]
fn read_said(greeted: bool, front: &[u8]) -> Result<Option<Said>, WordFault>
    ensures exact { result ≡ said_of greeted front.now }
    ensures short { result ≡ Ok None → length front.now < WORD_FRONT }
{
    if front.len() < 4 {
        return Ok(None);
    }
    let size = u32_at(front, 0) as usize;
    if size < HELLO_SIZE || size > INFECTED_SIZE {
        return Err(WordFault::Length);
    }
    if front.len() == 4 {
        return Ok(None);
    }
    let kind = front[4];
    if kind != 20 && kind != 21 {
        return Err(WordFault::Kind);
    }
    let wanted = if greeted { 21 } else { 20 };
    if kind != wanted {
        return Err(WordFault::Greeting);
    }
    if front.len() < 4 + size {
        return Ok(None);
    }
    let said = read_as(greeted, &front[4..])?;
    Ok(Some(said))
}

// What a body says.
#[tactic(auto, unfolding(crate::specs::WordsHeard::said_as))]
fn read_as(greeted: bool, body: &[u8]) -> Result<Said, WordFault>
    requires { HELLO_SIZE ≤ length body.now }
    ensures { result ≡ said_as greeted body.now }
{
    if !greeted {
        return hello(body);
    }
    let word = verdict(body)?;
    Ok(Said::Of(word))
}

#[tactic(auto, unfolding(crate::specs::WordsHeard::hello_of))]
fn hello(body: &[u8]) -> Result<Said, WordFault>
    requires { HELLO_SIZE ≤ length body.now }
    ensures { result ≡ hello_of body.now }
{
    if body.len() != HELLO_SIZE {
        return Err(WordFault::Shape);
    }
    if body[1] != 1 {
        return Err(WordFault::Format);
    }
    let version = u64_at(body, 2);
    if version == 0 {
        return Err(WordFault::Range);
    }
    Ok(Said::Hello {
        version: Version::new(version),
    })
}

#[tactic(auto, unfolding(crate::specs::WordsHeard::verdict_of))]
fn verdict(body: &[u8]) -> Result<Word, WordFault>
    requires { HELLO_SIZE ≤ length body.now }
    ensures { result ≡ verdict_of body.now }
{
    match body[9] {
        0 => clean(body),
        1 => infected(body),
        2 => lacks(body),
        _ => Err(WordFault::Status),
    }
}

#[tactic(auto, unfolding(crate::specs::WordsHeard::clean_of))]
fn clean(body: &[u8]) -> Result<Word, WordFault>
    ensures { result ≡ clean_of body.now }
{
    if body.len() != CLEAN_SIZE {
        return Err(WordFault::Shape);
    }
    let (number, version) = (u64_at(body, 1), u64_at(body, 10));
    if number == 0 || version == 0 {
        return Err(WordFault::Range);
    }
    Ok(Word::Clean {
        number,
        version: Version::new(version),
        count: u64_at(body, 18),
    })
}

#[tactic(auto, unfolding(crate::specs::WordsHeard::infected_of))]
fn infected(body: &[u8]) -> Result<Word, WordFault>
    ensures { result ≡ infected_of body.now }
{
    if body.len() != INFECTED_SIZE {
        return Err(WordFault::Shape);
    }
    let (number, version) = (u64_at(body, 1), u64_at(body, 10));
    let (index, end_at) = (u32_at(body, 18), u64_at(body, 22));
    if number == 0 || version == 0 || index > MAX_INDEX || end_at == 0 {
        return Err(WordFault::Range);
    }
    Ok(Word::Infected {
        number,
        version: Version::new(version),
        index,
        end_at,
    })
}

#[tactic(auto, unfolding(crate::specs::WordsHeard::lacks_of))]
fn lacks(body: &[u8]) -> Result<Word, WordFault>
    ensures { result ≡ lacks_of body.now }
{
    if body.len() != UNJUDGED_SIZE {
        return Err(WordFault::Shape);
    }
    let number = u64_at(body, 1);
    if number == 0 {
        return Err(WordFault::Range);
    }
    let why = why(body[10])?;
    Ok(Word::None { number, why })
}

fn why(number: u8) -> Result<Unjudged, WordFault>
    ensures { result ≡ why_of number }
{
    match number {
        1 => Ok(Unjudged::Full),
        2 => Ok(Unjudged::Newer),
        _ => Err(WordFault::Range),
    }
}
