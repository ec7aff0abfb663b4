ghost use Rattle.std.specs.Prelude.{◌≡◌, ◌≤◌, ◌+◌, ◌<◌, ◌^◌, false, drop, length, take, IfOk, IfSome, None, OnErr, OnOk, Some};
ghost use Rattle.std.specs.Option.{option_copied};
ghost use Rattle.av_clamd.specs.declared.door.Reading.TheVariants.{Nothing, Piece};
ghost use Rattle.av_clamd.specs.declared.door.Handling.TheVariants.{Collected};
ghost use Rattle.av_clamd.specs.Text.{answered, goes_on, path_taken};
ghost use Rattle.av_clamd.specs.Door.{Gives, HasBytes, Steps, after_reply, answers, commanded, enlarged, finished, fresh, fresh_with_paths, goes_in_parts, heard_of, in_command, in_size, is_nothing, is_piece, is_relayed, kept_of, names, obeyed, onto, option_told, pieced, relay_left, says, sized, step};

use crate::about::About;
use crate::text::{Paths, answered, end_of, goes_on, is_marked, line_of, path_taken, word_of};
use std::alloc::{AllocError, Global};
use std::marker::Model;
use std::mem;

/// The most bytes of a command, with its end.
pub const LONGEST: usize = 1_024;

/// The most bytes of a content that is collected.
pub const MAX_CONTENT: usize = 1_048_576;

/// The most bytes of a content that is collected while contents go in parts.
pub const MOST_KEPT: usize = 65_536;

/// Whether contents above 65,536 bytes go in parts now.
#[derive(Clone, Copy, Debug, PartialEq, Eq)]
pub enum Sending {
    /// They are collected, up to 1,048,576 bytes.
    Whole,
    /// They go in parts.
    InParts,
}

/// What came of bytes, in the order of the bytes.
#[derive(Debug, Drop)]
pub enum Heard<'a> {
    /// This is to be said to the client at once.
    Say(Vec<u8>),
    /// This content is asked about. Its reply wants the command's number, which is 0 outside of a session, and its end.
    Ask {
        number: u64,
        end: u8,
        content: Vec<u8>,
    },
    /// A content is too long to be collected and comes in parts from here on: `first` came of it so far (it may be empty).
    /// Its reply wants the command's number and end.
    Begin {
        number: u64,
        end: u8,
        first: Vec<u8>,
    },
    /// Some of the content that comes in parts, as it lies in the piece. At least one byte.
    More(&'a [u8]),
    /// The content that comes in parts is whole.
    End,
    /// The file or the folder of this path is asked about, by a door that takes paths. After the first infected file of a folder the
    /// others are asked about only if `is_many`. Each reply wants the command's number and end.
    Path {
        number: u64,
        end: u8,
        is_many: bool,
        path: Vec<u8>,
    },
}

// What a door reads next.
#[derive(Clone, Copy, Debug, PartialEq, Eq)]
pub enum Reading {
    /// A command.
    Command,
    /// The four bytes of a piece's length.
    Size,
    /// A piece with so many bytes left.
    Piece(u32),
    /// Nothing more: the client is left once it was told what it is owed.
    Nothing,
}

// What is done with the bytes of a content.
#[derive(Clone, Copy, Debug, PartialEq, Eq)]
pub enum Handling {
    /// They are collected.
    Collected,
    /// They are handed out as they come.
    Relayed,
    /// There were too many: they are dropped.
    Dropped,
}

/// What one client of clamd's protocol says. It keeps a command of at most 1,024 bytes and a content of at most 1,048,576,
/// as they come. Of a content that comes in parts it keeps nothing.
#[derive(Drop)]
pub struct Door {
    alloc: Global,
    reading: Reading,
    begun: Vec<u8>,
    content: Vec<u8>,
    way: Handling,
    session: bool,
    number: u64,
    end: u8,
    paths: Paths,
    about: Option<About>,
}

impl Model for Door {
    ghost use Rattle.av_clamd.specs.Door.{Opened};

    ghost Value = { Opened };

    ghost view = { λ d. record { reading = d.reading; begun = d.begun.items; content = d.content.items; way = d.way; session = d.session; number = d.number; end = d.end; paths = d.paths; about = d.about } };
}

impl Door {
    /// The door of a client that said nothing yet. It refuses paths. It takes no memory.
    pub fn new(alloc: Global) -> Door
        ensures { result ≡ fresh }
    {
        Door::of(alloc, Paths::Refused)
    }

    /// The same, of a door that takes paths.
    pub fn with_paths(alloc: Global) -> Door
        ensures { result ≡ fresh_with_paths }
    {
        Door::of(alloc, Paths::Taken)
    }

    fn of(alloc: Global, paths: Paths) -> Door
        ensures { result ≡ record fresh { paths = paths } }
    {
        Door {
            alloc,
            reading: Reading::Command,
            begun: Vec::new(alloc),
            content: Vec::new(alloc),
            way: Handling::Collected,
            session: false,
            number: 0,
            end: b'\n',
            paths,
            about: None,
        }
    }

    /// Learns how the guard is now: VERSION names its set from now on, and STATS is answered.
    pub fn learn(&mut self, about: About)
        ensures { self.new ≡ record self.old { about = Some about } }
    {
        self.about = Some(about);
    }

    /// Takes bytes that the client sent, cut anywhere, up to the first of which something came. It answers how many bytes it took,
    /// all of them where nothing came, and what came. `sending` decides about each content whose next piece would bring it above
    /// 65,536 bytes, once that piece's length is known: it goes in parts, unless it was collected beyond that before. The cost is
    /// so many steps. Where memory is refused the client is to be left: nothing more is read of it, and what these bytes gave is
    /// lost.
    pub fn hear<'a>(
        &mut self,
        piece: &'a [u8],
        sending: Sending,
    ) -> Result<(usize, Option<Heard<'a>>), AllocError>
        ensures within { IfOk result (λ r. r.0 ≤ length piece.now) }
        ensures some { IfOk result (λ r. 1 ≤ length piece.now → 1 ≤ r.0) }
        ensures whole { IfOk result (λ r. r.1 ≡ None → r.0 ≡ length piece.now) }
        ensures taken { IfOk result (λ r. heard_of sending (take r.0 piece.now) self.old ≡ (self.new, option_told r.1)) }
        ensures heard { IfOk result (λ r. onto (option_told r.1) (heard_of sending (drop r.0 piece.now) self.new) ≡ heard_of sending piece.now self.old) }
        ensures more { IfOk result (λ r. HasBytes r.1) }
        ensures err { OnErr result (self.new.reading ≡ Nothing) }
    {
        match hear_until(self, piece, sending) {
            Ok(heard) => Ok(heard),
            Err(refused) => {
                self.reading = Reading::Nothing;
                Err(refused)
            }
        }
    }

    /// Whether nothing more is read. The client is left once each content that it asked about was answered.
    pub fn is_done(&self) -> bool
        ensures { result ≡ is_nothing self.now.reading }
    {
        matches!(self.reading, Reading::Nothing)
    }

    /// Whether a content that comes in parts has begun and not ended.
    pub fn is_relaying(&self) -> bool
        ensures { result ≡ is_relayed self.now.way }
    {
        matches!(self.way, Handling::Relayed)
    }

    /// How many bytes are still to come of the piece that has begun, of a content that comes in parts. They are handed out as they come.
    pub fn relay_left(&self) -> usize
        ensures { result ≡ relay_left self.now.reading self.now.way }
    {
        match self.reading {
            Reading::Piece(left) if self.is_relaying() => left as usize,
            _ => 0,
        }
    }

    /// How many bytes are kept of what has begun, a command or a content: of a content that comes in parts those of a length that
    /// is not whole. None where the next command has not begun.
    pub fn begun(&self) -> Option<usize>
        ensures { result ≡ kept_of self.now }
    {
        let kept = self.begun.len() + self.content.len();
        match self.reading {
            Reading::Command if self.begun.is_empty() => None,
            Reading::Nothing => None,
            Reading::Command | Reading::Size | Reading::Piece(_) => Some(kept),
        }
    }

    /// How the client's last command ended, LF before the first: the end of `put_timed_out`'s line.
    pub fn end(&self) -> u8
        ensures { result ≡ self.now.end }
    {
        let Door { end, .. } = self;
        *end
    }

    #[tactic(auto, unfolding(crate::specs::Door::step))]
    fn step<'a>(&mut self, byte: u8, sending: Sending) -> Result<Option<Heard<'a>>, AllocError>
        requires { is_piece self.old.reading ≡ false }
        ensures { Steps self.new result (step sending byte self.old) }
    {
        match self.reading {
            Reading::Command => self.command_byte(byte),
            Reading::Size => self.size_byte(byte, sending),
            Reading::Piece(_) => unreachable!(),
            Reading::Nothing => Ok(None),
        }
    }

    fn command_byte<'a>(&mut self, byte: u8) -> Result<Option<Heard<'a>>, AllocError>
        ensures { Steps self.new result (in_command byte self.old) }
    {
        if byte == end_of(&self.begun) {
            return self.command();
        }
        if self.begun.len() + 1 < LONGEST {
            self.begun.push(byte)?;
        } else {
            self.reading = Reading::Nothing;
        }
        Ok(None)
    }

    fn command<'a>(&mut self) -> Result<Option<Heard<'a>>, AllocError>
        ensures { Steps self.new result (commanded self.old) }
    {
        let command = mem::replace(&mut self.begun, Vec::new(self.alloc));
        self.end = end_of(&command);
        if self.session {
            self.number = self.number.saturating_add(1);
        }
        self.obey(is_marked(&command), word_of(&command))
    }

    fn obey<'a>(&mut self, marked: bool, word: &[u8]) -> Result<Option<Heard<'a>>, AllocError>
        ensures { Steps self.new result (obeyed marked word.now self.old) }
    {
        if word == b"INSTREAM".as_slice() && marked {
            self.reading = Reading::Size;
            self.content.clear();
            self.way = Handling::Collected;
            return Ok(None);
        }
        if word == b"IDSESSION".as_slice() && marked && !self.session {
            self.reading = Reading::Command;
            self.session = true;
            return Ok(None);
        }
        if word == b"END".as_slice() && self.session {
            self.reading = Reading::Nothing;
            return Ok(None);
        }
        match path_taken(self.paths, word) {
            Some(path) => self.name(goes_on(word), path),
            None => self.answer(word),
        }
    }

    // A path is asked about.
    fn name<'a>(&mut self, is_many: bool, path: &[u8]) -> Result<Option<Heard<'a>>, AllocError>
        ensures { Steps self.new result (names is_many path.now self.old) }
    {
        self.reading = self.after_reply();
        let path = path.to_vec(self.alloc)?;
        Ok(Some(Heard::Path {
            number: self.number,
            end: self.end,
            is_many,
            path,
        }))
    }

    fn answer<'a>(&mut self, word: &[u8]) -> Result<Option<Heard<'a>>, AllocError>
        ensures { Steps self.new result (answers (answered self.old.about self.old.paths word.now) self.old) }
    {
        let next = self.after_reply();
        match answered(self.alloc, self.about, self.paths, word)? {
            Some(text) => self.say(&text, next),
            None if self.session => {
                self.say(b"Command invalid inside IDSESSION. ERROR", Reading::Nothing)
            }
            None => self.say(b"UNKNOWN COMMAND", Reading::Nothing),
        }
    }

    fn say<'a>(&mut self, text: &[u8], next: Reading) -> Result<Option<Heard<'a>>, AllocError>
        ensures { Steps self.new result (says text.now next self.old) }
    {
        self.reading = next;
        let line = line_of(self.alloc, self.number, text, self.end)?;
        Ok(Some(Heard::Say(line)))
    }

    fn after_reply(&self) -> Reading
        ensures { result ≡ after_reply self.now }
    {
        if self.session {
            Reading::Command
        } else {
            Reading::Nothing
        }
    }

    fn size_byte<'a>(&mut self, byte: u8, sending: Sending) -> Result<Option<Heard<'a>>, AllocError>
        ensures { Steps self.new result (in_size sending byte self.old) }
    {
        self.begun.push(byte)?;
        if self.begun.len() < 4 {
            return Ok(None);
        }
        let mut field = [0u8; 4];
        field.copy_from_slice(&self.begun[..4]);
        self.begun.clear();
        self.sized(u32::from_be_bytes(field), sending)
    }

    fn sized<'a>(&mut self, size: u32, sending: Sending) -> Result<Option<Heard<'a>>, AllocError>
        ensures { Steps self.new result (sized sending size self.old) }
    {
        if size == 0 {
            return Ok(self.finished());
        }
        match self.way {
            Handling::Collected => self.enlarged(size, sending),
            Handling::Relayed | Handling::Dropped => {
                self.reading = Reading::Piece(size);
                Ok(None)
            }
        }
    }

    // A content that is collected has so many bytes more.
    fn enlarged<'a>(&mut self, size: u32, sending: Sending) -> Result<Option<Heard<'a>>, AllocError>
        requires { self.old.way ≡ Collected }
        ensures { Steps self.new result (enlarged sending size self.old) }
    {
        if goes_in_parts(sending, self.content.len(), size as usize) {
            self.reading = Reading::Piece(size);
            self.way = Handling::Relayed;
            return Ok(Some(Heard::Begin {
                number: self.number,
                end: self.end,
                first: mem::replace(&mut self.content, Vec::new(self.alloc)),
            }));
        }
        if self.content.len() + size as usize > MAX_CONTENT {
            self.content = Vec::new(self.alloc);
            self.way = Handling::Dropped;
            return self.say(
                b"stream: INSTREAM size limit exceeded. ERROR",
                Reading::Piece(size),
            );
        }
        self.reading = Reading::Piece(size);
        Ok(None)
    }

    fn finished<'a>(&mut self) -> Option<Heard<'a>>
        ensures { Gives self.new result (finished self.old) }
    {
        self.reading = self.after_reply();
        let content = mem::replace(&mut self.content, Vec::new(self.alloc));
        match mem::replace(&mut self.way, Handling::Collected) {
            Handling::Collected => Some(Heard::Ask {
                number: self.number,
                end: self.end,
                content,
            }),
            Handling::Relayed => Some(Heard::End),
            Handling::Dropped => None,
        }
    }

    // Bytes of a piece that has so many left. They are copied at once, or handed out.
    fn piece_bytes<'a>(
        &mut self,
        left: u32,
        bytes: &'a [u8],
    ) -> Result<Option<Heard<'a>>, AllocError>
        requires { 1 ≤ length bytes.now }
        ensures { Steps self.new result (pieced left bytes.now self.old) }
    {
        let left = left as usize;
        self.reading = if bytes.len() < left {
            Reading::Piece((left - bytes.len()) as u32)
        } else {
            Reading::Size
        };
        match self.way {
            Handling::Collected => {
                self.content.extend_from_slice(bytes)?;
                Ok(None)
            }
            Handling::Relayed => Ok(Some(Heard::More(bytes))),
            Handling::Dropped => Ok(None),
        }
    }

    // How many bytes a piece has left.
    fn left(&self) -> Option<u32>
        ensures some { IfSome result (λ n. self.now.reading ≡ Piece n) }
        ensures none { result ≡ None → is_piece self.now.reading ≡ false }
    {
        match self.reading {
            Reading::Piece(left) => Some(left),
            Reading::Command | Reading::Size | Reading::Nothing => None,
        }
    }
}

// Whether a content of which so many bytes were collected goes in parts, now that a piece of this length follows.
fn goes_in_parts(sending: Sending, kept: usize, size: usize) -> bool
    requires { kept + size < 2 ^ 64 }
    ensures { result ≡ goes_in_parts sending kept size }
{
    match sending {
        Sending::Whole => false,
        Sending::InParts => kept <= MOST_KEPT && kept + size > MOST_KEPT,
    }
}

// Takes bytes one after another, until something came of one.
fn hear_until<'a>(
    door: &mut Door,
    piece: &'a [u8],
    sending: Sending,
) -> Result<(usize, Option<Heard<'a>>), AllocError>
    ensures within { IfOk result (λ r. r.0 ≤ length piece.now) }
    ensures some { IfOk result (λ r. 1 ≤ length piece.now → 1 ≤ r.0) }
    ensures whole { IfOk result (λ r. r.1 ≡ None → r.0 ≡ length piece.now) }
    ensures taken { IfOk result (λ r. heard_of sending (take r.0 piece.now) door.old ≡ (door.new, option_told r.1)) }
    ensures more { IfOk result (λ r. HasBytes r.1) }
{
    let mut taken = 0;
    'bytes: while taken < piece.len() {
        let (count, one) = hear_some(door, &piece[taken..], sending)?;
        taken += count;
        if one.is_some() {
            return Ok((taken, one));
        }
    }
    Ok((taken, None))
}

// Takes what stands at the front: all of a piece that is there, or one byte. It answers how many bytes that were, and what came.
fn hear_some<'a>(
    door: &mut Door,
    rest: &'a [u8],
    sending: Sending,
) -> Result<(usize, Option<Heard<'a>>), AllocError>
    requires { 1 ≤ length rest.now }
    ensures some { IfOk result (λ r. (1 ≤ r.0) × (r.0 ≤ length rest.now)) }
    ensures taken { IfOk result (λ r. heard_of sending (take r.0 rest.now) door.old ≡ (door.new, option_told r.1)) }
    ensures more { IfOk result (λ r. HasBytes r.1) }
{
    if let Some(left) = door.left() {
        let count = rest.len().min((left as usize).max(1));
        let one = door.piece_bytes(left, &rest[..count])?;
        return Ok((count, one));
    }
    let one = door.step(rest[0], sending)?;
    Ok((1, one))
}
