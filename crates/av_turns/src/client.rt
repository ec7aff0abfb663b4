ghost use Rattle.std.specs.Prelude.{◌≡◌, ◌≤◌, ◌<◌, ◌+◌};
ghost use Rattle.std.specs.Bool.{OnTrue};
ghost use Rattle.av_turns.specs.Times.{after, earlier};
ghost use Rattle.av_turns.specs.Client.{answered, asked, begun, came, due_of, emptied, granted, is_free, is_quiet, IsFit, large_left, large_stood, may_parse, may_turn, new_of, over, reply_of, room_of, said, sent, settled, size_of, small_left, small_stood, told, waits_from, weight_of, written};

use crate::limits::{
    FLOOR, LINE_EACH, MOST, OUT_LEAST, OUT_READ, OUT_TURN, REPLY_CLAMD, REPLY_OPENS, SAY, SMALL,
};

/// Which protocol a client speaks.
#[derive(Clone, Copy, Debug, PartialEq, Eq)]
pub enum Kind {
    /// The open protocol: frames with tags.
    Opens,
    /// The command protocol of clamd.
    Clamd,
}

/// What is left of a client's input, unparsed, at the end of its turn.
#[derive(Clone, Copy, Debug, PartialEq, Eq)]
pub enum Left {
    /// No byte.
    Nothing,
    /// At least one whole thing, and so many bytes in all.
    Whole {
        /// Bytes that are left.
        held: u64,
    },
    /// A begun thing, of which so many bytes came.
    Part {
        /// Bytes that are left.
        held: u64,
        /// The whole size of the begun thing, 0 where it is not known yet.
        total: u64,
    },
    /// What came waits, and the client is not read before it is told to be readable again.
    Held {
        /// Bytes that are left.
        held: u64,
    },
}

/// What is counted of one client. Times are in milliseconds.
#[derive(Clone, Copy, Debug, PartialEq, Eq)]
pub struct Client {
    /// Its protocol.
    pub kind: Kind,
    /// A read may bring something.
    pub readable: bool,
    /// A whole thing is in what was read.
    pub inside: bool,
    /// The begun thing is a large ask that has a share of the pool.
    pub filling: bool,
    /// It is in the ring of those to be read.
    pub is_ready: bool,
    /// How many small asks of it are in line.
    pub line: u64,
    /// Bytes of input that are not parsed.
    pub input: u64,
    /// Bytes of its asks in line.
    pub lined: u64,
    /// Bytes that it has of the pool.
    pub share: u64,
    /// Bytes of the pool that it waits for.
    pub want: u64,
    /// Room that is kept for the answers that it waits for.
    pub kept: u64,
    /// Bytes of output that wait.
    pub out: u64,
    /// Bytes that it took since `waits`.
    pub taken: u64,
    /// When the first byte of the begun thing came.
    pub first: Option<u64>,
    /// When the first byte of its next small ask in line came.
    pub next_small: Option<u64>,
    /// When the first byte of its large ask in line came.
    pub next_large: Option<u64>,
    /// Since when its output waits.
    pub waits: Option<u64>,
    /// Since when nothing is begun, in line, unanswered or unsent.
    pub idle: Option<u64>,
}

impl Client {
    // A client that was just let in.
    pub(crate) fn new(kind: Kind, now: u64) -> Client
        ensures value { result ≡ new_of kind now }
        ensures fit { IsFit result }
    {
        Client {
            kind,
            readable: true,
            inside: false,
            filling: false,
            is_ready: false,
            line: 0,
            input: 0,
            lined: 0,
            share: 0,
            want: 0,
            kept: 0,
            out: 0,
            taken: 0,
            first: None,
            next_small: None,
            next_large: None,
            waits: None,
            idle: Some(now),
        }
    }

    /// Bytes of output that wait, with the room that is kept for answers.
    pub fn weight(&self) -> u64
        requires { IsFit self.now }
        ensures { result ≡ weight_of self.now }
    {
        self.out + self.kept
    }

    /// How many bytes of input it has room for.
    pub fn room(&self) -> u64
        requires { IsFit self.now }
        ensures { result ≡ room_of self.now }
    {
        let most = if self.filling {
            FLOOR + self.share
        } else {
            FLOOR
        };
        most.saturating_sub(self.input + self.lined)
    }

    /// Whether it may have its turn.
    pub fn may_turn(&self) -> bool
        requires { IsFit self.now }
        ensures { result ≡ may_turn self.now }
    {
        self.is_free() && (self.inside || (self.readable && self.room() > 0))
    }

    // Nothing of its own is in its way, and it waits for no share.
    fn is_free(&self) -> bool
        requires { IsFit self.now }
        ensures { result ≡ is_free self.now }
    {
        self.weight() <= OUT_READ
            && self.line < LINE_EACH
            && self.next_large.is_none()
            && self.want == 0
    }

    // Whether one more thing may be parsed in its turn.
    pub(crate) fn may_parse(&self) -> bool
        requires { IsFit self.now }
        ensures is { result ≡ may_parse self.now }
        ensures room { OnTrue result (weight_of self.now ≤ 20480) }
        ensures place { OnTrue result (self.now.line < 16) }
    {
        self.weight() <= OUT_TURN && self.line < LINE_EACH && self.next_large.is_none()
    }

    /// When its time is up. A client that does nothing wrong has no such time.
    pub fn due(&self, wait: u64) -> Option<u64>
        ensures { result ≡ due_of wait self.now }
    {
        let idle = match self.kind {
            Kind::Opens => None,
            Kind::Clamd => self.idle,
        };
        let asked = earlier(self.next_small, self.next_large);
        after(
            earlier(asked, earlier(self.first, earlier(self.waits, idle))),
            wait,
        )
    }

    // Nothing of it is in line, unanswered or unsent.
    fn is_quiet(&self) -> bool
        ensures { result ≡ is_quiet self.now }
    {
        self.line == 0 && self.next_large.is_none() && self.kept == 0 && self.out == 0
    }

    // A read may bring something.
    pub(crate) fn told(self) -> Client
        requires { IsFit self }
        ensures value { result ≡ told self }
        ensures fit { IsFit result }
    {
        Client {
            readable: true,
            ..self
        }
    }

    // So many bytes came, and there may be more.
    pub(crate) fn came(self, count: u64, more: bool, now: u64) -> Client
        requires fit { IsFit self }
        requires room { count ≤ room_of self }
        ensures value { result ≡ came count more now self }
        ensures fit { IsFit result }
    {
        if count == 0 {
            return Client {
                readable: more,
                ..self
            };
        }
        Client {
            readable: more,
            input: self.input + count,
            first: Some(self.first.unwrap_or(now)),
            idle: None,
            ..self
        }
    }

    // A command was answered with so many bytes.
    pub(crate) fn said(self, bytes: u64, now: u64) -> Client
        requires fit { IsFit self }
        requires room { weight_of self ≤ 20480 }
        ensures value { result ≡ said bytes now self }
        ensures fit { IsFit result }
    {
        Client {
            out: self.out + bytes.min(SAY),
            waits: waits_from(self.waits, bytes, now),
            first: None,
            idle: None,
            filling: false,
            ..self
        }
    }

    // It waits for the answer to an ask.
    pub(crate) fn asked(self) -> Client
        requires fit { IsFit self }
        requires room { weight_of self ≤ 20480 }
        ensures value { result ≡ asked self }
        ensures fit { IsFit result }
    {
        Client {
            kept: self.kept + reply(self.kind),
            first: None,
            idle: None,
            filling: false,
            ..self
        }
    }

    // A small ask of so many bytes, whose first byte came then, is in line.
    pub(crate) fn small_stood(self, length: u64, first: u64) -> Client
        requires fit { IsFit self }
        requires room { weight_of self ≤ 20480 }
        requires place { self.line < 16 }
        requires came { length ≤ self.input }
        ensures value { result ≡ small_stood length first self }
        ensures fit { IsFit result }
    {
        Client {
            line: self.line + 1,
            next_small: Some(self.next_small.unwrap_or(first)),
            input: self.input - length,
            lined: self.lined + length,
            ..self.asked()
        }
    }

    // Its large ask of so many bytes, whose first byte came then, is in line.
    pub(crate) fn large_stood(self, length: u64, first: u64) -> Client
        requires fit { IsFit self }
        requires room { weight_of self ≤ 20480 }
        requires came { length ≤ self.input }
        ensures value { result ≡ large_stood length first self }
        ensures fit { IsFit result }
    {
        Client {
            next_large: Some(first),
            input: self.input - length,
            lined: self.lined + length,
            ..self.asked()
        }
    }

    // A small ask of so many bytes left the line. The first byte of the one behind it came then.
    pub(crate) fn small_left(self, length: u64, next: Option<u64>) -> Client
        requires { IsFit self }
        ensures value { result ≡ small_left length next self }
        ensures fit { IsFit result }
    {
        Client {
            line: self.line.saturating_sub(1),
            next_small: next,
            lined: self.lined.saturating_sub(length),
            ..self
        }
    }

    // Its large ask of so many bytes left the line.
    pub(crate) fn large_left(self, length: u64) -> Client
        requires { IsFit self }
        ensures value { result ≡ large_left length self }
        ensures fit { IsFit result }
    {
        Client {
            next_large: None,
            lined: self.lined.saturating_sub(length),
            ..self
        }
    }

    // Its turn is over.
    pub(crate) fn over(self, left: Left, now: u64) -> Client
        requires { IsFit self }
        ensures value { result ≡ over left now self }
        ensures fit { IsFit result }
    {
        match left {
            Left::Nothing => self.emptied(now),
            Left::Whole { held } => Client {
                inside: true,
                filling: false,
                input: self.input.min(held),
                first: None,
                idle: None,
                ..self
            },
            Left::Part { held, total } => self.begun(held, total, now),
            Left::Held { held } => Client {
                readable: false,
                inside: false,
                filling: false,
                input: self.input.min(held),
                first: None,
                idle: None,
                ..self
            },
        }
    }

    // Nothing of its input is left.
    fn emptied(self, now: u64) -> Client
        requires { IsFit self }
        ensures value { result ≡ emptied now self }
        ensures fit { IsFit result }
    {
        let idle = if self.is_quiet() {
            Some(self.idle.unwrap_or(now))
        } else {
            None
        };
        Client {
            inside: false,
            filling: false,
            input: 0,
            first: None,
            idle,
            ..self
        }
    }

    // A thing is begun: of a large ask the client waits for what its share lacks.
    fn begun(self, held: u64, total: u64, now: u64) -> Client
        requires { IsFit self }
        ensures value { result ≡ begun held total now self }
        ensures fit { IsFit result }
    {
        let size = size_of(held, total);
        let lacks = size.saturating_sub(self.share);
        Client {
            inside: false,
            filling: size > 0 && lacks == 0,
            want: lacks,
            input: self.input.min(held),
            first: Some(self.first.unwrap_or(now)),
            idle: None,
            ..self
        }
    }

    // It has the share that it waited for.
    pub(crate) fn granted(self) -> Client
        requires { IsFit self }
        ensures value { result ≡ granted self }
        ensures fit { IsFit result }
    {
        Client {
            share: self.share + self.want,
            want: 0,
            filling: true,
            ..self
        }
    }

    // A share goes back once the rest is within the floor.
    pub(crate) fn settled(self) -> Client
        requires { IsFit self }
        ensures value { result ≡ settled self }
        ensures fit { IsFit result }
        ensures less { result.share ≤ self.share }
        ensures mark { result.is_ready ≡ self.is_ready }
    {
        if self.filling
            || self.next_large.is_some()
            || self.want > 0
            || self.input + self.lined > FLOOR
        {
            return self;
        }
        Client { share: 0, ..self }
    }

    // An answer that it waited for came, of so many bytes.
    pub(crate) fn answered(self, bytes: u64, now: u64) -> Client
        requires { IsFit self }
        ensures value { result ≡ answered bytes now self }
        ensures fit { IsFit result }
    {
        let room = self.kept.min(reply(self.kind));
        Client {
            kept: self.kept - room,
            out: self.out + bytes.min(room),
            waits: waits_from(self.waits, bytes, now),
            ..self
        }
    }

    // It took so many bytes.
    pub(crate) fn written(self, count: u64, now: u64) -> Client
        requires { IsFit self }
        ensures value { result ≡ written count now self }
        ensures fit { IsFit result }
    {
        if self.out <= count {
            return self.sent(now);
        }
        let taken = self.taken + count;
        if taken >= OUT_LEAST {
            return Client {
                out: self.out - count,
                taken: 0,
                waits: Some(now),
                ..self
            };
        }
        Client {
            out: self.out - count,
            taken,
            ..self
        }
    }

    // It took all. It is idle from now on, where nothing else of it is left.
    fn sent(self, now: u64) -> Client
        requires { IsFit self }
        ensures value { result ≡ sent now self }
        ensures fit { IsFit result }
    {
        let rests = self.line == 0
            && self.next_large.is_none()
            && self.kept == 0
            && !self.inside
            && self.first.is_none();
        let idle = if rests {
            Some(self.idle.unwrap_or(now))
        } else {
            self.idle
        };
        Client {
            out: 0,
            taken: 0,
            waits: None,
            idle,
            ..self
        }
    }
}

// Since when output waits, once so many bytes more do.
fn waits_from(waits: Option<u64>, bytes: u64, now: u64) -> Option<u64>
    ensures { result ≡ waits_from waits bytes now }
{
    if bytes == 0 {
        waits
    } else {
        Some(waits.unwrap_or(now))
    }
}

// The room that is kept for an answer.
pub(crate) fn reply(kind: Kind) -> u64
    ensures { result ≡ reply_of kind }
{
    match kind {
        Kind::Opens => REPLY_OPENS,
        Kind::Clamd => REPLY_CLAMD,
    }
}

// The whole size of a large ask, 0 of a small one. An ask of unknown size is large once it is longer than a small one.
fn size_of(held: u64, total: u64) -> u64
    ensures { result ≡ size_of held total }
{
    if total > SMALL {
        return total.min(MOST);
    }
    if total == 0 && held > SMALL { MOST } else { 0 }
}

// The earlier of two times.
pub(crate) fn earlier(one: Option<u64>, other: Option<u64>) -> Option<u64>
    ensures { result ≡ earlier one other }
{
    match one {
        None => other,
        Some(a) => match other {
            None => Some(a),
            Some(b) => Some(a.min(b)),
        },
    }
}

// So much later, as far as 64 bits count.
pub(crate) fn after(from: Option<u64>, wait: u64) -> Option<u64>
    ensures { result ≡ after from wait }
{
    match from {
        None => None,
        Some(time) => Some(time.saturating_add(wait)),
    }
}
