//! What a guard says to who is turned away at one of its sockets: one frame, the first and the last that it sends on that connection.
//! No message of a filter and no answer to an ask begins as it does, so a program that doesn't know it takes it for a bad frame.

ghost use Rattle.std.specs.Prelude.{◌≡◌, ◌+◌, ◌<◌, ◌≤◌, ◌++◌, [], ◌∷◌, OnErr, OnOk, length, take, vec_len, vec_capacity};
ghost use Rattle.av_status.specs.declared.status.Status.TheVariants.{Refused};
ghost use Rattle.av_arrival.specs.Refusal.{IsReadBack, field8, reason_of, refusal_frame, refusal_of, told_in, version_of};

use av_base::{Part, Version};
use av_status::Status;
use av_status::faults::{say_of, text};
use std::alloc::AllocError;
use std::io::Write;
use std::marker::Model;

/// How many bytes the frame has.
pub const REFUSAL_SIZE: usize = 14;

// The length of its body, and its kind.
static HEAD: [u8; 5] = [0, 0, 0, 10, 255];

/// Why somebody is turned away.
#[derive(Clone, Copy, Debug, PartialEq, Eq)]
pub enum TurnedAway {
    /// A service's set is older than this version, which was believed before.
    Older(Version),
    /// A service's set is above this version, the most that is believed.
    Above(Version),
    /// A scanning service and one that stands by are there already.
    Full,
    /// The socket is not for scanning services.
    OtherSocket,
}

impl TurnedAway {
    // The number of the reason in the frame.
    fn reason(&self) -> u8
        ensures { result ≡ reason_of self.now }
    {
        match self {
            TurnedAway::Older(_) => 1,
            TurnedAway::Above(_) => 2,
            TurnedAway::Full => 3,
            TurnedAway::OtherSocket => 4,
        }
    }

    // The version in the frame: 0 where the reason has none.
    fn version(&self) -> u64
        ensures { result ≡ version_of self.now }
    {
        match self {
            TurnedAway::Older(version) | TurnedAway::Above(version) => version.get(),
            TurnedAway::Full | TurnedAway::OtherSocket => 0,
        }
    }

    // The reason of this number with this version.
    fn told(reason: u8, version: Version) -> Option<TurnedAway>
        ensures { result ≡ told_in reason version }
    {
        match reason {
            1 => Some(TurnedAway::Older(version)),
            2 => Some(TurnedAway::Above(version)),
            3 => Some(TurnedAway::Full),
            4 => Some(TurnedAway::OtherSocket),
            _ => None,
        }
    }
}

/// Puts the frame behind what is to go out. Where memory is refused nothing is put.
pub fn put_refusal(out: &mut Vec<u8>, why: TurnedAway) -> Result<(), AllocError>
    ensures ok { OnOk result (out.new.items ≡ out.old.items ++ refusal_frame why) }
    ensures err { OnErr result (out.new.items ≡ out.old.items) }
{
    out.reserve(REFUSAL_SIZE)?;
    put_frame(out, why);
    Ok(())
}

fn put_frame(out: &mut Vec<u8>, why: TurnedAway)
    requires { vec_len out.old + 14 ≤ vec_capacity out.old }
    ensures { out.new.items ≡ out.old.items ++ refusal_frame why }
{
    out.extend_from_slice(HEAD.as_slice()).unwrap();
    out.push(why.reason()).unwrap();
    put_number(out, why.version());
}

#[tactic(auto, unfolding(crate::specs::Refusal::field8))]
fn put_number(out: &mut Vec<u8>, number: u64)
    requires { vec_len out.old + 8 ≤ vec_capacity out.old }
    ensures { out.new.items ≡ out.old.items ++ field8 number }
{
    out.extend_from_slice(&number.to_be_bytes()).unwrap();
}

/// The reason that these bytes spell, where they are such a frame.
#[tactic(auto, unfolding(crate::specs::Refusal::refusal_of))]
pub fn refusal_in(bytes: &[u8]) -> Option<TurnedAway>
    ensures { result ≡ refusal_of bytes.now }
{
    if bytes.len() != REFUSAL_SIZE || &bytes[..5] != HEAD.as_slice() {
        return None;
    }
    let mut field = [0u8; 8];
    field.copy_from_slice(&bytes[6..14]);
    TurnedAway::told(bytes[5], Version::new(u64::from_be_bytes(field)))
}

/// What a guard says is what the one who is turned away reads.
pub fn a_refusal_is_read_back()
    ensures { IsReadBack }
{}

/// Says why a service, whose set has this version, was turned away at a socket.
pub fn turned_away<E: Write>(err: &mut E, socket: &str, version: Version, why: TurnedAway) -> Status
    ensures { result ≡ Refused }
{
    let refused = text(": refused: ");
    let own = Part::Number(version.get());
    let of_set = text("version ");
    match why {
        TurnedAway::Older(floor) => {
            let floor = Part::Number(floor.get());
            say_of(
                err,
                socket,
                &[refused, of_set, own, text(" is older than "), floor],
            );
        }
        TurnedAway::Above(most) => {
            let most = Part::Number(most.get());
            say_of(
                err,
                socket,
                &[refused, of_set, own, text(" is above "), most],
            );
        }
        TurnedAway::Full => {
            say_of(
                err,
                socket,
                &[refused, text("a service and one that stands by are there")],
            );
        }
        TurnedAway::OtherSocket => {
            say_of(
                err,
                socket,
                &[refused, text("no scanning service is taken at this socket")],
            );
        }
    }
    Status::Refused
}

/// The first bytes of a connection, as many as a refusal has.
#[derive(Drop)]
pub struct Front {
    bytes: [u8; REFUSAL_SIZE],
    count: usize,
}

impl Model for Front {
    ghost use Rattle.std.specs.Prelude.{ℕ, ◌≤◌, List, take};

    ghost Value = { List ℕ };

    ghost view = { λ f. take f.count f.bytes };

    ghost invariant = { λ f. f.count ≤ 14 };
}

impl Front {
    /// None yet.
    pub fn new() -> Front
        ensures { result ≡ [] }
    {
        Front {
            bytes: [0u8; REFUSAL_SIZE],
            count: 0,
        }
    }

    /// Those that came so far.
    pub fn bytes(&self) -> &[u8]
        ensures { result.now ≡ self.now }
    {
        &self.bytes[..self.count]
    }

    /// Goes on over bytes that came.
    #[tactic(auto, using(crate::proofs::FrontLemmas::is_full, crate::proofs::FrontLemmas::is_all))]
    pub fn pass(&mut self, bytes: &[u8])
        ensures { self.new ≡ take REFUSAL_SIZE (self.old ++ bytes.now) }
    {
        let mut rest = bytes;
        'bytes: while self.count < REFUSAL_SIZE {
            let Some((byte, behind)) = rest.split_first() else {
                break;
            };
            self.push(*byte);
            rest = behind;
        }
    }

    // Takes one byte more.
    fn push(&mut self, byte: u8)
        requires { length self.old < 14 }
        ensures { self.new ≡ self.old ++ byte ∷ [] }
    {
        self.bytes[self.count] = byte;
        self.count += 1;
    }
}
