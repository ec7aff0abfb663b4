//! The members of a class.
ghost use Rattle.std.specs.Prelude.{◌≡◌};
ghost use Rattle.av_glob.specs.Class.{held_after, is_last, is_member_of, is_met};

/// What was read of a class before the next byte: nothing that is open, a member from which a range may go on, or one with the
/// hyphen of a range.
#[derive(Clone, Copy, Debug, PartialEq, Eq)]
pub enum Held {
    Nothing,
    Low(u8),
    Dashed(u8),
}

/// Whether a byte is one of the members, or in one of their ranges.
pub(crate) fn is_member(members: &[u8], byte: u8) -> bool
    ensures { result ≡ is_member_of members.now byte }
{
    let mut held = Held::Nothing;
    let mut rest = members;
    'members: while let Some((member, below)) = rest.split_first() {
        if is_met(held, *member, byte) {
            return true;
        }
        held = after(held, *member);
        rest = below;
    }
    is_last(held, byte)
}

// Whether the byte is met once this member was read.
fn is_met(held: Held, member: u8, byte: u8) -> bool
    ensures { result ≡ is_met held member byte }
{
    match held {
        Held::Nothing => false,
        Held::Low(low) => member != b'-' && low == byte,
        Held::Dashed(low) => low <= byte && byte <= member,
    }
}

// What is held behind this member.
fn after(held: Held, member: u8) -> Held
    ensures { result ≡ held_after held member }
{
    match held {
        Held::Nothing => Held::Low(member),
        Held::Low(low) if member == b'-' => Held::Dashed(low),
        Held::Low(_) => Held::Low(member),
        Held::Dashed(_) => Held::Nothing,
    }
}

// Whether the byte is what is held at the end.
fn is_last(held: Held, byte: u8) -> bool
    ensures { result ≡ is_last held byte }
{
    match held {
        Held::Nothing => false,
        Held::Low(low) => low == byte,
        Held::Dashed(low) => low == byte || byte == b'-',
    }
}
