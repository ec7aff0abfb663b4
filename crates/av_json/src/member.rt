ghost use Rattle.std.specs.Prelude.{map};
ghost use Rattle.av_json.specs.Member.{Puts, joined, member_tokens, named_tokens, object_tokens};

use json::Writer;
use std::alloc::{AllocError, Global};

/// A member of an object: its name, and its text or number.
#[derive(Clone, Copy)]
pub enum Member<'a> {
    Text(&'a str, &'a str),
    Number(&'a str, u64),
}

/// Puts an object of these members.
#[tactic(auto, unfolding(crate::specs::Member::object_tokens))]
pub fn put_object(line: &mut Writer, members: &[Member<'_>]) -> Result<(), AllocError>
    ensures { Puts result line.old line.new (object_tokens (map member_tokens members.now)) }
{
    line.begin_object()?;
    put_members(line, members)?;
    line.end_object()
}

/// Puts members one behind the other, within an object that the caller begins and ends.
pub fn put_members(line: &mut Writer, members: &[Member<'_>]) -> Result<(), AllocError>
    ensures { Puts result line.old line.new (joined (map member_tokens members.now)) }
{
    for member in members {
        put_member(line, *member)?;
    }
    Ok(())
}

#[tactic(auto, unfolding(crate::specs::Member::text_tokens, crate::specs::Member::number_tokens))]
fn put_member(line: &mut Writer, member: Member<'_>) -> Result<(), AllocError>
    ensures { Puts result line.old line.new (member_tokens member.entry) }
{
    match member {
        Member::Text(name, text) => {
            line.key(name)?;
            line.string(text)
        }
        Member::Number(name, number) => {
            line.key(name)?;
            line.u64(number)
        }
    }
}

/// Puts bytes as a text where they are UTF-8, and else, under another name, their pairs of hexadecimal digits of lower case.
/// Only such digits take memory besides the line's.
pub fn put_named(
    alloc: Global,
    line: &mut Writer,
    name: &str,
    digits_name: &str,
    bytes: &[u8],
) -> Result<(), AllocError>
    ensures { Puts result line.old line.new (named_tokens name.now digits_name.now bytes.now) }
{
    match str::from_utf8(bytes) {
        Ok(text) => put_member(line, Member::Text(name, text)),
        Err(_) => {
            let digits = hex::encode(alloc, bytes)?;
            put_member(line, Member::Text(digits_name, &digits))
        }
    }
}
