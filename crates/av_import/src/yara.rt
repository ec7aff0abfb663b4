//! YARA rules, as far as they look for one of some strings.
ghost use Rattle.std.specs.Prelude.{◌+◌, ◌≤◌, length, IfOk};
ghost use Rattle.av_sigset.specs.declared.set.TheConstants.{MAX_SIGNATURES};

use crate::condition::strings_wanted;
use crate::lexer::{Lexer, Token};
use crate::strings::{Patterns, RuleFault, YaraString, place_of_word, strings_of};
use crate::why::Why;
use av_base::ByteList;
use av_sigset::set::MAX_SIGNATURES;
use av_sigset::{Pattern, Signature, Span};
use itoa::Buffer;
use std::alloc::{AllocError, Global};

/// How a rule begins.
#[derive(Clone, Copy)]
pub struct Head<'a> {
    /// The line of its first word.
    pub line: u64,
    pub name: &'a [u8],
    pub is_private: bool,
    pub is_global: bool,
}

/// The next rule of a file, whose tokens are put into `body` in place of those of the one before.
pub fn next_rule<'a>(
    lexer: &mut Lexer<'a>,
    turns: usize,
    body: &mut Vec<Token<'a>>,
) -> Result<Option<Head<'a>>, RuleFault> {
    body.clear();
    let mut head: Option<Head<'a>> = None;
    for _ in 0..turns {
        let token = match lexer.next() {
            Ok(Some(token)) => token,
            Ok(None) => break,
            Err(why) => return Err(RuleFault::Why(why)),
        };
        let known = match head {
            Some(known) => known,
            None if begins_rule(token.text) => new_head(token.line),
            None => continue,
        };
        if body.is_empty() && is_mark(token.text) {
            head = Some(with_mark(known, token.text));
            continue;
        }
        if token.text == b"}".as_slice() {
            return Ok(Some(with_name(known, body.as_slice(), token, lexer)));
        }
        head = Some(known);
        body.push(token)?;
    }
    Ok(match head {
        Some(head) => Some(Head {
            name: second(body.as_slice(), b"".as_slice()),
            ..head
        }),
        None => None,
    })
}

fn begins_rule(text: &[u8]) -> bool {
    text == b"rule".as_slice() || is_mark(text)
}

fn is_mark(text: &[u8]) -> bool {
    text == b"private".as_slice() || text == b"global".as_slice()
}

fn new_head(line: u64) -> Head<'static> {
    Head {
        line,
        name: b"".as_slice(),
        is_private: false,
        is_global: false,
    }
}

fn with_mark<'a>(head: Head<'a>, mark: &[u8]) -> Head<'a> {
    let mut marked = head;
    if mark == b"private".as_slice() {
        marked.is_private = true;
    } else {
        marked.is_global = true;
    }
    marked
}

// The name of a rule is its second token, also where its brace is that.
fn with_name<'a>(
    head: Head<'a>,
    body: &[Token<'a>],
    brace: Token<'a>,
    lexer: &Lexer<'a>,
) -> Head<'a> {
    if !body.is_empty() {
        return Head {
            name: second(body, brace.text),
            ..head
        };
    }
    let mut ahead = *lexer;
    match ahead.next() {
        Ok(Some(token)) => Head {
            name: token.text,
            ..head
        },
        _ => head,
    }
}

fn second<'a>(body: &[Token<'a>], other: &'a [u8]) -> &'a [u8] {
    match body.get(1) {
        Some(token) => token.text,
        None => other,
    }
}

/// The signatures of a rule, each under the rule's name, and behind it that of the string where it wants several.
pub fn given_of(alloc: Global, name: &[u8], body: &[Token<'_>]) -> Result<Vec<Signature>, RuleFault>
    ensures few { IfOk result (λ given. length given.items ≤ MAX_SIGNATURES + 1) }
{
    let Some(split) = last_condition(body) else {
        return Err(RuleFault::Why(Why::NoCondition));
    };
    let strings = strings_of(alloc, body, split)?;
    let condition = body.get(split.saturating_add(2)..).unwrap_or(&[]);
    let all = strings_wanted(alloc, condition, strings.as_slice())?;
    let mut given = Vec::new(alloc);
    'wanted: for one in &all {
        if let Some(string) = strings.as_slice().get(one.place) {
            let own = name_of(alloc, name, string.name, all.len(), one.place)?;
            push_patterns(alloc, own.as_slice(), string, one.span, &mut given)?;
        }
    }
    Ok(given)
}

fn last_condition(body: &[Token<'_>]) -> Option<usize> {
    let mut last = None;
    for (place, token) in body.iter().enumerate() {
        if token.text == b"condition".as_slice() {
            last = Some(place);
        }
    }
    last
}

// The rule's name, and where it wants more than one string a dot with the name of this one, or with its number.
fn name_of(
    alloc: Global,
    name: &[u8],
    string: &[u8],
    count: usize,
    place: usize,
) -> Result<Vec<u8>, AllocError> {
    let mut own = name.to_vec(alloc)?;
    if count == 1 {
        return Ok(own);
    }
    own.push(b'.')?;
    match string {
        [] | [_] => {
            let mut buffer = Buffer::new();
            own.extend_from_slice(buffer.format(place as u64).as_bytes())?;
        }
        [_, rest @ ..] => own.extend_from_slice(rest)?,
    }
    Ok(own)
}

fn push_patterns(
    alloc: Global,
    name: &[u8],
    string: &YaraString<'_>,
    span: Span,
    given: &mut Vec<Signature>,
) -> Result<(), RuleFault>
    ensures { length given.old.items ≤ MAX_SIGNATURES + 1 → length given.new.items ≤ MAX_SIGNATURES + 1 }
{
    let patterns: &Patterns = match &string.patterns {
        Ok(patterns) => patterns,
        Err(why) => return Err(RuleFault::Why(*why)),
    };
    if let Some(plain) = &patterns.plain {
        push_new(alloc, name, plain.as_slice(), span, given)?;
    }
    if let Some(wide) = &patterns.wide {
        if patterns.plain.is_none() {
            push_new(alloc, name, wide.as_slice(), span, given)?;
        } else {
            let mut long = name.to_vec(alloc)?;
            long.extend_from_slice(b".w")?;
            push_new(alloc, long.as_slice(), wide.as_slice(), span, given)?;
        }
    }
    Ok(())
}

// Puts a signature that isn't there. Of more than a set can have one is kept that is bound to places, if there is one.
fn push_new(
    alloc: Global,
    name: &[u8],
    bytes: &[u8],
    span: Span,
    given: &mut Vec<Signature>,
) -> Result<(), RuleFault>
    ensures { length given.old.items ≤ MAX_SIGNATURES + 1 → length given.new.items ≤ MAX_SIGNATURES + 1 }
{
    if has_signature(given.as_slice(), name, bytes, span) {
        return Ok(());
    }
    if given.len() > MAX_SIGNATURES {
        if span == Span::WIDEST {
            return Ok(());
        }
        let _ = given.pop();
    }
    given.push(Signature {
        name: ByteList::copied(alloc, name)?,
        pattern: Pattern {
            bytes: ByteList::copied(alloc, bytes)?,
            span,
        },
    })?;
    Ok(())
}

fn has_signature(given: &[Signature], name: &[u8], bytes: &[u8], span: Span) -> bool {
    for signature in given {
        if signature.pattern.span == span
            && signature.pattern.bytes.as_slice() == bytes
            && signature.name.as_slice() == name
        {
            return true;
        }
    }
    false
}
