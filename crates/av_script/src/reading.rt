ghost use Rattle.std.specs.Prelude.{◌≡◌, ◌∷◌, None, Some};
ghost use Rattle.std.specs.Option.{option_copied};
ghost use Rattle.av_base.specs.Line.{rest_of};
ghost use Rattle.av_script.specs.Script.Grammar.{bare_line, cut_line, least_of, line_of, line_of_words, name_line, number_line, open_line, port_line, port_said, publish_line, side_line, write_line};
ghost use Rattle.av_script.specs.Script.Statement.{Reads, named_command, numbered_step};
ghost use Rattle.av_script.specs.Script.Words.{one_word, two_words, three_words};
ghost use Rattle.av_history.specs.declared.event.Event.TheVariants.{Connect, DisconnectFilter, DisconnectService, RestartFilter, RestartService};
ghost use Rattle.av_script.specs.declared.command.Command.TheVariants.{Step};

use crate::hexadecimal::{are_patterns, is_content};
use crate::setting::read_setting;
use crate::statement::Statement;
use crate::verb::{BareVerb, NameVerb, NumberVerb};
use crate::words::{one_word, three_words, two_words};
use av_base::Port;
use av_base::decimal::decimal;
use av_base::line::first_piece;

/// What a line says, where it is a line of a script.
pub fn read_statement(line: &[u8]) -> Option<Statement<'_>>
    ensures { Reads result (line_of line.now) }
{
    if line.is_empty() || line[0] == b'#' {
        return Some(Statement::Silent);
    }
    let (verb, words) = first_piece(line, b' ');
    read_words(verb, words)
}

// What a verb says with the words behind it: the one place that knows which words follow which verb.
fn read_words<'a>(verb: &[u8], words: Option<&'a [u8]>) -> Option<Statement<'a>>
    ensures { Reads result (line_of_words (verb.now ∷ rest_of 32 (option_copied words.entry))) }
{
    if verb == b"publish".as_slice() {
        publish(words)
    } else if verb == b"create".as_slice() {
        named(NameVerb::Create, words)
    } else if verb == b"write".as_slice() {
        write(words)
    } else if verb == b"cut".as_slice() {
        cut(words)
    } else if verb == b"remove".as_slice() {
        named(NameVerb::Remove, words)
    } else if verb == b"judge".as_slice() {
        named(NameVerb::Judge, words)
    } else if verb == b"open".as_slice() {
        open(words)
    } else if verb == b"cleanup".as_slice() {
        named(NameVerb::Cleanup, words)
    } else if verb == b"connect".as_slice() {
        connect(words)
    } else if verb == b"down".as_slice() {
        numbered(NumberVerb::Down, words)
    } else if verb == b"up".as_slice() {
        numbered(NumberVerb::Up, words)
    } else if verb == b"work".as_slice() {
        numbered(NumberVerb::Work, words)
    } else if verb == b"timeout".as_slice() {
        numbered(NumberVerb::Timeout, words)
    } else if verb == b"disconnect".as_slice() {
        disconnect(words)
    } else if verb == b"restart".as_slice() {
        restart(words)
    } else {
        read_setting(verb, words)
    }
}

fn publish(words: Option<&[u8]>) -> Option<Statement<'_>>
    ensures { Reads result (publish_line (rest_of 32 (option_copied words.entry))) }
{
    let (version, patterns) = first_piece(words?, b' ');
    if !are_patterns(patterns) {
        return None;
    }
    let version = decimal(version)?;
    Some(Statement::Publish { version, patterns })
}

fn write(words: Option<&[u8]>) -> Option<Statement<'_>>
    ensures { Reads result (write_line (three_words (rest_of 32 (option_copied words.entry)))) }
{
    let (name, offset, content) = three_words(words)?;
    if name.is_empty() {
        return None;
    }
    if !is_content(content) {
        return None;
    }
    let offset = decimal(offset)?;
    Some(Statement::Write {
        name,
        offset,
        content,
    })
}

fn cut(words: Option<&[u8]>) -> Option<Statement<'_>>
    ensures { Reads result (cut_line (two_words (rest_of 32 (option_copied words.entry)))) }
{
    let (name, length) = two_words(words)?;
    if name.is_empty() {
        return None;
    }
    let length = decimal(length)?;
    Some(Statement::Cut { name, length })
}

fn open(words: Option<&[u8]>) -> Option<Statement<'_>>
    ensures { Reads result (open_line (rest_of 32 (option_copied words.entry))) }
{
    let (name, rest) = first_piece(words?, b' ');
    if name.is_empty() {
        return None;
    }
    let least = least(rest)?;
    Some(Statement::Open { name, least })
}

// The least version of an open: 0 where no word says it.
#[tactic(auto, using(crate::proofs::WordLemmas::least_said))]
fn least(words: Option<&[u8]>) -> Option<u64>
    ensures { result ≡ least_of (rest_of 32 (option_copied words.entry)) }
{
    let Some(_) = words else {
        return Some(0);
    };
    let word = one_word(words)?;
    decimal(word)
}

fn named(verb: NameVerb, words: Option<&[u8]>) -> Option<Statement<'_>>
    ensures { Reads result (name_line (named_command verb) (one_word (rest_of 32 (option_copied words.entry)))) }
{
    let name = one_word(words)?;
    if name.is_empty() {
        return None;
    }
    Some(Statement::Named { verb, name })
}

fn numbered(verb: NumberVerb, words: Option<&[u8]>) -> Option<Statement<'_>>
    ensures { Reads result (number_line (numbered_step verb) (one_word (rest_of 32 (option_copied words.entry)))) }
{
    let word = one_word(words)?;
    let number = decimal(word)?;
    Some(Statement::Numbered { verb, number })
}

// The port that the words behind a verb name: port One where there are none.
#[tactic(auto, using(crate::proofs::WordLemmas::port_word))]
fn port_said(words: Option<&[u8]>) -> Option<Port>
    ensures { result ≡ port_said (rest_of 32 (option_copied words.entry)) }
{
    let Some(_) = words else {
        return Some(Port::One);
    };
    let word = one_word(words)?;
    if word == b"2".as_slice() {
        Some(Port::Two)
    } else {
        None
    }
}

fn connect(words: Option<&[u8]>) -> Option<Statement<'_>>
    ensures { Reads result (port_line (λ port. Step (Connect port)) (rest_of 32 (option_copied words.entry))) }
{
    let port = port_said(words)?;
    Some(Statement::Bare {
        verb: BareVerb::Connect { port },
    })
}

fn disconnect(words: Option<&[u8]>) -> Option<Statement<'_>>
    ensures { Reads result (side_line (port_line (λ port. Step (DisconnectFilter port)))
        (port_line (λ port. Step (DisconnectService port))) (rest_of 32 (option_copied words.entry))) }
{
    let (side, rest) = first_piece(words?, b' ');
    let port = port_said(rest);
    if side == b"filter".as_slice() {
        Some(Statement::Bare {
            verb: BareVerb::DisconnectFilter { port: port? },
        })
    } else if side == b"service".as_slice() {
        Some(Statement::Bare {
            verb: BareVerb::DisconnectService { port: port? },
        })
    } else {
        None
    }
}

#[tactic(auto, using(crate::proofs::WordLemmas::not_bare))]
fn restart(words: Option<&[u8]>) -> Option<Statement<'_>>
    ensures { Reads result (side_line (bare_line (Step RestartFilter)) (port_line (λ port. Step (RestartService port)))
        (rest_of 32 (option_copied words.entry))) }
{
    let (side, rest) = first_piece(words?, b' ');
    if side == b"filter".as_slice() {
        match rest {
            None => Some(Statement::Bare {
                verb: BareVerb::RestartFilter,
            }),
            Some(_) => None,
        }
    } else if side == b"service".as_slice() {
        let port = port_said(rest)?;
        Some(Statement::Bare {
            verb: BareVerb::RestartService { port },
        })
    } else {
        None
    }
}
