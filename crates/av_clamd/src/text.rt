//! The words of commands, and the lines that answer them.

ghost use Rattle.std.specs.Prelude.{◌≡◌, ◌++◌, IfOk, OnErr, OnOk, decimal, option_copied};
ghost use Rattle.av_clamd.specs.About.{version_text};
ghost use Rattle.av_clamd.specs.Text.{IsText, answered, behind, commands_of, commands_text, common_commands, end_of, goes_on, is_marked, line_of, numbered, path_commands, path_of, path_taken, refused_path, stats_command, stats_told, word_of};

use crate::about::{About, put_stats, put_version};
use itoa::Buffer;
use std::alloc::{AllocError, Global};

// What becomes of a path that a client names.
#[derive(Clone, Copy, Debug, PartialEq, Eq)]
pub enum Paths {
    // Its command is answered with an error.
    Refused,
    // It is handed out.
    Taken,
}

// How a command ends that begins with these bytes.
pub fn end_of(begun: &[u8]) -> u8
    ensures { result ≡ end_of begun.now }
{
    if !begun.is_empty() && begun[0] == b'z' {
        0
    } else {
        b'\n'
    }
}

// Whether a command begins with n or z.
pub fn is_marked(command: &[u8]) -> bool
    ensures { result ≡ is_marked command.now }
{
    !command.is_empty() && (command[0] == b'n' || command[0] == b'z')
}

// What a command says: all behind its mark, or all but a CR at its end.
pub fn word_of(command: &[u8]) -> &[u8]
    ensures { result.now ≡ word_of command.now }
{
    if is_marked(command) {
        return &command[1..];
    }
    let Some(last) = command.len().checked_sub(1) else {
        return command;
    };
    if command[last] == b'\r' {
        return &command[..last];
    }
    command
}

// What stands behind these first bytes, where it is something.
fn behind<'a>(first: &[u8], word: &'a [u8]) -> Option<&'a [u8]>
    ensures { option_copied result ≡ behind first.now word.now }
{
    if first.len() < word.len() && &word[..first.len()] == first {
        return Some(&word[first.len()..]);
    }
    None
}

// The path of a command that asks about one.
#[tactic(auto, unfolding(crate::specs::Text::path_of))]
fn path_of(word: &[u8]) -> Option<&[u8]>
    ensures { option_copied result ≡ path_of word.now }
{
    if let Some(path) = behind(b"SCAN ", word) {
        return Some(path);
    }
    if let Some(path) = behind(b"CONTSCAN ", word) {
        return Some(path);
    }
    if let Some(path) = behind(b"MULTISCAN ", word) {
        return Some(path);
    }
    behind(b"ALLMATCHSCAN ", word)
}

// The path that a word asks about, where paths are taken.
pub fn path_taken(paths: Paths, word: &[u8]) -> Option<&[u8]>
    ensures { option_copied result ≡ path_taken paths word.now }
{
    match paths {
        Paths::Refused => None,
        Paths::Taken => path_of(word),
    }
}

// Whether a word that asks about a folder goes on past its first infected file.
pub fn goes_on(word: &[u8]) -> bool
    ensures { result ≡ goes_on word.now }
{
    behind(b"SCAN ", word).is_none()
}

// How the list of commands begins: with those for paths, where they are known.
fn path_commands(paths: Paths) -> &'static [u8]
    ensures { result.now ≡ path_commands paths }
{
    match paths {
        Paths::Refused => b"| COMMANDS:",
        Paths::Taken => b"| COMMANDS: SCAN CONTSCAN MULTISCAN ALLMATCHSCAN",
    }
}

// The command for what a guard tells of itself, where that is known.
fn stats_command(about: Option<About>) -> &'static [u8]
    ensures { result.now ≡ stats_command about }
{
    match about {
        None => b"",
        Some(_) => b" STATS",
    }
}

// Appends the commands of every door.
#[tactic(auto, unfolding(crate::specs::Text::common_commands))]
fn put_common(out: &mut Vec<u8>, about: Option<About>) -> Result<(), AllocError>
    ensures { OnOk result (out.new.items ≡ out.old.items ++ common_commands about) }
{
    put_between(
        out,
        b" PING VERSION VERSIONCOMMANDS",
        stats_command(about),
        b" INSTREAM IDSESSION END",
    )
}

// Appends the commands that are known, after the version.
#[tactic(auto, unfolding(crate::specs::Text::commands_of))]
fn put_commands(out: &mut Vec<u8>, about: Option<About>, paths: Paths) -> Result<(), AllocError>
    ensures { OnOk result (out.new.items ≡ out.old.items ++ commands_of about paths) }
{
    out.extend_from_slice(path_commands(paths))?;
    put_common(out, about)
}

// Appends what stands between two texts, with them.
pub fn put_between(
    out: &mut Vec<u8>,
    before: &[u8],
    what: &[u8],
    behind: &[u8],
) -> Result<(), AllocError>
    ensures { OnOk result (out.new.items ≡ out.old.items ++ (before.now ++ what.now ++ behind.now)) }
{
    out.extend_from_slice(before)?;
    out.extend_from_slice(what)?;
    out.extend_from_slice(behind)
}

// What is said to VERSIONCOMMANDS.
fn commands_text(alloc: Global, about: Option<About>, paths: Paths) -> Result<Vec<u8>, AllocError>
    ensures { IfOk result (λ text. text.items ≡ commands_text about paths) }
{
    let mut text = version_text(alloc, about)?;
    put_commands(&mut text, about, paths)?;
    Ok(text)
}

// What is said to VERSION.
fn version_text(alloc: Global, about: Option<About>) -> Result<Vec<u8>, AllocError>
    ensures { IfOk result (λ text. text.items ≡ version_text about) }
{
    let mut text = Vec::new(alloc);
    put_version(&mut text, about)?;
    Ok(text)
}

// What is said to STATS, where something is known.
fn stats_told(alloc: Global, about: Option<About>) -> Result<Option<Vec<u8>>, AllocError>
    ensures { IfOk result (λ o. IsText o (stats_told about)) }
{
    let Some(about) = about else {
        return Ok(None);
    };
    let mut text = Vec::new(alloc);
    put_stats(&mut text, about)?;
    Ok(Some(text))
}

// What is said to a word that is answered by a line, where it is one.
#[tactic(auto, unfolding(crate::specs::Text::answered))]
pub fn answered(
    alloc: Global,
    about: Option<About>,
    paths: Paths,
    word: &[u8],
) -> Result<Option<Vec<u8>>, AllocError>
    ensures { IfOk result (λ o. IsText o (answered about paths word.now)) }
{
    if word == b"PING".as_slice() {
        return Ok(Some(b"PONG".to_vec(alloc)?));
    }
    if word == b"VERSION".as_slice() {
        return Ok(Some(version_text(alloc, about)?));
    }
    if word == b"VERSIONCOMMANDS".as_slice() {
        return Ok(Some(commands_text(alloc, about, paths)?));
    }
    if word == b"STATS".as_slice() {
        return stats_told(alloc, about);
    }
    refused_path(alloc, path_of(word))
}

// What is said to a path: no file is opened for anybody.
fn refused_path(alloc: Global, path: Option<&[u8]>) -> Result<Option<Vec<u8>>, AllocError>
    ensures { IfOk result (λ o. IsText o (refused_path (option_copied path.entry))) }
{
    let Some(path) = path else {
        return Ok(None);
    };
    let mut text = path.to_vec(alloc)?;
    text.extend_from_slice(b": no path is read here, send the content (INSTREAM). ERROR")?;
    Ok(Some(text))
}

// The line of a text: the command's number in a session, the text, and the command's end.
pub fn line_of(alloc: Global, number: u64, text: &[u8], end: u8) -> Result<Vec<u8>, AllocError>
    ensures { IfOk result (λ line. line.items ≡ line_of number text.now end) }
{
    let mut line = numbered(alloc, number)?;
    line.extend_from_slice(text)?;
    line.push(end)?;
    Ok(line)
}

// What stands in front of a line.
pub fn numbered(alloc: Global, number: u64) -> Result<Vec<u8>, AllocError>
    ensures { IfOk result (λ line. line.items ≡ numbered number) }
{
    let mut line = Vec::new(alloc);
    if number != 0 {
        put_number(&mut line, number)?;
        line.extend_from_slice(b": ")?;
    }
    Ok(line)
}

// Appends a number's decimal digits.
pub fn put_number(out: &mut Vec<u8>, number: u64) -> Result<(), AllocError>
    ensures ok { OnOk result (out.new.items ≡ out.old.items ++ decimal number) }
    ensures err { OnErr result (out.new.items ≡ out.old.items) }
{
    let mut buffer = Buffer::new();
    out.extend_from_slice(buffer.format(number).as_bytes())
}
