ghost use Rattle.std.specs.Prelude.{◌≡◌, ◌++◌, ◌≤◌, ◌<◌, ◌==◌, [], length, IfOk, IfErr, IfNone, OnOk, OnErr, Ok, Err, Option, List, ℕ};
ghost use Rattle.hex.specs.Hex.{decode_of};
ghost use Rattle.std.specs.Result.{result_err};
ghost use Rattle.av_base.specs.Device.{Writes};
ghost use Rattle.av_base.specs.Line.{lines_of};
ghost use Rattle.av_sigset.specs.Judge.{set_of};
ghost use Rattle.av_sigset.specs.Set.{byte_count, patterns_of};
ghost use Rattle.av_sigset.specs.Spelling.{is_widest, spelling};
ghost use Rattle.av_sigset.specs.declared.signature.Signature.{Signature};
ghost use Rattle.av_import.specs.Clamav.{without_returns};
ghost use Rattle.av_import.specs.Import.{AreAdmitted, AreFit, HasRoom, TakesFile, TakesRule, admitted, after_line, after_lines, given_of, is_silent, limit_of, offered, with_all, with_named};
ghost use Rattle.av_import.specs.Kind.{kind_of};

use crate::clamav::{Words, without_returns, words_of};
use crate::kind::{Form, Kind, kind_of};
use crate::lexer::{Lexer, Token};
use crate::name::free_name;
use crate::strings::RuleFault;
use crate::told::tell_left;
use crate::why::Why;
use crate::yara::{Head, given_of, next_rule};
use av_base::line::first_line;
use av_base::{ByteList, Version};
use av_sigset::set::{MAX_BYTES, MAX_SIGNATURES};
use av_sigset::signature::{MAX_PATTERN, MAX_PLACE};
use av_sigset::{Pattern, Signature, Span, write_signatures};
use std::alloc::{AllocError, Global};
use std::io::{BufWriter, Write};
use std::marker::Model;
use thiserror::Error;

/// What is taken, and how it is written.
#[derive(Clone, Copy, Debug, PartialEq, Eq)]
pub struct Rules {
    /// A signature that is meant for files of one target is taken for all files.
    pub takes_any_target: bool,
    /// A signature that is bound to places is taken. The file is then of format 2.
    pub has_ranges: bool,
}

/// Why an import failed.
#[derive(Clone, Copy, Debug, PartialEq, Eq, Error)]
pub enum ImportFault {
    /// Memory was refused. What was taken before stays.
    #[error("no memory")]
    NoMemory,
    /// A write failed, or took no byte. A front of the file was written.
    #[error("device")]
    Write,
}

impl From<AllocError> for ImportFault {
    ghost use Rattle.std.specs.Prelude.{◌≡◌};
    ghost use Rattle.av_import.specs.declared.import.ImportFault.TheVariants.{NoMemory};

    ghost from_gives = { λ _ e. e ≡ NoMemory };

    fn from(_e: AllocError) -> ImportFault {
        ImportFault::NoMemory
    }
}

/// The signatures that were taken so far of files of other products, 1,024 at most with 16,384 bytes in all, and how many lines
/// and rules were left out.
#[derive(Drop)]
pub struct Import {
    alloc: Global,
    rules: Rules,
    signatures: Vec<Signature>,
    bytes: usize,
    left: u64,
}

impl Model for Import {
    ghost use Rattle.std.specs.Prelude.{◌≡◌};
    ghost use Rattle.av_sigset.specs.File.{MayStand};
    ghost use Rattle.av_sigset.specs.Set.{byte_count, patterns_of};
    ghost use Rattle.av_import.specs.Import.{Taken};

    ghost Value = { Taken };

    ghost view = { λ i. record { rules = i.rules; signatures = i.signatures.items; left = i.left } };

    ghost invariant = { λ i. MayStand i.signatures.items × (i.bytes ≡ byte_count (patterns_of i.signatures.items)) };
}

impl Import {
    /// Nothing yet.
    pub fn new(alloc: Global, rules: Rules) -> Import
        ensures { result ≡ record { rules = rules; signatures = []; left = 0 } }
    {
        Import {
            alloc,
            rules,
            signatures: Vec::new(alloc),
            bytes: 0,
            left: 0,
        }
    }

    /// How many signatures were taken.
    pub fn taken(&self) -> usize
        ensures { result ≡ length self.now.signatures }
    {
        self.signatures.len()
    }

    /// How many lines and rules were left out, at most 2^64 - 1.
    pub fn left(&self) -> u64
        ensures { result ≡ self.now.left }
    {
        self.left
    }

    /// Writes the signature file of what was taken, under a version from 1 on: of format 2 where some signature is bound to places,
    /// and else of format 1. What was written is read back as exactly these signatures.
    pub fn write<W: Write>(&self, version: u64, writer: &mut W) -> Result<(), ImportFault>
        ensures writes { Writes result (W.contents writer.old) (W.contents writer.new)
            (spelling (record { version = version; signatures = self.now.signatures })) }
        ensures fault { IfErr result (λ f. f ≡ ImportFault.Write) }
        ensures reads_back { OnOk result (1 ≤ version
            → set_of (spelling (record { version = version; signatures = self.now.signatures }))
            ≡ Ok (record { version = version; signatures = self.now.signatures })) }
    {
        match write_signatures(Version::new(version), self.signatures.as_slice(), writer) {
            Ok(()) => Ok(()),
            Err(_) => Err(ImportFault::Write),
        }
    }

    // Why so many signatures more with so many bytes in all can't be taken, if they can't.
    fn limit(&self, are_widest: bool, count: usize, bytes: usize) -> Option<Why>
        ensures why { result ≡ limit_of self.now.rules self.now.signatures are_widest count bytes }
        ensures room { IfNone result (HasRoom self.now.signatures count bytes) }
    {
        if !are_widest && !self.rules.has_ranges {
            return Some(Why::Ranged);
        }
        if count > MAX_SIGNATURES - self.signatures.len() {
            return Some(Why::ManySignatures);
        }
        if bytes > MAX_BYTES - self.bytes {
            return Some(Why::ManyBytes);
        }
        None
    }

    // What a line gives, where it can be taken.
    fn judged<'a>(&self, form: Form, line: &'a [u8]) -> Result<Words<'a>, Why>
        ensures words { IfOk result (λ w. AreAdmitted self.now.signatures w.name.now w.digits.now w.span
            (admitted self.now.rules self.now.signatures (given_of form self.now.rules line.now))) }
        ensures fault { IfErr result (λ why. admitted self.now.rules self.now.signatures (given_of form self.now.rules line.now) ≡ Err why) }
    {
        let words = match words_of(form, self.rules.takes_any_target, line) {
            Ok(words) => words,
            Err(why) => return Err(why),
        };
        match self.limit(begins_anywhere(words.span), 1, words.digits.len() / 2) {
            Some(why) => Err(why),
            None => Ok(words),
        }
    }

    // Takes a line, or leaves it out and says why.
    fn take_line(&mut self, form: Form, line: &[u8]) -> Result<Option<Why>, AllocError>
        ensures ok { OnOk result (self.new ≡ offered self.old (given_of form self.old.rules line.now)) }
        ensures why { IfOk result (λ why. why ≡ result_err (admitted self.old.rules self.old.signatures (given_of form self.old.rules line.now))) }
        ensures err { OnErr result (self.new ≡ self.old) }
    {
        match self.judged(form, line) {
            Ok(words) => {
                add_words(self.alloc, &mut self.signatures, words)?;
                self.bytes += words.digits.len() / 2;
                Ok(None)
            }
            Err(why) => {
                self.leave(why);
                Ok(Some(why))
            }
        }
    }

    // Takes all signatures of a rule, or leaves the rule out and says why.
    fn take_given(&mut self, given: &[Signature]) -> Result<Option<Why>, AllocError>
        ensures ok { OnOk result (TakesRule self.old self.new) }
    {
        match self.fitting(given) {
            Ok(bytes) => {
                let count = self.signatures.as_slice().len();
                if push_all(self.alloc, &mut self.signatures, given).is_err() {
                    self.signatures.truncate(count);
                    return Err(AllocError);
                }
                self.bytes += bytes;
                Ok(None)
            }
            Err(why) => {
                self.leave(why);
                Ok(Some(why))
            }
        }
    }

    // How many bytes the signatures of a rule have, where all of them can be taken.
    fn fitting(&self, given: &[Signature]) -> Result<usize, Why>
        ensures fit { IfOk result (λ bytes. AreFit given.now × (bytes ≡ byte_count (patterns_of given.now))) }
        ensures room { IfOk result (λ bytes. HasRoom self.now.signatures (length given.now) bytes) }
    {
        if let Some(why) = self.limit(are_widest(given), given.len(), 0) {
            return Err(why);
        }
        let bytes = bytes_in(given)?;
        match self.limit(true, given.len(), bytes) {
            Some(why) => Err(why),
            None => Ok(bytes),
        }
    }

    // Where memory comes from.
    fn alloc(&self) -> Global {
        self.alloc
    }

    // Counts a line that is left out.
    fn leave(&mut self, why: Why)
        ensures left { self.new ≡ offered self.old (Err why) }
        ensures rule { TakesRule self.old self.new }
        ensures rules { TakesFile Kind.Yara [] self.old self.new }
    {
        let _ = why;
        self.left = self.left.saturating_add(1);
    }

    /// Takes what a file says, as far as it can be said exactly. Its path tells what it is: `.ndb` and `.ndu`, `.db`, `.yar` and
    /// `.yara`. Each line or rule that is left out is told to `err` with its number, its name and the reason, as far as that can be
    /// written; all of it was written when this ends, whichever way. Takes time of about the file's size.
    pub fn take<E: Write>(
        &mut self,
        path: &str,
        content: &[u8],
        err: &mut E,
    ) -> Result<(), ImportFault>
        ensures taken { OnOk result (TakesFile (kind_of path.now) content.now self.old self.new) }
        ensures fault { IfErr result (λ f. f ≡ ImportFault.NoMemory) }
    {
        let Ok(mut told) = BufWriter::new(self.alloc(), err) else {
            return Err(ImportFault::NoMemory);
        };
        let taken = self.take_kind(path, content, &mut told);
        let _ = told.flush();
        taken?;
        Ok(())
    }

    // Takes what a file of some kind says.
    fn take_kind<E: Write>(
        &mut self,
        path: &str,
        content: &[u8],
        err: &mut E,
    ) -> Result<(), AllocError>
        ensures { OnOk result (TakesFile (kind_of path.now) content.now self.old self.new) }
    {
        match kind_of(path.as_bytes()) {
            Kind::Lines(form) => take_lines(self, form, path, content, err)?,
            Kind::Yara => take_rules(self, path, content, err)?,
            Kind::Hashes => {
                self.leave(Why::Hashes);
                tell_left(err, path, 1, b"".as_slice(), Why::Hashes);
            }
            Kind::Unknown => {
                self.leave(Why::UnknownKind);
                tell_left(err, path, 1, b"".as_slice(), Why::UnknownKind);
            }
        }
        Ok(())
    }
}

// Takes the lines of a file.
fn take_lines<E: Write>(
    import: &mut Import,
    form: Form,
    path: &str,
    content: &[u8],
    err: &mut E,
) -> Result<(), AllocError>
    ensures { OnOk result (import.new ≡ after_lines form import.old (lines_of content.now)) }
{
    let mut rest = content;
    let mut number = 1u64;
    'lines: while !rest.is_empty() {
        let (first, below) = first_line(rest);
        pass_line(import, form, path, number, first, err)?;
        rest = below;
        number += 1;
    }
    Ok(())
}

// Takes the rules of a file, in which no rule is taken where one is global.
fn take_rules<E: Write>(
    import: &mut Import,
    path: &str,
    content: &[u8],
    err: &mut E,
) -> Result<(), AllocError>
    ensures { OnOk result (TakesFile Kind.Yara content.now import.old import.new) }
{
    let alloc = import.alloc();
    let has_global = match has_global(alloc, content) {
        Ok(has_global) => has_global,
        Err(RuleFault::NoMemory) => return Err(AllocError),
        Err(RuleFault::Why(why)) => {
            import.leave(why);
            tell_left(err, path, 1, b"".as_slice(), why);
            return Ok(());
        }
    };
    let mut lexer = Lexer::new(content);
    let mut body = Vec::new(alloc);
    'rules: for _ in 0..content.len() + 1 {
        let Ok(head) = next_rule(&mut lexer, content.len() + 1, &mut body) else {
            return Err(AllocError);
        };
        let Some(head) = head else {
            return Ok(());
        };
        pass_rule(import, path, has_global, head, body.as_slice(), err)?;
    }
    Ok(())
}

// Takes a rule, or tells why it is left out.
fn pass_rule<E: Write>(
    import: &mut Import,
    path: &str,
    has_global: bool,
    head: Head<'_>,
    body: &[Token<'_>],
    err: &mut E,
) -> Result<(), AllocError>
    ensures { OnOk result (TakesRule import.old import.new) }
{
    if let Some(why) = take_rule(import, has_global, head, body)? {
        tell_left(err, path, head.line, head.name, why);
    }
    Ok(())
}

// Takes a rule, or leaves it out and says why.
fn take_rule(
    import: &mut Import,
    has_global: bool,
    head: Head<'_>,
    body: &[Token<'_>],
) -> Result<Option<Why>, AllocError>
    ensures { OnOk result (TakesRule import.old import.new) }
{
    match judged_rule(import.alloc(), has_global, head, body) {
        Ok(given) => import.take_given(given.as_slice()),
        Err(RuleFault::NoMemory) => Err(AllocError),
        Err(RuleFault::Why(why)) => {
            import.leave(why);
            Ok(Some(why))
        }
    }
}

// What a rule gives, at least one signature. Of a rule without strings a condition like `any of them` would want none.
fn judged_rule(
    alloc: Global,
    has_global: bool,
    head: Head<'_>,
    body: &[Token<'_>],
) -> Result<Vec<Signature>, RuleFault>
    ensures some { IfOk result (λ given. 0 < length given.items) }
{
    if head.is_private {
        return Err(RuleFault::Why(Why::Private));
    }
    if has_global {
        return Err(RuleFault::Why(Why::Global));
    }
    let given = given_of(alloc, head.name, body)?;
    if given.is_empty() {
        return Err(RuleFault::Why(Why::NoString));
    }
    Ok(given)
}

// Whether a rule of a file is global.
fn has_global(alloc: Global, content: &[u8]) -> Result<bool, RuleFault> {
    let mut lexer = Lexer::new(content);
    let mut body = Vec::new(alloc);
    let mut has_global = false;
    'rules: for _ in 0..content.len() + 1 {
        match next_rule(&mut lexer, content.len() + 1, &mut body)? {
            Some(head) => has_global = has_global || head.is_global,
            None => break,
        }
    }
    Ok(has_global)
}

// Whether a match of each may begin at every place.
fn are_widest(given: &[Signature]) -> bool {
    for signature in given {
        if !begins_anywhere(signature.pattern.span) {
            return false;
        }
    }
    true
}

// The bytes of signatures, where each may stand in a set and all of them fit into one.
fn bytes_in(given: &[Signature]) -> Result<usize, Why>
    ensures { IfOk result (λ bytes. AreFit given.now × (bytes ≡ byte_count (patterns_of given.now))) }
{
    let mut bytes = 0usize;
    for signature in given {
        let length = signature.pattern.bytes.len();
        let span = signature.pattern.span;
        if length == 0 || length > MAX_PATTERN || span.low > span.high || span.high > MAX_PLACE {
            return Err(Why::TooLong);
        }
        bytes += length;
        if bytes > MAX_BYTES {
            return Err(Why::ManyBytes);
        }
    }
    Ok(bytes)
}

// Puts signatures behind others, each under the first free name.
fn push_all(
    alloc: Global,
    signatures: &mut Vec<Signature>,
    given: &[Signature],
) -> Result<(), AllocError>
    ensures ok { OnOk result (signatures.new.items ≡ with_all signatures.old.items given.now) }
    ensures grows { (more : List Signature) × (signatures.new.items ≡ signatures.old.items ++ more) }
{
    for signature in given {
        if push_one(alloc, signatures, signature).is_err() {
            return Err(AllocError);
        }
    }
    Ok(())
}

// Puts a signature behind others, under the first free name.
fn push_one(
    alloc: Global,
    signatures: &mut Vec<Signature>,
    signature: &Signature,
) -> Result<(), AllocError>
    ensures ok { OnOk result (signatures.new.items ≡ with_named signatures.old.items signature.now) }
    ensures err { OnErr result (signatures.new.items ≡ signatures.old.items) }
{
    let bytes = signature.pattern.bytes.as_slice().to_vec(alloc)?;
    let span = signature.pattern.span;
    push_named(alloc, signatures, signature.name.as_slice(), bytes, span)
}

// Takes a line, or tells why it is left out; one that says nothing is passed over.
fn pass_line<E: Write>(
    import: &mut Import,
    form: Form,
    path: &str,
    number: u64,
    first: &[u8],
    err: &mut E,
) -> Result<(), AllocError>
    ensures { OnOk result (import.new ≡ after_line form import.old first.now) }
{
    let line = without_returns(first);
    if is_silent(line) {
        return Ok(());
    }
    if let Some(why) = import.take_line(form, line)? {
        tell_left(err, path, number, name_of(line), why);
    }
    Ok(())
}

// Whether a match may begin at every place.
fn begins_anywhere(span: Span) -> bool
    ensures { result ≡ is_widest span }
{
    span.low == 0 && span.high == MAX_PLACE
}

fn is_silent(line: &[u8]) -> bool
    ensures { result ≡ is_silent line.now }
{
    match line {
        [] => true,
        [first, ..] => *first == b'#',
    }
}

// What a line is told by: what stands before its first `:` or `=`.
fn name_of(line: &[u8]) -> &[u8] {
    for (place, byte) in line.iter().enumerate() {
        if *byte == b':' || *byte == b'=' {
            return &line[..place];
        }
    }
    line
}

// Puts the signature of these words behind others.
fn add_words(
    alloc: Global,
    signatures: &mut Vec<Signature>,
    words: Words<'_>,
) -> Result<(), AllocError>
    ensures ok { OnOk result ((bytes : List ℕ) → decode_of words.entry.digits.now ≡ Ok bytes → signatures.new.items
        ≡ with_named signatures.old.items (record { name = words.entry.name.now; pattern = record { bytes = bytes; span = words.entry.span } })) }
    ensures err { OnErr result (signatures.new.items ≡ signatures.old.items) }
{
    let Ok(bytes) = hex::decode(alloc, words.digits) else {
        return Err(AllocError);
    };
    push_named(alloc, signatures, words.name, bytes, words.span)
}

// Puts a signature behind others, under the first free name.
fn push_named(
    alloc: Global,
    signatures: &mut Vec<Signature>,
    name: &[u8],
    bytes: Vec<u8>,
    span: Span,
) -> Result<(), AllocError>
    ensures ok { OnOk result (signatures.new.items
        ≡ with_named signatures.old.items (record { name = name.now; pattern = record { bytes = bytes.items; span = span } })) }
    ensures err { OnErr result (signatures.new.items ≡ signatures.old.items) }
{
    let name = free_name(alloc, signatures.as_slice(), name)?;
    signatures.push(Signature {
        name: ByteList::from_vec(name),
        pattern: Pattern {
            bytes: ByteList::from_vec(bytes),
            span,
        },
    })?;
    Ok(())
}
