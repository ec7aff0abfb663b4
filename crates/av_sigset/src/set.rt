ghost use Rattle.std.specs.Prelude.{◌≡◌, length, slice_get, map, IfOk, OnOk};
ghost use Rattle.std.specs.Option.{option_copied, option_map};
ghost use Rattle.av_base.specs.Answers.{Reads};
ghost use Rattle.av_base.specs.Device.{Writes};
ghost use Rattle.av_sigset.specs.Judge.{set_of};
ghost use Rattle.av_sigset.specs.Made.{ranged, set_made};
ghost use Rattle.std.specs.Result.{result_err};
ghost use Rattle.av_sigset.specs.Set.{IsSet, patterns_of, range_at};
ghost use Rattle.av_sigset.specs.Spelling.{ReadsBack, spelling};

use crate::fault::{SetFault, SetFaultKind, bad_line};
use crate::made::{fault_in, serial_signatures};
use crate::read::{body_of, read_signatures};
use crate::signature::{AsPattern, Pattern, Signature, Span};
use crate::spelling::write_signatures;
use av_base::{ByteList, Refusal, Version, WriteFault};
use std::alloc::{AllocError, Global};
use std::io::Write;
use std::marker::Model;

/// The most signatures of a set.
pub const MAX_SIGNATURES: usize = 1_024;

/// The most bytes of all patterns of a set.
pub const MAX_BYTES: usize = 16_384;

/// Signatures under a version: at most 1,024 patterns of 1 to 64 bytes, 16,384 bytes in all. A version is 1 or more.
#[derive(Debug, Drop)]
pub struct SignatureSet {
    version: Version,
    signatures: Vec<Signature>,
}

impl Model for SignatureSet {
    ghost use Rattle.av_sigset.specs.Set.{NumberedSet, IsSet};

    ghost Value = { NumberedSet };

    ghost view = { λ s. record { version = s.version; signatures = s.signatures.items } };

    ghost invariant = { λ s. IsSet (record { version = s.version; signatures = s.signatures.items }) };
}

impl SignatureSet {
    /// The set of a signature file (docs/FORMATS.md), or its first bad line. Takes memory of about the file's size.
    pub fn read(alloc: Global, bytes: &[u8]) -> Result<SignatureSet, Refusal<SetFault>>
        ensures { Reads result (set_of bytes.now) }
    {
        let body = match body_of(bytes) {
            Ok(body) => body,
            Err(fault) => return Err(Refusal::Fault(fault)),
        };
        let signatures = read_signatures(alloc, body.format, body.lines)?;
        Ok(SignatureSet {
            version: Version::new(body.version),
            signatures,
        })
    }

    /// The set of these patterns, under the names `s0`, `s1` and on, or the fault that `patterns_fault` tells.
    pub fn from_patterns<P: AsPattern>(
        alloc: Global,
        version: Version,
        patterns: &[P],
    ) -> Result<SignatureSet, Refusal<SetFault>>
        ensures { Reads result (set_made version (map P.pattern patterns.now)) }
    {
        if let Some(fault) = SignatureSet::patterns_fault(version, patterns) {
            return Err(Refusal::Fault(fault));
        }
        let signatures = serial_signatures(alloc, patterns)?;
        Ok(SignatureSet {
            version,
            signatures,
        })
    }

    /// The set of these bytes, each with the first and the last place at which a match may begin, under the names `s0`,
    /// `s1` and on, or the fault that `patterns_fault` tells.
    pub fn from_ranged(
        alloc: Global,
        version: Version,
        patterns: &[(&[u8], u64, u64)],
    ) -> Result<SignatureSet, Refusal<SetFault>>
        ensures { Reads result (set_made version (map (λ p. ranged p.0.now p.1 p.2) patterns.now)) }
    {
        SignatureSet::from_patterns(alloc, version, patterns)
    }

    /// Why these patterns are no set, where they are none: a version of 0, or the first pattern that is empty or too
    /// long, whose places are out of order or range, or that is too much. A fault names the line that the pattern would
    /// have in a file: line 2 is the version's, and pattern i stands on line i + 3. It takes no memory.
    pub fn patterns_fault<P: AsPattern>(version: Version, patterns: &[P]) -> Option<SetFault>
        ensures { result ≡ result_err (set_made version (map P.pattern patterns.now)) }
    {
        if version.get() == 0 {
            return Some(bad_line(2, SetFaultKind::Version));
        }
        fault_in(patterns)
    }

    /// Writes its signature file. Read back it is this set, where its signatures may stand in a file, as those do that were read
    /// from one. It takes no memory. Where a write fails, a front of the file was written.
    pub fn write<W: Write>(&self, writer: &mut W) -> Result<(), WriteFault>
        ensures writes { Writes result (W.contents writer.old) (W.contents writer.new) (spelling self.now) }
        ensures reads_back { OnOk result (ReadsBack self.now) }
        ensures set { IsSet self.now }
    {
        write_signatures(self.version, self.signatures.as_slice(), writer)
    }

    /// A copy of it.
    pub fn copied(&self, alloc: Global) -> Result<SignatureSet, AllocError>
        ensures { IfOk result (λ set. set ≡ self.now) }
    {
        Ok(SignatureSet {
            version: self.version,
            signatures: copies_of(alloc, self.signatures.as_slice())?,
        })
    }

    /// Its version, 1 or more.
    pub fn version(&self) -> Version
        ensures version { result ≡ self.now.version }
        ensures set { IsSet self.now }
    {
        self.version
    }

    /// How many signatures it has.
    pub fn len(&self) -> usize
        ensures len { result ≡ length self.now.signatures }
        ensures set { IsSet self.now }
    {
        self.signatures.len()
    }

    /// Its signatures, in the order of the file.
    pub fn signatures(&self) -> &[Signature]
        ensures signatures { result.now ≡ self.now.signatures }
        ensures set { IsSet self.now }
    {
        self.signatures.as_slice()
    }

    /// What signature `index` looks for, counted from 0.
    pub fn pattern(&self, index: usize) -> Option<&Pattern>
        ensures { option_copied result ≡ slice_get (patterns_of self.now.signatures) index }
    {
        match self.signatures.as_slice().get(index) {
            Some(signature) => Some(&signature.pattern),
            None => None,
        }
    }

    /// The first and the last place at which a match of signature `index` may begin; of one that isn't there the widest.
    pub fn range(&self, index: usize) -> (u64, u64)
        ensures { result ≡ range_at self.now.signatures index }
    {
        let span = match self.signatures.as_slice().get(index) {
            Some(signature) => signature.pattern.span,
            None => Span::WIDEST,
        };
        (span.low, span.high)
    }

    /// The name of signature `index`.
    pub fn name(&self, index: usize) -> Option<&[u8]>
        ensures { option_copied result ≡ option_map (λ s. s.name) (slice_get self.now.signatures index) }
    {
        match self.signatures.as_slice().get(index) {
            Some(signature) => Some(signature.name.as_slice()),
            None => None,
        }
    }
}

// A copy of each.
fn copies_of(alloc: Global, signatures: &[Signature]) -> Result<Vec<Signature>, AllocError>
    ensures { IfOk result (λ copies. copies.items ≡ signatures.now) }
{
    let mut copies = Vec::with_capacity(alloc, signatures.len())?;
    for signature in signatures {
        copies.push(copy_of(alloc, signature)?)?;
    }
    Ok(copies)
}

fn copy_of(alloc: Global, signature: &Signature) -> Result<Signature, AllocError>
    ensures { IfOk result (λ copy. copy ≡ signature.now) }
{
    Ok(Signature {
        name: ByteList::copied(alloc, signature.name.as_slice())?,
        pattern: Pattern {
            bytes: ByteList::copied(alloc, signature.pattern.bytes.as_slice())?,
            span: signature.pattern.span,
        },
    })
}
