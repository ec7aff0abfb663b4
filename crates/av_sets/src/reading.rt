ghost use Rattle.std.specs.Prelude.{◌≡◌, ◌≤◌, length, IfErr, IfOk};
ghost use Rattle.std.specs.Option.{option_copied};
ghost use Rattle.av_sets.specs.Sets.{IsTextOf, SpellsBy};
ghost use Rattle.av_status.specs.Status.{IsFault};
ghost use Rattle.av_status.specs.declared.status.Status.TheVariants.{Refused};

use av_files::{Input, MAX_FILE, read_set};
use av_sigset::SignatureSet;
use av_status::faults::{say_of, text, too_large};
use av_status::status::Status;
use av_trust::{Trust, TrustFault, text_of};
use std::alloc::Global;
use std::io::Write;

/// The set that a signature file spells, or its text where it is signed. Where there is none, one line to `err` says why.
pub fn read_trusted<E: Write>(
    alloc: Global,
    trust: Trust<'_>,
    file: Input<'_>,
    err: &mut E,
) -> Result<SignatureSet, Status>
    ensures set { IfOk result (SpellsBy trust.entry (option_copied file.entry.content)) }
    ensures status { IfErr result (λ status. IsFault status) }
{
    let text = trusted_text(trust, file, err)?;
    let file = Input {
        name: file.name,
        content: Some(text),
    };
    read_set(alloc, file, err)
}

/// The text of a signature file that is taken: the whole file, or what was signed. Where there is none, one line to `err` says why: it
/// could not be read, is too large, or is not trusted, in this order.
pub fn trusted_text<'a, E: Write>(
    trust: Trust<'_>,
    file: Input<'a>,
    err: &mut E,
) -> Result<&'a [u8], Status>
    ensures text { IfOk result (λ text. IsTextOf trust.entry (option_copied file.entry.content) text.now) }
    ensures status { IfErr result (λ status. IsFault status) }
{
    let content = file.readable(err)?;
    if content.len() > MAX_FILE {
        return Err(too_large(err, file.name));
    }
    match text_of(trust, content) {
        Ok(text) => Ok(text),
        Err(fault) => Err(untrusted(err, file.name, fault)),
    }
}

// Says why a signature file is not taken.
fn untrusted<E: Write>(err: &mut E, file: &str, fault: TrustFault) -> Status
    ensures { result ≡ Refused }
{
    let why = match fault {
        TrustFault::NoKey => ": is signed (--trust KEY verifies it)",
        TrustFault::NotSigned => ": is not signed (--trust takes signed files alone)",
        TrustFault::BadLine => ": not the first line of a signed file",
        TrustFault::OtherKey => ": not signed with this key, or changed since",
    };
    say_of(err, file, &[text(why)]);
    Status::Refused
}
