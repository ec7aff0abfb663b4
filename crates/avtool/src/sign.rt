ghost use Rattle.std.specs.Prelude.{◌≡◌, ◌≢◌, List, ℕ, IfErr, IfOk};
ghost use Rattle.std.specs.Io.KnownBytes.{Appends};
ghost use Rattle.av_base.specs.Device.{AppendsPrefix};
ghost use Rattle.av_status.specs.Status.{IsDoneOrFault, IsFault};
ghost use Rattle.av_status.specs.declared.status.Status.TheVariants.{Device, Done};
ghost use Rattle.avtool.specs.Placing.{GoesOut};
ghost use Rattle.avtool.specs.Sign.{IsSignedSet, IsSignedText, LeavesSigned};

use crate::placing::put_content;
use crate::set::{set_in, text_named};
use av_base::device::write_text;
use av_files::FILE_BUFFER;
use av_program::{key_asked, key_named};
use av_status::faults::{device_failed, out_of_memory};
use av_status::status::Status;
use av_trust::{Key, Trust, sign};
use avtool_words::Sign;
use std::alloc::Global;
use std::io::Write;

/// Writes a signature file that is signed, to standard output or into a file. Where it is no signature file with signatures, or where a
/// key can't be had, nothing is written.
pub fn sign_named<W: Write, E: Write>(
    rt: &HostRuntime,
    alloc: Global,
    asked: Sign<'_>,
    out: &mut W,
    err: &mut E,
) -> Status
    ensures done { result ≡ Done → (file : List ℕ) × IsSignedSet asked.entry file × GoesOut asked.entry.output (W.contents out.old) (W.contents out.new) file }
    ensures failed { result ≢ Done → LeavesSigned asked.entry result (W.contents out.old) (W.contents out.new) }
    ensures ended { IsDoneOrFault result }
{
    let file = match signed_as(rt, alloc, asked, err) {
        Ok(file) => file,
        Err(status) => return status,
    };
    match asked.output {
        Some(path) => put_content(rt, alloc, path, file.as_slice(), err),
        None => print(file.as_slice(), out, err),
    }
}

// The signature file that is asked for, signed.
fn signed_as<E: Write>(
    rt: &HostRuntime,
    alloc: Global,
    asked: Sign<'_>,
    err: &mut E,
) -> Result<Vec<u8>, Status>
    ensures signed { IfOk result (λ file. IsSignedSet asked.entry file.items) }
    ensures fault { IfErr result (λ status. IsFault status) }
{
    let key = key_named(rt, alloc, asked.key, err)?;
    let old = key_asked(rt, alloc, asked.trust, err)?;
    let Ok(mut buffer) = vec![in alloc; 0u8; FILE_BUFFER] else {
        return Err(out_of_memory(err));
    };
    let trust = Trust::by(old.as_ref());
    let text = text_named(rt, alloc, asked.set, trust, &mut buffer, err)?;
    signed_set(alloc, &key, asked.set, text, err)
}

// A text, signed, which has to spell a set with signatures.
fn signed_set<E: Write>(
    alloc: Global,
    key: &Key,
    name: &str,
    text: &[u8],
    err: &mut E,
) -> Result<Vec<u8>, Status>
    ensures signed { IfOk result (λ file. IsSignedText text.now file.items) }
    ensures fault { IfErr result (λ status. IsFault status) }
{
    let _set = set_in(alloc, name, text, err)?;
    match sign(alloc, key, text) {
        Ok(file) => Ok(file),
        Err(_) => Err(out_of_memory(err)),
    }
}

// Writes a signed file to standard output.
fn print<W: Write, E: Write>(file: &[u8], out: &mut W, err: &mut E) -> Status
    ensures done { result ≡ Done → Appends (W.contents out.old) (W.contents out.new) file.now }
    ensures failed { result ≢ Done → (result ≡ Device) × AppendsPrefix (W.contents out.old) (W.contents out.new) file.now }
    ensures ended { IsDoneOrFault result }
{
    if write_text(out, file).is_err() || out.flush().is_err() {
        return device_failed(err);
    }
    Status::Done
}
