ghost use Rattle.std.specs.Prelude.{◌≡◌, ◌≢◌};
ghost use Rattle.std.specs.Io.KnownBytes.{Appends};
ghost use Rattle.av_base.specs.Device.{AppendsPrefix};
ghost use Rattle.av_status.specs.Status.{IsDoneOrFault};
ghost use Rattle.av_generate.specs.Generated.{generated};
ghost use Rattle.av_status.specs.declared.status.Status.TheVariants.{Done};
ghost use Rattle.avtool.specs.Generate.{profile_of};

use av_generate::{GenerateFault, Profile, write_script};
use av_status::faults::{device_failed, out_of_memory};
use av_status::status::Status;
use avtool_words::Generate;
use std::alloc::Global;
use std::io::Write;

/// Prints a random script of so many commands, drawn from this seed.
pub fn generate<W: Write, E: Write>(
    alloc: Global,
    asked: Generate,
    out: &mut W,
    err: &mut E,
) -> Status
    ensures done { result ≡ Done → Appends (W.contents out.old) (W.contents out.new) (generated asked.seed asked.commands (profile_of asked.is_uniform)) }
    ensures failed { result ≢ Done → AppendsPrefix (W.contents out.old) (W.contents out.new) (generated asked.seed asked.commands (profile_of asked.is_uniform)) }
    ensures ended { IsDoneOrFault result }
{
    let profile = if asked.is_uniform {
        Profile::Uniform
    } else {
        Profile::Deep
    };
    match write_script(alloc, asked.seed, asked.commands, profile, out) {
        Ok(()) => Status::Done,
        Err(GenerateFault::NoMemory) => out_of_memory(err),
        Err(GenerateFault::Write) => device_failed(err),
    }
}
