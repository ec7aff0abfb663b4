ghost use Rattle.std.specs.Prelude.{map};
ghost use Rattle.av_base.specs.declared.verdict.Verdict.TheVariants.{Infected};
ghost use Rattle.av_json.specs.File.{file_tokens, named_object, opened_tokens};
ghost use Rattle.av_json.specs.Member.{Puts, member_tokens};

use crate::cause::why;
use crate::member::{Member, put_members, put_named};
use av_base::{Verdict, Version};
use av_pend::Answer;
use json::Writer;
use std::alloc::{AllocError, Global};

// What was found in a file: the signature that ends first, its name, and where it ends.
struct Infection<'a> {
    index: u32,
    name: &'a [u8],
    end_at: u64,
}

/// Puts the object of a file that was scanned under the set of a version, where `name` is the name of the signature that ends
/// first, if one does.
pub fn put_scanned(
    alloc: Global,
    line: &mut Writer,
    file: &[u8],
    version: Version,
    verdict: Verdict,
    name: &[u8],
) -> Result<(), AllocError>
    ensures { Puts result line.old line.new (file_tokens file.now version verdict name.now) }
{
    match verdict {
        Verdict::Clean => put_file(
            alloc,
            line,
            file,
            &[
                Member::Text("verdict", "clean"),
                Member::Number("version", version.get()),
            ],
        ),
        Verdict::Infected { index, end_at } => {
            let infection = Infection {
                index,
                name,
                end_at,
            };
            put_infected(alloc, line, file, version, infection)
        }
    }
}

#[tactic(auto, unfolding(crate::specs::Member::object_tokens))]
fn put_infected(
    alloc: Global,
    line: &mut Writer,
    file: &[u8],
    version: Version,
    infection: Infection<'_>,
) -> Result<(), AllocError>
    ensures { Puts result line.old line.new
        (file_tokens file.now version (Infected infection.entry.index infection.entry.end_at) infection.entry.name.now) }
{
    let Infection {
        index,
        name,
        end_at,
    } = infection;
    line.begin_object()?;
    put_named(alloc, line, "file", "file_hex", file)?;
    put_members(
        line,
        &[
            Member::Text("verdict", "infected"),
            Member::Number("version", version.get()),
            Member::Number("index", u64::from(index)),
        ],
    )?;
    put_named(alloc, line, "name", "name_hex", name)?;
    put_members(line, &[Member::Number("end", end_at)])?;
    line.end_object()
}

/// Puts the object of a file that was opened, by what its open was told.
pub fn put_opened(
    alloc: Global,
    line: &mut Writer,
    file: &[u8],
    answer: Answer,
) -> Result<(), AllocError>
    ensures { Puts result line.old line.new (opened_tokens file.now answer) }
{
    match answer {
        Answer::Granted {
            generation,
            version,
            ..
        } => put_file(
            alloc,
            line,
            file,
            &[
                Member::Text("answer", "granted"),
                Member::Number("generation", generation.get()),
                Member::Number("version", version.get()),
            ],
        ),
        Answer::Unscanned {
            generation,
            cause,
            ..
        } => put_file(
            alloc,
            line,
            file,
            &[
                Member::Text("answer", "unscanned"),
                Member::Number("generation", generation.get()),
                Member::Number("cause", u64::from(cause.number())),
                Member::Text("why", why(cause)),
            ],
        ),
        Answer::Denied { cause, .. } => put_file(
            alloc,
            line,
            file,
            &[
                Member::Text("answer", "denied"),
                Member::Number("cause", u64::from(cause.number())),
                Member::Text("why", why(cause)),
            ],
        ),
    }
}

// Puts an object of a file's name and these members.
#[tactic(auto, unfolding(crate::specs::Member::object_tokens))]
fn put_file(
    alloc: Global,
    line: &mut Writer,
    file: &[u8],
    members: &[Member<'_>],
) -> Result<(), AllocError>
    ensures { Puts result line.old line.new (named_object file.now (map member_tokens members.now)) }
{
    line.begin_object()?;
    put_named(alloc, line, "file", "file_hex", file)?;
    put_members(line, members)?;
    line.end_object()
}
