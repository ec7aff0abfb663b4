ghost use Rattle.std.specs.Prelude.{◌≡◌, ◌<◌, [], IfOk, OnOk};
ghost use Rattle.std.specs.String.{string_bytes};
ghost use Rattle.av_base.specs.Limits.{greatest_values};
ghost use Rattle.av_generate.specs.Head.{drawn_as, field_drawn, field_word, fields_drawn, head_drawn, headed, headed_as, limit_words, mode_drawn, mode_word, volume_words};

use crate::draws::Draws;
use av_base::{LimitField, LimitValues, Limits, Mode};
use std::alloc::{AllocError, Global};

/// The head of a script: its limits and its volume line, as text and as what they say.
#[derive(Debug, Drop)]
pub struct Head {
    pub text: String,
    pub limits: Limits,
    pub mode: Mode,
}

// A head as far as it was drawn.
#[derive(Debug, Drop)]
struct Draft {
    text: String,
    values: LimitValues,
}

/// The head of a script.
#[tactic(auto, unfolding(crate::specs::Head::head_drawn))]
pub fn head_drawn(alloc: Global, draws: &mut Draws) -> Result<Head, AllocError>
    ensures { IfOk result (λ h. headed_as h draws.new ≡ head_drawn draws.old) }
{
    let draft = fields_drawn(alloc, draws)?;
    headed(alloc, draft, draws)
}

#[tactic(auto, unfolding(crate::specs::Head::headed))]
fn headed(alloc: Global, draft: Draft, draws: &mut Draws) -> Result<Head, AllocError>
    ensures { IfOk result (λ h. headed_as h draws.new ≡ headed (drawn_as draft draws.old)) }
{
    let Draft { mut text, values } = draft;
    let mode = mode_drawn(draws);
    let line = volume_words(alloc, mode)?;
    text.push_str(line.as_str())?;
    text.push_str("\n")?;
    let limits = match Limits::check(values) {
        Ok(limits) => limits,
        Err(_) => Limits::greatest(),
    };
    Ok(Head { text, limits, mode })
}

fn volume_words(alloc: Global, mode: Mode) -> Result<String, AllocError>
    ensures { IfOk result (λ t. string_bytes t ≡ volume_words mode) }
{
    format!(in alloc; "volume 1 {}", mode_word(mode))
}

fn mode_word(mode: Mode) -> &'static str
    ensures { result.now ≡ mode_word mode }
{
    match mode {
        Mode::FailClosed => "closed",
        Mode::FailOpen => "open",
    }
}

#[tactic(auto, unfolding(crate::specs::Head::mode_drawn))]
fn mode_drawn(draws: &mut Draws) -> Mode
    ensures { (result, draws.new) ≡ mode_drawn draws.old }
{
    if draws.below(4) == 0 {
        Mode::FailOpen
    } else {
        Mode::FailClosed
    }
}

// The fields that may be limited, in turn.
#[tactic(auto, unfolding(crate::specs::Head::fields_drawn))]
fn fields_drawn(alloc: Global, draws: &mut Draws) -> Result<Draft, AllocError>
    ensures { IfOk result (λ d. drawn_as d draws.new
        ≡ fields_drawn (record { text = []; limits = greatest_values; draws = draws.old })) }
{
    let mut draft = Draft {
        text: String::new(alloc),
        values: LimitValues::greatest(),
    };
    field_drawn(alloc, LimitField::Streams, 3, &mut draft, draws)?;
    field_drawn(alloc, LimitField::Length, 8, &mut draft, draws)?;
    field_drawn(alloc, LimitField::Generation, 24, &mut draft, draws)?;
    field_drawn(alloc, LimitField::Questions, 3, &mut draft, draws)?;
    field_drawn(alloc, LimitField::Pended, 4, &mut draft, draws)?;
    field_drawn(alloc, LimitField::Jobs, 2, &mut draft, draws)?;
    field_drawn(alloc, LimitField::Cache, 3, &mut draft, draws)?;
    field_drawn(alloc, LimitField::Chunk, 3, &mut draft, draws)?;
    Ok(draft)
}

// In one of three draws a field is limited.
#[tactic(auto, unfolding(crate::specs::Head::field_drawn))]
fn field_drawn(
    alloc: Global,
    which: LimitField,
    most: u64,
    draft: &mut Draft,
    draws: &mut Draws,
) -> Result<(), AllocError>
    requires { 0 < most }
    ensures { OnOk result (drawn_as draft.new draws.new ≡ field_drawn which most (drawn_as draft.old draws.old)) }
{
    if draws.below(3) != 0 {
        return Ok(());
    }
    let value = 1 + draws.below(most);
    let line = limit_words(alloc, which, value)?;
    draft.text.push_str(line.as_str())?;
    draft.text.push_str("\n")?;
    draft.values = draft.values.with(which, value);
    Ok(())
}

fn limit_words(alloc: Global, which: LimitField, value: u64) -> Result<String, AllocError>
    ensures { IfOk result (λ t. string_bytes t ≡ limit_words which value) }
{
    format!(in alloc; "limit {} {value}", field_word(which))
}

fn field_word(which: LimitField) -> &'static str
    ensures { result.now ≡ field_word which }
{
    match which {
        LimitField::Streams => "streams",
        LimitField::Length => "length",
        LimitField::Generation => "generation",
        LimitField::Questions => "questions",
        LimitField::Pended => "pended",
        LimitField::Jobs => "jobs",
        LimitField::Cache => "cache",
        LimitField::Chunk => "chunk",
        LimitField::Audit => "audit",
    }
}
