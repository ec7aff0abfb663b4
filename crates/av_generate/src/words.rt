ghost use Rattle.std.specs.Prelude.{◌≡◌, ◌<◌, ◌++◌, IfOk, length};
ghost use Rattle.std.specs.String.{string_bytes};
ghost use Rattle.av_generate.specs.Words.{any_drawn, behind, byte_drawn, bytes_drawn, content_drawn, cut_drawn, digits, hex_drawn, last_drawn, least_drawn, name_drawn, named_number, offset_drawn, open_drawn, patterns_drawn, pick_drawn, place_drawn, publish_drawn, question_drawn, rise_drawn, work_drawn, words_drawn, write_drawn, write_words};

use crate::draws::Draws;
use crate::sight::Sight;
use crate::verb::Verb;
use std::alloc::{AllocError, Global};

/// The words of a verb, by what there is to see of the world and the works that are lent.
#[tactic(auto, unfolding(crate::specs::Words::words_drawn))]
pub fn words_drawn(
    alloc: Global,
    sight: &Sight,
    lent: &[u64],
    verb: Verb,
    draws: &mut Draws,
) -> Result<String, AllocError>
    ensures { IfOk result (λ t. (string_bytes t, draws.new) ≡ words_drawn sight.now lent.now verb draws.old) }
{
    match verb {
        Verb::Publish => publish_drawn(alloc, sight.latest.unwrap_or(0), draws),
        Verb::Write => write_drawn(alloc, draws),
        Verb::Cut => cut_drawn(alloc, draws),
        Verb::Open => open_drawn(alloc, sight.latest.unwrap_or(0), draws),
        Verb::Create => named(alloc, "create ", name_drawn(draws)),
        Verb::Remove => named(alloc, "remove ", name_drawn(draws)),
        Verb::Judge => named(alloc, "judge ", name_drawn(draws)),
        Verb::Cleanup => named(alloc, "cleanup ", name_drawn(draws)),
        Verb::Down => numbered(alloc, "down ", place_drawn(sight.down, draws)),
        Verb::Up => numbered(alloc, "up ", place_drawn(sight.up, draws)),
        Verb::Work => numbered(alloc, "work ", work_drawn(sight.works, lent, draws)),
        Verb::Timeout => numbered(alloc, "timeout ", question_drawn(sight.asked, draws)),
        Verb::Connect => String::from_str(alloc, "connect"),
        Verb::DisconnectFilter => String::from_str(alloc, "disconnect filter"),
        Verb::DisconnectService => String::from_str(alloc, "disconnect service"),
        Verb::RestartFilter => String::from_str(alloc, "restart filter"),
        Verb::RestartService => String::from_str(alloc, "restart service"),
    }
}

/// A verb, with its blank, and a name.
pub fn named(alloc: Global, verb: &str, name: &str) -> Result<String, AllocError>
    ensures { IfOk result (λ t. string_bytes t ≡ verb.now ++ name.now) }
{
    format!(in alloc; "{verb}{name}")
}

/// A verb, with its blank, and a number.
#[tactic(auto, using(crate::proofs::DrawLemmas::capped_same))]
pub fn numbered(alloc: Global, verb: &str, number: u64) -> Result<String, AllocError>
    ensures { IfOk result (λ t. string_bytes t ≡ verb.now ++ digits number) }
{
    format!(in alloc; "{verb}{number}")
}

#[tactic(auto, unfolding(crate::specs::Words::name_drawn))]
fn name_drawn(draws: &mut Draws) -> &'static str
    ensures { (result.now, draws.new) ≡ name_drawn draws.old }
{
    match draws.below(8) {
        0..=3 => "a",
        4..=6 => "b",
        _ => "c",
    }
}

#[tactic(auto, unfolding(crate::specs::Words::byte_drawn))]
fn byte_drawn(draws: &mut Draws) -> &'static str
    ensures { (result.now, draws.new) ≡ byte_drawn draws.old }
{
    if draws.below(2) == 0 { "41" } else { "42" }
}

fn bytes_drawn(alloc: Global, count: u64, draws: &mut Draws) -> Result<String, AllocError>
    ensures { IfOk result (λ t. (string_bytes t, draws.new) ≡ bytes_drawn count draws.old) }
{
    let mut text = String::new(alloc);
    let mut left = count;
    'bytes: while left > 0 {
        text.push_str(byte_drawn(draws))?;
        left -= 1;
    }
    Ok(text)
}

#[tactic(auto, unfolding(crate::specs::Words::hex_drawn))]
fn hex_drawn(
    alloc: Global,
    least: u64,
    lengths: u64,
    draws: &mut Draws,
) -> Result<String, AllocError>
    requires lengths { 0 < lengths }
    requires small { (least < 8) × (lengths < 8) }
    ensures { IfOk result (λ t. (string_bytes t, draws.new) ≡ hex_drawn least lengths draws.old) }
{
    let more = draws.below(lengths);
    bytes_drawn(alloc, least + more, draws)
}

#[tactic(auto, unfolding(crate::specs::Words::content_drawn))]
fn content_drawn(alloc: Global, draws: &mut Draws) -> Result<String, AllocError>
    ensures { IfOk result (λ t. (string_bytes t, draws.new) ≡ content_drawn draws.old) }
{
    let text = hex_drawn(alloc, 0, 5, draws)?;
    if text.as_bytes().is_empty() {
        return String::from_str(alloc, "-");
    }
    Ok(text)
}

#[tactic(auto, unfolding(crate::specs::Words::rise_drawn))]
fn rise_drawn(draws: &mut Draws) -> u64
    ensures drawn { (result, draws.new) ≡ rise_drawn draws.old }
{
    match draws.below(5) {
        3 => 2,
        4 => 0,
        _ => 1,
    }
}

#[tactic(auto, unfolding(crate::specs::Words::publish_drawn))]
fn publish_drawn(alloc: Global, latest: u64, draws: &mut Draws) -> Result<String, AllocError>
    ensures { IfOk result (λ t. (string_bytes t, draws.new) ≡ publish_drawn latest draws.old) }
{
    let version = latest.saturating_add(rise_drawn(draws));
    let count = draws.below(3);
    let text = numbered(alloc, "publish ", version)?;
    patterns_drawn(alloc, text, count, draws)
}

// Patterns behind a text.
fn patterns_drawn(
    alloc: Global,
    mut text: String,
    count: u64,
    draws: &mut Draws,
) -> Result<String, AllocError>
    ensures { IfOk result (λ t. (string_bytes t, draws.new) ≡ behind (string_bytes text) (patterns_drawn count draws.old)) }
{
    let mut left = count;
    'patterns: while left > 0 {
        text.push_str(" ")?;
        let pattern = hex_drawn(alloc, 1, 2, draws)?;
        text.push_str(pattern.as_str())?;
        left -= 1;
    }
    Ok(text)
}

#[tactic(auto, unfolding(crate::specs::Words::offset_drawn))]
fn offset_drawn(draws: &mut Draws) -> u64
    ensures { (result, draws.new) ≡ offset_drawn draws.old }
{
    if draws.below(4) == 0 {
        draws.below(6)
    } else {
        0
    }
}

#[tactic(auto, unfolding(crate::specs::Words::write_drawn))]
fn write_drawn(alloc: Global, draws: &mut Draws) -> Result<String, AllocError>
    ensures { IfOk result (λ t. (string_bytes t, draws.new) ≡ write_drawn draws.old) }
{
    let name = name_drawn(draws);
    let offset = offset_drawn(draws);
    let content = content_drawn(alloc, draws)?;
    write_words(alloc, name, offset, content.as_str())
}

#[tactic(auto, using(crate::proofs::DrawLemmas::capped_same))]
fn write_words(alloc: Global, name: &str, offset: u64, content: &str) -> Result<String, AllocError>
    ensures { IfOk result (λ t. string_bytes t ≡ write_words name.now offset content.now) }
{
    format!(in alloc; "write {name} {offset} {content}")
}

// A verb, with its blank, and a name and a number.
#[tactic(auto, using(crate::proofs::DrawLemmas::capped_same))]
fn named_number(alloc: Global, verb: &str, name: &str, number: u64) -> Result<String, AllocError>
    ensures { IfOk result (λ t. string_bytes t ≡ named_number verb.now name.now number) }
{
    format!(in alloc; "{verb}{name} {number}")
}

#[tactic(auto, unfolding(crate::specs::Words::cut_drawn))]
fn cut_drawn(alloc: Global, draws: &mut Draws) -> Result<String, AllocError>
    ensures { IfOk result (λ t. (string_bytes t, draws.new) ≡ cut_drawn draws.old) }
{
    let name = name_drawn(draws);
    let length = draws.below(4);
    named_number(alloc, "cut ", name, length)
}

#[tactic(auto, unfolding(crate::specs::Words::open_drawn))]
fn open_drawn(alloc: Global, latest: u64, draws: &mut Draws) -> Result<String, AllocError>
    ensures { IfOk result (λ t. (string_bytes t, draws.new) ≡ open_drawn latest draws.old) }
{
    let name = name_drawn(draws);
    if draws.below(8) != 0 {
        return named(alloc, "open ", name);
    }
    least_drawn(alloc, name, latest, draws)
}

#[tactic(auto, unfolding(crate::specs::Words::least_drawn))]
fn least_drawn(
    alloc: Global,
    name: &str,
    latest: u64,
    draws: &mut Draws,
) -> Result<String, AllocError>
    ensures { IfOk result (λ t. (string_bytes t, draws.new) ≡ least_drawn name.now latest draws.old) }
{
    let least = latest.saturating_add(draws.below(3));
    named_number(alloc, "open ", name, least)
}

#[tactic(auto, unfolding(crate::specs::Words::place_drawn))]
fn place_drawn(count: u64, draws: &mut Draws) -> u64
    ensures { (result, draws.new) ≡ place_drawn count draws.old }
{
    let kind = draws.below(8);
    if count == 0 {
        return 1;
    }
    if kind == 7 {
        count.saturating_add(1)
    } else if kind < 5 {
        last_drawn(count, draws)
    } else {
        any_drawn(count, draws)
    }
}

#[tactic(auto, unfolding(crate::specs::Words::last_drawn))]
fn last_drawn(count: u64, draws: &mut Draws) -> u64
    ensures { (result, draws.new) ≡ last_drawn count draws.old }
{
    count.saturating_sub(draws.below(2)).max(1)
}

#[tactic(auto, unfolding(crate::specs::Words::any_drawn))]
fn any_drawn(count: u64, draws: &mut Draws) -> u64
    requires { 0 < count }
    ensures { (result, draws.new) ≡ any_drawn count draws.old }
{
    1 + draws.below(count)
}

#[tactic(auto, unfolding(crate::specs::Words::pick_drawn))]
fn pick_drawn(numbers: &[u64], draws: &mut Draws) -> u64
    requires { 0 < length numbers.now }
    ensures { (result, draws.new) ≡ pick_drawn numbers.now draws.old }
{
    let place = draws.below(numbers.len() as u64);
    numbers[place as usize]
}

#[tactic(auto, unfolding(crate::specs::Words::work_drawn))]
fn work_drawn(works: u64, lent: &[u64], draws: &mut Draws) -> u64
    ensures { (result, draws.new) ≡ work_drawn works lent.now draws.old }
{
    if lent.is_empty() {
        return place_drawn(works, draws);
    }
    if draws.below(8) == 0 {
        place_drawn(works, draws)
    } else {
        pick_drawn(lent, draws)
    }
}

#[tactic(auto, unfolding(crate::specs::Words::question_drawn))]
fn question_drawn(asked: u64, draws: &mut Draws) -> u64
    ensures { (result, draws.new) ≡ question_drawn asked draws.old }
{
    asked.saturating_sub(draws.below(3))
}
