//! The legend under a picture.

ghost use Rattle.std.specs.Prelude.{◌≡◌, ◌++◌, IfOk, OnOk};
ghost use Rattle.av_chart.specs.Legend.{again_sign, behind_again, behind_life, behind_line, behind_lives, behind_spent, behind_word, legend_text, life_sign, line_sign, lines_legend, lives_legend, lost_sign, spent_sign, word_text};

use super::NUMBERS;
use super::lanes::{put_cross, wide};
use crate::mark::{Mark, put_mark};
use crate::spot::Spot;
use std::alloc::AllocError;

/// Puts the legend.
#[tactic(auto, using(crate::proofs::PutLemmas::put_two), unfolding(crate::specs::Legend::legend_text))]
pub fn put_legend(page: &mut Vec<u8>, y: u32) -> Result<(), AllocError>
    ensures { OnOk result (page.new.items ≡ page.old.items ++ legend_text y) }
{
    let lines = put_lives(page, Spot { x: NUMBERS + 8, y })?;
    put_lines(page, lines)
}

// Puts the kinds of bars; gives where the lines stand.
#[tactic(auto, using(crate::proofs::PutLemmas::put_four), unfolding(crate::specs::Legend::lives_legend))]
fn put_lives(page: &mut Vec<u8>, start: Spot) -> Result<Spot, AllocError>
    ensures text { OnOk result (page.new.items ≡ page.old.items ++ lives_legend start) }
    ensures next { IfOk result (λ next. next ≡ behind_lives start) }
{
    let questions = put_life(page, start, b"bo", b"open")?;
    let jobs = put_life(page, questions, b"bq", b"question")?;
    let works = put_life(page, jobs, b"bj", b"job")?;
    put_life(page, works, b"bw", b"work")
}

// Puts the kinds of lines.
#[tactic(auto, using(crate::proofs::PutLemmas::put_four), unfolding(crate::specs::Legend::lines_legend))]
fn put_lines(page: &mut Vec<u8>, start: Spot) -> Result<(), AllocError>
    ensures { OnOk result (page.new.items ≡ page.old.items ++ lines_legend start) }
{
    let spent = put_message(page, start, b"d", b"message")?;
    let again = put_spent(page, spent)?;
    let lost = put_again(page, again)?;
    put_lost(page, lost)
}

#[tactic(auto, unfolding(crate::specs::Legend::spent_sign, crate::specs::Legend::behind_spent))]
fn put_spent(page: &mut Vec<u8>, at: Spot) -> Result<Spot, AllocError>
    ensures text { OnOk result (page.new.items ≡ page.old.items ++ spent_sign at) }
    ensures next { IfOk result (λ next. next ≡ behind_spent at) }
{
    put_message(page, at, b"d spent", b"brings nothing any more")
}

#[tactic(auto, unfolding(crate::specs::Legend::again_sign, crate::specs::Legend::behind_again))]
fn put_again(page: &mut Vec<u8>, at: Spot) -> Result<Spot, AllocError>
    ensures text { OnOk result (page.new.items ≡ page.old.items ++ again_sign at) }
    ensures next { IfOk result (λ next. next ≡ behind_again at) }
{
    put_message(page, at, b"d again", b"delivered again")
}

// Puts a kind of bar and its name; gives where the next one stands.
#[tactic(auto, using(crate::proofs::PutLemmas::put_two), unfolding(crate::specs::Legend::life_sign))]
fn put_life(page: &mut Vec<u8>, at: Spot, class: &[u8], words: &[u8]) -> Result<Spot, AllocError>
    ensures text { OnOk result (page.new.items ≡ page.old.items ++ life_sign at class.now words.now) }
    ensures next { IfOk result (λ next. next ≡ behind_life at words.now) }
{
    put_mark(
        page,
        &Mark::Block {
            class,
            at: at.above(6),
            width: 6,
            height: 12,
            more: b" rx=\"2\"",
        },
    )?;
    put_word(page, at.right_of(12), words)
}

// Puts a kind of line and its name; gives where the next one stands.
#[tactic(auto, using(crate::proofs::PutLemmas::put_two), unfolding(crate::specs::Legend::line_sign))]
fn put_message(page: &mut Vec<u8>, at: Spot, class: &[u8], words: &[u8]) -> Result<Spot, AllocError>
    ensures text { OnOk result (page.new.items ≡ page.old.items ++ line_sign at class.now words.now) }
    ensures next { IfOk result (λ next. next ≡ behind_line at words.now) }
{
    put_mark(
        page,
        &Mark::Line {
            class,
            from: at,
            to: at.right_of(34),
        },
    )?;
    put_word(page, at.right_of(40), words)
}

#[tactic(auto, unfolding(crate::specs::Legend::word_text))]
fn put_word(page: &mut Vec<u8>, at: Spot, words: &[u8]) -> Result<Spot, AllocError>
    ensures text { OnOk result (page.new.items ≡ page.old.items ++ word_text at words.now) }
    ensures next { IfOk result (λ next. next ≡ behind_word at words.now) }
{
    put_mark(
        page,
        &Mark::Words {
            at: at.below(4),
            look: b" class=\"n\"",
            words,
        },
    )?;
    Ok(at.right_of(wide(words).saturating_add(18)))
}

// Puts the line of a message that never arrives.
#[tactic(auto, using(crate::proofs::PutLemmas::put_three), unfolding(crate::specs::Legend::lost_sign))]
fn put_lost(page: &mut Vec<u8>, at: Spot) -> Result<(), AllocError>
    ensures { OnOk result (page.new.items ≡ page.old.items ++ lost_sign at) }
{
    let end = at.right_of(28);
    put_mark(
        page,
        &Mark::Line {
            class: b"d",
            from: at,
            to: end,
        },
    )?;
    put_cross(page, end)?;
    let _next = put_word(page, at.right_of(40), b"never delivered")?;
    Ok(())
}
