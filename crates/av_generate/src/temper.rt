ghost use Rattle.std.specs.Prelude.{◌≡◌, ◌≤◌, ◌<◌, IfOk, length};
ghost use Rattle.av_generate.specs.Temper.{eagerness_drawn, even, factor_drawn, temper_drawn, verb_drawn};
ghost use Rattle.av_generate.specs.Verb.{verb_at, weight, weight_of_all};

use crate::draws::Draws;
use crate::profile::Profile;
use crate::sight::Sight;
use crate::verb::{VERBS, Verb};
use std::alloc::{AllocError, Global};
use std::marker::Model;

/// A verb with the factor that its weight is taken times.
#[derive(Clone, Copy, Debug, PartialEq, Eq)]
pub struct Leaning {
    pub verb: Verb,
    pub factor: u8,
}

/// How much each verb counts in a spell of commands.
#[derive(Debug, Drop)]
pub struct Temper {
    leanings: Vec<Leaning>,
}

impl Model for Temper {
    ghost use Rattle.std.specs.Prelude.{List, length, ◌≤◌};
    ghost use Rattle.av_generate.specs.declared.temper.Leaning.{Leaning};

    ghost Value = { List Leaning };

    ghost view = { λ t. t.leanings.items };

    ghost invariant = { λ t. length t.leanings.items ≤ 17 };
}

impl Temper {
    /// Each verb counts as it weighs.
    pub fn even(alloc: Global) -> Result<Temper, AllocError>
        ensures { IfOk result (λ t. t ≡ even VERBS) }
    {
        let leanings = even_leanings(alloc, VERBS.as_slice())?;
        Ok(Temper { leanings })
    }

    /// A factor for each verb in turn: 0, 1, 1 or 6.
    pub fn drawn(alloc: Global, draws: &mut Draws) -> Result<Temper, AllocError>
        ensures { IfOk result (λ t. (t, draws.new) ≡ temper_drawn VERBS draws.old) }
    {
        let leanings = leanings_drawn(alloc, VERBS.as_slice(), draws)?;
        Ok(Temper { leanings })
    }

    /// A verb by its weight; an open where none weighs anything.
    #[tactic(auto, unfolding(crate::specs::Temper::verb_drawn))]
    pub fn verb(&self, profile: Profile, sight: &Sight, draws: &mut Draws) -> Verb
        ensures { (result, draws.new) ≡ verb_drawn profile sight.now self.now draws.old }
    {
        let leanings = self.leanings.as_slice();
        let all = weight_of_all(profile, sight, leanings);
        if all == 0 {
            return Verb::Open;
        }
        let place = draws.below(all);
        verb_at(profile, sight, leanings, place)
    }
}

#[tactic(auto, unfolding(crate::specs::Temper::even))]
fn even_leanings(alloc: Global, verbs: &[Verb]) -> Result<Vec<Leaning>, AllocError>
    ensures leanings { IfOk result (λ v. v.items ≡ even verbs.now) }
    ensures count { IfOk result (λ v. length v.items ≡ length verbs.now) }
{
    verbs
        .iter()
        .map(|verb| Leaning {
            verb: *verb,
            factor: 1,
        })
        .collect(alloc)
}

#[tactic(auto, unfolding(crate::specs::Temper::temper_drawn))]
fn leanings_drawn(
    alloc: Global,
    verbs: &[Verb],
    draws: &mut Draws,
) -> Result<Vec<Leaning>, AllocError>
    ensures leanings { IfOk result (λ v. (v.items, draws.new) ≡ temper_drawn verbs.now draws.old) }
    ensures count { IfOk result (λ v. length v.items ≡ length verbs.now) }
{
    let mut leanings = Vec::new(alloc);
    for verb in verbs {
        let factor = factor_drawn(draws);
        leanings.push(Leaning {
            verb: *verb,
            factor,
        })?;
    }
    Ok(leanings)
}

#[tactic(auto, unfolding(crate::specs::Temper::factor_drawn))]
fn factor_drawn(draws: &mut Draws) -> u8
    ensures { (result, draws.new) ≡ factor_drawn draws.old }
{
    match draws.below(4) {
        0 => 0,
        3 => 6,
        _ => 1,
    }
}

/// In how many of 8 draws what was just sent or lent is carried on at once: 0, 3, 6 or 8.
#[tactic(auto, unfolding(crate::specs::Temper::eagerness_drawn))]
pub fn eagerness_drawn(draws: &mut Draws) -> u64
    ensures { (result, draws.new) ≡ eagerness_drawn draws.old }
{
    match draws.below(4) {
        0 => 0,
        1 => 3,
        2 => 6,
        _ => 8,
    }
}

#[tactic(auto, unfolding(crate::specs::Verb::weight))]
fn weight(profile: Profile, sight: &Sight, leaning: Leaning) -> u64
    ensures exact { result ≡ weight profile sight.now leaning }
    ensures small { result ≤ 6120 }
{
    let odds = leaning.verb.odds(profile);
    let base = if leaning.verb.has_work(sight) {
        odds.busy
    } else {
        odds.idle
    };
    base * u64::from(leaning.factor)
}

fn weight_of_all(profile: Profile, sight: &Sight, leanings: &[Leaning]) -> u64
    requires { length leanings.now ≤ 17 }
    ensures { result ≡ weight_of_all profile sight.now leanings.now }
{
    let mut all = 0;
    for leaning in leanings {
        all += weight(profile, sight, *leaning);
    }
    all
}

// The verb at a place of the line in which each takes as many places as it weighs.
fn verb_at(profile: Profile, sight: &Sight, leanings: &[Leaning], place: u64) -> Verb
    ensures { result ≡ verb_at profile sight.now leanings.now place }
{
    let mut left = place;
    for leaning in leanings {
        let weight = weight(profile, sight, *leaning);
        if left < weight {
            return leaning.verb;
        }
        left -= weight;
    }
    Verb::Open
}
