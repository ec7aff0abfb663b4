ghost use Rattle.std.specs.Prelude.{◌≡◌, IfOk, OnOk};
ghost use Rattle.std.specs.String.{string_bytes};
ghost use Rattle.av_generate.specs.Course.{asked_after, asked_before, asked_by, carried_drawn, followed, in_spell, new_spell, next_words, noticed, run_place, stepped, verb_words};
ghost use Rattle.av_generate.specs.Generated.{fresh_generator};
ghost use Rattle.av_script.specs.Script.Grammar.{line_of};
ghost use Rattle.av_history.specs.World.{step_of};
ghost use Rattle.std.specs.Prelude.{drop};

use crate::draws::Draws;
use crate::fresh::Fresh;
use crate::lent::Lent;
use crate::profile::Profile;
use crate::sight::Sight;
use crate::temper::{Temper, eagerness_drawn};
use crate::words::words_drawn;
use av_base::Refusal;
use av_frame::{Body, Message};
use av_history::{Event, Line, Report};
use av_script::command::Command;
use av_script::reading::read_statement;
use av_world::World;
use std::alloc::{AllocError, Global};

/// What a script carries from one of its commands to the next.
#[derive(Debug, Drop)]
pub struct Generator {
    profile: Profile,
    draws: Draws,
    temper: Temper,
    /// In how many of 8 draws what is fresh is carried on.
    eager: u64,
    /// How many commands of the spell are left.
    left: u64,
    fresh: Option<Fresh>,
    lent: Lent,
    /// The number of the last question of the filter's present boot.
    asked: u64,
}

impl Generator {
    /// A generator at the first command of its script.
    pub fn new(alloc: Global, profile: Profile, draws: Draws) -> Result<Generator, AllocError>
        ensures { IfOk result (λ g. g ≡ fresh_generator profile draws) }
    {
        let temper = Temper::even(alloc)?;
        Ok(Generator {
            profile,
            draws,
            temper,
            eager: 0,
            left: 0,
            fresh: None,
            lent: Lent::new(alloc),
            asked: 0,
        })
    }

    /// The words of the next command.
    #[tactic(auto, unfolding(crate::specs::Course::next_words))]
    pub fn words(&mut self, alloc: Global, world: &World) -> Result<String, AllocError>
        ensures { IfOk result (λ t. (string_bytes t, self.new) ≡ next_words self.old world.now) }
    {
        self.enter_spell(alloc)?;
        match self.carried() {
            Some(fresh) => fresh.words(alloc),
            None => self.verb_words(alloc, world),
        }
    }

    // In a deep script a new spell begins each 16 commands.
    #[tactic(auto, unfolding(crate::specs::Course::in_spell))]
    fn enter_spell(&mut self, alloc: Global) -> Result<(), AllocError>
        ensures { OnOk result (self.new ≡ in_spell self.old) }
    {
        match self.profile {
            Profile::Deep if self.left == 0 => self.begin_spell(alloc),
            Profile::Deep => {
                self.left -= 1;
                Ok(())
            }
            Profile::Uniform => Ok(()),
        }
    }

    #[tactic(auto, unfolding(crate::specs::Course::new_spell))]
    fn begin_spell(&mut self, alloc: Global) -> Result<(), AllocError>
        ensures { OnOk result (self.new ≡ new_spell self.old) }
    {
        self.temper = Temper::drawn(alloc, &mut self.draws)?;
        self.eager = eagerness_drawn(&mut self.draws);
        self.left = 15;
        Ok(())
    }

    // What was just sent or lent, where it is carried on.
    #[tactic(auto, unfolding(crate::specs::Course::carried_drawn))]
    fn carried(&mut self) -> Option<Fresh>
        ensures { (result, self.new) ≡ carried_drawn self.old }
    {
        if self.eager == 0 {
            return None;
        }
        let fresh = self.fresh?;
        if self.draws.below(8) < self.eager {
            Some(fresh)
        } else {
            None
        }
    }

    #[tactic(auto, unfolding(crate::specs::Course::verb_words))]
    fn verb_words(&mut self, alloc: Global, world: &World) -> Result<String, AllocError>
        ensures { IfOk result (λ t. (string_bytes t, self.new) ≡ verb_words self.old world.now) }
    {
        let lent = self.lent.as_slice();
        let sight = Sight::of(world, lent, self.asked);
        let verb = self.temper.verb(self.profile, &sight, &mut self.draws);
        words_drawn(alloc, &sight, lent, verb, &mut self.draws)
    }

    /// Lets what a line says happen to the world, and notices what it leaves behind. Where memory is refused the
    /// script can't go on.
    #[tactic(auto, unfolding(crate::specs::Course::followed))]
    pub fn follow(
        &mut self,
        alloc: Global,
        world: &mut World,
        line: &[u8],
    ) -> Result<(), AllocError>
        ensures { OnOk result ((self.new, world.new) ≡ followed self.old world.old (line_of line.now)) }
    {
        let Some(statement) = read_statement(line) else {
            self.fresh = None;
            return Ok(());
        };
        match statement.command(alloc)? {
            Some(Command::Step(event)) => self.step(alloc, world, event),
            _ => {
                self.fresh = None;
                Ok(())
            }
        }
    }

    fn step(&mut self, alloc: Global, world: &mut World, event: Event) -> Result<(), AllocError>
        ensures { OnOk result ((self.new, world.new) ≡ stepped self.old world.old event (step_of world.old event)) }
    {
        let back = run_place(&event);
        match world.step(alloc, event) {
            Ok(report) => self.notice(back, &report, world),
            Err(refused) => match refused.why {
                Refusal::Fault(_) => {
                    self.fresh = None;
                    Ok(())
                }
                Refusal::NoMemory => Err(AllocError),
            },
        }
    }

    // Notices what a step leaves behind, which ran the work of a place or none.
    #[tactic(auto, unfolding(crate::specs::Course::noticed))]
    fn notice(
        &mut self,
        back: Option<u64>,
        report: &Report,
        world: &World,
    ) -> Result<(), AllocError>
        ensures { OnOk result (self.new ≡ noticed self.old back report.now world.now) }
    {
        self.fresh = Fresh::of(report.before, report.after);
        self.asked = asked_after(
            asked_before(report.line, self.asked),
            world.down(),
            report.before.down,
        );
        self.lent
            .step(back, report.before.works, report.after.works)
    }
}

fn run_place(event: &Event) -> Option<u64>
    ensures { result ≡ run_place event.now }
{
    match event {
        Event::Run { place } => Some(*place),
        _ => None,
    }
}

fn asked_before(line: Line, asked: u64) -> u64
    ensures { result ≡ asked_before line asked }
{
    match line {
        Line::Booted { .. } => 0,
        _ => asked,
    }
}

// The number of the last question, after the messages from this place on, counted from 0.
fn asked_after(before: u64, messages: &[Message], from: u64) -> u64
    ensures { result ≡ asked_after before (drop from messages.now) }
{
    let mut asked = before;
    let mut place = from;
    'messages: while place < messages.len() as u64 {
        asked = asked_by(&messages[place as usize], asked);
        place += 1;
    }
    asked
}

fn asked_by(message: &Message, asked: u64) -> u64
    ensures { result ≡ asked_by message.now asked }
{
    match message.body() {
        Body::Scan { id, .. } => id.seq,
        _ => asked,
    }
}
