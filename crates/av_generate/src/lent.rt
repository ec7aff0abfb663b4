ghost use Rattle.std.specs.Prelude.{◌≡◌, ◌++◌, ◌-◌, [], OnOk};
ghost use Rattle.av_generate.specs.Lent.{lent_after, places_behind, without, without_place};

use std::alloc::{AllocError, Global};
use std::marker::Model;

/// The places of the works that are lent, the oldest first.
#[derive(Debug, Drop)]
pub struct Lent {
    places: Vec<u64>,
}

impl Model for Lent {
    ghost use Rattle.std.specs.Prelude.{List, ℕ};

    ghost Value = { List ℕ };

    ghost view = { λ l. l.places.items };
}

impl Lent {
    /// Nothing is lent.
    pub fn new(alloc: Global) -> Lent
        ensures { result ≡ [] }
    {
        Lent {
            places: Vec::new(alloc),
        }
    }

    /// The places.
    pub fn as_slice(&self) -> &[u64]
        ensures { result.now ≡ self.now }
    {
        self.places.as_slice()
    }

    /// One work came back or none, and the list of works grew from one length to another.
    #[tactic(auto, unfolding(crate::specs::Lent::lent_after))]
    pub fn step(&mut self, back: Option<u64>, from: u64, to: u64) -> Result<(), AllocError>
        ensures { OnOk result (self.new ≡ lent_after back from to self.old) }
    {
        leave_out(&mut self.places, back);
        push_places(&mut self.places, from, to)
    }
}

fn leave_out(places: &mut Vec<u64>, back: Option<u64>)
    ensures { places.new.items ≡ without back places.old.items }
{
    if let Some(back) = back {
        leave_out_place(places, back);
    }
}

fn leave_out_place(places: &mut Vec<u64>, back: u64)
    ensures { places.new.items ≡ without_place back places.old.items }
{
    for index in 0..places.len() {
        if places[index] == back {
            places.remove(index);
            return;
        }
    }
}

fn push_places(places: &mut Vec<u64>, from: u64, to: u64) -> Result<(), AllocError>
    ensures { OnOk result (places.new.items ≡ places.old.items ++ places_behind from (to - from)) }
{
    let mut last = from;
    'places: while last < to {
        last += 1;
        places.push(last)?;
    }
    Ok(())
}
