ghost use Rattle.std.specs.Prelude.{◌≡◌, IfOk};
ghost use Rattle.av_history.specs.World.{desk_of, places_of, start};

use av_base::{Limits, Mode, Port};
use av_filter::{Filter, Mounted};
use av_frame::Message;
use av_history::given::Given;
use av_history::report::Places;
use av_match::Automaton;
use av_service::{Service, Work};
use av_sigset::Catalogue;
use av_store::Volume;
use std::alloc::{AllocError, Global};
use std::marker::Model;

/// All of a world but its history: the filter on its volume, the published sets, the services, and what they ever sent, lent and answered.
pub struct Stage {
    pub(super) mounted: Mounted,
    pub(super) catalogue: Catalogue,
    // The service of port One, and that of port Two.
    pub(super) one: Service,
    pub(super) two: Service,
    // The automaton that was run last.
    pub(super) automaton: Option<Automaton>,
    pub(super) down: Vec<Message>,
    pub(super) up: Vec<Message>,
    // Each piece of work with the port that lent it.
    pub(super) works: Vec<Option<(Port, Work)>>,
    pub(super) answers: Vec<Given>,
}

impl Model for Stage {
    ghost use Rattle.std.specs.Prelude.{[]};
    ghost use Rattle.av_world.specs.Prepared.{IsPrepared};
    ghost use Rattle.av_history.specs.World.{WorldState};

    ghost Value = { WorldState };

    ghost view = { λ s. record {
      history = [];
      volume = s.mounted.volume;
      sets = s.catalogue.sets;
      table = s.mounted.table;
      one = s.one.desk;
      two = s.two.desk;
      down = s.down.items;
      up = s.up.items;
      works = s.works.items;
      answers = s.answers.items;
    } };

    ghost invariant = { λ s. IsPrepared s.catalogue.sets s.automaton };
}

impl Stage {
    /// An empty volume of this number, a filter mounted on it, and two services with no set.
    pub fn new(alloc: Global, number: u64, mode: Mode, limits: Limits) -> Result<Stage, AllocError>
        ensures { IfOk result (λ s. s ≡ start number mode limits) }
    {
        let volume = Volume::new(alloc, number, limits);
        let catalogue = Catalogue::new(alloc);
        let one = Service::start(alloc, number, Port::One, &catalogue, limits)?;
        let two = Service::start(alloc, number, Port::Two, &catalogue, limits)?;
        let Ok(mounted) = Mounted::mount(alloc, volume, mode, limits) else {
            return Err(AllocError);
        };
        Ok(Stage {
            mounted,
            catalogue,
            one,
            two,
            automaton: None,
            down: Vec::new(alloc),
            up: Vec::new(alloc),
            works: Vec::new(alloc),
            answers: Vec::new(alloc),
        })
    }

    /// The filter.
    pub(super) fn filter(&self) -> &Filter
        ensures { result.now ≡ self.now.table }
    {
        self.mounted.filter()
    }

    /// The volume that it is mounted on.
    pub(super) fn volume(&self) -> &Volume
        ensures { result.now ≡ self.now.volume }
    {
        self.mounted.volume()
    }

    /// The service of a port.
    pub(super) fn service(&self, port: Port) -> &Service
        ensures { result.now.desk ≡ desk_of self.now port }
    {
        match port {
            Port::One => &self.one,
            Port::Two => &self.two,
        }
    }

    /// How long its lists are.
    pub(super) fn places(&self) -> Places
        ensures { result ≡ places_of self.now }
    {
        Places {
            answers: self.answers.len() as u64,
            down: self.down.len() as u64,
            up: self.up.len() as u64,
            works: self.works.len() as u64,
        }
    }

    /// Ends it.
    pub(super) fn close(self) {
        let Stage {
            mounted,
            catalogue: _,
            one: _,
            two: _,
            automaton: _,
            down: _,
            up: _,
            works,
            answers: _,
        } = self;
        let _volume = mounted.abandon();
        discard(works);
    }
}

// Lets works go.
fn discard(mut works: Vec<Option<(Port, Work)>>) {
    'works: while let Some(work) = works.pop() {
        match work {
            Some((_port, work)) => work.discard(),
            None => {}
        }
    }
    works.destroy_empty();
}
