ghost use Rattle.std.specs.Prelude.{◌≡◌};
ghost use Rattle.av_generate.specs.Sight.{sight_of, taken, taken_of_all};

use av_base::Port;
use av_world::World;

/// What a choice sees of a world and its script.
#[derive(Clone, Copy, Debug)]
pub struct Sight {
    /// The version that was published last.
    pub latest: Option<u64>,
    /// How many of the script's three names have a stream.
    pub streams: u64,
    /// Whether the service of the first port is connected, the only one that a script speaks of.
    pub connected: bool,
    /// Questions that are open.
    pub questions: u64,
    /// Messages that were ever sent to the service.
    pub down: u64,
    /// Messages that were ever sent to the filter.
    pub up: u64,
    /// Pieces of work that were ever lent.
    pub works: u64,
    /// Pieces of work that are lent.
    pub lent: u64,
    /// The number of the last question of the filter's present boot.
    pub asked: u64,
}

impl Sight {
    /// What there is to see of a world, where these works are lent, and this was the last question. At once.
    #[tactic(auto, unfolding(crate::specs::Sight::sight_of))]
    pub fn of(world: &World, lent: &[u64], asked: u64) -> Sight
        ensures { result ≡ sight_of world.now lent.now asked }
    {
        Sight {
            latest: latest(world),
            streams: taken_of_all(world),
            connected: world.connected(Port::One),
            questions: world.question_count() as u64,
            down: world.down().len() as u64,
            up: world.up().len() as u64,
            works: world.work_count() as u64,
            lent: lent.len() as u64,
            asked,
        }
    }
}

ghost use Rattle.av_sigset.specs.Catalogue.{newest};

fn latest(world: &World) -> Option<u64>
    ensures { result ≡ newest world.now.sets }
{
    let version = world.latest()?;
    Some(version.get())
}

fn taken_of_all(world: &World) -> u64
    ensures { result ≡ taken_of_all world.now }
{
    taken(world, b"a") + taken(world, b"b") + taken(world, b"c")
}

ghost use Rattle.std.specs.Prelude.{◌≤◌};

fn taken(world: &World, name: &[u8]) -> u64
    ensures exact { result ≡ taken world.now name.now }
    ensures small { result ≤ 1 }
{
    if world.find(name).is_some() { 1 } else { 0 }
}
