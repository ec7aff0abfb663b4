use av_base::ByteList;
use av_history::event::Event;

/// A command of a script.
#[derive(Debug, Drop)]
pub enum Command {
    /// An event of the world.
    Step(Event),
    /// The verdict of a stream's content under the latest signature set.
    Judge { name: ByteList },
}
