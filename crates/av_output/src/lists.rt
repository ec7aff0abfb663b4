use av_base::Port;
use av_frame::Message;
use av_history::given::Given;
use av_service::Work;

/// The lists of a world behind a step: the answers that were given, the messages to the service and those to the filter, and the
/// works that were lent, where none stands for one that has ended.
#[derive(Clone, Copy)]
pub struct Lists<'a> {
    pub answers: &'a [Given],
    pub down: &'a [Message],
    pub up: &'a [Message],
    pub works: &'a [Option<(Port, Work)>],
}
