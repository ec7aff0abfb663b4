use crate::entry::DeskEntry;
use av_base::{Limits, Port};
use av_sigset::Catalogue;

/// What a desk that was closed gives: where it was opened, and each event in order with its arguments and what it gave
/// out. The catalogue is as the events left it, with `opening` sets before the first of them.
#[derive(Drop)]
pub struct Audit {
    pub volume_number: u64,
    pub port: Port,
    pub limits: Limits,
    pub catalogue: Catalogue,
    pub opening: usize,
    pub events: Vec<DeskEntry>,
}
