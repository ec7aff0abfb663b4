use crate::entry::GateEntry;
use av_base::{Limits, Mode};
use av_store::Volume;

/// All that happened to the filter of one gate: the volume as the mount left it, mode and limits, and the events in their
/// order, each with what the filter gave out.
#[derive(Drop)]
pub struct Audit {
    pub volume: Volume,
    pub mode: Mode,
    pub limits: Limits,
    pub events: Vec<GateEntry>,
}
