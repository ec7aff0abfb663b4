//! Where each step stands: the sum of the heights of those before it.

ghost use Rattle.std.specs.Prelude.{◌≡◌, ◌+◌, IfOk};
ghost use Rattle.av_chart.specs.Place.{StandAt, bottom_of, shows, top_of, y_of};
ghost use Rattle.av_chart.specs.Row.{height_of, lines_high};

use crate::happened::Step;
use crate::life::Moment;
use std::alloc::{AllocError, Global};

/// The height of a line of a row, and of the gap between rows.
pub const LINE: u32 = 19;

pub const GAP: u32 = 9;
/// The top of the first row.
pub const TOP: u32 = 90;
/// The names of the lanes come again after so many rows, in a band of such a height.
pub const HEADS: usize = 40;

pub const BAND: u32 = 26;

/// The height of a row: at least a line, its lines between opener and filter, and its messages.
pub fn height_of(step: &Step) -> u32
    ensures { result ≡ height_of step.now }
{
    let left = step.asked_lines().saturating_add(step.answers.count());
    let lines = lines_high(left).max(LINE);
    lines.max(lines_high(step.sent()).saturating_add(step.late()))
}

fn lines_high(lines: u64) -> u32
    ensures { result ≡ lines_high lines }
{
    match u32::try_from(lines) {
        Ok(lines) => lines.saturating_mul(LINE),
        Err(_) => u32::MAX,
    }
}

/// Where the rows of the shown steps stand.
#[derive(Drop)]
pub struct Places {
    /// The first step that is shown.
    pub first: u64,
    /// The top of each row.
    pub tops: Vec<u32>,
    /// The end of the last row.
    pub bottom: u32,
}

impl Places {
    /// The places of rows of these heights, the first of which is that of the step `first`. Where they would be higher than
    /// a picture can be, memory is refused.
    pub fn of(alloc: Global, first: u64, heights: &[u32]) -> Result<Places, AllocError>
        ensures first { IfOk result (λ p. p.first ≡ first) }
        ensures tops { IfOk result (λ p. StandAt p.tops.items heights.now) }
        ensures bottom { IfOk result (λ p. p.bottom ≡ bottom_of heights.now) }
    {
        let mut tops = Vec::new(alloc);
        let mut y = TOP;
        'rows: for (index, height) in heights.iter().enumerate() {
            if index > 0 && index % HEADS == 0 {
                y = lower(y, BAND)?;
            }
            tops.push(y)?;
            y = lower(lower(y, *height)?, GAP)?;
        }
        Ok(Places {
            first,
            tops,
            bottom: y,
        })
    }

    /// The top of the row of a step; that of what lies behind the picture is its bottom.
    pub fn top(&self, step: u64) -> u32
        ensures { result ≡ top_of self.now step }
    {
        match self.tops.get(step.saturating_sub(self.first) as usize) {
            Some(top) => *top,
            None => self.bottom,
        }
    }

    /// Whether a step is shown.
    pub fn shows(&self, step: u64) -> bool
        ensures { result ≡ shows self.now step }
    {
        step >= self.first && step - self.first < self.tops.len() as u64
    }

    /// The height at which a moment lies. What lies before or behind the picture is at its edge.
    pub fn y(&self, moment: Moment) -> u32
        ensures { result ≡ y_of self.now moment }
    {
        if moment.step < self.first {
            return TOP - 12;
        }
        match self.tops.get((moment.step - self.first) as usize) {
            Some(top) => top
                .saturating_add(12)
                .saturating_add(moment.line.saturating_mul(LINE)),
            None => self.bottom,
        }
    }
}

// A height so much lower.
fn lower(y: u32, by: u32) -> Result<u32, AllocError>
    ensures { IfOk result (λ low. low ≡ y + by) }
{
    match y.checked_add(by) {
        Some(y) => Ok(y),
        None => Err(AllocError),
    }
}
