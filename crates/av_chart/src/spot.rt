ghost use Rattle.std.specs.Prelude.{◌≡◌};
ghost use Rattle.av_chart.specs.Spot.{above, below, left_of, right_of};

/// A spot of the picture: so much right of its left edge and so much below its top. One that would lie behind an edge lies on
/// it; the right and the lower edge are 4,294,967,295 away.
#[derive(Clone, Copy)]
pub struct Spot {
    pub x: u32,
    pub y: u32,
}

impl Spot {
    /// So much higher.
    pub fn above(self, by: u32) -> Spot
        ensures { result ≡ above self by }
    {
        Spot {
            x: self.x,
            y: self.y.saturating_sub(by),
        }
    }

    /// So much lower.
    pub fn below(self, by: u32) -> Spot
        ensures { result ≡ below self by }
    {
        Spot {
            x: self.x,
            y: self.y.saturating_add(by),
        }
    }

    /// So much farther left.
    pub fn left_of(self, by: u32) -> Spot
        ensures { result ≡ left_of self by }
    {
        Spot {
            x: self.x.saturating_sub(by),
            y: self.y,
        }
    }

    /// So much farther right.
    pub fn right_of(self, by: u32) -> Spot
        ensures { result ≡ right_of self by }
    {
        Spot {
            x: self.x.saturating_add(by),
            y: self.y,
        }
    }
}
