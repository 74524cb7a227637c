// A straight line, taken from its lower end: where it counts.
ghost use Rattle.std.specs.Prelude.{◌≡◌};
ghost use Rattle.curves.specs.Lines.{product, line_counts};
ghost use Rattle.curves.specs.code.Reach.{EndsIn};

use crate::{Point, Position};

// The lower end of a line or a curve, and its upper one. As two Positions, in place of the ghost field, they are no plainer: `Edge::counts` would turn both
// corners of every edge into Positions, where `curve` turns the control corner alone.
#[derive(Clone, Copy)]
pub struct Ends {
    pub low: Point,
    pub high: Point,
    pub ghost ends_in: { EndsIn low.x low.y high.x high.y },
}

impl Ends {
    // The signed product P at `at`, of the line with these ends.
    pub fn product(self, at: Position) -> i64
        ensures answer { result ≡ product self.low.x self.low.y self.high.x self.high.y at.x at.y }
    {
        laws::difference(self.low.x, at.x) * laws::difference(self.high.y, self.low.y)
            + laws::difference(at.y, self.low.y) * laws::difference(self.high.x, self.low.x)
    }

    // Whether the line with these ends counts at `at`.
    #[tactic(auto, unfolding(crate::specs::Lines::line_counts))]
    pub fn line_counts(self, at: Position) -> bool
        ensures answer { result ≡ line_counts self.low.x self.low.y self.high.x self.high.y at.x at.y }
    {
        self.low.y <= at.y && at.y < self.high.y && self.product(at) > 0
    }
}
