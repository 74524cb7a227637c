// What an edge, or the rows of a shortcut, become in a square: dropped, added to the start number, a shortcut, or a kept line.
ghost use Rattle.std.specs.Prelude.{◌≡◌, not, ◌&&◌};
ghost use Rattle.geometry.specs.code.Reach.{EdgeIn, SquareIn};
ghost use Rattle.geometry.specs.Edges.{counts};
ghost use Rattle.geometry.specs.Classes.{edge_class, cut};

use crate::edge::Edge;
use curves::Position;

// The square of a cell: its low corner and its side. Contracts ask its range (SquareIn), which no ghost field holds: definitions of specs build squares
// (`square_of` of a cell), and each would carry a proof; and `probe` makes squares of any numbers, which it tries afterwards.
#[derive(Clone, Copy)]
pub struct Square {
    pub x: u32,
    pub y: u32,
    pub side: u32,
}

// The class of a segment in a square. A shortcut has the rows from its first number to the one before its second: two numbers, since a `Range` is not
// `Copy`, and a class is.
#[derive(Clone, Copy)]
pub enum Class {
    Dropped,
    Start,
    Shortcut(u32, u32),
    Kept,
}

// An edge counts neither in the first row of a column nor in the last.
fn counts_in_neither(e: Edge, first: Position, last: Position) -> bool
    requires { EdgeIn e }
    ensures answer { result ≡ not (counts e first.x first.y) && not (counts e last.x last.y) }
{
    !e.counts(first) && !e.counts(last)
}

// An edge counts both in the first row of a column and in the last.
fn counts_in_both(e: Edge, first: Position, last: Position) -> bool
    requires { EdgeIn e }
    ensures answer { result ≡ counts e first.x first.y && counts e last.x last.y }
{
    e.counts(first) && e.counts(last)
}

impl Square {
    // The class of an edge in a square, by at most four tests, each one product where the edge is straight: the leftmost column shows whether it counts
    // nowhere, the rightmost whether it counts everywhere, each in the first row and in the last.
    pub fn classify(self, e: Edge) -> Class
        requires edge_in { EdgeIn e }
        requires square_in { SquareIn self }
        ensures answer { result ≡ edge_class e self }
    {
        let rows = e.rows();
        let lo = rows.first.max(self.y);
        let hi = rows.end.min(self.y + self.side);
        if hi <= lo {
            return Class::Dropped;
        }
        let last = hi - 1;
        let left = self.x;
        let right = self.x + self.side - 1;
        if counts_in_neither(
            e,
            Position { x: left, y: lo },
            Position { x: left, y: last },
        ) {
            Class::Dropped
        } else if counts_in_both(
            e,
            Position { x: right, y: lo },
            Position { x: right, y: last },
        ) {
            self.cut_rows(lo, hi)
        } else {
            Class::Kept
        }
    }

    // Rows lo to hi - 1 in which every position counts, cut to a square's rows. Two numbers, as a shortcut has them.
    #[tactic(auto, unfolding(crate::specs::Classes::cut, crate::specs::Classes::verdict))]
    pub fn cut_rows(self, lo: u32, hi: u32) -> Class
        requires { SquareIn self }
        ensures answer { result ≡ cut lo hi self.y self.side }
    {
        let top = self.y + self.side;
        let first = lo.max(self.y);
        let end = hi.min(top);
        if end <= first {
            Class::Dropped
        } else if first == self.y && end == top {
            Class::Start
        } else {
            Class::Shortcut(first, end)
        }
    }
}
