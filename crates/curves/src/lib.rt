// Straight lines and quadratic Bézier curves: where they count, taken from the lower end, and which curves a drawing may have.

#![tactic(auto)]

pub mod curve;
pub mod line;

ghost use Rattle.std.specs.Prelude.{◌≡◌};
ghost use Rattle.curves.specs.Curves.{in_order, span_fits, curve_fits};
ghost use Rattle.curves.specs.code.Reach.{PositionIn};

// How many units a curve spans at most, in each axis.
const MOST_SPAN: u32 = 4096;

// A corner. Contracts ask its range, which no ghost field holds: `curve_fits` takes any numbers.
#[derive(Clone, Copy)]
pub struct Point {
    pub x: u32,
    pub y: u32,
}

// A position.
#[derive(Clone, Copy)]
pub struct Position {
    pub x: u32,
    pub y: u32,
    pub ghost inside: { PositionIn x y },
}

// Three numbers in order, up or down.
fn in_order(a: u32, b: u32, c: u32) -> bool
    ensures answer { result ≡ in_order a b c }
{
    (a <= b && b <= c) || (c <= b && b <= a)
}

// Two numbers at most 4,096 apart.
fn span_fits(a: u32, c: u32) -> bool
    ensures answer { result ≡ span_fits a c }
{
    a.abs_diff(c) <= MOST_SPAN
}

// Whether a drawing may have the curve from p by the control corner q to r.
#[tactic(auto, unfolding(crate::specs::Curves::curve_fits))]
pub fn curve_fits(p: Point, q: Point, r: Point) -> bool
    ensures answer { result ≡ curve_fits p.x p.y q.x q.y r.x r.y }
{
    let across = in_order(p.x, q.x, r.x);
    let upward = in_order(p.y, q.y, r.y);
    across && upward && span_fits(p.x, r.x) && span_fits(p.y, r.y)
}
