// A curve, taken from its lower end: where it counts.
ghost use Rattle.std.specs.Prelude.{◌≡◌, true, ◌≤◌, nat_abs};
ghost use Rattle.curves.specs.Curves.{curve_fits, implicit, side_by, side, curve_counts};
ghost use Rattle.curves.specs.code.Reach.{BoxIn, widest};

use crate::line::Ends;
use crate::{Point, Position};

// Document 000's implicit form, of the products of the chord, the first leg and the second.
fn implicit_form(c: i64, f: i64, s: i64) -> i64
    requires c_bound { nat_abs c ≤ widest }
    requires f_bound { nat_abs f ≤ widest }
    requires s_bound { nat_abs s ≤ widest }
    ensures answer { result ≡ implicit c f s }
{
    c * c - 4 * (f * s)
}

// On which side of the curve a position lies: e is the chord's product at the control corner, the others are the products at the position.
fn side_by(e: i64, c: i64, f: i64, s: i64) -> bool
    requires c_bound { nat_abs c ≤ widest }
    requires f_bound { nat_abs f ≤ widest }
    requires s_bound { nat_abs s ≤ widest }
    ensures answer { result ≡ side_by e c f s }
{
    let form = implicit_form(c, f, s);
    if e > 0 {
        c > 0 && form > 0
    } else if e < 0 {
        c > 0 || form < 0
    } else {
        c > 0
    }
}

// The same by the corners, at a position within the box of the curve.
fn curve_side(ends: Ends, control: Position, at: Position) -> bool
    requires { BoxIn ends.low.x ends.low.y control.x control.y ends.high.x ends.high.y at.x at.y }
    ensures answer { result ≡ side ends.low.x ends.low.y control.x control.y ends.high.x ends.high.y at.x at.y }
{
    let corner = Point {
        x: control.x,
        y: control.y,
    };
    let first_leg = Ends {
        low: ends.low,
        high: corner,
    };
    let second_leg = Ends {
        low: corner,
        high: ends.high,
    };
    let e = ends.product(control);
    let c = ends.product(at);
    let f = first_leg.product(at);
    let s = second_leg.product(at);
    side_by(e, c, f, s)
}

// Whether the curve with these ends and this control corner counts at `at`: by its rows, by its box, by its form.
pub fn curve_counts(ends: Ends, control: Point, at: Position) -> bool
    requires y2_value { curve_fits ends.low.x ends.low.y control.x control.y ends.high.x ends.high.y ≡ true }
    requires y0_le_y2 { ends.low.y ≤ ends.high.y }
    ensures answer { result ≡ curve_counts ends.low.x ends.low.y control.x control.y ends.high.x ends.high.y at.x at.y }
{
    let Ends { low, high } = ends;
    if at.y < low.y {
        return false;
    }
    if high.y <= at.y {
        return false;
    }
    if low.x.max(high.x) <= at.x {
        return false;
    }
    if at.x < low.x.min(high.x) {
        return true;
    }
    let corner = Position {
        x: control.x,
        y: control.y,
    };
    curve_side(ends, corner, at)
}
