// The winding of an area at a position, with no tree. Corners are two tables, xs and ys, as document 01 and the C interface lend them; that each lies in
// range (CornersIn) stays a clause, since `edge_between` and `curve_from` read any tables. A struct of the two slices, or of `first` and `end`, is no
// plainer: definitions (`edge_of`, `winding`, `next_corner`) take each by itself, so every clause would name the fields one by one.
ghost use Rattle.std.specs.Prelude.{◌≡◌, T, length, ◌+◌, ◌-◌, ◌≤◌, ◌<◌};
ghost use Rattle.geometry.specs.code.Reach.{CornersIn};
ghost use Rattle.geometry.specs.Windings.{line, curve, corner_of, edge_of, next_corner, straight_lines, adds, sum_of, winding, contours_to, follow};

use crate::edge::Edge;
use curves::{Point, Position};

// Corner n of the tables.
fn corner(xs: &[u32], ys: &[u32], n: usize) -> Point
    requires n_in_bounds { n < length xs.now }
    requires n_in_bounds_2 { n < length ys.now }
    ensures answer { result ≡ corner_of xs.now ys.now n }
{
    Point { x: xs[n], y: ys[n] }
}

// The edge drawn from corner p to corner q.
pub fn edge_between(xs: &[u32], ys: &[u32], p: usize, q: usize) -> Edge
    requires p_in_bounds { p < length xs.now }
    requires p_in_bounds_2 { p < length ys.now }
    requires q_in_bounds { q < length xs.now }
    requires q_in_bounds_2 { q < length ys.now }
    ensures answer { result ≡ edge_of xs.now ys.now (line p q) }
{
    Edge {
        from: corner(xs, ys, p),
        to: corner(xs, ys, q),
        control: None,
    }
}

// The curve whose first corner is corner p.
pub fn curve_from(xs: &[u32], ys: &[u32], p: usize) -> Edge
    requires p_in_bounds { p + 2 < length xs.now }
    requires p_in_bounds_2 { p + 2 < length ys.now }
    ensures answer { result ≡ edge_of xs.now ys.now (curve p) }
{
    Edge {
        from: corner(xs, ys, p),
        to: corner(xs, ys, p + 2),
        control: Some(corner(xs, ys, p + 1)),
    }
}

// The corner after corner i, of a contour that begins at corner `first` and ends before corner `end`.
fn next_corner(first: usize, end: usize, i: usize) -> usize
    requires first_le_i { first ≤ i }
    requires i_lt_end { i < end }
    ensures answer { result ≡ next_corner first end i }
    ensures range { result < end }
{
    if i + 1 < end { i + 1 } else { first }
}

// What the edge from corner i to the next one of its contour adds.
fn corner_adds(xs: &[u32], ys: &[u32], first: usize, end: usize, i: usize, at: Position) -> i64
    requires corners_in { CornersIn xs.now ys.now }
    requires first_le_i { first ≤ i }
    requires i_lt_end { i < end }
    requires end_in_bounds { end ≤ length xs.now }
    ensures answer { result ≡ adds (edge_of xs.now ys.now (line i (next_corner first end i))) at.x at.y }
{
    let next = next_corner(first, end, i);
    edge_between(xs, ys, i, next).adds(at)
}

// The sum over the edges of one contour, which begins at corner `first` and ends before corner `end`.
fn contour_winding(xs: &[u32], ys: &[u32], first: usize, end: usize, at: Position) -> i64
    requires corners_in { CornersIn xs.now ys.now }
    requires first_le_end { first ≤ end }
    requires end_in_bounds { end ≤ length xs.now }
    ensures answer { result ≡ sum_of xs.now ys.now (straight_lines first first (end - first)) at.x at.y }
{
    let mut sum: i64 = 0;
    for i in first..end {
        sum += corner_adds(xs, ys, first, end, i, at);
    }
    sum
}

// The winding at `at` of an area whose contours follow one another in the tables: the first begins at corner 0, and each ends before
// its number in `ends`.
pub fn area_winding(xs: &[u32], ys: &[u32], ends: &[u32], at: Position) -> i64
    requires corners_in { CornersIn xs.now ys.now }
    requires t { T (follow 0 (length xs.now) ends.now) }
    ensures answer { result ≡ winding xs.now ys.now (contours_to 0 ends.now) at.x at.y }
{
    let mut sum: i64 = 0;
    let mut first = 0;
    for end in ends {
        let end = *end as usize;
        sum += contour_winding(xs, ys, first, end, at);
        first = end;
    }
    sum
}
