// A stream in tables, read at a position in one pass.

#![tactic(auto)]

ghost use Rattle.std.specs.Prelude.{◌≡◌, true, cond, ◌+◌, ◌*◌, ◌-◌, ◌≤◌, ◌<◌, length, pos, ◌+ℤ◌, nat_abs};
ghost use Rattle.std.specs.Int.{w32};
ghost use Rattle.std.proofs.Common.{to_z};
ghost use Rattle.curves.specs.Lines.{is_row};
ghost use Rattle.geometry.specs.code.Reach.{EdgeIn, LineBelow};
ghost use Rattle.geometry.specs.Windings.{edge_of, adds};
ghost use Rattle.paint.specs.Sets.{with_area};
ghost use Rattle.pruning.specs.Registers.{on_item};
ghost use Rattle.machine.specs.code.Registers.{meant};
ghost use Rattle.stream.specs.Table.{words_at, words_from, words_in};
ghost use Rattle.stream.specs.Grammar.{env_of, env_passed};
ghost use Rattle.stream.specs.code.Machine.{run_length, end_passed};
ghost use Rattle.evaluate.specs.Reading.{role_at, pass_at, opaque_at, set_at};
ghost use Rattle.evaluate.specs.code.Numbers.{line_of, segment_range, segment_adds, segments_sum, moved_by, SegmentsIn, Ranged, Onward};

use curves::Position;
use geometry::edge::Edge;
use geometry::fill::FillRule;
use geometry::{fill, winding};
use machine::Machine;
use records::AREA_WORDS;
use stream::{Context, Kind, PassedStream, Stream, Words};

// What a shortcut adds in row y.
fn shortcut_adds(w: Words, y: u32) -> i64
    ensures answer { result ≡ cond (is_row w.q w.r y) (to_z w32 w.p) (pos 0) }
{
    if (w.q <= y) & (y < w.r) {
        i64::from(w.p.cast_signed())
    } else {
        0
    }
}

// The edge of the line or the curve that an entry names. This and the functions of an area below take the one or two tables that they read: with a whole
// `Context` each contract would name its four. LineBelow stays a clause, since the entry and the tables come from different places.
pub fn edge_of(xs: &[u32], ys: &[u32], w: Words) -> Edge
    requires { LineBelow (length xs.now) (line_of w) × LineBelow (length ys.now) (line_of w) }
    ensures answer { result ≡ edge_of xs.now ys.now (line_of w) }
{
    if w.is_curve() {
        winding::curve_from(xs, ys, w.p as usize)
    } else {
        winding::edge_between(xs, ys, w.p as usize, w.q as usize)
    }
}

// What a line or a curve adds at a position.
fn line_adds(xs: &[u32], ys: &[u32], w: Words, at: Position) -> i64
    requires line_below { LineBelow (length xs.now) (line_of w) × LineBelow (length ys.now) (line_of w) }
    requires edge_in { EdgeIn (edge_of xs.now ys.now (line_of w)) }
    ensures answer { result ≡ adds (edge_of xs.now ys.now (line_of w)) at.x at.y }
{
    edge_of(xs, ys, w).adds(at)
}

// Whether an area with this winding passes. The word of the rule becomes a `FillRule` here: `geometry` and `records` do not name each other, so that
// neither can have the conversion.
pub fn area_passes(areas: &[u32], n: usize, sum: i64) -> bool
    requires { n * 8 + 8 ≤ length areas.now }
    ensures answer { result ≡ pass_at areas.now n sum }
{
    let rule = if areas[n * AREA_WORDS + records::RULE] == records::NON_ZERO {
        FillRule::NonZero
    } else {
        FillRule::EvenOdd
    };
    fill::fill_passes(rule, sum)
}

// The machine after an area with this winding. The role is compared in place, here and in `making` and `writing`: a call `is_paint(areas, n)` would ask
// for the same bound and hide one comparison.
fn after_area(areas: &[u32], m: Machine, n: u32, sum: i64) -> Machine
    requires n_bound { n < 64 }
    requires n_in_bounds { n * 8 + 8 ≤ length areas.now }
    ensures answer { (meant result ≡
        on_item (role_at areas.now n) (pass_at areas.now n sum) (opaque_at areas.now n) (λ s. with_area s n) (meant m))
        × (result.depth ≡ m.depth) }
{
    let at = (n as usize) * AREA_WORDS;
    let passes = area_passes(areas, n as usize, sum);
    if areas[at] == records::PAINT {
        m.after_paint(passes, areas[at + records::ALPHA] == records::OPAQUE, n)
    } else {
        m.after_clip(passes)
    }
}

// The start number of an area.
pub fn start_of(w: Words) -> i64
    ensures answer { result ≡ to_z w32 w.q }
{
    i64::from(w.q.cast_signed())
}

// ---- an area and its lines, curves and shortcuts
// What a line, a curve or a shortcut adds at a position.
fn segment_adds(context: Context, w: Words, at: Position) -> i64
    requires corners_in_bounds { (context.bounds.corners ≤ length context.xs.now)
        × (context.bounds.corners ≤ length context.ys.now) }
    requires w_value { segment_range context.xs.now context.ys.now context.bounds.corners w ≡ true }
    ensures answer { (result ≡ segment_adds (env_passed context).xs (env_passed context).ys at.x at.y w) × (nat_abs result ≤ 1) }
{
    if w.is_line() {
        line_adds(context.xs, context.ys, w, at)
    } else {
        shortcut_adds(w, at.y)
    }
}

// The winding of an area, and the entry behind its lines, curves and shortcuts. `Reading` below has a machine where this has a sum: one generic struct,
// or a pair, would name neither.
#[derive(Clone, Copy)]
pub struct Winding {
    pub sum: i64,
    pub next: usize,
}

// The winding at a position of an area with this start number, whose lines, curves and shortcuts begin at entry `from`.
fn winding_from(stream: Stream, from: usize, context: Context, start: i64, at: Position) -> Winding
    requires segments_in { SegmentsIn stream.entries.now from (stream.first + stream.count)
        context.xs.now context.ys.now context.bounds }
    requires start_bound { nat_abs start ≤ 2048 }
    ensures sum { result.sum ≡
        start +ℤ segments_sum (env_passed context).xs (env_passed context).ys at.x at.y
        (words_from stream.entry.entries.now from (end_passed stream - from)) }
    ensures next { result.next ≡
        from + run_length (words_from stream.entry.entries.now from (end_passed stream - from)) }
{
    let end = stream.first + stream.count;
    let mut sum = start;
    for i in from..end {
        let w = stream::read_entry(stream.entries, i);
        if !w.is_segment() {
            return Winding { sum, next: i };
        }
        sum += segment_adds(context, w, at);
    }
    Winding { sum, next: end }
}

// ---- one entry, and a stream
// The machine, and the entry from which it goes on.
#[derive(Clone, Copy)]
pub struct Reading {
    pub machine: Machine,
    pub next: usize,
}

// The machine after a delimiter or "passes". A line, a curve or a shortcut of an area that is not looked at leaves it as it is.
// The last arm is "passes": `read_next` hands over no area, and a stream that has passed holds no unknown kind.
fn moved(m: Machine, w: Words) -> Machine
    requires { m.depth < 4096 }
    ensures answer { (meant result ≡ moved_by w.kind (meant m)) × (result.depth ≤ m.depth + 1) }
{
    match w.named() {
        Some(Kind::Open) => m.after_open(),
        Some(Kind::Bar) => m.after_bar(),
        Some(Kind::Close) => m.after_close(),
        Some(Kind::Line | Kind::Shortcut | Kind::Curve) => m,
        _ => m.after_clip(true),
    }
}

// After the area of entry i, whose words are w. It is looked at in P only.
fn read_area(
    stream: Stream,
    i: usize,
    context: Context,
    m: Machine,
    w: Words,
    at: Position,
) -> Reading
    requires ranged { Ranged stream.entries.now i (stream.first + stream.count) (env_of context) }
    requires w_value { (w ≡ words_at stream.entries.now i) × (w.kind ≡ 4) }
    ensures onward { Onward (env_passed context).areas (env_passed context).xs (env_passed context).ys at.x at.y
        stream.entry.entries.now i (end_passed stream) m result }
{
    if m.state != machine::P {
        return Reading {
            machine: m,
            next: i + 1,
        };
    }
    let winding = winding_from(stream, i + 1, context, start_of(w), at);
    Reading {
        machine: after_area(context.areas, m, w.p, winding.sum),
        next: winding.next,
    }
}

// After entry i and, if it is an area that is looked at, its lines, curves and shortcuts.
fn read_next(stream: Stream, i: usize, context: Context, m: Machine, at: Position) -> Reading
    requires ranged { Ranged stream.entries.now i (stream.first + stream.count) (env_of context) }
    requires depth_bound { m.depth < 4096 }
    ensures onward { Onward (env_passed context).areas (env_passed context).xs (env_passed context).ys at.x at.y
        stream.entry.entries.now i (end_passed stream) m result }
{
    let w = stream::read_entry(stream.entries, i);
    // the number is compared, as in `Words::is_curve`
    if w.kind == u32::from(Kind::Area) {
        read_area(stream, i, context, m, w, at)
    } else {
        Reading {
            machine: moved(m, w),
            next: i + 1,
        }
    }
}

// The shown set at a position of a stream, up to the area that stops the machine.
pub fn read_stream(s: PassedStream, at: Position) -> u64
    ensures answer { result ≡ set_at (env_of s.entry.context).areas (env_of s.entry.context).xs (env_of s.entry.context).ys
        at.x at.y (words_in s.entry.stream) }
{
    let stream = s.stream;
    let end = stream.first + stream.count;
    let mut m = Machine::begun();
    let mut i = stream.first;
    // a `while`: an iterator has no step that goes on behind an area's run
    while i < end {
        if m.state == machine::STOPPED {
            return m.set;
        }
        let r = read_next(stream, i, s.context, m, at);
        m = r.machine;
        i = r.next;
    }
    m.set
}
