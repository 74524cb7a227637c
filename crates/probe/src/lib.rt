// Calls for the tests only, exported for C: the check of a lent stream, its reading at a position, the making of a child's stream, and the tallies of
// the children after each pass, so that the tests can run each by itself, on streams that no call for makers makes. No maker builds them in. Any tables
// and numbers may be handed in; a slice passes as a pointer and then its length, so each call takes each table and each number by itself.

#![tactic(auto)]

ghost use Rattle.std.specs.Prelude.{◌≡◌, true, cond, ◌≤◌, ◌<◌, length, IfSome};
ghost use Rattle.stream.specs.Grammar.{env, env_of, env_passed, bounds, check_stream};
ghost use Rattle.probe.specs.Answers.{read_answer, square, leaf_on, square_fits, child_elements, child_room, number_of, answer_by, table_by, child_fits};
ghost use Rattle.probe.specs.Answers.{number_in, tally_number, tally_answer};

use celltable::{CellWords, Parent};
use curves::Position;
use four_children::Tally;
use geometry::class::Square;
use stream::{Bounds, Context, PassedStream, Stream};

// The last position, in x and in y.
const LAST: u32 = celltable::GRID - 1;

// What a stream of a cell with these rows is read against.
fn context_of<'a>(
    areas: &'a [u32],
    xs: &'a [u32],
    ys: &'a [u32],
    areas_used: usize,
    corners_used: usize,
    low: u32,
    side: u32,
) -> Context<'a>
    ensures answer { result ≡
        record { areas = areas.entry; xs = xs.entry; ys = ys.entry; bounds = bounds areas_used corners_used low side } }
{
    Context {
        areas,
        xs,
        ys,
        bounds: Bounds {
            areas: areas_used,
            corners: corners_used,
            low,
            side,
        },
    }
}

// Whether the stream passes the check.
fn stream_passes(stream: Stream, used: usize, context: Context) -> bool
    ensures answer { result ≡
        check_stream stream.entry.entries.now stream.entry.first stream.entry.count used (env_passed context) }
{
    stream::check_stream(stream, used, context).is_some()
}

// 1 if the count entries from first on are a stream of the cell with this low row and this side, else 0.
#[unsafe(no_mangle)]
pub extern "C" fn probe_check(
    entries: &[u32],
    first: usize,
    count: usize,
    used: usize,
    areas: &[u32],
    xs: &[u32],
    ys: &[u32],
    areas_used: usize,
    corners_used: usize,
    low: u32,
    side: u32,
) -> u32
    ensures answer { result ≡
        cond (check_stream entries.now first count used
        (env areas.now xs.now ys.now (bounds areas_used corners_used low side))) 1 0 }
{
    let stream = Stream {
        entries,
        first,
        count,
    };
    let context = context_of(areas, xs, ys, areas_used, corners_used, low, side);
    u32::from(stream_passes(stream, used, context))
}

// The shown set at (x, y) of the stream, if it passes the check and (x, y) is a position; else 0.
#[unsafe(no_mangle)]
pub extern "C" fn probe_read(
    entries: &[u32],
    first: usize,
    count: usize,
    used: usize,
    areas: &[u32],
    xs: &[u32],
    ys: &[u32],
    areas_used: usize,
    corners_used: usize,
    low: u32,
    side: u32,
    x: u32,
    y: u32,
) -> u64
    ensures answer { result ≡
        read_answer entries.now first count used
        (env areas.now xs.now ys.now (bounds areas_used corners_used low side)) x y }
{
    let stream = Stream {
        entries,
        first,
        count,
    };
    let context = context_of(areas, xs, ys, areas_used, corners_used, low, side);
    if stream_passes(stream, used, context) && (x <= LAST) & (y <= LAST) {
        evaluate::read_stream(PassedStream { stream, context }, Position { x, y })
    } else {
        0
    }
}

// ---- the making of a child's stream
// A leaf on the square, with an empty stream.
fn leaf_on(s: Square) -> CellWords
    ensures answer { result ≡ leaf_on s }
{
    CellWords {
        x: s.x,
        y: s.y,
        side: s.side,
        child: 0,
        first: 0,
        count: 0,
        lines: 0,
        parent: 0,
    }
}

// Whether this is the square of a cell: its side a power of two up to 65,536, its corner on the grid of that side, all of it below 65,536. It stays a
// clause: `geometry` and what makes streams take any Square that is `SquareIn`, and a second type of square would be turned into it at each call.
#[tactic(auto, unfolding(crate::specs::Answers::square_fits))]
fn square_fits(s: Square) -> bool
    ensures answer { result ≡ square_fits s }
{
    celltable::square_fits(leaf_on(s))
}

// How many entries the child's stream has.
fn entries_made(passed: PassedStream, s: Square) -> usize
    requires s_value { square_fits s ≡ true }
    ensures answer { let t = passed.entry.stream in
        result ≡ length (child_elements t.entries.now t.first t.count (env_of passed.entry.context) s) }
    ensures range { result < 65536 }
{
    four_children::entries_in(child_stream::count_child(passed, s).weight)
}

// Writes the child's stream behind the entries in use, if it fits there: the number of its entries. The table is lent to be written, so it and the
// stream's place in it are parameters: as a field of a `Stream`, the clause `entries` would have to say that the same table is lent.
fn write_if_room(
    entries: &mut [u32],
    first: usize,
    count: usize,
    used: usize,
    context: Context,
    s: Square,
) -> Option<usize>
    requires b_value { check_stream entries.old first count used (env_of context) ≡ true }
    requires s_value { square_fits s ≡ true }
    ensures range { IfSome result (λ n. n < 65536) }
    ensures answer { number_of result ≡
        answer_by (child_room entries.old first count used (env_passed context) s)
        entries.old first count (env_passed context) s }
    ensures entries { entries.new ≡
        table_by (child_room entries.old first count used (env_passed context) s)
        entries.old first count used (env_passed context) s }
{
    let stream = Stream {
        entries,
        first,
        count,
    };
    let n = entries_made(PassedStream { stream, context }, s);
    if used + n <= entries.len() / stream::ENTRY_WORDS {
        child_stream::write_child(entries, first, count, used, n, context, s);
        Some(n)
    } else {
        None
    }
}

// The stream of the square (x, y, half), made of the stream that is handed in and written behind the `used` entries in use: the number of its
// entries and 1 more. 0, and nothing changed, if the stream does not pass the check, the square is not that of a cell, or the entries do not fit.
#[unsafe(no_mangle)]
pub extern "C" fn probe_child(
    entries: &mut [u32],
    first: usize,
    count: usize,
    used: usize,
    areas: &[u32],
    xs: &[u32],
    ys: &[u32],
    areas_used: usize,
    corners_used: usize,
    low: u32,
    side: u32,
    x: u32,
    y: u32,
    half: u32,
) -> u64
    ensures answer { result ≡
        answer_by (child_fits entries.old first count used
        (env areas.now xs.now ys.now (bounds areas_used corners_used low side)) (square x y half))
        entries.old first count (env areas.now xs.now ys.now
        (bounds areas_used corners_used low side)) (square x y half) }
    ensures entries { entries.new ≡
        table_by (child_fits entries.old first count used
        (env areas.now xs.now ys.now (bounds areas_used corners_used low side)) (square x y half))
        entries.old first count used (env areas.now xs.now ys.now
        (bounds areas_used corners_used low side)) (square x y half) }
{
    let stream = Stream {
        entries,
        first,
        count,
    };
    let context = context_of(areas, xs, ys, areas_used, corners_used, low, side);
    let s = Square { x, y, side: half };
    if !stream_passes(stream, used, context) || !square_fits(s) {
        return 0;
    }
    match write_if_room(entries, first, count, used, context, s) {
        Some(n) => n as u64 + 1,
        None => 0,
    }
}

// ---- the tallies of the four children
// A number of a tally: 0 its entries, 1 its lines, 2 how many start numbers it has, 3 + j start number j. The C call asks for one number, by its
// place. A tally's counts are of any size by their type, so no conversion of std fits them: `as` and `from` ask that the number fits.
fn number_in(t: Tally, number: usize) -> i64
    ensures answer { result ≡ number_in t number }
{
    match number {
        0 => (t.entries % 65536) as i64,
        1 => (t.lines % 65536) as i64,
        2 => (t.starts.count % 65536) as i64,
        _ if number - 3 < records::MOST_AREAS => i64::from(t.starts.at[number - 3]),
        _ => 0,
    }
}

// The number of child k after the passes of the first q children of the square.
fn tally_number(passed: PassedStream, s: Square, q: u32, k: u32, number: usize) -> i64
    requires s_value { square_fits s ≡ true }
    requires lt_side { (1 < s.side) × (q ≤ 4) × (k < 4) }
    ensures answer { let t = passed.entry.stream in
        result ≡ tally_number t.entries.now t.first t.count (env_of passed.entry.context) s q k number }
{
    let words = leaf_on(s);
    let tallies = four_children::count_to(passed, Parent { words }, q);
    number_in(tallies[k as usize], number)
}

// A number of the tally of child k of the stream's cell, after the passes of the first q children. 0 if the stream does not pass the check, the square
// (x, low, side) is not that of a cell with children, q is over 4 or there is no child k.
#[unsafe(no_mangle)]
pub extern "C" fn probe_tally(
    entries: &[u32],
    first: usize,
    count: usize,
    used: usize,
    areas: &[u32],
    xs: &[u32],
    ys: &[u32],
    areas_used: usize,
    corners_used: usize,
    low: u32,
    side: u32,
    x: u32,
    q: u32,
    k: u32,
    number: usize,
) -> i64
    ensures answer { result ≡
        tally_answer entries.now first count used
        (env areas.now xs.now ys.now (bounds areas_used corners_used low side)) (square x low side) q k number }
{
    let stream = Stream {
        entries,
        first,
        count,
    };
    let context = context_of(areas, xs, ys, areas_used, corners_used, low, side);
    let s = Square { x, y: low, side };
    if stream_passes(stream, used, context)
        && square_fits(s)
        && (1 < side) & (q <= celltable::CHILDREN) & (k < celltable::CHILDREN)
    {
        tally_number(PassedStream { stream, context }, s, q, k, number)
    } else {
        0
    }
}
