// The four children of a cell: their streams counted, child after child, before any is written, then written child by child, and their cells.

#![tactic(auto)]

ghost use Rattle.std.specs.Prelude.{◌≡◌, [], ◌∷◌, ◌+◌, ◌*◌, ◌/◌, ◌%◌, ◌≤◌, ◌<◌, length};
ghost use Rattle.stream.specs.Table.{words_from, words_in, written};
ghost use Rattle.stream.specs.Grammar.{env_of, Passed};
ghost use Rattle.celltable.specs.Ranges.{cell_of};
ghost use Rattle.ranges.specs.Held.{lent_of, lent_passed};
ghost use Rattle.four_children.specs.Children.{elements_of_child, words_of_child, entries_of_child, streams_to, words_with};
ghost use Rattle.four_children.specs.code.Numbers.{tally, tally_n, empty_tally, worked_to, cells_by, FewEach};
ghost use Rattle.cells.specs.Cells.{child};
ghost use Rattle.celltable.specs.Descent.{quarter_at};

use celltable::{CellWords, InUse, Parent};
use child_stream::{Count, Starts};
use stream::{Context, PassedStream};

// What a child's stream has; document 01 asks for an "array of four child tallies (entries, lines, starts) passed and returned by value". `entries`
// decides 11 and where the child's stream begins, `lines` is the child's line count. `starts` are those of that stream too (`EachPass`); none of the nine
// calls reads them.
#[derive(Clone, Copy)]
pub struct Tally {
    pub entries: usize,
    pub lines: usize,
    pub starts: Starts,
}

// The entries that a stream's weight counts, and the lines and curves among them.
pub fn entries_in(weight: u64) -> usize
    ensures answer { result ≡ weight % 65536 }
{
    (weight % 65536) as usize
}

pub fn lines_in(weight: u64) -> usize
    ensures answer { result ≡ weight / 65536 % 65536 }
{
    (weight / 65536 % 65536) as usize
}

// The tally of a stream that was counted.
impl From<Count> for Tally {
    ghost from_gives = { λ k t. t ≡ tally_n k };

    fn from(k: Count) -> Tally {
        Tally {
            entries: entries_in(k.weight),
            lines: lines_in(k.weight),
            starts: k.starts,
        }
    }
}

// The tally of child q of the cell whose words are w.
fn count_one(passed: PassedStream, w: Parent, q: u32) -> Tally
    ensures answer { result ≡ tally (elements_of_child
        (lent_of passed.entry.context) (cell_of w.words) (words_in passed.entry.stream) q) }
{
    let s = w.quarter(q);
    let n = child_stream::count_child(passed, s);
    Tally::from(n)
}

// The tallies before any child's pass.
pub fn no_tallies() -> [Tally; 4]
    ensures answer { result ≡ empty_tally ∷ empty_tally ∷ empty_tally ∷ empty_tally ∷ [] }
{
    let none = Tally {
        entries: 0,
        lines: 0,
        starts: Starts {
            count: 0,
            at: [0i16; records::MOST_AREAS],
        },
    };
    [none; 4]
}

// Child q's pass: the whole of its parent's stream, before the next child's. The children before it have their tallies, those after it none.
fn count_next(mut ts: [Tally; 4], q: u32, passed: PassedStream, w: Parent) -> [Tally; 4]
    requires q_bound { q < 4 }
    requires ts_value { ts ≡ worked_to (lent_of passed.context) (cell_of w.words) (words_in passed.stream) q }
    ensures answer { result ≡ worked_to
        (lent_of passed.entry.context) (cell_of w.words) (words_in passed.entry.stream) (q + 1) }
{
    let t = count_one(passed, w, q);
    ts[q as usize] = t;
    ts
}

// The tallies after the passes of the first n children, one child after another.
pub fn count_to(passed: PassedStream, w: Parent, n: u32) -> [Tally; 4]
    requires n_bound { n ≤ 4 }
    ensures answer { result ≡ worked_to
        (lent_of passed.entry.context) (cell_of w.words) (words_in passed.entry.stream) n }
{
    let mut ts = no_tallies();
    for q in 0..n {
        // Tried: `ts = count_next(..)` with no name between; the check of borrows does not cover a call's result that is laid in an array.
        let next = count_next(ts, q, passed, w);
        ts = next;
    }
    ts
}

// Writes the stream of child q, which has `made` entries, from entry `free` on. Here and in `write_four` the table of entries is lent to be written, so it,
// `first` and `count` are no `Stream`, which lends it to be read; and so the stream's range and that it passes are clauses about the table at entry.
fn write_child(
    entries: &mut [u32],
    first: usize,
    count: usize,
    free: usize,
    made: usize,
    context: Context,
    w: Parent,
    q: u32,
)
    requires passed { Passed entries.old first count (env_of context) }
    requires count_bound { first + count ≤ free }
    requires made_in_bounds { (free + made) * 4 ≤ length entries.old }
    requires made_value { made ≡ entries_of_child (lent_of context) (cell_of w.words) (words_from entries.old first count) q }
    ensures entries { entries.new ≡ written entries.old free (words_of_child
        (lent_passed context) (cell_of w.words) (words_from entries.old first count) q) }
{
    let s = w.quarter(q);
    child_stream::write_child(entries, first, count, free, made, context, s);
}

// Writes the streams of all four children, child by child, from entry `free` on.
pub fn write_four(
    entries: &mut [u32],
    first: usize,
    count: usize,
    free: usize,
    context: Context,
    w: Parent,
    ts: [Tally; 4],
)
    requires passed { Passed entries.old first count (env_of context) }
    requires count_bound { first + count ≤ free }
    requires ts_value { ts ≡ worked_to (lent_of context) (cell_of w.words) (words_from entries.old first count) 4 }
    requires count_in_bounds { (free + length (streams_to (lent_of context) (cell_of w.words) (words_from entries.old first count) 4)) * 4
        ≤ length entries.old }
    ensures entries { entries.new ≡ written entries.old free (streams_to
        (lent_passed context) (cell_of w.words) (words_from entries.old first count) 4) }
{
    let mut at = free;
    // Over indices, here and in `put_four`, and not by `iter` (as at `records::put_raw`).
    for q in 0..celltable::CHILDREN {
        let t = ts[q as usize];
        write_child(entries, first, count, at, t.entries, context, w, q);
        at += t.entries;
    }
}

// The words of child q of cell i, whose words are w; its stream begins at entry `first`.
fn child_words(w: Parent, i: u32, q: u32, first: u32, t: Tally) -> CellWords
    requires { (t.entries ≤ 4096) × (t.lines ≤ 4096) }
    ensures answer { result ≡ words_with (child (cell_of w.words) (quarter_at q)) first t.entries t.lines i }
{
    let s = w.quarter(q);
    CellWords {
        x: s.x,
        y: s.y,
        side: s.side,
        child: 0,
        first,
        count: t.entries as u32,
        lines: t.lines as u32,
        parent: i,
    }
}

// Writes the cells of all four children of cell i behind the cells in use; their streams stand child by child behind the entries in use. That each tally
// is small (`FewEach`) is no ghost field of Tally: `tally` of specs makes the tally of any list of elements.
pub fn put_four(cells: &mut [u32], i: u32, in_use: InUse, w: Parent, ts: [Tally; 4])
    requires used_in_bounds { (in_use.cells + 4) * 8 ≤ length cells.old }
    requires few_each { FewEach ts }
    ensures cells { cells.new ≡ cells_by (cell_of w.words) ts cells.old i in_use.cells in_use.entries 4 }
{
    let mut at = in_use.entries;
    for n in 0..celltable::CHILDREN {
        let t = ts[n as usize];
        let c = child_words(w, i, n, at, t);
        let new = (in_use.cells + n) as usize;
        celltable::put_cell(cells, new, c);
        at += t.entries as u32;
    }
}
