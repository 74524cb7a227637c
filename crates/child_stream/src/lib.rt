// The stream of a child, made from its parent's stream in the same table: counted, and then written to the free end.

#![tactic(auto)]

ghost use Rattle.std.specs.Prelude.{◌≡◌, ◌+◌, ◌*◌, ◌≤◌, ◌<◌, length, nat_abs};
ghost use Rattle.geometry.specs.code.Reach.{SquareIn};
ghost use Rattle.cells.specs.Cells.{square_of};
ghost use Rattle.cells.specs.code.Making.{element_size};
ghost use Rattle.pruning.specs.code.Weights.{total};
ghost use Rattle.stream.specs.Table.{words_from, words_in, written};
ghost use Rattle.stream.specs.Grammar.{env_of, Passed};
ghost use Rattle.ranges.specs.Held.{lent_of, lent_passed};
ghost use Rattle.making.specs.Made.{elements_made, words_made};
ghost use Rattle.making.specs.code.Numbers.{cell_in, start_in};
ghost use Rattle.child_stream.specs.code.Numbers.{starts, noted_n, first_of, starts_in};

use geometry::class::Square;
use making::Maker;
use stream::{Context, PassedStream};

// ---- the start numbers of the areas
// How many, and the numbers, with zeros behind them: the `starts` of document 01's "child tallies (entries, lines, starts)". They are proved to be those
// of the child's stream (`count_child`: `starts_in`), which is written from its parent's stream and not from them. 16 bits hold each.
// A tally goes by value, four in an array (document 01), and the kit's `ArrayVec<i16, 64>` is not `Copy`.
#[derive(Clone, Copy, Debug, PartialEq, Eq)]
pub struct Starts {
    pub count: usize,
    pub at: [i16; records::MOST_AREAS],
}

// The start number of the area that waits, behind those of the areas that stand. An area that is taken out again makes place for the
// next. The bound on the start number is a clause, as at `making::Waiting`.
fn note(at: &mut [i16; records::MOST_AREAS], m: &Maker)
    requires { nat_abs (start_in m.now.waiting) ≤ 8192 }
    ensures at { at.new ≡ noted_n at.old m.now.pruner m.now.waiting }
{
    let start = m.waiting.map_or(0, |a| a.start);
    let k = (m.pruner.weight / making::AREA) as usize;
    if k < records::MOST_AREAS {
        at[k] = start as i16;
    }
}

// The first `count` of them, with zeros behind them.
fn ended(mut at: [i16; records::MOST_AREAS], count: usize) -> Starts
    ensures answer { result ≡ starts count (first_of count at) }
{
    for i in count..records::MOST_AREAS {
        at[i] = 0;
    }
    Starts { count, at }
}

// ---- the child's stream
// `weight`: that of its entries (crate `making`). `starts`: the start numbers of its areas.
#[derive(Clone, Copy, Debug, PartialEq, Eq)]
pub struct Count {
    pub weight: u64,
    pub starts: Starts,
}

// What the child's stream weighs, and its start numbers, in one pass over its parent's.
pub fn count_child(passed: PassedStream, s: Square) -> Count
    requires square_in { SquareIn s }
    requires s_value { square_of (cell_in s) ≡ s }
    ensures weight { result.weight ≡
        total element_size (elements_made (lent_of passed.entry.context) (cell_in s) (words_in passed.entry.stream)) }
    ensures starts { result.starts ≡
        starts_in (elements_made (lent_of passed.entry.context) (cell_in s) (words_in passed.entry.stream)) }
{
    let parent = passed.stream;
    let context = passed.context;
    let mut m = Maker::begun();
    let mut at = [0i16; records::MOST_AREAS];
    for i in parent.first..parent.first + parent.count {
        let w = stream::read_entry(parent.entries, i);
        note(&mut at, &m);
        m.go_on(context, s, w);
    }
    note(&mut at, &m);
    let weight = m.weight(context.areas);
    let starts = ended(at, (weight / making::AREA) as usize);
    Count { weight, starts }
}

// Writes the child's stream to the free end of the table, which begins at entry `free`. It has `made` entries. Beyond them the table stays as it was.
// The table is lent to be written, so no `PassedStream` can borrow it: two numbers name the stream, and that it passed, and that it ends before `free`, are
// clauses. This pass is like that of `count_child`, as `writing::write_entry` is like `Maker::go_on`; the reason stands there.
pub fn write_child(
    entries: &mut [u32],
    first: usize,
    count: usize,
    free: usize,
    made: usize,
    context: Context,
    s: Square,
)
    requires passed { Passed entries.old first count (env_of context) }
    requires square_in { SquareIn s }
    requires s_value { square_of (cell_in s) ≡ s }
    requires count_bound { first + count ≤ free }
    requires made_in_bounds { (free + made) * 4 ≤ length entries.old }
    requires made_value { made ≡ length (elements_made (lent_of context) (cell_in s) (words_from entries.old first count)) }
    ensures entries { entries.new ≡ written entries.old free (words_made
        (lent_passed context) (cell_in s) (words_from entries.old first count)) }
{
    let (used, end) = entries.split_at_mut(free * stream::ENTRY_WORDS);
    let (out, _) = end.split_at_mut(made * stream::ENTRY_WORDS);
    let mut m = Maker::begun();
    for i in first..first + count {
        let w = stream::read_entry(used, i);
        writing::write_entry(out, &mut m, context, s, w);
    }
    writing::put_settled(out, context.areas, &m);
}
