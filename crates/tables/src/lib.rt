// The seven tables of a drawing and of its tree: the numbers in use, and what a table holds.

#![tactic(auto)]

ghost use Rattle.std.specs.Prelude.{◌≡◌, ◌≤◌, length, get_or, set};
ghost use Rattle.stream.specs.Grammar.{bounds};
ghost use Rattle.celltable.specs.Ranges.{cells_held, entries_held};
ghost use Rattle.tables.specs.Tables.{tree_passed, cells_used, counts_in, against};

use drawing::Drawing;
use stream::{Bounds, Context};

// The seven tables of a tree and of its drawing, as they are lent to a call that reads them.
#[derive(Clone, Copy)]
pub struct Tree<'a> {
    pub drawing: Drawing<'a>,
    pub head: &'a [u32],
    pub cells: &'a [u32],
    pub entries: &'a [u32],
}

// Whether a table of cells of this length holds n cells in use: 1 to 4,096 of eight words each. Its own function beside `entries_held`: one for both would
// take the least number, the most and the words of one as well.
pub fn cells_held(n: u32, len: usize) -> bool
    ensures answer { result ≡ cells_held n len }
{
    let n = n as usize;
    (1 <= n) & ((n <= len / celltable::CELL_WORDS) & (n <= celltable::MOST_CELLS))
}

// Whether a table of entries of this length holds n entries in use: up to 65,536 of four words each.
pub fn entries_held(n: usize, len: usize) -> bool
    ensures answer { result ≡ entries_held n len }
{
    (n <= len / stream::ENTRY_WORDS) & (n <= stream::MOST_ENTRIES)
}

// Writes the numbers in use.
pub fn put_head(head: &mut [u32], cells: u32, entries: u32)
    requires { 2 ≤ length head.old }
    ensures head { head.new ≡ set (set head.old 0 cells) 1 entries }
{
    head[celltable::CELLS] = cells;
    head[celltable::ENTRIES] = entries;
}

// The areas and corners in use, and the rows of a cell. That a plan has three words at least and a head two is a clause, here and in split, find_leaf, grow
// and position, and no ghost field: a caller may lend tables of any length, and whether they are long enough `counts_fit` answers by yes or no.
pub fn bounds_in(plan: &[u32], low: u32, side: u32) -> Bounds
    requires { 3 ≤ length plan.now }
    ensures answer { result ≡ bounds (get_or plan.now 1 0) (get_or plan.now 2 0) low side }
{
    Bounds {
        areas: plan[read::AREAS] as usize,
        corners: plan[read::CORNERS] as usize,
        low,
        side,
    }
}

// What the stream of a cell with these rows is read against. The stream itself is made where it is read, by a literal: a function for it would take the
// same three values, the table, the first entry and the number of entries.
pub fn context_of(drawing: Drawing, low: u32, side: u32) -> Context
    requires { 3 ≤ length drawing.plan.now }
    ensures answer { result ≡ against drawing.entry low side }
{
    Context {
        areas: drawing.areas,
        xs: drawing.xs,
        ys: drawing.ys,
        bounds: bounds_in(drawing.plan, low, side),
    }
}

impl Tree<'_> {
    // The cells in use, or 0 where the head is too short for its two words.
    pub fn cells_used(self) -> u32
        ensures answer { result ≡ cells_used (tree_passed self).head }
    {
        if self.head.len() < celltable::HEAD_WORDS {
            return 0;
        }
        self.head[celltable::CELLS]
    }

    // Whether the numbers in use pass; where they do not, a call refuses with 12 (Broken). The numbers are read from the head where they are needed, and
    // not handed out by one method as `InUse` or `Cells`: the ghost fields of these hold only after this check, so the method would have to require it.
    pub fn counts_fit(self) -> bool
        ensures answer { result ≡ counts_in (tree_passed self) }
    {
        let d = self.drawing;
        let n = self.entries.len();
        if !celltable::head_fits(self.head, self.cells.len(), n) {
            return false;
        }
        if d.plan.len() < read::PLAN_COUNTS {
            return false;
        }
        let free = self.head[celltable::ENTRIES] as usize;
        let context = context_of(d, 0, 0);
        context.used_range(n, free)
    }
}
