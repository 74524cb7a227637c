// Growing a tree in lent tables: one ascending sweep over the cells.

#![tactic(auto)]

ghost use Rattle.std.specs.Prelude.{◌≡◌, true, ◌+◌, ◌*◌, ◌≤◌, ◌<◌, eqb, length};
ghost use Rattle.refusals.specs.Refusals.{number_of};
ghost use Rattle.celltable.specs.Table.{cell_at};
ghost use Rattle.celltable.specs.Ranges.{side_range};
ghost use Rattle.tables.specs.Tables.{tree, tree_passed_mut, cells_used, entries_used, counts_in};
ghost use Rattle.split_laws.specs.After.{split_tree};
ghost use Rattle.grow.specs.declared.Tried.TheVariants.{Wanted};
ghost use Rattle.grow.specs.Grow.{depth_at, wanted_by, tried_cell, tried, grown, answer_of, grow_answer, grow_tree};
ghost use Rattle.grow.specs.code.Numbers.{past_n, split_n, stop_if, turn_by, tree_by};

use celltable::Cells;
use drawing::Drawing;
use refusals::Refusal;
use tables::Tree;

// Growing's answer, with the splits made: done, or full.
#[derive(Clone, Copy)]
pub enum Growth {
    Done(u32),
    Full(u32),
}

// Which leaves growing splits: those with more lines than the threshold, at a depth below this one.
#[derive(Clone, Copy)]
pub struct Limits {
    pub threshold: u32,
    pub depth: u32,
}

// What growing meets at a cell: a number that does not pass, a cell to pass over, or a leaf to split.
// An enum of its own and no `Result<bool, Refusal>`: the definitions (`tried_cell`, `or_next`) and the theorems of a round take its three outcomes apart by
// name.
#[derive(Clone, Copy)]
pub enum Tried {
    Bad,
    Past,
    Wanted,
}

// Where the sweep stands: the next cell, the cells and the entries in use, and the splits so far. The numbers in use are no `InUse`, and that they are at
// most 4,096 is a clause and no ghost field: the definitions (`past_n`, `split_n`) build the sweep, and each would carry a proof of its bounds.
#[derive(Clone, Copy)]
pub struct Sweep {
    pub cell: u32,
    pub used: u32,
    pub free: u32,
    pub splits: u32,
}

// ---- one cell
// How many steps down from cell 0 a cell of this side, a power of two, lies.
fn depth_of(side: u32) -> u32
    requires { side_range side ≡ true }
    ensures answer { result ≡ depth_at side }
{
    celltable::DEEPEST - u32::trailing_zeros(side)
}

impl Limits {
    // Whether a leaf of this side with so many lines is to be split.
    fn wants(self, side: u32, lines: u32) -> bool
        requires { side_range side ≡ true }
        ensures answer { result ≡ wanted_by self.threshold self.depth side lines }
    {
        self.threshold < lines && depth_of(side) < self.depth
    }
}

// The next cell of the sweep. No stream is read.
fn try_cell(cells: &[u32], s: Sweep, limits: Limits) -> Tried
    requires { (s.cell < s.used) × (s.used * 8 ≤ length cells.now) }
    ensures answer { result ≡
        tried_cell limits.threshold limits.depth cells.now s.cell s.used s.free (cell_at cells.now s.cell) }
{
    let i = s.cell as usize;
    let cells = Cells {
        table: cells,
        used: s.used as usize,
        entries: s.free as usize,
    };
    let w = cells.cell(i);
    if !cells.fits(i) {
        return Tried::Bad;
    }
    if w.child != 0 {
        return Tried::Past;
    }
    if limits.wants(w.side, w.lines) {
        Tried::Wanted
    } else {
        Tried::Past
    }
}

// ---- one turn: where the sweep stands after it, none where a split finds no room, or why the sweep ends
impl Sweep {
    // The cell is passed over.
    fn past(self) -> Sweep
        requires { self.cell ≤ 4096 }
        ensures answer { result ≡ past_n self }
    {
        Sweep {
            cell: self.cell + 1,
            ..self
        }
    }

    // The cell was split: four cells more, and the entries that the head says.
    fn split_past(self, head: &[u32]) -> Sweep
        requires cell_bound { (self.cell ≤ 4096) × (self.used ≤ 4096) × (self.splits ≤ 4096) }
        requires in_bounds { 2 ≤ length head.now }
        ensures answer { result ≡ split_n self (entries_used head.now) }
    {
        Sweep {
            cell: self.cell + 1,
            used: self.used + celltable::CHILDREN,
            free: head[celltable::ENTRIES],
            splits: self.splits + 1,
        }
    }
}

// Why the sweep ends where a split is refused.
fn ended_by(r: Refusal) -> Result<Option<Sweep>, Refusal>
    ensures answer { result ≡ stop_if (eqb (number_of r) 11) }
{
    if r == Refusal::Room {
        Ok(None)
    } else {
        Err(Refusal::Broken)
    }
}

// The leaf is split. A stream that does not pass, 12 (Broken), comes before too little room, 11.
fn split_wanted(
    drawing: Drawing,
    head: &mut [u32],
    cells: &mut [u32],
    entries: &mut [u32],
    s: Sweep,
) -> Result<Option<Sweep>, Refusal>
    requires cell_bound { (s.cell ≤ 4096) × (s.used ≤ 4096) × (s.splits ≤ 4096) }
    requires in_bounds { 2 ≤ length head.old }
    ensures answer { result ≡ turn_by Wanted (tree_passed_mut drawing head cells entries) s }
    ensures head { head.new ≡ (split_tree (tree_passed_mut drawing head cells entries) s.cell).head }
    ensures cells { cells.new ≡ (split_tree (tree_passed_mut drawing head cells entries) s.cell).cells }
    ensures entries { entries.new ≡ (split_tree (tree_passed_mut drawing head cells entries) s.cell).entries }
{
    let a = split::split(drawing, head, cells, entries, s.cell);
    match a {
        Ok(_) => {
            let after = s.split_past(head);
            Ok(Some(after))
        }
        Err(r) => ended_by(r),
    }
}

// One turn of the sweep: the next cell is tried, and split where it is wanted.
fn take_turn(
    drawing: Drawing,
    head: &mut [u32],
    cells: &mut [u32],
    entries: &mut [u32],
    limits: Limits,
    s: Sweep,
) -> Result<Option<Sweep>, Refusal>
    requires entries_value { counts_in (tree drawing.plan.now drawing.areas.now drawing.xs.now drawing.ys.now head.old cells.old entries.old) ≡ true }
    requires used_value { (s.used ≡ cells_used head.old) × (s.free ≡ entries_used head.old) }
    requires cell_lt_used { (s.cell < s.used) × (s.splits ≤ s.cell) }
    ensures answer { let t = tree_passed_mut drawing head cells entries in
        result ≡ turn_by (tried t limits.threshold limits.depth s.cell) t s }
    ensures head { let t = tree_passed_mut drawing head cells entries in
        head.new ≡ (tree_by (tried t limits.threshold limits.depth s.cell) t s.cell).head }
    ensures cells { let t = tree_passed_mut drawing head cells entries in
        cells.new ≡ (tree_by (tried t limits.threshold limits.depth s.cell) t s.cell).cells }
    ensures entries { let t = tree_passed_mut drawing head cells entries in
        entries.new ≡ (tree_by (tried t limits.threshold limits.depth s.cell) t s.cell).entries }
{
    let t = try_cell(cells, s, limits);
    match t {
        Tried::Bad => Err(Refusal::Broken),
        Tried::Past => {
            let next = s.past();
            Ok(Some(next))
        }
        Tried::Wanted => split_wanted(drawing, head, cells, entries, s),
    }
}

// ---- the sweep
// From cell 0 upward, the cells that splits make on the way included. No cell is read twice.
fn sweep_up(
    drawing: Drawing,
    head: &mut [u32],
    cells: &mut [u32],
    entries: &mut [u32],
    limits: Limits,
) -> Result<Growth, Refusal>
    requires { counts_in (tree drawing.plan.now drawing.areas.now drawing.xs.now drawing.ys.now head.old cells.old entries.old) ≡ true }
    ensures answer { result ≡ answer_of (grown limits.threshold limits.depth (tree_passed_mut drawing head cells entries)) }
    ensures head { head.new ≡ (grown limits.threshold limits.depth (tree_passed_mut drawing head cells entries)).after.head }
    ensures cells { cells.new ≡ (grown limits.threshold limits.depth (tree_passed_mut drawing head cells entries)).after.cells }
    ensures entries { entries.new ≡ (grown limits.threshold limits.depth (tree_passed_mut drawing head cells entries)).after.entries }
{
    let used = head[celltable::CELLS];
    let free = head[celltable::ENTRIES];
    let mut s = Sweep {
        cell: 0,
        used,
        free,
        splits: 0,
    };
    // No `for` over a range: each split moves the end.
    while s.cell < s.used {
        let turn = take_turn(drawing, head, cells, entries, limits, s)?;
        match turn {
            Some(next) => s = next,
            None => return Ok(Growth::Full(s.splits)),
        }
    }
    Ok(Growth::Done(s.splits))
}

// Splits the lowest numbered leaf with more lines than the threshold and a depth below the limit, again and again: done when there is none,
// full when that split would be refused with 11, with the splits made. Any tables may be handed in.
// Refusals: 7, and 12, before which cells may have been split.
pub fn grow(
    drawing: Drawing,
    head: &mut [u32],
    cells: &mut [u32],
    entries: &mut [u32],
    limits: Limits,
) -> Result<Growth, Refusal>
    ensures answer { result ≡ grow_answer (tree_passed_mut drawing head cells entries) limits.threshold limits.depth }
    ensures head { head.new ≡ (grow_tree (tree_passed_mut drawing head cells entries) limits.threshold limits.depth).head }
    ensures cells { cells.new ≡ (grow_tree (tree_passed_mut drawing head cells entries) limits.threshold limits.depth).cells }
    ensures entries { entries.new ≡ (grow_tree (tree_passed_mut drawing head cells entries) limits.threshold limits.depth).entries }
{
    if drawing.xs.len() != drawing.ys.len() {
        return Err(Refusal::Argument);
    }
    if celltable::DEEPEST < limits.depth {
        return Err(Refusal::Argument);
    }
    let tree = Tree {
        drawing,
        head,
        cells,
        entries,
    };
    if !tree.counts_fit() {
        return Err(Refusal::Broken);
    }
    sweep_up(drawing, head, cells, entries, limits)
}
