// Splitting a cell of a tree in lent tables: all checks in their order, read-only (`judge`), and then what is written (`make_split`).

#![tactic(auto)]

ghost use Rattle.std.specs.Prelude.{◌≡◌, true, ◌+◌, ◌*◌, ◌≤◌, ◌<◌, length, get_or};
ghost use Rattle.stream.specs.Table.{words_from, words_in};
ghost use Rattle.celltable.specs.Table.{put_child_at};
ghost use Rattle.celltable.specs.Ranges.{square_range, cell_of};
ghost use Rattle.ranges.specs.Held.{lent_of, lent_passed};
ghost use Rattle.four_children.specs.Children.{streams_to};
ghost use Rattle.four_children.specs.code.Numbers.{no_tally, worked_to, cells_by, FewEach};
ghost use Rattle.tables.specs.Tables.{tree, bounds_of, tree_passed, tree_passed_mut};
ghost use Rattle.split.specs.Split.{words, drawing as drawing_of, stream, room_answer, leaf_answer, cell_answer};
ghost use Rattle.split.specs.Split.{split_answer, head_after, cells_after, entries_after};
ghost use Rattle.split.specs.code.Accepted.{Accepted};
ghost use Rattle.split.specs.code.Judged.{planned};

use celltable::{CellWords, Cells, InUse, Parent};
use drawing::Drawing;
use four_children::Tally;
use refusals::Refusal;
use stream::{Context, PassedStream, Stream};
use tables::Tree;

// A split that no check refuses: the number of the first child, and the tallies of the four children.
#[derive(Clone, Copy)]
pub struct Planned {
    pub child: u32,
    pub children: [Tally; 4],
}

// The entries of all four children.
fn entries_of(ts: [Tally; 4]) -> usize
    requires { FewEach ts }
    ensures answer { result ≡ (get_or ts 0 no_tally).entries + (get_or ts 1 no_tally).entries + (get_or ts 2 no_tally).entries
        + (get_or ts 3 no_tally).entries }
{
    ts[0].entries + ts[1].entries + ts[2].entries + ts[3].entries
}

// ---- all checks, in their order
// The number of the first child, where the four cells and their streams, which have `made` entries, have room, else 11 (Room). `cells` and `entries` are
// the lengths of the tables.
fn judge_room(cells: usize, entries: usize, in_use: InUse, made: usize) -> Result<u32, Refusal>
    requires { made ≤ 65536 }
    ensures answer { result ≡ room_answer cells entries in_use.cells in_use.entries made }
{
    if !tables::cells_held(in_use.cells + celltable::CHILDREN, cells) {
        return Err(Refusal::Room);
    }
    if !tables::entries_held((in_use.entries as usize) + made, entries) {
        return Err(Refusal::Room);
    }
    Ok(in_use.cells)
}

// The children of a leaf with this stream are worked out; refused with 11 (Room) where they have none. `cells` is the length of the table of cells.
fn judge_children(
    passed: PassedStream,
    cells: usize,
    in_use: InUse,
    w: Parent,
) -> Result<Planned, Refusal>
    ensures answer { result ≡ planned
        (room_answer cells (length passed.entry.stream.entries.now) in_use.cells in_use.entries
        (length (streams_to (lent_of passed.entry.context) (cell_of w.words) (words_in passed.entry.stream) 4)))
        (worked_to (lent_of passed.entry.context) (cell_of w.words) (words_in passed.entry.stream) 4) }
{
    let children = four_children::count_to(passed, w, celltable::CHILDREN);
    let made = entries_of(children);
    let child = judge_room(cells, passed.stream.entries.len(), in_use, made)?;
    Ok(Planned { child, children })
}

// The leaf with the words w. Refusals, in this order: 12 (Broken) where its stream or its line count does not pass, 10 (Smallest), 11 (Room).
fn judge_leaf(tree: Tree, context: Context, in_use: InUse, w: CellWords) -> Result<Planned, Refusal>
    requires { square_range w ≡ true }
    ensures answer { let t = tree_passed tree in let c = context.entry in result ≡ planned
        (leaf_answer c.areas.now c.xs.now c.ys.now c.bounds w t.entries (length t.cells) in_use.cells in_use.entries)
        (worked_to (lent_passed context) (cell_of w) (words_from t.entries w.first w.count) 4) }
{
    let stream = Stream {
        entries: tree.entries,
        first: w.first as usize,
        count: w.count as usize,
    };
    let Some(c) = stream::check_stream(stream, in_use.entries as usize, context) else {
        return Err(Refusal::Broken);
    };
    if c.lines != w.lines {
        return Err(Refusal::Broken);
    }
    if w.side == 1 {
        return Err(Refusal::Smallest);
    }
    judge_children(
        PassedStream { stream, context },
        tree.cells.len(),
        in_use,
        Parent { words: w },
    )
}

// Cell i. Refusals, in this order: 12 (Broken) where its numbers do not pass, 9 (AlreadySplit), and those of the leaf.
fn judge_cell(tree: Tree, i: usize, in_use: InUse) -> Result<Planned, Refusal>
    requires plan_long { 3 ≤ length tree.drawing.plan.now }
    requires i_lt_used { (i < in_use.cells) × (in_use.cells * 8 ≤ length tree.cells.now) }
    ensures answer { let t = tree_passed tree in let w = words t i in result ≡ planned
        (cell_answer t.areas t.xs t.ys (bounds_of t.plan w) w t.entries t.cells i in_use.cells in_use.entries)
        (worked_to (drawing_of t i) (cell_of w) (stream t i) 4) }
{
    let cells = Cells {
        table: tree.cells,
        used: in_use.cells as usize,
        entries: in_use.entries as usize,
    };
    let w = cells.cell(i);
    if !cells.fits(i) {
        return Err(Refusal::Broken);
    }
    if w.child != 0 {
        return Err(Refusal::AlreadySplit);
    }
    let context = tables::context_of(tree.drawing, w.y, w.side);
    judge_leaf(tree, context, in_use, w)
}

// All checks of a split of cell i, in this order: 7, 8, 12, 9, 10, 11.
pub fn judge(tree: Tree, i: u32) -> Result<Planned, Refusal>
    ensures answer { let t = tree_passed tree in result ≡ planned (split_answer t i)
        (worked_to (drawing_of t i) (cell_of (words t i)) (stream t i) 4) }
{
    let drawing = tree.drawing;
    if drawing.xs.len() != drawing.ys.len() {
        return Err(Refusal::Argument);
    }
    let used = tree.cells_used();
    if used <= i {
        return Err(Refusal::NoCell);
    }
    if !tree.counts_fit() {
        return Err(Refusal::Broken);
    }
    let in_use = InUse {
        cells: used,
        entries: tree.head[celltable::ENTRIES],
    };
    judge_cell(tree, i as usize, in_use)
}

// ---- what is written
// The four children behind the cells in use, and the first of them at cell i.
fn put_cells(cells: &mut [u32], i: u32, in_use: InUse, w: Parent, ts: [Tally; 4])
    requires used_in_bounds { (in_use.cells + 4) * 8 ≤ length cells.old }
    requires few_each { FewEach ts }
    requires i_in_bounds { i * 8 + 8 ≤ length cells.old }
    ensures cells { cells.new ≡ put_child_at (cells_by (cell_of w.words) ts cells.old i in_use.cells in_use.entries 4) i in_use.cells }
{
    four_children::put_four(cells, i, in_use, w, ts);
    celltable::put_child(cells, i as usize, in_use.cells);
}

// Writes a split of cell i that no check refuses, with the tallies of its four children.
fn make_split(
    drawing: Drawing,
    head: &mut [u32],
    cells: &mut [u32],
    entries: &mut [u32],
    i: u32,
    ts: [Tally; 4],
)
    requires accepted { Accepted (tree drawing.plan.now drawing.areas.now drawing.xs.now drawing.ys.now head.old cells.old entries.old) i }
    requires ts_value { let t = tree drawing.plan.now drawing.areas.now drawing.xs.now drawing.ys.now head.old cells.old entries.old in
        ts ≡ worked_to (drawing_of t i) (cell_of (words t i)) (stream t i) 4 }
    ensures head { head.new ≡ head_after (tree_passed_mut drawing head cells entries) i (Ok 0) }
    ensures cells { cells.new ≡ cells_after (tree_passed_mut drawing head cells entries) i (Ok 0) }
    ensures entries { entries.new ≡ entries_after (tree_passed_mut drawing head cells entries) i (Ok 0) }
{
    // The numbers in use and the cell are read again as `judge` and `judge_cell` read them: `planned` of specs builds `Planned` without them.
    let in_use = InUse {
        cells: head[celltable::CELLS],
        entries: head[celltable::ENTRIES],
    };
    let free = in_use.entries as usize;
    let table = Cells {
        table: cells,
        used: in_use.cells as usize,
        entries: free,
    };
    let words = table.cell(i as usize);
    let context = tables::context_of(drawing, words.y, words.side);
    let w = Parent { words };
    let first = words.first as usize;
    let count = words.count as usize;
    four_children::write_four(entries, first, count, free, context, w, ts);
    put_cells(cells, i, in_use, w, ts);
    let made = entries_of(ts) as u32;
    tables::put_head(
        head,
        in_use.cells + celltable::CHILDREN,
        in_use.entries + made,
    );
}

// Splits cell i: four cells of half its side, each with the stream that document 01 defines; answers the number of the first. Any tables may be
// handed in. Refusals, in this order: 7, 8, 12, 9, 10, 11. Nothing is changed on a refusal.
// Tables that are lent to be written are parameters by themselves, here, in what is called from here (`make_split`, `put_cells`, and the functions of
// `four_children` and of the crates below that write), in `open` and in `grow`: as fields, each contract would have to say of each that the struct still
// lends the same table.
pub fn split(
    drawing: Drawing,
    head: &mut [u32],
    cells: &mut [u32],
    entries: &mut [u32],
    i: u32,
) -> Result<u32, Refusal>
    ensures answer { result ≡ split_answer (tree_passed_mut drawing head cells entries) i }
    ensures head { head.new ≡ head_after (tree_passed_mut drawing head cells entries) i result }
    ensures cells { cells.new ≡ cells_after (tree_passed_mut drawing head cells entries) i result }
    ensures entries { entries.new ≡ entries_after (tree_passed_mut drawing head cells entries) i result }
{
    let plan = judge(
        Tree {
            drawing,
            head,
            cells,
            entries,
        },
        i,
    )?;
    make_split(drawing, head, cells, entries, i, plan.children);
    Ok(plan.child)
}
