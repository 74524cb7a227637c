// Opening a tree over a lent drawing.

#![tactic(auto)]

ghost use Rattle.std.specs.Prelude.{◌≡◌, ◌≤◌, length};
ghost use Rattle.drawing.specs.Tables.{tables_of, drawing_verdict};
ghost use Rattle.stream.specs.Grammar.{bounds};
ghost use Rattle.celltable.specs.Table.{put_cell_at};
ghost use Rattle.tables.specs.Tables.{tree, tree_passed, tree_passed_mut};
ghost use Rattle.open.specs.Open.{root_words, room_for, room_answer, open_answer, head_opened, cells_opened, entries_opened};
ghost use Rattle.open.specs.code.Judged.{Plans};

use celltable::CellWords;
use drawing::Drawing;
use grammar::Counts;
use refusals::Refusal;
use stream::Bounds;
use tables::Tree;

// An opening that no check refuses: the entries of cell 0's stream, the lines and curves among them, and the counts of the drawing.
#[derive(Clone, Copy)]
pub struct Planned {
    pub entries: u32,
    pub lines: u32,
    pub counts: Counts,
}

// Whether a head, a table of cells and a table of entries of these lengths hold a new tree with n entries.
fn has_room(head: usize, cells: usize, entries: usize, n: usize) -> bool
    ensures answer { result ≡ room_for head cells entries n }
{
    let c = tables::cells_held(1, cells);
    let e = tables::entries_held(n, entries);
    (celltable::HEAD_WORDS <= head) & (c & e)
}

// The areas and corners in use, and the rows of cell 0.
fn root_bounds(k: Counts) -> Bounds
    ensures answer { result ≡ bounds k.areas k.corners 0 65536 }
{
    Bounds {
        areas: k.areas,
        corners: k.corners,
        low: 0,
        side: celltable::GRID,
    }
}

// 11. The drawing has passed, with these counts.
fn judge_room(tree: Tree, counts: Counts) -> Result<Planned, Refusal>
    requires { drawing_verdict (tables_of tree.drawing) ≡ Ok counts }
    ensures answer { let t = tree_passed tree in Plans t (room_answer t) result }
{
    let drawing = tree.drawing;
    let bounds = root_bounds(counts);
    // The counting answers a weight: the number of entries, above it that of lines and curves among them, and above that the areas' share, not used here.
    let size = root_stream::count_open(drawing, counts.records, bounds);
    let n = four_children::entries_in(size);
    if !has_room(tree.head.len(), tree.cells.len(), tree.entries.len(), n) {
        return Err(Refusal::Room);
    }
    Ok(Planned {
        entries: n as u32,
        lines: four_children::lines_in(size) as u32,
        counts,
    })
}

// All checks, in their order: 7, 12, 11. That of the drawing tries 7 first, and answers 12 for all else.
fn judge(tree: Tree) -> Result<Planned, Refusal>
    ensures answer { let t = tree_passed tree in Plans t (open_answer t) result }
{
    match tree.drawing.check() {
        Ok(counts) => judge_room(tree, counts),
        Err(refused) => Err(refused.refusal),
    }
}

// Cell 0, a leaf of n entries, so many of them lines or curves.
fn put_root(cells: &mut [u32], n: u32, lines: u32)
    requires { 8 ≤ length cells.old }
    ensures cells { cells.new ≡ put_cell_at cells.old 0 (root_words n lines) }
{
    let w = CellWords {
        x: 0,
        y: 0,
        side: celltable::GRID,
        child: 0,
        first: 0,
        count: n,
        lines,
        parent: 0,
    };
    celltable::put_cell(cells, 0, w);
}

// Writes the new tree as it was planned.
fn put_opened(
    drawing: Drawing,
    head: &mut [u32],
    cells: &mut [u32],
    entries: &mut [u32],
    plan: Planned,
)
    requires { let t = tree drawing.plan.now drawing.areas.now drawing.xs.now drawing.ys.now head.old cells.old entries.old in
        Plans t (open_answer t) (Ok plan) }
    ensures head { head.new ≡ head_opened (tree_passed_mut drawing head cells entries) (Ok plan.entries) }
    ensures cells { cells.new ≡ cells_opened (tree_passed_mut drawing head cells entries) (Ok plan.entries) }
    ensures entries { entries.new ≡ entries_opened (tree_passed_mut drawing head cells entries) (Ok plan.entries) }
{
    let n = plan.entries;
    let counts = plan.counts;
    let bounds = root_bounds(counts);
    root_stream::write_open(entries, n as usize, drawing, counts.records, bounds);
    put_root(cells, n, plan.lines);
    tables::put_head(head, 1, n);
}

// Opens a tree: cell 0 alone, with the stream that document 01 defines; answers its entries. Any tables may be handed in. What the tree's tables
// held is not looked at. Refusals, in this order: 7, 12, 11. Nothing is changed on a refusal.
pub fn open(
    drawing: Drawing,
    head: &mut [u32],
    cells: &mut [u32],
    entries: &mut [u32],
) -> Result<u32, Refusal>
    ensures answer { result ≡ open_answer (tree_passed_mut drawing head cells entries) }
    ensures head { head.new ≡ head_opened (tree_passed_mut drawing head cells entries) result }
    ensures cells { cells.new ≡ cells_opened (tree_passed_mut drawing head cells entries) result }
    ensures entries { entries.new ≡ entries_opened (tree_passed_mut drawing head cells entries) result }
{
    let plan = judge(Tree {
        drawing,
        head,
        cells,
        entries,
    })?;
    put_opened(drawing, head, cells, entries, plan);
    Ok(plan.entries)
}
