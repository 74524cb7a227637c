// Finding the leaf that holds a position.

#![tactic(auto)]

ghost use Rattle.std.specs.Prelude.{◌≡◌, true, false, ◌≤◌, length, MatchOption};
ghost use Rattle.tables.specs.Tables.{tree_passed};
ghost use Rattle.find_leaf.specs.Leaf.{position_range, find_answer};
ghost use Rattle.find_leaf.specs.code.Numbers.{leaf_checked, leaf_read, report_n};

use celltable::{Cells, Leaf};
use curves::Position;
use refusals::Refusal;
use stream::{Checked, Stream};
use tables::Tree;

// A leaf as it is reported: its number, low corner, side, depth, how many entries and lines it has, and whether it has no line, curve or shortcut.
// `uniform` is an answer by itself, document 02's "yes or no" of the leaf reading, and says nothing of the other fields. The corner and the side are three
// fields and no `Square`: the call reports its eight words in this order, and the definitions (`report_n`) build them so.
#[derive(Clone, Copy)]
pub struct FoundLeaf {
    pub cell: u32,
    pub x: u32,
    pub y: u32,
    pub side: u32,
    pub steps: u32,
    pub entries: u32,
    pub lines: u32,
    pub uniform: bool,
}

// A leaf that was found and whose stream has passed, with how many lines and curves its stream holds, and whether it holds no line, curve or shortcut,
// which is the answer `uniform` of `FoundLeaf`.
#[derive(Clone, Copy)]
pub struct LeafRead {
    pub leaf: Leaf,
    pub lines: u32,
    pub uniform: bool,
}

// A leaf that was read, as it is reported.
impl From<LeafRead> for FoundLeaf {
    ghost from_gives = { λ r f. f ≡ report_n r.leaf r.lines r.uniform };

    fn from(read: LeafRead) -> FoundLeaf {
        let LeafRead {
            leaf,
            lines,
            uniform,
        } = read;
        FoundLeaf {
            cell: leaf.cell,
            x: leaf.x,
            y: leaf.y,
            side: leaf.side,
            steps: leaf.steps,
            entries: leaf.count,
            lines,
            uniform,
        }
    }
}

// What the check of a leaf's stream says.
fn check_leaf(tree: Tree, free: usize, leaf: Leaf) -> Option<Checked>
    requires { 3 ≤ length tree.drawing.plan.now }
    ensures answer { result ≡ leaf_checked (tree_passed tree) free leaf }
{
    let stream = Stream {
        entries: tree.entries,
        first: leaf.first as usize,
        count: leaf.count as usize,
    };
    let context = tables::context_of(tree.drawing, leaf.y, leaf.side);
    stream::check_stream(stream, free, context)
}

// The leaf that holds (x, y), which may be any words, with what its stream holds. Refused with 12 (Broken) where the numbers in use, a cell on the path, the
// leaf's stream or its line count does not pass.
pub fn read_leaf(tree: Tree, x: u32, y: u32) -> Result<LeafRead, Refusal>
    ensures answer { result ≡ leaf_read (tree_passed tree) x y }
{
    if !tree.counts_fit() {
        return Err(Refusal::Broken);
    }
    let cells = Cells {
        table: tree.cells,
        used: tree.head[celltable::CELLS] as usize,
        entries: tree.head[celltable::ENTRIES] as usize,
    };
    let leaf = cells.descend(x, y).ok_or(Refusal::Broken)?;
    let checked = check_leaf(tree, cells.entries, leaf).ok_or(Refusal::Broken)?;
    if checked.lines != leaf.lines {
        return Err(Refusal::Broken);
    }
    Ok(LeafRead {
        leaf,
        lines: checked.lines,
        uniform: checked.segments == 0,
    })
}

// The position (x, y), where each of the two is from 0 to 65,535.
pub fn position_at(x: u32, y: u32) -> Option<Position>
    ensures { MatchOption result (position_range x y ≡ false)
        (λ at. (position_range x y ≡ true) × ((at.x ≡ x) × (at.y ≡ y))) }
{
    if (x < celltable::GRID) & (y < celltable::GRID) {
        Some(Position { x, y })
    } else {
        None
    }
}

// Finds the leaf that holds (x, y). Any tables may be handed in. Refusals, in this order: 7, 12.
pub fn find_leaf(tree: Tree, x: u32, y: u32) -> Result<FoundLeaf, Refusal>
    ensures answer { result ≡ find_answer (tree_passed tree) x y }
{
    if tree.drawing.xs.len() != tree.drawing.ys.len() {
        return Err(Refusal::Argument);
    }
    let at = position_at(x, y).ok_or(Refusal::Argument)?;
    let read = read_leaf(tree, at.x, at.y)?;
    Ok(FoundLeaf::from(read))
}
