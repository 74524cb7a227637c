// The lent table of cells, eight words each: reading and writing a cell, the check of a cell and of the numbers in use, the quarters of a cell,
// and the path down to the leaf that holds a position.

#![tactic(auto)]

ghost use Rattle.std.specs.Prelude.{◌≡◌, true, ◌+◌, ◌*◌, ◌≤◌, ◌<◌, length};
ghost use Rattle.cells.specs.Cells.{square_of, child};
ghost use Rattle.celltable.specs.Table.{cell_at, put_cell_at, put_child_at};
ghost use Rattle.celltable.specs.Ranges.{side_range, square_range, root_range, child_range, entry_range, cell_range, head_range, CellsIn, cell_of};
ghost use Rattle.celltable.specs.Ranges.{half_at, on_quarter, held_by, parent_range};
ghost use Rattle.celltable.specs.Descent.{quarter_at, descend_in};
ghost use Rattle.celltable.specs.code.Numbers.{deeper_n, stands_n, parent_n, numbers_n, step_n, CursorIn};

use geometry::class::Square;
use std::ops::ControlFlow;

// The side of cell 0, one past the last position. `records::GRID` is the same number with another meaning: the largest coordinate of a corner.
pub const GRID: u32 = 65536;

// The cells of a tree at most.
pub const MOST_CELLS: usize = 4096;

// The depth of the smallest cells.
pub const DEEPEST: u32 = 16;

// The cells on the longest path down: cell 0, and one for each step.
const LONGEST_PATH: u32 = DEEPEST + 1;

// The children of a cell.
pub const CHILDREN: u32 = 4;

// The words of the head.
pub const CELLS: usize = 0;

pub const ENTRIES: usize = 1;

pub const HEAD_WORDS: usize = 2;

// The words of a cell behind the first, which is x.
const Y: usize = 1;

const SIDE: usize = 2;

const CHILD: usize = 3;

const FIRST: usize = 4;

const COUNT: usize = 5;

const LINES: usize = 6;

const PARENT: usize = 7;

pub const CELL_WORDS: usize = 8;

// The words of a cell. `child` is the first of its four children, or 0 for a leaf; `lines` is how many lines and curves its stream has; `parent` is 0
// for cell 0.
#[derive(Clone, Copy)]
pub struct CellWords {
    pub x: u32,
    pub y: u32,
    pub side: u32,
    pub child: u32,
    pub first: u32,
    pub count: u32,
    pub lines: u32,
    pub parent: u32,
}

// The words of a cell that can be split: it lies on the grid, and its side is over 1.
#[derive(Clone, Copy)]
pub struct Parent {
    pub words: CellWords,
    pub ghost on_grid: { square_range words ≡ true },
    pub ghost halves: { 1 < words.side },
}

// The numbers of cells and of entries in use, at most what a tree may have.
#[derive(Clone, Copy)]
pub struct InUse {
    pub cells: u32,
    pub entries: u32,
    pub ghost few_cells: { cells ≤ 4096 },
    pub ghost few_entries: { entries ≤ 65536 },
}

// A table of cells, with the numbers of cells and of entries in use.
#[derive(Clone, Copy)]
pub struct Cells<'a> {
    pub table: &'a [u32],
    pub used: usize,
    pub entries: usize,
    pub ghost in_table: { used * 8 ≤ length table.now },
}

// Where a path down stands: the number of the next cell and of the cell that it came from (0 for cell 0), the square that it has to be, and the steps so
// far. Here and in `Leaf` the three numbers of the square are fields by themselves, as in a cell's words: the definitions (`deeper_n`, `leaf_of`) build them
// so.
#[derive(Clone, Copy)]
pub struct Cursor {
    pub cell: u32,
    pub parent: u32,
    pub x: u32,
    pub y: u32,
    pub side: u32,
    pub steps: u32,
}

// The leaf that a path down found: its number, its square, its depth, its stream, and how many lines it says that it has.
#[derive(Clone, Copy)]
pub struct Leaf {
    pub cell: u32,
    pub x: u32,
    pub y: u32,
    pub side: u32,
    pub steps: u32,
    pub first: u32,
    pub count: u32,
    pub lines: u32,
}

// ---- the table of cells
// Writes the eight words of cell i. The table is lent to be written, so it is a parameter by itself: as a field, each contract would have to say that
// the struct still lends the same table.
pub fn put_cell(cells: &mut [u32], i: usize, w: CellWords)
    requires { i * 8 + 8 ≤ length cells.old }
    ensures cells { cells.new ≡ put_cell_at cells.old i w }
{
    let at = i * CELL_WORDS;
    cells[at] = w.x;
    cells[at + Y] = w.y;
    cells[at + SIDE] = w.side;
    cells[at + CHILD] = w.child;
    cells[at + FIRST] = w.first;
    cells[at + COUNT] = w.count;
    cells[at + LINES] = w.lines;
    cells[at + PARENT] = w.parent;
}

// Writes the first child of cell i, and nothing else.
pub fn put_child(cells: &mut [u32], i: usize, child: u32)
    requires { i * 8 + 8 ≤ length cells.old }
    ensures cells { cells.new ≡ put_child_at cells.old i child }
{
    let at = i * CELL_WORDS;
    cells[at + CHILD] = child;
}

// ---- the check of a cell
// Whether a side is a power of two up to 65,536: whether it divides 65,536.
fn side_fits(s: u32) -> bool
    ensures answer { result ≡ side_range s }
{
    s != 0 && GRID % s == 0
}

// Whether a cell's side is a power of two, and its low corner is on the grid of that side.
pub fn square_fits(w: CellWords) -> bool
    ensures answer { result ≡ square_range w }
{
    side_fits(w.side) && ((w.x % w.side == 0) & (w.x < GRID)) & ((w.y % w.side == 0) & (w.y < GRID))
}

// Whether a cell's four children, where it has some, are in use.
fn children_fit(child: u32, used: usize) -> bool
    ensures answer { result ≡ child_range child used }
{
    (child == 0) | ((child as usize) + 3 < used)
}

// Whether a cell's entries are in use.
fn entries_fit(first: u32, count: u32, entries: usize) -> bool
    ensures answer { result ≡ entry_range first count entries }
{
    (first as usize) + (count as usize) <= entries
}

// Whether cell i, where it is cell 0, is the whole grid.
fn root_fits(w: CellWords, i: usize) -> bool
    ensures answer { result ≡ root_range w i }
{
    i != 0 || (w.x == 0) & ((w.y == 0) & (w.side == GRID))
}

// A coordinate of the low corner of a half of the parent, which may be any words.
fn half_at(v: u32, side: u32, high: bool) -> usize
    ensures answer { result ≡ half_at v side high }
{
    let low = v as usize;
    if high { low + (side as usize) } else { low }
}

// Whether a cell with the words w lies on the quarter at place q of one with the words p.
fn on_quarter(p: CellWords, w: CellWords, q: usize) -> bool
    ensures answer { result ≡ on_quarter p w q }
{
    let x = half_at(p.x, w.side, q % 2 == 1);
    let y = half_at(p.y, w.side, 2 <= q);
    ((p.side as usize) == 2 * (w.side as usize)) & (((w.x as usize) == x) & ((w.y as usize) == y))
}

// Whether cell i, whose words are w, is one of the four of a split cell with the words p, and on its own square.
fn held_by(p: CellWords, w: CellWords, i: usize, used: usize) -> bool
    ensures answer { result ≡ held_by p w i used }
{
    let first = p.child as usize;
    (1 <= first) & ((first + 3 < used) & ((first <= i) & (i <= first + 3)))
        && on_quarter(p, w, i - first)
}

impl Cells<'_> {
    // The words of cell i.
    pub fn cell(self, i: usize) -> CellWords
        requires { i * 8 + 8 ≤ length self.table.now }
        ensures answer { result ≡ cell_at self.entry.table.now i }
    {
        let at = i * CELL_WORDS;
        CellWords {
            x: self.table[at],
            y: self.table[at + Y],
            side: self.table[at + SIDE],
            child: self.table[at + CHILD],
            first: self.table[at + FIRST],
            count: self.table[at + COUNT],
            lines: self.table[at + LINES],
            parent: self.table[at + PARENT],
        }
    }

    // Whether the parent of cell i, whose words are w, is itself for cell 0, else a split cell that holds it as one of its four.
    // That w are the words of cell i, here and twice below, is a clause: it is a fact about three values, the table, the number and the words, which stand in
    // different structs.
    fn parent_fits(self, i: usize, w: CellWords) -> bool
        requires { w ≡ cell_at self.table.now i }
        ensures answer { result ≡ parent_range self.entry.table.now i self.entry.used }
    {
        if i == 0 {
            return w.parent == 0;
        }
        let up = w.parent as usize;
        up < self.used && held_by(self.cell(up), w, i, self.used)
    }

    // Whether the numbers of cell i are in range.
    pub fn fits(self, i: usize) -> bool
        requires { i < self.used }
        ensures answer { result ≡ cell_range self.entry.table.now i self.entry.used self.entry.entries }
    {
        let w = self.cell(i);
        square_fits(w)
            & (children_fit(w.child, self.used)
                & (entries_fit(w.first, w.count, self.entries)
                    & (root_fits(w, i) & self.parent_fits(i, w))))
    }
}

// Whether the numbers in use, in the head, are in range for tables of cells and of entries of these lengths.
// The two tests are those of `tables::cells_held` and `entries_held`, which stand one layer above, each with its own promise.
pub fn head_fits(head: &[u32], cells: usize, entries: usize) -> bool
    ensures answer { result ≡ head_range head.now cells entries }
{
    if head.len() < HEAD_WORDS {
        return false;
    }
    let n = head[CELLS] as usize;
    let m = head[ENTRIES] as usize;
    ((1 <= n) & ((n <= cells / CELL_WORDS) & (n <= MOST_CELLS)))
        & ((m <= entries / stream::ENTRY_WORDS) & (m <= stream::MOST_ENTRIES))
}

// ---- the quarters of a cell
// Where the low or the high half of a side begins, on the grid, where the sum is a word; `half_at` takes any two words.
fn half_of(at: u32, half: u32, high: bool) -> u32
    requires { at + half ≤ 65536 }
    ensures answer { result ≡ half_at at half high }
{
    half_at(at, half, high) as u32
}

impl Parent {
    // The square of the child at place q: low x low y, high x low y, low x high y, high x high y.
    pub fn quarter(self, q: u32) -> Square
        ensures answer { result ≡ square_of (child (cell_of self.words) (quarter_at q)) }
    {
        let w = self.words;
        let half = w.side / 2;
        Square {
            x: half_of(w.x, half, q % 2 == 1),
            y: half_of(w.y, half, 2 <= q),
            side: half,
        }
    }
}

// ---- the path down
impl Cursor {
    // Whether a cell is on the square that the path expects. Number by number, since neither of the two has a `Square` as a field.
    fn stands_on(self, w: CellWords) -> bool
        ensures answer { result ≡ stands_n self w }
    {
        (w.x == self.x) & ((w.y == self.y) & (w.side == self.side))
    }

    // One level deeper: the child that holds (px, py), of the four from `first` on.
    fn deeper(self, first: u32, px: u32, py: u32) -> Self
        requires side_bound { (self.x + self.side ≤ 65536) × (self.y + self.side ≤ 65536) }
        requires first_bound { (first < 65536) × (self.steps ≤ 16) }
        ensures answer { result ≡ deeper_n self first px py }
    {
        let half = self.side / 2;
        let east = self.x + half <= px;
        let north = self.y + half <= py;
        Cursor {
            cell: first + u32::from(east) + 2 * u32::from(north),
            parent: self.cell,
            x: half_of(self.x, half, east),
            y: half_of(self.y, half, north),
            side: half,
            steps: self.steps + 1,
        }
    }

    // Whether the parent that a cell on the path names holds it. The cell that the path came from does.
    fn parent_holds(self, cells: Cells, w: CellWords) -> bool
        requires { w ≡ cell_at cells.table.now self.cell }
        ensures answer { result ≡ parent_n cells.entry.table.now cells.entry.used self w }
    {
        w.parent == self.parent || cells.parent_fits(self.cell as usize, w)
    }

    // Whether the children, the entries and the parent of a cell on the path are in range. On the square that the path expects it has a side and a
    // corner in range.
    fn numbers_fit(self, cells: Cells, w: CellWords) -> bool
        requires { w ≡ cell_at cells.table.now self.cell }
        ensures answer { result ≡ numbers_n cells.entry.table.now cells.entry.used cells.entry.entries self w }
    {
        children_fit(w.child, cells.used)
            & (entries_fit(w.first, w.count, cells.entries) & self.parent_holds(cells, w))
    }

    // The cell is read and tried; a leaf ends the path (Break), another cell gives the cursor one level deeper (Continue).
    fn step(self, cells: Cells, px: u32, py: u32) -> Option<ControlFlow<Leaf, Cursor>>
        requires cells_in { CellsIn cells.table.now cells.used }
        requires cursor_in { CursorIn self cells.used }
        ensures answer { result ≡ step_n cells.entry.table.now cells.entry.used cells.entry.entries self px py }
    {
        let w = cells.cell(self.cell as usize);
        if !self.stands_on(w) {
            return None;
        }
        if !self.numbers_fit(cells, w) {
            return None;
        }
        if w.child != 0 {
            return Some(ControlFlow::Continue(self.deeper(w.child, px, py)));
        }
        Some(ControlFlow::Break(Leaf {
            cell: self.cell,
            x: w.x,
            y: w.y,
            side: w.side,
            steps: self.steps,
            first: w.first,
            count: w.count,
            lines: w.lines,
        }))
    }
}

impl Cells<'_> {
    // The leaf that holds (x, y), over at most 16 steps from cell 0. The numbers in use are the head's, and the head has passed.
    // x and y are any words: a `Position` is in range, which the promise here does not ask.
    pub fn descend(self, x: u32, y: u32) -> Option<Leaf>
        requires { CellsIn self.table.now self.used }
        ensures answer { result ≡ descend_in self.entry.table.now self.entry.used self.entry.entries x y }
    {
        let mut c = Cursor {
            cell: 0,
            parent: 0,
            x: 0,
            y: 0,
            side: GRID,
            steps: 0,
        };
        // The invariant says by k how many cells are left.
        for k in 0..LONGEST_PATH {
            match c.step(self, x, y)? {
                ControlFlow::Continue(next) => {
                    c = next;
                }
                ControlFlow::Break(leaf) => {
                    return Some(leaf);
                }
            }
        }
        None
    }
}
