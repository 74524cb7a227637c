// The leaves of a tree of a depth of at most 4 in key order, as lines in a table of five words a line: 256 lines at most. A leaf that is deeper, of a
// side below 4,096, has no line. The leaf lister grows to depth limit 4 and has no such leaf; after growing deeper the list is not all leaves.

#![tactic(auto)]

ghost use Rattle.std.specs.Prelude.{◌≡◌, ◌+◌, ◌*◌, ◌≤◌, ◌<◌, length};
ghost use Rattle.tables.specs.Tables.{tree_passed};
ghost use Rattle.listing.specs.Listed.{every_other, corner_x, corner_y, if_low, corner_at, listed};
ghost use Rattle.listing.specs.Numbers.{put_at, written, line_at};

use find_leaf::FoundLeaf;
use tables::Tree;

// The places that a low corner can have at a depth of at most 4.
const LOW_CORNERS: u32 = 256;

// The step from one of them to the next, in x and in y.
const STEP: u32 = 4096;

// The words of a line. A list is rows of words in a table that the caller lends, as document 01's tables are lent, and the contract of `list_leaves`
// says what the table holds then: an `ArrayVec<Line, 256>` would put another promise in its place.
const LINE_WORDS: usize = 5;

// The words of the longest list.
pub const LIST_WORDS: usize = LOW_CORNERS as usize * LINE_WORDS;

// A line: a leaf that is listed.
#[derive(Clone, Copy)]
pub struct Line {
    pub cell: u32,
    pub key: u32,
    pub side: u32,
    pub entries: u32,
    pub lines: u32,
}

// Bits 0, 2, 4 and 6 of k, side by side.
fn every_other(k: u8) -> u32
    ensures answer { result ≡ every_other k }
    ensures range { result < 16 }
{
    let k = u32::from(k);
    k % 2 + 2 * (k / 4 % 2) + (4 * (k / 16 % 2) + 8 * (k / 64 % 2))
}

// Corner k of the 256 places that a low corner can have at a depth of at most 4, in steps of 4,096. The bits of k are taken apart as a key puts
// those of x and y together, so the key of corner k is k * 2^24, and counting k upward goes through the corners in key order.
#[tactic(auto, unfolding(crate::specs::Listed::corner_x))]
fn corner_x(k: u8) -> u32
    ensures answer { result ≡ corner_x k }
    ensures range { result < 65536 }
{
    STEP * every_other(k)
}

#[tactic(auto, unfolding(crate::specs::Listed::corner_y))]
fn corner_y(k: u8) -> u32
    ensures answer { result ≡ corner_y k }
    ensures range { result < 65536 }
{
    STEP * every_other(k / 2)
}

// The line of a leaf, if (x, y) is its low corner. The clause is that of a key; a `Position` reaches 2^26, so it would not give it.
fn if_low(leaf: FoundLeaf, x: u32, y: u32) -> Option<Line>
    requires { (x < 65536) × (y < 65536) }
    ensures answer { result ≡ if_low x y leaf }
{
    if leaf.x == x && leaf.y == y {
        return Some(Line {
            cell: leaf.cell,
            key: geometry::morton::key(x, y),
            side: leaf.side,
            entries: leaf.entries,
            lines: leaf.lines,
        });
    }
    None
}

// The line of corner k, if it is a leaf's low corner.
fn corner_at(tree: Tree, k: u8) -> Option<Line>
    ensures answer { result ≡ corner_at (tree_passed tree) k }
{
    let x = corner_x(k);
    let y = corner_y(k);
    let leaf = find_leaf::find_leaf(tree, x, y).ok()?;
    if_low(leaf, x, y)
}

fn put_line(rows: &mut [u32], n: usize, l: Line)
    requires { n * 5 + 5 ≤ length rows.old }
    ensures rows { rows.new ≡ put_at rows.old n l }
{
    let at = n * LINE_WORDS;
    rows[at..at + LINE_WORDS].copy_from_slice(&[l.cell, l.key, l.side, l.entries, l.lines]);
}

// Writes the lines of all leaves of a depth of at most 4, in key order, and gives how many there are; deeper leaves are left out. Any tables may be
// handed in: a corner whose leaf would be refused has no line. The table may be longer than the longest list; what it holds behind the lines stays. A
// corner may have no line, so `n` is counted beside `k`.
pub fn list_leaves(tree: Tree, rows: &mut [u32]) -> usize
    requires { 1280 ≤ length rows.old }
    ensures answer { result ≡ length (listed (tree_passed tree)) }
    ensures rows { rows.new ≡ written rows.old 0 (listed (tree_passed tree)) }
    ensures most { result ≤ 256 }
{
    let mut n = 0;
    for k in 0..LOW_CORNERS {
        if let Some(line) = corner_at(tree, k as u8) {
            put_line(rows, n, line);
            n += 1;
        }
    }
    n
}

// Line n of a table.
pub fn read_line(rows: &[u32], n: usize) -> Line
    requires { n * 5 + 5 ≤ length rows.now }
    ensures answer { result ≡ line_at rows.now n }
{
    let at = n * LINE_WORDS;
    let mut words = [0; LINE_WORDS];
    words.copy_from_slice(&rows[at..at + LINE_WORDS]);
    let [cell, key, side, entries, lines] = words;
    Line {
        cell,
        key,
        side,
        entries,
        lines,
    }
}
