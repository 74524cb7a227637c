// The calls that answer from a tree at one position.

#![tactic(auto)]

ghost use Rattle.std.specs.Prelude.{◌≡◌, ◌≤◌, length, IfOk};
ghost use Rattle.paint.specs.Areas.{Painted};
ghost use Rattle.stream.specs.Grammar.{Passed};
ghost use Rattle.tables.specs.Tables.{tree_of, tree_passed};
ghost use Rattle.find_leaf.specs.code.Numbers.{leaf_env};
ghost use Rattle.position.specs.Spots.{spot_of, set_read, position_answer};
ghost use Rattle.position.specs.code.Numbers.{between, in_square, LastIn, Readable, shown_there, read_there};

use celltable::Leaf;
use curves::Position;
use paint::{area, colour};
use refusals::Refusal;
use stream::{PassedStream, Stream};
use tables::Tree;

// What shows at a position: the set of areas, the material of the front one, and the colour. And how far that reaches: whether the leaf's stream holds no
// line, curve or shortcut, and the leaf's low corner and its side. `uniform` is an answer by itself, as in `FoundLeaf`. The colour and the square are words
// one by one and no `Colour` and `Square`: the call reports its words in this order, and the definitions (`spot_of`) build them so.
#[derive(Clone, Copy)]
pub struct Spot {
    pub set: u64,
    pub material: u32,
    pub red: u32,
    pub green: u32,
    pub blue: u32,
    pub uniform: bool,
    pub x: u32,
    pub y: u32,
    pub side: u32,
}

// A leaf, and the set that shows at all its positions where it is uniform.
#[derive(Clone, Copy)]
pub struct Shown {
    pub leaf: Leaf,
    pub set: Option<u64>,
}

// What is read at a position: the leaf as above, and the set that shows there.
#[derive(Clone, Copy)]
pub struct Read {
    pub shown: Shown,
    pub set: u64,
}

// ---- a leaf that was found
// The shown set at a position, read from the stream of a leaf. The stream and its context are made as in `find_leaf::check_leaf`, which checks where this
// reads: one function for these two lines would hand out a pair and promise what each of the two is. That the stream has passed is asked about a tree and
// a leaf that come apart, so it stays a clause here; `PassedStream` holds it from here on.
fn set_in(tree: Tree, leaf: Leaf, at: Position) -> u64
    requires in_bounds { 3 ≤ length tree.drawing.plan.now }
    requires passed { Passed tree.entries.now leaf.first leaf.count (leaf_env (tree_of tree) leaf) }
    ensures answer { result ≡ set_read (tree_passed tree) leaf at.x at.y }
    ensures painted { Painted (tree_passed tree).areas result }
{
    let stream = Stream {
        entries: tree.entries,
        first: leaf.first as usize,
        count: leaf.count as usize,
    };
    let context = tables::context_of(tree.drawing, leaf.y, leaf.side);
    evaluate::read_stream(PassedStream { stream, context }, at)
}

// A set with its material and its colour, and the leaf from which it was read.
fn spot_of(areas: &[u32], leaf: Leaf, uniform: bool, set: u64) -> Spot
    requires { Painted areas.now set }
    ensures answer { result ≡ spot_of areas.now leaf uniform set }
{
    let c = colour::colour_of(areas, set);
    Spot {
        set,
        material: area::material_of(areas, set),
        red: u32::from(c.red),
        green: u32::from(c.green),
        blue: u32::from(c.blue),
        uniform,
        x: leaf.x,
        y: leaf.y,
        side: leaf.side,
    }
}

// Whether v is one of the side's numbers from low on.
fn is_between(low: u32, side: u32, v: u32) -> bool
    ensures answer { result ≡ between low side v }
{
    low <= v && v - low < side
}

// Whether (x, y) lies in the square of a leaf.
pub fn is_inside(leaf: Leaf, x: u32, y: u32) -> bool
    ensures answer { result ≡ in_square leaf x y }
{
    is_between(leaf.x, leaf.side, x) && is_between(leaf.y, leaf.side, y)
}

// The leaf that holds a position, with the set that shows in it where it is uniform, or 12: it is looked for and its stream is tried.
pub fn leaf_anew(tree: Tree, at: Position) -> Result<Shown, Refusal>
    ensures answer { result ≡ shown_there (tree_passed tree) at.x at.y }
{
    let read = find_leaf::read_leaf(tree, at.x, at.y)?;
    let leaf = read.leaf;
    if read.uniform {
        let set = set_in(tree, leaf, at);
        Ok(Shown {
            leaf,
            set: Some(set),
        })
    } else {
        Ok(Shown { leaf, set: None })
    }
}

// The leaf that holds a position, or 12, where `last` was read last: it serves all positions of its square.
pub fn leaf_for(tree: Tree, last: Option<Shown>, at: Position) -> Result<Shown, Refusal>
    requires { LastIn (tree_of tree) last }
    ensures answer { result ≡ shown_there (tree_passed tree) at.x at.y }
{
    match last {
        Some(shown) if is_inside(shown.leaf, at.x, at.y) => Ok(shown),
        _ => leaf_anew(tree, at),
    }
}

// The shown set at a position in the leaf that holds it: a stream is read only where the leaf is not uniform.
pub fn set_for(tree: Tree, shown: Shown, at: Position) -> u64
    requires { Readable (tree_of tree) shown at.x at.y }
    ensures answer { result ≡ set_read (tree_passed tree) shown.leaf at.x at.y }
    ensures painted { Painted (tree_passed tree).areas result }
{
    match shown.set {
        Some(set) => set,
        None => set_in(tree, shown.leaf, at),
    }
}

// What is read at a position, or 12, where `last` was read last. That it was (LastIn) is a clause here and in the callers (pixel_row, zone_log): a struct of
// the tree, the last leaf and this fact as a ghost field would have to be handed out anew by each read, beside the set, with a promise that it lends the same
// tables.
pub fn read_at(tree: Tree, last: Option<Shown>, at: Position) -> Result<Read, Refusal>
    requires { LastIn (tree_of tree) last }
    ensures answer { result ≡ read_there (tree_passed tree) at.x at.y }
    ensures painted { IfOk result (λ r. Painted (tree_passed tree).areas r.set) }
{
    let shown = leaf_for(tree, last, at)?;
    let set = set_for(tree, shown, at);
    Ok(Read { shown, set })
}

// ---- the call
// What shows at (x, y): the set of areas, the material of the front one, and the colour; and how far that reaches. Any tables may be handed in, and none
// is changed.
// Refusals, in this order: 7, 12.
pub fn position(tree: Tree, x: u32, y: u32) -> Result<Spot, Refusal>
    ensures answer { result ≡ position_answer (tree_passed tree) x y }
{
    if tree.drawing.xs.len() != tree.drawing.ys.len() {
        return Err(Refusal::Argument);
    }
    let at = find_leaf::position_at(x, y).ok_or(Refusal::Argument)?;
    // These two and not `read_at`, which first asks whether the leaf read last holds the position: here none was, and with it each call took 50 instructions
    // more.
    let shown = leaf_anew(tree, at)?;
    let set = set_for(tree, shown, at);
    let spot = spot_of(tree.drawing.areas, shown.leaf, shown.set.is_some(), set);
    Ok(spot)
}
