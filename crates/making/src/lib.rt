// A stream made from another in a cell, one entry at a time, counted: what is left of its lines, curves and shortcuts, and the pruner.

#![tactic(auto)]

ghost use Rattle.std.specs.Prelude.{◌≡◌, true, [], ◌+◌, ◌*◌, ◌^◌, ◌≤◌, ◌<◌, length, nat_abs};
ghost use Rattle.std.specs.Int.{w32};
ghost use Rattle.std.proofs.Common.{to_z};
ghost use Rattle.geometry.specs.Edges.{sign};
ghost use Rattle.geometry.specs.Windings.{edge_of};
ghost use Rattle.geometry.specs.Classes.{edge_class, cut};
ghost use Rattle.geometry.specs.code.Reach.{EdgeIn, LineBelow, SquareIn};
ghost use Rattle.stream.specs.Grammar.{env_of};
ghost use Rattle.evaluate.specs.code.Numbers.{line_of};
ghost use Rattle.pruning.specs.code.Pruner.{going};
ghost use Rattle.pruning.specs.code.Counters.{ct, length_of};
ghost use Rattle.pruner.specs.code.Numbers.{counted, skip_of, skip_number};
ghost use Rattle.making.specs.code.Numbers.{left_sign, left_class, left_range, resting, with_class, with_left, waiting_from, waiting_n};
ghost use Rattle.making.specs.code.Numbers.{class_n, settled_n, moved_n};
ghost use Rattle.making.specs.code.Numbers.{pruned_n, start_in, weight_in, Room, AreaIn, Inside, Asks};

use geometry::class::{Class, Square};
use pruner::{ItemClass, Pruner};
use stream::{Context, Kind, Words};

// What is made weighs 1 for each entry, LINE more for a line or a curve, AREA more for an area. The three counts are one number, since `pruner` adds up
// weights of any meaning; what reads a count takes it from the number by % and /. `writing::place_of` and `four_children::entries_in` are alike: neither
// crate names the other, and a third function for one remainder would be no plainer.
pub const LINE: u64 = 65536;

pub const AREA: u64 = 4294967296;

// An area with no line, curve or shortcut left.
const AREA_ALONE: u64 = AREA + 1;

// ---- what is left of a line, a curve or a shortcut in a square
// That the sign is at most 1 is no ghost field: `shortcut_left` takes any word as a sign.
#[derive(Clone, Copy)]
pub struct Left {
    pub sign: i64,
    pub class: Class,
}

fn line_left(xs: &[u32], ys: &[u32], s: Square, w: Words) -> Left
    requires line_below { LineBelow (length xs.now) (line_of w) × LineBelow (length ys.now) (line_of w) }
    requires edge_in { EdgeIn (edge_of xs.now ys.now (line_of w)) }
    requires square_in { SquareIn s }
    ensures answer { (result.sign ≡ sign (edge_of xs.now ys.now (line_of w)))
        × (result.class ≡ edge_class (edge_of xs.now ys.now (line_of w)) s) }
{
    let e = evaluate::edge_of(xs, ys, w);
    let class = s.classify(e);
    Left {
        sign: e.sign(),
        class,
    }
}

fn shortcut_left(s: Square, w: Words) -> Left
    requires square_in { SquareIn s }
    ensures answer { (result.sign ≡ to_z w32 w.p) × (result.class ≡ cut w.q w.r s.y s.side) }
{
    Left {
        sign: i64::from(w.p.cast_signed()),
        class: s.cut_rows(w.q, w.r),
    }
}

// What is left of entry w; nothing of an entry that is no line, curve or shortcut, since a public function answers for any entry. (Put into its callers,
// so that no context is copied for each entry.)
#[inline(always)]
pub fn left_of(context: Context, s: Square, w: Words) -> Left
    requires corners_in_bounds { (context.bounds.corners ≤ length context.xs.now)
        × (context.bounds.corners ≤ length context.ys.now) }
    requires w_value { left_range context.xs.now context.ys.now context.bounds.corners w ≡ true }
    requires square_in { SquareIn s }
    ensures answer { (result.sign ≡ left_sign context.entry.xs.now context.entry.ys.now w)
        × (result.class ≡ left_class context.entry.xs.now context.entry.ys.now s w) }
{
    if !w.is_segment() {
        Left {
            sign: 0,
            class: Class::Dropped,
        }
    } else if w.is_line() {
        line_left(context.xs, context.ys, s, w)
    } else {
        shortcut_left(s, w)
    }
}

// ---- the area that waits
// An area that waits for its lines, curves and shortcuts: its number, its start number, and its weight, with that of what is left of them.
// That the number is that of an area is no ghost field: it is about the table of areas, which is lent beside this.
// Nor are the bounds on the start number and the weight: a step (`with`) may end beyond the bound that it asks for.
#[derive(Clone, Copy, Debug, PartialEq, Eq)]
pub struct Waiting {
    pub number: u32,
    pub start: i64,
    pub weight: u64,
}

impl Waiting {
    // With a line, a curve or a shortcut of which this is left.
    fn with(self, left: Left) -> Waiting
        requires { (nat_abs self.start ≤ 8192) × (nat_abs left.sign ≤ 1) × (self.weight < 2 ^ 60) }
        ensures answer { result ≡ with_class left.class self left.sign }
    {
        match left.class {
            Class::Dropped => self,
            Class::Start => Waiting {
                start: self.start + left.sign,
                ..self
            },
            Class::Shortcut(_, _) => Waiting {
                weight: self.weight + 1,
                ..self
            },
            Class::Kept => Waiting {
                weight: self.weight + LINE + 1,
                ..self
            },
        }
    }

    // Its class.
    pub fn class(self, areas: &[u32]) -> ItemClass
        requires inside { AreaIn (length areas.now) self }
        ensures answer { result ≡ class_n areas.now self }
    {
        if self.weight != AREA_ALONE {
            return ItemClass::Neither;
        }
        let at = (self.number as usize) * records::AREA_WORDS;
        if !evaluate::area_passes(areas, self.number as usize, self.start) {
            ItemClass::Fails
        } else if areas[at] == records::PAINT && areas[at + records::ALPHA] != records::OPAQUE {
            ItemClass::Neither
        } else {
            ItemClass::Passes
        }
    }
}

// With a line, a curve or a shortcut of which this is left, of the area that waits, if one does.
pub fn with_left(a: Option<Waiting>, left: Left) -> Option<Waiting>
    requires { (nat_abs (start_in a) ≤ 8192) × (nat_abs left.sign ≤ 1) × (weight_in a < 2 ^ 60) }
    ensures answer { result ≡ with_left a left.class left.sign }
{
    let a = a?;
    Some(a.with(left))
}

// The area that waits after an entry that is no line, curve or shortcut: that entry, if it is an area.
pub fn waiting_from(w: Words) -> Option<Waiting>
    ensures answer { result ≡ waiting_from w }
{
    match w.named() {
        Some(Kind::Area) => Some(Waiting {
            number: w.p,
            start: evaluate::start_of(w),
            weight: AREA_ALONE,
        }),
        _ => None,
    }
}

// ---- the pruner
// The pruner goes on after entry w: a delimiter, "passes", or an area, which only waits. Its bounds are clauses, as at `Pruner`: a step may end at the
// bound that it asks for.
pub fn moved(p: &mut Pruner, w: Words)
    requires weight_bound { (p.old.weight < 2 ^ 61) × (p.old.base < 2 ^ 61)
        × (skip_number (skip_of p.old.skip) < 4096) × (p.old.depth ≤ 8) }
    requires depth_bound { w.kind ≡ 1 → p.old.skip ≡ None → p.old.depth < 8 }
    ensures answer { counted p.new ≡ moved_n w.kind (counted p.old) }
{
    match w.named() {
        Some(Kind::Open) => p.after_open(),
        Some(Kind::Bar) => p.after_bar(),
        Some(Kind::Close) => p.after_close(),
        Some(Kind::Passes) => p.after_item(false, ItemClass::Passes, 1),
        _ => {}
    }
}

// ---- both
// Where a making stands: the pruner, and the area that waits, if one does.
#[derive(Clone, Copy, Debug, PartialEq, Eq)]
pub struct Maker {
    pub pruner: Pruner,
    pub waiting: Option<Waiting>,
}

impl Maker {
    // Nothing is made.
    pub fn begun() -> Maker
        ensures pruner { counted result.pruner ≡ ct 0 0 going [] }
        ensures waiting { result.waiting ≡ resting }
    {
        Maker {
            pruner: Pruner::begun(),
            waiting: None,
        }
    }

    // The pruner goes on after the area that waits, if one does.
    #[inline(always)]
    pub fn settle(&mut self, areas: &[u32])
        requires inside { Inside (length areas.now) self.old.waiting }
        requires weight_bound { (self.old.pruner.weight + weight_in self.old.waiting < 2 ^ 60) × (self.old.pruner.base < 2 ^ 60) }
        ensures pruner { counted self.new.pruner ≡ settled_n areas.now (counted self.old.pruner) self.old.waiting }
        ensures waiting { self.new.waiting ≡ resting }
    {
        if let Some(a) = self.waiting {
            let class = a.class(areas);
            let paint = areas[(a.number as usize) * records::AREA_WORDS] == records::PAINT;
            self.pruner.after_item(paint, class, a.weight);
            self.waiting = None;
        }
    }

    // Goes on to the next entry, w. `writing::write_entry` has these branches too, and writes: one function for both would take a table that may be absent
    // and test that at each entry.
    #[inline(always)]
    pub fn go_on(&mut self, context: Context, s: Square, w: Words)
        requires square_in { SquareIn s }
        requires asks { Asks (env_of context) self.old w }
        ensures pruner { counted self.new.pruner ≡
            pruned_n context.entry.areas.now (counted self.old.pruner) self.old.waiting w.kind }
        ensures waiting { self.new.waiting ≡
            waiting_n self.old.waiting (left_class context.entry.xs.now context.entry.ys.now s w)
            (left_sign context.entry.xs.now context.entry.ys.now w) w }
    {
        if w.is_segment() {
            let left = left_of(context, s, w);
            self.waiting = with_left(self.waiting, left);
        } else {
            self.settle(context.areas);
            moved(&mut self.pruner, w);
            self.waiting = waiting_from(w);
        }
    }

    // The weight of what is made once the area that waits has settled.
    pub fn weight(mut self, areas: &[u32]) -> u64
        requires inside { Inside (length areas.now) self.waiting }
        requires weight_bound { (self.pruner.weight + weight_in self.waiting < 2 ^ 60) × (self.pruner.base < 2 ^ 60) }
        ensures answer { result ≡ length_of (settled_n areas.now (counted self.pruner) self.waiting) }
    {
        self.settle(areas);
        self.pruner.weight
    }
}
