// Writes what a making makes, one entry at a time, to a table that is lent for it: the entries that stand in the end, and no more. An entry that is
// taken out again is written only where another will stand in the end.

#![tactic(auto)]

ghost use Rattle.std.specs.Prelude.{◌≡◌, ◌+◌, ◌*◌, ◌^◌, ◌≤◌, ◌<◌, length, nat_abs};
ghost use Rattle.std.specs.Int.{w32};
ghost use Rattle.std.proofs.Common.{of_z};
ghost use Rattle.pruner.specs.code.Numbers.{counted, skip_of, skip_number};
ghost use Rattle.cells.specs.Segments.{drawn};
ghost use Rattle.evaluate.specs.Words.{segment_words};
ghost use Rattle.evaluate.specs.code.Numbers.{line_of};
ghost use Rattle.geometry.specs.code.Reach.{SquareIn};
ghost use Rattle.stream.specs.Grammar.{env_of};
ghost use Rattle.making.specs.code.Numbers.{left_class, left_sign, waiting_n, waiting_from, settled_n, moved_n, pruned_n, AreaIn, Inside, Room, Asks};
ghost use Rattle.writing.specs.code.Numbers.{put_below, place_of, kept_put, segment_put, named_put, bare_put, class_put, settled_put};
ghost use Rattle.writing.specs.code.Numbers.{mark_put, mark_on, delimiter_put};
ghost use Rattle.writing.specs.code.Numbers.{one_put};

use geometry::class::{Class, Square};
use making::{Left, Maker, Waiting};
use pruner::{ItemClass, Pruner};
use stream::{Context, Kind, Words};

// A signed number as a word in two's complement.
fn word_of(z: i64) -> u32
    requires { nat_abs z ≤ 8192 }
    ensures answer { result ≡ of_z w32 z }
{
    (z as i32).cast_unsigned()
}

// Entry `at` is w, where the table has so many.
#[tactic(auto, unfolding(crate::specs::code::Numbers::put_below))]
fn put_below(out: &mut [u32], at: usize, w: Words)
    ensures out { out.new ≡ put_below out.old at w }
{
    if at < out.len() / stream::ENTRY_WORDS {
        stream::put_entry(out, at, w);
    }
}

// The place behind entries that weigh this much.
fn place_of(weight: u64) -> usize
    ensures answer { result ≡ place_of weight }
{
    (weight % making::LINE) as usize
}

// The words of the line or the curve that entry w names.
fn line_words(w: Words) -> Words
    ensures answer { result ≡ segment_words (drawn (line_of w)) }
{
    if w.is_curve() {
        Words {
            kind: u32::from(Kind::Curve),
            p: w.p,
            q: 0,
            r: 0,
        }
    } else {
        Words {
            kind: u32::from(Kind::Line),
            p: w.p,
            q: w.q,
            r: 0,
        }
    }
}

// Entry `at` is what is left of the line, the curve or the shortcut of entry w. The bound on the sign is a clause, as at `making::Left`.
fn put_kept(out: &mut [u32], at: usize, left: Left, w: Words)
    requires sign_bound { nat_abs left.sign ≤ 1 }
    ensures out { out.new ≡ kept_put left.class out.old at left.sign w }
{
    match left.class {
        Class::Shortcut(q, r) => {
            let p = word_of(left.sign);
            put_below(
                out,
                at,
                Words {
                    kind: u32::from(Kind::Shortcut),
                    p,
                    q,
                    r,
                },
            );
        }
        Class::Kept => put_below(out, at, line_words(w)),
        Class::Dropped | Class::Start => {}
    }
}

// The line, the curve or the shortcut of entry w, behind what waits.
pub fn put_segment(out: &mut [u32], m: &Maker, left: Left, w: Words)
    requires sign_bound { nat_abs left.sign ≤ 1 }
    ensures out { out.new ≡ segment_put out.old m.now left.class left.sign w }
{
    if m.pruner.skip.is_some() {
        return;
    }
    if let Some(a) = m.waiting {
        let at = place_of(m.pruner.weight) + place_of(a.weight);
        put_kept(out, at, left, w);
    }
}

// The bare "passes", where the side begins. An entry of a kind alone is written out here, in `put_delimiter`, whose kind is a word of the table, and in
// `root_stream::delimiter`: a public function of a kind would serve two of the three, so that it would be no plainer.
fn put_bare(out: &mut [u32], p: &Pruner)
    ensures out { out.new ≡ bare_put out.old p.now }
{
    let at = place_of(p.base);
    put_below(
        out,
        at,
        Words {
            kind: u32::from(Kind::Passes),
            p: 0,
            q: 0,
            r: 0,
        },
    );
}

// The area that waits, behind what is written. The bound on its start number is a clause, as at `Waiting`.
fn put_named(out: &mut [u32], p: &Pruner, a: Waiting)
    requires start_bound { nat_abs a.start ≤ 8192 }
    ensures out { out.new ≡ named_put out.old p.now a }
{
    let at = place_of(p.weight);
    let q = word_of(a.start);
    put_below(
        out,
        at,
        Words {
            kind: u32::from(Kind::Area),
            p: a.number,
            q,
            r: 0,
        },
    );
}

// The area that waits, of this class.
fn put_class(out: &mut [u32], areas: &[u32], p: &Pruner, a: Waiting, class: ItemClass)
    requires inside { AreaIn (length areas.now) a }
    ensures out { out.new ≡ class_put areas.now out.old p.now a class }
{
    match class {
        ItemClass::Fails => {}
        ItemClass::Passes if areas[(a.number as usize) * records::AREA_WORDS] != records::PAINT => {
            put_bare(out, p)
        }
        _ => put_named(out, p, a),
    }
}

// What the area that waits, if one does, is written as.
pub fn put_settled(out: &mut [u32], areas: &[u32], m: &Maker)
    requires inside { Inside (length areas.now) m.now.waiting }
    ensures out { out.new ≡ settled_put areas.now out.old m.now }
{
    if m.pruner.skip.is_some() {
        return;
    }
    if let Some(a) = m.waiting {
        let class = a.class(areas);
        put_class(out, areas, &m.pruner, a, class);
    }
}

// Delimiter w, where it makes what is made heavier.
fn put_delimiter(out: &mut [u32], before: u64, after: u64, w: Words)
    ensures out { out.new ≡ delimiter_put out.old before after w.kind }
{
    if before < after {
        let mark = Words {
            kind: w.kind,
            p: 0,
            q: 0,
            r: 0,
        };
        put_below(out, place_of(before), mark);
    }
}

// A delimiter or "passes", w: what it makes is written, and the pruner goes on. Its bounds are clauses, as at `Pruner`.
fn put_mark(out: &mut [u32], p: &mut Pruner, w: Words)
    requires weight_bound { (p.old.weight < 2 ^ 61) × (p.old.base < 2 ^ 61)
        × (skip_number (skip_of p.old.skip) < 4096) × (p.old.depth ≤ 8) }
    requires depth_bound { w.kind ≡ 1 → p.old.skip ≡ None → p.old.depth < 8 }
    ensures pruner { counted p.new ≡ moved_n w.kind (counted p.old) }
    ensures out { out.new ≡ mark_put out.old p.old p.new.weight w.kind }
{
    if w.named() == Some(Kind::Passes) {
        if p.skip.is_none() {
            put_bare(out, p);
        }
        making::moved(p, w);
    } else {
        let before = p.weight;
        making::moved(p, w);
        put_delimiter(out, before, p.weight, w);
    }
}

// An entry more that is no line, curve or shortcut: what it makes is written, and the making goes on.
#[inline(always)]
pub fn write_other(out: &mut [u32], areas: &[u32], m: &mut Maker, w: Words)
    requires inside { Inside (length areas.now) m.old.waiting }
    requires room { Room m.old.pruner m.old.waiting w.kind }
    ensures pruner { counted m.new.pruner ≡ pruned_n areas.now (counted m.old.pruner) m.old.waiting w.kind }
    ensures waiting { m.new.waiting ≡ waiting_from w }
    ensures out { out.new ≡
        mark_on (settled_put areas.now out.old m.old) (settled_n areas.now (counted m.old.pruner) m.old.waiting)
        m.new.pruner.weight w.kind }
{
    put_settled(out, areas, m);
    if w.is_segment() {
        // `write_entry` hands over no such entry, but a public function takes any: it leaves the pruner as it is.
        put_delimiter(out, m.weight(areas), m.pruner.weight, w);
    } else {
        m.settle(areas);
        put_mark(out, &mut m.pruner, w);
    }
    m.waiting = making::waiting_from(w);
}

// Goes on to the next entry, w, and writes what it makes.
#[inline(always)]
pub fn write_entry(out: &mut [u32], m: &mut Maker, context: Context, s: Square, w: Words)
    requires square_in { SquareIn s }
    requires asks { Asks (env_of context) m.old w }
    ensures pruner { counted m.new.pruner ≡
        pruned_n context.entry.areas.now (counted m.old.pruner) m.old.waiting w.kind }
    ensures waiting { m.new.waiting ≡
        waiting_n m.old.waiting (left_class context.entry.xs.now context.entry.ys.now s w)
        (left_sign context.entry.xs.now context.entry.ys.now w) w }
    ensures out { out.new ≡
        one_put context.entry.areas.now out.old m.old (left_class context.entry.xs.now context.entry.ys.now s w)
        (left_sign context.entry.xs.now context.entry.ys.now w) w m.new.pruner.weight }
{
    if w.is_segment() {
        let left = making::left_of(context, s, w);
        put_segment(out, m, left, w);
        m.waiting = making::with_left(m.waiting, left);
    } else {
        write_other(out, context.areas, m, w);
    }
}
