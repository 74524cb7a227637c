// Zone logs over a run of positions.

#![tactic(auto)]

ghost use Rattle.std.specs.Prelude.{◌≡◌, ◌<◌, ◌≤◌, length, Ok, IfSome};
ghost use Rattle.std.proofs.lemmas.List.Edits.{sets};
ghost use Rattle.tables.specs.Tables.{tree_of, tree_passed};
ghost use Rattle.zone_log.specs.Logs.{zone_log, log_answer, out_after};
ghost use Rattle.zone_log.specs.code.Numbers.{RunIn, Accepted, outside_n, LastMet, met_there, logged_n, counted_n, count_in};

use curves::Position;
use paint::area;
use position::Shown;
use refusals::{Refusal, Refused};
use tables::Tree;

// What shows at an index of a run, and its material.
#[derive(Clone, Copy)]
struct Met {
    shown: Shown,
    material: u32,
}

// ---- the positions
// The lowest index whose position is out of range. The runs are gone over by index, here and in the two passes (as at `records::put_raw`).
fn first_outside(px: &[u32], py: &[u32]) -> Option<usize>
    requires { length px.now ≡ length py.now }
    ensures answer { result ≡ outside_n px.now py.now }
{
    for i in 0..px.len() {
        let Some(_) = find_leaf::position_at(px[i], py[i]) else {
            return Some(i);
        };
    }
    None
}

// ---- one index
// What shows at a position, or 12, where `last` was met at the index before.
fn met_at(tree: Tree, last: Option<Met>, at: Position) -> Result<Met, Refusal>
    requires { LastMet (tree_of tree) last }
    ensures answer { result ≡ met_there (tree_passed tree) at.x at.y }
{
    let read = position::read_at(tree, last.map(|met| met.shown), at)?;
    let material = area::material_of(tree.drawing.areas, read.set);
    Ok(Met {
        shown: read.shown,
        material,
    })
}

// Whether an index is in the log, where `last` was met at the index before.
fn is_logged(last: Option<Met>, met: Met) -> bool
    ensures answer { result ≡ logged_n last met }
{
    match last {
        Some(before) => met.material != before.material,
        None => true,
    }
}

// The count with index i more: none once a word does not hold an index.
fn counted(count: Option<usize>, i: usize) -> Option<usize>
    requires { IfSome count (λ n. n ≤ i) }
    ensures answer { result ≡ counted_n count i }
{
    match count {
        Some(n) if u32::try_from(i).is_ok() => Some(n + 1),
        _ => None,
    }
}

// ---- the two passes over a run, whose positions are in range
// How many indices the log has, if a word holds each of them; or 12.
fn count_log(tree: Tree, px: &[u32], py: &[u32]) -> Result<Option<usize>, Refusal>
    requires { RunIn px.now py.now }
    ensures answer { result ≡ count_in (tree_passed tree) px.now py.now }
{
    let mut last = None;
    let mut count = Some(0);
    for i in 0..px.len() {
        let at = Position { x: px[i], y: py[i] };
        let met = met_at(tree, last, at)?;
        if is_logged(last, met) {
            count = counted(count, i);
        }
        last = Some(met);
    }
    Ok(count)
}

// Writes the log from the table's beginning on. 12 is met at none of the positions, and there is room.
fn write_log(tree: Tree, px: &[u32], py: &[u32], out: &mut [u32]) -> Result<(), Refusal>
    requires run_in { RunIn px.now py.now }
    requires accepted { Accepted (tree_of tree) px.now py.now (length out.old) }
    ensures answer { result ≡ Ok tt }
    ensures out { out.new ≡ sets out.old 0 (zone_log (tree_passed tree) px.now py.now) }
{
    let mut last = None;
    let mut count = 0;
    for i in 0..px.len() {
        let at = Position { x: px[i], y: py[i] };
        let met = met_at(tree, last, at)?;
        if is_logged(last, met) {
            // A cast and no `try_from`: that a word holds the index is proved (`Accepted`), so there is no failure to answer.
            out[count] = i as u32;
            count += 1;
        }
        last = Some(met);
    }
    Ok(())
}

// ---- the call
// The zone log of a run of positions: index 0 and each index whose material differs from the one before, from the table's beginning on.
// Any tables may be handed in. Refusals, in this order: 7, 12, 11. Nothing is changed on a refusal.
// The run is two slices and not one of pairs: the C interface lends two tables. That they are in range (RunIn) is a clause of the two private passes: a struct
// of the two slices with it as a ghost field would be made once, behind the checks here, and taken apart at each index.
pub fn zone_log(tree: Tree, px: &[u32], py: &[u32], out: &mut [u32]) -> Result<usize, Refused>
    ensures answer { result ≡ log_answer (tree_passed tree) px.now py.now (length out.old) }
    ensures out { out.new ≡ out_after (tree_passed tree) px.now py.now result out.old }
{
    if tree.drawing.xs.len() != tree.drawing.ys.len() {
        return Err(Refused::from(Refusal::Argument));
    }
    if px.len() != py.len() {
        return Err(Refused::from(Refusal::Argument));
    }
    if let Some(place) = first_outside(px, py) {
        return Err(Refused {
            refusal: Refusal::Argument,
            place,
        });
    }
    let n = count_log(tree, px, py)?.ok_or(Refusal::Room)?;
    if n > out.len() {
        return Err(Refused::from(Refusal::Room));
    }
    write_log(tree, px, py, out)?;
    Ok(n)
}
