// The calls that answer from a tree, exported for C.
ghost use Rattle.std.specs.Prelude.{◌≡◌, length};
ghost use Rattle.tables.specs.Tables.{tree_lent};
ghost use Rattle.position.specs.Spots.{position_answer};
ghost use Rattle.zone_log.specs.Logs.{log_answer, out_logged};
ghost use Rattle.pixel_row.specs.Rows.{row_filled};
ghost use Rattle.answers.specs.Readings.{spot_room, spot_number, spot_written, log_number, row_number};

use drawing::Drawing;
use tables::Tree;

// What shows at (x, y), and how far that reaches, written as ten words: the low and the high half of the set, material, red, green, blue; 1 where the
// leaf has no line, curve or shortcut, so that each of its positions has this answer, else 0; the leaf's low corner x, y and its side. The result is the
// material.
// Refusals, in this order: 7 (tables of x and y of unequal length, no position), 12, 11. Nothing is changed on a refusal.
#[unsafe(no_mangle)]
pub extern "C" fn zones_position(
    plan: &[u32],
    areas: &[u32],
    xs: &[u32],
    ys: &[u32],
    head: &[u32],
    cells: &[u32],
    entries: &[u32],
    x: u32,
    y: u32,
    out: &mut [u32],
) -> u64
    ensures answer { result ≡ spot_number (spot_room (position_answer (tree_lent plan areas xs ys head cells entries) x y) (length out.old)) }
    ensures out { out.new ≡ spot_written (position_answer (tree_lent plan areas xs ys head cells entries) x y) out.old }
{
    let drawing = Drawing {
        plan,
        areas,
        xs,
        ys,
    };
    let tree = Tree {
        drawing,
        head,
        cells,
        entries,
    };
    let a = position::position(tree, x, y);
    answers::put_shown(out, a)
}

// Writes the zone log of the run of positions (px[i], py[i]). The result is the number of its indices.
// Refusals, in this order: 7 (a pair of tables of unequal length, place 0; then no position, its index), 12, 11. Nothing is changed on a refusal.
#[unsafe(no_mangle)]
pub extern "C" fn zones_zone_log(
    plan: &[u32],
    areas: &[u32],
    xs: &[u32],
    ys: &[u32],
    head: &[u32],
    cells: &[u32],
    entries: &[u32],
    px: &[u32],
    py: &[u32],
    out: &mut [u32],
) -> u64
    ensures answer { result ≡
        log_number (log_answer (tree_lent plan areas xs ys head cells entries) px.now py.now (length out.old)) }
    ensures out { out.new ≡ out_logged (tree_lent plan areas xs ys head cells entries) px.now py.now out.old }
{
    let drawing = Drawing {
        plan,
        areas,
        xs,
        ys,
    };
    let tree = Tree {
        drawing,
        head,
        cells,
        entries,
    };
    let a = zone_log::zone_log(tree, px, py, out);
    answers::pack_log(a)
}

// Fills the buffer with the pixels of a row from `first` on, three bytes each: red, green, blue. The result is 0.
// Refusals, in this order: 7 (tables of x and y of unequal length, no such pixels), which changes nothing; 12 at a pixel, whose index is
// the place: the pixels before it stand, and the buffer is untouched from it on.
#[unsafe(no_mangle)]
pub extern "C" fn zones_pixel_row(
    plan: &[u32],
    areas: &[u32],
    xs: &[u32],
    ys: &[u32],
    head: &[u32],
    cells: &[u32],
    entries: &[u32],
    row: u32,
    first: u32,
    out: &mut [u8],
) -> u64
    ensures answer { result ≡ row_number (row_filled (tree_lent plan areas xs ys head cells entries) row first out.old).answer }
    ensures out { out.new ≡ (row_filled (tree_lent plan areas xs ys head cells entries) row first out.old).bytes }
{
    let drawing = Drawing {
        plan,
        areas,
        xs,
        ys,
    };
    let tree = Tree {
        drawing,
        head,
        cells,
        entries,
    };
    let a = pixel_row::pixel_row(tree, row, first, out);
    answers::pack_row(a)
}
