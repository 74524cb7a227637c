// The calls that makers build in, exported for C. Numbers and slices go in; a slice passes as a pointer and then its length.
//
// Each answer is one number: the number of the refusal times 2^32, and its place. Where nothing is refused the high half is 0 and the low
// half is the result.
//
// How to read a contract: `answer` says what is returned (`result`), and each further clause, named after a table, what that table holds afterwards.
// `head.old` is what the table `head` holds when the call begins, `head.new` when it returns; `tree_lent plan .. entries` is all seven tables when
// the call begins, `tree_lent_mut` the same where head, cells and entries are lent to be written, `drawing_lent plan areas xs ys` the drawing's four.
// `records_lent records` is the drawing that the bytes of the file say as the call begins, `read_lent records plan areas xs ys` what reading it into these
// tables answers, and `left_by verdict table words` what the table holds after that answer: the words from its beginning on and the rest as it was, or, where
// it is a refusal, the table as it was.
// A table with no clause is lent by `&`: read only.

#![tactic(auto)]

pub mod readings;

ghost use Rattle.std.specs.Prelude.{◌≡◌, length};
ghost use Rattle.read.specs.Words.{plan_words, area_words, x_words, y_words};
ghost use Rattle.read.specs.Reading.{records_lent, read_lent, left_by};
ghost use Rattle.drawing.specs.Tables.{drawing_lent, write_answer, out_written};
ghost use Rattle.tables.specs.Tables.{tree_lent, tree_lent_mut};
ghost use Rattle.split.specs.Split.{split_answer, split_tables};
ghost use Rattle.open.specs.Open.{open_answer, open_tree};
ghost use Rattle.find_leaf.specs.Leaf.{find_answer};
ghost use Rattle.grow.specs.Grow.{grow_answer, grow_tree};
ghost use Rattle.answers.specs.Answers.{read_number, write_number, open_number, split_number, grow_number, find_room, find_number, leaf_written};

use drawing::Drawing;
use grow::Limits;
use tables::Tree;

// Reads a file of records into the four tables of a drawing. The result is the number of records.
// Refusals, in this order: 7 (tables of x and y of unequal length), 1, each record by 2 to 6, the end by 4 and 5, 11.
#[unsafe(no_mangle)]
pub extern "C" fn zones_read(
    records: &[u8],
    plan: &mut [u32],
    areas: &mut [u32],
    xs: &mut [u32],
    ys: &mut [u32],
) -> u64
    ensures answer { result ≡ read_number (read_lent records plan areas xs ys) }
    ensures plan { plan.new ≡ left_by (read_lent records plan areas xs ys) plan.old (plan_words (records_lent records)) }
    ensures areas { areas.new ≡ left_by (read_lent records plan areas xs ys) areas.old (area_words (records_lent records)) }
    ensures xs { xs.new ≡ left_by (read_lent records plan areas xs ys) xs.old (x_words (records_lent records)) }
    ensures ys { ys.new ≡ left_by (read_lent records plan areas xs ys) ys.old (y_words (records_lent records)) }
{
    let v = read::read(records, plan, areas, xs, ys);
    answers::pack_read(v)
}

// Writes a drawing in its tables out as a file of records. The result is the number of bytes.
// Refusals, in this order: 7 (tables of x and y of unequal length), 12 (no drawing in the tables), 11.
#[unsafe(no_mangle)]
pub extern "C" fn zones_write(
    plan: &[u32],
    areas: &[u32],
    xs: &[u32],
    ys: &[u32],
    out: &mut [u8],
) -> u64
    ensures answer { result ≡ write_number (write_answer (drawing_lent plan areas xs ys) out.old) }
    ensures out { out.new ≡ out_written (drawing_lent plan areas xs ys) out.old }
{
    let drawing = Drawing {
        plan,
        areas,
        xs,
        ys,
    };
    let w = drawing.write(out);
    answers::pack_written(w)
}

// Opens a tree over a drawing: cell 0 alone. The result is the number of its entries.
// Refusals, in this order: 7 (tables of x and y of unequal length), 12 (no drawing in the tables), 11. Nothing is changed on a refusal.
#[unsafe(no_mangle)]
pub extern "C" fn zones_open(
    plan: &[u32],
    areas: &[u32],
    xs: &[u32],
    ys: &[u32],
    head: &mut [u32],
    cells: &mut [u32],
    entries: &mut [u32],
) -> u64
    ensures answer { result ≡ open_number (open_answer (tree_lent_mut plan areas xs ys head cells entries)) }
    ensures head { head.new ≡ (open_tree (tree_lent_mut plan areas xs ys head cells entries)).head }
    ensures cells { cells.new ≡ (open_tree (tree_lent_mut plan areas xs ys head cells entries)).cells }
    ensures entries { entries.new ≡ (open_tree (tree_lent_mut plan areas xs ys head cells entries)).entries }
{
    let a = open::open(
        Drawing {
            plan,
            areas,
            xs,
            ys,
        },
        head,
        cells,
        entries,
    );
    answers::pack_count(a)
}

// Splits a cell of a tree. The result is the number of its first child.
// Refusals, in this order: 7 (tables of x and y of unequal length), 8, 12, 9, 10, 11. Nothing is changed on a refusal.
#[unsafe(no_mangle)]
pub extern "C" fn zones_split(
    plan: &[u32],
    areas: &[u32],
    xs: &[u32],
    ys: &[u32],
    head: &mut [u32],
    cells: &mut [u32],
    entries: &mut [u32],
    cell: u32,
) -> u64
    ensures answer { result ≡ split_number (split_answer (tree_lent_mut plan areas xs ys head cells entries) cell) }
    ensures head { head.new ≡ (split_tables (tree_lent_mut plan areas xs ys head cells entries) cell).head }
    ensures cells { cells.new ≡ (split_tables (tree_lent_mut plan areas xs ys head cells entries) cell).cells }
    ensures entries { entries.new ≡ (split_tables (tree_lent_mut plan areas xs ys head cells entries) cell).entries }
{
    let a = split::split(
        Drawing {
            plan,
            areas,
            xs,
            ys,
        },
        head,
        cells,
        entries,
        cell,
    );
    answers::pack_count(a)
}

// Splits the lowest numbered leaf with more lines than the threshold and a depth below the limit, again and again. The result is the splits
// made where it is done, and 2^31 more where it is full.
// Refusals: 7 (tables of x and y of unequal length, a limit over 16), and 12, before which cells may have been split.
#[unsafe(no_mangle)]
pub extern "C" fn zones_grow(
    plan: &[u32],
    areas: &[u32],
    xs: &[u32],
    ys: &[u32],
    head: &mut [u32],
    cells: &mut [u32],
    entries: &mut [u32],
    threshold: u32,
    limit: u32,
) -> u64
    ensures answer { result ≡ grow_number (grow_answer (tree_lent_mut plan areas xs ys head cells entries) threshold limit) }
    ensures head { head.new ≡ (grow_tree (tree_lent_mut plan areas xs ys head cells entries) threshold limit).head }
    ensures cells { cells.new ≡ (grow_tree (tree_lent_mut plan areas xs ys head cells entries) threshold limit).cells }
    ensures entries { entries.new ≡ (grow_tree (tree_lent_mut plan areas xs ys head cells entries) threshold limit).entries }
{
    let a = grow::grow(
        Drawing {
            plan,
            areas,
            xs,
            ys,
        },
        head,
        cells,
        entries,
        Limits {
            threshold,
            depth: limit,
        },
    );
    answers::pack_grow(a)
}

// Finds the leaf that holds (x, y) and writes eight words: its number, x, y, side, steps, entries, lines, and 1 where it has no line, curve or shortcut,
// else 0. The result is its number.
// Refusals, in this order: 7 (tables of x and y of unequal length, no position), 12, 11. Nothing is changed on a refusal.
#[unsafe(no_mangle)]
pub extern "C" fn zones_find_leaf(
    plan: &[u32],
    areas: &[u32],
    xs: &[u32],
    ys: &[u32],
    head: &[u32],
    cells: &[u32],
    entries: &[u32],
    x: u32,
    y: u32,
    out: &mut [u32],
) -> u64
    ensures answer { result ≡ find_number (find_room (find_answer (tree_lent plan areas xs ys head cells entries) x y) (length out.old)) }
    ensures out { out.new ≡ leaf_written (find_answer (tree_lent plan areas xs ys head cells entries) x y) out.old }
{
    let drawing = Drawing {
        plan,
        areas,
        xs,
        ys,
    };
    let tree = Tree {
        drawing,
        head,
        cells,
        entries,
    };
    let a = find_leaf::find_leaf(tree, x, y);
    answers::put_found(out, a)
}
