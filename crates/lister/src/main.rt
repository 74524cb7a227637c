// The leaf lister: reads a drawing on standard input, grows with threshold 0 and depth limit 4, and prints each leaf in key order.

#![tactic(auto)]

ghost use Rattle.std.specs.Prelude.{◌≡◌, ◌*◌, ◌≤◌, length, take, OnOk, IfOk, IfSome};
ghost use Rattle.std.specs.Io.KnownBytes.{Appends};
ghost use Rattle.listing.specs.Numbers.{lines_in};
ghost use Rattle.tables.specs.Tables.{tree_passed_mut};
ghost use Rattle.lister.specs.Printed.{lines_of, outcome_of, outcome_grown, rows_grown, outcome, rows_after};
ghost use Rattle.lister.specs.Leaves.{PrintsEachLeaf, FilePrintsEachLeaf};
ghost use Rattle.lister.specs.Text.{line_text, lines_text, refused_text, outcome_text, drawing_text, file_text};

use drawing::Drawing;
use grow::{Growth, Limits};
use listing::Line;
use refusals::{Refusal, Refused};
use std::io;
use std::io::{ErrorKind, Read, Write};
use tables::Tree;

// "Its tables hold 1,024 cells and 4,096 entries"
const TABLE_CELLS: usize = 1024;

const TABLE_ENTRIES: usize = 4096;

// "threshold 0 and depth limit 4"
const THRESHOLD: u32 = 0;

const DEPTH_LIMIT: u32 = 4;

// What is printed of a drawing that is not refused: so many lines, with `full` after them or without, which is an answer by itself, as `uniform` of a
// `FoundLeaf` is. That there are 256 lines at most stays a clause: `outcome_of`, the definition, makes a `Listed` of any number of lines, so with a
// ghost field it would carry a proof.
#[derive(Clone, Copy)]
pub struct Listed {
    pub lines: usize,
    pub full: bool,
}

// "cell, key, side, entries, lines"
// No `Display` for a line, nor for a refusal below: each is printed by one function, to a writer.
fn print_line<W: Write>(out: &mut W, l: Line) -> io::Result<()>
    ensures { OnOk result (Appends (W.contents out.old) (W.contents out.new) (line_text l)) }
{
    writeln!(
        out,
        "{} {} {} {} {}",
        l.cell, l.key, l.side, l.entries, l.lines
    )
}

// "A refused drawing prints only `refused N at P`."
fn print_refused<W: Write>(out: &mut W, r: Refused) -> io::Result<()>
    ensures { OnOk result (Appends (W.contents out.old) (W.contents out.new) (refused_text r.refusal r.place)) }
{
    writeln!(out, "refused {} at {}", u32::from(r.refusal), r.place)
}

// The first n lines of the table. `listing` hands out line i of a table, so a loop over pieces of the table would call it with line 0 of each.
fn print_lines<W: Write>(out: &mut W, rows: &[u32], n: usize) -> io::Result<()>
    requires { n * 5 ≤ length rows.now }
    ensures { OnOk result (Appends (W.contents out.old) (W.contents out.new) (lines_text (lines_in rows.now 0 n))) }
{
    for i in 0..n {
        print_line(out, listing::read_line(rows, i))?;
    }
    Ok(())
}

// So many lines, of a tree that is grown.
fn outcome_of(grown: Result<Growth, Refusal>, lines: usize) -> Result<Listed, Refusal>
    requires { lines ≤ 256 }
    ensures answer { result ≡ outcome_of grown lines }
    ensures range { lines_of result ≤ 256 }
{
    let full = matches!(grown?, Growth::Full(_));
    Ok(Listed { lines, full })
}

// "grows with threshold 0 and depth limit 4", then writes the line of each leaf. The tables are lent to be written, here and below, so each is a
// parameter: as fields, each contract would have to say of each that the same table is lent.
fn list_grown(
    drawing: Drawing,
    head: &mut [u32],
    cells: &mut [u32],
    entries: &mut [u32],
    rows: &mut [u32; listing::LIST_WORDS],
) -> Result<Listed, Refusal>
    ensures answer { result ≡ outcome_grown (tree_passed_mut drawing head cells entries) }
    ensures rows { rows.new ≡ rows_grown (tree_passed_mut drawing head cells entries) rows.old }
    ensures range { lines_of result ≤ 256 }
{
    let limits = Limits {
        threshold: THRESHOLD,
        depth: DEPTH_LIMIT,
    };
    let grown = grow::grow(drawing, head, cells, entries, limits);
    let tree = Tree {
        drawing,
        head,
        cells,
        entries,
    };
    let lines = listing::list_leaves(tree, rows);
    outcome_of(grown, lines)
}

// Opens the tree of a drawing, grows it and lists its leaves.
fn list_drawing(
    drawing: Drawing,
    head: &mut [u32],
    cells: &mut [u32],
    entries: &mut [u32],
    rows: &mut [u32; listing::LIST_WORDS],
) -> Result<Listed, Refusal>
    ensures answer { result ≡ outcome (tree_passed_mut drawing head cells entries) }
    ensures rows { rows.new ≡ rows_after (tree_passed_mut drawing head cells entries) rows.old }
    ensures range { lines_of result ≤ 256 }
    ensures leaves { PrintsEachLeaf }
{
    open::open(drawing, head, cells, entries)?;
    list_grown(drawing, head, cells, entries, rows)
}

// "if growing ends on "full", a last line `full` follows"
fn print_outcome<W: Write>(
    out: &mut W,
    outcome: Result<Listed, Refusal>,
    rows: &[u32],
) -> io::Result<()>
    requires { lines_of outcome * 5 ≤ length rows.now }
    ensures { OnOk result (Appends (W.contents out.old) (W.contents out.new) (outcome_text outcome rows.now)) }
{
    match outcome {
        Ok(listed) => {
            print_lines(out, rows, listed.lines)?;
            if listed.full {
                writeln!(out, "full")?;
            }
            Ok(())
        }
        Err(r) => print_refused(out, r.into()),
    }
}

// What is printed of a drawing, from tables of zeros.
fn print_drawing<W: Write>(out: &mut W, drawing: Drawing) -> io::Result<()>
    ensures { OnOk result (Appends (W.contents out.old) (W.contents out.new)
        (drawing_text drawing.entry.plan.now drawing.entry.areas.now drawing.entry.xs.now drawing.entry.ys.now)) }
{
    let mut head = [0u32; celltable::HEAD_WORDS];
    let mut cells = [0u32; TABLE_CELLS * celltable::CELL_WORDS];
    let mut entries = [0u32; TABLE_ENTRIES * stream::ENTRY_WORDS];
    let mut rows = [0u32; listing::LIST_WORDS];
    let outcome = list_drawing(drawing, &mut head, &mut cells, &mut entries, &mut rows);
    print_outcome(out, outcome, &rows)
}

// What is printed of a file.
fn print_file<W: Write>(out: &mut W, records: &[u8]) -> io::Result<()>
    ensures { OnOk result (Appends (W.contents out.old) (W.contents out.new) (file_text records.now)) }
{
    let mut plan = [0u32; read::PLAN_COUNTS + records::MOST_RECORDS];
    let mut areas = [0u32; records::MOST_AREAS * records::AREA_WORDS];
    let mut xs = [0u32; records::MOST_CORNERS];
    let mut ys = [0u32; records::MOST_CORNERS];
    match read::read(records, &mut plan, &mut areas, &mut xs, &mut ys) {
        Ok(_) => print_drawing(
            out,
            Drawing {
                plan: &plan,
                areas: &areas,
                xs: &xs,
                ys: &ys,
            },
        ),
        Err(e) => print_refused(out, e),
    }
}

// A file may have 4,096 records of 16 bytes, which is 65,536: one byte more shows that it is longer, and is refused for its length.
const MOST_READ: usize = records::MOST_RECORDS * records::RECORD_BYTES + 1;

// Reads the file into the table and gives how many bytes it read: it ends where the file ends or the table is full, and reads no more of the file. A
// read that a signal interrupts is tried again. std's `read_to_end` fills a `Vec`, which needs a heap, and `read_exact` fails at a file that is shorter
// than the table and does not say how long it is. A loop is proved to end, and any number of reads may be interrupted, so this one counts its turns.
fn read_file<R: Read + Drop>(mut file: R, records: &mut [u8]) -> io::Result<usize>
    ensures range { IfOk result (λ n. n ≤ length records.new) }
    ensures bytes { IfOk result (λ n. IfSome (R.remaining file) (λ bytes. take n records.new ≡ take (length records.old) bytes)) }
{
    let mut n = 0;
    for _ in 0..u64::MAX {
        if n == records.len() {
            return Ok(n);
        }
        match file.read(&mut records[n..]) {
            Ok(0) => return Ok(n),
            Ok(more) => n += more,
            Err(e) => {
                if e.kind() != ErrorKind::Interrupted {
                    return Err(e);
                }
            }
        }
    }
    Err(ErrorKind::TimedOut.into())
}

// Reads a file and prints what is to be printed of it.
fn list_file<R: Read + Drop, W: Write>(file: R, out: &mut W) -> io::Result<()>
    ensures text { OnOk result (IfSome (R.remaining file) (λ bytes. Appends (W.contents out.old) (W.contents out.new) (file_text bytes))) }
    ensures leaves { FilePrintsEachLeaf }
{
    let mut records = [0u8; MOST_READ];
    let n = read_file(file, &mut records)?;
    print_file(out, &records[..n])
}

fn main(rt: HostRuntime) -> io::Result<()> {
    list_file(rt.reader(), &mut io::writer(&rt))
}
