// The stream of cell 0, made from the drawing in lent tables: counted, and then written.

#![tactic(auto)]

ghost use Rattle.std.specs.Prelude.{◌≡◌, ◌+◌, ◌*◌, ◌≤◌, ◌<◌, length};
ghost use Rattle.records.specs.Kinds.{kind_number};
ghost use Rattle.cells.specs.Cells.{square_of, root};
ghost use Rattle.cells.specs.code.Making.{element_size};
ghost use Rattle.pruning.specs.code.Weights.{total};
ghost use Rattle.drawing.specs.Tables.{tables_of, drawing_passed};
ghost use Rattle.stream.specs.Kinds.{kind_number as entry_number};
ghost use Rattle.stream.specs.Table.{written};
ghost use Rattle.evaluate.specs.Words.{words};
ghost use Rattle.root_stream.specs.code.Numbers.{source_at, number_in, kind_n, stride_n, edge_n, entry_n, after_n, Opened};
ghost use Rattle.root_stream.specs.Opened.{elements_opened, words_opened};

use drawing::Drawing;
use geometry::class::Square;
use making::Maker;
use records::Kind;
use stream::{Bounds, Context, Kind as EntryKind, Words};

// The areas and the corners before a record, and the first corner of the contour in progress. That a corner is 2,048 at most is a clause of each function:
// the definitions of specs build this struct (`source_at`), so with a ghost field each of them would carry a proof.
#[derive(Clone, Copy, Debug, PartialEq, Eq)]
pub struct Source {
    pub area: u32,
    pub corner: u32,
    pub first: u32,
}

impl Source {
    // Before the first record.
    fn begun() -> Source
        ensures answer { result ≡ source_at 0 0 0 }
    {
        Source {
            area: 0,
            corner: 0,
            first: 0,
        }
    }

    // The entry of a record, with one of kind `behind` straight behind it: the area, the edge from its corner, or the delimiter.
    fn entry(self, kind: Kind, behind: Option<Kind>) -> Words
        requires { self.corner ≤ 2048 }
        ensures answer { result ≡ entry_n self (kind_number kind) (number_in behind) }
    {
        match kind {
            Kind::Area => Words {
                kind: u32::from(EntryKind::Area),
                p: self.area,
                q: 0,
                r: 0,
            },
            Kind::First => edge_from(behind, self.corner, self.corner),
            Kind::Next => edge_from(behind, self.corner, self.first),
            Kind::Open => delimiter(EntryKind::Open),
            Kind::Bar => delimiter(EntryKind::Bar),
            // A control corner stands behind the corner that takes it, and so is never asked for; the definition `entry_n` has this arm for it.
            Kind::Close | Kind::Control => delimiter(EntryKind::Close),
        }
    }

    // The areas and corners before the record that stands behind that entry.
    fn after(self, kind: Kind, behind: Option<Kind>) -> Source
        requires { (self.area ≤ 64) × (self.corner ≤ 2048) }
        ensures answer { result ≡ after_n self (kind_number kind) (number_in behind) }
    {
        let corner = self.corner + stride(behind) as u32;
        match kind {
            Kind::Area => Source {
                area: self.area + 1,
                ..self
            },
            Kind::First => Source {
                corner,
                first: self.corner,
                ..self
            },
            Kind::Next => Source { corner, ..self },
            _ => self,
        }
    }
}

// The kind of record i, where there is one.
fn kind_at(plan: &[u32], i: usize, records: usize) -> Option<Kind>
    requires records_in_bounds { records + 3 ≤ length plan.now }
    requires is_kind { kind_n plan.now records i ≤ 7 }
    ensures answer { number_in result ≡ kind_n plan.now records i }
{
    if i < records {
        Kind::try_from(plan[i + read::PLAN_COUNTS]).ok()
    } else {
        None
    }
}

// How many records an edge from a corner takes up to where it ends, where a record of kind `behind` stands straight behind the corner.
fn stride(behind: Option<Kind>) -> usize
    ensures answer { result ≡ stride_n (number_in behind) }
    ensures range { (0 < result) × (result ≤ 2) }
{
    match behind {
        Some(Kind::Control) => 2,
        _ => 1,
    }
}

// The edge from a corner: to the next corner where it stands straight behind, the curve by a control corner that stands there, or to the first
// corner of the contour.
fn edge_from(behind: Option<Kind>, corner: u32, first: u32) -> Words
    requires { corner ≤ 2048 }
    ensures answer { result ≡ edge_n (number_in behind) corner first }
{
    let (kind, q) = match behind {
        Some(Kind::Next) => (EntryKind::Line, corner + 1),
        Some(Kind::Control) => (EntryKind::Curve, 0),
        _ => (EntryKind::Line, first),
    };
    Words {
        kind: u32::from(kind),
        p: corner,
        q,
        r: 0,
    }
}

fn delimiter(kind: EntryKind) -> Words
    ensures answer { result ≡ words (entry_number kind) 0 0 0 }
{
    Words {
        kind: u32::from(kind),
        p: 0,
        q: 0,
        r: 0,
    }
}

// ---- the stream of cell 0
// The side of cell 0 is `celltable::GRID`, of a crate that lies above this one; `records::GRID` is the same number.
fn root_square() -> Square
    ensures answer { result ≡ square_of root }
{
    Square {
        x: 0,
        y: 0,
        side: records::GRID,
    }
}

// What cell 0's stream weighs (crate `making`). The bounds and the number of records come of one `Counts`. A `Counts` here would be no plainer: the caller
// lends the bounds of cell 0 as it does everywhere, and the clause `Opened` says that the two agree.
pub fn count_open(drawing: Drawing, records: usize, bounds: Bounds) -> u64
    requires { Opened (tables_of drawing) records bounds }
    ensures answer { result ≡ total element_size (elements_opened (drawing_passed drawing)) }
{
    let context = Context {
        areas: drawing.areas,
        xs: drawing.xs,
        ys: drawing.ys,
        bounds,
    };
    let s = root_square();
    let mut m = Maker::begun();
    let mut source = Source::begun();
    let mut i = 0;
    // Not a `for` over the records, since a curve takes two of them.
    while let Some(kind) = kind_at(drawing.plan, i, records) {
        let behind = kind_at(drawing.plan, i + 1, records);
        let w = source.entry(kind, behind);
        m.go_on(context, s, w);
        source = source.after(kind, behind);
        i += stride(behind);
    }
    m.weight(drawing.areas)
}

// Writes cell 0's stream, which has `made` entries, to the first of the table. The caller lends the whole table, and it is cut here, so that the contract
// can say that what stands behind those entries stays as it was.
pub fn write_open(
    entries: &mut [u32],
    made: usize,
    drawing: Drawing,
    records: usize,
    bounds: Bounds,
)
    requires opened { Opened (tables_of drawing) records bounds }
    requires made_value { made ≡ length (elements_opened (tables_of drawing)) }
    requires made_in_bounds { made * 4 ≤ length entries.old }
    ensures entries { entries.new ≡ written entries.old 0 (words_opened (drawing_passed drawing)) }
{
    let context = Context {
        areas: drawing.areas,
        xs: drawing.xs,
        ys: drawing.ys,
        bounds,
    };
    let s = root_square();
    let (out, _) = entries.split_at_mut(made * stream::ENTRY_WORDS);
    let mut m = Maker::begun();
    let mut source = Source::begun();
    let mut i = 0;
    // The loop of `count_open` but for the step, which here lends the table to be written; the two share `kind_at`, `entry`, `after` and `stride`.
    while let Some(kind) = kind_at(drawing.plan, i, records) {
        let behind = kind_at(drawing.plan, i + 1, records);
        let w = source.entry(kind, behind);
        writing::write_entry(out, &mut m, context, s, w);
        source = source.after(kind, behind);
        i += stride(behind);
    }
    writing::put_settled(out, drawing.areas, &m);
}
