// A drawing in its tables: the check of lent tables, and writing them out as a file of records.

#![tactic(auto)]

ghost use Rattle.std.specs.Prelude.{◌≡◌, true, ◌+◌, ◌*◌, ◌≤◌, ◌<◌, length};
ghost use Rattle.std.proofs.lemmas.List.Edits.{sets};
ghost use Rattle.grammar.specs.Grammar.{checked};
ghost use Rattle.grammar.specs.Lists.{good_records};
ghost use Rattle.records.specs.Bytes.{bytes_of};
ghost use Rattle.read.specs.Words.{file_of, on_good};
ghost use Rattle.records.specs.Kinds.{kind_number};
ghost use Rattle.read.specs.Reading.{all_good};
ghost use Rattle.drawing.specs.Tables.{tables_of, drawing_passed, Ready, cursor, fields_at, area_row, corner_row, record_at, past_record};
ghost use Rattle.drawing.specs.Tables.{rebuilt, drawn_in, agreed, counts_judged, drawing_verdict, write_answer, out_after};

use grammar::{Counts, State};
use read::PLAN_COUNTS;
use records::{AREA_WORDS, Fields, Kind, RECORD_BYTES, Record};
use refusals::{Refusal, Refused};

// The four tables of a drawing, as they are lent to a call.
#[derive(Clone, Copy)]
pub struct Drawing<'a> {
    pub plan: &'a [u32],
    pub areas: &'a [u32],
    pub xs: &'a [u32],
    pub ys: &'a [u32],
}

// The areas and the corners before a record.
#[derive(Clone, Copy)]
pub struct Cursor {
    pub area: usize,
    pub corner: usize,
}

// ---- a drawing in its tables
// Crate `paint` reads five words of the same row (`Paint::of_area`). Neither crate stands above the other, and a paint without role and rule is what a set
// of areas adds up, so one function for both would lie in a third crate and be cut down again in `paint`.
fn fields_at(areas: &[u32], i: usize) -> Fields
    requires { i * 8 + 8 ≤ length areas.now }
    ensures answer { result ≡ fields_at areas.now i }
{
    let at = i * AREA_WORDS;
    Fields {
        role: areas[at],
        rule: areas[at + records::RULE],
        alpha: areas[at + records::ALPHA],
        red: areas[at + records::RED],
        green: areas[at + records::GREEN],
        blue: areas[at + records::BLUE],
        material: areas[at + records::MATERIAL],
    }
}

// Area i, where it is in use and its fields are in range.
#[tactic(auto, unfolding(crate::specs::Tables::area_row))]
pub fn area_row(areas: &[u32], used: usize, i: usize) -> Result<Record, Refusal>
    requires { used * 8 ≤ length areas.now }
    ensures answer { result ≡ area_row areas.now used i }
{
    if i >= used || areas[i * AREA_WORDS + records::UNNAMED] != 0 {
        return Err(Refusal::Field);
    }
    records::ranged_of(Record::Area(fields_at(areas, i)))
}

impl Cursor {
    fn past(self, r: Record) -> Cursor
        requires { (self.area < 65536) × (self.corner < 65536) }
        ensures answer { result ≡ past_record self r }
    {
        match r {
            Record::Area(_) => Cursor {
                area: self.area + 1,
                ..self
            },
            Record::Open | Record::Bar | Record::Close => self,
            _ => Cursor {
                corner: self.corner + 1,
                ..self
            },
        }
    }
}

// The areas and the corners that a scan has met.
fn cursor_of(state: State) -> Cursor
    ensures answer { result ≡ cursor state.areas state.corners }
{
    Cursor {
        area: state.areas,
        corner: state.corners,
    }
}

// A number of areas or of corners that is not that of the kinds is Broken too.
fn agreed_with(verdict: Result<Counts, Refused>, used: Counts) -> Result<Counts, Refused>
    ensures answer { result ≡ agreed verdict used }
{
    match verdict {
        Ok(counts) if counts.areas == used.areas && counts.corners == used.corners => Ok(counts),
        _ => Err(Refusal::Broken.into()),
    }
}

// A drawing whose tables have the words that its counts speak of.
#[derive(Clone, Copy)]
struct Held<'a> {
    drawing: Drawing<'a>,
    used: Counts,
    ghost ready: { Ready drawing.plan.now drawing.areas.now drawing.xs.now drawing.ys.now used },
}

impl<'a> Held<'a> {
    // Corner i, where it is in use. In `records::named_of` the three kinds are arms of a match over all kinds, so a function of a kind, x and y would save
    // no match there and would be public for this one alone.
    #[tactic(auto, unfolding(crate::specs::Tables::corner_row, records::specs::Record::corner_of))]
    fn corner_row(self, kind: Kind, i: usize) -> Result<Record, Refusal>
        ensures answer { result
            ≡ corner_row (tables_of self.entry.drawing).xs (tables_of self.entry.drawing).ys self.entry.used.corners (kind_number kind) i }
    {
        if i >= self.used.corners {
            return Err(Refusal::Field);
        }
        let (x, y) = (self.drawing.xs[i], self.drawing.ys[i]);
        records::ranged_of(match kind {
            Kind::First => Record::First(x, y),
            Kind::Next => Record::Next(x, y),
            _ => Record::Control(x, y),
        })
    }

    // Record i, with the areas and the corners before it.
    #[tactic(auto, using(crate::proofs::Rowlaws::row_is))]
    fn row(self, i: usize, c: Cursor) -> Result<Record, Refusal>
        requires { i < self.used.records }
        ensures answer { result ≡ record_at (tables_of self.entry.drawing) self.entry.used i c }
    {
        let kind = Kind::try_from(self.drawing.plan[i + PLAN_COUNTS])?;
        match kind {
            Kind::Area => area_row(self.drawing.areas, self.used.areas, c.area),
            Kind::First | Kind::Next | Kind::Control => self.corner_row(kind, c.corner),
            Kind::Open => Ok(Record::Open),
            Kind::Bar => Ok(Record::Bar),
            Kind::Close => Ok(Record::Close),
        }
    }

    // How many records, areas and corners the rows have, or the first refusal and its place.
    fn check(self) -> Result<Counts, Refused>
        ensures answer { result ≡ checked (rebuilt (tables_of self.entry.drawing) self.entry.used 0 (cursor 0 0) self.entry.used.records) }
    {
        let mut s = State::begun();
        for i in 0..self.used.records {
            s = s.advance(self.row(i, cursor_of(s)), i)?;
        }
        s.ended(self.used.records)
    }

    // Writes the records of a drawing that passed: each of its rows is one.
    fn write_all(self, out: &mut [u8])
        requires records_in_bounds { self.used.records * 16 ≤ length out.old }
        requires records_value { all_good (rebuilt (tables_of self.drawing) self.used 0 (cursor 0 0) self.used.records) ≡ true }
        ensures out { out.new ≡ sets out.old 0
            (file_of (good_records (rebuilt (tables_of self.entry.drawing) self.entry.used 0 (cursor 0 0) self.entry.used.records))) }
    {
        let mut c = Cursor { area: 0, corner: 0 };
        for i in 0..self.used.records {
            let Ok(r) = self.row(i, c) else {
                unreachable!()
            };
            records::put(out, i * RECORD_BYTES, &records::raw_of(r));
            c = c.past(r);
        }
    }
}

impl<'a> Drawing<'a> {
    #[tactic(auto, unfolding(crate::specs::Tables::counts_judged))]
    fn check_counts(self, used: Counts) -> Result<Counts, Refused>
        requires { length self.xs.now ≡ length self.ys.now }
        ensures answer { result ≡ counts_judged (drawing_passed self) used }
    {
        if used.records > records::MOST_RECORDS {
            return Err(Refusal::Broken.into());
        }
        if !read::tables_hold(self.plan.len(), self.areas.len(), self.xs.len(), used) {
            return Err(Refusal::Broken.into());
        }
        let held = Held {
            drawing: self,
            used,
        };
        agreed_with(held.check(), used)
    }

    // The counts of the drawing that the lent tables hold: 7 for xs and ys of unequal length, then 12 for tables that hold none.
    #[tactic(auto, unfolding(crate::specs::Tables::drawing_verdict))]
    pub fn check(self) -> Result<Counts, Refused>
        ensures answer { result ≡ drawing_verdict (drawing_passed self) }
    {
        if self.xs.len() != self.ys.len() {
            return Err(Refusal::Argument.into());
        }
        if self.plan.len() < PLAN_COUNTS {
            return Err(Refusal::Broken.into());
        }
        self.check_counts(Counts {
            records: self.plan[read::RECORDS] as usize,
            areas: self.plan[read::AREAS] as usize,
            corners: self.plan[read::CORNERS] as usize,
        })
    }

    // Writes a drawing out as a file. Any tables may be handed in.
    pub fn write(self, out: &mut [u8]) -> Result<usize, Refusal>
        ensures answer { result ≡ write_answer (drawing_passed self) out.old }
        ensures out { out.new ≡ out_after result out.old (file_of (drawn_in (drawing_passed self))) }
    {
        let used = self.check().map_err(|refused| refused.refusal)?;
        if used.records > out.len() / RECORD_BYTES {
            return Err(Refusal::Room);
        }
        let held = Held {
            drawing: self,
            used,
        };
        held.write_all(out);
        Ok(used.records * RECORD_BYTES)
    }
}
