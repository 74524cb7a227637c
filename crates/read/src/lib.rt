// Reading a file of records into the four tables of a drawing.

#![tactic(auto)]

ghost use Rattle.std.specs.Prelude.{◌≡◌, true, ◌+◌, ◌*◌, ◌≤◌, length, set};
ghost use Rattle.std.proofs.lemmas.List.Edits.{sets};
ghost use Rattle.grammar.specs.code.Machine.{scan_n, start_n};
ghost use Rattle.read.specs.Words.{words_of_kind, words_of_area, words_of_x, words_of_y, plan_words, area_words, x_words, y_words};
ghost use Rattle.read.specs.Reading.{decoded_from, records_lent, verdict_of, holds, read_lent, left_by, Filed};

use grammar::{Counts, State};
use records::{AREA_WORDS, RECORD_BYTES, Record};
use refusals::{Refusal, Refused};

// The plan: its first words, the counts in use; the kinds of the records follow.
pub const RECORDS: usize = 0;

pub const AREAS: usize = 1;

pub const CORNERS: usize = 2;

pub const PLAN_COUNTS: usize = 3;

// ---- the file
fn scan_records(records: &[u8], n: usize) -> Result<State, Refused>
    requires { n * 16 ≤ length records.now }
    ensures answer { result ≡ scan_n start_n 0 (decoded_from records.now 0 n) }
{
    let mut s = State::begun();
    for i in 0..n {
        s = s.advance(records::decoded_raw(records::read_raw(records, i)), i)?;
    }
    Ok(s)
}

// The first refusal of a file and its place, or what it holds.
pub fn check_records(records: &[u8]) -> Result<Counts, Refused>
    ensures answer { result ≡ verdict_of records.now }
{
    let n = records.len() / RECORD_BYTES;
    if records.len() % RECORD_BYTES != 0 || n > records::MOST_RECORDS {
        return Err(Refusal::Length.into());
    }
    scan_records(records, n)?.ended(n)
}

// ---- a record into a table
fn put_area(table: &mut [u32], at: usize, r: Record) -> usize
    requires { at + length (words_of_area r) ≤ length table.old }
    ensures answer { result ≡ at + length (words_of_area r) }
    ensures table { table.new ≡ sets table.old at (words_of_area r) }
{
    if let Record::Area(f) = r {
        let words = [
            f.role, f.rule, f.alpha, f.red, f.green, f.blue, f.material, 0,
        ];
        records::put(table, at, &words);
        return at + AREA_WORDS;
    }
    at
}

fn put_corner(xs: &mut [u32], ys: &mut [u32], at: usize, r: Record) -> usize
    requires xs_room { at + length (words_of_x r) ≤ length xs.old }
    requires ys_room { at + length (words_of_y r) ≤ length ys.old }
    ensures answer { result ≡ at + length (words_of_x r) }
    ensures alike { result ≡ at + length (words_of_y r) }
    ensures xs { xs.new ≡ sets xs.old at (words_of_x r) }
    ensures ys { ys.new ≡ sets ys.old at (words_of_y r) }
{
    match r {
        Record::First(x, y) | Record::Next(x, y) | Record::Control(x, y) => {
            xs[at] = x;
            ys[at] = y;
            at + 1
        }
        _ => at,
    }
}

// ---- reading
// Tables of these lengths hold a drawing of this size.
#[tactic(auto, unfolding(crate::specs::Reading::holds))]
pub fn tables_hold(p: usize, a: usize, d: usize, k: Counts) -> bool
    ensures answer { result ≡ holds p a d k }
{
    PLAN_COUNTS <= p && k.records <= p - PLAN_COUNTS && k.areas <= a / AREA_WORDS && k.corners <= d
}

fn put_header(plan: &mut [u32], k: Counts)
    requires { (3 ≤ length plan.old) × (k.records ≤ 4096) × (k.areas ≤ 64) × (k.corners ≤ 2048) }
    ensures plan { plan.new ≡ set (set (set plan.old 0 k.records) 1 k.areas) 2 k.corners }
{
    plan[RECORDS] = k.records as u32;
    plan[AREAS] = k.areas as u32;
    plan[CORNERS] = k.corners as u32;
}

// Writes an accepted file's counts and the words of its records in the four tables. No record is checked again, since that would take longer and be no plainer.
// The tables are lent to be written, here and below, so each is a parameter: a struct of them would need a clause for each table in each contract, that
// it still lends the same.
fn fill(
    records: &[u8],
    plan: &mut [u32],
    areas: &mut [u32],
    xs: &mut [u32],
    ys: &mut [u32],
    k: Counts,
)
    requires filed { Filed records.now k }
    requires records_in_bounds { (k.records + 3 ≤ length plan.old) × (k.areas * 8 ≤ length areas.old)
        × (k.corners ≤ length xs.old) × (k.corners ≤ length ys.old) }
    ensures plan { plan.new ≡ sets plan.old 0 (plan_words (records_lent records)) }
    ensures areas { areas.new ≡ sets areas.old 0 (area_words (records_lent records)) }
    ensures xs { xs.new ≡ sets xs.old 0 (x_words (records_lent records)) }
    ensures ys { ys.new ≡ sets ys.old 0 (y_words (records_lent records)) }
{
    put_header(plan, k);
    let mut area = 0;
    let mut corner = 0;
    for i in 0..k.records {
        let r = records::named_of(records::read_raw(records, i));
        plan[PLAN_COUNTS + i] = r.kind().into();
        area = put_area(areas, area, r);
        corner = put_corner(xs, ys, corner, r);
    }
}

// Reads a file into four tables. Any tables may be handed in.
pub fn read(
    records: &[u8],
    plan: &mut [u32],
    areas: &mut [u32],
    xs: &mut [u32],
    ys: &mut [u32],
) -> Result<Counts, Refused>
    ensures answer { result ≡ read_lent records plan areas xs ys }
    ensures plan { plan.new ≡ left_by result plan.old (plan_words (records_lent records)) }
    ensures areas { areas.new ≡ left_by result areas.old (area_words (records_lent records)) }
    ensures xs { xs.new ≡ left_by result xs.old (x_words (records_lent records)) }
    ensures ys { ys.new ≡ left_by result ys.old (y_words (records_lent records)) }
{
    if xs.len() != ys.len() {
        return Err(Refusal::Argument.into());
    }
    let counts = check_records(records)?;
    if !tables_hold(plan.len(), areas.len(), xs.len(), counts) {
        return Err(Refusal::Room.into());
    }
    fill(records, plan, areas, xs, ys, counts);
    Ok(counts)
}
