// The answers of the calls as they are handed to C: one number each, and the words of a leaf and of a position.
//
// Each answer is one number: the number of the refusal times 2^32, and its place. Where nothing is refused the high half is 0 and the low
// half is the result.

#![tactic(auto)]

ghost use Rattle.std.specs.Prelude.{◌≡◌, ◌≤◌, ◌/◌, ◌%◌, [], ◌∷◌, cond, leb, length};
ghost use Rattle.std.proofs.lemmas.List.Edits.{sets};
ghost use Rattle.refusals.specs.declared.Refusal.TheVariants.{Room};
ghost use Rattle.refusals.specs.Refusals.{number_of};
ghost use Rattle.answers.specs.Answers.{packed, packed_low, packed_answer, read_number, write_number, read_low, write_low, open_number, split_number};
ghost use Rattle.answers.specs.Answers.{grow_splits, grow_number};
ghost use Rattle.answers.specs.Answers.{word_of, find_room, find_number, leaf_written};
ghost use Rattle.answers.specs.Readings.{spot_room, spot_number, spot_written, low_half, log_number, row_place, row_number};

use find_leaf::FoundLeaf;
use grammar::Counts;
use grow::Growth;
use position::Spot;
use refusals::{Refusal, Refused};

// The words of a leaf that is found.
const LEAF_WORDS: usize = 8;

// The words of what shows at a position and of how far that reaches.
const SPOT_WORDS: usize = 10;

// What the number of splits has more where growing is full.
const FULL: usize = 2147483648;

// The number of a refusal and its place, or 0 and the result.
fn pack(answer: Result<usize, Refused>) -> u64
    requires { packed_low answer ≤ 4294967295 }
    ensures answer { result ≡ packed_answer answer }
{
    let (number, low) = match answer {
        Ok(n) => (0, n),
        Err(e) => (u32::from(e.refusal), e.place),
    };
    (u64::from(number) << 32) + (low as u64)
}

// A refusal from the state, or one that is never about a place.
fn refused(r: Refusal) -> u64
    ensures answer { result ≡ packed (number_of r) 0 }
{
    pack(Err(r.into()))
}

pub fn pack_read(v: Result<Counts, Refused>) -> u64
    requires { read_low v ≤ 4096 }
    ensures answer { result ≡ read_number v }
{
    pack(v.map(|k| k.records))
}

pub fn pack_written(w: Result<usize, Refusal>) -> u64
    requires { write_low w ≤ 65536 }
    ensures answer { result ≡ write_number w }
{
    pack(w.map_err(Refused::from))
}

// How many entries an opening has, or the number of a split's first child.
pub fn pack_count(a: Result<u32, Refusal>) -> u64
    ensures opened { result ≡ open_number a }
    ensures split { result ≡ split_number a }
{
    pack(a.map(|count| count as usize).map_err(Refused::from))
}

// "full" has 2^31 more than "done".
pub fn pack_grow(a: Result<Growth, Refusal>) -> u64
    requires { grow_splits a ≤ 4096 }
    ensures answer { result ≡ grow_number a }
{
    let splits = a.map(|growth| match growth {
        Growth::Done(splits) => splits as usize,
        Growth::Full(splits) => FULL + splits as usize,
    });
    pack(splits.map_err(Refused::from))
}

// ---- the words that are written
// Writes these words, and gives this number, or 11 where the table is too short.
fn put(out: &mut [u32], words: &[u32], number: u32) -> u64
    ensures answer { result ≡ cond (leb (length words.now) (length out.old)) (packed 0 number) (packed (number_of Room) 0) }
    ensures out { out.new ≡ cond (leb (length words.now) (length out.old)) (sets out.old 0 words.now) out.old }
{
    if out.len() < words.len() {
        return refused(Refusal::Room);
    }
    records::put(out, 0, words);
    pack(Ok(number as usize))
}

// The words of a leaf.
fn leaf_words(l: FoundLeaf) -> [u32; LEAF_WORDS]
    ensures words { result ≡ l.cell ∷ l.x ∷ l.y ∷ l.side ∷ l.steps ∷ l.entries ∷ l.lines ∷ word_of l.uniform ∷ [] }
{
    [
        l.cell,
        l.x,
        l.y,
        l.side,
        l.steps,
        l.entries,
        l.lines,
        l.uniform.into(),
    ]
}

// A leaf that was found, or 11.
pub fn put_found(out: &mut [u32], a: Result<FoundLeaf, Refusal>) -> u64
    ensures answer { result ≡ find_number (find_room a (length out.old)) }
    ensures out { out.new ≡ leaf_written a out.old }
{
    match a {
        Ok(leaf) => put(out, &leaf_words(leaf), leaf.cell),
        Err(r) => refused(r),
    }
}

// The six words of what shows, and the four of how far that reaches.
// (`as` asks that the number fits, so the low half of the set is taken by its remainder.)
fn spot_words(s: Spot) -> [u32; SPOT_WORDS]
    ensures words { result ≡ (s.set % 4294967296) ∷ (s.set / 4294967296) ∷ s.material ∷ s.red ∷ s.green ∷ s.blue ∷
        word_of s.uniform ∷ s.x ∷ s.y ∷ s.side ∷ [] }
{
    [
        (s.set % 4294967296) as u32,
        (s.set >> 32) as u32,
        s.material,
        s.red,
        s.green,
        s.blue,
        s.uniform.into(),
        s.x,
        s.y,
        s.side,
    ]
}

// What shows, or 11. `put_found` has the same two arms: what is written and what is answered is each type's own, so a trait for two would be no plainer.
pub fn put_shown(out: &mut [u32], a: Result<Spot, Refusal>) -> u64
    ensures answer { result ≡ spot_number (spot_room a (length out.old)) }
    ensures out { out.new ≡ spot_written a out.old }
{
    match a {
        Ok(spot) => put(out, &spot_words(spot), spot.material),
        Err(r) => refused(r),
    }
}

// ---- a zone log
// A place or a result, or 4,294,967,295 where it is more.
fn low_half(n: usize) -> usize
    ensures answer { result ≡ low_half n }
    ensures range { result ≤ 4294967295 }
{
    n.min(u32::MAX as usize)
}

pub fn pack_log(a: Result<usize, Refused>) -> u64
    ensures answer { result ≡ log_number a }
{
    pack(
        a.map(low_half).map_err(|e| Refused {
            place: low_half(e.place),
            ..e
        }),
    )
}

// ---- a row of pixels
pub fn pack_row(a: Result<(), Refused>) -> u64
    requires { row_place a ≤ 4096 }
    ensures answer { result ≡ row_number a }
{
    pack(a.map(|()| 0))
}
