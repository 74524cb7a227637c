// One record: its sixteen bytes, and what they say.

#![tactic(auto)]

ghost use Rattle.std.specs.Prelude.{◌≡◌, ◌+◌, ◌*◌, ◌%◌, ◌≤◌, ◌<◌, length};
ghost use Rattle.std.proofs.lemmas.List.Edits.{sets};
ghost use Rattle.records.specs.Record.{paint_range, clip_range, area_range, corner_range, in_range, ranged, kind_of};
ghost use Rattle.records.specs.Kinds.{kind_number, kind_at};
ghost use Rattle.records.specs.Bytes.{raw_at, raw_bytes, number2, number4, area_unnamed, corner_unnamed, delimiter_unnamed, unnamed_zero, fields_of, named};
ghost use Rattle.records.specs.Bytes.{decoded_raw, raw_area, raw_corner, raw_delimiter, bytes_of};

use refusals::Refusal;

// The limits of a drawing.
pub const MOST_RECORDS: usize = 4096;

pub const MOST_AREAS: usize = 64;

pub const MOST_CORNERS: usize = 2048;

// How many bytes a record has.
pub const RECORD_BYTES: usize = 16;

// The kinds of records and their numbers, as byte 0 of a record and a word of a plan have them.
#[derive(Clone, Copy, Debug, PartialEq, Eq)]
pub enum Kind {
    Area = 1,
    First = 2,
    Next = 3,
    Open = 4,
    Bar = 5,
    Close = 6,
    Control = 7,
}

impl From<Kind> for u32 {
    ghost from_gives = { λ k n. n ≡ kind_number k };

    fn from(kind: Kind) -> u32 {
        kind as u32
    }
}

impl TryFrom<u32> for Kind {
    type Error = Refusal;

    ghost try_from_gives = { λ n r. r ≡ kind_at n };

    #[tactic(auto, unfolding(crate::specs::Kinds::kind_at))]
    fn try_from(number: u32) -> Result<Kind, Refusal> {
        match number {
            1 => Ok(Kind::Area),
            2 => Ok(Kind::First),
            3 => Ok(Kind::Next),
            4 => Ok(Kind::Open),
            5 => Ok(Kind::Bar),
            6 => Ok(Kind::Close),
            7 => Ok(Kind::Control),
            _ => Err(Refusal::Kind),
        }
    }
}

// The roles, the fill rules, the largest alpha and channel, and the range of a material. Roles and rules are words, not enums: before the check the table
// of areas may have any word there.
pub const PAINT: u32 = 0;

pub const CLIP: u32 = 1;

pub const NON_ZERO: u32 = 0;

pub const EVEN_ODD: u32 = 1;

pub const OPAQUE: u32 = 255;

const MOST_CHANNEL: u32 = 255;

const LEAST_MATERIAL: u32 = 1;

const MOST_MATERIAL: u32 = 65535;

// The side of the grid: the largest coordinate of a corner. Another meaning of the same number, the side of cell 0, is `celltable::GRID`.
pub const GRID: u32 = 65536;

// How many words an area has in the table of areas, and which is which; word 0 is its role.
pub const AREA_WORDS: usize = 8;

pub const RULE: usize = 1;

pub const ALPHA: usize = 2;

pub const RED: usize = 3;

pub const GREEN: usize = 4;

pub const BLUE: usize = 5;

pub const MATERIAL: usize = 6;

pub const UNNAMED: usize = 7;

// The fields of an area. The role and the rule are words, since a word out of range is refused after it was read.
#[derive(Clone, Copy, Debug, PartialEq, Eq)]
pub struct Fields {
    pub role: u32,
    pub rule: u32,
    pub alpha: u32,
    pub red: u32,
    pub green: u32,
    pub blue: u32,
    pub material: u32,
}

// What sixteen bytes, or a row of a drawing's tables, say. A corner is two numbers, and no struct of x and y: the definitions of specs build records by
// `First x y`, and a record is made of any words before its range is tried, so that a struct would say nothing of them.
#[derive(Clone, Copy, Debug, PartialEq, Eq)]
pub enum Record {
    Area(Fields),
    First(u32, u32),
    Next(u32, u32),
    Open,
    Bar,
    Close,
    Control(u32, u32),
}

impl Record {
    pub fn kind(self) -> Kind
        ensures answer { kind_number result ≡ kind_of self }
    {
        match self {
            Record::Area(_) => Kind::Area,
            Record::First(_, _) => Kind::First,
            Record::Next(_, _) => Kind::Next,
            Record::Open => Kind::Open,
            Record::Bar => Kind::Bar,
            Record::Close => Kind::Close,
            Record::Control(_, _) => Kind::Control,
        }
    }
}

// The bytes of a record.
pub type Raw = [u8; RECORD_BYTES];

// The sixteen bytes of record i, place by place, as `raw_at` of the specs names them. A loop over an array of zeros would need a proof that takes its result
// apart into the same sixteen places.
pub fn read_raw(records: &[u8], i: usize) -> Raw
    requires { i * 16 + 16 ≤ length records.now }
    ensures answer { raw_at result 0 ≡ raw_at records.now i }
{
    let at = i * RECORD_BYTES;
    [
        records[at],
        records[at + 1],
        records[at + 2],
        records[at + 3],
        records[at + 4],
        records[at + 5],
        records[at + 6],
        records[at + 7],
        records[at + 8],
        records[at + 9],
        records[at + 10],
        records[at + 11],
        records[at + 12],
        records[at + 13],
        records[at + 14],
        records[at + 15],
    ]
}

// Bytes and words are read and put one by one, and not by `copy_from_slice`, nor gone over by a slice's `iter`: the code of these keeps pointers in
// structs, whose size depends on the processor, and the ports (docs/PORTING.md) are made of a module in which no pointer stands in a struct.

// Writes bytes or words from place `at` on.
pub fn put<T: Copy>(out: &mut [T], at: usize, values: &[T])
    requires { at + length values.now ≤ length out.old }
    ensures out { out.new ≡ sets out.old at values.now }
{
    for k in 0..values.len() {
        out[at + k] = values[k];
    }
}

// Two bytes, the low one first.
fn two_bytes(a: u8, b: u8) -> u32
    ensures answer { result ≡ number2 a b }
{
    u16::from_le_bytes([a, b]).into()
}

// Four bytes, the lowest first.
fn four_bytes(a: u8, b: u8, d: u8, e: u8) -> u32
    ensures answer { result ≡ number4 a b d e }
{
    u32::from_le_bytes([a, b, d, e])
}

// ---- ranges
fn paint_range(f: Fields) -> bool
    ensures answer { result ≡ paint_range f }
{
    f.alpha <= OPAQUE
        && f.red <= MOST_CHANNEL
        && f.green <= MOST_CHANNEL
        && f.blue <= MOST_CHANNEL
        && LEAST_MATERIAL <= f.material
        && f.material <= MOST_MATERIAL
}

fn clip_range(f: Fields) -> bool
    ensures answer { result ≡ clip_range f }
{
    f.alpha == 0 && f.red == 0 && f.green == 0 && f.blue == 0 && f.material == 0
}

#[tactic(auto, unfolding(crate::specs::Record::area_range))]
fn area_range(f: Fields) -> bool
    ensures answer { result ≡ area_range f }
{
    if f.rule > EVEN_ODD {
        false
    } else if f.role == PAINT {
        paint_range(f)
    } else if f.role == CLIP {
        clip_range(f)
    } else {
        false
    }
}

fn corner_range(x: u32, y: u32) -> bool
    ensures answer { result ≡ corner_range x y }
{
    (x <= GRID) & (y <= GRID)
}

fn in_range(r: Record) -> bool
    ensures answer { result ≡ in_range r }
{
    match r {
        Record::Area(f) => area_range(f),
        Record::First(x, y) | Record::Next(x, y) | Record::Control(x, y) => corner_range(x, y),
        _ => true,
    }
}

// A record whose fields are in range.
pub fn ranged_of(r: Record) -> Result<Record, Refusal>
    ensures answer { result ≡ ranged r }
{
    if in_range(r) {
        Ok(r)
    } else {
        Err(Refusal::Field)
    }
}

// ---- from bytes
fn area_unnamed(r: Raw) -> bool
    ensures answer { result ≡ area_unnamed (raw_at r 0) }
{
    r[7] == 0 && r[10..] == [0; 6]
}

fn corner_unnamed(r: Raw) -> bool
    ensures answer { result ≡ corner_unnamed (raw_at r 0) }
{
    r[1..4] == [0; 3] && r[12..] == [0; 4]
}

fn delimiter_unnamed(r: Raw) -> bool
    ensures answer { result ≡ delimiter_unnamed (raw_at r 0) }
{
    r[1..] == [0; 15]
}

#[tactic(auto, unfolding(crate::specs::Bytes::unnamed_zero))]
fn unnamed_zero(kind: Kind, r: Raw) -> bool
    requires { kind_number kind ≡ (raw_at r 0).b0 }
    ensures answer { result ≡ unnamed_zero (raw_at r 0) }
{
    match kind {
        Kind::Area => area_unnamed(r),
        Kind::First | Kind::Next | Kind::Control => corner_unnamed(r),
        Kind::Open | Kind::Bar | Kind::Close => delimiter_unnamed(r),
    }
}

#[tactic(auto, unfolding(crate::specs::Bytes::fields_of))]
fn fields_of(r: Raw) -> Fields
    ensures answer { result ≡ fields_of (raw_at r 0) }
{
    Fields {
        role: r[1].into(),
        rule: r[2].into(),
        alpha: r[3].into(),
        red: r[4].into(),
        green: r[5].into(),
        blue: r[6].into(),
        material: two_bytes(r[8], r[9]),
    }
}

// The record that the named bytes say, of any bytes: a kind 0 is taken as a control corner, and one over 7 as a close. `decoded_raw` and `read::fill` ask
// it of bytes whose kind was tried, but a public function that was promised for any bytes may not ask for less.
#[tactic(auto, using(crate::proofs::Kindlaws::named_is))]
pub fn named_of(r: Raw) -> Record
    ensures answer { result ≡ named (raw_at r 0) }
{
    let x = four_bytes(r[4], r[5], r[6], r[7]);
    let y = four_bytes(r[8], r[9], r[10], r[11]);
    match Kind::try_from(u32::from(r[0])) {
        Ok(Kind::Area) => Record::Area(fields_of(r)),
        Ok(Kind::First) => Record::First(x, y),
        Ok(Kind::Next) => Record::Next(x, y),
        Ok(Kind::Open) => Record::Open,
        Ok(Kind::Bar) => Record::Bar,
        Ok(Kind::Close) => Record::Close,
        Ok(Kind::Control) => Record::Control(x, y),
        Err(_) if r[0] == 0 => Record::Control(x, y),
        Err(_) => Record::Close,
    }
}

// What sixteen bytes say.
#[tactic(auto, using(crate::proofs::Kindlaws::decoded_is, crate::proofs::Kindlaws::kind_is))]
pub fn decoded_raw(r: Raw) -> Result<Record, Refusal>
    ensures answer { result ≡ decoded_raw (raw_at r 0) }
{
    let kind = Kind::try_from(u32::from(r[0]))?;
    if !unnamed_zero(kind, r) {
        return Err(Refusal::Field);
    }
    ranged_of(named_of(r))
}

// ---- to bytes
fn low_byte(x: u32) -> u8
    ensures answer { result ≡ x % 256 }
{
    x.to_le_bytes()[0]
}

fn raw_area(f: Fields) -> Raw
    ensures answer { result ≡ raw_bytes (raw_area f) }
{
    let [low, high, _, _] = f.material.to_le_bytes();
    [
        Kind::Area as u8,
        low_byte(f.role),
        low_byte(f.rule),
        low_byte(f.alpha),
        low_byte(f.red),
        low_byte(f.green),
        low_byte(f.blue),
        0,
        low,
        high,
        0,
        0,
        0,
        0,
        0,
        0,
    ]
}

fn raw_corner(kind: Kind, x: u32, y: u32) -> Raw
    ensures answer { result ≡ raw_bytes (raw_corner (kind_number kind) x y) }
{
    let [x0, x1, x2, x3] = x.to_le_bytes();
    let [y0, y1, y2, y3] = y.to_le_bytes();
    [
        kind as u8, 0, 0, 0, x0, x1, x2, x3, y0, y1, y2, y3, 0, 0, 0, 0,
    ]
}

fn raw_delimiter(kind: Kind) -> Raw
    ensures answer { result ≡ raw_bytes (raw_delimiter (kind_number kind)) }
{
    [kind as u8, 0, 0, 0, 0, 0, 0, 0, 0, 0, 0, 0, 0, 0, 0, 0]
}

// The bytes of a record.
pub fn raw_of(r: Record) -> Raw
    ensures answer { result ≡ bytes_of r }
{
    match r {
        Record::Area(f) => raw_area(f),
        Record::First(x, y) | Record::Next(x, y) | Record::Control(x, y) => raw_corner(
            r.kind(),
            x,
            y,
        ),
        Record::Open | Record::Bar | Record::Close => raw_delimiter(r.kind()),
    }
}
