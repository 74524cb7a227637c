// Streams of entries, four words each, in a lent table.

#![tactic(auto)]

ghost use Rattle.std.specs.Prelude.{◌≡◌, false, ◌+◌, ◌*◌, ◌-◌, ◌≤◌, ◌<◌, length, None, Some, MatchOption};
ghost use Rattle.stream.specs.Table.{words_at, words_from, put_at};
ghost use Rattle.stream.specs.Grammar.{env_of, env_passed, corner_met, line_range, curve_range, shortcut_range, role_fits, used_range};
ghost use Rattle.stream.specs.Grammar.{ContextReady, Passed, accepts};
ghost use Rattle.stream.specs.Entry.{is_curve, is_line, is_segment};
ghost use Rattle.stream.specs.Kinds.{kind_number, kind_at};
ghost use Rattle.stream.specs.code.Machine.{in_groups, with_area_n, area_fits_n, other_n};
ghost use Rattle.stream.specs.code.Machine.{segment_fits, run_fits, run_to, scan_n, end_passed, Apart, Ran, Onward};
ghost use Rattle.stream.specs.code.Checks.{told, told_at, checked};

use curves::Point;
use groups::Groups;
use records::Record;
use refusals::Refusal;

// How many words an entry has.
pub const ENTRY_WORDS: usize = 4;

// Signed words: the start numbers 2,048 and -2,048, which all others lie between, and the signs 1 and -1. They are compared as words: the definitions of
// specs (`start_range`, `shortcut_range`) do so, and each signed comparison would have to be led back to them. `evaluate` casts where it adds.
pub const MOST_START: u32 = 2048;

pub const LEAST_START: u32 = 4294965248;

pub const PLUS_ONE: u32 = 1;

pub const MINUS_ONE: u32 = 4294967295;

// Entries in a table, and in one stream, which has at most one for each record.
pub const MOST_ENTRIES: usize = 65536;

pub const MOST_IN_STREAM: usize = records::MOST_RECORDS;

// The four words of an entry. `kind` is the word as the table has it: before the check any number.
#[derive(Clone, Copy)]
pub struct Words {
    pub kind: u32,
    pub p: u32,
    pub q: u32,
    pub r: u32,
}

// The kinds of entries, by the number that is an entry's first word.
#[derive(Clone, Copy, Debug, PartialEq, Eq)]
pub enum Kind {
    Open = 1,
    Bar,
    Close,
    Area,
    Line,
    Shortcut,
    Passes,
    Curve,
}

impl From<Kind> for u32 {
    ghost from_gives = { λ k n. n ≡ kind_number k };

    fn from(kind: Kind) -> u32 {
        kind as u32
    }
}

impl Words {
    // The kind of an entry, if its first word is that of one. No `TryFrom`, as `records::Kind` has it: no refusal goes with an unknown kind here.
    pub fn named(self) -> Option<Kind>
        ensures answer { result ≡ kind_at self.kind }
    {
        match self.kind {
            1 => Some(Kind::Open),
            2 => Some(Kind::Bar),
            3 => Some(Kind::Close),
            4 => Some(Kind::Area),
            5 => Some(Kind::Line),
            6 => Some(Kind::Shortcut),
            7 => Some(Kind::Passes),
            8 => Some(Kind::Curve),
            _ => None,
        }
    }

    // Whether this is a curve. This and the next two compare the number: tried by `named`, and rows of pixels take 15 % more instructions.
    pub fn is_curve(self) -> bool
        ensures answer { result ≡ is_curve self.kind }
    {
        self.kind == u32::from(Kind::Curve)
    }

    // Whether this is a line or a curve.
    pub fn is_line(self) -> bool
        ensures answer { result ≡ is_line self.kind }
    {
        (self.kind == u32::from(Kind::Line)) | self.is_curve()
    }

    // Whether this is a line, a curve or a shortcut.
    pub fn is_segment(self) -> bool
        ensures answer { result ≡ is_segment self.kind }
    {
        self.is_line() | (self.kind == u32::from(Kind::Shortcut))
    }
}

// What a stream is read against, beside the drawing's tables: the areas and the corners in use, and the cell's low row and its side.
#[derive(Clone, Copy)]
pub struct Bounds {
    pub areas: usize,
    pub corners: usize,
    pub low: u32,
    pub side: u32,
}

// What a stream is read against: the drawing's areas and corners, and the bounds on what an entry may name.
#[derive(Clone, Copy)]
pub struct Context<'a> {
    pub areas: &'a [u32],
    pub xs: &'a [u32],
    pub ys: &'a [u32],
    pub bounds: Bounds,
}

// A stream in the table of entries: its first entry, and how many it has. It is no slice of its words: a cell names a stream by these two numbers, and so do
// `Passed` and the theorems, so that at each call a slice would have to be led back to the table, which is no plainer.
#[derive(Clone, Copy)]
pub struct Stream<'a> {
    pub entries: &'a [u32],
    pub first: usize,
    pub count: usize,
}

// A stream that has passed `check_stream` in this context.
#[derive(Clone, Copy)]
pub struct PassedStream<'a> {
    pub stream: Stream<'a>,
    pub context: Context<'a>,
    pub ghost passed: { Passed stream.entries.now stream.first stream.count (env_of context) },
}

// Where a reader of a stream stands. `held`: an area, a line, a curve or a shortcut stands straight before; it says so by itself, since no value goes
// with it. `areas`, `segments`: how many areas, and how many lines, curves and shortcuts, so far.
#[derive(Clone, Copy)]
pub struct Scan {
    pub groups: Groups,
    pub held: bool,
    pub areas: usize,
    pub segments: u32,
}

// ---- the table of entries
pub fn read_entry(entries: &[u32], i: usize) -> Words
    requires { i * 4 + 4 ≤ length entries.now }
    ensures answer { result ≡ words_at entries.now i }
{
    let at = i * ENTRY_WORDS;
    Words {
        kind: entries[at],
        p: entries[at + 1],
        q: entries[at + 2],
        r: entries[at + 3],
    }
}

// Writes the four words of entry i.
pub fn put_entry(table: &mut [u32], i: usize, w: Words)
    requires { i * 4 + 4 ≤ length table.old }
    ensures table { table.new ≡ put_at table.old i w }
{
    let at = i * ENTRY_WORDS;
    table[at] = w.kind;
    table[at + 1] = w.p;
    table[at + 2] = w.q;
    table[at + 3] = w.r;
}

// ---- the numbers of an entry
// Whether an area's role fits a paint side, or a clip side.
fn role_fits(d: Result<Record, Refusal>, paint: bool) -> bool
    ensures answer { result ≡ role_fits d paint }
{
    let role = if paint { records::PAINT } else { records::CLIP };
    matches!(d, Ok(Record::Area(f)) if f.role == role)
}

// A context whose tables hold what its bounds speak of.
#[derive(Clone, Copy)]
struct ReadyContext<'a> {
    context: Context<'a>,
    ghost ready: { ContextReady context },
}

impl ReadyContext<'_> {
    // Whether corner i is in use and its coordinates are in range.
    fn corner_met(self, i: usize) -> bool
        ensures answer { result ≡
            corner_met (env_of self.entry.context).xs (env_of self.entry.context).ys (env_of self.entry.context).used.corners i }
    {
        let c = self.context;
        i < c.bounds.corners && (c.xs[i] <= records::GRID) & (c.ys[i] <= records::GRID)
    }

    // Whether the area that is named is in range and fits here, and its start number is in range.
    fn area_fits(self, groups: Groups, w: Words) -> bool
        ensures answer { result ≡
            area_fits_n (env_of self.entry.context).areas (env_of self.entry.context).used.areas groups.number w }
    {
        let c = self.context;
        let d = drawing::area_row(c.areas, c.bounds.areas, w.p as usize);
        let fits = role_fits(d, groups.on_paint());
        fits & ((w.q <= MOST_START) | (LEAST_START <= w.q))
    }

    // Whether both corners of a line are in use and in range.
    fn line_range(self, w: Words) -> bool
        ensures answer { result ≡
            line_range (env_of self.entry.context).xs (env_of self.entry.context).ys (env_of self.entry.context).used.corners w.p w.q }
    {
        self.corner_met(w.p as usize) & self.corner_met(w.q as usize)
    }

    // Whether the three corners of a curve are in use and in range, and in order and span.
    fn curve_range(self, w: Words) -> bool
        ensures answer { result ≡
            curve_range (env_of self.entry.context).xs (env_of self.entry.context).ys (env_of self.entry.context).used.corners w.p }
    {
        let xs = self.context.xs;
        let ys = self.context.ys;
        let p = w.p as usize;
        let control = p + 1;
        let end = p + 2;
        if self.context.bounds.corners <= end {
            return false;
        }
        let met = self.corner_met(p) & (self.corner_met(control) & self.corner_met(end));
        let fits = curves::curve_fits(
            Point { x: xs[p], y: ys[p] },
            Point {
                x: xs[control],
                y: ys[control],
            },
            Point {
                x: xs[end],
                y: ys[end],
            },
        );
        met & fits
    }

    // Whether a shortcut has the sign 1 or -1, and rows, all of them inside the cell.
    fn shortcut_range(self, w: Words) -> bool
        ensures answer { result ≡
            shortcut_range (env_of self.entry.context).used.low (env_of self.entry.context).used.side w.p w.q w.r }
    {
        let low = self.context.bounds.low;
        let beyond = (low as u64) + (self.context.bounds.side as u64);
        ((w.p == PLUS_ONE) | (w.p == MINUS_ONE))
            & ((low <= w.q) & ((w.q < w.r) & ((w.r as u64) <= beyond)))
    }

    // Whether the numbers of a line, a curve or a shortcut are in range.
    fn segment_fits(self, w: Words) -> bool
        ensures answer { result ≡
            segment_fits (env_of self.entry.context).xs (env_of self.entry.context).ys (env_of self.entry.context).used w }
    {
        match w.named() {
            Some(Kind::Curve) => self.curve_range(w),
            Some(Kind::Line) => self.line_range(w),
            _ => self.shortcut_range(w),
        }
    }
}

// ---- one entry more
impl Scan {
    // The same areas and lines, in other groups.
    fn in_groups(self, groups: Groups) -> Scan
        ensures answer { result ≡ in_groups self groups.number }
    {
        Scan {
            groups,
            held: false,
            ..self
        }
    }

    // An area, if it may stand here: at most 64.
    fn with_area(self, ok: bool) -> Option<Scan>
        ensures answer { result ≡ with_area_n self ok }
    {
        if ok && self.areas < records::MOST_AREAS {
            Some(Scan {
                held: true,
                areas: self.areas + 1,
                ..self
            })
        } else {
            None
        }
    }

    // One entry more, where a line, a curve or a shortcut does not fit: `scan_run` takes those that do.
    fn step(self, context: ReadyContext, w: Words) -> Option<Scan>
        ensures answer { result ≡ other_n (env_of context.entry.context).areas (env_of context.entry.context).used.areas self w }
    {
        let groups = match w.named()? {
            Kind::Area => return self.with_area(context.area_fits(self.groups, w)),
            Kind::Open if self.groups.has_room() => self.groups.opened(),
            Kind::Bar if self.groups.on_left() => self.groups.barred(),
            Kind::Close if self.groups.on_right() => self.groups.closed(),
            Kind::Passes if !self.groups.on_paint() => self.groups,
            _ => return None,
        };
        Some(self.in_groups(groups))
    }
}

// ---- lines, curves and shortcuts in a row
// How many there are with those before, which is at most 2,048; how many of them are lines or curves; and the entry behind them.
#[derive(Clone, Copy)]
pub struct Run {
    pub segments: usize,
    pub lines: usize,
    pub next: usize,
}

// A run from entry `from` up to entry `next`, with so many lines and curves in it and so many entries like it before.
fn run_to(lines: usize, before: usize, from: usize, next: usize) -> Option<Run>
    requires { (from ≤ next) × (next ≤ from + 4096) × (before < 4294967296) }
    ensures answer { result ≡ run_to lines before from next }
{
    let segments = before + (next - from);
    if (next == from) | (segments <= records::MOST_CORNERS) {
        Some(Run {
            segments,
            lines,
            next,
        })
    } else {
        None
    }
}

// The lines, curves and shortcuts from entry `from` on, where `before` stand before, if all are in range and few enough.
// That the stream lies in its table is a clause here and in `scan_next` and `scan_all`, not a type: each also bounds how many entries are left, from its own
// entry on, so that a struct would state one half of what each asks.
fn scan_run(stream: Stream, from: usize, context: ReadyContext, before: usize) -> Option<Run>
    requires from_le_end { (from ≤ stream.first + stream.count)
        × (stream.first + stream.count ≤ from + 4096)
        × ((stream.first + stream.count) * 4 ≤ length stream.entries.now) }
    requires before_bound { before < 4294967296 }
    ensures answer { MatchOption result
        (run_fits (env_of context.entry.context).xs (env_of context.entry.context).ys (env_of context.entry.context).used before
        (words_from stream.entry.entries.now from (end_passed stream - from))
        ≡ false)
        (λ r. Ran (env_of context.entry.context) stream.entry.entries.now from (end_passed stream) before r) }
{
    let end = stream.first + stream.count;
    let mut lines: usize = 0;
    for i in from..end {
        let w = read_entry(stream.entries, i);
        if !w.is_segment() {
            return run_to(lines, before, from, i);
        }
        if !context.segment_fits(w) {
            return None;
        }
        if w.is_line() {
            lines += 1;
        }
    }
    run_to(lines, before, from, end)
}

// ---- a stream
// Where a reader stands, how many lines and curves it has passed, and the entry from which it goes on.
#[derive(Clone, Copy)]
pub struct Scanned {
    pub scan: Scan,
    pub lines: usize,
    pub next: usize,
}

// What the check says of a stream that passes: how many lines and curves, and how many lines, curves and shortcuts, it holds.
#[derive(Clone, Copy)]
pub struct Checked {
    pub lines: u32,
    pub segments: u32,
}

// Entry i, and the lines, curves and shortcuts that stand behind it.
fn scan_next(stream: Stream, i: usize, context: ReadyContext, s: Scan) -> Option<Scanned>
    requires i_lt_end { (i < stream.first + stream.count)
        × (stream.first + stream.count ≤ i + 4096)
        × ((stream.first + stream.count) * 4 ≤ length stream.entries.now) }
    requires apart { Apart stream.entries.now i (stream.first + stream.count) s }
    ensures onward { MatchOption result
        (scan_n (env_of context.entry.context) (Some s) (words_from stream.entry.entries.now i (end_passed stream - i)) ≡ None)
        (λ r. Onward (env_of context.entry.context) stream.entry.entries.now i (end_passed stream) s r) }
{
    let w = read_entry(stream.entries, i);
    let n = s.step(context, w)?;
    if !n.held {
        return Some(Scanned {
            scan: n,
            lines: 0,
            next: i + 1,
        });
    }
    let r = scan_run(stream, i + 1, context, n.segments as usize)?;
    let scan = Scan {
        segments: r.segments as u32,
        ..n
    };
    Some(Scanned {
        scan,
        lines: r.lines,
        next: r.next,
    })
}

// What a reader says that has read all the entries of a stream.
fn tell(s: Scan, lines: usize) -> Option<Checked>
    requires { lines ≤ 4096 }
    ensures answer { result ≡ told_at s lines }
{
    if s.groups == Groups::NONE_OPEN {
        Some(Checked {
            lines: lines as u32,
            segments: s.segments,
        })
    } else {
        None
    }
}

// All the entries of a stream.
fn scan_all(stream: Stream, context: ReadyContext) -> Option<Checked>
    requires count_in_bounds { (stream.first + stream.count) * 4 ≤ length stream.entries.now }
    requires count_bound { stream.count ≤ 4096 }
    ensures answer { result ≡
        told (accepts (env_of context.entry.context) (words_from stream.entry.entries.now stream.entry.first stream.entry.count))
        (words_from stream.entry.entries.now stream.entry.first stream.entry.count) }
{
    let end = stream.first + stream.count;
    let mut s = Scan {
        groups: Groups::NONE_OPEN,
        held: false,
        areas: 0,
        segments: 0,
    };
    let mut lines: usize = 0;
    let mut i = stream.first;
    // a `while`: an iterator has no step that goes on behind a run
    while i < end {
        let r = scan_next(stream, i, context, s)?;
        s = r.scan;
        lines += r.lines;
        i = r.next;
    }
    tell(s, lines)
}

// ---- the check
impl Context<'_> {
    // Whether the numbers in use are at most what the tables hold: `used` entries of a table with so many words, and the areas and the corners.
    #[tactic(auto, unfolding(crate::specs::Grammar::used_range))]
    pub fn used_range(self, entries: usize, used: usize) -> bool
        ensures answer { result ≡
            used_range entries used (length (env_passed self).areas) (length (env_passed self).xs) (length (env_passed self).ys)
            (env_passed self).used }
    {
        let b = self.bounds;
        let entries_fit = (used <= entries / ENTRY_WORDS) & (used <= MOST_ENTRIES);
        let areas_fit = (b.areas <= self.areas.len() / records::AREA_WORDS)
            & (b.areas <= records::MOST_AREAS);
        let corners_fit = (b.corners <= self.xs.len())
            & ((b.corners <= self.ys.len()) & (b.corners <= records::MOST_CORNERS));
        entries_fit & (areas_fit & corners_fit)
    }
}

// Whether these entries are a stream of the cell with this low row and this side, where `used` are in use, and how many lines and segments it holds.
// Any tables and numbers may be handed in.
pub fn check_stream(stream: Stream, used: usize, context: Context) -> Option<Checked>
    ensures answer { result ≡
        checked stream.entry.entries.now stream.entry.first stream.entry.count used (env_passed context) }
{
    let u = context.used_range(stream.entries.len(), used);
    if u && stream.count <= used
        && stream.first <= used - stream.count
        && stream.count <= MOST_IN_STREAM
    {
        scan_all(stream, ReadyContext { context })
    } else {
        None
    }
}
