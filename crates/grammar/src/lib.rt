// The order of records: a fold of a small state over them. It knows neither bytes nor tables.

#![tactic(auto)]

ghost use Rattle.std.specs.Prelude.{◌≡◌, true, ◌<◌, Ok};
ghost use Rattle.grammar.specs.Grammar.{is_short, one_more};
ghost use Rattle.grammar.specs.code.Machine.{role_n, breaks_n, stands_n, fits_n, ends_short_n, in_limit_n, no_contour_n, after_n, step_n};
ghost use Rattle.grammar.specs.code.Machine.{advance_n, start_n, ended_n};

use curves::Point;
use groups::Groups;
use records::Record;
use refusals::{Refusal, Refused};

// The corners that a contour has at least.
const LEAST_CORNERS: u32 = 3;

// The last corner where no contour is in progress, which nothing reads.
const NO_CORNER: Point = Point { x: 0, y: 0 };

// Where a reader stands. `held`: an area or a corner stands straight before; it says so by itself, since no value goes with it. `control`: the
// control corner that does. `run`: the corners of the contour in progress but for control corners, 3 for more than 3. `last`: in a contour, its last
// corner that is no control corner; where `run` is 0 nothing reads it. It is no `Option`: the definitions of specs build the state with a point there, and
// `run` stays beside it in any case, since it counts.
#[derive(Clone, Copy)]
pub struct State {
    pub groups: Groups,
    pub held: bool,
    pub control: Option<Point>,
    pub run: u32,
    pub areas: usize,
    pub corners: usize,
    pub last: Point,
}

#[derive(Clone, Copy, Debug, PartialEq, Eq)]
pub struct Counts {
    pub records: usize,
    pub areas: usize,
    pub corners: usize,
}

// A contour of under 3 corners.
fn is_short(run: u32) -> bool
    ensures answer { result ≡ is_short run }
{
    0 < run && run < LEAST_CORNERS
}

// One corner more, counted up to 3.
fn more(run: u32) -> u32
    ensures answer { result ≡ one_more run }
{
    if run < LEAST_CORNERS { run + 1 } else { run }
}

impl State {
    // Before the first record.
    pub fn begun() -> State
        ensures answer { Ok result ≡ start_n }
    {
        State {
            groups: Groups::NONE_OPEN,
            held: false,
            control: None,
            run: 0,
            areas: 0,
            corners: 0,
            last: NO_CORNER,
        }
    }

    // The role that fits the side.
    fn role_here(self) -> u32
        ensures answer { result ≡ role_n self.groups.number }
    {
        if self.groups.on_paint() {
            records::PAINT
        } else {
            records::CLIP
        }
    }

    // A curve that the record ends, and that breaks the order or span.
    fn breaks(self, r: Record) -> bool
        ensures answer { result ≡ breaks_n self r }
    {
        match (self.control, r) {
            (Some(control), Record::Next(x, y)) => {
                !curves::curve_fits(self.last, control, Point { x, y })
            }
            _ => false,
        }
    }

    // What each record asks: one of them asks nothing, and its arm is a constant.
    fn stands(self, r: Record) -> bool
        ensures answer { result ≡ stands_n self r }
    {
        match r {
            Record::Area(f) => f.role == self.role_here(),
            Record::First(..) => self.held,
            Record::Next(..) | Record::Control(..) => 0 < self.run,
            Record::Open => true,
            Record::Bar => self.groups.on_left(),
            Record::Close => self.groups.on_right(),
        }
    }

    fn fits(self, r: Record) -> bool
        ensures answer { result ≡ fits_n self r }
    {
        match self.control {
            Some(_) => matches!(r, Record::Next(..)),
            None => self.stands(r),
        }
    }

    fn ends_short(self, r: Record) -> bool
        ensures answer { result ≡ ends_short_n self r }
    {
        !matches!(r, Record::Next(..) | Record::Control(..)) && is_short(self.run)
    }

    // What each record is counted by: two of them by nothing, and their arm is a constant.
    fn in_limit(self, r: Record) -> bool
        ensures answer { result ≡ in_limit_n self r }
    {
        match r {
            Record::Area(_) => self.areas < records::MOST_AREAS,
            Record::Open => self.groups.has_room(),
            Record::Bar | Record::Close => true,
            _ => self.corners < records::MOST_CORNERS,
        }
    }

    // The same groups and counts, and no contour in progress.
    fn no_contour(self) -> State
        ensures answer { result ≡ no_contour_n self }
    {
        State {
            held: false,
            control: None,
            run: 0,
            last: NO_CORNER,
            ..self
        }
    }

    fn after(self, r: Record) -> State
        requires { in_limit_n self r ≡ true }
        ensures answer { result ≡ after_n self r }
    {
        match r {
            Record::Area(_) => State {
                held: true,
                areas: self.areas + 1,
                ..self.no_contour()
            },
            Record::First(x, y) => State {
                held: true,
                control: None,
                run: 1,
                corners: self.corners + 1,
                last: Point { x, y },
                ..self
            },
            Record::Next(x, y) => State {
                held: true,
                control: None,
                run: more(self.run),
                corners: self.corners + 1,
                last: Point { x, y },
                ..self
            },
            Record::Open => State {
                groups: self.groups.opened(),
                ..self.no_contour()
            },
            Record::Bar => State {
                groups: self.groups.barred(),
                ..self.no_contour()
            },
            Record::Close => State {
                groups: self.groups.closed(),
                ..self.no_contour()
            },
            Record::Control(x, y) => State {
                held: true,
                control: Some(Point { x, y }),
                corners: self.corners + 1,
                ..self
            },
        }
    }

    // One record more: 13 for a curve out of order or span, 4 for a record that does not fit, 5 for a contour that it ends short, 6 for a limit, or on.
    #[inline(always)]
    fn stepped(self, r: Record) -> Result<State, Refusal>
        ensures answer { result ≡ step_n self r }
    {
        if self.breaks(r) {
            return Err(Refusal::Curve);
        }
        if !self.fits(r) {
            return Err(Refusal::Unfit);
        }
        if self.ends_short(r) {
            return Err(Refusal::Short);
        }
        if !self.in_limit(r) {
            return Err(Refusal::Limit);
        }
        Ok(self.after(r))
    }

    // What was decoded as record i. A refusal of its own, 2 for an unknown kind or 3 for a field out of range, stands at place i as the others do. It is a
    // match, and is put into its callers: by `and_then`, which the compiler leaves a function, reading a file and writing one took 1.4 to 1.5 times as long.
    #[inline(always)]
    pub fn advance(self, decoded: Result<Record, Refusal>, i: usize) -> Result<State, Refused>
        ensures answer { result ≡ advance_n (Ok self) decoded i }
    {
        match decoded {
            Ok(r) => self
                .stepped(r)
                .map_err(|refusal| Refused { refusal, place: i }),
            Err(refusal) => Err(Refused { refusal, place: i }),
        }
    }

    // The end, after n records: 4 for a control corner or a group left open, then 5 for a short contour.
    pub fn ended(self, n: usize) -> Result<Counts, Refused>
        ensures answer { result ≡ ended_n (Ok self) n }
    {
        if self.control.is_some() || self.groups != Groups::NONE_OPEN {
            return Err(Refused {
                refusal: Refusal::Unfit,
                place: n,
            });
        }
        if is_short(self.run) {
            return Err(Refused {
                refusal: Refusal::Short,
                place: n,
            });
        }
        Ok(Counts {
            records: n,
            areas: self.areas,
            corners: self.corners,
        })
    }
}

// What was decoded as record i, after a record before that may have been refused: then the reader stays where that one stopped it.
pub fn advance(
    scan: Result<State, Refused>,
    decoded: Result<Record, Refusal>,
    i: usize,
) -> Result<State, Refused>
    ensures answer { result ≡ advance_n scan decoded i }
{
    scan?.advance(decoded, i)
}

// The end, after n records of which one may have been refused.
pub fn ended(scan: Result<State, Refused>, n: usize) -> Result<Counts, Refused>
    ensures answer { result ≡ ended_n scan n }
{
    scan?.ended(n)
}
