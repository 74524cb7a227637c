// The open groups of a drawing or a stream as one number: 1 where none is open, and a digit in base 4 more for each, the innermost last.
// 0 and 1 are the left and the right side of a group opened on a paint side, 2 and 3 those of one opened on a clip side.
// A number, and no array of an enum of four sides: it is state by value without an array (docs/DECISIONS.md), and any word is one.

#![tactic(auto)]

ghost use Rattle.std.specs.Prelude.{◌≡◌, true, ◌<◌};
ghost use Rattle.groups.specs.code.Stack.{paint_n, left_n, right_n, room_n, open_n, bar_n, close_n};

// 8 groups are open from this number on: 4 to the 8.
const EIGHT_OPEN: u32 = 65536;

#[derive(Clone, Copy, Debug, PartialEq, Eq)]
pub struct Groups {
    pub number: u32,
}

impl Groups {
    // No group is open.
    pub const NONE_OPEN: Groups = Groups { number: 1 };

    // Whether what stands here stands on a paint side.
    pub fn on_paint(self) -> bool
        ensures answer { result ≡ paint_n self.number }
    {
        self.number % 4 == 1
    }

    // Whether this is the left side of the innermost open group.
    pub fn on_left(self) -> bool
        ensures answer { result ≡ left_n self.number }
    {
        self.number % 2 == 0
    }

    // Whether this is the right side of the innermost open group.
    pub fn on_right(self) -> bool
        ensures answer { result ≡ right_n self.number }
    {
        (4 <= self.number) & (self.number % 2 == 1)
    }

    // Whether fewer than 8 groups are open.
    pub fn has_room(self) -> bool
        ensures answer { result ≡ room_n self.number }
    {
        self.number < EIGHT_OPEN
    }

    // One group more is open, on its left side.
    pub fn opened(self) -> Groups
        requires { room_n self.number ≡ true }
        ensures answer { result.number ≡ open_n self.number }
    {
        let number = if self.on_paint() {
            self.number * 4
        } else {
            self.number * 4 + 2
        };
        Groups { number }
    }

    // The innermost open group is on its right side.
    pub fn barred(self) -> Groups
        ensures answer { result.number ≡ bar_n self.number }
    {
        Groups {
            number: self.number / 2 * 2 + 1,
        }
    }

    // The innermost open group is closed.
    pub fn closed(self) -> Groups
        ensures answer { result.number ≡ close_n self.number }
    {
        Groups {
            number: self.number / 4,
        }
    }
}
