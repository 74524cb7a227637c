// The flat clipping machine of document 000, as registers that are moved by one entry at a time.

#![tactic(auto)]

ghost use Rattle.std.specs.Prelude.{◌≡◌, true, ◌+◌, ◌<◌, pred};
ghost use Rattle.pruning.specs.Sides.{paint, clip};
ghost use Rattle.pruning.specs.Registers.{on_item, on_push, on_activate, on_pop};
ghost use Rattle.paint.specs.Sets.{with_area};
ghost use Rattle.machine.specs.code.Registers.{meant, machine};

use paint::set;

// The states, numbers because document 01 fixes a match on numbers: P processes, S skips what is left of a clip side, SA skips a right side; STOPPED on
// an alpha of 255.
pub const P: u32 = 0;

pub const S: u32 = 1;

pub const SA: u32 = 2;

pub const STOPPED: u32 = 3;

// The state, the depth, the stopping depth, and the shown set.
#[derive(Clone, Copy)]
pub struct Machine {
    pub state: u32,
    pub depth: u32,
    pub stop: u32,
    pub set: u64,
}

impl Machine {
    // Processing, with no group open and nothing shown.
    pub fn begun() -> Machine
        ensures answer { result ≡ machine 0 0 0 0 }
    {
        Machine {
            state: P,
            depth: 0,
            stop: 0,
            set: 0,
        }
    }

    // After an area on a paint side: processing, one that passes is shown, and one of alpha 255 stops the machine. S and SA go over it, and so does a
    // machine that has stopped.
    pub fn after_paint(self, passes: bool, opaque: bool, n: u32) -> Machine
        requires { n < 64 }
        ensures answer { (meant result ≡ on_item paint passes opaque (λ s. with_area s n) (meant self)) × (result.depth ≡ self.depth) }
    {
        match self.state {
            P if passes => {
                let shown = Machine {
                    set: set::with_area(self.set, n),
                    ..self
                };
                if opaque {
                    Machine {
                        state: STOPPED,
                        ..shown
                    }
                } else {
                    shown
                }
            }
            _ => self,
        }
    }

    // After an area, or the bare entry "passes", on a clip side: processing, where it passes, the rest of the side is skipped. S and SA go over it, and so
    // does a machine that has stopped.
    pub fn after_clip(self, passes: bool) -> Machine
        ensures answer { (meant result ≡ on_item clip passes true (λ s. s) (meant self)) × (result.depth ≡ self.depth) }
    {
        match self.state {
            P if passes => Machine {
                state: S,
                stop: self.depth,
                ..self
            },
            _ => self,
        }
    }

    // After `(`: every state stays.
    pub fn after_open(self) -> Machine
        requires { self.depth < 4096 }
        ensures answer { (meant result ≡ on_push (meant self)) × (result.depth ≡ self.depth + 1) }
    {
        Machine {
            depth: self.depth + 1,
            ..self
        }
    }

    // After `|`: processing, the right side is skipped; skipping, processing goes on if the left side that passed ends here.
    pub fn after_bar(self) -> Machine
        ensures answer { (meant result ≡ on_activate (meant self)) × (result.depth ≡ self.depth) }
    {
        match self.state {
            P => Machine {
                state: SA,
                stop: self.depth,
                ..self
            },
            S if self.depth <= self.stop => Machine { state: P, ..self },
            _ => self,
        }
    }

    // After `)`: skipping a right side, processing goes on behind the group whose left side failed.
    pub fn after_close(self) -> Machine
        ensures answer { (meant result ≡ on_pop (meant self)) × (result.depth ≡ pred self.depth) }
    {
        let outer = Machine {
            depth: self.depth.saturating_sub(1),
            ..self
        };
        let ends = self.depth <= self.stop;
        match self.state {
            S if ends => Machine {
                stop: outer.depth,
                ..outer
            },
            SA if ends => Machine { state: P, ..outer },
            _ => outer,
        }
    }
}
