// The one-pass pruner by numbers: what is written, and where the open groups and the side being read begin in it, all as weights. What an entry weighs
// is up to the caller; a delimiter and the bare "passes" weigh 1. With 1 for each entry a weight is a number of entries.

#![tactic(auto, using(crate::proofs::Laws::set_top, crate::proofs::Laws::frames_some), unfolding(crate::specs::code::Numbers::counted))]

ghost use Rattle.std.specs.Prelude.{◌≡◌, [], ◌∷◌, ◌-◌, ◌+◌, ◌^◌, ◌≤◌, ◌<◌, get_or};
ghost use Rattle.pruning.specs.Sides.{item, push, activate, pop};
ghost use Rattle.pruning.specs.code.Pruner.{going};
ghost use Rattle.pruning.specs.code.Counters.{ct, count_step, count_left, count_right};
ghost use Rattle.pruning.specs.code.Weights.{sized, sized_items, size_of};
ghost use Rattle.pruner.specs.code.Numbers.{counted, skip_of, skip_number, frame_of, frames_of, no_frame, class_of, numbered_class, kind_of};

// The groups that can be open.
const MOST_GROUPS: usize = 8;

// Where an open group stands: `Left` on its left side; on its right side `Right` where the group is kept, `Through` where its left always passes, `Dead`
// where its left is empty.
#[derive(Clone, Copy, Debug, PartialEq, Eq)]
pub enum Mode {
    Left,
    Right,
    Through,
    Dead,
}

// The class of an item: it fails or passes wherever it is read, or neither.
#[derive(Clone, Copy, Debug, PartialEq, Eq)]
pub enum ItemClass {
    Fails,
    Passes,
    Neither,
}

// The class that a number says: 0 fails, 1 passes, any other is neither.
impl From<u32> for ItemClass {
    ghost from_gives = { λ n c. class_of c ≡ numbered_class n };

    #[tactic(auto, unfolding(crate::specs::code::Numbers::numbered_class))]
    fn from(number: u32) -> ItemClass {
        match number {
            0 => ItemClass::Fails,
            1 => ItemClass::Passes,
            _ => ItemClass::Neither,
        }
    }
}

// An open group. `start`: the weight of what was written at its `(`. `outer`: where the side around it begins.
#[derive(Clone, Copy, Debug, PartialEq, Eq)]
pub struct Frame {
    pub mode: Mode,
    pub start: u64,
    pub outer: u64,
}

// `weight`: that of what is written. `base`: the weight of what stands before the side. `skip`: None where the side is read on, Some(m) where it is
// skipped and m groups were opened since. `depth`: how many frames are in use.
// The bounds on the weights are no ghost fields: a step may end at the bound that it asks for. Nor is that `depth` is at most 8: `after_item`, and
// `after_open` where a side is skipped, take any depth.
#[derive(Clone, Copy, Debug, PartialEq, Eq)]
pub struct Pruner {
    pub weight: u64,
    pub base: u64,
    pub skip: Option<u32>,
    pub depth: usize,
    // `ArrayVec<Frame, 8>` is no plainer: it is not `Copy`, and `Maker::weight` works on a copy.
    pub frames: [Frame; MOST_GROUPS],
}

impl Pruner {
    // Nothing is written, and no group is open.
    pub fn begun() -> Pruner
        ensures answer { counted result ≡ ct 0 0 going [] }
    {
        let none = Frame {
            mode: Mode::Left,
            start: 0,
            outer: 0,
        };
        Pruner {
            weight: 0,
            base: 0,
            skip: None,
            depth: 0,
            frames: [none; MOST_GROUPS],
        }
    }

    // Frame d is the innermost, and is f.
    fn frame(&mut self, d: usize, f: Frame, weight: u64, base: u64, skip: Option<u32>)
        requires { d < 8 }
        ensures answer { counted self.new ≡ ct weight base (skip_of skip) (frame_of f ∷ frames_of self.old.frames d) }
    {
        self.weight = weight;
        self.base = base;
        self.skip = skip;
        self.depth = d + 1;
        self.frames[d] = f;
    }

    // An item of a paint side or of a clip side, of this class and weight. One method for both sides, where the machine has two: `Maker::settle` has the side
    // as a value, and the machine's two methods take different arguments.
    pub fn after_item(&mut self, paint: bool, class: ItemClass, weight: u64)
        requires weight_bound { self.old.weight + weight < 2 ^ 62 }
        requires base_bound { self.old.base < 2 ^ 62 }
        ensures answer { counted self.new ≡
            count_step sized_items size_of (counted self.old) (item (kind_of paint) (sized (class_of class) weight)) }
    {
        if self.skip.is_some() {
            return;
        }
        match class {
            ItemClass::Fails => {}
            ItemClass::Passes => {
                self.weight = if paint {
                    self.weight + weight
                } else {
                    self.base + 1
                };
                self.skip = Some(0);
            }
            ItemClass::Neither => self.weight += weight,
        }
    }

    // `(`
    pub fn after_open(&mut self)
        requires weight_bound { self.old.weight < 2 ^ 62 }
        requires skip_bound { skip_number (skip_of self.old.skip) < 4096 }
        requires depth_bound { self.old.skip ≡ None → self.old.depth < 8 }
        ensures answer { counted self.new ≡ count_step sized_items size_of (counted self.old) push }
    {
        if let Some(groups) = self.skip {
            self.skip = Some(groups + 1);
            return;
        }
        let left = Frame {
            mode: Mode::Left,
            start: self.weight,
            outer: self.base,
        };
        self.frame(self.depth, left, self.weight + 1, self.weight + 1, None);
    }

    // `|` of the innermost group, frame d.
    fn at_bar(&mut self, d: usize, f: Frame)
        requires weight_bound { self.old.weight < 2 ^ 62 }
        requires d_bound { d < 8 }
        requires top { frames_of self.old.frames self.old.depth ≡ frame_of f ∷ frames_of self.old.frames d }
        ensures answer { counted self.new ≡
            count_left sized_items size_of self.old.weight self.old.base (skip_of self.old.skip)
            (frames_of self.old.frames self.old.depth) }
    {
        if f.mode != Mode::Left {
            return;
        }
        if self.skip.is_some() {
            let through = Frame {
                mode: Mode::Through,
                start: f.outer,
                outer: f.outer,
            };
            self.frame(d, through, f.start, f.outer, None);
        } else if self.weight == self.base {
            let dead = Frame {
                mode: Mode::Dead,
                start: f.outer,
                outer: f.outer,
            };
            self.frame(d, dead, f.start, f.outer, Some(0));
        } else {
            let right = Frame {
                mode: Mode::Right,
                ..f
            };
            self.frame(d, right, self.weight + 1, self.weight + 1, None);
        }
    }

    // `)` of the innermost group, frame d.
    fn at_close(&mut self, d: usize, f: Frame)
        requires weight_bound { self.old.weight < 2 ^ 62 }
        requires top { frames_of self.old.frames self.old.depth ≡ frame_of f ∷ frames_of self.old.frames d }
        ensures answer { counted self.new ≡
            count_right sized_items size_of self.old.weight self.old.base (skip_of self.old.skip)
            (frames_of self.old.frames self.old.depth) }
    {
        match f.mode {
            Mode::Left => return,
            Mode::Through => {
                self.depth = d;
                return;
            }
            Mode::Right if self.weight == self.base => self.weight = f.start,
            Mode::Right => self.weight += 1,
            Mode::Dead => {}
        }
        self.base = f.outer;
        self.skip = None;
        self.depth = d;
    }

    // `|`
    pub fn after_bar(&mut self)
        requires weight_bound { self.old.weight < 2 ^ 62 }
        requires depth_bound { self.old.depth ≤ 8 }
        ensures answer { counted self.new ≡ count_step sized_items size_of (counted self.old) activate }
    {
        if self.depth == 0 || matches!(self.skip, Some(1..)) {
            return;
        }
        let d = self.depth - 1;
        let f = self.frames[d];
        self.at_bar(d, f);
    }

    // `)`
    pub fn after_close(&mut self)
        requires weight_bound { self.old.weight < 2 ^ 62 }
        requires depth_bound { self.old.depth ≤ 8 }
        ensures answer { counted self.new ≡ count_step sized_items size_of (counted self.old) pop }
    {
        match self.skip {
            Some(groups) if groups > 0 => self.skip = Some(groups - 1),
            _ if self.depth == 0 => {}
            _ => {
                let d = self.depth - 1;
                let f = self.frames[d];
                self.at_close(d, f);
            }
        }
    }
}

// The pruner after an item of a paint side or of a clip side, whose class is said by a number: 0 fails, 1 passes, any other is neither.
pub fn after_item(pruner: Pruner, paint: bool, class: u32, weight: u64) -> Pruner
    requires weight_bound { pruner.weight + weight < 2 ^ 62 }
    requires base_bound { pruner.base < 2 ^ 62 }
    ensures answer { counted result ≡
        count_step sized_items size_of (counted pruner) (item (kind_of paint) (sized (numbered_class class) weight)) }
{
    let mut after = pruner;
    after.after_item(paint, class.into(), weight);
    after
}
