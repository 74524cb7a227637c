// The colour of a shown set: weights, the three unrounded channel sums, and their rounding.
ghost use Rattle.std.specs.Prelude.{◌≡◌, ◌+◌, ◌*◌, ◌/◌, ◌≤◌, ◌<◌};
ghost use Rattle.paint.specs.Areas.{paint_at, PaintIn, Painted};
ghost use Rattle.paint.specs.Colours.{weight, add, over, sums_of, rounded, rounded_by, colour_of, MixIn, ChannelsIn};
ghost use Rattle.paint.specs.Pixels.{plus, mean, SamplesIn};

use crate::area::Paint;
use crate::pixel::SAMPLES;
use crate::set;

// What the weights and what is left always make, and its half, for rounding.
const WHOLE: u32 = 255;

const HALF: u32 = WHOLE / 2;

// What they make in the samples of a pixel together.
const PIXEL_WHOLE: u32 = WHOLE * SAMPLES;

// Each channel of the ground.
pub const WHITE: u32 = 255;

// What is left of 255 behind some areas, and the sums of their weights times their channels. These are no `Channels` in one field: each area changes all
// four numbers, and the definitions of specs would say `sums.red` for `red`.
#[derive(Clone, Copy)]
pub struct Mix {
    pub left: u32,
    pub red: u32,
    pub green: u32,
    pub blue: u32,
}

// The three unrounded channel sums. These and Colour stay two structs: contracts would read one generic struct as three numbers at both types,
// so that nothing there would tell sums from channels. That each sum is at most 65,025 (ChannelsIn) is no ghost field: the sums of up to sixteen samples
// are Channels too.
#[derive(Clone, Copy)]
pub struct Channels {
    pub red: u32,
    pub green: u32,
    pub blue: u32,
}

// A colour.
#[derive(Clone, Copy)]
pub struct Colour {
    pub red: u8,
    pub green: u8,
    pub blue: u8,
}

// A channel's sum with one area more.
fn add_channel(sum: u32, w: u32, channel: u32) -> u32
    requires sum_bound { sum ≤ 65025 }
    requires w_bound { w ≤ 255 }
    requires channel_bound { channel ≤ 255 }
    ensures answer { result ≡ sum + w * channel }
{
    sum + w * channel
}

impl Mix {
    // Nothing is mixed yet.
    const START: Mix = Mix {
        left: WHOLE,
        red: 0,
        green: 0,
        blue: 0,
    };

    // The weight of an area with this alpha, behind those that are mixed.
    fn weight_of(self, alpha: u32) -> u32
        requires left_bound { self.left ≤ 255 }
        requires alpha_bound { alpha ≤ 255 }
        ensures answer { result ≡ weight self.left alpha }
        ensures range { result ≤ self.left }
    {
        (self.left * alpha + HALF) / WHOLE
    }

    // One shown area more, behind those that are mixed.
    fn add_area(self, p: Paint) -> Mix
        requires mix_in { MixIn self }
        requires paint_in { PaintIn p }
        ensures answer { result ≡ add p self }
        ensures range { MixIn result }
    {
        let w = self.weight_of(p.alpha);
        Mix {
            left: self.left - w,
            red: add_channel(self.red, w, p.red),
            green: add_channel(self.green, w, p.green),
            blue: add_channel(self.blue, w, p.blue),
        }
    }

    // The ground is white.
    fn over_white(self) -> Channels
        requires { MixIn self }
        ensures answer { result ≡ over self }
        ensures range { ChannelsIn result }
    {
        let white = self.left * WHITE;
        Channels {
            red: self.red + white,
            green: self.green + white,
            blue: self.blue + white,
        }
    }
}

impl Channels {
    // Each sum divided by `whole`, which is what the weights and what is left make, and rounded.
    fn rounded_by(self, whole: u32) -> Colour
        requires some { 0 < whole }
        requires whole_bound { whole ≤ 65536 }
        requires red_bound { self.red ≤ whole * 255 }
        requires green_bound { self.green ≤ whole * 255 }
        requires blue_bound { self.blue ≤ whole * 255 }
        ensures answer { result ≡ rounded_by whole self }
    {
        let half = whole / 2;
        Colour {
            red: ((self.red + half) / whole) as u8,
            green: ((self.green + half) / whole) as u8,
            blue: ((self.blue + half) / whole) as u8,
        }
    }

    // Channel sums, rounded to a colour.
    pub fn rounded(self) -> Colour
        requires { ChannelsIn self }
        ensures answer { result ≡ rounded self }
    {
        self.rounded_by(WHOLE)
    }

    // The unrounded channel sums of one sample more, of at most sixteen.
    pub fn plus(self, c: Channels) -> Channels
        requires samples_in { SamplesIn 15 self }
        requires channels_in { ChannelsIn c }
        ensures answer { result ≡ plus self c }
    {
        Channels {
            red: self.red + c.red,
            green: self.green + c.green,
            blue: self.blue + c.blue,
        }
    }

    // The pixel of sixteen samples.
    pub fn mean(self) -> Colour
        requires { SamplesIn 16 self }
        ensures answer { result ≡ mean self }
    {
        self.rounded_by(PIXEL_WHOLE)
    }
}

// The three unrounded channel sums of a shown set. `rest &= rest - 1` would do without `first`, but the proof follows the set by halves, as the shift
// goes (`rest` is shown / 2 ^ first), and std has no law of what that mask clears.
pub fn channel_sums(areas: &[u32], shown: u64) -> Channels
    requires { Painted areas.now shown }
    ensures answer { result ≡ sums_of (paint_at areas.now) shown }
    ensures range { ChannelsIn result }
{
    let mut rest = shown;
    let mut first = 0;
    let mut m = Mix::START;
    while let Some(k) = set::lowest_area(rest) {
        let n = first + k;
        m = m.add_area(Paint::of_area(areas, n as usize));
        rest = (rest >> k) / 2;
        first = n + 1;
    }
    m.over_white()
}

// The colour of a shown set.
pub fn colour_of(areas: &[u32], shown: u64) -> Colour
    requires { Painted areas.now shown }
    ensures answer { result ≡ colour_of (paint_at areas.now) shown }
{
    channel_sums(areas, shown).rounded()
}
