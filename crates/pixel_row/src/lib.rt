// Rows of pixels.

#![tactic(auto)]

ghost use Rattle.std.specs.Prelude.{◌≡◌, ◌+◌, ◌*◌, ◌/◌, ◌≤◌, length, Some};
ghost use Rattle.tables.specs.Tables.{tree_of, tree_passed};
ghost use Rattle.position.specs.code.Numbers.{LastIn};
ghost use Rattle.pixel_row.specs.Rows.{put_pixel, fill_from, row_filled};
ghost use Rattle.pixel_row.specs.code.Numbers.{holds_pixel, Sampling, pixel_told};

use celltable::Leaf;
use paint::colour::{Channels, Colour};
use paint::pixel::PixelAt;
use paint::{colour, pixel};
use position::Shown;
use refusals::{Refusal, Refused};
use tables::Tree;

// The last row of pixels.
const LAST_ROW: u32 = 4095;

// The pixels of a row.
const PIXELS: usize = 4096;

// How far the last column and the last row of a pixel lie from its first.
const PIXEL_END: u32 = pixel::PIXEL_SIDE - 1;

// The bytes of a pixel: red, green, blue.
const CHANNELS: usize = 3;

// A pixel, with what was read at its last sample.
#[derive(Clone, Copy)]
pub struct Pixel {
    pub colour: Colour,
    pub last: Shown,
}

// ---- one pixel
// Whether the square of a leaf holds the whole pixel.
fn holds_pixel(leaf: Leaf, place: PixelAt) -> bool
    ensures answer { result ≡ holds_pixel leaf place.row place.column }
{
    let x = pixel::PIXEL_SIDE * place.column;
    let y = pixel::PIXEL_SIDE * place.row;
    let low = position::is_inside(leaf, x, y);
    let high = position::is_inside(leaf, x + PIXEL_END, y + PIXEL_END);
    low & high
}

// The pixel whose first sample is `first`, with these channel sums: the other fifteen samples.
fn pixel_from(tree: Tree, first: Shown, sums: Channels, place: PixelAt) -> Result<Pixel, Refusal>
    requires { Sampling (tree_of tree) place.row place.column 16 1 (Some first) sums }
    ensures answer { result ≡ pixel_told (tree_passed tree) place.row place.column }
{
    let mut last = first;
    let mut sum = sums;
    for i in 1..pixel::SAMPLES {
        let read = position::read_at(tree, Some(last), place.sample(i))?;
        let c = colour::channel_sums(tree.drawing.areas, read.set);
        sum = sum.plus(c);
        last = read.shown;
    }
    let colour = sum.mean();
    Ok(Pixel { colour, last })
}

// A pixel, where `before` was read last. One sample is enough for a pixel that lies in a uniform leaf.
fn pixel_at(tree: Tree, before: Option<Shown>, place: PixelAt) -> Result<Pixel, Refusal>
    requires { LastIn (tree_of tree) before }
    ensures answer { result ≡ pixel_told (tree_passed tree) place.row place.column }
{
    let read = position::read_at(tree, before, place.sample(0))?;
    if read.shown.set.is_some() && holds_pixel(read.shown.leaf, place) {
        let colour = colour::colour_of(tree.drawing.areas, read.set);
        return Ok(Pixel {
            colour,
            last: read.shown,
        });
    }
    let sums = colour::channel_sums(tree.drawing.areas, read.set);
    pixel_from(tree, read.shown, sums, place)
}

// Writes the three bytes of pixel i.
fn put_pixel(out: &mut [u8], i: usize, c: Colour)
    requires { i * 3 + 3 ≤ length out.old }
    ensures out { out.new ≡ put_pixel out.old i c }
{
    let at = i * CHANNELS;
    out[at] = c.red;
    out[at + 1] = c.green;
    out[at + 2] = c.blue;
}

// ---- the call
// The pixels of a row, one after the other, up to the first that 12 meets. They are in range.
fn fill_row(tree: Tree, row: u32, first: u32, out: &mut [u8]) -> Result<(), Refused>
    requires { (row ≤ 4095) × (first + length out.old / 3 ≤ 4096) }
    ensures answer { result ≡ (fill_from (tree_passed tree) row first 0 (length out.old / 3) out.old).answer }
    ensures out { out.new ≡ (fill_from (tree_passed tree) row first 0 (length out.old / 3) out.old).bytes }
{
    let n = out.len() / CHANNELS;
    let mut last = None;
    // Over indices (as at `records::put_raw`).
    for i in 0..n {
        let column = first + (i as u32);
        // A match: with `map_err` the proof of the place that its closure adds did not close.
        match pixel_at(tree, last, PixelAt { row, column }) {
            Ok(pixel) => {
                put_pixel(out, i, pixel.colour);
                last = Some(pixel.last);
            }
            Err(refusal) => return Err(Refused { refusal, place: i }),
        }
    }
    Ok(())
}

// Fills the buffer with the pixels of a row from `first` on, three bytes each: red, green, blue. Any tables may be handed in.
// Refusals, in this order: 7, which changes nothing; 12 at a pixel, before which the pixels stand, and from which on the buffer is untouched.
pub fn pixel_row(tree: Tree, row: u32, first: u32, out: &mut [u8]) -> Result<(), Refused>
    ensures answer { result ≡ (row_filled (tree_passed tree) row first out.old).answer }
    ensures out { out.new ≡ (row_filled (tree_passed tree) row first out.old).bytes }
{
    if tree.drawing.xs.len() != tree.drawing.ys.len()
        || row > LAST_ROW
        || out.len() % CHANNELS != 0
        || first as usize + out.len() / CHANNELS > PIXELS
    {
        return Err(Refused::from(Refusal::Argument));
    }
    fill_row(tree, row, first, out)
}
