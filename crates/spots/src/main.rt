// Document 01's starred spots, and others beside them: run, and written out.

#![tactic(auto)]

ghost use Rattle.std.specs.Prelude.{IsTrue};
ghost use Rattle.curves.specs.code.Reach.{EndsIn};
ghost use Rattle.geometry.specs.code.Reach.{EdgeIn, SquareIn};
ghost use Rattle.paint.specs.Areas.{Painted};
ghost use Rattle.spots.specs.Starred.{all_right, table};

use curves::{Point, Position};
use geometry::class::{Class, Square};
use geometry::edge::Edge;
use geometry::fill::FillRule;
use paint::pixel::PixelAt;
use std::io;

// What follows is printed by functions and not by `Display`: each is printed at this one place, and as a sentence about a spot.

// The winding of the contour (0, 0), (p, q), (w, w).
fn write_winding(rt: &impl Print, p: u32, q: u32, w: u32, at: Position) -> io::Result<()>
    requires { EndsIn p q w w }
{
    let xs = [0, p, w];
    let ys = [0, q, w];
    let ends = [3u32];
    let n = geometry::winding::area_winding(&xs, &ys, &ends, at);
    println!(rt; "winding at {} {}: {n}", at.x, at.y)
}

// Whether a winding passes.
fn write_passes(rt: &impl Print, rule: FillRule, winding: i64) -> io::Result<()> {
    if geometry::fill::fill_passes(rule, winding) {
        println!(rt; "passes")
    } else {
        println!(rt; "fails")
    }
}

// The class of an edge in a square of side 8.
fn write_class(rt: &impl Print, e: Edge, x: u32, y: u32) -> io::Result<()>
    requires edge_in { EdgeIn e }
    requires square_in { SquareIn (record { x = x; y = y; side = 8 }) }
{
    let square = Square { x, y, side: 8 };
    match square.classify(e) {
        Class::Dropped => println!(rt; "dropped"),
        Class::Start => println!(rt; "start"),
        Class::Shortcut(first, end) => println!(rt; "shortcut {first} {end}"),
        Class::Kept => println!(rt; "kept"),
    }
}

// The material, the channel sums and the colour of a shown set.
fn write_shown(rt: &impl Print, areas: &[u32], set: u64) -> io::Result<()>
    requires { Painted areas.now set }
{
    let material = paint::area::material_of(areas, set);
    let sums = paint::colour::channel_sums(areas, set);
    let colour = sums.rounded();
    println!(rt;
        "material {material}, sums {} {} {}, colour {} {} {}",
        sums.red, sums.green, sums.blue, colour.red, colour.green, colour.blue
    )
}

// The key of a position.
fn write_key(rt: &impl Print, x: u16, y: u16) -> io::Result<()> {
    let key = geometry::morton::key(u32::from(x), u32::from(y));
    println!(rt; "key of {x} {y}: {key}")
}

// The samples of one pixel.
fn write_samples(rt: &impl Print) -> io::Result<()> {
    print!(rt; "samples of pixel 4095 of row 1:")?;
    let pixel = PixelAt {
        row: 1,
        column: 4095,
    };
    for i in 0..paint::pixel::SAMPLES {
        let s = pixel.sample(i);
        print!(rt; " {} {}", s.x, s.y)?;
    }
    println!(rt)
}

// The triangle (0,0) (10,0) (10,10), the largest of its shape, and that one mirrored.
fn triangles(rt: &impl Print) -> io::Result<()> {
    write_winding(rt, 10, 0, 10, Position { x: 5, y: 5 })?;
    write_winding(rt, 10, 0, 10, Position { x: 0, y: 0 })?;
    write_winding(rt, 10, 0, 10, Position { x: 9, y: 9 })?;
    write_winding(rt, 10, 0, 10, Position { x: 4, y: 5 })?;
    write_winding(rt, 10, 0, 10, Position { x: 10, y: 5 })?;
    write_winding(rt, 10, 0, 10, Position { x: 5, y: 10 })?;
    write_winding(
        rt,
        67108864,
        0,
        67108864,
        Position {
            x: 67108863,
            y: 67108863,
        },
    )?;
    write_winding(
        rt,
        67108864,
        0,
        67108864,
        Position {
            x: 67108862,
            y: 67108863,
        },
    )?;
    write_winding(
        rt,
        0,
        67108864,
        67108864,
        Position {
            x: 67108862,
            y: 67108863,
        },
    )
}

// Fill rules, below zero too.
fn passes(rt: &impl Print) -> io::Result<()> {
    write_passes(rt, FillRule::NonZero, 0)?;
    write_passes(rt, FillRule::NonZero, -1)?;
    write_passes(rt, FillRule::EvenOdd, -3)?;
    write_passes(rt, FillRule::EvenOdd, -2)?;
    write_passes(rt, FillRule::EvenOdd, 1)
}

// An upright edge in squares left of it, right of it and across it; and a slanted one.
fn classes(rt: &impl Print) -> io::Result<()> {
    let upright = Edge {
        from: Point { x: 10, y: 2 },
        to: Point { x: 10, y: 20 },
        control: None,
    };
    write_class(rt, upright, 0, 0)?;
    write_class(rt, upright, 0, 8)?;
    write_class(rt, upright, 8, 8)?;
    write_class(rt, upright, 16, 8)?;
    write_class(rt, upright, 0, 24)?;
    let slanted = Edge {
        from: Point { x: 0, y: 0 },
        to: Point { x: 10, y: 10 },
        control: None,
    };
    write_class(rt, slanted, 0, 0)
}

// Black; red before black; two areas of alpha 254; no area.
fn colours(rt: &impl Print) -> io::Result<()> {
    let black = [0u32, 0, 128, 0, 0, 0, 7, 0];
    write_shown(rt, &black, 1)?;
    let red_black = [0u32, 0, 128, 255, 0, 0, 8, 0, 0, 0, 128, 0, 0, 0, 7, 0];
    write_shown(rt, &red_black, 3)?;
    let two = [0u32, 0, 254, 1, 2, 3, 4, 0, 0, 0, 254, 1, 2, 3, 5, 0];
    write_shown(rt, &two, 3)?;
    write_shown(rt, &[], 0)
}

// Document 01's starred spots, as one table: every row of it is right, by the definitions.
fn starred()
    ensures { IsTrue (all_right table) }
{}

fn main(rt: HostRuntime) -> io::Result<()> {
    starred();
    triangles(&rt)?;
    passes(&rt)?;
    classes(&rt)?;
    colours(&rt)?;
    write_key(&rt, 32768, 0)?;
    write_key(&rt, 0, 32768)?;
    write_key(&rt, 65535, 65535)?;
    write_samples(&rt)
}
