// What an area's row of the table says of its paint, and the material of a set.
ghost use Rattle.std.specs.Prelude.{◌≡◌, ◌+◌, ◌*◌, ◌≤◌, length};
ghost use Rattle.paint.specs.Areas.{paint_at, material_of, Painted};

use crate::set;

// The paint of an area. The material of no area is 0. The channels are words, as the table holds them: `of_area` reads any table, and bytes would ask that
// its words fit them.
#[derive(Clone, Copy)]
pub struct Paint {
    pub alpha: u32,
    pub red: u32,
    pub green: u32,
    pub blue: u32,
    pub material: u32,
}

impl Paint {
    // The paint of area n: words 2 to 6 of its row of 8. `drawing::fields_at` reads the same row as seven words; a sample needs these five alone.
    pub fn of_area(areas: &[u32], n: usize) -> Paint
        requires { n * 8 + 8 ≤ length areas.now }
        ensures answer { result ≡ paint_at areas.now n }
    {
        let at = n * records::AREA_WORDS;
        Paint {
            alpha: areas[at + records::ALPHA],
            red: areas[at + records::RED],
            green: areas[at + records::GREEN],
            blue: areas[at + records::BLUE],
            material: areas[at + records::MATERIAL],
        }
    }
}

// The material of the lowest numbered area of a set, or 0 if it is empty. That the table has a row for each area of the set, with alpha and channels at
// most 255 (Painted), is a fact about a table and a set that come from different places, so it stays a clause.
pub fn material_of(areas: &[u32], shown: u64) -> u32
    requires { Painted areas.now shown }
    ensures answer { result ≡ material_of (paint_at areas.now) shown }
{
    match set::lowest_area(shown) {
        Some(n) => Paint::of_area(areas, n as usize).material,
        None => 0,
    }
}
