// A pixel's sixteen samples, and the pixel that they make.
ghost use Rattle.std.specs.Prelude.{◌≡◌, ◌≤◌, ◌<◌};
ghost use Rattle.paint.specs.Pixels.{row_offset, sample_x, sample_y};

use curves::Position;

// The side of a pixel in units, and its samples, one in each column.
pub const PIXEL_SIDE: u32 = 16;

pub const SAMPLES: u32 = 16;

// The row offsets, for column offsets 0 to 15.
const ROW_OFFSETS: [u32; 16] = [3, 8, 13, 2, 7, 12, 1, 6, 11, 0, 5, 10, 15, 4, 9, 14];

// A pixel by its row and its column.
#[derive(Clone, Copy)]
pub struct PixelAt {
    pub row: u32,
    pub column: u32,
    pub ghost inside: { (row ≤ 4095) × (column ≤ 4095) },
}

fn row_offset(i: u32) -> u32
    requires { i < 16 }
    ensures answer { result ≡ row_offset i }
    ensures range { result < 16 }
{
    ROW_OFFSETS[i as usize]
}

impl PixelAt {
    // The position of sample i.
    pub fn sample(self, i: u32) -> Position
        requires { i < 16 }
        ensures x { result.x ≡ sample_x self.column i }
        ensures y { result.y ≡ sample_y self.row i }
        ensures x_range { result.x < 65536 }
        ensures y_range { result.y < 65536 }
    {
        Position {
            x: PIXEL_SIDE * self.column + i,
            y: PIXEL_SIDE * self.row + row_offset(i),
        }
    }
}
