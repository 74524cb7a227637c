// The laws that crates cite in their proofs, and the difference of two coordinates, of which the products of `curves` are made.

#![tactic(auto)]

ghost use Rattle.std.specs.Prelude.{◌≡◌, pos, ◌-ℤ◌};

// a - b, of two unsigned numbers.
pub fn difference(a: u32, b: u32) -> i64
    ensures answer { result ≡ pos a -ℤ pos b }
{
    i64::from(a) - i64::from(b)
}
