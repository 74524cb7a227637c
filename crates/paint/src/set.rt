// A set of areas as a 64-bit mask, as document 01 has it: area n is bit n.
ghost use Rattle.std.specs.Prelude.{◌≡◌, ◌<◌, MatchOption};
ghost use Rattle.std.specs.Int.Count.{count_trailing_zeros};
ghost use Rattle.paint.specs.Sets.{with_area};

// The set with area n. The bound stays a clause: numbers of areas come as words of entries, and nothing keeps one as a value of its own.
pub fn with_area(set: u64, n: u32) -> u64
    requires { n < 64 }
    ensures answer { result ≡ with_area set n }
{
    set | (1 << n)
}

// The number of the lowest area of a set.
pub fn lowest_area(set: u64) -> Option<u32>
    ensures { MatchOption result (set ≡ 0) (λ n. n < 64 × n ≡ count_trailing_zeros 64 set) }
{
    (set != 0).then_some(set.trailing_zeros())
}
