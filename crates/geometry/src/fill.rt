// Whether an area passes, by its fill rule and its winding.
ghost use Rattle.std.specs.Prelude.{◌≡◌};
ghost use Rattle.geometry.specs.FillRules.{passes};

// The fill rules 0 and 1 of the document. A word of the table becomes a rule in `evaluate::area_passes` alone: the table and the numbers are of
// `records`, which geometry does not use.
#[derive(Clone, Copy)]
pub enum FillRule {
    NonZero,
    EvenOdd,
}

pub fn fill_passes(rule: FillRule, winding: i64) -> bool
    ensures answer { result ≡ passes rule winding }
{
    match rule {
        FillRule::NonZero => winding != 0,
        FillRule::EvenOdd => winding % 2 != 0,
    }
}
