// Running positions of the cells of a row: a sum of widths without a bound, kept up to a cap that no border reaches.
ghost use Rattle.std.specs.Prelude.{◌<◌};
ghost use Rattle.long_borders.specs.Keeps.{Advances};

// The cap.
const CAP: usize = 4294967296;

// A position moved on by d columns; past the cap it stays.
pub fn advance(x: usize, d: usize) -> usize
    requires { (x < 8589934592) × (d < 1048576) }
    ensures upper_bound { result < 8589934592 }
    ensures advances { Advances x d result }
{
    if x < CAP { x + d } else { x }
}
