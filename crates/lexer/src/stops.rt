// The number and the place of what stops reading.
ghost use Rattle.std.specs.Prelude.{◌≡◌};
ghost use Rattle.lexer.specs.Stops.{number_of, stop_place};

use crate::Stop;

pub fn number_of(x: Stop) -> u8
    ensures { result ≡ number_of x }
{
    match x {
        Stop::Bad(_) => 2,
        Stop::Long(_) => 3,
        Stop::Cut => 1,
    }
}

pub fn place_of(s: &[u8], x: Stop) -> usize
    ensures { result ≡ stop_place s.now x }
{
    match x {
        Stop::Bad(p) => p,
        Stop::Long(p) => p,
        Stop::Cut => s.len(),
    }
}
