// Inner functions: a distance rounded up.
ghost use Rattle.std.specs.Prelude.{◌≡◌, ◌*◌, ◌<◌};
ghost use Rattle.plane.specs.Measure.{root_below};
ghost use Rattle.excess.specs.Excess.{root_above};
ghost use Rattle.excess.specs.Answer.{values_of, RoundedDown, up_numbers};

use answers::Beyond;
use clearance::measured::Distance;

// The distance of a corner, with the number of millimetres rounded up. A corner has no edge to fall on, so the third
// kind does not come.
pub fn rounded(corner: usize, found: Distance) -> Option<Beyond>
    requires { RoundedDown found }
    ensures { values_of result ≡ up_numbers corner found }
{
    match found {
        Distance::Corners {
            second,
            squared,
            rounded,
            ..
        } => Some(Beyond::Corners {
            corner,
            other: second,
            squared,
            up: above(squared, squared, rounded),
        }),
        Distance::OnSecond {
            edge,
            turn,
            squared,
            rounded,
            ..
        } => Some(Beyond::Edge {
            corner,
            edge,
            turn,
            squared,
            up: above(turn, squared, rounded),
        }),
        Distance::OnFirst { .. } => None,
    }
}

// The root of turn·turn/squared rounded up, from the root rounded down: one more, unless that is exact.
// Ruled out: rounded down.
fn above(turn: u64, squared: u64, low: u64) -> u64
    requires { (0 < squared) × (low ≡ root_below (turn * turn) squared) }
    ensures { result ≡ root_above (turn * turn) squared }
{
    if wide::fraction_less(low, 1, turn, squared) {
        return low + 1;
    }
    low
}
