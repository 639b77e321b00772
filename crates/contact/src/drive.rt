// Inner functions: where a place that moves straight first meets a shape.
ghost use Rattle.std.specs.Prelude.{◌≡◌};
ghost use Rattle.plane.specs.Point.{points};
ghost use Rattle.plane.specs.Refusal.{Valid};
ghost use Rattle.polygon.specs.Point.{at};
ghost use Rattle.motion.specs.Contact.{contact_numbers};
ghost use Rattle.contact.specs.Share.{Places, meeting_numbers};

use crate::walls;
use answers::Meeting;
use measure::magnitude;
use polygon::point;
use polygon::point::Point;

// Where the way from t to u first meets a shape: at the last entry through its walls, unless that comes after the way
// leaves one, which is where the way back enters it. None if it never meets it.
pub fn first_of(list: &[i32], t: Point, u: Point) -> Option<Meeting>
    requires { Valid list.now × Places (at t) (at u) }
    ensures { meeting_numbers result ≡ contact_numbers (at t) (at u) (points list.now) }
{
    let way = walls::arrivals(list, t, u);
    if way.there.exceeds(way.back) {
        return None;
    }
    let c = way.there.lowest();
    let length = magnitude::magnitude(point::squared(t, u));
    Some(Meeting {
        numerator: c.numerator,
        denominator: c.denominator,
        safe: c.millimetres(length),
    })
}
