// Inner functions: where a cart that drives straight first meets an obstacle. Callers ask the crate `questions`.
#![tactic(auto)]

mod beyond;
pub mod drive;
pub mod share;
mod walls;

ghost use Rattle.std.specs.Prelude.{◌≡◌};
ghost use Rattle.plane.specs.Point.{points, numbers};
ghost use Rattle.plane.specs.Refusal.{Valid};
ghost use Rattle.polygon.specs.Point.{at};
ghost use Rattle.growth.specs.Grown.{grown};
ghost use Rattle.motion.specs.Contact.{contact_numbers};
ghost use Rattle.contact.specs.Share.{Places, meeting_numbers};

use answers::Meeting;
use polygon::point::Point;
use polygon::{limits, peak};
use separation::differences;

// Where a cart that drives from t to u first meets an obstacle, both shapes, also the obstacle grown by the cart: where
// its place meets the grown obstacle. That is not written if the way keeps to one side of its box.
pub fn first(obstacle: &[i32], cart: &[i32], t: Point, u: Point) -> Option<Meeting>
    requires { Valid obstacle.now × Valid cart.now
        × Valid (numbers (grown (points obstacle.now) (points cart.now))) × Places (at t) (at u) }
    ensures { meeting_numbers result ≡ contact_numbers (at t) (at u)
        (grown (points obstacle.now) (points cart.now)) }
{
    if beyond::is_beyond(obstacle, cart, t, u) {
        return None;
    }
    let top = peak::top(cart);
    let mut grown = [0i32; limits::SHAPE_NUMBERS];
    let n = differences::write(obstacle, cart, top, &mut grown);
    drive::first_of(&grown[..2 * n], t, u)
}
