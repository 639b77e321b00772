// The call on three lists. Checks run in this order: the first list, the second, the third, their floors, and then the
// grown obstacles.
ghost use Rattle.std.specs.Prelude.{◌≡◌};
ghost use Rattle.plane.specs.Floor.{on};
ghost use Rattle.plane.specs.Question.{reply};
ghost use Rattle.wire.specs.Told.{crossed, numbers};
ghost use Rattle.crossing.specs.LowFloor.{low_passage};

use crossing::floors;
use reply::Reply;

// Answers whether the cart may pass straight between the obstacles, and how.
#[unsafe(no_mangle)]
pub extern "C" fn cocklesway_passage(
    left: &[i32],
    f: u32,
    right: &[i32],
    g: u32,
    cart: &[i32],
    h: u32,
) -> Reply
    ensures { numbers result ≡ crossed (reply
        (low_passage (on left.now f) (on right.now g) (on cart.now h))) }
{
    if floors::exceeds_three(f, g, h) {
        return floors::barred_three(left, right, cart);
    }
    reply::of(pair_questions::passage(left, f as u16, right, g as u16, cart, h as u16))
}
