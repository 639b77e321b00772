// Calls on two lists. Checks run in this order: the first list, the second list, their floors, and then what the
// question itself refuses.
ghost use Rattle.std.specs.Prelude.{◌≡◌};
ghost use Rattle.plane.specs.Point.{point};
ghost use Rattle.plane.specs.Floor.{on};
ghost use Rattle.plane.specs.Question.{reply, output, ask_sum, ask_merge, ask_grow, ask_relation, ask_inside};
ghost use Rattle.plane.specs.Question.{ask_offer};
ghost use Rattle.plane.specs.Question.{ask_clearance, ask_tangents};
ghost use Rattle.reach.specs.Greatest.{ask_greatest};
ghost use Rattle.excess.specs.Excess.{ask_excess};
ghost use Rattle.motion.specs.Contact.{ask_contact};
ghost use Rattle.wire.specs.Told.{crossed, numbers};
ghost use Rattle.crossing.specs.LowFloor.{low_floor};
ghost use Rattle.calls.specs.Calls.{SeparatorTold};

use crossing::floors;
use pair_questions::separators;
use reply::Reply;

// Writes the sum, and answers how many corners it has.
#[unsafe(no_mangle)]
pub extern "C" fn cocklesway_sum(a: &[i32], f: u32, b: &[i32], g: u32, out: &mut [i32]) -> Reply
    ensures { (numbers result ≡ crossed (reply (low_floor
        (ask_sum (on a.now f) (on b.now g) out.old))))
        × (out.new ≡ output (low_floor
        (ask_sum (on a.now f) (on b.now g) out.old))) }
{
    if floors::exceeds(f, g) {
        return floors::barred_pair(a, b);
    }
    reply::of(pair_questions::sum(a, f as u16, b, g as u16, out))
}

// Writes the merge, and answers how many corners it has.
#[unsafe(no_mangle)]
pub extern "C" fn cocklesway_merge(a: &[i32], f: u32, b: &[i32], g: u32, out: &mut [i32]) -> Reply
    ensures { (numbers result ≡ crossed (reply (low_floor
        (ask_merge (on a.now f) (on b.now g) out.old))))
        × (out.new ≡ output (low_floor
        (ask_merge (on a.now f) (on b.now g) out.old))) }
{
    if floors::exceeds(f, g) {
        return floors::barred_pair(a, b);
    }
    reply::of(pair_questions::merge(a, f as u16, b, g as u16, out))
}

// Writes the obstacle grown by the cart's outline, and answers how many corners it has.
#[unsafe(no_mangle)]
pub extern "C" fn cocklesway_grow(
    obstacle: &[i32],
    f: u32,
    cart: &[i32],
    g: u32,
    out: &mut [i32],
) -> Reply
    ensures { (numbers result ≡ crossed (reply (low_floor
        (ask_grow (on obstacle.now f) (on cart.now g) out.old))))
        × (out.new ≡ output (low_floor
        (ask_grow (on obstacle.now f) (on cart.now g) out.old))) }
{
    if floors::exceeds(f, g) {
        return floors::barred_pair(obstacle, cart);
    }
    reply::of(pair_questions::grow(obstacle, f as u16, cart, g as u16, out))
}

// Answers 0 for apart, 1 for touching, 2 for overlapping.
#[unsafe(no_mangle)]
pub extern "C" fn cocklesway_relation(a: &[i32], f: u32, b: &[i32], g: u32) -> Reply
    ensures { numbers result ≡ crossed (reply (low_floor (ask_relation (on a.now f) (on b.now g)))) }
{
    if floors::exceeds(f, g) {
        return floors::barred_pair(a, b);
    }
    reply::of(pair_questions::relation(a, f as u16, b, g as u16))
}

// Answers 1 if the first shape is inside the second, else 0.
#[unsafe(no_mangle)]
pub extern "C" fn cocklesway_inside(a: &[i32], f: u32, b: &[i32], g: u32) -> Reply
    ensures { numbers result ≡ crossed (reply (low_floor (ask_inside (on a.now f) (on b.now g)))) }
{
    if floors::exceeds(f, g) {
        return floors::barred_pair(a, b);
    }
    reply::of(pair_questions::inside(a, f as u16, b, g as u16))
}

// Answers 1 if the direction (u, v) is accepted as the reason that the shapes are apart, else 0.
#[unsafe(no_mangle)]
pub extern "C" fn cocklesway_offer(a: &[i32], f: u32, b: &[i32], g: u32, u: i32, v: i32) -> Reply
    ensures { numbers result ≡ crossed (reply (low_floor
        (ask_offer (on a.now f) (on b.now g) (point u v)))) }
{
    if floors::exceeds(f, g) {
        return floors::barred_pair(a, b);
    }
    reply::of(separators::offer(a, f as u16, b, g as u16, u, v))
}

// Answers 1 and a direction that is accepted, or 0 if there is none.
#[unsafe(no_mangle)]
pub extern "C" fn cocklesway_find(a: &[i32], f: u32, b: &[i32], g: u32) -> Reply
    ensures { SeparatorTold (on a.now f) (on b.now g) (numbers result) }
{
    if floors::exceeds(f, g) {
        return floors::barred_pair(a, b);
    }
    reply::of(separators::find(a, f as u16, b, g as u16))
}

// Answers where two shapes are nearest, and how near; 0 if they are not apart.
#[unsafe(no_mangle)]
pub extern "C" fn cocklesway_clearance(a: &[i32], f: u32, b: &[i32], g: u32) -> Reply
    ensures { numbers result ≡ crossed (reply (low_floor (ask_clearance (on a.now f) (on b.now g)))) }
{
    if floors::exceeds(f, g) {
        return floors::barred_pair(a, b);
    }
    reply::of(pair_questions::clearance(a, f as u16, b, g as u16))
}

// Answers the greatest squared distance of a point of one shape and a point of the other, and two corners that have it.
#[unsafe(no_mangle)]
pub extern "C" fn cocklesway_greatest(a: &[i32], f: u32, b: &[i32], g: u32) -> Reply
    ensures { numbers result ≡ crossed (reply (low_floor (ask_greatest (on a.now f) (on b.now g)))) }
{
    if floors::exceeds(f, g) {
        return floors::barred_pair(a, b);
    }
    reply::of(pair_questions::reaches::greatest(a, f as u16, b, g as u16))
}

// Answers how far the new shape a reaches beyond the old shape b.
#[unsafe(no_mangle)]
pub extern "C" fn cocklesway_excess(a: &[i32], f: u32, b: &[i32], g: u32) -> Reply
    ensures { numbers result ≡ crossed (reply (low_floor (ask_excess (on a.now f) (on b.now g)))) }
{
    if floors::exceeds(f, g) {
        return floors::barred_pair(a, b);
    }
    reply::of(pair_questions::changes::excess(a, f as u16, b, g as u16))
}

// Answers the four lines that just touch both shapes.
#[unsafe(no_mangle)]
pub extern "C" fn cocklesway_tangents(a: &[i32], f: u32, b: &[i32], g: u32) -> Reply
    ensures { numbers result ≡ crossed (reply (low_floor (ask_tangents (on a.now f) (on b.now g)))) }
{
    if floors::exceeds(f, g) {
        return floors::barred_pair(a, b);
    }
    reply::of(pair_questions::tangents(a, f as u16, b, g as u16))
}

// Answers where a cart that drives straight from (x, y) to (u, v) first meets the obstacle; 0 if it never does.
#[unsafe(no_mangle)]
pub extern "C" fn cocklesway_contact(
    obstacle: &[i32],
    f: u32,
    cart: &[i32],
    g: u32,
    x: i32,
    y: i32,
    u: i32,
    v: i32,
) -> Reply
    ensures { numbers result ≡ crossed (reply (low_floor
        (ask_contact (on obstacle.now f) (on cart.now g) (point x y) (point u v)))) }
{
    if floors::exceeds(f, g) {
        return floors::barred_pair(obstacle, cart);
    }
    reply::of(drive_questions::contact(obstacle, f as u16, cart, g as u16, x, y, u, v))
}
