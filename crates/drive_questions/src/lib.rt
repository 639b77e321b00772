// The questions on a straight drive: where a cart first meets an obstacle, or a shape of a floor. Callers ask the crate
// `questions`.
#![tactic(auto)]

ghost use Rattle.std.specs.Prelude.{false, ◌≡◌, [], ◌∷◌};
ghost use Rattle.plane.specs.Point.{point};
ghost use Rattle.plane.specs.Floor.{on};
ghost use Rattle.plane.specs.Refusal.{some_outside};
ghost use Rattle.plane.specs.Question.{reply};
ghost use Rattle.polygon.specs.Point.{at};
ghost use Rattle.admission.specs.Admission.{Judged};
ghost use Rattle.motion.specs.Contact.{ask_contact, place_row};
ghost use Rattle.drives.specs.Drive.{ask_drive};
ghost use Rattle.answers.specs.Answer.{of_contact, of_drive};

use answers::{Answer, Drive, Meeting, OnFloor, Refusal};
use polygon::limits;
use polygon::point::Point;

// Where a cart that drives straight from (x, y) to (u, v), without turning, first meets an obstacle. Never; or the
// fraction of the way at which it does, in lowest terms, 0/1 if it begins there, and how many millimetres of the way
// come before, rounded down. Touching is meeting. The corners of the cart are relative to its own origin, whose places
// these are; both places may be the same. Refused: 1 to 5 of the obstacle, then of the cart; different floors; a place
// out of range, which is list 3 or 4; of the obstacle grown by the cart, too many corners and a corner out of range.
pub fn contact(
    obstacle: &[i32],
    f: u16,
    cart: &[i32],
    g: u16,
    x: i32,
    y: i32,
    u: i32,
    v: i32,
) -> Answer<Option<Meeting>>
    ensures { of_contact result ≡ reply
        (ask_contact (on obstacle.now f) (on cart.now g) (point x y) (point u v)) }
{
    driven(obstacle, f, cart, g, Point { x, y }, Point { x: u, y: v })
}

// The same, from the one place to the other.
fn driven(
    obstacle: &[i32],
    f: u16,
    cart: &[i32],
    g: u16,
    from: Point,
    to: Point,
) -> Answer<Option<Meeting>>
    ensures { of_contact result ≡ reply
        (ask_contact (on obstacle.now f) (on cart.now g) (at from) (at to)) }
{
    admission::admit_pair(obstacle, f, cart, g)?;
    admit_place(from, 3)?;
    admit_place(to, 4)?;
    passage::admit_grown(obstacle, cart)?;
    let answer = contact::first(obstacle, cart, from, to);
    Ok(OnFloor { answer, floor: f })
}

// A place is judged: 3 if it is out of range.
fn admit_place(p: Point, which: usize) -> Result<(), Refusal>
    ensures { Judged (some_outside (p.x ∷ p.y ∷ []) ≡ false) (place_row which (at p) ∷ []) result }
{
    if limits::outside(p.x) || limits::outside(p.y) {
        return Err(Refusal::Range { shape: which });
    }
    Ok(())
}

// Which of the current shapes of a floor a cart meets first that drives straight from (x, y) to (u, v), without
// turning. Never; or its name, and what `contact` answers of it: the fraction of the way, and how many millimetres come
// before, rounded down. On a tie the first in the log is answered. Refused: 1 to 5 of the cart; a log in which some
// record is bad; 20 if no shape is on the floor; a place out of range, which is list 2 or 3; then 6 and 7 of the grown
// shapes, shape by shape in the log's order.
// Ruled out: last contact for first; later shape on a tie; older record counted; another floor counted.
pub fn log_contact(
    log: &[u8],
    cart: &[i32],
    floor: u16,
    x: i32,
    y: i32,
    u: i32,
    v: i32,
) -> Answer<Option<Drive>>
    ensures { of_drive result
        ≡ reply (ask_drive log.now (on cart.now floor) (point x y) (point u v)) }
{
    along(log, cart, floor, Point { x, y }, Point { x: u, y: v })
}

// The same, from the one place to the other.
fn along(log: &[u8], cart: &[i32], floor: u16, from: Point, to: Point) -> Answer<Option<Drive>>
    ensures { of_drive result
        ≡ reply (ask_drive log.now (on cart.now floor) (at from) (at to)) }
{
    admission::admit(cart, 1)?;
    journal::survey::survey(log)?;
    if drives::floor::is_empty(log, floor) {
        return Err(Refusal::TooFew);
    }
    admit_place(from, 2)?;
    admit_place(to, 3)?;
    gaps::sizes::admit_sizes(log, floor, cart)?;
    let answer = drives::first(log, floor, cart, from, to);
    Ok(OnFloor { answer, floor })
}
