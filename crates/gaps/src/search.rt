// Inner functions: the search for the narrowest gap.
ghost use Rattle.std.specs.Prelude.{true, ◌≡◌, None};
ghost use Rattle.plane.specs.Limits.{max_corners};
ghost use Rattle.plane.specs.Point.{points};
ghost use Rattle.plane.specs.Refusal.{Valid};
ghost use Rattle.journal.specs.Survey.{record_at, next_at, Sound};
ghost use Rattle.extents.specs.Far.{Bounded, Reaches};
ghost use Rattle.neighbours.specs.Spacing.{Sized};
ghost use Rattle.gaps.specs.Gap.{pairs_of, on_floor, grown_of};
ghost use Rattle.gaps.specs.Search.{nearer as search_nearer};
ghost use Rattle.gaps.specs.Search.{Walk, Told, KeptSized, Passed, LeftOut, pairs_at, tried_at, later_pairs};

use crate::{floor, growing};
use clearance::measured::Distance;
use journal::{head, places, records};
use neighbours::spacing;
use polygon::extent::Extent;
use polygon::limits;

// The pair that is kept: the places of its two records, and how far apart their grown shapes are.
#[derive(Clone, Copy)]
pub struct Best {
    pub first: usize,
    pub second: usize,
    pub distance: Option<Distance>,
}

// Returns the first pair of least gap, if the floor has two shapes.
// Ruled out: pair with itself counted; one shape of a pair grown only.
pub fn narrowest(
    log: &[u8],
    floor: u16,
    cart: &[i32],
    shape: &mut [i32; limits::SHAPE_NUMBERS],
    above: &mut [i32; limits::SHAPE_NUMBERS],
    below: &mut [i32; limits::SHAPE_NUMBERS],
) -> Option<Best>
    requires { Walk (points cart.now) log.now floor 0 × Valid cart.now }
    ensures { Passed (points cart.now) log.now
        (pairs_of (on_floor floor log.now)) None result }
{
    let mut best = None;
    for p in places::all(log) {
        best = from(log, p, floor, cart, best, shape, above, below);
    }
    best
}

// What is kept once the record at a place was tried with every later one.
fn from(
    log: &[u8],
    p: usize,
    floor: u16,
    cart: &[i32],
    best: Option<Best>,
    shape: &mut [i32; limits::SHAPE_NUMBERS],
    above: &mut [i32; limits::SHAPE_NUMBERS],
    below: &mut [i32; limits::SHAPE_NUMBERS],
) -> Option<Best>
    requires { Walk (points cart.now) log.now floor p × Sound log.now p × Valid cart.now
        × Told (points cart.now) log.now best }
    ensures { Passed (points cart.now) log.now (pairs_at floor log.now p) best result }
{
    if !floor::is_on(log, p, floor) {
        return best;
    }
    let grown = growing::grown_at(log, p, cart, shape, above);
    later(log, p, floor, cart, best, grown, shape, below)
}

// The same of a record of the floor, which is grown.
fn later(
    log: &[u8],
    p: usize,
    floor: u16,
    cart: &[i32],
    best: Option<Best>,
    grown: &[i32],
    shape: &mut [i32; limits::SHAPE_NUMBERS],
    below: &mut [i32; limits::SHAPE_NUMBERS],
) -> Option<Best>
    requires { Walk (points cart.now) log.now floor p × Sound log.now p × Valid cart.now
        × Told (points cart.now) log.now best × Valid grown.now
        × (points grown.now ≡ grown_of (points cart.now) (record_at log.now p)) }
    ensures { Passed (points cart.now) log.now
        (later_pairs floor log.now p (next_at log.now p)) best result }
{
    let reach = extents::reach(grown, cart);
    let mut kept = best;
    for q in places::from(log, records::next_at(log, p)) {
        kept = tried(log, p, q, floor, cart, kept, grown, reach, shape, below);
    }
    kept
}

// What is kept once the record at q was tried with the one at p, which is grown. It is not grown itself if boxes show
// that the pair is not nearer, which they do of most pairs.
fn tried(
    log: &[u8],
    p: usize,
    q: usize,
    floor: u16,
    cart: &[i32],
    best: Option<Best>,
    grown: &[i32],
    reach: Extent,
    shape: &mut [i32; limits::SHAPE_NUMBERS],
    below: &mut [i32; limits::SHAPE_NUMBERS],
) -> Option<Best>
    requires { Walk (points cart.now) log.now floor q × Sound log.now p × Sound log.now q × Valid cart.now
        × Told (points cart.now) log.now best × Valid grown.now
        × (points grown.now ≡ grown_of (points cart.now) (record_at log.now p))
        × Reaches (points grown.now) (points cart.now) reach × Bounded reach }
    ensures { Passed (points cart.now) log.now
        (tried_at floor log.now p q) best result }
{
    if is_passed(log, q, floor, reach, best, shape) {
        return best;
    }
    if !floor::is_on(log, q, floor) {
        return best;
    }
    let other = growing::grown_at(log, q, cart, shape, below);
    nearer(p, q, clearance::between(grown, other), best)
}

// Returns whether the record at q is on another floor, or boxes show that its pair is not nearer than what is kept: the
// box about the record, and that about the other shape, grown, and the cart.
fn is_passed(
    log: &[u8],
    q: usize,
    floor: u16,
    reach: Extent,
    best: Option<Best>,
    shape: &mut [i32; limits::SHAPE_NUMBERS],
) -> bool
    requires { Sound log.now q × KeptSized best × Bounded reach }
    ensures { result ≡ true → LeftOut floor log.now q reach best }
{
    if head::head_at(log, q).floor != floor {
        return true;
    }
    let Some(old) = best else {
        return false;
    };
    spacing::is_far(reach, growing::shape_at(log, q, shape), old.distance)
}

// The pair at p and q if it is nearer than what is kept, or nothing is; else what is kept.
// Ruled out: wider pair kept.
fn nearer(p: usize, q: usize, distance: Option<Distance>, best: Option<Best>) -> Option<Best>
    requires { Sized distance × KeptSized best }
    ensures { result ≡ search_nearer p q distance best }
{
    if let Some(old) = best {
        if !spacing::is_less(distance, old.distance) {
            return best;
        }
    }
    Some(Best {
        first: p,
        second: q,
        distance,
    })
}
