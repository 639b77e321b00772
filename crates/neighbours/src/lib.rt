// The nearest current shape of a floor. Inner functions; callers ask the crate `questions`.
#![tactic(auto)]

pub mod spacing;

ghost use Rattle.std.specs.Prelude.{true, false, not, ◌&&◌, ◌≡◌, ◌*◌, eqb, length};
ghost use Rattle.plane.specs.Limits.{max_corners};
ghost use Rattle.plane.specs.Point.{points};
ghost use Rattle.plane.specs.Refusal.{Valid};
ghost use Rattle.journal.specs.Format.{records};
ghost use Rattle.journal.specs.Reading.{damaged};
ghost use Rattle.journal.specs.Current.{around};
ghost use Rattle.journal.specs.Survey.{Sound};
ghost use Rattle.neighbours.specs.Nearest.{nearest_numbers};
ghost use Rattle.polygon.specs.Extent.{Extends};
ghost use Rattle.extents.specs.Far.{Bounded};
ghost use Rattle.neighbours.specs.Spacing.{fraction_of, Sized};
ghost use Rattle.neighbours.specs.Search.{near_numbers, is_latest, is_nearer, is_met, kept_of, NearSized};
ghost use Rattle.neighbours.specs.Search.{NotNearer, Onward};

use answers::Nearest;
use clearance::measured::Distance;
use journal::head::Head;
use journal::{current, head, places};
use polygon::extent::Extent;
use polygon::{extent, limits};

// Returns the nearest to a shape of the current shapes on a floor, the name `but` left out, if there is one, and how
// far it is, None where they meet: the first in the log on a tie. No record of the log is bad.
// Ruled out: later shape on a tie; the excepted name answered.
pub fn nearest(log: &[u8], list: &[i32], floor: u16, but: usize) -> Option<Nearest>
    requires { (damaged (records log.now) ≡ false) × Valid list.now }
    ensures { near_numbers result
        ≡ nearest_numbers (points list.now) (around floor but (records log.now)) }
{
    let mut buffer = [0i32; limits::SHAPE_NUMBERS];
    pass(log, list, floor, but, &mut buffer)
}

// The same, with a buffer that holds the numbers of any shape. The search ends at a shape that meets the given one.
fn pass(log: &[u8], list: &[i32], floor: u16, but: usize, buffer: &mut [i32]) -> Option<Nearest>
    requires { (damaged (records log.now) ≡ false) × Valid list.now × (length buffer.old ≡ 2 * max_corners) }
    ensures { near_numbers result
        ≡ nearest_numbers (points list.now) (around floor but (records log.now)) }
{
    let extent = extent::extent_of(list);
    let mut best = None;
    for p in places::all(log) {
        best = look(log, p, list, extent, floor, but, best, buffer);
        if is_met(best) {
            return best;
        }
    }
    best
}

// Returns what is found once the record at a place is looked at. The box about the given shape and that about the
// record's show of most records that they are not nearer.
fn look(
    log: &[u8],
    p: usize,
    list: &[i32],
    extent: Extent,
    floor: u16,
    but: usize,
    best: Option<Nearest>,
    buffer: &mut [i32],
) -> Option<Nearest>
    requires { Sound log.now p × Valid list.now × NearSized best × (length buffer.old ≡ 2 * max_corners)
        × Extends (points list.now) extent }
    ensures { Onward (points list.now) floor but log.now p best result
        × (length buffer.new ≡ 2 * max_corners) }
{
    let head = head::head_at(log, p);
    if !is_asked(head, floor, but) {
        return best;
    }
    endian::decode(log, head.place, head.count, buffer);
    let shape = &buffer[..head.count];
    if is_passed(extent, shape, best) {
        return best;
    }
    let near = Nearest {
        name: head.name,
        distance: clearance::between(list, shape),
    };
    kept(log, p, near, best)
}

// Returns whether boxes show that a shape is not nearer than what was found. If nothing was found, none do.
fn is_passed(extent: Extent, shape: &[i32], best: Option<Nearest>) -> bool
    requires { Bounded extent × Valid shape.now × NearSized best }
    ensures { result ≡ true → NotNearer extent (points shape.now) best }
{
    best.is_some_and(|held| spacing::is_far(extent, shape, held.distance))
}

// Returns whether a record is on the floor and has another name than `but`.
fn is_asked(head: Head, floor: u16, but: usize) -> bool
    ensures { result ≡ (eqb head.floor floor && not (eqb head.name but)) }
{
    head.floor == floor && usize::from(head.name) != but
}

// The record at a place if it is nearer than what was found and is the latest of its name; else what was found. On a
// tie the first stays. Later records are looked at last, since few records are nearer.
// Ruled out: older record counted.
fn kept(log: &[u8], p: usize, near: Nearest, best: Option<Nearest>) -> Option<Nearest>
    requires { Sound log.now p × Sized near.distance × NearSized best }
    ensures { result ≡ kept_of (is_latest log.now p) near best }
{
    if is_nearer(near.distance, best) && current::is_current(log, p) {
        Some(near)
    } else {
        best
    }
}

// Returns whether a distance is less than that of what was found. Any is, if nothing was found.
fn is_nearer(distance: Option<Distance>, best: Option<Nearest>) -> bool
    requires { Sized distance × NearSized best }
    ensures { result ≡ is_nearer (fraction_of distance) best }
{
    best.is_none_or(|held| spacing::is_less(distance, held.distance))
}

// Returns whether what was found meets the shape. Then no other is nearer.
fn is_met(best: Option<Nearest>) -> bool
    ensures { result ≡ is_met best }
{
    matches!(best, Some(Nearest { distance: None, .. }))
}
