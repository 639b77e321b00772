// Inner functions: the first shape of a floor that a straight drive of a cart meets. Callers ask the crate `questions`.
#![tactic(auto)]

pub mod floor;

ghost use Rattle.std.specs.Prelude.{false, ◌≡◌};
ghost use Rattle.plane.specs.Point.{points};
ghost use Rattle.plane.specs.Reply.{NoneApply};
ghost use Rattle.plane.specs.Refusal.{Valid};
ghost use Rattle.polygon.specs.Point.{at};
ghost use Rattle.growth.specs.Grown.{grown};
ghost use Rattle.journal.specs.Format.{records, name as format_name};
ghost use Rattle.journal.specs.Reading.{damaged};
ghost use Rattle.journal.specs.Survey.{record_at, Sound};
ghost use Rattle.contact.specs.Share.{Places};
ghost use Rattle.gaps.specs.Gap.{on_floor, size_rows_of};
ghost use Rattle.gaps.specs.Search.{Walk};
ghost use Rattle.drives.specs.Drive.{drive_numbers};
ghost use Rattle.drives.specs.Search.{found_numbers, is_latest, is_sooner, kept_of, MetAs, Onward};

use answers::{Drive, Meeting};
use contact::share::Share;
use gaps::growing;
use journal::{current, head, places};
use polygon::limits;
use polygon::point::Point;

// Returns the first current shape of a floor that a cart meets on its way from t to u, if it meets one: the first in
// the log on a tie. No record of the log is bad, and all grown shapes are shapes.
pub fn first(log: &[u8], floor: u16, cart: &[i32], t: Point, u: Point) -> Option<Drive>
    requires { (damaged (records log.now) ≡ false) × Valid cart.now × Places (at t) (at u)
        × NoneApply (size_rows_of (points cart.now) (on_floor floor log.now)) }
    ensures { found_numbers result
        ≡ drive_numbers (points cart.now) (at t) (at u) (on_floor floor log.now) }
{
    let mut buffer = [0i32; limits::SHAPE_NUMBERS];
    let mut best = None;
    for p in places::all(log) {
        best = look(log, p, floor, cart, t, u, best, &mut buffer);
    }
    best
}

// Returns what is found once the record at a place is looked at.
// Ruled out: another floor counted.
fn look(
    log: &[u8],
    p: usize,
    floor: u16,
    cart: &[i32],
    t: Point,
    u: Point,
    best: Option<Drive>,
    buffer: &mut [i32; limits::SHAPE_NUMBERS],
) -> Option<Drive>
    requires { Walk (points cart.now) log.now floor p × Sound log.now p × Valid cart.now
        × Places (at t) (at u) }
    ensures { Onward (points cart.now) (at t) (at u) floor log.now p best result }
{
    if head::head_at(log, p).floor != floor {
        return best;
    }
    kept(
        log,
        p,
        meet(growing::shape_at(log, p, buffer), cart, t, u),
        best,
    )
}

// Where a cart first meets an obstacle, if the grown obstacle is a shape. If it is not, the record is an older one of
// its name, and is passed over.
fn meet(obstacle: &[i32], cart: &[i32], t: Point, u: Point) -> Option<Meeting>
    requires { Valid obstacle.now × Valid cart.now × Places (at t) (at u) }
    ensures { MetAs (at t) (at u) (grown (points obstacle.now) (points cart.now)) result }
{
    match passage::admit_grown(obstacle, cart) {
        Ok(()) => contact::first(obstacle, cart, t, u),
        Err(_) => None,
    }
}

// The record at a place if it is met sooner than what was found and is the latest of its name; else what was found.
// Later records are looked at last, since few records are sooner.
// Ruled out: older record counted.
fn kept(log: &[u8], p: usize, met: Option<Meeting>, best: Option<Drive>) -> Option<Drive>
    requires { Sound log.now p }
    ensures { result
        ≡ kept_of (is_latest log.now p) (format_name (record_at log.now p)) met best }
{
    let Some(meeting) = met else {
        return best;
    };
    if is_sooner(meeting, best) && current::is_current(log, p) {
        return Some(Drive {
            name: head::head_at(log, p).name,
            meeting,
        });
    }
    best
}

// Whether a shape is met sooner than what was found.
// Ruled out: later shape on a tie.
fn is_sooner(meeting: Meeting, best: Option<Drive>) -> bool
    ensures { result ≡ is_sooner meeting best }
{
    match best {
        Some(found) => Share::from(meeting).is_less(Share::from(found.meeting)),
        None => true,
    }
}
