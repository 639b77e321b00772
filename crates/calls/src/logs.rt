// Calls on a log, which is lent as bytes.
ghost use Rattle.std.specs.Prelude.{◌≡◌};
ghost use Rattle.plane.specs.Point.{point};
ghost use Rattle.plane.specs.Floor.{on};
ghost use Rattle.plane.specs.Question.{reply, output};
ghost use Rattle.journal.specs.Reading.{ask_read};
ghost use Rattle.packing.specs.Packing.{remade};
ghost use Rattle.journal.specs.Current.{ask_entry};
ghost use Rattle.neighbours.specs.Nearest.{ask_nearest};
ghost use Rattle.gaps.specs.Gap.{ask_gap};
ghost use Rattle.drives.specs.Drive.{ask_drive};
ghost use Rattle.wire.specs.Told.{crossed, numbers};
ghost use Rattle.crossing.specs.LowFloor.{low_floor};
ghost use Rattle.calls.specs.Calls.{added_low};

use crossing::floors;
use polygon::limits;
use reply::Reply;

// Writes the corners of the latest record of the name, and answers how many, and the record's floor.
#[unsafe(no_mangle)]
pub extern "C" fn cocklesway_log_read(log: &[u8], name: u16, out: &mut [i32]) -> Reply
    ensures { (numbers result ≡ crossed (reply (ask_read log.now name out.old)))
        × (out.new ≡ output (ask_read log.now name out.old)) }
{
    reply::of(log_questions::log_read(log, name, out))
}

// Writes the corners of the current shape at a position, and answers how many, its name and its floor.
#[unsafe(no_mangle)]
pub extern "C" fn cocklesway_log_entry(log: &[u8], k: usize, out: &mut [i32]) -> Reply
    ensures { (numbers result ≡ crossed (reply (ask_entry log.now k out.old)))
        × (out.new ≡ output (ask_entry log.now k out.old)) }
{
    reply::of(log_questions::books::log_entry(log, k, out))
}

// Adds the shape to the log with at most as many stores as are allowed. Answers 1 if it finished, 0 if it was cut.
// A floor above its limit is refused 13 after the list and before the log, with nothing stored.
// Ruled out: name and floor exchanged; floor above the limit stored.
#[unsafe(no_mangle)]
pub extern "C" fn cocklesway_log_add(
    log: &mut [u8],
    name: u16,
    f: u32,
    list: &[i32],
    allowed: usize,
) -> Reply
    ensures { (numbers result ≡ crossed (added_low log.old name f list.now allowed).reply)
        × (log.new ≡ (added_low log.old name f list.now allowed).log) }
{
    if limits::exceeds_floor(f) {
        return floors::barred(list);
    }
    reply::of_addition(log_questions::log_add(log, name, f as u16, list, allowed))
}

// Packs the old log into the new run with at most as many stores as are allowed, without the records of the name `but`;
// 65,536 leaves out nobody. Answers 1 if it finished, 0 if it was cut.
#[unsafe(no_mangle)]
pub extern "C" fn cocklesway_log_pack(old: &[u8], new: &mut [u8], but: u32, allowed: usize) -> Reply
    ensures { (numbers result ≡ crossed (remade old.now but new.old allowed).reply)
        × (new.new ≡ (remade old.now but new.old allowed).log) }
{
    reply::of_addition(log_questions::books::log_pack(old, new, but, allowed))
}

// Answers the name of the nearest current shape on the floor, `but` left out, and what clearance answers of the two. A
// floor above its limit is refused 13 after the list and before the log.
#[unsafe(no_mangle)]
pub extern "C" fn cocklesway_log_nearest(log: &[u8], list: &[i32], floor: u32, but: usize) -> Reply
    ensures { numbers result
        ≡ crossed (reply (low_floor (ask_nearest log.now list.now floor but))) }
{
    if limits::exceeds_floor(floor) {
        return floors::barred(list);
    }
    reply::of(log_questions::books::log_nearest(log, list, floor as u16, but))
}

// Answers the names of the two current shapes on the floor with the narrowest gap, both grown by the cart, and what
// clearance answers of the grown two. A floor above its limit is refused 13 after the cart and before the log.
#[unsafe(no_mangle)]
pub extern "C" fn cocklesway_log_gap(log: &[u8], cart: &[i32], floor: u32) -> Reply
    ensures { numbers result
        ≡ crossed (reply (low_floor (ask_gap log.now (on cart.now floor)))) }
{
    if limits::exceeds_floor(floor) {
        return floors::barred(cart);
    }
    reply::of(log_questions::books::log_gap(log, cart, floor as u16))
}

// Answers the name of the current shape on the floor that a cart meets first that drives straight from (x, y) to
// (u, v), and what contact answers of it; 0 if it meets none. A floor above its limit is refused 13 after the cart and
// before the log.
#[unsafe(no_mangle)]
pub extern "C" fn cocklesway_log_contact(
    log: &[u8],
    cart: &[i32],
    floor: u32,
    x: i32,
    y: i32,
    u: i32,
    v: i32,
) -> Reply
    ensures { numbers result ≡ crossed (reply (low_floor
        (ask_drive log.now (on cart.now floor) (point x y) (point u v)))) }
{
    if limits::exceeds_floor(floor) {
        return floors::barred(cart);
    }
    reply::of(drive_questions::log_contact(log, cart, floor as u16, x, y, u, v))
}
