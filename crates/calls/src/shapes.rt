// Calls on one list.
ghost use Rattle.std.specs.Prelude.{◌≡◌};
ghost use Rattle.plane.specs.Point.{point};
ghost use Rattle.plane.specs.Floor.{on};
ghost use Rattle.plane.specs.Question.{reply, output, ask_judge, ask_furthest, ask_mirror, ask_sweep, ask_length};
ghost use Rattle.plane.specs.Question.{ask_width};
ghost use Rattle.area.specs.Area.{ask_area};
ghost use Rattle.boxes.specs.Box.{ask_box};
ghost use Rattle.wire.specs.Told.{crossed, numbers};
ghost use Rattle.crossing.specs.LowFloor.{low_floor, low_ring};

use crossing::floors;
use polygon::limits;
use reply::Reply;

// Answers how many corners the list has.
#[unsafe(no_mangle)]
pub extern "C" fn cocklesway_judge(list: &[i32], floor: u32) -> Reply
    ensures { numbers result ≡ crossed (reply (low_floor (ask_judge (on list.now floor)))) }
{
    if limits::exceeds_floor(floor) {
        return floors::barred(list);
    }
    reply::of(shape_questions::judge(list, floor as u16))
}

// Answers the first and the last of the furthest corners in the direction (u, v), and their value.
#[unsafe(no_mangle)]
pub extern "C" fn cocklesway_furthest(list: &[i32], floor: u32, u: i32, v: i32) -> Reply
    ensures { numbers result ≡ crossed (reply (low_floor (ask_furthest (on list.now floor) (point u v)))) }
{
    if limits::exceeds_floor(floor) {
        return floors::barred(list);
    }
    reply::of(shape_questions::furthest(list, floor as u16, u, v))
}

// Writes the mirror image, and answers how many corners it has.
#[unsafe(no_mangle)]
pub extern "C" fn cocklesway_mirror(list: &[i32], floor: u32, out: &mut [i32]) -> Reply
    ensures { (numbers result ≡ crossed (reply (low_floor (ask_mirror (on list.now floor) out.old))))
        × (out.new ≡ output (low_floor (ask_mirror (on list.now floor) out.old))) }
{
    if limits::exceeds_floor(floor) {
        return floors::barred(list);
    }
    reply::of(shape_questions::mirror(list, floor as u16, out))
}

// Writes the shape of many points, and answers how many corners it has.
#[unsafe(no_mangle)]
pub extern "C" fn cocklesway_sweep(list: &[i32], floor: u32, out: &mut [i32]) -> Reply
    ensures { (numbers result ≡ crossed (reply (low_floor (ask_sweep (on list.now floor) out.old))))
        × (out.new ≡ output (low_floor (ask_sweep (on list.now floor) out.old))) }
{
    if limits::exceeds_floor(floor) {
        return floors::barred_points(list);
    }
    reply::of(shape_questions::sweep(list, floor as u16, out))
}

// Writes the standard list with the corners of a ring as people have it, and answers how many they are.
#[unsafe(no_mangle)]
pub extern "C" fn cocklesway_ring(list: &[i32], floor: u32, out: &mut [i32]) -> Reply
    ensures { (numbers result ≡ crossed (reply (low_ring (on list.now floor) out.old)))
        × (out.new ≡ output (low_ring (on list.now floor) out.old)) }
{
    if limits::exceeds_floor(floor) {
        return floors::barred_ring(list);
    }
    reply::of(shape_questions::rings::ring(list, floor as u16, out))
}

// Answers the greatest squared distance of two corners, and their positions.
#[unsafe(no_mangle)]
pub extern "C" fn cocklesway_length(list: &[i32], floor: u32) -> Reply
    ensures { numbers result ≡ crossed (reply (low_floor (ask_length (on list.now floor)))) }
{
    if limits::exceeds_floor(floor) {
        return floors::barred(list);
    }
    reply::of(shape_questions::length(list, floor as u16))
}

// Answers twice the area.
#[unsafe(no_mangle)]
pub extern "C" fn cocklesway_area(list: &[i32], floor: u32) -> Reply
    ensures { numbers result ≡ crossed (reply (low_floor (ask_area (on list.now floor)))) }
{
    if limits::exceeds_floor(floor) {
        return floors::barred(list);
    }
    reply::of(shape_questions::area(list, floor as u16))
}

// Answers edge, corner, turn, squared edge and the width rounded down.
#[unsafe(no_mangle)]
pub extern "C" fn cocklesway_width(list: &[i32], floor: u32) -> Reply
    ensures { numbers result ≡ crossed (reply (low_floor (ask_width (on list.now floor)))) }
{
    if limits::exceeds_floor(floor) {
        return floors::barred(list);
    }
    reply::of(shape_questions::width(list, floor as u16))
}

// Answers the edge of the least box, its height, the side along it and the squared edge.
#[unsafe(no_mangle)]
pub extern "C" fn cocklesway_box(list: &[i32], floor: u32) -> Reply
    ensures { numbers result ≡ crossed (reply (low_floor (ask_box (on list.now floor)))) }
{
    if limits::exceeds_floor(floor) {
        return floors::barred(list);
    }
    reply::of(shape_questions::boxing::least_box(list, floor as u16))
}
