// Floors that are any numbers. Where one is above its limit, the lists are judged, and then 13 is due.
ghost use Rattle.std.specs.Prelude.{[], ◌||◌, ◌++◌, ◌≡◌, ltb, IfErr, OnOk};
ghost use Rattle.plane.specs.Limits.{max_floor};
ghost use Rattle.plane.specs.Reply.{refused};
ghost use Rattle.plane.specs.Refusal.{shape_rows, Valid};
ghost use Rattle.plane.specs.Sweep.{point_rows};
ghost use Rattle.admission.specs.Admission.{Judged};
ghost use Rattle.admission.specs.Answer.{of_refusal};
ghost use Rattle.ring.specs.Ring.{list_rows};
ghost use Rattle.wire.specs.Told.{crossed, numbers};
ghost use Rattle.crossing.specs.LowFloor.{barred as low_floor_barred};

use admission::answer::Refusal;
use polygon::limits;
use wire::Reply;

// Whether one of two floors is above its limit.
// Ruled out: second floor not looked at.
pub fn exceeds(f: u32, g: u32) -> bool
    ensures { result ≡ (ltb max_floor f || ltb max_floor g) }
{
    limits::exceeds_floor(f) || limits::exceeds_floor(g)
}

// Whether one of three floors is above its limit.
pub fn exceeds_three(f: u32, g: u32, h: u32) -> bool
    ensures { result ≡ ((ltb max_floor f || ltb max_floor g) || ltb max_floor h) }
{
    exceeds(f, g) || limits::exceeds_floor(h)
}

// Returns the list's refusal, else 13.
pub fn barred(list: &[i32]) -> Reply
    ensures { numbers result ≡ crossed (low_floor_barred (shape_rows 1 list.now)) }
{
    refused(admission::admit(list, 1))
}

// Returns the first list's refusal, else the second's, else 13.
// Ruled out: thirteen for a bad second list; thirteen for a bad second list of three.
pub fn barred_pair(a: &[i32], b: &[i32]) -> Reply
    ensures { numbers result ≡ crossed (low_floor_barred (shape_rows 1 a.now ++ shape_rows 2 b.now)) }
{
    refused(admit_two(a, b))
}

// Returns the refusal of the first of three lists that has one, else 13.
// Ruled out: second list judged for the third.
pub fn barred_three(a: &[i32], b: &[i32], c: &[i32]) -> Reply
    ensures { numbers result ≡ crossed (low_floor_barred
        (shape_rows 1 a.now ++ (shape_rows 2 b.now ++ shape_rows 3 c.now))) }
{
    refused(admit_each(a, b, c))
}

// Returns the refusal of a sweep's points, else 13.
pub fn barred_points(list: &[i32]) -> Reply
    ensures { numbers result ≡ crossed (low_floor_barred (point_rows list.now)) }
{
    refused(admission::admit_points(list))
}

// Returns the refusal of a ring's points, else 13.
pub fn barred_ring(list: &[i32]) -> Reply
    ensures { numbers result ≡ crossed (low_floor_barred (list_rows list.now)) }
{
    refused(ring::admit(list))
}

// Judges two lists, one after the other, whatever their floors.
fn admit_two(a: &[i32], b: &[i32]) -> Result<(), Refusal>
    ensures { Judged (Valid a.now × Valid b.now) (shape_rows 1 a.now ++ shape_rows 2 b.now) result }
{
    admission::admit(a, 1)?;
    admission::admit(b, 2)
}

// The same of three lists.
fn admit_each(a: &[i32], b: &[i32], c: &[i32]) -> Result<(), Refusal>
    ensures { Judged (Valid a.now × Valid b.now × Valid c.now)
        (shape_rows 1 a.now ++ (shape_rows 2 b.now ++ shape_rows 3 c.now)) result }
{
    admit_two(a, b)?;
    admission::admit(c, 3)
}

// Returns what judging refuses, else 13.
fn refused(judged: Result<(), Refusal>) -> Reply
    ensures ok { OnOk judged (numbers result ≡ crossed (refused 13 [])) }
    ensures err { IfErr judged (λ refusal. numbers result ≡ crossed (of_refusal refusal)) }
{
    Reply::from(judged.err().unwrap_or(Refusal::Floors))
}
