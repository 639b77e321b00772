// Inner functions: the points of a sweep that may be corners of its shape. Those strictly inside a rectangle that the
// points reach past at each of its corners are not, and are dropped before the sort.
ghost use Rattle.std.specs.Prelude.{◌&&◌, ◌≡◌, ℕ, ◌^◌, ◌<◌, ◌≤◌, length, ◌≤ℤ◌};
ghost use Rattle.std.specs.Int.Signed.{lt_z};
ghost use Rattle.plane.specs.Point.{points};
ghost use Rattle.plane.specs.Refusal.{InRange};
ghost use Rattle.polygon.specs.Point.{at, Small};
ghost use Rattle.sorting.specs.Buffer.{Holds};
ghost use Rattle.sorting.specs.Interior.{is_inside, outer as interior_outer, Reached, Reduced};

use polygon::corners;
use polygon::point::Point;

// A rectangle by its sides.
#[derive(Clone, Copy)]
pub struct Rectangle {
    pub left: i32,
    pub right: i32,
    pub low: i32,
    pub high: i32,
}

impl Rectangle {
    // Whether a point lies strictly inside.
    fn surrounds(self, p: Point) -> bool
        ensures { result ≡ is_inside self (at p) }
    {
        is_between(self.left, p.x, self.right) && is_between(self.low, p.y, self.high)
    }
}

// The positions of four points of a list.
#[derive(Clone, Copy)]
pub struct Extremes {
    pub northeast: usize,
    pub northwest: usize,
    pub southwest: usize,
    pub southeast: usize,
}

// A position, and how far out the point there is along a diagonal.
#[derive(Clone, Copy)]
pub struct Far {
    pub at: usize,
    pub value: i32,
}

impl Far {
    // The first position.
    fn first(value: i32) -> Far
        ensures { result.at ≡ 0 }
    {
        Far { at: 0, value }
    }

    // The position of the greater value.
    fn or(self, i: usize, value: i32) -> Far
        ensures { (n : ℕ) → self.at < n → i < n → result.at < n }
    {
        if self.value < value {
            Far { at: i, value }
        } else {
            self
        }
    }
}

// Copies the points that are not strictly inside the inner rectangle to the front of the buffer, and answers how many
// they are.
// Ruled out: points on the rim dropped.
pub fn reduce(list: &[i32], buf: &mut [i32]) -> usize
    requires { (0 < length (points list.now)) × InRange list.now
        × (length (points list.now) ≤ length (points buf.old)) }
    ensures { Reduced (points list.now) buf.new result }
{
    let inner = inner_rectangle(list);
    copy_outer(list, inner, buf)
}

// The rectangle between the four points that are outermost along the diagonals. It may be empty.
fn inner_rectangle(list: &[i32]) -> Rectangle
    requires { (0 < length (points list.now)) × InRange list.now }
    ensures { Reached result (points list.now) }
{
    let found = outermost(list);
    let a = corners::corner_at(list, found.northeast);
    let b = corners::corner_at(list, found.northwest);
    let c = corners::corner_at(list, found.southwest);
    let d = corners::corner_at(list, found.southeast);
    Rectangle {
        left: b.x.max(c.x),
        right: a.x.min(d.x),
        low: c.y.max(d.y),
        high: a.y.min(b.y),
    }
}

// The positions of the points that are outermost along the diagonals. Any four points would do: these leave the largest
// rectangle between them.
fn outermost(list: &[i32]) -> Extremes
    requires { (0 < length (points list.now)) × InRange list.now }
    ensures { (result.northeast < length (points list.now))
        × (result.northwest < length (points list.now))
        × (result.southwest < length (points list.now))
        × (result.southeast < length (points list.now)) }
{
    let n = corners::count(list);
    let p = corners::corner_at(list, 0);
    let mut a = Far::first(northeast(p));
    let mut b = Far::first(northwest(p));
    let mut c = Far::first(southwest(p));
    let mut d = Far::first(southeast(p));
    // One walk finds all four.
    for i in 1..n {
        let q = corners::corner_at(list, i);
        a = a.or(i, northeast(q));
        b = b.or(i, northwest(q));
        c = c.or(i, southwest(q));
        d = d.or(i, southeast(q));
    }
    Extremes {
        northeast: a.at,
        northwest: b.at,
        southwest: c.at,
        southeast: d.at,
    }
}

// How far out a point is to the northeast.
fn northeast(p: Point) -> i32
    requires { Small (2 ^ 21) (at p) }
{
    p.x + p.y
}

// How far out a point is to the northwest.
fn northwest(p: Point) -> i32
    requires { Small (2 ^ 21) (at p) }
{
    p.y - p.x
}

// How far out a point is to the southwest.
fn southwest(p: Point) -> i32
    requires { Small (2 ^ 21) (at p) }
{
    -p.x - p.y
}

// How far out a point is to the southeast.
fn southeast(p: Point) -> i32
    requires { Small (2 ^ 21) (at p) }
{
    p.x - p.y
}

// Copies the points that are not strictly inside a rectangle to the front of the buffer, and answers how many they are.
// Which are is as good as random, so each is written, and the next one over it if it is inside.
fn copy_outer(list: &[i32], inner: Rectangle, buf: &mut [i32]) -> usize
    requires { length (points list.now) ≤ length (points buf.old) }
    ensures { Holds buf.new result (interior_outer inner (points list.now)) }
{
    let n = corners::count(list);
    let mut k = 0;
    for i in 0..n {
        let p = corners::corner_at(list, i);
        corners::put(buf, k, p);
        k += usize::from(!inner.surrounds(p));
    }
    k
}

// Whether a number lies strictly between two others.
fn is_between(low: i32, z: i32, high: i32) -> bool
    ensures { result ≡ (lt_z low z && lt_z z high) }
{
    low < z && z < high
}
