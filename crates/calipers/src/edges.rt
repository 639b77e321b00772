// Inner functions: how many edges a list has, and positions on the way round it.
ghost use Rattle.std.specs.Prelude.{◌≡◌, ◌<◌, ◌≤◌, length};
ghost use Rattle.plane.specs.Point.{points};
ghost use Rattle.plane.specs.Forms.{edges};
ghost use Rattle.plane.specs.Cycle.{round as positions_round};

use polygon::corners;

// The number of edges: a point has none, a segment two.
// Ruled out: segment passed once.
pub fn sides(list: &[i32]) -> usize
    ensures { result ≡ length (edges (points list.now)) }
{
    let n = corners::count(list);
    if n < 2 { 0 } else { n }
}

// The position i on the way round: after the last corner comes the first again.
pub fn round(list: &[i32], i: usize) -> usize
    requires { (i ≤ length (points list.now)) × (0 < length (points list.now)) }
    ensures value { result ≡ positions_round (length (points list.now)) i }
    ensures upper_bound { result < length (points list.now) }
{
    if i == corners::count(list) { 0 } else { i }
}
