// Inner functions: the corners of a record, read from its bytes and judged.
ghost use Rattle.std.specs.Prelude.{◌≡◌, ◌+◌, ◌*◌, ◌%◌, ◌≤◌, length};
ghost use Rattle.endian.specs.Bytes.{words_at};
ghost use Rattle.journal.specs.Format.{judged, is_answer};
ghost use Rattle.journal.specs.Survey.{Ample};

use polygon::limits;

// Whether the n numbers from a place of the log on are a shape. The buffer holds those of any shape in the log.
pub fn is_shape_at(log: &[u8], p: usize, n: usize, buffer: &mut [i32]) -> bool
    requires { (p + 4 * n ≤ length log.now) × (n % 2 ≡ 0) × Ample log.now buffer.old }
    ensures { (result ≡ is_answer (judged (words_at n log.now p)))
        × (length buffer.new ≡ length buffer.old) }
{
    if limits::exceeds_corners(n / 2) {
        return false;
    }
    endian::decode(log, p, n, buffer);
    convexity::passes(&buffer[..n])
}
