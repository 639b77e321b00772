// Inner functions: replies made of numbers, and numbers of what is none or is below 0.
ghost use Rattle.std.specs.Prelude.{cond, ◌≡◌, pos, ◌<◌, ◌≤◌, map};
ghost use Rattle.plane.specs.Reply.{answered, refused};
ghost use Rattle.wire.specs.Told.{bits as told_bits, crossed, numbers};
ghost use Rattle.wire.specs.Preceded.{Preceded};

use crate::Reply;

// A refusal, and the numbers that it carries.
pub fn refused<const N: usize>(number: u64, told: [u64; N]) -> Reply
    requires { N ≤ 3 }
    ensures { numbers result ≡ crossed (refused number told.entry) }
{
    let mut carried = [0; 3];
    carried[..N].copy_from_slice(&told);
    Reply {
        number,
        carried,
        count: N as u64,
        values: [0; 9],
    }
}

// An answer of at most nine values.
pub fn answered<const N: usize>(told: [u64; N]) -> Reply
    requires { N ≤ 9 }
    ensures { numbers result ≡ crossed (answered (map pos told.entry)) }
{
    let mut values = [0; 9];
    values[..N].copy_from_slice(&told);
    Reply {
        number: 0,
        carried: [0; 3],
        count: N as u64,
        values,
    }
}

// An answer with one value more, before the others.
pub fn preceded(value: u64, reply: Reply) -> Reply
    requires { reply.count < 9 }
    ensures { Preceded value reply result }
{
    Reply {
        number: reply.number,
        carried: reply.carried,
        count: reply.count + 1,
        values: [
            value,
            reply.values[0],
            reply.values[1],
            reply.values[2],
            reply.values[3],
            reply.values[4],
            reply.values[5],
            reply.values[6],
            reply.values[7],
        ],
    }
}

// Returns 1 for yes, 0 for no.
pub fn flag(yes: bool) -> u64
    ensures { pos result ≡ cond yes (pos 1) (pos 0) }
{
    u64::from(yes)
}

// Returns the bits of a number.
pub fn bits(z: i64) -> u64
    ensures { result ≡ told_bits z }
{
    z.cast_unsigned()
}

// Returns the 64 bits of a number of 32.
pub fn extended(z: i32) -> u64
    ensures { result ≡ told_bits z }
{
    bits(i64::from(z))
}
