// A reply packed into one number. No other code packs one.
ghost use Rattle.wire.specs.Told.{numbers};
ghost use Rattle.bytewise.specs.Passing.{Narrow, Packs};

use wire::Reply;

// Packs a byte, a byte, two bytes and two bytes, from the low end: the refusal, the shape that it blames, and two
// numbers, which a refusal carries or which are the values of an answer. Of each of these a reply has one, and 0 for
// the other.
// Ruled out: edge and corner exchanged; count and floor exchanged.
pub fn packed_reply(reply: Reply) -> u64
    requires { Narrow (numbers reply) }
    ensures { Packs (numbers reply) result }
{
    let first = reply.carried[1] + reply.values[0];
    let second = reply.carried[2] + reply.values[1];
    reply.number + 256 * reply.carried[0] + 65536 * first + 4294967296 * second
}
