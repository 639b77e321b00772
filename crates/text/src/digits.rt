// Digits of numbers.
ghost use Rattle.std.specs.Prelude.{◌<◌, IfSome};

// Returns what a hexadecimal digit counts, in small letters or large.
pub fn hexadecimal(byte: u8) -> Option<u8>
    ensures { IfSome result (λ digit. digit < 16) }
{
    match byte {
        b'0'..=b'9' => Some(byte - b'0'),
        b'A'..=b'F' => Some(byte - b'A' + 10),
        b'a'..=b'f' => Some(byte - b'a' + 10),
        _ => None,
    }
}
