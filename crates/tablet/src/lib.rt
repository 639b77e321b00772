// Inner functions for readings of the surveyor's tablet (document 02, W4). Callers ask the crate `questions`.
#![tactic(auto)]

mod doubles;
pub mod reading;

ghost use Rattle.std.specs.Prelude.{◌≡◌, T};
ghost use Rattle.std.specs.Float.{binary64};
ghost use Rattle.std.specs.Float.Ieee.{fits, of_int};
ghost use Rattle.tablet.specs.Reading.{read_as};
ghost use Rattle.tablet.specs.declared.reading.Reading.TheVariants.{Millimetres, Eighths};

use polygon::limits;
use reading::{Fault, Reading};

// The whole number of millimetres that a reading holds exactly; minus zero is 0. Refused: a NaN or an infinity, then
// what is not whole, then what is out of range.
// Ruled out: scaled before the test; whole after range.
pub fn read(reading: Reading) -> Result<i32, Fault>
    ensures { result ≡ read_as reading }
{
    match reading {
        Reading::Millimetres(v) => of_millimetres(v),
        Reading::Eighths(v) => of_eighths(v),
    }
}

// A reading in eighths. Scaled by 0.125 it loses nothing from magnitude 1 upward, and 0 stays 0. What lies between is
// less than an eighth of a millimetre and not whole; near 0 its eighth would be rounded.
fn of_eighths(v: f64) -> Result<i32, Fault>
    requires { T (fits binary64 v) }
    ensures { result ≡ read_as (Eighths v) }
{
    if doubles::is_small(v) {
        return Err(Fault::NotWhole);
    }
    of_millimetres(v * 0.125)
}

// A reading in millimetres.
fn of_millimetres(v: f64) -> Result<i32, Fault>
    requires { T (fits binary64 v) }
    ensures { result ≡ read_as (Millimetres v) }
{
    if !doubles::is_finite(v) {
        return Err(Fault::NotFinite);
    }
    if !doubles::is_whole(v) {
        return Err(Fault::NotWhole);
    }
    if !doubles::is_short(v) {
        return Err(Fault::Far);
    }
    let n = doubles::number(v);
    if limits::outside(n) {
        return Err(Fault::Far);
    }
    Ok(n)
}

// The double that holds a whole number of 32 bits exactly; of 0 it is plus zero.
// Ruled out: minus zero sent back.
pub fn double(n: i32) -> f64
    ensures { result ≡ of_int binary64 n }
{
    n as f64
}
