// What the surveyor's tablet sends, and why a reading is refused.

// A reading (document 02, W4): "either millimetres or eighths of a millimetre, each carrying its own double".
#[derive(Clone, Copy)]
pub enum Reading {
    Millimetres(f64),
    Eighths(f64),
}

// Why a reading is refused.
#[derive(Clone, Copy)]
pub enum Fault {
    // 17: not finite
    NotFinite,
    // 18: not a whole number of millimetres
    NotWhole,
    // 3: out of range
    Far,
}
