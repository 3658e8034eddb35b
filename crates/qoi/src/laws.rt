//! Laws over the definitions: empty functions, to be called for what their contracts state. `reading`
//! and `rectangles` are for callers; `surface` and `writing` show that the definitions are right.

pub mod reading;
pub mod rectangles;
pub mod surface;
pub mod writing;
