#![tactic(auto)]
// Helpers on machine numbers: a value at a width, rounding to an alignment, a map of bits, and a
// number's decimal digits. Each contract gives the whole answer by a definition of specs/, in the
// file of the module's name; `Wrap` there has the sums and products that wrap.
pub mod align;
pub mod bits;
pub mod digits;
pub mod width;
