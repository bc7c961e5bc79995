// From the byte sets of the positions of an expression to classes of byte values, each with its mask. One file a pass: over the runs of byte values
// that go together, `group` gives each byte value its class, and `masks` each class its positions.
#![tactic(auto)]

pub mod group;
pub mod masks;
