// Reading a chart, whatever its bytes: past the end stands 0, so that no call reads outside the slice. The header is read
// once and handed on: the functions of the modules answer for any header, with the records where it says that they stand, and
// promise no less; a `Chart` has its own.
#![tactic(auto)]

pub mod headers; // the header's counts
pub mod places; // where each record stands
pub mod blocks; // a block
pub mod kinds; // the kinds of states
pub mod states; // a state's fields
pub mod junctions; // a junction's
pub mod segments; // a segment's, and the segments that start somewhere
pub mod variables; // a variable's
pub mod ops; // what an op's number means
pub mod instructions; // an instruction
pub mod tree; // who is above whom, and the children of a state
pub mod reading; // a chart with its own header

pub use reading::Chart;
