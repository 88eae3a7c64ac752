// Values, and instructions on them; a block that cannot send.
#![tactic(auto)]

pub mod values; // arithmetic on signed 32-bit values
pub mod stack; // the value stack
pub mod instruct; // one instruction
pub mod action; // a block
