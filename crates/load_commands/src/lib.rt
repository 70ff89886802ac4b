// The commands of a book: the opcode of a command byte, its turn and its limits, and the command at an offset.
#![tactic(auto)]

pub mod opcode;
pub mod scan;
