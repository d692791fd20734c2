// Calls of placing and stepping with hostile arguments, as a line of a table gives them, and what the entries answered held to the line.
#![tactic(auto)]

pub mod runs;
pub mod walks;
