// A ring's records and header as words by value, read from bytes that a caller lends and written there. Document 01,
// "The image".
#![tactic(auto)]

pub mod statuses; // statuses.rt: full and empty as a set
pub mod process; // process.rt: a process record
pub mod header; // header.rt: the header
