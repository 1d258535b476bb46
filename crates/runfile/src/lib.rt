// Reads run files: any byte slice is a list of events, or is refused, with what is wrong.
//
// specs/ says what a file means, in the steps fields, table, bodies, whole. `check` tells a good file from a bad one; a good
// one's bodies are then read in place, from the end of the table on: `event_at` and `handed_at` read one, and its
// `size_at` leads to the next. proofs/Walk.antt has what such a walk goes by. What is public here asks nothing of its caller.
#![tactic(auto)]

mod bad_file;
mod bodies;
mod fields;
mod table;

pub use bad_file::BadFile;
pub use bodies::{event_at, handed_at, size_at};
pub use table::{ENTRY_BYTES, HEAD_BYTES, check, count};
