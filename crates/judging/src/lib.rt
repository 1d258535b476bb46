// Judging an array of operations, and the tests that come before it.
//
// What is public is listed here. Each of these functions is total: it asks nothing of its caller, and its promise is an
// equation with a definition of the crate model (`value_of`, `value_in`, `judge`, `stop_of`: of specs/), for every argument.
// An array, or the values of a setting, is the bytes as they lie in the lent file; bytes that make no whole operation or value at
// the end are ignored, as in the definition.
#![tactic(auto)]

mod amount;
mod checks;
mod identifier;
mod named;
mod operation;
mod outcome;
mod permission;
mod setting;
mod stop;
mod walk;

pub use amount::{cut, is_negative};
pub use checks::check_array;
pub use identifier::{in_range, slot_of, value_of};
pub use outcome::{decided, finishes};
pub use permission::{owns, permits};
pub use setting::{all_in_range, value_in};
pub use stop::{Stop, stop_of};
pub use walk::{Verdict, judge};
