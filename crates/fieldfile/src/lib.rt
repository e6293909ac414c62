// The field file: a field as bytes.
#![tactic(auto)]

mod body;
mod cursor;
mod examining;
mod faults;
mod file;
#[cfg(test)]
mod load_tests;
mod loading;
mod numbers;
mod outline;
mod parts;
#[cfg(test)]
mod tests;
mod writing;

pub use examining::{Holding, examine};
pub use faults::{Check, Fault};
pub use file::{MAX_FILE, write};
pub use loading::load;
pub use outline::{Outline, read_outline};
pub use parts::{Record, record_at};
