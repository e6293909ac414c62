// The walk of a question over a field: from box to box until the answer cannot change.
#![tactic(auto)]

mod inquiry;
mod moment;
mod nearby;
mod open;
mod outcome;
mod question;
#[cfg(test)]
mod tests;
mod walk;

pub use outcome::{Outcome, search};
pub use question::{Question, ask};
pub use walk::{End, Walk};
