// The table of a walk's entries: what it shows of the samples, and what is found from it.
#![tactic(auto)]

mod counted;
mod drop;
mod end;
mod entry;
mod left;
mod open;
mod part;
mod poll;
mod span;
mod table;
#[cfg(test)]
mod tests;

pub use end::End;
pub use entry::{Entry, Of};
pub use span::Span;
pub use table::Table;
