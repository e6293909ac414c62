// A reader of one measure and one field, the query that holds it, and any list of calls on one reader.
#![tactic(auto)]

mod held;
mod history;
mod query;
mod reader;
mod store;
#[cfg(test)]
mod tests;

pub use held::{Held, serve};
pub use history::replay;
pub use query::Query;
pub use reader::Reader;
