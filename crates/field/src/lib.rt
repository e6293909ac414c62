// A field: the samples held and the tree of boxes drawn round them.
#![tactic(auto)]

mod flaws;
mod path;
mod state;
#[cfg(test)]
mod tests;

pub use flaws::Flaw;
pub use state::Field;
