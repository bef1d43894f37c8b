// The page machine: what is open, where things stand, and what each step draws.
#![tactic(auto)]

mod drawing;
mod machine;
mod places;
mod refusals;
mod stacks;
mod steps;
#[cfg(test)]
mod tests;
mod types;

pub use drawing::{glyph_at, paint, point_at};
pub use machine::Machine;
pub use refusals::Refusal;
pub use stacks::Stack;
pub use steps::step_of;
pub use types::{Axes, Counts, Drawn, Letter, Numbers, Open, Step, TextLine};
