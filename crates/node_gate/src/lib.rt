//! A gate behind which threads take turns at one value; its number is read outside the turns.
#![tactic(auto)]

mod counted;
mod gate;
mod place;
mod plays;
mod steps;
mod view;

pub use counted::Counted;
pub use gate::{Gate, GateSeat};
pub use place::Place;
pub use view::{Lock, Met, Turn, View};
