//! The grammar of schedules: what one line says, or why it says nothing.
#![tactic(auto)]

mod calls;
mod fields;
mod header;
mod line;
mod load;
mod parse;
mod rounds;
mod steps;
mod words;

pub use fields::number;
pub use line::{Header, Line, ScriptCause};
pub use load::LoadSteps;
pub use parse::{parse_first, parse_header, parse_line};
