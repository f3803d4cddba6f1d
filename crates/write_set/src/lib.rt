//! Write sets and their bytes: one spelling for each valid write set, and the first fault of
//! bytes that are none.
#![tactic(auto)]

mod changes;
mod fault;
mod keys;
mod laws;
mod names;
mod reading;
mod rules;
mod write_set;
mod writing;

pub use changes::{op_body_of, put_all_ops, put_place, put_row_values, values_of};
pub use fault::{Cursor, WsFault};
pub use keys::{key_of, keys_of, put_all_keys};
pub use laws::one_spelling;
pub use names::{NameRole, name_of};
pub use reading::{commit_begin, decode, read_keys, read_ops};
pub use rules::{END, MOST_OPS, ROLLBACK, START, is_valid};
pub use write_set::WriteSet;
pub use writing::{encode, put_keys, put_ops};
