//! The project's one list: items in order over a vector, seen by contracts as a list.
#![tactic(auto)]

mod item_list;

pub use item_list::ItemList;
