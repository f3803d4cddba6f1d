//! Watchers: what hears each number that a node commits, with what became of it.
#![tactic(auto)]

mod list_watcher;
mod note;
mod watcher;

pub use list_watcher::{ListWatcher, MOST_NOTES};
pub use note::Note;
pub use watcher::Watcher;
