use wsrep_base::Judged;

/// What a watcher hears: a number of the order is committed, and what became of its event.
#[derive(Clone, Copy, Debug, PartialEq, Eq)]
pub struct Note {
    pub number: u64,
    pub judged: Judged,
}

/// The note that stands in room that is not used.
impl Default for Note {
    fn default() -> Self {
        Note {
            number: 0,
            judged: Judged::View,
        }
    }
}
