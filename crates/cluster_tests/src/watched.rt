//! Watchers in boxes, whose drops are counted: each hears one note for each number that its node
//! commits, is told its end at the leave, and is then dropped.
ghost use Rattle.std.specs.Prelude.{None};

use crate::steps::run_rows;
use std::alloc::Global;
use std::process::Abort;
use std::sync::Arc;
use std::sync::atomic::{AtomicU64, Ordering};
use std::test::Fail;
use wsrep_watch::{ListWatcher, Note, Watcher};

// What became of watchers: how many were dropped, how many notes these had heard, all numbers of
// the notes together, and those at which they were told their end.
#[derive(Drop)]
struct Seen {
    drops: AtomicU64,
    notes: AtomicU64,
    numbers: AtomicU64,
    ends: AtomicU64,
}

impl Seen {
    fn new() -> Seen {
        Seen {
            drops: AtomicU64::new(0),
            notes: AtomicU64::new(0),
            numbers: AtomicU64::new(0),
            ends: AtomicU64::new(0),
        }
    }

    fn all(&self) -> [u64; 4] {
        [
            self.drops.load(Ordering::SeqCst),
            self.notes.load(Ordering::SeqCst),
            self.numbers.load(Ordering::SeqCst),
            self.ends.load(Ordering::SeqCst),
        ]
    }
}

// A list of notes, which is counted when it is dropped.
struct Counted {
    list: ListWatcher,
    seen: Arc<Seen>,
}

impl Drop for Counted {
    fn drop(self) {
        let Self { list, seen } = self;
        for note in list.first() {
            seen.notes.fetch_add(1, Ordering::SeqCst);
            seen.numbers.fetch_add(note.number, Ordering::SeqCst);
        }
        seen.ends
            .fetch_add(list.end().unwrap_or(1000), Ordering::SeqCst);
        seen.drops.fetch_add(1, Ordering::SeqCst);
    }
}

impl Watcher for Counted {
    ghost notes = { λ it. None };

    ghost end = { λ it. None };

    fn heard(&mut self, note: Note) {
        self.list.heard(note);
    }

    fn ended(&mut self, at: u64) {
        self.list.ended(at);
    }
}

fn boxed(alloc: Global, seen: &Arc<Seen>) -> Result<Box<dyn Watcher + Send>, Fail> {
    let counted = Counted {
        list: ListWatcher::new(),
        seen: Arc::try_clone(seen)?,
    };
    Ok(Box::new(alloc, counted)?)
}

const LEAVE: &str = "\
1 drain : AT 1
2 drain : AT 1
1.1 begin : OK
1.1 insert acct a 100 : OK
1.1 commit : PENDING
1 drain : AT 2
2 take : TOOK 2
1 leave : LEFT 3";

// The rows, with watchers whose nodes end behind them: what was seen of three, before that end.
fn watched<W: Watcher>(
    rt: &impl Abort,
    alloc: Global,
    seen: &[Arc<Seen>; 3],
    watch: Vec<W>,
) -> Result<[[u64; 4]; 3], Fail> {
    let run = run_rows(rt, alloc, 0, watch, LEAVE)?;
    let behind = all_of(seen);
    drop(run);
    Ok(behind)
}

fn all_of(seen: &[Arc<Seen>; 3]) -> [[u64; 4]; 3] {
    [seen[0].all(), seen[1].all(), seen[2].all()]
}

#[test]
fn a_watcher_hears_each_number_once_and_its_end_at_the_leave(rt: HostRuntime) -> Result<(), Fail> {
    let alloc = rt.alloc();
    let seen = [
        Arc::new(alloc, Seen::new())?,
        Arc::new(alloc, Seen::new())?,
        Arc::new(alloc, Seen::new())?,
    ];
    let mut watch = Vec::new(alloc);
    for each in &seen {
        watch.push(boxed(alloc, each)?)?;
    }
    let behind = watched::<Box<dyn Watcher + Send>>(&rt, alloc, &seen, watch)?;
    // That of node 1 heard of 1 and 2, and was told that it ended at 2; that of node 2 is not
    // dropped yet; the third, which no node has, was told that it ended at 0.
    assert_eq!(rt; behind, [[1, 2, 3, 2], [0, 0, 0, 0], [1, 0, 0, 0]]);
    // That of node 2 heard of 1, and is dropped without an end.
    assert_eq!(rt;
        all_of(&seen),
        [[1, 2, 3, 2], [1, 1, 1, 1000], [1, 0, 0, 0]]
    );
    Ok(())
}
