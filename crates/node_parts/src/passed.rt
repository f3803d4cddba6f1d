ghost use Rattle.std.specs.Prelude.{◌≡◌, ◌+◌, ◌<◌, ◌≤◌, OnOk};
ghost use Rattle.std.specs.Option.{option_copied};
ghost use Rattle.finite_map.specs.FiniteMap.{empty, get, insert, remove};
ghost use Rattle.node_parts.specs.Passed.{AllBefore, IsRising, IsPlace};

use row_model::OpList;
use std::alloc::Global;
use std::collections::VecDeque;
use std::marker::Model;
use wsrep_base::NoMemory;

/// What is kept of a commit that passed and is not committed.
#[derive(Debug, Drop)]
pub struct PassedCommit {
    /// All changes of its transaction.
    pub changes: OpList,
    /// The latest commit before it whose keys touch its own, of those that were kept when it
    /// passed. None where there is none.
    pub dependency: Option<u64>,
}

/// Commits that passed and are not committed, by number.
#[derive(Drop)]
pub struct Passed {
    // In rising order of the numbers.
    commits: VecDeque<(u64, PassedCommit)>,
}

impl Model for Passed {
    ghost use Rattle.std.specs.Prelude.{◌-◌};
    ghost use Rattle.std.specs.VecDeque.{deque_len, deque_capacity};
    ghost use Rattle.finite_map.specs.FiniteMap.{from_entries};
    ghost use Rattle.node_parts.specs.Passed.{PassedCommits, IsRising};

    ghost Value = { PassedCommits };

    ghost view = { λ p.
        record {
          commits = from_entries p.commits.items;
          spare = deque_capacity p.commits - deque_len p.commits;
        } };

    ghost invariant = { λ p. IsRising p.commits.items };
}

impl Passed {
    /// No commits. It takes no memory.
    pub fn new(alloc: Global) -> Passed
        ensures { result.commits ≡ empty }
    {
        Passed {
            commits: VecDeque::new(alloc),
        }
    }

    /// Makes room for one more commit.
    pub fn reserve_one(&mut self) -> Result<(), NoMemory>
        ensures ok { OnOk result (0 < self.new.spare) }
        ensures commits { self.new.commits ≡ self.old.commits }
        ensures spare { self.old.spare ≤ self.new.spare }
    {
        self.commits.reserve(1)
    }

    /// Puts the newest commit there.
    pub fn push(&mut self, number: u64, commit: PassedCommit)
        requires spare { 0 < self.old.spare }
        requires newest { AllBefore self.old.commits number }
        ensures commits { self.new.commits ≡ insert self.old.commits number commit }
        ensures spare { self.old.spare ≤ self.new.spare + 1 }
    {
        match self.commits.push_back((number, commit)) {
            Ok(()) => {}
            Err(_) => unreachable!(),
        }
    }

    /// What is kept of the commit with this number.
    pub fn get(&self, number: u64) -> Option<&PassedCommit>
        ensures { option_copied result ≡ get self.now.commits number }
    {
        match place_of(&self.commits, number) {
            Some(at) => Some(&self.commits[at].1),
            None => None,
        }
    }

    /// Drops the commit with this number. It is cheap where that is the first.
    pub fn remove(&mut self, number: u64)
        ensures commits { self.new.commits ≡ remove self.old.commits number }
        ensures spare { self.old.spare ≤ self.new.spare }
    {
        if let Some(at) = place_of(&self.commits, number) {
            self.commits.remove(at);
        }
    }
}

// Where the commit with this number stands.
fn place_of(commits: &VecDeque<(u64, PassedCommit)>, number: u64) -> Option<usize>
    requires { IsRising commits.now.items }
    ensures { IsPlace commits.now.items number result }
{
    commits
        .binary_search_by_key(&number, |commit| commit.0)
        .ok()
}
