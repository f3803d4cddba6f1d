//! The state of certification. Its commits are found by an index, and so are its fragments.
ghost use Rattle.std.specs.Prelude.{◌≡◌, IfOk};
ghost use Rattle.std.specs.Option.{option_copied};
ghost use Rattle.finite_map.specs.FiniteMap.{len};
ghost use Rattle.cert_meaning.specs.State.{Rise, commit_numbered, no_events};
ghost use Rattle.cert_meaning.specs.Verdict.{held_by};
ghost use Rattle.cert_index.specs.Count.{latest_of};
ghost use Rattle.cert_index.specs.Index.{entered};
ghost use Rattle.certification.specs.Certifies.{commits_above, purged};

mod parts;
mod step;
mod verdict;

use cert_index::Index;
use cert_meaning::CommitItem;
use key_sets::KeySet;
use sr_fragments::OpenSet;
use std::alloc::Global;
use std::collections::VecDeque;
use std::marker::Model;
use view_change::Members;
use wsrep_base::{NoMemory, TrxId};

/// A state without rows.
#[derive(Drop)]
pub(crate) struct Indexed {
    number: u64,
    version: u32,
    /// With the floor.
    members: Members,
    open: OpenSet,
    /// Oldest first.
    commits: VecDeque<CommitItem>,
    /// Of their keys.
    index: Index,
}

impl Model for Indexed {
    ghost use Rattle.finite_map.specs.FiniteMap.{empty};
    ghost use Rattle.cert_meaning.specs.State.{FoldState};
    ghost use Rattle.certification.specs.Indexed.{IsIndexed};

    ghost Value = { FoldState };

    ghost view = { λ s. record {
      number = s.number;
      floor = s.members.floor;
      version = s.version;
      members = s.members.members;
      rows = empty;
      commits = s.commits.items;
      open_trx = s.open;
    } };

    ghost invariant = { λ s. IsIndexed s.number s.commits.items s.index };
}

impl Indexed {
    /// The state before the first event.
    pub(crate) fn new(alloc: Global) -> Result<Indexed, NoMemory>
        ensures { IfOk result (λ s. s ≡ no_events) }
    {
        Ok(Indexed {
            number: 0,
            version: 0,
            members: Members::new(alloc)?,
            open: OpenSet::new(alloc)?,
            commits: VecDeque::new(alloc),
            index: Index::new(alloc)?,
        })
    }

    /// How many events it has seen.
    pub(crate) fn number(&self) -> u64
        ensures { result ≡ self.now.number }
    {
        self.number
    }

    /// The least report of the members.
    pub(crate) fn floor(&self) -> u64
        ensures { result ≡ self.now.floor }
    {
        self.members.floor()
    }

    /// How many transactions are open.
    pub(crate) fn open_count(&self) -> u64
        ensures { result ≡ len self.now.open_trx }
    {
        self.open.open_count()
    }

    /// How many different kinds at parts the commits have.
    pub(crate) fn entries(&self) -> u64
        ensures { result ≡ len (latest_of (entered self.now.commits)) }
    {
        self.index.entries()
    }

    /// The commit with this number. It costs a search by halves.
    pub(crate) fn commit_at(&self, number: u64) -> Option<&CommitItem>
        ensures { option_copied result ≡ commit_numbered number self.now.commits }
    {
        match self
            .commits
            .binary_search_by_key(&number, |commit| commit.number)
        {
            Ok(at) => Some(&self.commits[at]),
            Err(_) => None,
        }
    }

    /// The greatest fragment of another open transaction whose keys touch.
    #[tactic(auto, unfolding(cert_meaning::specs::Verdict::held_by))]
    pub(crate) fn held_by(&self, keys: &KeySet, other_than: TrxId) -> Option<u64>
        ensures { result ≡ held_by self.now other_than keys.now }
    {
        self.open.held_by(keys, other_than)
    }

    /// Forgets the commits up to a number. It costs what it forgets, and takes no memory.
    pub(crate) fn purge(&mut self, to: u64)
        ensures { self.new ≡ purged to self.old }
    {
        self.index.purge(to);
        drop_old(&mut self.commits, to);
    }
}

// Drops the commits up to a number, oldest first.
fn drop_old(commits: &mut VecDeque<CommitItem>, to: u64)
    requires { Rise commits.old.items }
    ensures { commits.new.items ≡ commits_above to commits.old.items }
{
    while let Some(oldest) = commits.front() {
        if oldest.number > to {
            return;
        }
        drop(commits.pop_front());
    }
}
