ghost use Rattle.std.specs.Prelude.{◌≡◌, IfOk, IsOk};
ghost use Rattle.std.specs.Option.{option_copied};
ghost use Rattle.cert_meaning.specs.State.{no_events, commit_numbered};
ghost use Rattle.finite_map.specs.FiniteMap.{len};
ghost use Rattle.key_sets.specs.Keys.{touches};
ghost use Rattle.cert_meaning.specs.Search.{commits_below, greatest_related};
ghost use Rattle.cert_meaning.specs.Verdict.{held_by};
ghost use Rattle.cert_meaning.specs.Whole.{whole_at};

mod parts;
mod step;
mod verdict;

use crate::items::{CommitItem, Whole};
use crate::members::Members;
use crate::open_table::OpenTable;
use crate::row_table::RowTable;
use crate::search;
use key_sets::{KeySet, Relation};
use std::alloc::Global;
use std::marker::Model;
use wsrep_base::{NoMemory, TrxId};

/// The state that an order of events leads to.
#[derive(Drop)]
pub struct FoldState {
    number: u64,
    floor: u64,
    version: u32,
    members: Members,
    rows: RowTable,
    commits: Vec<CommitItem>,
    open_trx: OpenTable,
}

impl Model for FoldState {
    ghost use Rattle.cert_meaning.specs.State.{FoldState as Seen, RiseWithin};

    ghost Value = { Seen };

    ghost view = { λ s. record {
      number = s.number;
      floor = s.floor;
      version = s.version;
      members = s.members;
      rows = s.rows.rows;
      commits = s.commits.items;
      open_trx = s.open_trx;
    } };

    // The numbers of the commits rise, so that a search from the newest one ends early.
    ghost invariant = { λ s. RiseWithin 0 s.number s.commits.items };
}

impl FoldState {
    /// The state before the first event. It takes no memory.
    #[tactic(auto, unfolding(crate::specs::State::no_events))]
    pub fn empty(alloc: Global) -> Result<FoldState, NoMemory>
        ensures state { IfOk result (λ s. s ≡ no_events) }
        ensures number { IfOk result (λ s. s.number ≡ 0) }
        ensures succeeds { IsOk result }
    {
        Ok(FoldState {
            number: 0,
            floor: 0,
            version: 0,
            members: Members::new(alloc),
            rows: RowTable::new(alloc),
            commits: Vec::new(alloc),
            open_trx: OpenTable::new(alloc),
        })
    }

    /// How many events it has seen.
    pub fn number(&self) -> u64
        ensures { result ≡ self.now.number }
    {
        self.number
    }

    /// The passed commits, oldest first.
    pub fn commits(&self) -> &[CommitItem]
        ensures { result.now ≡ self.now.commits }
    {
        self.commits.as_slice()
    }

    /// The passed commit with this number. It costs a search by halves.
    pub fn commit_at(&self, number: u64) -> Option<&CommitItem>
        ensures { option_copied result ≡ commit_numbered number self.now.commits }
    {
        search::commit_numbered(self.commits.as_slice(), number)
    }

    /// The greatest passed commit above one number and below another whose keys touch. It costs
    /// the commits between them, and a search by halves.
    pub fn touching_between(&self, above: u64, below: u64, keys: &KeySet) -> Option<u64>
        ensures { result
            ≡ greatest_related touches (commits_below below self.now.commits) above keys.now }
    {
        let commits = search::commits_below(self.commits.as_slice(), below);
        search::greatest_related(Relation::Touch, commits, above, keys)
    }

    /// The greatest fragment of another open transaction whose keys touch.
    #[tactic(auto, unfolding(crate::specs::Verdict::held_by))]
    pub fn held_by(&self, keys: &KeySet, other_than: TrxId) -> Option<u64>
        ensures { result ≡ held_by self.now other_than keys.now }
    {
        self.open_trx.held_by(keys, other_than)
    }

    /// All keys and all changes of the fragments of an open transaction. None where it is not open.
    pub fn whole(&self, trx: TrxId) -> Result<Option<Whole>, NoMemory>
        ensures { IfOk result (λ whole. whole ≡ whole_at self.now trx) }
    {
        self.open_trx.whole(self.alloc(), trx)
    }

    /// The least report of the members.
    pub fn floor(&self) -> u64
        ensures { result ≡ self.now.floor }
    {
        self.floor
    }

    /// How many transactions are open.
    pub fn open_count(&self) -> u64
        ensures { result ≡ len self.now.open_trx }
    {
        self.open_trx.len() as u64
    }

    fn alloc(&self) -> Global {
        *self.commits.allocator()
    }
}
