ghost use Rattle.std.specs.Prelude.{◌≡◌, ◌≤◌, ◌+◌, ◌<◌, ℕ, min, List, length, slice_get, Some, IfOk, OnErr};
ghost use Rattle.std.specs.Option.{option_copied};
ghost use Rattle.order_event.specs.declared.event.Event.{Event as Ordered};
ghost use Rattle.finite_map.specs.FiniteMap.{len};
ghost use Rattle.cert_meaning.specs.State.{RiseWithin};
ghost use Rattle.cert_meaning.specs.Fold.{state_at};
ghost use Rattle.cert_meaning.specs.Parts.{members_of, parts_of, state_of, trim};
ghost use Rattle.cert_meaning.specs.declared.items.CommitItem.{CommitItem as Commit};
ghost use Rattle.view_change.specs.Membership.{IsSettled};
ghost use Rattle.cert_index.specs.Index.{only_above};
ghost use Rattle.node_meaning.specs.Node.{passed_at};
ghost use Rattle.node_meaning.specs.Status.{index_count};
ghost use Rattle.node_meaning.specs.Units.{judged_at};
ghost use Rattle.node_parts.specs.Passed.{AllBefore};
ghost use Rattle.certification.specs.Indexed.{begin_in};
ghost use Rattle.certification.specs.Certifies.{Certifies, CanCertify, IsNext, commit_with, holder_of, changes_with, in_the_way, purged, with_passed};

use crate::indexed::Indexed;
use cert_meaning::{CommitItem, StateParts};
use key_sets::KeySet;
use node_parts::{Passed, PassedCommit};
use order_event::Event;
use row_model::OpList;
use std::alloc::Global;
use std::collections::VecDeque;
use std::marker::Model;
use wsrep_base::{Judged, NoMemory, TrxId};

/// What certifying an event tells.
#[derive(Clone, Copy)]
pub struct Certified {
    pub judged: Judged,
    /// The begin number of the write set that the event's bytes spell. None where they spell none,
    /// and of other events.
    pub begin: Option<u64>,
}

/// The certification part of a node. What it answers is told over the order that it certifies, and
/// over the number up to which that is committed. It keeps the commits above that number, and those
/// against which a write set may still be tested.
#[derive(Drop)]
pub struct Certification {
    state: Indexed,
    /// All numbers up to this one are committed.
    committed: u64,
    /// The passed commits that are not committed.
    passed: Passed,
    /// What became of the numbers that are certified and not committed, oldest first.
    verdicts: VecDeque<Judged>,
}

impl Model for Certification {
    ghost use Rattle.certification.specs.Certifies.{ModelCertification};

    ghost Value = { ModelCertification };

    ghost view = { λ c. record {
      state = c.state;
      committed = c.committed;
      passed = c.passed.commits;
      verdicts = c.verdicts.items;
    } };
}

impl Certification {
    /// Before the first event.
    pub fn new(alloc: Global) -> Result<Certification, NoMemory>
        ensures { IfOk result (λ c. (order : List Ordered) → Certifies order 0 0 c) }
    {
        Ok(Certification {
            state: Indexed::new(alloc)?,
            committed: 0,
            passed: Passed::new(alloc),
            verdicts: VecDeque::new(alloc),
        })
    }

    /// From the parts of a trimmed state at a number, up to which all is committed.
    pub fn installed(alloc: Global, parts: StateParts) -> Result<Certification, NoMemory>
        requires rise { RiseWithin 0 parts.number parts.commits }
        requires settled { IsSettled
            (record { members = members_of parts.members; floor = parts.floor }) }
        ensures { IfOk result
            (λ c. (order : List Ordered) (number : ℕ) → number ≤ length order
            → state_of parts ≡ trim (state_at order number)
            → Certifies order number number c) }
    {
        let committed = parts.number;
        Ok(Certification {
            state: Indexed::of(alloc, parts)?,
            committed,
            passed: Passed::new(alloc),
            verdicts: VecDeque::new(alloc),
        })
    }

    /// The parts of the state, for a snapshot, without its rows.
    pub fn parts(&self) -> Result<StateParts, NoMemory>
        ensures { IfOk result (λ parts. parts ≡ parts_of self.now.state) }
    {
        self.state.parts()
    }

    /// Certifies the next event of the order. It costs a few look-ups for each key, and the
    /// commits that it forgets.
    pub fn certify(&mut self, event: &Event) -> Result<Certified, NoMemory>
        requires { CanCertify self.old }
        ensures ok { IfOk result
            (λ told. (order : List Ordered) (committed certified : ℕ)
            → Certifies order committed certified self.old
            → committed ≤ certified → slice_get order certified ≡ Some event.now
            → IsNext order committed certified event.now told.judged self.new) }
        ensures begin { IfOk result (λ told. told.begin ≡ begin_in event.now) }
        ensures err { OnErr result (self.new ≡ self.old) }
    {
        self.passed.reserve_one()?;
        self.verdicts.reserve(1)?;
        let told = self.state.step(event)?;
        let number = self.state.number();
        let commit = PassedCommit {
            changes: told.changes,
            dependency: told.dependency,
        };
        keep_commit(&mut self.passed, number, told.judged, commit);
        self.verdicts.push_back_reserved(told.judged);
        self.purge();
        Ok(Certified {
            judged: told.judged,
            begin: told.begin,
        })
    }

    /// The number is committed, which is the next one. Tells what became of it; None where it is
    /// not certified. It takes no memory.
    pub fn commit(&mut self, number: u64) -> Option<Judged>
        ensures judged { (order : List Ordered) (committed certified : ℕ)
            → Certifies order committed certified self.old
            → number ≡ committed + 1 → committed < certified
            → result ≡ Some (judged_at order number) }
        ensures certifies { (order : List Ordered) (committed certified : ℕ)
            → Certifies order committed certified self.old
            → number ≡ committed + 1 → Certifies order number certified self.new }
    {
        self.passed.remove(number);
        self.committed = number;
        self.purge();
        self.verdicts.pop_front()
    }

    // Forgets the commits that are committed and against which no write set is tested any more.
    fn purge(&mut self)
        ensures { self.new ≡ record self.old {
          state = purged (min self.old.state.floor self.old.committed) self.old.state;
        } }
    {
        let to = self.state.floor().min(self.committed);
        self.state.purge(to);
    }

    /// The passed commit with this number, which is not committed. It costs a search by halves.
    #[tactic(auto, unfolding(crate::specs::Certifies::commit_with))]
    pub fn commit_at(&self, number: u64) -> Option<&CommitItem>
        ensures { option_copied result ≡ commit_with number self.now }
    {
        self.state.commit_at(number)
    }

    /// The greatest passed commit above what is committed that comes before the passed one with
    /// this number, and touches it. It costs a search by halves.
    pub fn in_the_way(&self, number: u64) -> Option<u64>
        ensures { (order : List Ordered) (committed certified : ℕ) (commit : Commit)
            → Certifies order committed certified self.now
            → committed < number → passed_at order committed certified number ≡ Some commit
            → result ≡ in_the_way order committed certified number commit.keys }
    {
        match self.passed.get(number) {
            Some(commit) => only_above(self.committed, commit.dependency),
            None => None,
        }
    }

    /// All changes of the passed commit with this number, which is not committed.
    #[tactic(auto, unfolding(crate::specs::Certifies::changes_with))]
    pub fn changes_of(&self, number: u64) -> Option<&OpList>
        ensures { option_copied result ≡ changes_with number self.now }
    {
        match self.passed.get(number) {
            Some(commit) => Some(&commit.changes),
            None => None,
        }
    }

    /// The greatest fragment of another open transaction whose keys touch. It costs a few look-ups
    /// for each key.
    #[tactic(auto, unfolding(crate::specs::Certifies::holder_of))]
    pub fn held_by(&self, keys: &KeySet, other_than: TrxId) -> Option<u64>
        ensures { result ≡ holder_of other_than keys.now self.now }
    {
        self.state.held_by(keys, other_than)
    }

    /// The least report of the members: what saw less is stale.
    pub fn floor(&self) -> u64
        ensures { (order : List Ordered) (committed certified : ℕ)
            → Certifies order committed certified self.now
            → result ≡ (state_at order certified).floor }
    {
        self.state.floor()
    }

    /// How many transactions are open.
    pub fn open_trx(&self) -> u64
        ensures { (order : List Ordered) (committed certified : ℕ)
            → Certifies order committed certified self.now
            → result ≡ len (state_at order certified).open_trx }
    {
        self.state.open_count()
    }

    /// How many different kinds at parts the commits have that a write set may still be tested
    /// against, or that are not committed.
    pub fn entries(&self) -> u64
        ensures { (order : List Ordered) (committed certified : ℕ)
            → Certifies order committed certified self.now
            → result ≡ index_count (state_at order certified) committed }
    {
        self.state.entries()
    }
}

// A passed commit is kept until it is committed.
fn keep_commit(passed: &mut Passed, number: u64, judged: Judged, commit: PassedCommit)
    requires spare { 0 < passed.old.spare }
    requires newest { AllBefore passed.old.commits number }
    ensures { passed.new.commits ≡ with_passed judged passed.old.commits number commit }
{
    match judged {
        Judged::Commit => passed.push(number, commit),
        Judged::View | Judged::Report | Judged::Fragment | Judged::Rollback | Judged::Fail(_) => {}
    }
}

// The number, where it is above.
fn only_above(above: u64, number: Option<u64>) -> Option<u64>
    ensures { result ≡ only_above above number }
{
    match number {
        Some(number) if number > above => Some(number),
        _ => None,
    }
}
