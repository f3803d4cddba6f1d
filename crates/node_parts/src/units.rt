ghost use Rattle.std.specs.Prelude.{◌≡◌, ◌+◌, ◌<◌, ◌≤◌, ◌^◌, None, is_some, OnOk, OnErr};
ghost use Rattle.finite_map.specs.FiniteMap.{get};
ghost use Rattle.node_meaning.specs.Steps.{is_finished};

use apply_unit::Done;
use key_sets::KeySet;
use std::alloc::{AllocError, Global};
use std::collections::HashMap;
use std::marker::Model;
use wsrep_base::NoMemory;

// The keys of a unit, how many rows its changes name, and its task once that is done.
#[derive(Drop)]
pub(crate) struct UnitEntry {
    pub(crate) keys: KeySet,
    pub(crate) rows: usize,
    pub(crate) done: Option<Done>,
}

/// The started and the finished units of a node, by number.
#[derive(Drop)]
pub struct Units {
    entries: HashMap<u64, UnitEntry>,
    // How many rows all of them name.
    room: usize,
}

impl Model for Units {
    ghost use Rattle.std.specs.Prelude.{◌≡◌};
    ghost use Rattle.node_parts.specs.Units.{UnitTable, total_rows};

    ghost Value = { UnitTable };

    ghost use Rattle.node_parts.specs.UnitEntries.{units_in, work_in};

    ghost view = { λ u.
        record {
          units = units_in u.entries.entries;
          work = work_in u.entries.entries;
          room = u.room;
        } };

    ghost invariant = { λ u. u.room ≡ total_rows (work_in u.entries.entries) };
}

impl Units {
    ghost use Rattle.node_parts.specs.Units.{no_units, added, finished, without, is_started, done_of, rows_of, total_rows};

    /// No units. It takes no memory.
    pub fn new(alloc: Global) -> Units
        ensures { result ≡ no_units }
    {
        Units {
            entries: HashMap::new(alloc),
            room: 0,
        }
    }

    /// A unit starts, with these keys and changes of so many rows.
    pub fn insert(&mut self, number: u64, keys: KeySet, rows: usize) -> Result<(), NoMemory>
        requires absent { get self.old.units number ≡ None }
        requires small { self.old.room + rows < 2 ^ 63 }
        ensures ok { OnOk result (self.new ≡ added self.old number keys rows) }
        ensures err { OnErr result (self.new ≡ self.old) }
    {
        let entry = UnitEntry {
            keys,
            rows,
            done: None,
        };
        match self.entries.insert(number, entry) {
            Ok(_) => {
                self.room += rows;
                Ok(())
            }
            Err(_) => Err(AllocError),
        }
    }

    /// Whether the unit with this number has started or finished.
    pub fn contains(&self, number: u64) -> bool
        ensures units { result ≡ is_some (get self.now.units number) }
        ensures work { result ≡ is_some (get self.now.work number) }
    {
        self.entries.contains_key(&number)
    }

    /// Whether the unit with this number has started and not finished.
    pub fn is_started(&self, number: u64) -> bool
        ensures { result ≡ is_started (get self.now.units number) }
    {
        match self.entries.get(&number) {
            Some(entry) => entry.done.is_none(),
            None => false,
        }
    }

    /// Whether the unit with this number has finished.
    pub fn is_finished(&self, number: u64) -> bool
        ensures { result ≡ is_finished (get self.now.units number) }
    {
        match self.entries.get(&number) {
            Some(entry) => entry.done.is_some(),
            None => false,
        }
    }

    /// The unit whose task this is has finished. It takes no memory.
    pub fn finish(&mut self, done: Done)
        ensures { self.new ≡ finished self.old done }
    {
        if let Some(entry) = self.entries.get_mut(&done.number()) {
            entry.done = Some(done);
        }
    }

    /// Takes the unit with this number out, and gives its task where that is done.
    pub fn take(&mut self, number: u64) -> Option<Done>
        ensures done { result ≡ done_of (get self.old.work number) }
        ensures finished { is_some result ≡ is_finished (get self.old.units number) }
        ensures after { self.new ≡ without self.old number }
        ensures rows { rows_of (get self.old.work number) ≤ self.old.room }
    {
        match self.entries.remove(&number) {
            Some(entry) => {
                let UnitEntry { keys, rows, done } = entry;
                drop(keys);
                self.room -= rows;
                done
            }
            None => None,
        }
    }

    /// How many rows the changes of all units name.
    pub fn room(&self) -> usize
        ensures value { result ≡ self.now.room }
        ensures total { self.now.room ≡ total_rows self.now.work }
    {
        self.room
    }
}
