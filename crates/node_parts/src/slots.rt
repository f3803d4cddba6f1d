ghost use Rattle.std.specs.Prelude.{◌≡◌, ◌≤◌, ◌<◌, ℕ, Some, is_some, IfOk, IfSome};
ghost use Rattle.std.specs.Option.{option_copied};
ghost use Rattle.finite_map.specs.FiniteMap.{empty, get, insert, remove, len};
ghost use Rattle.node_parts.specs.Slots.{HasSessions};

use std::alloc::Global;
use std::marker::Model;
use wsrep_base::NoMemory;

/// At most one item for each session, 1 to 32.
#[derive(Drop)]
pub struct Slots<T> {
    places: Vec<Option<T>>,
    // All places from this one on are free.
    end: u8,
}

impl<T> Model for Slots<T> {
    ghost use Rattle.std.specs.Coded.{coded_ℕ};
    ghost use Rattle.std.specs.Ordering.{nat_cmp};
    ghost use Rattle.finite_map.specs.FiniteMap.{FiniteMap, code};
    ghost use Rattle.node_parts.specs.Slots.{slots, AreSlots};

    ghost Value = { FiniteMap nat_cmp T };

    ghost coded = { code coded_ℕ T.code };

    ghost view = { λ s. slots s.places.items };

    ghost invariant = { λ s. AreSlots s.end s.places.items };
}

impl<T: Drop> Slots<T> {
    /// No session has an item.
    pub fn new(alloc: Global) -> Result<Slots<T>, NoMemory>
        ensures { IfOk result (λ made. made ≡ empty) }
    {
        let mut places = Vec::with_capacity(alloc, 33)?;
        for _ in 0..33_usize {
            places.push(None)?;
        }
        Ok(Slots { places, end: 0 })
    }

    /// The session's item.
    pub fn get(&self, session: u8) -> Option<&T>
        ensures { option_copied result ≡ get self.now session }
    {
        match self.places.get(usize::from(session)) {
            Some(place) => place.as_ref(),
            None => None,
        }
    }

    /// The number above all sessions.
    pub fn session_end(&self) -> u8
        ensures value { result ≡ 33 }
        ensures sessions { HasSessions self.now }
        ensures few { len self.now ≤ 33 }
    {
        let _ = &self.places;
        33
    }

    /// A number above all sessions that have an item.
    pub fn end(&self) -> u8
        ensures above { (session : ℕ) (item : T)
            → get self.now session ≡ Some item → session < result }
        ensures sessions { HasSessions self.now }
        ensures few { result ≤ 33 }
    {
        self.end
    }

    /// Whether the session has an item.
    pub fn contains(&self, session: u8) -> bool
        ensures { result ≡ is_some (get self.now session) }
    {
        self.get(session).is_some()
    }

    /// Gives the session this item, in place of the one that it has. It takes no memory.
    pub fn put(&mut self, session: u8, item: T)
        requires low { 1 ≤ session }
        requires high { session ≤ 32 }
        ensures { self.new ≡ insert self.old session item }
    {
        self.places[usize::from(session)] = Some(item);
        self.end = self.end.max(session + 1);
    }

    /// Takes the session's item out.
    pub fn take(&mut self, session: u8) -> Option<T>
        ensures value { result ≡ get self.old session }
        ensures after { self.new ≡ remove self.old session }
        ensures within { IfSome result (λ item. (1 ≤ session) × (session ≤ 32)) }
    {
        let session = usize::from(session);
        if session < 33 {
            self.places[session].take()
        } else {
            None
        }
    }
}
