ghost use Rattle.std.specs.Prelude.{◌≡◌};
ghost use Rattle.wsrep_base.specs.StateId.{id_of, not_nil, nil_id};

use item_list::ItemList;
use std::marker::Model;
use uuid::Uuid;

/// A transaction: the member that began it and its begin number there.
#[derive(Clone, Copy, Debug, PartialEq, Eq, PartialOrd, Ord, Hash)]
pub struct TrxId {
    pub member: u32,
    pub begin: u64,
}

/// Sessions of one node, each 1 to 32.
pub type SessionList = ItemList<u8>;

/// Numbers of calls, counted from 1.
pub type CallList = ItemList<u64>;

/// The id of a state, as a cluster's configuration gives it: the sixteen bytes of a UUID.
#[derive(Clone, Copy, Debug, PartialEq, Eq)]
pub struct StateId {
    id: Uuid,
}

impl Model for StateId {
    ghost use Rattle.std.specs.Prelude.{List, ℕ};

    ghost Value = { List ℕ };

    ghost view = { λ state. state.id };

    ghost inverse = { λ bytes. record { id = bytes } };
}

impl StateId {
    /// Reads any of the four forms of a UUID. None where it is none of them, or nil.
    pub fn parse(text: &str) -> Option<StateId>
        ensures { result ≡ id_of text.now }
    {
        StateId::parse_bytes(text.as_bytes())
    }

    /// `parse` on bytes that need not be UTF-8.
    pub fn parse_bytes(text: &[u8]) -> Option<StateId>
        ensures { result ≡ id_of text.now }
    {
        match Uuid::try_parse_ascii(text) {
            Ok(id) => StateId { id }.unless_nil(),
            Err(_) => None,
        }
    }

    fn unless_nil(self) -> Option<StateId>
        ensures { result ≡ not_nil self }
    {
        if self.bytes() == [0; 16] {
            None
        } else {
            Some(self)
        }
    }

    /// The id of a node that joined fresh: all zeros.
    pub fn nil() -> StateId
        ensures { result ≡ nil_id }
    {
        StateId { id: Uuid::nil() }
    }

    /// The id with these bytes.
    pub fn of_bytes(bytes: [u8; 16]) -> StateId
        ensures { result ≡ bytes }
    {
        StateId {
            id: Uuid::from_bytes(bytes),
        }
    }

    /// Its sixteen bytes.
    pub fn bytes(&self) -> [u8; 16]
        ensures { result ≡ self.now }
    {
        *self.id.as_bytes()
    }
}
