ghost use Rattle.std.specs.Prelude.{◌≡◌, ◌≤◌, IfOk, IsOk, OnOk, OnErr};
ghost use Rattle.std.specs.Option.{option_map};
ghost use Rattle.finite_map.specs.FiniteMap.{get};
ghost use Rattle.cert_meaning.specs.Fold.{floor_over};
ghost use Rattle.cert_meaning.specs.Parts.{member_items, members_of};
ghost use Rattle.view_change.specs.Membership.{IsSettled, no_members, viewed, is_taken, reported, counted};

use crate::standings::Standings;
use cert_meaning::{MemberItem, MemberItemList, Standing};
use std::alloc::Global;
use std::marker::Model;
use wsrep_base::NoMemory;

/// The members of the last view, each with how it stands, and the floor.
#[derive(Drop)]
pub struct Members {
    alloc: Global,
    standings: Standings,
    // The least report. What it was where there is no member.
    floor: u64,
}

impl Model for Members {
    ghost use Rattle.view_change.specs.Membership.{Membership, IsSettled};

    ghost Value = { Membership };

    ghost view = { λ m. record { members = m.standings; floor = m.floor } };

    ghost invariant = { λ m. IsSettled (record { members = m.standings; floor = m.floor }) };
}

impl Members {
    /// No member, and the floor 0. It takes no memory.
    pub fn new(alloc: Global) -> Result<Members, NoMemory>
        ensures members { IfOk result (λ members. members ≡ no_members) }
        ensures succeeds { IsOk result }
    {
        Ok(Members {
            alloc,
            standings: Standings::new(alloc),
            floor: 0,
        })
    }

    /// The members of these items, over this floor: their least report. Of items of one member
    /// the first counts.
    pub fn of(alloc: Global, floor: u64, items: &[MemberItem]) -> Result<Members, NoMemory>
        requires { IsSettled (record { members = members_of items.now; floor = floor }) }
        ensures { IfOk result
            (λ members. members ≡ record { members = members_of items.now; floor = floor }) }
    {
        let standings = Standings::of(alloc, items)?;
        Ok(Members {
            alloc,
            standings,
            floor,
        })
    }

    /// The members are those of the view with this number. A new one begins there, with serial 0.
    pub fn view(&mut self, n: u64, members: &[u32]) -> Result<(), NoMemory>
        ensures ok { OnOk result (self.new ≡ viewed self.old n members.now) }
        ensures err { OnErr result (self.new ≡ self.old) }
        // The floor does not fall where the view comes behind it.
        ensures rises { self.old.floor ≤ n → self.old.floor ≤ self.new.floor }
    {
        let standings = self.standings.listed(self.alloc, n, members)?;
        self.floor = standings.floor(self.floor);
        self.standings = standings;
        Ok(())
    }

    /// A member reports r, by the event with this number. Whether the report counts: it is not
    /// below the member's last one, and below its own number. It takes no memory.
    pub fn report(&mut self, n: u64, member: u32, r: u64) -> bool
        ensures taken { result ≡ is_taken self.old.members n member r }
        ensures state { self.new ≡ reported self.old n member r }
        ensures rises { self.old.floor ≤ self.new.floor }
    {
        let taken = self.standings.takes(n, member, r);
        if taken {
            self.standings.set_report(member, r);
            self.floor = self.standings.floor(self.floor);
        }
        taken
    }

    /// The least report of the members. Where there is none, what it was with the last of them.
    pub fn floor(&self) -> u64
        ensures floor { result ≡ self.now.floor }
        ensures least { IsSettled self.now }
    {
        self.floor
    }

    /// The serial of a member's last write set. None for no member.
    pub fn serial_of(&self, member: u32) -> Option<u64>
        ensures { result ≡ option_map (λ standing. standing.serial) (get self.now.members member) }
    {
        self.standings.get(member).map(|standing| standing.serial)
    }

    /// A member's last serial is this one. No other number is a member's. It takes no memory.
    pub fn set_serial(&mut self, member: u32, serial: u64)
        ensures { self.new ≡ counted self.old member serial }
    {
        self.standings.set_serial(member, serial);
    }

    /// The members, ascending. They are made of these items again.
    #[tactic(auto, using(crate::proofs::FollowingLaws::members_again))]
    pub fn items(&self) -> Result<MemberItemList, NoMemory>
        ensures items { IfOk result (λ items. items ≡ member_items self.now.members) }
        ensures again { IfOk result (λ items. members_of items ≡ self.now.members) }
    {
        self.standings.items(self.alloc)
    }
}
