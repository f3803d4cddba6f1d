//! The members, each with how it stands.
ghost use Rattle.std.specs.Prelude.{◌≡◌, IfOk, IsSome, Some, map};
ghost use Rattle.finite_map.specs.FiniteMap.{empty, get, insert, values};
ghost use Rattle.wsrep_base.specs.Trx.{least};
ghost use Rattle.cert_meaning.specs.Extremes.{lesser};
ghost use Rattle.cert_meaning.specs.Fold.{members_in, with_serial, floor_over};
ghost use Rattle.cert_meaning.specs.Parts.{member_items, members_of};
ghost use Rattle.view_change.specs.Membership.{is_taken, with_report};

use cert_meaning::{MemberItem, MemberItemList, Standing};
use std::alloc::Global;
use std::collections::BTreeMap;
use std::marker::Model;
use wsrep_base::NoMemory;

#[derive(Drop)]
pub(crate) struct Standings {
    by_member: BTreeMap<u32, Standing>,
}

impl Model for Standings {
    ghost use Rattle.std.specs.Ordering.{nat_cmp};
    ghost use Rattle.finite_map.specs.FiniteMap.{FiniteMap, from_entries};
    ghost use Rattle.cert_meaning.specs.declared.members.Standing.{Standing};

    ghost Value = { FiniteMap nat_cmp Standing };

    ghost view = { λ s. from_entries s.by_member.entries };
}

impl Standings {
    /// No member. It takes no memory.
    pub(crate) fn new(alloc: Global) -> Standings
        ensures { result ≡ empty }
    {
        Standings {
            by_member: BTreeMap::new(alloc),
        }
    }

    /// The members of these items. Of items of one member the first counts.
    pub(crate) fn of(alloc: Global, items: &[MemberItem]) -> Result<Standings, NoMemory>
        ensures { IfOk result (λ made. made ≡ members_of items.now) }
    {
        let mut made = Standings::new(alloc);
        for item in items.iter().rev() {
            let standing = Standing {
                report: item.report,
                serial: item.serial,
            };
            made.by_member.insert(item.member, standing)?;
        }
        Ok(made)
    }

    pub(crate) fn get(&self, member: u32) -> Option<Standing>
        ensures { result ≡ get self.now member }
    {
        self.by_member.get(&member).copied()
    }

    /// Whether a report with this number counts: it is not below the member's last one, and below
    /// its own number.
    pub(crate) fn takes(&self, number: u64, member: u32, report: u64) -> bool
        ensures { result ≡ is_taken self.now number member report }
    {
        match self.get(member) {
            Some(standing) => standing.report <= report && report < number,
            None => false,
        }
    }

    // How a member stands from here on. A known member takes no memory.
    fn set(&mut self, member: u32, standing: Standing)
        requires { IsSome (get self.old member) }
        ensures { self.new ≡ insert self.old member standing }
    {
        match self.by_member.insert(member, standing) {
            Ok(_) => {}
            Err(_) => unreachable!(),
        }
    }

    /// A member's last report is this one. No other number is a member's.
    pub(crate) fn set_report(&mut self, member: u32, report: u64)
        ensures { self.new ≡ with_report self.old member report }
    {
        if let Some(standing) = self.get(member) {
            let serial = standing.serial;
            self.set(member, Standing { report, serial });
        }
    }

    /// A member's last serial is this one. No other number is a member's.
    pub(crate) fn set_serial(&mut self, member: u32, serial: u64)
        ensures { self.new ≡ with_serial self.old member serial }
    {
        if let Some(standing) = self.get(member) {
            let report = standing.report;
            self.set(member, Standing { report, serial });
        }
    }

    /// The members of the view with this number. A new one begins there.
    pub(crate) fn listed(
        &self,
        alloc: Global,
        number: u64,
        members: &[u32],
    ) -> Result<Standings, NoMemory>
        ensures { IfOk result (λ listed. listed ≡ members_in self.now number members.now) }
    {
        let mut listed = Standings::new(alloc);
        for member in members.iter().rev() {
            let new = Standing {
                report: number,
                serial: 0,
            };
            let standing = self.get(*member).unwrap_or(new);
            listed.by_member.insert(*member, standing)?;
        }
        Ok(listed)
    }

    /// The least report, or the floor as it was where there is no member.
    pub(crate) fn floor(&self, old: u64) -> u64
        ensures { result ≡ floor_over self.now old }
    {
        self.least_report().unwrap_or(old)
    }

    // The least report. None where there is no member.
    fn least_report(&self) -> Option<u64>
        ensures { result ≡ least (map (λ standing. standing.report) (values self.now)) }
    {
        let mut least = None;
        for standing in self.by_member.values() {
            least = lesser(least, standing.report);
        }
        least
    }

    /// The members, ascending.
    pub(crate) fn items(&self, alloc: Global) -> Result<MemberItemList, NoMemory>
        ensures { IfOk result (λ items. items ≡ member_items self.now) }
    {
        let mut items = MemberItemList::new(alloc);
        for (member, standing) in &self.by_member {
            items.push(MemberItem {
                member: *member,
                report: standing.report,
                serial: standing.serial,
            })?;
        }
        Ok(items)
    }
}

// The lesser of a number that there may be and another.
fn lesser(least: Option<u64>, number: u64) -> Option<u64>
    ensures { result ≡ lesser least (Some number) }
{
    match least {
        Some(least) => Some(least.min(number)),
        None => Some(number),
    }
}
