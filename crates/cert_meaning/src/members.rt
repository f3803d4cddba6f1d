ghost use Rattle.std.specs.Prelude.{◌≡◌, IfOk, IsSome, Some, map};
ghost use Rattle.finite_map.specs.FiniteMap.{empty, get, insert, values};
ghost use Rattle.wsrep_base.specs.Trx.{least};
ghost use Rattle.cert_meaning.specs.Extremes.{lesser};
ghost use Rattle.cert_meaning.specs.Fold.{members_in, with_serial, floor_over};

mod parts;

use std::alloc::Global;
use std::collections::BTreeMap;
use std::marker::Model;
use wsrep_base::NoMemory;

/// How a member stands.
#[derive(Clone, Copy, Debug, PartialEq, Eq)]
pub struct Standing {
    /// Its last report.
    pub report: u64,
    /// The serial of its last write set.
    pub serial: u64,
}

/// The members, each with how it stands.
#[derive(Drop)]
pub(crate) struct Members {
    standings: BTreeMap<u32, Standing>,
}

impl Model for Members {
    ghost use Rattle.std.specs.Ordering.{nat_cmp};
    ghost use Rattle.finite_map.specs.FiniteMap.{FiniteMap, from_entries};
    ghost use Rattle.cert_meaning.specs.declared.members.Standing.{Standing};

    ghost Value = { FiniteMap nat_cmp Standing };

    ghost view = { λ members. from_entries members.standings.entries };
}

impl Members {
    /// No member. It takes no memory.
    pub(crate) fn new(alloc: Global) -> Members
        ensures { result ≡ empty }
    {
        Members {
            standings: BTreeMap::new(alloc),
        }
    }

    pub(crate) fn get(&self, member: u32) -> Option<Standing>
        ensures { result ≡ get self.now member }
    {
        self.standings.get(&member).copied()
    }

    /// How a member stands from here on. A known member takes no memory.
    pub(crate) fn set(&mut self, member: u32, standing: Standing)
        requires { IsSome (get self.old member) }
        ensures { self.new ≡ insert self.old member standing }
    {
        match self.standings.insert(member, standing) {
            Ok(_) => {}
            Err(_) => unreachable!(),
        }
    }

    /// The members of a view of this number. A new one begins there.
    pub(crate) fn listed(
        &self,
        alloc: Global,
        number: u64,
        members: &[u32],
    ) -> Result<Members, NoMemory>
        ensures { IfOk result (λ of_view. of_view ≡ members_in self.now number members.now) }
    {
        let mut listed = Members::new(alloc);
        for member in members.iter().rev() {
            let new = Standing {
                report: number,
                serial: 0,
            };
            let standing = self.get(*member).unwrap_or(new);
            listed.standings.insert(*member, standing)?;
        }
        Ok(listed)
    }

    /// The last serial of the member is this one. No other number is a member's.
    pub(crate) fn count_serial(&mut self, member: u32, serial: u64)
        ensures { self.new ≡ with_serial self.old member serial }
    {
        if let Some(standing) = self.get(member) {
            let report = standing.report;
            self.set(member, Standing { report, serial });
        }
    }

    /// The least report, or the floor as it was where there is no member.
    pub(crate) fn floor(&self, old: u64) -> u64
        ensures { result ≡ floor_over self.now old }
    {
        self.least_report().unwrap_or(old)
    }

    // The least report. None where there is no member.
    fn least_report(&self) -> Option<u64>
        ensures { result ≡ least (map (λ standing. standing.report) (values self.now)) }
    {
        let mut least = None;
        for standing in self.standings.values() {
            least = lesser(least, standing.report);
        }
        least
    }
}

// The lesser of a number that there may be and another.
fn lesser(least: Option<u64>, number: u64) -> Option<u64>
    ensures { result ≡ lesser least (Some number) }
{
    match least {
        Some(least) => Some(least.min(number)),
        None => Some(number),
    }
}
