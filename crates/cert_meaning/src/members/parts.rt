//! The members as a list.
ghost use Rattle.std.specs.Prelude.{◌≡◌, IfOk};
ghost use Rattle.cert_meaning.specs.Parts.{member_items, members_of};

use super::{Members, Standing};
use crate::parts::{MemberItem, MemberItemList};
use std::alloc::Global;
use wsrep_base::NoMemory;

impl Members {
    /// The members of these items. Of items of one member the first counts.
    pub(crate) fn of(alloc: Global, items: &[MemberItem]) -> Result<Members, NoMemory>
        ensures { IfOk result (λ members. members ≡ members_of items.now) }
    {
        let mut members = Members::new(alloc);
        for item in items.iter().rev() {
            let standing = Standing {
                report: item.report,
                serial: item.serial,
            };
            members.standings.insert(item.member, standing)?;
        }
        Ok(members)
    }

    /// The members, ascending.
    pub(crate) fn items(&self, alloc: Global) -> Result<MemberItemList, NoMemory>
        ensures { IfOk result (λ items. items ≡ member_items self.now) }
    {
        let mut items = MemberItemList::new(alloc);
        for (member, standing) in &self.standings {
            items.push(MemberItem {
                member: *member,
                report: standing.report,
                serial: standing.serial,
            })?;
        }
        Ok(items)
    }
}
