//! The open transactions as a list.
ghost use Rattle.std.specs.Prelude.{◌≡◌, IfOk, OnOk};
ghost use Rattle.finite_map.specs.FiniteMap.{insert};
ghost use Rattle.cert_meaning.specs.Parts.{open_items, open_of};

use super::OpenTable;
use crate::fragments::copied;
use crate::gathered::Gathered;
use crate::parts::{OpenItem, OpenList};
use std::alloc::Global;
use wsrep_base::NoMemory;

impl OpenTable {
    /// The transactions of these items. Of items of one transaction the first counts. For one with
    /// more keys than a set may have there is no room.
    pub fn of(alloc: Global, items: OpenList) -> Result<OpenTable, NoMemory>
        ensures { IfOk result (λ table. table ≡ open_of items) }
    {
        let mut table = OpenTable::new(alloc);
        let mut left = items.into_vec();
        while let Some(item) = left.pop() {
            table.put(alloc, item)?;
        }
        Ok(table)
    }

    /// Puts the item in, in place of one of its transaction. For one with more keys than a set may
    /// have there is no room.
    pub fn put(&mut self, alloc: Global, item: OpenItem) -> Result<(), NoMemory>
        ensures { OnOk result (self.new ≡ insert self.old item.trx item.fragments) }
    {
        let gathered = Gathered::of(alloc, item.fragments)?;
        self.open.insert(item.trx, gathered)?;
        Ok(())
    }

    /// The transactions, by member and then by begin number.
    pub fn items(&self, alloc: Global) -> Result<OpenList, NoMemory>
        ensures { IfOk result (λ items. items ≡ open_items self.now) }
    {
        let mut items = OpenList::new(alloc);
        for (trx, gathered) in &self.open {
            let fragments = copied(alloc, gathered.fragments())?;
            items.push(OpenItem {
                trx: *trx,
                fragments,
            })?;
        }
        Ok(items)
    }
}
