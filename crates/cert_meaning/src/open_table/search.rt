//! Open transactions found by their members.
ghost use Rattle.std.specs.Prelude.{◌≡◌, true, false, is_some, IfSome, IfNone};
ghost use Rattle.finite_map.specs.FiniteMap.{get};
ghost use Rattle.cert_meaning.specs.Fold.{is_of};
ghost use Rattle.cert_meaning.specs.OpenSearch.{HasNoneOf, HasNoneOutside};

use super::OpenTable;
use wsrep_base::TrxId;

impl OpenTable {
    /// An open transaction of the member. None where it has none.
    pub fn one_of(&self, member: u32) -> Option<TrxId>
        ensures some { IfSome result (λ trx. trx.member ≡ member) }
        ensures there { IfSome result (λ trx. is_some (get self.now trx) ≡ true) }
        ensures none { IfNone result (HasNoneOf self.now member) }
    {
        for (trx, _) in &self.open {
            if trx.member == member {
                return Some(*trx);
            }
        }
        None
    }

    /// An open transaction of another member than these. None where there is none.
    pub fn one_outside(&self, members: &[u32]) -> Option<TrxId>
        ensures some { IfSome result (λ trx. is_of members.now trx ≡ false) }
        ensures there { IfSome result (λ trx. is_some (get self.now trx) ≡ true) }
        ensures none { IfNone result (HasNoneOutside self.now members.now) }
    {
        for (trx, _) in &self.open {
            if !members.contains(&trx.member) {
                return Some(*trx);
            }
        }
        None
    }
}
