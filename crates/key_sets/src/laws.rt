//! The laws of the definitions, each as the contract of a call that does nothing.
ghost use Rattle.key_sets.specs.Keys as keys;
ghost use Rattle.key_sets.specs.Kinds.{kinds_conflict, kinds_touch};
ghost use Rattle.key_sets.specs.Laws.{IsSymmetric, Implies, IsRising, IsOfUnions, CoversConflict};

/// Kinds conflict and touch both ways, kinds that conflict also touch, and a stronger kind
/// conflicts with what either kind conflicts with.
pub fn kind_laws()
    ensures conflict_both_ways { IsSymmetric kinds_conflict }
    ensures touch_both_ways { IsSymmetric kinds_touch }
    ensures conflict_touches { Implies kinds_conflict kinds_touch }
    ensures stronger_conflicts { IsRising kinds_conflict }
    ensures stronger_touches { IsRising kinds_touch }
{}

/// Key sets conflict and touch both ways, sets that conflict also touch, a union meets what its
/// parts meet, and two sets that cover one row conflict.
pub fn key_set_laws()
    ensures conflicts_both_ways { IsSymmetric keys.conflicts }
    ensures touches_both_ways { IsSymmetric keys.touches }
    ensures conflicts_touch { Implies keys.conflicts keys.touches }
    ensures union_conflicts { IsOfUnions keys.conflicts }
    ensures union_touches { IsOfUnions keys.touches }
    ensures covered { CoversConflict }
{}
