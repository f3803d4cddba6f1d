use key_sets::{Kind, Parts};
use std::hash::{Hash, Hasher};

/// A kind at some parts.
#[derive(Clone, Copy, Debug, PartialEq, Eq)]
pub(crate) struct Pair {
    pub(crate) parts: Parts,
    pub(crate) kind: Kind,
}

// The three kinds at the same parts share a hash.
impl Hash for Pair {
    ghost use Rattle.std.proofs.Common.{ap};
    ghost use Rattle.cert_index.specs.Pairs.{pair_writes, pair_same};

    ghost hash_input = { pair_writes };

    ghost respects_eq = { λ a b same. ap pair_writes (pair_same a b same) };

    fn hash<H: Hasher>(&self, state: &mut H) {
        self.parts.hash(state);
    }
}
