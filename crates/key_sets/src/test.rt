ghost use Rattle.std.specs.Prelude.{◌≡◌};
ghost use Rattle.std.specs.List.{list_all};

use crate::kind::Kind;
use crate::parts::Parts;

/// A test of parts, for `KeySet::all`.
pub trait PartsTest {
    ghost use Rattle.std.specs.Prelude.{◌≡◌, Bool};
    ghost use Rattle.key_sets.specs.declared.parts.Parts.{Parts};

    ghost admits: { Self → Parts → Bool };

    fn admits(&self, parts: &Parts) -> bool
        ensures { result ≡ admits self.now parts.now };
}

pub(crate) fn all_admitted<T: PartsTest>(keys: &[(Parts, Kind)], test: &T) -> bool
    ensures { result ≡ list_all (λ key. T.admits test.now key.0) keys.now }
{
    keys.iter().all(|(parts, _)| test.admits(parts))
}
