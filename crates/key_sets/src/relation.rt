ghost use Rattle.std.specs.Prelude.{◌≡◌};
ghost use Rattle.key_sets.specs.Probes.{kind_test, passes};

use crate::kind::Kind;

/// In which way two kinds, or two key sets, are compared.
#[derive(Clone, Copy, Debug, PartialEq, Eq)]
pub enum Relation {
    Conflict,
    Touch,
}

impl Relation {
    // Whether two kinds are so related.
    pub(crate) fn holds(self, one: Kind, other: Kind) -> bool
        ensures { result ≡ kind_test self one other }
    {
        match self {
            Relation::Conflict => one.conflicts(other),
            Relation::Touch => one.touches(other),
        }
    }

    // Whether there is another kind and the two are so related.
    pub(crate) fn holds_there(self, one: Kind, there: Option<Kind>) -> bool
        ensures { result ≡ passes (kind_test self one) there }
    {
        match there {
            Some(other) => self.holds(one, other),
            None => false,
        }
    }
}
