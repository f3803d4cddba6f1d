ghost use Rattle.std.specs.Prelude.{◌≡◌};
ghost use Rattle.key_sets.specs.Kinds.{kinds_conflict, kinds_touch, stronger};

/// How strongly a key binds, in rising strength.
#[derive(Clone, Copy, Debug, Default, PartialEq, Eq)]
pub enum Kind {
    /// Read and held against change.
    #[default]
    Shared,
    /// Changed in place.
    Update,
    /// Made or removed.
    Exclusive,
}

impl Kind {
    /// Whether one of the two is exclusive or both are update.
    pub fn conflicts(self, other: Kind) -> bool
        ensures { result ≡ kinds_conflict self other }
    {
        match (self, other) {
            (Kind::Exclusive, _) | (_, Kind::Exclusive) => true,
            (Kind::Update, Kind::Update) => true,
            (Kind::Shared, _) | (_, Kind::Shared) => false,
        }
    }

    /// Whether the two are not both shared.
    pub fn touches(self, other: Kind) -> bool
        ensures { result ≡ kinds_touch self other }
    {
        match (self, other) {
            (Kind::Shared, Kind::Shared) => false,
            _ => true,
        }
    }

    /// The stronger of the two.
    pub fn stronger(self, other: Kind) -> Kind
        ensures { result ≡ stronger self other }
    {
        match (self, other) {
            (Kind::Exclusive, _) | (_, Kind::Exclusive) => Kind::Exclusive,
            (Kind::Update, _) | (_, Kind::Update) => Kind::Update,
            (Kind::Shared, Kind::Shared) => Kind::Shared,
        }
    }
}
