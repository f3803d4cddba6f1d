ghost use Rattle.std.specs.Prelude.{◌≡◌};
ghost use Rattle.apply_unit.specs.Results.{computed};

use row_model::{ImageList, OpList, Row, RowId};
use std::marker::Model;

/// A task whose changes are done. It is seen as the task, and keeps the results beside it.
#[derive(Drop)]
pub struct Done {
    pub(crate) number: u64,
    pub(crate) ops: OpList,
    pub(crate) images: ImageList,
    pub(crate) results: Vec<(RowId, Option<Row>)>,
}

impl Model for Done {
    ghost use Rattle.std.specs.Prelude.{◌≡◌};
    ghost use Rattle.apply_unit.specs.Task.{ModelTask};
    ghost use Rattle.apply_unit.specs.Results.{computed};

    ghost Value = { ModelTask };

    ghost view = { λ done. record { number = done.number; ops = done.ops; images = done.images } };

    ghost invariant = { λ done. done.results.items ≡ computed done.ops done.images };
}

impl Done {
    /// The number of the write set.
    pub fn number(&self) -> u64
        ensures { result ≡ self.now.number }
    {
        self.number
    }

    /// What the changes make of each row, in the order of the task's images.
    pub fn results(&self) -> &[(RowId, Option<Row>)]
        ensures { result.now ≡ computed self.now.ops self.now.images }
    {
        self.results.as_slice()
    }
}
