ghost use Rattle.std.specs.Prelude.{◌≡◌, IfOk};
ghost use Rattle.std.specs.List.{IsDistinct};
ghost use Rattle.std.specs.Map.{keys_of};
ghost use Rattle.row_model.specs.RowOrder.{row_eq};
ghost use Rattle.apply_unit.specs.Results.{computed};
ghost use Rattle.apply_unit.specs.Task.{AreImagesOf};

use crate::Done;
use indexmap::IndexSet;
use row_model::{ImageList, Op, OpList, Row, RowId, apply_op};
use std::marker::Model;
use wsrep_base::NoMemory;

/// The changes of one write set, and the committed images of the rows that they name. Room for the
/// results is taken when the task is made.
#[derive(Drop)]
pub struct Task {
    number: u64,
    ops: OpList,
    images: ImageList,
    places: IndexSet<RowId>,
    results: Vec<(RowId, Option<Row>)>,
}

impl Model for Task {
    ghost use Rattle.apply_unit.specs.Task.{ModelTask, IsReady};

    ghost Value = { ModelTask };

    ghost view = { λ task. record { number = task.number; ops = task.ops; images = task.images } };

    ghost invariant = { λ task. IsReady task.ops task.images task.places.keys task.results.items };
}

impl Task {
    ghost use Rattle.apply_unit.specs.Task.{task};

    /// The task of the write set with this number.
    pub fn new(number: u64, ops: OpList, images: ImageList) -> Result<Task, NoMemory>
        requires { AreImagesOf ops images }
        ensures { IfOk result (λ made. made ≡ task number ops images) }
    {
        let places = places_of(&images)?;
        let results = images.copy()?.into_vec();
        Ok(Task {
            number,
            ops,
            images,
            places,
            results,
        })
    }

    /// The number of the write set.
    pub fn number(&self) -> u64
        ensures { result ≡ self.now.number }
    {
        self.number
    }

    /// Does the changes. It takes no memory.
    pub fn compute(self) -> Done
        ensures { result ≡ self }
    {
        let mut results = self.results;
        do_all(&mut results, &self.places, self.ops.as_slice());
        Done {
            number: self.number,
            ops: self.ops,
            images: self.images,
            results,
        }
    }
}

// The rows of the images, in their order.
fn places_of(images: &ImageList) -> Result<IndexSet<RowId>, NoMemory>
    requires { IsDistinct row_eq (keys_of images.now) }
    ensures { IfOk result (λ places. places.keys ≡ keys_of images.now) }
{
    let mut places = IndexSet::with_capacity(images.alloc(), images.len())?;
    for image in images.as_slice() {
        places.insert(image.0)?;
    }
    Ok(places)
}

// Does the changes in order, each on the image of its row.
fn do_all(results: &mut Vec<(RowId, Option<Row>)>, places: &IndexSet<RowId>, ops: &[Op])
    requires places { places.now.keys ≡ keys_of results.old.items }
    requires once { IsDistinct row_eq (keys_of results.old.items) }
    ensures { results.new.items ≡ computed ops.now results.old.items }
{
    for op in ops {
        if let Some(at) = places.get_index_of(&op.id()) {
            let (id, row) = results[at];
            results[at] = (id, apply_op(row, op));
        }
    }
}
