//! The rows of a desk's log.

ghost use Rattle.pushes.specs.Steps.{row_id};

use git_object::ObjectId;
use placed_items::Identified;

/// An entry of the log, and the seat that put it there; seat 0 is nobody.
#[derive(Clone, Copy, Drop)]
pub struct Row {
    pub id: ObjectId,
    pub seat: u32,
}

impl Identified for Row {
    ghost id = { row_id };

    fn id(&self) -> ObjectId {
        self.id
    }
}
