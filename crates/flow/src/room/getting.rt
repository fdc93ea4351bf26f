// Getting the memory of a case, in one call.
ghost use Rattle.flow.specs.Rooms.{Empty};
ghost use Rattle.std.specs.Prelude.{IfOk};

use crate::room::Room;
use std::alloc::{AllocError, Global};
use stores::store::Store;

impl Room {
    /// Gets the memory for a whole case; it fails only for want of it.
    pub fn new(heap: Global) -> Result<Room, AllocError>
        ensures { IfOk result Empty }
    {
        Ok(Room {
            edges: Store::new(heap)?,
            labels: Store::new(heap)?,
            lines: Store::new(heap)?,
        })
    }
}
