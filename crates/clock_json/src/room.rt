//! Lists whose growth may return an error.
ghost use Rattle.std.specs.Prelude.{◌≡◌, [], ◌∷◌, ◌++◌, IfOk, OnOk};

use clock_device::NoMemory;
use std::alloc::Global;

/// Makes an empty list with memory for `room` items. It can grow beyond this.
pub fn with_room<T>(alloc: Global, room: usize) -> Result<Vec<T>, NoMemory>
    ensures items { IfOk result (λ list. list.items ≡ []) }
{
    Ok(Vec::with_capacity(alloc, room)?)
}

/// Appends an item to a list.
#[inline(always)]
pub fn push<T: Drop>(list: &mut Vec<T>, item: T) -> Result<(), NoMemory>
    ensures items { OnOk result (list.new.items ≡ list.old.items ++ item ∷ []) }
{
    list.push(item)?;
    Ok(())
}
