//! Room that is asked for before there is anything to put into it.
ghost use Rattle.std.specs.Prelude.{◌≡◌, ◌≤◌, [], IfOk, vec_capacity};

use lsn_space::NoMemory;
use std::alloc::Global;

/// Room for so many.
pub fn room_for<T>(alloc: Global, count: u32) -> Result<Vec<T>, NoMemory>
    ensures none { IfOk result (λ room. room.items ≡ []) }
    ensures room { IfOk result (λ room. count ≤ vec_capacity room) }
{
    match Vec::with_capacity(alloc, count as usize) {
        Ok(room) => Ok(room),
        Err(_) => Err(NoMemory),
    }
}
