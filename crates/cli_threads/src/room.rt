//! Room for what is to come of the workers, so that a run asks for no memory once the first of them has started.
ghost use Rattle.std.specs.Prelude.{◌≡◌, IfOk, vec_len};
ghost use Rattle.cli_threads.specs.Prepared.{HasRoomFor};

use crate::serving::Started;
use cli_workers::{Worker, room_for};
use lsn_space::NoMemory;
use std::alloc::Global;
use std::sync::atomic::AtomicBool;
use txn_runner::Worked;

/// Room for the workers once they are started, once they are back, and for what the work of each came to.
#[derive(Drop)]
pub(crate) struct Room {
    pub(crate) started: Vec<Started>,
    pub(crate) back: Vec<Worker>,
    pub(crate) ends: Vec<Worked>,
}

/// So many flags that are not set.
pub(crate) fn flags(alloc: Global, count: u32) -> Result<Vec<AtomicBool>, NoMemory>
    ensures { IfOk result (λ flags. vec_len flags ≡ count) }
{
    let mut flags = room_for(alloc, count)?;
    for _number in 0..count {
        flags.push_reserved(AtomicBool::new(false));
    }
    Ok(flags)
}

impl Room {
    /// Room for so many workers.
    pub(crate) fn make(alloc: Global, count: u32) -> Result<Room, NoMemory>
        ensures { IfOk result (HasRoomFor count) }
    {
        Ok(Room {
            started: room_for(alloc, count)?,
            back: room_for(alloc, count)?,
            ends: room_for(alloc, count)?,
        })
    }
}
