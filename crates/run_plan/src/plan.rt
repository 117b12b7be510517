//! How the transfers of `run` and `demo` are made.
ghost use Rattle.std.specs.Prelude.{◌≡◌};

use command_line::RunOptions;
use end_lines::Voice;

/// How the transfers of a run are made.
#[derive(Drop)]
pub struct Plan {
    /// How many workers make them.
    pub workers: u32,

    /// The length of the log buffer in units.
    pub ring: u32,

    /// How many slots the log buffer has, at which workers may meet in groups.
    pub slots: u32,

    /// What is written of each record that ends one of them.
    pub voice: Voice,

    /// Whether a worker keeps a transfer's accounts until its end is durable, or it is cut off.
    pub wait: bool,
}

/// The plan of `run`: each end is told, the workers, the ring and the slots are as was asked, and the workers wait where that was asked.
pub fn plan_of_run(options: &RunOptions) -> Plan
    ensures workers { result.workers ≡ options.now.workers }
    ensures ring { result.ring ≡ options.now.ring }
    ensures slots { result.slots ≡ options.now.slots }
    ensures voice { result.voice ≡ Voice.Lines }
    ensures wait { result.wait ≡ options.now.wait }
{
    Plan {
        workers: options.workers,
        ring: options.ring,
        slots: options.slots,
        voice: Voice::Lines,
        wait: options.wait,
    }
}
