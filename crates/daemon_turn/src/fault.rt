//! Why a daemon stopped, and the stop word that tells it.
ghost use Rattle.std.specs.Prelude.{◌≡◌};
ghost use Rattle.daemon_turn.specs.StopWord.{stop_word};

/// Why a daemon stopped.
#[derive(Clone, Copy, Debug, PartialEq, Eq)]
pub enum DaemonFault {
    /// The disk failed in a flush. The stop word is 1.
    DiskFault,
    /// The sink failed, after the flush. The stop word is 2.
    WriteFault,
}

impl DaemonFault {
    /// The stop word that tells it.
    pub fn word(self) -> u64
        ensures { result ≡ stop_word self }
    {
        match self {
            DaemonFault::DiskFault => 1,
            DaemonFault::WriteFault => 2,
        }
    }
}
