//! Aether, a log manager for transaction systems: the program.
#![tactic(auto)]

mod command;

use cli_shared::put_fault;
pub use cli_top::{Detail, Report, aether};
use command::words_of;
use log_disk::OpenGate;
use std::fs::File;
use std::io;
use std::process::ExitCode;
use system_disk::{FileDisk, StdSink, StdSource, sharpen_sleeps};

/// The root folder, opened thrice. Where standard streams are closed it takes their numbers, so that no file that is
/// opened later gets one of them.
fn hold_streams(rt: &HostRuntime) -> [io::Result<File>; 3] {
    [
        File::open(rt, "/"),
        File::open(rt, "/"),
        File::open(rt, "/"),
    ]
}

fn main(rt: HostRuntime) -> ExitCode {
    let _held = hold_streams(&rt);
    sharpen_sleeps(&rt);
    let report = match words_of(&rt) {
        Ok(words) => {
            let mut script = StdSource::make(rt.stdin());
            let mut out = StdSink::make(rt.stdout());
            let mut disk = FileDisk::make(rt);
            aether(
                &rt,
                rt.alloc(),
                words.as_slice(),
                &mut disk,
                &mut script,
                &mut out,
                &OpenGate,
            )
        }
        Err(detail) => Report::of(detail),
    };
    // Nobody is left to tell that the line itself could not be written.
    let _ = put_fault(&report, &mut StdSink::make(rt.stderr()));
    ExitCode::from(report.status)
}
