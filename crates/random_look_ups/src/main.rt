//! Looks up balances in a view of the log on standard input, at accounts and LSNs drawn by lot: as many as the word of the command line
//! says. It prints the sum of the balances, and how often there was no such account. `bench/looking_back` measures a look-up with it.
#![tactic(auto)]

mod look_ups;
mod lot;

use ledger_view::View;
use log_recovery::taken;
use look_ups::look_ups;
use lsn_space::{LAST, Word, number};
use std::env;
use std::io::Read;
use std::process::ExitCode;

/// How many balances are to be looked up.
fn count_asked(rt: &HostRuntime) -> Option<u32> {
    let args = env::args(rt).ok()?;
    let words = Word::each(rt.alloc(), args).ok()?;
    match words.as_slice() {
        [_, count] => {
            let count = number(count.text().as_bytes(), 0, u64::from(LAST))?;
            Some(count as u32)
        }
        _ => None,
    }
}

fn main(rt: HostRuntime) -> ExitCode {
    let Some(count) = count_asked(&rt) else {
        return ExitCode::from(2);
    };
    let mut bytes = Vec::new(rt.alloc());
    let Ok(_) = rt.stdin().read_to_end(&mut bytes) else {
        return ExitCode::from(4);
    };
    let Ok((view, listed)) = taken::<View>(rt.alloc(), bytes.as_slice()) else {
        return ExitCode::from(7);
    };
    let found = look_ups(&view, listed.tail.next, count);
    match println!(rt; "sum {}\nunknown {}", found.sum, found.unknown) {
        Ok(()) => ExitCode::SUCCESS,
        Err(_) => ExitCode::from(8),
    }
}
