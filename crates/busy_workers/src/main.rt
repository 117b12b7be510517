//! The program `aether` with workers that have other work too. Two numbers stand before its own words: how long the other work before each
//! transfer is, in nanoseconds, and for how long a worker is held up in each 2,000th. `bench/workers` measures with it.
#![tactic(auto)]

mod other_work;

use cli_shared::put_fault;
use cli_top::aether;
use lsn_space::{LAST, Word, number};
use other_work::OtherWork;
use std::env;
use std::process::ExitCode;
use system_disk::{FileDisk, StdSink, StdSource, sharpen_sleeps};

/// What the words ask for: the hook, and the words of `aether`. The second number stands where it expects the program's name.
fn asked<'a, 'b>(
    rt: &'a HostRuntime,
    words: &'b [Word],
) -> Option<(OtherWork<'a, HostRuntime>, &'b [Word])> {
    let [_, busy, rest @ ..] = words else {
        return None;
    };
    let [held, _, ..] = rest else {
        return None;
    };
    let busy = number(busy.text().as_bytes(), 0, LAST as u64)?;
    let held = number(held.text().as_bytes(), 0, LAST as u64)?;
    Some((OtherWork::new(rt, busy, held), rest))
}

fn main(rt: HostRuntime) -> ExitCode {
    sharpen_sleeps(&rt);
    let Ok(args) = env::args(&rt) else {
        return ExitCode::from(2);
    };
    let Ok(words) = Word::each(rt.alloc(), args) else {
        return ExitCode::from(1);
    };
    let Some((hook, rest)) = asked(&rt, words.as_slice()) else {
        return ExitCode::from(2);
    };
    let mut script = StdSource::make(rt.stdin());
    let mut out = StdSink::make(rt.stdout());
    let mut disk = FileDisk::make(rt);
    let report = aether(
        &rt,
        rt.alloc(),
        rest,
        &mut disk,
        &mut script,
        &mut out,
        &hook,
    );
    // Nobody is left to tell that the line itself could not be written.
    let _ = put_fault(&report, &mut StdSink::make(rt.stderr()));
    ExitCode::from(report.status)
}
