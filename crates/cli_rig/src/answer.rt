//! What the program answers, over a disk, a source and a sink in memory.

use crate::given::{End, GENESIS_LOG, Given, NEW};
use cli_shared::Report;
use cli_top::aether;
use log_disk::{Gate, OpenGate};
use lsn_space::Word;
use memory_disk::{MemoryDisk, MemorySink, MemorySource};
use std::alloc::AllocGlobal;
use std::fmt::Debug;
use std::sync::Wait;
use std::test::Fail;
use std::thread::Threads;
use std::time::Clock;

/// Room for the text of some thousand lines.
const TEXT_ROOM: usize = 100_000;

/// How the program ended, what it wrote, and the disk that it left.
#[derive(Drop)]
pub struct Answer {
    pub report: Report,
    pub text: MemorySink,
    pub disk: MemoryDisk,
}

/// Runs the program on a disk and a sink, with a hook that workers pass.
pub fn answer_on<R: Threads + Wait + Clock + Sync + AllocGlobal, G: Gate + Sync>(
    rt: &R,
    given: &Given,
    disk: &mut MemoryDisk,
    out: &mut MemorySink,
    gate: &G,
) -> Result<Report, Fail> {
    let mut line = Vec::new(rt.alloc());
    for text in given.words {
        let Ok(word) = Word::make(rt.alloc(), text) else {
            return Err(Fail::new("no memory"));
        };
        line.push(word)?;
    }
    let Ok(mut script) = MemorySource::make(rt.alloc(), given.input, 7, given.source_failing) else {
        return Err(Fail::new("no memory"));
    };
    let alloc = rt.alloc();
    Ok(aether(rt, alloc, line.as_slice(), disk, &mut script, out, gate))
}

/// A sink that fails at these calls.
pub fn sink_of<R: AllocGlobal>(rt: &R, failing: &[u64]) -> Result<MemorySink, Fail> {
    MemorySink::make(rt.alloc(), TEXT_ROOM, failing).map_err(|_| Fail::new("no memory"))
}

/// Runs the program on a disk and a sink of its own, with a hook that workers pass.
pub fn answer_at<R: Threads + Wait + Clock + Sync + AllocGlobal, G: Gate + Sync>(
    rt: &R,
    given: &Given,
    gate: &G,
) -> Result<Answer, Fail> {
    let Ok(mut disk) = MemoryDisk::make(rt.alloc(), given.held, given.room, given.disk_failing)
    else {
        return Err(Fail::new("no memory"));
    };
    let mut text = sink_of(rt, given.sink_failing)?;
    let report = answer_on(rt, given, &mut disk, &mut text, gate)?;
    Ok(Answer { report, text, disk })
}

/// What a call answered, and what was wanted of it.
fn otherwise<D: Debug + Drop>(given: &Given, found: D, wanted: D) -> Fail {
    let (words, held, input) = (given.words, given.held, given.input);
    Fail::new(format_args!("{found:?}, and not {wanted:?}: {words:?} {held:?} {input:?}"))
}

/// The program ended so.
pub fn has_ended(given: &Given, answer: &Answer, end: &End) -> Result<(), Fail> {
    let wanted = Report::of(end.detail());
    if answer.report != wanted {
        return Err(otherwise(given, &answer.report, &wanted));
    }
    Ok(())
}

/// The program ended so, and wrote this.
pub fn has_answered(given: &Given, answer: &Answer, end: &End, text: &[u8]) -> Result<(), Fail> {
    has_ended(given, answer, end)?;
    let written = answer.text.bytes();
    if written != text {
        return Err(otherwise(given, written, text));
    }
    Ok(())
}

/// This is what the program left on the disk.
pub fn has_left(given: &Given, answer: &Answer, left: &[u8]) -> Result<(), Fail> {
    let found = answer.disk.bytes();
    if found != left {
        return Err(otherwise(given, found, left));
    }
    Ok(())
}

/// The program ends so, and writes this.
pub fn answers<R: Threads + Wait + Clock + Sync + AllocGlobal>(
    rt: &R,
    given: &Given,
    end: &End,
    text: &[u8],
) -> Result<(), Fail> {
    let answer = answer_at(rt, given, &OpenGate)?;
    has_answered(given, &answer, end, text)
}

/// The program ends so, writes this, and leaves this on the disk.
pub fn leaves<R: Threads + Wait + Clock + Sync + AllocGlobal>(
    rt: &R,
    given: &Given,
    end: &End,
    text: &[u8],
    left: &[u8],
) -> Result<(), Fail> {
    let answer = answer_at(rt, given, &OpenGate)?;
    has_answered(given, &answer, end, text)?;
    has_left(given, &answer, left)
}

/// The genesis log's batch, and these bytes behind it.
pub fn log_of<R: AllocGlobal>(rt: &R, rest: &[u8]) -> Result<Vec<u8>, Fail> {
    let (front, _) = GENESIS_LOG.split_at(44);
    let mut bytes = Vec::from_slice(rt.alloc(), front)?;
    bytes.extend_from_slice(rest)?;
    Ok(bytes)
}

/// Makes a log of these balances.
pub fn made<R: Threads + Wait + Clock + Sync + AllocGlobal>(
    rt: &R,
    balances: &[u8],
) -> Result<Answer, Fail> {
    let given = Given {
        input: balances,
        ..Given::words(NEW)
    };
    answer_at(rt, &given, &OpenGate)
}

/// Runs the program on the disk that an answer left.
pub fn run_on<R: Threads + Wait + Clock + Sync + AllocGlobal, G: Gate + Sync>(
    rt: &R,
    given: &Given,
    answer: &mut Answer,
    gate: &G,
) -> Result<(), Fail> {
    answer.text = sink_of(rt, given.sink_failing)?;
    answer.report = answer_on(rt, given, &mut answer.disk, &mut answer.text, gate)?;
    Ok(())
}

/// This is read from a log.
pub fn reads<R: Threads + Wait + Clock + Sync + AllocGlobal>(
    rt: &R,
    words: &[&str],
    log: &[u8],
    text: &[u8],
) -> Result<(), Fail> {
    let given = Given {
        input: log,
        ..Given::words(words)
    };
    answers(rt, &given, &End::Fine, text)
}

/// These words are none of the program's: it ends with status 2, and no call of the disk or the source is made, since each would
/// fail.
pub fn is_no_command<R: Threads + Wait + Clock + Sync + AllocGlobal>(
    rt: &R,
    words: &[&str],
    held: &[u8],
    input: &[u8],
) -> Result<(), Fail> {
    let given = Given {
        held,
        input,
        disk_failing: &[1],
        source_failing: &[1],
        ..Given::words(words)
    };
    let answer = answer_at(rt, &given, &OpenGate)?;
    has_answered(&given, &answer, &End::Usage, b"")?;
    if answer.report.status != 2 {
        return Err(otherwise(&given, answer.report.status, 2));
    }
    Ok(())
}
