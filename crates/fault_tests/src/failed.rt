//! A command of which calls on the outside fail: each in turn, alone and with all behind it, until none is left that could.

use crate::images::{Left, PICKS, ROOM, begins_with, is_left};
use cli_rig::{Answer, End, Given, answer_at, has_answered, has_ended};
use log_disk::OpenGate;
use std::alloc::AllocGlobal;
use std::process::Abort;
use std::sync::Wait;
use std::test::Fail;
use std::thread::Threads;
use std::time::Clock;

/// The numbers of calls, more than any of these commands makes: `demo` makes eleven for its log, at most four for each of nine records, and seven
/// more.
const CALLS: &[u64] = &[
    1, 2, 3, 4, 5, 6, 7, 8, 9, 10, 11, 12, 13, 14, 15, 16, 17, 18, 19, 20, 21, 22, 23, 24, 25, 26,
    27, 28, 29, 30, 31, 32, 33, 34, 35, 36, 37, 38, 39, 40, 41, 42, 43, 44, 45, 46, 47, 48, 49, 50,
    51, 52, 53, 54, 55, 56, 57, 58, 59, 60,
];

/// What a command calls.
#[derive(Clone, Copy)]
pub(crate) enum Part {
    Disk,
    Output,
    Input,
}

impl Part {
    /// How a command ends where this fails.
    fn end(self) -> &'static End {
        match self {
            Part::Disk => &End::Disk,
            Part::Output => &End::Write,
            Part::Input => &End::Read,
        }
    }
}

/// A command: its words, what the disk holds, its input, what it writes where nothing fails, what a crash may leave of it, and the last
/// of its calls of the disk after whose failure there may be no log.
#[derive(Clone, Copy)]
pub(crate) struct Command {
    pub words: &'static [&'static str],
    pub held: &'static [u8],
    pub input: &'static [u8],
    pub text: &'static [u8],
    pub left: Left,
    pub making: u64,
}

/// Calls that fail: those of a part with these numbers, of which this is the first.
#[derive(Clone, Copy)]
pub(crate) struct Failing {
    pub part: Part,
    pub calls: &'static [u64],
    pub first: u64,
}

/// What the command is given, where these calls fail.
pub(crate) fn given_of(command: &Command, failing: Failing) -> Given<'static> {
    let given = Given {
        held: command.held,
        room: ROOM,
        input: command.input,
        ..Given::words(command.words)
    };
    match failing.part {
        Part::Disk => Given {
            disk_failing: failing.calls,
            ..given
        },
        Part::Output => Given {
            sink_failing: failing.calls,
            ..given
        },
        Part::Input => Given {
            source_failing: failing.calls,
            ..given
        },
    }
}

/// Whether there must be a log, where these calls fail, or none does.
fn must_be_log(command: &Command, failing: Failing, fails: bool) -> bool {
    match (command.left, failing.part) {
        (Left::Nothing, _) => false,
        (_, Part::Disk) => !fails || failing.first > command.making,
        (_, Part::Output) => true,
        (_, Part::Input) => !fails || command.making == 0,
    }
}

/// What a crash may leave of the command. Where `follow` comes to its output all frames are in the log.
fn left_of(command: &Command, part: Part) -> Left {
    match (command.left, part) {
        (Left::Frames, Part::Output) => Left::Whole,
        (left, _) => left,
    }
}

/// These calls fail, and then there is this crash: how the command ends, what it has written and what is left are as wanted. Answers
/// whether it ended by that failure.
fn fails_at<R: Threads + Wait + Clock + Sync + AllocGlobal + Abort>(
    rt: &R,
    command: &Command,
    failing: Failing,
    pick: u64,
) -> Result<bool, Fail> {
    let given = given_of(command, failing);
    let answer = answer_at(rt, &given, &OpenGate)?;
    let fails = answer.report.status != 0;
    if fails {
        has_ended(&given, &answer, failing.part.end())?;
    } else {
        has_answered(&given, &answer, &End::Fine, command.text)?;
    }
    let Answer { text, disk, .. } = answer;
    let told = text.bytes();
    begins_with(rt, command.text, told);
    let image = disk.crash(pick);
    let left = left_of(command, failing.part);
    let must = must_be_log(command, failing, fails);
    is_left(rt, left, image.bytes(), told, command.text, must)?;
    Ok(fails)
}

/// Whether a command ended by a failure in any of some runs, and whether in all.
#[derive(Clone, Copy)]
struct Failed {
    any: bool,
    all: bool,
}

/// These calls fail, before each crash.
fn failed_at<R: Threads + Wait + Clock + Sync + AllocGlobal + Abort>(
    rt: &R,
    command: &Command,
    failing: Failing,
) -> Result<Failed, Fail> {
    let mut failed = Failed {
        any: false,
        all: true,
    };
    for pick in 0..PICKS {
        let fails = fails_at(rt, command, failing, pick)?;
        failed.any |= fails;
        failed.all &= fails;
    }
    Ok(failed)
}

/// Each call of that part fails, alone and for good, from the first on, until none is left that could. Answers how many failed in all runs.
fn each_call_fails<R: Threads + Wait + Clock + Sync + AllocGlobal + Abort>(
    rt: &R,
    command: &Command,
    part: Part,
) -> Result<u64, Fail> {
    let mut failed = 0u64;
    for at in 0..CALLS.len() {
        let calls = CALLS.split_at(at).1;
        let first = at as u64 + 1;
        let for_good = failed_at(rt, command, Failing { part, calls, first })?;
        let calls = calls.split_at(1).0;
        let alone = failed_at(rt, command, Failing { part, calls, first })?;
        if !for_good.any && !alone.any {
            return Ok(failed);
        }
        failed = failed.saturating_add(u64::from(for_good.all && alone.all));
    }
    let words = command.words;
    Err(Fail::new(format_args!("more than {failed} calls: {words:?}")))
}

/// Calls of that part fail, alone and for good, one at least in each run.
pub(crate) fn some_calls_fail<R: Threads + Wait + Clock + Sync + AllocGlobal + Abort>(
    rt: &R,
    command: &Command,
    part: Part,
) -> Result<(), Fail> {
    if each_call_fails(rt, command, part)? == 0 {
        let words = command.words;
        return Err(Fail::new(format_args!("no call failed: {words:?}")));
    }
    Ok(())
}

/// So many calls of that part fail, alone and for good, and no other is made.
pub(crate) fn so_many_calls_fail<R: Threads + Wait + Clock + Sync + AllocGlobal + Abort>(
    rt: &R,
    command: &Command,
    part: Part,
    count: u64,
) -> Result<(), Fail> {
    let failed = each_call_fails(rt, command, part)?;
    let words = command.words;
    assert_eq!(rt; failed, count, "{words:?}");
    Ok(())
}
