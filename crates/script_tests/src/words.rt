//! Which words are a command.

use command_line::{Command, RefusedWords, RunOptions, parse};
use lsn_space::Word;
use std::alloc::AllocGlobal;
use std::process::Abort;
use std::test::Fail;

fn parsed<R: AllocGlobal>(rt: &R, words: &[&str]) -> Result<Result<Command, RefusedWords>, Fail> {
    let mut line = Vec::new(rt.alloc());
    for text in words {
        let Ok(word) = Word::make(rt.alloc(), text) else {
            return Err(Fail::new("no memory"));
        };
        line.push(word)?;
    }
    Ok(parse(rt.alloc(), line.as_slice()))
}

/// These words were read as they should be.
fn is_as_wanted(rt: &impl Abort, words: &[&str], as_wanted: bool) {
    assert!(rt; as_wanted, "{words:?}");
}

fn is_on_log(found: &Result<Command, RefusedWords>, name: &str, place: &str) -> bool {
    match found {
        Ok(Command::New { log }) => name == "new" && log.text() == place,
        Ok(Command::Cut { log }) => name == "cut" && log.text() == place,
        Ok(Command::Upgrade { log }) => name == "upgrade" && log.text() == place,
        Ok(Command::Follow { log }) => name == "follow" && log.text() == place,
        _ => false,
    }
}

/// These words ask for the command of this name on the log at this place.
fn takes_on_log<R: AllocGlobal + Abort>(
    rt: &R,
    words: &[&str],
    name: &str,
    place: &str,
) -> Result<(), Fail> {
    let command = parsed(rt, words)?;
    is_as_wanted(rt, words, is_on_log(&command, name, place));
    Ok(())
}

fn takes_recover<R: AllocGlobal + Abort>(rt: &R, words: &[&str]) -> Result<(), Fail> {
    let is_recover = matches!(parsed(rt, words)?, Ok(Command::Recover));
    is_as_wanted(rt, words, is_recover);
    Ok(())
}

fn takes_dump<R: AllocGlobal + Abort>(rt: &R, words: &[&str]) -> Result<(), Fail> {
    let is_dump = matches!(parsed(rt, words)?, Ok(Command::Dump));
    is_as_wanted(rt, words, is_dump);
    Ok(())
}

/// Words, the command that they name, and its log.
const ON_LOGS: &[(&[&str], &str, &str)] = &[
    (&["aether", "new", "bank.log"], "new", "bank.log"),
    (&["", "new", "bank.log"], "new", "bank.log"),
    (&["aether", "new", ""], "new", ""),
    (&["aether", "new", "-"], "new", "-"),
    (&["aether", "new", "--", "-x"], "new", "-x"),
    (&["aether", "new", "--", "--help"], "new", "--help"),
    (&["aether", "new", "help"], "new", "help"),
    (&["aether", "new", "new"], "new", "new"),
    (&["aether", "cut", "bank.log"], "cut", "bank.log"),
    (&["aether", "upgrade", "bank.log"], "upgrade", "bank.log"),
    (&["aether", "follow", "bank.log"], "follow", "bank.log"),
    (&["aether", "follow", ""], "follow", ""),
    (&["aether", "follow", "--", "-x"], "follow", "-x"),
    (&["aether", "follow", "ship"], "follow", "ship"),
];

#[test]
fn takes_commands(rt: HostRuntime) -> Result<(), Fail> {
    for (words, name, log) in ON_LOGS {
        takes_on_log(&rt, words, name, log)?;
    }
    takes_recover(&rt, &["aether", "recover"])?;
    takes_recover(&rt, &["", "recover"])?;
    takes_dump(&rt, &["aether", "dump"])?;
    takes_dump(&rt, &["", "dump"])
}

fn is_with_number(found: &Result<Command, RefusedWords>, name: &str, number: u32) -> bool {
    match found {
        Ok(Command::Ship { from }) => name == "ship" && *from == number,
        Ok(Command::AsOf { lsn }) => name == "asof" && *lsn == number,
        Ok(Command::Statement { account }) => name == "statement" && *account == number,
        _ => false,
    }
}

/// These words ask for the command of this name with this number.
fn takes_with_number<R: AllocGlobal + Abort>(
    rt: &R,
    words: &[&str],
    name: &str,
    number: u32,
) -> Result<(), Fail> {
    let command = parsed(rt, words)?;
    is_as_wanted(rt, words, is_with_number(&command, name, number));
    Ok(())
}

/// Words, the command that they name, and its number.
const WITH_NUMBERS: &[(&[&str], &str, u32)] = &[
    (&["aether", "ship", "0"], "ship", 0),
    (&["", "ship", "5"], "ship", 5),
    (&["aether", "ship", "--", "5"], "ship", 5),
    (&["aether", "ship", "4294967295"], "ship", 4294967295),
    (&["aether", "asof", "0"], "asof", 0),
    (&["aether", "asof", "12"], "asof", 12),
    (&["aether", "asof", "4294967295"], "asof", 4294967295),
    (&["aether", "statement", "0"], "statement", 0),
    (&["aether", "statement", "4095"], "statement", 4095),
];

#[test]
fn takes_numbers(rt: HostRuntime) -> Result<(), Fail> {
    for (words, name, number) in WITH_NUMBERS {
        takes_with_number(&rt, words, name, *number)?;
    }
    Ok(())
}

/// A case of `run`: the words, its workers, ring and slots, and whether it waits.
type Case = (&'static [&'static str], u32, u32, u32, bool);

const RUNS: &[Case] = &[
    (&["aether", "run", "log"], 2, 65536, 4, false),
    (&["aether", "run", "log", "--wait"], 2, 65536, 4, true),
    (&["aether", "run", "--wait", "log"], 2, 65536, 4, true),
    (
        &["aether", "run", "log", "--workers", "1"],
        1,
        65536,
        4,
        false,
    ),
    (&["aether", "run", "--workers=2", "log"], 2, 65536, 4, false),
    (&["aether", "run", "log", "--workers=3"], 3, 65536, 4, false),
    (
        &["aether", "run", "log", "--workers", "16"],
        16,
        65536,
        4,
        false,
    ),
    (&["aether", "run", "log", "--ring=1024"], 2, 1024, 4, false),
    (
        &["aether", "run", "log", "--ring", "1048576"],
        2,
        1048576,
        4,
        false,
    ),
    (
        &["aether", "run", "log", "--slots", "0"],
        2,
        65536,
        0,
        false,
    ),
    (
        &["aether", "run", "log", "--slots", "16"],
        2,
        65536,
        16,
        false,
    ),
    (
        &[
            "",
            "run",
            "--slots=1",
            "--ring=2048",
            "--workers=1",
            "--wait",
            "--",
            "log",
        ],
        1,
        2048,
        1,
        true,
    ),
];

fn is_run(found: &Result<Command, RefusedWords>, want: RunOptions) -> bool {
    match found {
        Ok(Command::Run { log, options }) => log.text() == "log" && *options == want,
        _ => false,
    }
}

/// These words ask for a run over `log` with these options.
fn takes_run<R: AllocGlobal + Abort>(
    rt: &R,
    words: &[&str],
    options: RunOptions,
) -> Result<(), Fail> {
    let command = parsed(rt, words)?;
    let is_run =
        matches!(&command, Ok(Command::Run { log, options: found }) if log.text() == "log" && *found == options);
    is_as_wanted(rt, words, is_run);
    Ok(())
}

#[test]
fn takes_options_of_run(rt: HostRuntime) -> Result<(), Fail> {
    for (words, workers, ring, slots, wait) in RUNS {
        let options = RunOptions {
            workers: *workers,
            ring: *ring,
            slots: *slots,
            wait: *wait,
        };
        takes_run(&rt, words, options)?;
    }
    Ok(())
}

/// A case of `demo`: the words, its transfers and seed, and its workers, ring and slots.
type DemoCase = (&'static [&'static str], u32, u32, (u32, u32, u32));

const DEMOS: &[DemoCase] = &[
    (&["aether", "demo", "log", "3", "7"], 3, 7, (2, 65536, 4)),
    (&["", "demo", "log", "0", "0"], 0, 0, (2, 65536, 4)),
    (
        &["aether", "demo", "log", "100000", "65536"],
        100000,
        65536,
        (2, 65536, 4),
    ),
    (
        &[
            "aether",
            "demo",
            "--workers=1",
            "log",
            "3",
            "--ring",
            "1024",
            "7",
        ],
        3,
        7,
        (1, 1024, 4),
    ),
    (
        &["aether", "demo", "--slots=0", "--", "log", "3", "7"],
        3,
        7,
        (2, 65536, 0),
    ),
    (
        &["aether", "demo", "log", "5000", "7", "--workers=16"],
        5000,
        7,
        (16, 65536, 4),
    ),
];

fn is_demo(found: &Result<Command, RefusedWords>, (n, from): (u32, u32), want: RunOptions) -> bool {
    match found {
        Ok(
            Command::Demo {
                log,
                transfers,
                seed,
                options,
            },
        ) => { log.text() == "log" && *transfers == n && *seed == from && *options == want }
        _ => false,
    }
}

/// These words ask for a demo over `log` with these transfers, this seed and these options.
fn takes_demo_of<R: AllocGlobal + Abort>(
    rt: &R,
    words: &[&str],
    numbers: (u32, u32),
    options: RunOptions,
) -> Result<(), Fail> {
    let command = parsed(rt, words)?;
    is_as_wanted(rt, words, is_demo(&command, numbers, options));
    Ok(())
}

#[test]
fn takes_demo(rt: HostRuntime) -> Result<(), Fail> {
    for (words, transfers, seed, (workers, ring, slots)) in DEMOS {
        let options = RunOptions {
            workers: *workers,
            ring: *ring,
            slots: *slots,
            wait: false,
        };
        takes_demo_of(&rt, words, (*transfers, *seed), options)?;
    }
    Ok(())
}

/// These words are no command.
fn refuses<R: AllocGlobal + Abort>(rt: &R, words: &[&str]) -> Result<(), Fail> {
    let is_refused = matches!(parsed(rt, words)?, Err(RefusedWords::Usage));
    is_as_wanted(rt, words, is_refused);
    Ok(())
}

const NO_DEMOS: &[&[&str]] = &[
    &["aether", "demo"],
    &["aether", "demo", "log"],
    &["aether", "demo", "log", "3"],
    &["aether", "demo", "log", "3", "7", "1"],
    &["aether", "demo", "log", "100001", "7"],
    &["aether", "demo", "log", "3", "65537"],
    &["aether", "demo", "log", "-3", "7"],
    &["aether", "demo", "log", "--", "-3", "7"],
    &["aether", "demo", "log", "03", "7"],
    &["aether", "demo", "log", "3", "+7"],
    &["aether", "demo", "log", "3", ""],
    &["aether", "demo", "log", "three", "7"],
    &["aether", "demo", "log", "3 ", "7"],
    &["aether", "demo", "log", "4294967299", "7"],
    &["aether", "demo", "log", "3", "7", "--wait"],
    &["aether", "demo", "log", "3", "7", "--workers", "0"],
    &["aether", "demo", "log", "3", "7", "--workers", "17"],
    &["aether", "demo", "log", "3", "7", "--workers", "01"],
    &["aether", "demo", "log", "3", "7", "--workers", "+2"],
    &["aether", "demo", "log", "3", "7", "--workers="],
    &["aether", "demo", "log", "3", "7", "--workers", "two"],
    &[
        "aether",
        "demo",
        "log",
        "3",
        "7",
        "--workers=2",
        "--workers=2",
    ],
    &["aether", "demo", "log", "3", "7", "--ring", "1000"],
    &["aether", "demo", "log", "3", "7", "--slots", "17"],
    &["aether", "demo", "log", "3", "7", "--help"],
];

#[test]
fn refuses_other_words_of_demo(rt: HostRuntime) -> Result<(), Fail> {
    for words in NO_DEMOS {
        refuses(&rt, words)?;
    }
    Ok(())
}

const NO_NUMBERS: &[&[&str]] = &[
    &["aether", "ship"],
    &["aether", "ship", "log"],
    &["aether", "ship", "0", "log"],
    &["aether", "ship", "4294967296"],
    &["aether", "ship", "18446744073709551616"],
    &["aether", "ship", "00"],
    &["aether", "ship", "05"],
    &["aether", "ship", "+5"],
    &["aether", "ship", "-5"],
    &["aether", "ship", "--", "-5"],
    &["aether", "ship", ""],
    &["aether", "ship", " 5"],
    &["aether", "ship", "--from", "5"],
    &["aether", "ship", "--help"],
    &["aether", "asof"],
    &["aether", "asof", "12", "13"],
    &["aether", "asof", "4294967296"],
    &["aether", "asof", "012"],
    &["aether", "asof", "0x12"],
    &["aether", "asof", "12 "],
    &["aether", "statement"],
    &["aether", "statement", "0", "1"],
    &["aether", "statement", "4096"],
    &["aether", "statement", "4294967296"],
    &["aether", "statement", "01"],
    &["aether", "statement", "one"],
    &["aether", "follow"],
    &["aether", "follow", "a.log", "b.log"],
    &["aether", "follow", "-x"],
    &["aether", "follow", "--help"],
];

#[test]
fn refuses_other_numbers(rt: HostRuntime) -> Result<(), Fail> {
    for words in NO_NUMBERS {
        refuses(&rt, words)?;
    }
    Ok(())
}

const NO_RUNS: &[&[&str]] = &[
    &["aether", "run"],
    &["aether", "run", "--wait"],
    &["aether", "run", "log", "log"],
    &["aether", "run", "log", "--workers"],
    &["aether", "run", "log", "--workers="],
    &["aether", "run", "log", "--workers", "0"],
    &["aether", "run", "log", "--workers", "17"],
    &["aether", "run", "log", "--workers", "01"],
    &["aether", "run", "log", "--workers", "016"],
    &["aether", "run", "log", "--workers", "+2"],
    &["aether", "run", "log", "--workers", "-1"],
    &["aether", "run", "log", "--workers=-1"],
    &["aether", "run", "log", "--workers", " 1"],
    &["aether", "run", "log", "--workers", "1 "],
    &["aether", "run", "log", "--workers", "two"],
    &["aether", "run", "log", "--workers", "4294967297"],
    &["aether", "run", "log", "--workers", "1", "--workers", "1"],
    &["aether", "run", "log", "--work", "1"],
    &["aether", "run", "log", "--ring", "1000"],
    &["aether", "run", "log", "--ring", "512"],
    &["aether", "run", "log", "--ring", "1536"],
    &["aether", "run", "log", "--ring", "2097152"],
    &["aether", "run", "log", "--ring", "01024"],
    &["aether", "run", "log", "--slots", "17"],
    &["aether", "run", "log", "--slots", "00"],
    &["aether", "run", "log", "--slots", ""],
    &["aether", "run", "log", "--wait=x"],
    &["aether", "run", "log", "--wait=true"],
    &["aether", "run", "log", "--wait", "--wait"],
    &["aether", "--wait", "run", "log"],
    &["aether", "run", "log", "--help"],
    &["aether", "recover", "--wait"],
    &["aether", "new", "log", "--ring", "1024"],
];

#[test]
fn refuses_other_options_of_run(rt: HostRuntime) -> Result<(), Fail> {
    for words in NO_RUNS {
        refuses(&rt, words)?;
    }
    Ok(())
}

const NO_COMMANDS: &[&[&str]] = &[
    &[],
    &["aether"],
    &["recover"],
    &["aether", "new"],
    &["aether", "new", "a.log", "b.log"],
    &["aether", "new", "-x"],
    &["aether", "new", "--x"],
    &["aether", "new", "--help"],
    &["aether", "new", "-h"],
    &["aether", "new", "a.log", "--help"],
    &["aether", "recover", "a.log"],
    &["aether", "recover", "recover"],
    &["aether", "recover", "--help"],
    &["aether", "dump", "a.log"],
    &["aether", "dump", "recover"],
    &["aether", "recover", "dump"],
    &["aether", "dump", "--help"],
    &["aether", "--", "recover"],
    &["aether", "--help"],
    &["aether", "-h"],
    &["aether", "help"],
    &["aether", "help", "new"],
    &["aether", "--version"],
    &["aether", "-V"],
    &["aether", "move", "a.log"],
    &["aether", "recove"],
];

#[test]
fn refuses_other_words(rt: HostRuntime) -> Result<(), Fail> {
    for words in NO_COMMANDS {
        refuses(&rt, words)?;
    }
    Ok(())
}
