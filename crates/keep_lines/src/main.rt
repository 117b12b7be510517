//! A program over records of one's own: `keep_lines keep LOG` keeps the lines of standard input, and prints each once it is kept;
//! `keep_lines kept < LOG` prints all that are.
#![tactic(auto)]

use log_disk::LogDisk;
use lsn_space::Word;
use own_records::{AppendFault, MOST_BYTES, OpenFault, RecordsFault, append, open, records_in};
use std::io::{Read, Write};
use std::process::ExitCode;
use std::{env, io};
use system_disk::FileDisk;

const DISK: &str = "disk failed";

const MEMORY: &str = "out of memory";

const OUTPUT: &str = "write failed";

const INPUT: &str = "read failed";

/// Keeps each line and then prints it.
fn keep(rt: HostRuntime, log: &Word) -> Result<(), &'static str> {
    let mut disk = FileDisk::make(rt);
    disk.attach(log, true).map_err(|_| DISK)?;
    let mut end = open(rt.alloc(), &mut disk).map_err(why_not_opened)?;
    for line in rt.lines(rt.alloc()) {
        let line = line.map_err(|_| INPUT)?;
        if line.is_empty() || line.len() > MOST_BYTES as usize {
            return Err("a line has 1 to 65536 bytes");
        }
        end = append(rt.alloc(), &mut disk, end, line.as_bytes()).map_err(why_not_kept)?;
        println!(rt; "{line}").map_err(|_| OUTPUT)?;
    }
    Ok(())
}

/// Prints the lines that are kept in the file on standard input.
fn print_kept(rt: HostRuntime) -> Result<(), &'static str> {
    let mut bytes = Vec::new(rt.alloc());
    rt.reader().read_to_end(&mut bytes).map_err(|_| INPUT)?;
    let records = records_in(rt.alloc(), bytes.as_slice()).map_err(why_not_read)?;
    let mut out = io::writer(&rt);
    for record in records.as_slice() {
        out.write_all(record.text()).map_err(|_| OUTPUT)?;
        out.write_all(b"\n").map_err(|_| OUTPUT)?;
    }
    Ok(())
}

fn why_not_opened(fault: OpenFault) -> &'static str {
    match fault {
        OpenFault::Disk => DISK,
        OpenFault::NotRecords => "not a file of records",
        OpenFault::BadRecord => "bad record",
        OpenFault::NoMemory => MEMORY,
    }
}

fn why_not_read(fault: RecordsFault) -> &'static str {
    why_not_opened(OpenFault::from(fault))
}

fn why_not_kept(fault: AppendFault) -> &'static str {
    match fault {
        AppendFault::Disk => DISK,
        AppendFault::Full => "the file is full",
        AppendFault::NoMemory => MEMORY,
    }
}

fn main(rt: HostRuntime) -> ExitCode {
    let Ok(args) = env::args(&rt) else {
        return ExitCode::from(2);
    };
    let Ok(words) = Word::each(rt.alloc(), args) else {
        return ExitCode::from(1);
    };
    let done = match words.as_slice() {
        [_, command, log] if command.text() == "keep" => keep(rt, log),
        [_, command] if command.text() == "kept" => print_kept(rt),
        _ => Err("usage: keep_lines keep LOG | kept"),
    };
    let Err(why) = done else {
        return ExitCode::SUCCESS;
    };
    // Nobody is left to tell that the line itself could not be written.
    let _ = eprintln!(rt; "keep_lines: {why}");
    ExitCode::from(1)
}
