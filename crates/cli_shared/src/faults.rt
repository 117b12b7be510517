//! The line that tells why the program ends.

ghost use Rattle.std.specs.Prelude.{◌≡◌, ◌≤◌, ◌++◌, length, codes, OnOk, OnErr};
ghost use Rattle.std.specs.Io.KnownBytes.{Appends};
ghost use Rattle.lsn_space.specs.Number.{number_text};
ghost use Rattle.log_disk.specs.Faults.{HasCause};
ghost use Rattle.log_disk.specs.Streams.{AppendsPart};
ghost use Rattle.cli_shared.specs.FaultText.{fault_line, why_text};

use crate::report::{Detail, Report};
use arrayvec::ArrayVec;
use log_disk::{Sink, WriteFault, put_all};
use log_recovery::Why;
use lsn_space::decimal;

/// Room for the longest line, which is the usage line.
type Line = ArrayVec<u8, 256>;

const USAGE: &[u8] =
    b"usage: aether new LOG | run LOG [--workers N] [--ring R] [--slots K] [--wait] | recover | dump \
    | demo LOG N SEED [--workers N] [--ring R] [--slots K] | cut LOG | upgrade LOG | ship FROM | follow LOG | asof LSN \
    | statement ACCOUNT\n";

fn text(bytes: &[u8]) -> Line
    requires { length bytes.now ≤ 256 }
    ensures { result.items ≡ bytes.now }
{
    let mut line = ArrayVec::new();
    line.try_extend_from_slice(bytes).unwrap();
    line
}

/// A number between two texts.
fn numbered(before: &[u8], number: u64, after: &[u8]) -> Line
    requires before { length before.now ≤ 40 }
    requires after { length after.now ≤ 20 }
    ensures { result.items ≡ before.now ++ number_text number ++ after.now }
{
    let mut line = ArrayVec::new();
    line.try_extend_from_slice(before).unwrap();
    line.try_extend_from_slice(decimal(number).as_slice())
        .unwrap();
    line.try_extend_from_slice(after).unwrap();
    line
}

/// Two numbers, each behind a text, to the end of the line.
fn two_numbered(before: &[u8], number: u64, between: &[u8], other: u64) -> Line
    requires before { length before.now ≤ 40 }
    requires between { length between.now ≤ 20 }
    ensures { result.items ≡ before.now ++ number_text number ++ (between.now ++ number_text other ++ codes "\n") }
{
    let mut line = ArrayVec::new();
    line.try_extend_from_slice(before).unwrap();
    line.try_extend_from_slice(decimal(number).as_slice())
        .unwrap();
    line.try_extend_from_slice(between).unwrap();
    line.try_extend_from_slice(decimal(other).as_slice())
        .unwrap();
    line.push(b'\n');
    line
}

/// The word for the test that a record failed, to the end of the line.
fn reason(why: Why) -> &'static [u8]
    ensures text { result.now ≡ codes ": " ++ why_text why ++ codes "\n" }
    ensures short { length result.now ≤ 20 }
{
    match why {
        Why::Genesis => b": genesis\n",
        Why::Account => b": account\n",
        Why::Ended => b": ended\n",
        Why::Legs => b": legs\n",
        Why::Pair => b": pair\n",
        Why::Prev => b": prev\n",
        Why::Stale => b": stale\n",
        Why::Balance => b": balance\n",
    }
}

/// The line that says why the program ends, nothing where all is fine.
fn line_of(detail: Detail) -> Line
    ensures { result.items ≡ fault_line detail }
{
    match detail {
        Detail::Fine => text(b""),
        Detail::NoMemory => text(b"aether: out of memory\n"),
        Detail::Usage => text(USAGE),
        Detail::Script { line } => numbered(b"aether: line ", line, b" refused\n"),
        Detail::Read => text(b"aether: read failed\n"),
        Detail::Write => text(b"aether: write failed\n"),
        Detail::Disk => text(b"aether: disk failed\n"),
        Detail::NotALog => text(b"aether: not a log\n"),
        Detail::BadSnapshot => text(b"aether: bad snapshot\n"),
        Detail::BadBatch { offset } => numbered(b"aether: bad batch at byte ", offset, b"\n"),
        Detail::BadRec { lsn } => {
            numbered(b"aether: bad record at lsn ", lsn.units() as u64, b"\n")
        }
        Detail::Unlawful { lsn, why } => {
            let before = b"aether: unlawful record at lsn ";
            numbered(before, lsn.units() as u64, reason(why))
        }
        Detail::LogEnd { tail, total } => {
            let before = b"aether: log end: tail ";
            two_numbered(before, tail.units() as u64, b", total ", total as u64)
        }
        Detail::TxnEnd { first, count } => {
            let before = b"aether: transaction numbers end: first ";
            two_numbered(before, first, b", count ", count)
        }
        Detail::Exists => text(b"aether: log exists\n"),
        Detail::BadStream { offset } => numbered(b"aether: bad stream at byte ", offset, b"\n"),
        Detail::Gap { have, from } => {
            let before = b"aether: stream from lsn ";
            two_numbered(
                before,
                from.units() as u64,
                b", log ends at ",
                have.units() as u64,
            )
        }
        Detail::NoSuchLsn { lsn } => {
            let before = b"aether: no record boundary at lsn ";
            numbered(before, lsn.units() as u64, b"\n")
        }
        Detail::StreamUnlawful { lsn, why } => {
            let before = b"aether: unlawful stream record at lsn ";
            numbered(before, lsn.units() as u64, reason(why))
        }
        Detail::NoAccount { account } => { numbered(b"aether: no account ", account as u64, b"\n") }
    }
}

/// Writes the line that says why the program ends, or a part of it at a fault.
pub fn put_fault<K: Sink>(report: &Report, sink: &mut K) -> Result<(), WriteFault>
    ensures all { OnOk result (Appends (K.held_bytes sink.old) (K.held_bytes sink.new) (fault_line report.now.detail)) }
    ensures prefix { OnErr result (AppendsPart (K.held_bytes sink.old) (K.held_bytes sink.new) (fault_line report.now.detail)) }
    ensures cause { HasCause (K.faults sink.old) (K.faults sink.new) result }
{
    put_all(sink, line_of(report.detail).as_slice())
}
