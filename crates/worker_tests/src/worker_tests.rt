//! A worker alone, and two one after the other, over a table that nobody flushes.
use crate::alone::{Given, Line, has_ended, has_left, has_rows, run_alone, run_two, work_alone};
use lsn_space::{LAST, Lsn, MOST_BALANCE};
use run_rig::{enlisted, jobs_of};
use std::alloc::Global;
use std::process::Abort;
use std::sync::Wait;
use std::test::Fail;
use test_rig::{table_of, worker};
use txn_runner::{Answer, Cause, Relief, Rows, Worked, YieldRelief};

/// Where the log of two accounts ends.
const GENESIS_END: u32 = 4;

/// A worker alone makes the whole script, with these rows, and leaves these balances.
pub(crate) fn makes_all<R: Wait + Abort>(
    rt: &R,
    alloc: Global,
    balances: (u64, u64),
    script: &[u8],
    lines: &[Line],
    left: (u64, u64),
) -> Result<(), Fail> {
    assert!(rt; balances.0 <= MOST_BALANCE && balances.1 <= MOST_BALANCE);
    let given = (script, GENESIS_END);
    let (worked, rows, balances) = run_alone(rt, alloc, given, balances)?;
    has_ended(rt, given, worked, Worked::All);
    has_rows(rt, given, &rows, lines);
    has_left(rt, given, balances, left);
    Ok(())
}

const MADE: &[((u64, u64), &[u8], &[Line], (u64, u64))] = &[
    (
        (100, 0),
        b"pay 0 1 30\n",
        &[(1, Answer::Done, 9, GENESIS_END)],
        (70, 30),
    ),
    (
        (100, 0),
        b"pay 0 1 30\n\npay 1 0 30\n",
        &[
            (1, Answer::Done, 9, GENESIS_END),
            (2, Answer::Done, 14, GENESIS_END),
        ],
        (100, 0),
    ),
    (
        (100, 0),
        b"pay 0 1 500\n",
        &[(1, Answer::Short(1), 5, GENESIS_END)],
        (100, 0),
    ),
    (
        (100, 0),
        b"pay 0 1 60 1 0 200\n",
        &[(1, Answer::Short(2), 9, GENESIS_END)],
        (100, 0),
    ),
    (
        (100, 0),
        b"pay 0 1 60 1 0 20\n",
        &[(1, Answer::Done, 13, GENESIS_END)],
        (60, 40),
    ),
    (
        (100, MOST_BALANCE),
        b"pay 0 1 1\n",
        &[(1, Answer::Over(1), 5, GENESIS_END)],
        (100, MOST_BALANCE),
    ),
    ((100, 0), b"", &[], (100, 0)),
];

/// The longest note.
const NOTE: [u8; 200] = [b'x'; 200];

#[test]
fn a_worker_alone_makes_each_transfer(rt: HostRuntime) -> Result<(), Fail> {
    for (balances, script, lines, left) in MADE {
        makes_all(&rt, rt.alloc(), *balances, script, lines, *left)?;
    }
    let mut noted = Vec::from_slice(rt.alloc(), b"pay 0 1 30 : ")?;
    noted.extend_from_slice(&NOTE)?;
    makes_all(
        &rt,
        rt.alloc(),
        (100, 0),
        noted.as_slice(),
        &[(1, Answer::Done, 35, GENESIS_END)],
        (70, 30),
    )
}

const FIRST_ROWS: &[Line] = &[
    (1, Answer::Done, 9, GENESIS_END),
    (2, Answer::Short(1), 10, GENESIS_END),
    (3, Answer::Done, 15, GENESIS_END),
];

#[test]
fn the_first_of_two_workers_leaves_the_second_its_mark(rt: HostRuntime) -> Result<(), Fail> {
    let given: Given = (b"pay 0 1 30\npay 0 1 80\npay 1 0 10\n", GENESIS_END);
    let ((first, first_rows), (second, second_rows), balances) = run_two(&rt, rt.alloc(), given)?;
    has_ended(&rt, given, first, Worked::All);
    has_ended(&rt, given, second, Worked::All);
    has_rows(&rt, given, &first_rows, FIRST_ROWS);
    has_rows(&rt, given, &second_rows, &[]);
    has_left(&rt, given, balances, (80, 20));
    Ok(())
}

#[test]
fn a_stopped_log_cuts_the_first_transfer_off(rt: HostRuntime) -> Result<(), Fail> {
    let given: Given = (b"pay 0 1 30\n", GENESIS_END);
    let (table, mut flusher_seat) = table_of(rt.alloc(), (100, 0), given.1)?;
    let seat = worker(&table, &mut flusher_seat, 0, 1);
    let Some(mut jobs) = jobs_of(&rt, rt.alloc(), given.0, 1) else {
        return Err(Fail::new("no script"));
    };
    let mut rows = enlisted(rt.alloc(), &mut jobs, 0)?;
    table.store_stop(&mut flusher_seat, 2);
    let (worked, _) = work_alone(&rt, &table, seat, jobs.queue(), &mut rows);
    has_ended(&rt, given, worked, Worked::Cut(Cause::Stop(2)));
    has_rows(&rt, given, &rows, &[]);
    Ok(())
}

/// Where the log ends, and then the tail and the units that the first transfer finds no place for.
const LOG_ENDS: &[(u32, u32, u32)] = &[
    (LAST, LAST, 2),
    (LAST - 3, LAST - 1, 2),
    (LAST - 4, LAST, 1),
];

/// Over a log that ends here, the first transfer is cut off at this tail, where so many units have no place.
fn cuts_off<R: Wait + Abort>(
    rt: &R,
    alloc: Global,
    end: u32,
    tail: u32,
    total: u32,
) -> Result<(), Fail> {
    let given: Given = (b"pay 0 1 30\npay 0 1 20\n", end);
    let (worked, rows, balances) = run_alone(rt, alloc, given, (100, 0))?;
    let tail = Lsn::new(tail);
    has_ended(
        rt,
        given,
        worked,
        Worked::Cut(Cause::LogEnd { tail, total }),
    );
    has_rows(rt, given, &rows, &[]);
    has_left(rt, given, balances, (100, 0));
    Ok(())
}

#[test]
fn the_end_of_the_log_cuts_a_transfer_off(rt: HostRuntime) -> Result<(), Fail> {
    for (end, tail, total) in LOG_ENDS {
        cuts_off(&rt, rt.alloc(), *end, *tail, *total)?;
    }
    Ok(())
}

/// Rests twice, through the bound.
fn rest_twice<Q: Relief>(relief: &mut Q)
    requires { Q.ready relief.old }
    ensures { Q.later relief.old relief.new }
{
    relief.rest();
    relief.rest();
}

#[test]
fn a_relief_rests(rt: HostRuntime) {
    rest_twice(&mut YieldRelief::new(&rt));
}

#[test]
fn there_is_room_for_jobs_and_rows(rt: HostRuntime) -> Result<(), Fail> {
    let Some(mut jobs) = jobs_of(&rt, rt.alloc(), b"pay 0 1 30\n\npay 1 0 5\n", 2) else {
        return Err(Fail::new("no script"));
    };
    assert_eq!(rt; jobs.count(), 2);
    let mut rows = Rows::make(rt.alloc(), 1000)?;
    jobs.enlist(rt.alloc(), &mut rows)?;
    assert_eq!(rt; rows.as_slice().len(), 0);
    Ok(())
}
