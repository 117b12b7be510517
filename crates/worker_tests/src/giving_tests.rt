//! When the accounts of a transfer go back: early, or once its end is durable; and the log's end.
ghost use Rattle.std.specs.Prelude.{◌≡◌, ◌<◌, ◌+◌, [], ℕ, IfOk};
ghost use Rattle.log_table.specs.HiredWorkers.{HasHired};
ghost use Rattle.log_rule.specs.May.{IsAtRest, HasBegunNothing, Ascends};
ghost use Rattle.log_table.specs.Seats.{IsOf, view_of};

use crate::alone::{Given, has_ended, has_rows, run_two, work_alone};
use crossbeam_utils::sync::Key;
use log_table::{LogTable, Seat};
use lsn_space::{LAST, Lsn};
use run_rig::{enlisted, jobs_of, work_queue};
use schedule_hook::OpenGate;
use std::alloc::Global;
use std::process::Abort;
use std::sync::Wait;
use std::test::Fail;
use test_rig::{job_of, send_all, table_of, values_of, worker};
use txn_runner::{Answer, Cause, Made, Relief, Rows, Worked};

/// Another worker, the second, which took a job and no account yet.
fn looker(table: &LogTable, flusher_seat: &mut Seat) -> Seat
    requires accounts { table.now.accounts ≡ 2 }
    requires flusher_seat { HasHired table.now 1 flusher_seat.old }
    ensures flusher_seat { HasHired table.now 2 flusher_seat.new }
    ensures seat { IsOf table.now result }
    ensures rests { IsAtRest (view_of result) }
    ensures begins { HasBegunNothing (view_of result) }
    ensures none_held { (view_of result).books.held ≡ [] }
{
    let mut seat = worker(table, flusher_seat, 1, 9);
    table.take_job(&mut seat, 9, &job_of(30));
    seat
}

/// A table behind a worker that made this script, the seat of the looker, how the worker ended, and its rows.
type Ran = (LogTable, Seat, Worked, Rows);

/// A worker alone makes the script over balances 100 and 0, beside a looker.
fn run_beside<R: Wait + Abort>(rt: &R, alloc: Global, given: Given) -> Result<Ran, Fail>
    ensures accounts { IfOk result (λ ran. ran.0.accounts ≡ 2) }
    ensures seat { IfOk result (λ ran. IsOf ran.0 ran.1) }
    ensures rests { IfOk result (λ ran. IsAtRest (view_of ran.1)) }
    ensures begins { IfOk result (λ ran. HasBegunNothing (view_of ran.1)) }
    ensures none_held { IfOk result (λ ran. (view_of ran.1).books.held ≡ []) }
{
    let (script, end) = given;
    let (table, mut flusher_seat) = table_of(alloc, (100, 0), end)?;
    let seat = worker(&table, &mut flusher_seat, 0, 1);
    let looker = looker(&table, &mut flusher_seat);
    let Some(mut jobs) = jobs_of(rt, alloc, script, 1) else {
        return Err(Fail::new("no script"));
    };
    let mut rows = enlisted(alloc, &mut jobs, 0)?;
    let (worked, _) = work_alone(rt, &table, seat, jobs.queue(), &mut rows);
    Ok((table, looker, worked, rows))
}

/// Another worker finds the account free, with this balance and this last commit, and takes it.
fn finds(rt: &impl Abort, table: &LogTable, looker: &mut Seat, account: u32, values: (u64, u32))
    requires account { account < table.now.accounts }
    requires seat { IsOf table.now looker.old }
    requires rests { IsAtRest (view_of looker.old) }
    requires begins { HasBegunNothing (view_of looker.old) }
    requires ascends { Ascends account (view_of looker.old).books }
    ensures seat { IsOf table.now looker.new }
    ensures rests { IsAtRest (view_of looker.new) }
    ensures begins { HasBegunNothing (view_of looker.new) }
    ensures ascends { (next : ℕ) → account < next → Ascends next (view_of looker.new).books }
{
    let found = values_of(table, looker, account);
    assert_eq!(rt; found, Ok(values), "account {account}");
}

/// What was read of the log stands at this LSN.
fn stands_at(rt: &impl Abort, lsn: Lsn, wanted: u32) {
    assert_eq!(rt; lsn.units(), wanted);
}

#[test]
fn accounts_are_given_back_before_durable(rt: HostRuntime) -> Result<(), Fail> {
    let given: Given = (b"pay 0 1 30\n", 4);
    let (table, mut looker, worked, rows) = run_beside(&rt, rt.alloc(), given)?;
    has_ended(&rt, given, worked, Worked::All);
    has_rows(&rt, given, &rows, &[(1, Answer::Done, 9, 4)]);
    finds(&rt, &table, &mut looker, 0, (70, 9));
    finds(&rt, &table, &mut looker, 1, (30, 9));
    stands_at(&rt, table.load_durable(&mut looker), 4);
    Ok(())
}

/// A relief that tells that all is on the disk, and first looks whether account 0 is held.
#[derive(Drop)]
struct Sending<'a, R> {
    rt: &'a R,
    alloc: Global,
    table: &'a LogTable,
    flusher_seat: Seat,
    from: Lsn,
    looker: Seat,

    /// Whether each rest found it held.
    held: bool,
}

impl<'a, R: Abort> Relief for Sending<'a, R> {
    ghost use Rattle.std.specs.Prelude.{◌≡◌, ◌<◌, [], ⊤};
    ghost use Rattle.log_rule.specs.declared.view.Role.TheVariants.{Flusher};
    ghost use Rattle.log_table.specs.Seats.{IsOf, view_of};
    ghost use Rattle.log_rule.specs.Views.{sent_to};

    ghost ready = { λ relief. IsOf relief.table.now relief.flusher_seat × ((view_of relief.flusher_seat).standing.role ≡ Flusher)
        × ((view_of relief.flusher_seat).sending.read ≡ []) × (sent_to (view_of relief.flusher_seat) ≡ relief.from)
        × IsOf relief.table.now relief.looker × (0 < relief.table.now.accounts) };

    ghost later = { λ old new. ⊤ };

    fn begin(&mut self) {}

    fn rest(&mut self) {
        let table = self.table;
        let word = table.load_account(&mut self.looker, 0);
        self.held = self.held && word.held();
        let from = self.from;
        let sent = send_all(self.alloc, table, &mut self.flusher_seat, from);
        let Ok((_units, to)) = sent else {
            panic!(self.rt; "no memory");
        };
        self.from = to;
    }

    fn is_tired(&self) -> bool {
        false
    }

    fn sleep<W: Wait>(&mut self, _rt: &W, _key: Key<'_>) {
        self.rest();
    }

    fn between(&mut self, _made: Made, _lost: u32) {}

    ghost later_refl = { λ relief. tt };

    ghost later_trans = { λ first mid last before after. tt };
}

#[test]
fn accounts_are_given_back_at_durable(rt: HostRuntime) -> Result<(), Fail> {
    let alloc = rt.alloc();
    let (table, mut flusher_seat) = table_of(alloc, (100, 0), 4)?;
    let mut one = worker(&table, &mut flusher_seat, 0, 1);
    let mut two = looker(&table, &mut flusher_seat);
    let given: Given = (b"pay 0 1 30\n", 4);
    let Some(mut jobs) = jobs_of(&rt, alloc, given.0, 1) else {
        return Err(Fail::new("no script"));
    };
    let mut rows = enlisted(alloc, &mut jobs, 0)?;
    let looker = table.note(&mut two);
    let mut relief = Sending {
        rt: &rt,
        alloc,
        table: &table,
        flusher_seat,
        from: Lsn::new(4),
        looker,
        held: true,
    };
    let worked = work_queue(
        &rt,
        &table,
        &mut one,
        jobs.queue(),
        &mut rows,
        &mut relief,
        true,
        &OpenGate,
    );
    has_ended(&rt, given, worked, Worked::All);
    has_rows(&rt, given, &rows, &[(1, Answer::Done, 9, 9)]);
    assert!(rt;
        relief.held,
        "the accounts went back before the end was durable"
    );
    finds(&rt, &table, &mut two, 0, (70, 9));
    finds(&rt, &table, &mut two, 1, (30, 9));
    stands_at(&rt, table.load_durable(&mut two), 9);
    Ok(())
}

#[test]
fn accounts_of_a_refused_transfer_are_as_before(rt: HostRuntime) -> Result<(), Fail> {
    let given: Given = (b"pay 0 1 500\n", 4);
    let (table, mut looker, _, rows) = run_beside(&rt, rt.alloc(), given)?;
    has_rows(&rt, given, &rows, &[(1, Answer::Short(1), 5, 4)]);
    finds(&rt, &table, &mut looker, 0, (100, 0));
    finds(&rt, &table, &mut looker, 1, (0, 0));
    stands_at(&rt, table.load_tail(&mut looker), 5);
    Ok(())
}

/// There is no place for a Note of two units, which cuts the first worker off, and then one for a Short of one.
#[test]
fn one_unit_has_a_place_where_two_have_none(rt: HostRuntime) -> Result<(), Fail> {
    let given: Given = (b"pay 0 1 30 : aaaaaaaa\npay 0 1 500\n", LAST - 1);
    let ((first, _none), (second, rows), _balances) = run_two(&rt, rt.alloc(), given)?;
    let tail = Lsn::new(LAST - 1);
    has_ended(
        &rt,
        given,
        first,
        Worked::Cut(Cause::LogEnd { tail, total: 2 }),
    );
    has_ended(&rt, given, second, Worked::All);
    has_rows(&rt, given, &rows, &[(2, Answer::Short(1), LAST, LAST - 1)]);
    Ok(())
}
