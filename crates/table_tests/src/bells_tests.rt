//! Each store that a thread may wait for wakes who announced its wait before, also who doesn't sleep yet. Without the ring a wait here would
//! never end.
use crate::found::{is_at, is_number};
use early_locks::{give, try_take};
use std::test::Fail;
use test_rig::{job_of, table_of, worker};

#[test]
fn durable_is_rung_for(rt: HostRuntime) -> Result<(), Fail> {
    let (table, mut flusher_seat) = table_of(rt.alloc(), (100, 0), 4)?;
    let exposed = table.load_exposed(&mut flusher_seat);
    let durable = table.load_durable(&mut flusher_seat);
    is_at(&rt, "durable", durable, 4);
    let (key, other) = (table.listen(), table.listen());
    if exposed == durable {
        table.store_durable(&mut flusher_seat, exposed);
    }
    key.wait(&rt);
    other.wait(&rt);
    Ok(())
}

#[test]
fn stop_is_rung_for_at_each_bell(rt: HostRuntime) -> Result<(), Fail> {
    let (table, mut flusher_seat) = table_of(rt.alloc(), (100, 0), 4)?;
    let key = table.listen();
    let (first, second) = (table.listen_account(0), table.listen_account(1));
    let last = table.listen_account(4095);
    table.store_stop(&mut flusher_seat, 2);
    key.wait(&rt);
    first.wait(&rt);
    second.wait(&rt);
    last.wait(&rt);
    let stop = table.load_stop(&mut flusher_seat);
    is_number(&rt, "stop", stop, 2);
    Ok(())
}

#[test]
fn an_account_is_rung_for(rt: HostRuntime) -> Result<(), Fail> {
    let (table, mut flusher_seat) = table_of(rt.alloc(), (100, 0), 4)?;
    let mut seat = worker(&table, &mut flusher_seat, 0, 1);
    table.take_job(&mut seat, 1, &job_of(30));
    let Ok(taken) = try_take(&table, &mut seat, 0) else {
        return Err(Fail::new("the account was held"));
    };
    let key = table.listen_account(0);
    let (balance, mark) = (taken.balance, taken.mark);
    give(&table, &mut seat, taken, balance, mark);
    key.wait(&rt);
    Ok(())
}
