//! No wake-up is lost: a store that comes between a waiting worker's looks and its sleep ends the sleep.
ghost use Rattle.std.specs.Prelude.{◌≡◌};

use crate::alone::{Given, has_ended, has_rows};
use crossbeam_utils::sync::Key;
use log_table::{LogTable, Seat};
use lsn_space::Lsn;
use run_rig::{enlisted, jobs_of, work_queue};
use schedule_hook::OpenGate;
use std::alloc::Global;
use std::process::Abort;
use std::sync::Wait;
use std::test::Fail;
use test_rig::{send_all, table_of, worker};
use txn_runner::{Answer, Made, Relief, Worked};

/// A relief that is tired at once. Where the worker has looked, and is about to sleep, it tells that all is on the disk; and only then it
/// sleeps.
#[derive(Drop)]
struct Late<'a, R> {
    rt: &'a R,
    alloc: Global,
    table: &'a LogTable,
    flusher_seat: Seat,
    from: Lsn,
    sleeps: u32,
}

impl<'a, R: Abort> Relief for Late<'a, R> {
    ghost use Rattle.std.specs.Prelude.{◌≡◌, [], ⊤};
    ghost use Rattle.log_rule.specs.declared.view.Role.TheVariants.{Flusher};
    ghost use Rattle.log_table.specs.Seats.{IsOf, view_of};
    ghost use Rattle.log_rule.specs.Views.{sent_to};

    ghost ready = { λ relief. IsOf relief.table.now relief.flusher_seat × ((view_of relief.flusher_seat).standing.role ≡ Flusher)
        × ((view_of relief.flusher_seat).sending.read ≡ []) × (sent_to (view_of relief.flusher_seat) ≡ relief.from) };

    ghost later = { λ old new. ⊤ };

    fn begin(&mut self) {}

    fn rest(&mut self) {
        panic!(self.rt; "a tired worker rested");
    }

    fn is_tired(&self) -> bool {
        true
    }

    fn sleep<W: Wait>(&mut self, rt: &W, key: Key<'_>) {
        self.sleeps = self.sleeps.saturating_add(1);
        let from = self.from;
        let sent = send_all(self.alloc, self.table, &mut self.flusher_seat, from);
        let Ok((_units, to)) = sent else {
            panic!(self.rt; "no memory");
        };
        self.from = to;
        key.wait(rt);
    }

    fn between(&mut self, _made: Made, _lost: u32) {}

    ghost later_refl = { λ relief. tt };

    ghost later_trans = { λ first mid last before after. tt };
}

#[test]
fn a_store_behind_the_looks_wakes(rt: HostRuntime) -> Result<(), Fail> {
    let alloc = rt.alloc();
    let (table, mut flusher_seat) = table_of(alloc, (100, 0), 4)?;
    let mut one = worker(&table, &mut flusher_seat, 0, 1);
    let given: Given = (b"pay 0 1 30\npay 1 0 30\n", 4);
    let Some(mut jobs) = jobs_of(&rt, alloc, given.0, 1) else {
        return Err(Fail::new("no script"));
    };
    let mut rows = enlisted(alloc, &mut jobs, 0)?;
    let mut relief = Late {
        rt: &rt,
        alloc,
        table: &table,
        flusher_seat,
        from: Lsn::new(4),
        sleeps: 0,
    };
    let queue = jobs.queue();
    let worked = work_queue(
        &rt,
        &table,
        &mut one,
        queue,
        &mut rows,
        &mut relief,
        true,
        &OpenGate,
    );
    has_ended(&rt, given, worked, Worked::All);
    has_rows(
        &rt,
        given,
        &rows,
        &[(1, Answer::Done, 9, 9), (2, Answer::Done, 14, 14)],
    );
    assert!(rt; relief.sleeps == 2, "{} sleeps", relief.sleeps);
    Ok(())
}
