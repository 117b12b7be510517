//! What workers of `run` do beside one another, told by gates that hold one of them.

use crate::ends::{Ended, ends_in, is_one_of};
use crate::gates::{BothLook, LongOneWaits, OneWaits};
use crate::scripts::{has_done_all, lines};
use cli_rig::{End, Given, has_ended, made, run_on};
use std::alloc::AllocGlobal;
use std::process::Abort;
use std::sync::Wait;
use std::test::Fail;
use std::thread::Threads;
use std::time::Clock;

/// What two transfers on four accounts tell, in either order.
const EITHER: &[&[u8]] = &[
    b"done 1 13\ndone 2 18\nlsn 18\n0 90\n1 10\n2 80\n3 20\n",
    b"done 2 13\ndone 1 18\nlsn 18\n0 90\n1 10\n2 80\n3 20\n",
];

/// Two transfers on four accounts are done, where the worker that takes one first is held until another has ended one.
fn two_overlap<R: Threads + Wait + Clock + Sync + AllocGlobal + Abort>(
    rt: &R,
    words: &[&str],
) -> Result<(), Fail> {
    let mut answer = made(rt, b"100\n0\n100\n0\n")?;
    let gate = OneWaits::new();
    let given = Given {
        input: b"pay 0 1 10\npay 2 3 20\n",
        ..Given::words(words)
    };
    run_on(rt, &given, &mut answer, &gate)?;
    gate.has_held_one(rt, 2);
    has_ended(&given, &answer, &End::Fine)?;
    is_one_of(rt, answer.text.bytes(), EITHER);
    Ok(())
}

const CREWS: &[&[&str]] = &[
    &["aether", "run", "bank.log"],
    &["aether", "run", "bank.log", "--workers", "4"],
    &["aether", "run", "bank.log", "--workers", "16"],
];

#[test]
fn workers_overlap(rt: HostRuntime) -> Result<(), Fail> {
    for words in CREWS {
        two_overlap(&rt, words)?;
    }
    Ok(())
}

const FOUR_PAIRS: &[u8] = b"pay 0 1 10\npay 2 3 20\npay 4 5 30\npay 6 7 40\n";

const FOUR_PAID: &[u8] = b"\nlsn 36\n0 90\n1 10\n2 80\n3 20\n4 70\n5 30\n6 60\n7 40\n";

#[test]
fn four_workers_overlap(rt: HostRuntime) -> Result<(), Fail> {
    let mut answer = made(&rt, b"100\n0\n100\n0\n100\n0\n100\n0\n")?;
    let gate = OneWaits::new();
    let given = Given {
        input: FOUR_PAIRS,
        ..Given::words(&["aether", "run", "bank.log", "--workers", "4"])
    };
    run_on(&rt, &given, &mut answer, &gate)?;
    gate.has_held_one(&rt, 4);
    has_done_all(&rt, &given, &answer, 4, FOUR_PAID)
}

/// How many short transfers there are behind the long one.
const SHORT_ONES: u32 = 20;

const LONG_ONE: &[u8] = b"pay 2 3 1 4 5 1 6 7 1 8 9 1 10 11 1 12 13 1 14 15 1 16 17 1\n";

/// The first transfer ended last, of 33 units, and each of the twenty others in its turn before it, of five. The log of 18 accounts ends
/// at 36.
fn ends_last(rt: &impl Abort, ends: &[Ended]) {
    let mut txn = 1;
    for ended in ends {
        let (next, end) = if txn > SHORT_ONES {
            (1, 169)
        } else {
            (txn + 1, 36 + 5 * txn)
        };
        assert!(rt;
            *ended == (next, end),
            "{ended:?} in the place of {next} {end}"
        );
        txn = next;
    }
    let count = ends.len();
    assert!(rt; count == SHORT_ONES as usize + 1, "{count} ended");
}

/// One worker is held over the first transfer of the script until the other has made all that stand behind it.
#[test]
fn a_long_transfer_holds_up_no_other(rt: HostRuntime) -> Result<(), Fail> {
    let mut answer = made(&rt, lines(&rt, b"100\n", 18)?.as_slice())?;
    let mut script = Vec::from_slice(rt.alloc(), LONG_ONE)?;
    script.extend_from_slice(lines(&rt, b"pay 0 1 1\n", SHORT_ONES)?.as_slice())?;
    let gate = LongOneWaits::until(SHORT_ONES);
    let given = Given {
        input: script.as_slice(),
        ..Given::words(&["aether", "run", "bank.log", "--workers", "2"])
    };
    run_on(&rt, &given, &mut answer, &gate)?;
    gate.has_held_one(&rt);
    has_ended(&given, &answer, &End::Fine)?;
    let ends = ends_in(rt.alloc(), answer.text.bytes())?;
    ends_last(&rt, ends.as_slice());
    Ok(())
}

/// What two transfers may tell that meet at the tail: the first to end has none, one or two Updates of the other before its
/// Commit.
const EITHER_FIRST: &[&[u8]] = &[
    b"done 1 13\ndone 2 18\nlsn 18\n0 70\n1 30\n2 60\n3 40\n",
    b"done 1 15\ndone 2 18\nlsn 18\n0 70\n1 30\n2 60\n3 40\n",
    b"done 1 17\ndone 2 18\nlsn 18\n0 70\n1 30\n2 60\n3 40\n",
    b"done 2 13\ndone 1 18\nlsn 18\n0 70\n1 30\n2 60\n3 40\n",
    b"done 2 15\ndone 1 18\nlsn 18\n0 70\n1 30\n2 60\n3 40\n",
    b"done 2 17\ndone 1 18\nlsn 18\n0 70\n1 30\n2 60\n3 40\n",
];

/// Both looks show the same tail, so one of the exchanges is lost, and whoever lost it joins a group.
#[test]
fn group_forms(rt: HostRuntime) -> Result<(), Fail> {
    let mut answer = made(&rt, b"100\n0\n100\n0\n")?;
    let gate = BothLook::new();
    let given = Given {
        input: b"pay 0 1 30\npay 2 3 40\n",
        ..Given::words(&["aether", "run", "bank.log", "--workers", "2"])
    };
    run_on(&rt, &given, &mut answer, &gate)?;
    gate.have_met(&rt);
    has_ended(&given, &answer, &End::Fine)?;
    is_one_of(&rt, answer.text.bytes(), EITHER_FIRST);
    Ok(())
}
