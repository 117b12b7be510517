//! Transfers of a worker alone between accounts near the greatest balance.
use crate::alone::Line;
use crate::worker_tests::makes_all;
use lsn_space::MOST_BALANCE;
use std::test::Fail;
use txn_runner::Answer;

/// What two accounts begin with, the script, its rows, and what they have then.
type Made = ((u64, u64), &'static [u8], &'static [Line], (u64, u64));

const NEAR: &[Made] = &[
    // A balance may go above 2147483647, which is the most that a leg moves.
    (
        (100, 2147483647),
        b"pay 0 1 1\n",
        &[(1, Answer::Done, 9, 4)],
        (99, 2147483648),
    ),
    (
        (100, MOST_BALANCE),
        b"pay 0 1 1\npay 1 0 2147483647\npay 1 0 2147483647\npay 0 1 2147483647\n",
        &[
            (1, Answer::Over(1), 5, 4),
            (2, Answer::Done, 10, 4),
            (3, Answer::Done, 15, 4),
            (4, Answer::Done, 20, 4),
        ],
        (2147483747, 4611686016279904256),
    ),
    // Of a balance that has 5 in its lower half, 10 can be paid.
    (
        (4294967301, 0),
        b"pay 0 1 10\n",
        &[(1, Answer::Done, 9, 4)],
        (4294967291, 10),
    ),
    (
        (MOST_BALANCE - 1, 100),
        b"pay 1 0 1 1 0 1\n",
        &[(1, Answer::Over(2), 9, 4)],
        (MOST_BALANCE - 1, 100),
    ),
    // There and back, account 0 would be overfilled between the legs; back and there it isn't.
    (
        (MOST_BALANCE, 100),
        b"pay 1 0 5 0 1 5\npay 0 1 5 1 0 5\n",
        &[(1, Answer::Over(1), 5, 4), (2, Answer::Done, 14, 4)],
        (MOST_BALANCE, 100),
    ),
];

#[test]
fn a_worker_alone_goes_up_to_the_greatest_balance(rt: HostRuntime) -> Result<(), Fail> {
    for (balances, script, lines, left) in NEAR {
        makes_all(&rt, rt.alloc(), *balances, script, lines, *left)?;
    }
    Ok(())
}
