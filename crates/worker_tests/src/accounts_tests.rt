//! The order in which a transfer takes its accounts.
use arrayvec::ArrayVec;
use lock_core::{Job, Leg, Legs};
use log_record::MOST_LEGS;
use std::process::Abort;
use txn_runner::{MOST_PARTIES, list_accounts};

const CASES: &[(&[(u32, u32, u32)], &[u32])] = &[
    (&[(0, 1, 30)], &[0, 1]),
    (&[(4095, 0, 1)], &[0, 4095]),
    (&[(0, 1, 60), (1, 0, 20)], &[0, 1]),
    (
        &[(5, 2, 1), (2, 7, 3), (5, 7, 1), (0, 9, 1)],
        &[0, 2, 5, 7, 9],
    ),
];

/// A transfer of these legs takes these accounts, in this order, whatever the list held before.
fn takes(
    rt: &impl Abort,
    list: &[(u32, u32, u32)],
    accounts: &mut ArrayVec<u32, MOST_PARTIES>,
    wanted: &[u32],
) {
    let mut legs = Legs::new();
    for leg in list {
        assert!(rt; legs.as_slice().len() < usize::from(MOST_LEGS));
        legs.push(Leg::from(*leg));
    }
    list_accounts(&Job { legs, note: None }, accounts);
    assert_eq!(rt; accounts.as_slice(), wanted, "{list:?}");
}

#[test]
fn each_account_stands_once_and_in_order(rt: HostRuntime) {
    let mut accounts = ArrayVec::new();
    for (list, wanted) in CASES {
        takes(&rt, list, &mut accounts, wanted);
    }
}
