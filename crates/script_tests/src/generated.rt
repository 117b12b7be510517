//! Generated transfers, beside those that were reckoned by hand.

use std::alloc::AllocGlobal;
use std::process::Abort;
use std::test::Fail;
use txn_script::{Job, Leg, Script, make};

fn script_of<R: AllocGlobal>(rt: &R, n: u32, seed: u32) -> Result<Script, Fail> {
    make(rt.alloc(), n, seed).map_err(|_| Fail::new("no memory"))
}

/// The script of this seed has so many transfers.
fn is_count(rt: &impl Abort, seed: u32, found: u64, count: u64) {
    assert_eq!(rt; found, count, "{seed}");
}

/// The transfer of this seed has this leg alone, and no note.
fn is_noteless(rt: &impl Abort, seed: u32, job: &Job, leg: (u32, u32, u32)) {
    let found = (job.legs.as_slice(), job.note.is_none());
    assert_eq!(rt; found, ([Leg::from(leg)].as_slice(), true), "{seed}");
}

/// The first transfers of this seed, so many, have these legs.
fn makes<R: AllocGlobal + Abort>(
    rt: &R,
    seed: u32,
    n: u32,
    legs: &[(u32, u32, u32)],
) -> Result<(), Fail> {
    let script = script_of(rt, n, seed)?;
    is_count(rt, seed, script.count(), legs.len() as u64);
    for (place, leg) in legs.iter().enumerate() {
        if (place as u64) < script.count() {
            is_noteless(rt, seed, &script.job(place as u64), *leg);
        }
    }
    Ok(())
}

const MADE: &[(u32, u32, &[(u32, u32, u32)])] = &[
    (7, 3, &[(23, 33, 1), (7, 18, 2), (36, 42, 8)]),
    (7, 0, &[]),
    // The number 65536 follows itself.
    (65536, 2, &[(0, 17, 8), (0, 17, 8)]),
    (0, 1, &[(10, 12, 1)]),
];

#[test]
fn makes_the_same_transfers_each_time(rt: HostRuntime) -> Result<(), Fail> {
    for (seed, n, legs) in MADE {
        makes(&rt, *seed, *n, legs)?;
    }
    Ok(())
}

/// The mix of the balances behind these transfers, where each of 64 accounts begins with 1000000: the sum of each account's
/// number and 1, times its balance.
fn mix_of(script: &Script) -> u64 {
    let mut given = 0u64;
    let mut taken = 0u64;
    for place in 0..script.count() {
        let job = script.job(place);
        for leg in job.legs.as_slice() {
            taken = taken.saturating_add((leg.payer as u64).saturating_mul(leg.amount as u64));
            given = given.saturating_add((leg.payee as u64).saturating_mul(leg.amount as u64));
        }
    }
    2_080_000_000u64.saturating_add(given).saturating_sub(taken)
}

/// So many transfers of seed 7 have this mix.
fn has_mix<R: AllocGlobal + Abort>(rt: &R, n: u32, mix: u64) -> Result<(), Fail> {
    let script = script_of(rt, n, 7)?;
    assert_eq!(rt; (script.count(), mix_of(&script)), (n as u64, mix));
    Ok(())
}

#[test]
fn makes_transfers_of_a_known_mix(rt: HostRuntime) -> Result<(), Fail> {
    has_mix(&rt, 0, 2_080_000_000)?;
    has_mix(&rt, 3, 2_080_000_080)?;
    has_mix(&rt, 5000, 2_079_991_273)
}

#[test]
fn makes_a_hundred_thousand_transfers(rt: HostRuntime) -> Result<(), Fail> {
    let script = script_of(&rt, 100_000, 65536)?;
    is_count(&rt, 65536, script.count(), 100_000);
    Ok(())
}
