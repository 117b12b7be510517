//! Texts that are read, and texts that are refused at a line.

use std::alloc::AllocGlobal;
use std::process::Abort;
use std::test::Fail;
use txn_script::{Job, Leg, ParseFault, Script, balances, parse};

/// This is the balance, and no commit, of the account at this place of the text.
fn is_balance(rt: &impl Abort, text: &[u8], found: (u64, u32), balance: u64) {
    assert_eq!(rt; found, (balance, 0), "{text:?}");
}

/// So many were read of this text.
fn is_count(rt: &impl Abort, text: &[u8], found: u64, count: u64) {
    assert_eq!(rt; found, count, "{text:?}");
}

/// The text is read as these balances.
fn reads<R: AllocGlobal + Abort>(rt: &R, text: &[u8], want: &[u64]) -> Result<(), Fail> {
    let Ok(found) = balances(rt.alloc(), text) else {
        return Err(Fail::new("no balances"));
    };
    is_count(rt, text, found.count() as u64, want.len() as u64);
    for (account, balance) in want.iter().enumerate() {
        if account < found.count() as usize {
            is_balance(rt, text, found.at(account as u32), *balance);
        }
    }
    Ok(())
}

const BALANCES: &[(&[u8], &[u64])] = &[
    (b"100\n0\n", &[100, 0]),
    (b"100\n0", &[100, 0]),
    (b"0", &[0]),
    (b"4611686018427387903\n10\n", &[4611686018427387903, 10]),
];

#[test]
fn reads_balances(rt: HostRuntime) -> Result<(), Fail> {
    for (text, want) in BALANCES {
        reads(&rt, text, want)?;
    }
    Ok(())
}

/// The text has this fault, or none.
fn has_fault(rt: &impl Abort, text: &[u8], found: Option<ParseFault>, want: Option<ParseFault>) {
    assert_eq!(rt; found, want, "{text:?}");
}

/// Balances in this text are refused at this line.
fn refuses_balances<R: AllocGlobal + Abort>(rt: &R, text: &[u8], line: u64) {
    let fault = balances(rt.alloc(), text).err();
    has_fault(rt, text, fault, Some(ParseFault::Line { line }));
}

/// Balances in this text are taken.
fn takes_balances<R: AllocGlobal + Abort>(rt: &R, text: &[u8]) {
    has_fault(rt, text, balances(rt.alloc(), text).err(), None);
}

const BAD_BALANCES: &[(&[u8], u64)] = &[
    (b"", 1),
    (b"\n", 1),
    (b"100\n\n", 2),
    (b"100\n\n0\nx\n", 2),
    (b"00", 1),
    (b"7\n01\n", 2),
    (b"+7\n", 1),
    (b"-0\n", 1),
    (b"7\r\n", 1),
    (b" 7\n", 1),
    (b"7 \n", 1),
    (b"0\n0\n4611686018427387904\n", 3),
    (b"99999999999999999999999999999999999999999", 1),
    (b"\xff\n", 1),
];

#[test]
fn names_the_first_bad_balance(rt: HostRuntime) {
    for (text, line) in BAD_BALANCES {
        refuses_balances(&rt, text, *line);
    }
}

/// Numbers from the greatest balance on.
const WIDE: &[(&[u8], &[u64])] = &[
    (b"4611686018427387903\n", &[4611686018427387903]),
    (
        b"4611686018427387902\n0\n4611686018427387903",
        &[4611686018427387902, 0, 4611686018427387903],
    ),
    (
        b"4294967296\n2147483648\n9007199254740993\n",
        &[4294967296, 2147483648, 9007199254740993],
    ),
];

/// Above it, also past 64 bits, and with a leading zero.
const TOO_WIDE: &[(&[u8], u64)] = &[
    (b"4611686018427387904\n", 1),
    (b"100\n4611686018427387904\n", 2),
    (b"4611686018427387903\n9223372036854775808\n", 2),
    (b"0\n18446744073709551615\n0\n", 2),
    (b"0\n0\n18446744073709551616\n", 3),
    (b"18446744073709551716", 1),
    (b"123456789012345678901234567890\n", 1),
    (b"7\n04611686018427387903\n", 2),
];

#[test]
fn the_greatest_balance_is_the_last(rt: HostRuntime) -> Result<(), Fail> {
    for (text, want) in WIDE {
        reads(&rt, text, want)?;
    }
    for (text, line) in TOO_WIDE {
        refuses_balances(&rt, text, *line);
    }
    Ok(())
}

/// 4097 lines, each `1`.
fn lines_of_1() -> [u8; 8194] {
    let mut text = [b'\n'; 8194];
    for line in 0..4097 {
        text[2 * line] = b'1';
    }
    text
}

#[test]
fn refuses_one_balance_too_many(rt: HostRuntime) {
    let mut text = lines_of_1();
    refuses_balances(&rt, &text, 4097);
    let (most, _) = text.split_at(8192);
    takes_balances(&rt, most);
    text[8000] = b'x';
    refuses_balances(&rt, &text, 4001);
}

/// The transfer of a script that has one alone.
fn only_job(script: &Script) -> Option<Job> {
    if script.count() == 1 {
        Some(script.job(0))
    } else {
        None
    }
}

/// The bytes of the note, none where there is no note.
fn note_of(job: &Job) -> &[u8] {
    match &job.note {
        Some(remark) => remark.as_slice(),
        None => b"",
    }
}

/// The legs of a transfer, and its note.
type Transfer<'a> = (&'a [(u32, u32, u32)], &'a [u8]);

/// These are legs of these payers, payees and amounts.
fn are_legs(legs: &[Leg], want: &[(u32, u32, u32)]) -> bool {
    legs.len() == want.len()
        && legs
            .iter()
            .zip(want)
            .all(|(leg, want)| *leg == Leg::from(*want))
}

/// This is the transfer at this place of the text.
fn is_job(rt: &impl Abort, text: &[u8], place: usize, job: &Job, want: Transfer<'_>) {
    let (legs, note) = want;
    assert!(rt;
        are_legs(job.legs.as_slice(), legs),
        "{text:?}, transfer {place}"
    );
    assert_eq!(rt; note_of(job), note, "{text:?}, transfer {place}");
}

/// The text is read as this one transfer.
fn reads_one<R: AllocGlobal + Abort>(rt: &R, text: &[u8], want: Transfer<'_>) -> Result<(), Fail> {
    let Ok(script) = parse(rt.alloc(), text, 2) else {
        return Err(Fail::new("no script"));
    };
    let Some(job) = only_job(&script) else {
        return Err(Fail::new("not one transfer"));
    };
    is_job(rt, text, 0, &job, want);
    Ok(())
}

const ONE: &[(u32, u32, u32)] = &[(0, 1, 5)];

const TWO: &[(u32, u32, u32)] = &[(0, 1, 60), (1, 0, 2147483647)];

const TRANSFERS: &[(&[u8], &[(u32, u32, u32)], &[u8])] = &[
    (b"pay 0 1 5\n", ONE, b""),
    (b"pay 0 1 5", ONE, b""),
    (b"\n\npay 0 1 5\n\n", ONE, b""),
    (b"pay 0 1 5 : :\n", ONE, b":"),
    (b"pay 0 1 5 : hi\n", ONE, b"hi"),
    (b"pay 0 1 5 :  \n", ONE, b" "),
    (b"pay 0 1 5 : a : b", ONE, b"a : b"),
    (b"pay 0 1 60 1 0 2147483647 : two~", TWO, b"two~"),
];

#[test]
fn reads_transfers(rt: HostRuntime) -> Result<(), Fail> {
    for (text, legs, note) in TRANSFERS {
        reads_one(&rt, text, (legs, note))?;
    }
    Ok(())
}

const SHORT_AND_LONG: &[u8] =
    b"pay 0 1 1\npay 1 0 2 : two\npay 0 1 3\npay 0 1 4 1 0 5\npay 1 0 6 : six\n";

const IN_ORDER: &[(&[(u32, u32, u32)], &[u8])] = &[
    (&[(0, 1, 1)], b""),
    (&[(1, 0, 2)], b"two"),
    (&[(0, 1, 3)], b""),
    (&[(0, 1, 4), (1, 0, 5)], b""),
    (&[(1, 0, 6)], b"six"),
];

#[test]
fn keeps_short_and_long_transfers_in_order(rt: HostRuntime) -> Result<(), Fail> {
    let Ok(script) = parse(rt.alloc(), SHORT_AND_LONG, 2) else {
        return Err(Fail::new("no script"));
    };
    is_count(&rt, SHORT_AND_LONG, script.count(), 5);
    for (place, (legs, note)) in IN_ORDER.iter().enumerate() {
        if (place as u64) < script.count() {
            let job = script.job(place as u64);
            is_job(&rt, SHORT_AND_LONG, place, &job, (legs, note));
        }
    }
    Ok(())
}

/// Transfers in this text, between so many accounts, are refused at this line.
fn refuses_transfers<R: AllocGlobal + Abort>(rt: &R, text: &[u8], accounts: u32, line: u64) {
    let fault = parse(rt.alloc(), text, accounts).err();
    has_fault(rt, text, fault, Some(ParseFault::Line { line }));
}

/// Transfers in this text, between two accounts, are taken.
fn takes_transfers<R: AllocGlobal + Abort>(rt: &R, text: &[u8]) {
    has_fault(rt, text, parse(rt.alloc(), text, 2).err(), None);
}

const NO_TRANSFERS: &[&[u8]] = &[
    b"pay 0 1",
    b"pay 0 1 0",
    b"pay 0 1 01",
    b"pay 0 2 5",
    b"pay 0 1 5 ",
    b"pay  0 1 5",
    b"PAY 0 1 5",
    b"pay 0 1 5 :x",
    b"pay 0 1 5 : ",
    b"pay 0 1 5\r",
    b"pay 0 1 2147483648",
    b"pay 99999999999999999999 1 5",
    b"pay 0 1 1 0 1 1 0 1 1 0 1 1 0 1 1 0 1 1 0 1 1 0 1 1 0 1 1",
    b"pay",
    b"pay : x",
    b" ",
    b" pay 0 1 5",
    b"pay\t0 1 5",
    b"pay 2 0 5",
    b"pay 1 1 5",
    b"pay 0 1 5 0",
    b"pay 0 1 5 0 1",
    b"pay 0 1 5  : x",
    b"pay 0 1 5 :",
    b"pay 0 1 +5",
    b"pay 0 1 5 : \x7f",
];

#[test]
fn refuses_what_is_no_transfer(rt: HostRuntime) {
    for text in NO_TRANSFERS {
        refuses_transfers(&rt, text, 2, 1);
    }
}

const BAD_LINES: &[(&[u8], u64)] = &[
    (b"pay 0 1 30\npay 1 1 5\n", 2),
    (b"\n\npay 0 1 5\n\npay 0 1 5\r\nx\n", 5),
    (b"pay 0 1 5\n\n \n", 3),
    (b"x\ny\n", 1),
];

#[test]
fn names_the_first_bad_line(rt: HostRuntime) {
    for (text, line) in BAD_LINES {
        refuses_transfers(&rt, text, 2, *line);
    }
    refuses_transfers(&rt, b"pay 0 1 5", 0, 1);
    takes_transfers(&rt, b"");
    takes_transfers(&rt, b"\n\n");
}

/// `pay 0 1 5 : ` and 201 letters.
fn long_line() -> [u8; 213] {
    let mut line = [b'x'; 213];
    line[..12].copy_from_slice(b"pay 0 1 5 : ");
    line
}

#[test]
fn refuses_a_note_of_201_bytes(rt: HostRuntime) {
    let line = long_line();
    refuses_transfers(&rt, &line, 2, 1);
    let (most, _) = line.split_at(212);
    takes_transfers(&rt, most);
}

#[test]
fn reads_a_hundred_thousand_transfers(rt: HostRuntime) -> Result<(), Fail> {
    let mut text = Vec::new(rt.alloc());
    for _ in 0..100_000 {
        text.extend_from_slice(b"pay 0 1 5 1 0 5 : there and back\n")?;
    }
    let Ok(script) = parse(rt.alloc(), text.as_slice(), 2) else {
        return Err(Fail::new("no script"));
    };
    assert_eq!(rt; script.count(), 100_000);
    Ok(())
}
