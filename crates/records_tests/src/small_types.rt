//! Addresses and units, numbers as text, words, and a table of balances.

use lsn_space::{Balances, LAST, Lsn, Word, bytes_of, decimal, number, place, unit_of};
use std::process::Abort;
use std::test::Fail;

/// These are the bytes.
fn are_bytes(rt: &impl Abort, found: &[u8], want: &[u8]) {
    assert_eq!(rt; found, want);
}

/// So many units behind this LSN stands this one, or none.
fn adds_up(rt: &impl Abort, at: u32, n: u32, want: Option<u32>) {
    let found = Lsn::new(at).plus(n).map(|lsn| lsn.units());
    assert_eq!(rt; found, want, "{at} plus {n}");
}

const SUMS: &[(u32, u32, Option<u32>)] = &[
    (0, 5, Some(5)),
    (4, 0, Some(4)),
    (LAST, 0, Some(LAST)),
    (LAST, 1, None),
    (1, LAST, None),
];

#[test]
fn adds_up_to_the_last(rt: HostRuntime) {
    for (at, n, want) in SUMS {
        adds_up(&rt, *at, *n, *want);
    }
    assert!(rt; place(Lsn::new(1028), 1024) == 4);
}

/// The unit has these bytes, and they the unit.
fn is_spelled(rt: &impl Abort, unit: u64, bytes: [u8; 8]) {
    are_bytes(rt, &bytes_of(unit), &bytes);
    assert_eq!(rt; unit_of(bytes), unit);
}

#[test]
fn the_highest_byte_is_first(rt: HostRuntime) {
    is_spelled(&rt, 0x0102_0000_0000_0064, [1, 2, 0, 0, 0, 0, 0, 0x64]);
    is_spelled(
        &rt,
        0xffff_ffe2_0000_0000,
        [0xff, 0xff, 0xff, 0xe2, 0, 0, 0, 0],
    );
}

const DECIMALS: &[(u64, &[u8])] = &[
    (0, b"0"),
    (10, b"10"),
    (2147483647, b"2147483647"),
    (u64::MAX, b"18446744073709551615"),
];

#[test]
fn writes_digits(rt: HostRuntime) {
    for (n, want) in DECIMALS {
        are_bytes(&rt, decimal(*n).as_slice(), want);
    }
}

/// The text is read as this number from `least` to `most`, or as none.
fn is_read(rt: &impl Abort, text: &[u8], least: u64, most: u64, want: Option<u64>) {
    assert_eq!(rt; number(text, least, most), want, "{text:?}");
}

const NUMBERS: &[(&[u8], Option<u64>)] = &[
    (b"1", Some(1)),
    (b"16", Some(16)),
    (b"0", None),
    (b"17", None),
    (b"", None),
    (b"01", None),
    (b"+1", None),
    (b"-1", None),
    (b"1 ", None),
    (b"4294967297", None),
    (b"18446744073709551617", None),
];

#[test]
fn reads_numbers_in_a_range(rt: HostRuntime) {
    for (text, want) in NUMBERS {
        is_read(&rt, text, 1, 16, *want);
    }
    let most = u64::MAX;
    is_read(&rt, b"18446744073709551615", 0, most, Some(most));
    is_read(&rt, b"18446744073709551616", 0, most, None);
}

#[test]
fn keeps_the_text(rt: HostRuntime) {
    for text in ["", "recover", "--ring=1024", "ä"] {
        let made = Word::make(rt.alloc(), text);
        assert!(rt; matches!(&made, Ok(word) if word.text() == text), "{text}");
    }
}

/// Two accounts have these balances and last Commits.
fn has_rows(rt: &impl Abort, balances: &Balances, first: (u64, u32), second: (u64, u32)) {
    assert!(rt; balances.count() == 2);
    assert_eq!(rt; (balances.at(0), balances.at(1)), (first, second));
}

#[test]
fn keeps_what_was_put_in(rt: HostRuntime) -> Result<(), Fail> {
    let Ok(mut balances) = Balances::make(rt.alloc(), 2) else {
        return Err(Fail::new("no memory"));
    };
    balances.push(100, 0);
    balances.push(0, 0);
    balances.set(1, 30, 9);
    has_rows(&rt, &balances, (100, 0), (30, 9));
    Ok(())
}
