//! What `asof` and `statement` answer, row by row.

use crate::logs::{BACK, CUT_HEAD, GENESIS, THERE, WRONG_PREDECESSOR, file_of};
use crate::view_logs::{
    ALL_BACK, ALL_OF_IT, GREATEST, RICH, SHORT, TWO_LEGS, UNFINISHED, to_and_fro,
};
use cli_shared::Detail;
use cli_view::asof_command::asof_command;
use cli_view::statement_command::statement_command;
use log_recovery::Why;
use lsn_space::Lsn;
use memory_disk::{MemorySink, MemorySource};
use std::alloc::AllocGlobal;
use std::test::Fail;

/// What is asked of a log.
#[derive(Clone, Copy, Debug)]
enum Question {
    AsOf(u32),
    Statement(u32),
}

/// Asked this of the log, the program ends so, and writes this.
fn answers<R: AllocGlobal>(
    rt: &R,
    log: &[u8],
    question: Question,
    detail: Detail,
    text: &[u8],
) -> Result<(), Fail> {
    let Ok(mut source) = MemorySource::make(rt.alloc(), log, 7, &[]) else {
        return Err(Fail::new("no memory"));
    };
    let mut sink = MemorySink::make(rt.alloc(), 1000, &[]).map_err(|_| Fail::new("no memory"))?;
    let found = match question {
        Question::AsOf(lsn) => asof_command(rt.alloc(), Lsn::new(lsn), &mut source, &mut sink),
        Question::Statement(account) => {
            statement_command(rt.alloc(), account, &mut source, &mut sink)
        }
    };
    let written = sink.bytes();
    if found != detail || written != text {
        return Err(Fail::new(format_args!(
            "{question:?}: {found:?} {written:?}, and not {detail:?} {text:?}"
        )));
    }
    Ok(())
}

/// A head, batches behind it, what is asked, and the text.
type Row = (
    &'static [u8],
    &'static [&'static [u64]],
    Question,
    &'static [u8],
);

const TEXTS: &[Row] = &[
    (b"", &[&GENESIS, &THERE], Question::AsOf(0), b"lsn 0\n"),
    (
        b"",
        &[&GENESIS, &THERE],
        Question::AsOf(2),
        b"lsn 2\n0 100\n",
    ),
    (
        b"",
        &[&GENESIS, &THERE],
        Question::AsOf(4),
        b"lsn 4\n0 100\n1 0\n",
    ),
    (
        b"",
        &[&GENESIS, &THERE],
        Question::AsOf(8),
        b"lsn 8\n0 100\n1 0\n",
    ),
    (
        b"",
        &[&GENESIS, &THERE],
        Question::AsOf(9),
        b"lsn 9\n0 70\n1 30\n",
    ),
    (
        b"",
        &[&GENESIS, &THERE, &BACK],
        Question::AsOf(9),
        b"lsn 9\n0 70\n1 30\n",
    ),
    (
        b"",
        &[&GENESIS, &THERE, &BACK],
        Question::AsOf(14),
        b"lsn 14\n0 100\n1 0\n",
    ),
    (CUT_HEAD, &[], Question::AsOf(9), b"lsn 9\n0 70\n1 30\n"),
    (
        CUT_HEAD,
        &[&BACK],
        Question::AsOf(13),
        b"lsn 13\n0 70\n1 30\n",
    ),
    (
        CUT_HEAD,
        &[&BACK],
        Question::AsOf(14),
        b"lsn 14\n0 100\n1 0\n",
    ),
    (
        b"",
        &[&GENESIS, &THERE],
        Question::Statement(1),
        b"open 0\n9 1 30 30\nlsn 9\n",
    ),
    (
        b"",
        &[&GENESIS, &THERE, &BACK],
        Question::Statement(0),
        b"open 100\n9 1 -30 70\n14 2 30 100\nlsn 14\n",
    ),
    (
        b"",
        &[&GENESIS, &UNFINISHED],
        Question::Statement(0),
        b"open 100\nlsn 8\n",
    ),
    (
        b"",
        &[&GENESIS, &SHORT],
        Question::Statement(0),
        b"open 100\nlsn 5\n",
    ),
    (
        b"",
        &[&GENESIS, &TWO_LEGS],
        Question::Statement(0),
        b"open 100\n13 1 -50 50\nlsn 13\n",
    ),
    (
        b"",
        &[&GENESIS, &TWO_LEGS],
        Question::Statement(1),
        b"open 0\n13 1 50 50\nlsn 13\n",
    ),
    (
        b"",
        &[&RICH, &ALL_OF_IT],
        Question::Statement(0),
        b"open 2147483647\n9 1 -2147483647 0\nlsn 9\n",
    ),
    (
        b"",
        &[&RICH, &ALL_OF_IT],
        Question::Statement(1),
        b"open 0\n9 1 2147483647 2147483647\nlsn 9\n",
    ),
    (
        b"",
        &[&GREATEST, &ALL_OF_IT, &ALL_BACK],
        Question::Statement(0),
        b"open 4611686018427387903\n9 1 -2147483647 4611686016279904256\n\
            14 2 2147483647 4611686018427387903\nlsn 14\n",
    ),
    (
        b"",
        &[&GREATEST, &ALL_OF_IT, &ALL_BACK],
        Question::AsOf(9),
        b"lsn 9\n0 4611686016279904256\n1 2147483647\n",
    ),
    (
        b"",
        &[&GREATEST, &ALL_OF_IT, &ALL_BACK],
        Question::AsOf(14),
        b"lsn 14\n0 4611686018427387903\n1 0\n",
    ),
    (CUT_HEAD, &[], Question::Statement(0), b"open 70\nlsn 9\n"),
    (
        CUT_HEAD,
        &[&BACK],
        Question::Statement(1),
        b"open 30\n14 2 -30 0\nlsn 14\n",
    ),
];

#[test]
fn writes_texts(rt: HostRuntime) -> Result<(), Fail> {
    for (head, batches, question, text) in TEXTS {
        let log = file_of(&rt, head, batches)?;
        answers(&rt, log.as_slice(), *question, Detail::Fine, text)?;
    }
    Ok(())
}

/// The accounts, and the statement of account 0 where it has eight legs that come to 0.
const SUMMED: &[(&[u64], &[u8])] = &[
    (&GENESIS, b"open 100\n37 1 0 100\nlsn 37\n"),
    (
        &GREATEST,
        b"open 4611686018427387903\n37 1 0 4611686018427387903\nlsn 37\n",
    ),
];

#[test]
fn sums_eight_legs_to_0(rt: HostRuntime) -> Result<(), Fail> {
    let statement = Question::Statement(0);
    for (accounts, text) in SUMMED {
        let units = to_and_fro(rt.alloc(), accounts)?;
        let log = file_of(&rt, b"", &[units.as_slice()])?;
        answers(&rt, log.as_slice(), statement, Detail::Fine, text)?;
    }
    Ok(())
}

/// LSNs that are no boundary of these logs: within a record, behind the end, and before a list.
const NO_BOUNDARIES: &[(&[u8], &[&[u64]], u32)] = &[
    (b"", &[&GENESIS, &THERE], 1),
    (b"", &[&GENESIS, &THERE], 5),
    (b"", &[&GENESIS, &THERE], 10),
    (b"", &[&GENESIS, &THERE], 4294967295),
    (CUT_HEAD, &[&BACK], 0),
    (CUT_HEAD, &[&BACK], 8),
    (CUT_HEAD, &[&BACK], 15),
];

#[test]
fn refuses_an_lsn_within_a_record(rt: HostRuntime) -> Result<(), Fail> {
    for (head, batches, lsn) in NO_BOUNDARIES {
        let log = file_of(&rt, head, batches)?;
        let detail = Detail::NoSuchLsn {
            lsn: Lsn::new(*lsn),
        };
        answers(&rt, log.as_slice(), Question::AsOf(*lsn), detail, b"")?;
    }
    Ok(())
}

#[test]
fn refuses_an_account_that_is_not_there(rt: HostRuntime) -> Result<(), Fail> {
    let log = file_of(&rt, b"", &[&GENESIS, &THERE, &BACK])?;
    for account in [2, 4095] {
        let detail = Detail::NoAccount { account };
        answers(
            &rt,
            log.as_slice(),
            Question::Statement(account),
            detail,
            b"",
        )?;
    }
    Ok(())
}

#[test]
fn refuses_a_log_with_a_fault_above_the_lsn(rt: HostRuntime) -> Result<(), Fail> {
    let log = file_of(&rt, b"", &[&GENESIS, &WRONG_PREDECESSOR])?;
    let (lsn, why) = (Lsn::new(4), Why::Prev);
    for question in [
        Question::AsOf(2),
        Question::Statement(1),
        Question::Statement(7),
    ] {
        answers(
            &rt,
            log.as_slice(),
            question,
            Detail::Unlawful { lsn, why },
            b"",
        )?;
    }
    answers(&rt, b"", Question::AsOf(0), Detail::NotALog, b"")
}
