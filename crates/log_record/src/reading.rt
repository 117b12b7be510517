//! A record's units, read. The header says how many they are and of which kind.

ghost use Rattle.std.specs.Prelude.{◌≡◌, ◌↔◌, ◌+◌, ℕ, List, [], ◌∷◌, ◌++◌, length, IsTrue, IfOk, OnErr, IfSome, IfNone};
ghost use Rattle.log_record.specs.declared.rec.Rec.{Rec};
ghost use Rattle.log_record.specs.Spelling.{spelling, IsTxn, IsLeg, BeginsWith};
ghost use Rattle.log_record.specs.declared.header.TheConstants.{COMMIT, GENESIS, NOTE, OVER, SHORT, UPDATE};
ghost use Rattle.log_record.specs.Reading.{header_unit, IsEndKind, Reads, Spells};

use crate::header::{COMMIT, GENESIS, Header, NOTE, OVER, SHORT, UPDATE};
use crate::limits::MOST_LEGS;
use crate::note::{note_units, read_text};
use crate::rec::{BadRec, Rec};
use crate::text::LONGEST_NOTE;
use lsn_space::{Lsn, MOST_ACCOUNTS, MOST_BALANCE};

/// The record that the units begin with, and of how many units it is.
pub fn read(units: &[u64]) -> Result<(Rec, usize), BadRec>
    ensures found { IfOk result (λ r. BeginsWith units.now r.0 × (r.1 ≡ length (spelling r.0))) }
    ensures bad { OnErr result ((r : Rec) → BeginsWith units.now r → ⊥) }
{
    let mut rec = Rec::Genesis {
        account: 0,
        balance: 0,
    };
    let size = read_into(units, &mut rec)?;
    Ok((rec, size))
}

/// Reads the record that the units begin with into the one that is lent, and answers of how many units it is.
pub fn read_into(units: &[u64], rec: &mut Rec) -> Result<usize, BadRec>
    ensures found { IfOk result (λ size. BeginsWith units.now rec.new × (size ≡ length (spelling rec.new))) }
    ensures bad { OnErr result ((r : Rec) → BeginsWith units.now r → ⊥) }
{
    let Some((header, body)) = split(units) else {
        return Err(BadRec);
    };
    read_whole(header, body, rec)?;
    Ok(1 + body.len())
}

/// The header that the units begin with, and the further units that it counts.
fn split(units: &[u64]) -> Option<(Header, &[u64])>
    ensures count { IfSome result (λ s. s.0.units ≡ 1 + length s.1.now) }
    ensures front { IfSome result (λ s. (rest : List ℕ) × (units.now ≡ header_unit s.0 ∷ s.1.now ++ rest)) }
    ensures cut { IfNone result ((r : Rec) → BeginsWith units.now r → ⊥) }
{
    let (first, rest) = units.split_first()?;
    let header = Header::of(*first);
    let count = (header.units as usize).checked_sub(1)?;
    let (body, _) = rest.split_at_checked(count)?;
    Some((header, body))
}

/// The record of these units.
fn read_whole(header: Header, body: &[u64], rec: &mut Rec) -> Result<(), BadRec>
    requires { header.units ≡ 1 + length body.now }
    ensures { Reads header body.now rec.new result }
{
    match header.kind {
        GENESIS => genesis(header, body, rec),
        UPDATE => update(header, body, rec),
        COMMIT | SHORT | OVER => end(header, body, rec),
        NOTE => note(header, body, rec),
        _ => Err(BadRec),
    }
}

fn genesis(header: Header, body: &[u64], rec: &mut Rec) -> Result<(), BadRec>
    requires kind { header.kind ≡ GENESIS }
    requires count { header.units ≡ 1 + length body.now }
    ensures { Reads header body.now rec.new result }
{
    let [balance] = body else {
        return Err(BadRec);
    };
    let account = u32::from(header.field);
    if header.txn != 0 || account >= MOST_ACCOUNTS || *balance > MOST_BALANCE {
        return Err(BadRec);
    }
    *rec = Rec::Genesis {
        account,
        balance: *balance,
    };
    Ok(())
}

fn update(header: Header, body: &[u64], rec: &mut Rec) -> Result<(), BadRec>
    requires kind { header.kind ≡ UPDATE }
    requires count { header.units ≡ 1 + length body.now }
    ensures { Reads header body.now rec.new result }
{
    let [unit] = body else {
        return Err(BadRec);
    };
    let account = u32::from(header.field);
    let delta = ((*unit >> 32) as u32).cast_signed();
    if header.txn == 0 || account >= MOST_ACCOUNTS || delta == 0 || delta == i32::MIN {
        return Err(BadRec);
    }
    *rec = Rec::Update {
        txn: header.txn,
        account,
        delta,
        prev: Lsn::new((*unit & 0xffff_ffff) as u32),
    };
    Ok(())
}

/// The end record of a transaction.
fn end(header: Header, body: &[u64], rec: &mut Rec) -> Result<(), BadRec>
    requires kind { IsEndKind header.kind }
    requires count { header.units ≡ 1 + length body.now }
    ensures { Reads header body.now rec.new result }
{
    if !is_end(header, body) {
        return Err(BadRec);
    }
    *rec = end_of(header);
    Ok(())
}

/// The end record of this header, which has the number of legs, or of a leg, in its field.
#[inline(always)]
fn end_of(header: Header) -> Rec
    requires kind { IsEndKind header.kind }
    requires count { header.units ≡ 1 }
    requires numbers { IsTxn header.txn × IsLeg header.field }
    ensures { Spells header [] result }
{
    let txn = header.txn;
    let number = header.field as u32;
    match header.kind {
        COMMIT => Rec::Commit { txn, legs: number },
        SHORT => Rec::Short { txn, leg: number },
        _ => Rec::Over { txn, leg: number },
    }
}

/// Whether these are a header alone, of a transaction and with a number of legs, or of a leg, in its field.
fn is_end(header: Header, body: &[u64]) -> bool
    ensures { IsTrue result ↔ (IsTxn header.txn × IsLeg header.field × (body.now ≡ [])) }
{
    header.txn != 0 && matches!(header.field, 1..=MOST_LEGS) && body.is_empty()
}

fn note(header: Header, body: &[u64], rec: &mut Rec) -> Result<(), BadRec>
    requires kind { header.kind ≡ NOTE }
    requires count { header.units ≡ 1 + length body.now }
    ensures { Reads header body.now rec.new result }
{
    let len = header.field as usize;
    if header.txn == 0 || len == 0 || len > LONGEST_NOTE || body.len() != note_units(len) {
        return Err(BadRec);
    }
    let text = read_text(len, body)?;
    *rec = Rec::Note {
        txn: header.txn,
        text,
    };
    Ok(())
}
