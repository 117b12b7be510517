//! A record, spelled in units.

ghost use Rattle.std.specs.Prelude.{◌≡◌, ◌*◌, ◌+◌, ◌^◌, ◌≤◌, ◌<◌, ◌∷◌, [], length};
ghost use Rattle.std.specs.Int.{w32, cast_unsigned};
ghost use Rattle.log_record.specs.Reading.{header_unit};
ghost use Rattle.log_record.specs.Spelling.{header as first_unit, spelling, IsSpellable, IsAccount, IsLeg, IsNoteText};
ghost use Rattle.log_record.specs.declared.rec.Rec.TheVariants.{Update, Commit, Short, Over, Note};
ghost use Rattle.log_record.specs.declared.units.TheConstants.{LONGEST_RECORD};

use crate::header::{COMMIT, GENESIS, Header, NOTE, OVER, SHORT, UPDATE};
use crate::note::{note_units, push_text};
use crate::rec::Rec;
use crate::units::Units;
use lsn_space::Lsn;

/// The units of a record whose fields are in their ranges.
pub fn spell(rec: &Rec) -> Units
    requires { IsSpellable rec.now }
    ensures units { result ≡ spelling rec.now }
    ensures some { 1 ≤ length result }
    ensures short { length result ≤ LONGEST_RECORD }
{
    let mut units = Units::new();
    spell_into(rec, &mut units);
    units
}

/// The same, put into units that the caller has, in place of what they hold: so they aren't copied.
pub fn spell_into(rec: &Rec, units: &mut Units)
    requires { IsSpellable rec.now }
    ensures units { units.new ≡ spelling rec.now }
    ensures some { 1 ≤ length units.new }
    ensures short { length units.new ≤ LONGEST_RECORD }
{
    match rec {
        Rec::Genesis { account, balance } => {
            let first = header(GENESIS, 2, *account, 0);
            put_pair(units, first, *balance);
        }
        Rec::Update {
            txn,
            account,
            delta,
            prev,
        } => spell_update(units, *txn, *account, *delta, *prev),
        Rec::Commit { txn, legs } => spell_commit(units, *txn, *legs),
        Rec::Short { txn, leg } => spell_short(units, *txn, *leg),
        Rec::Over { txn, leg } => spell_over(units, *txn, *leg),
        Rec::Note { txn, text } => spell_note(units, *txn, text.as_slice()),
    }
}

/// Spells an Update, without a `Rec` of it, in place of what the units hold.
pub fn spell_update(units: &mut Units, txn: u32, account: u32, delta: i32, prev: Lsn)
    requires { IsAccount account }
    ensures { units.new ≡ spelling (Update txn account delta prev) }
{
    put_pair(units, header(UPDATE, 2, account, txn), change(delta, prev));
}

/// Likewise a Commit.
pub fn spell_commit(units: &mut Units, txn: u32, legs: u32)
    requires { IsLeg legs }
    ensures { units.new ≡ spelling (Commit txn legs) }
{
    put_first(units, header(COMMIT, 1, legs, txn));
}

/// Likewise a Short.
pub fn spell_short(units: &mut Units, txn: u32, leg: u32)
    requires { IsLeg leg }
    ensures { units.new ≡ spelling (Short txn leg) }
{
    put_first(units, header(SHORT, 1, leg, txn));
}

/// Likewise an Over.
pub fn spell_over(units: &mut Units, txn: u32, leg: u32)
    requires { IsLeg leg }
    ensures { units.new ≡ spelling (Over txn leg) }
{
    put_first(units, header(OVER, 1, leg, txn));
}

/// Likewise a Note with this text.
pub fn spell_note(units: &mut Units, txn: u32, text: &[u8])
    requires { IsNoteText text.now }
    ensures { units.new ≡ spelling (Note txn text.now) }
{
    let count = 1 + note_units(text.len()) as u8;
    put_first(units, header(NOTE, count, text.len() as u32, txn));
    push_text(units, text);
}

fn header(kind: u8, units: u8, field: u32, txn: u32) -> Header
    requires { field < 2 ^ 16 }
    ensures { header_unit result ≡ first_unit kind units field txn }
{
    Header {
        kind,
        units,
        field: field as u16,
        txn,
    }
}

/// Puts the header in place of what the units hold.
fn put_first(units: &mut Units, header: Header)
    ensures { units.new ≡ header_unit header ∷ [] }
{
    units.clear();
    units.push(header.unit());
}

fn put_pair(units: &mut Units, header: Header, unit: u64)
    ensures { units.new ≡ header_unit header ∷ unit ∷ [] }
{
    put_first(units, header);
    units.push(unit);
}

/// The second unit of an update.
fn change(delta: i32, prev: Lsn) -> u64
    ensures { result ≡ cast_unsigned w32 delta * 2 ^ 32 + prev }
{
    ((delta.cast_unsigned() as u64) << 32) + prev.units() as u64
}
