//! Two workers of one group, from their joins to the end of the log.
ghost use Rattle.std.specs.Prelude.{◌≡◌, ◌+◌, ◌≤◌, [], ◌∷◌, IfSome};
ghost use Rattle.log_record.specs.Spelling.{IsTxn};
ghost use Rattle.log_rule.specs.declared.view.Call.TheVariants.{Idle};
ghost use Rattle.log_rule.specs.declared.view.Role.TheVariants.{Flusher};
ghost use Rattle.log_rule.specs.CrewViews.{merged_entries};
ghost use Rattle.log_table.specs.HiredWorkers.{HasHired};
ghost use Rattle.log_rule.specs.May.{MayClose};
ghost use Rattle.log_table.specs.Seats.{IsOf, view_of};
ghost use Rattle.slot_rig.specs.Shares.{ArePair, HasBoth, HasHiredBoth, HasReleased, IsDone};

use crate::joining::{join_for_note, joiner};
use crate::share::Share;
use log_table::{LogTable, Seat};
use lsn_space::Lsn;
use test_rig::{note_units, noted_job};

/// The flusher's seat, and two workers that have joined one group with their shares. The first leads it, and has a piece
/// of two units; that of the other has three.
#[derive(Drop)]
pub struct Pair {
    pub flusher_seat: Seat,
    pub one: Seat,
    pub two: Seat,
    pub ours: Share,
    pub theirs: Share,
}

/// Hires the workers of the next two numbers, which join the group at the only slot, for notes under this number and the
/// next. None: they did not join.
pub fn pair_of(table: &LogTable, flusher_seat: Seat, hired: u32, number: u32) -> Option<Pair>
    requires flusher_seat { HasHired table.now hired flusher_seat }
    requires few { hired ≤ 100 }
    requires numbers { (IsTxn number) × (IsTxn (number + 1)) }
    requires slots { table.now.slots ≡ 1 }
    requires accounts { table.now.accounts ≡ 2 }
    ensures { IfSome result (λ pair. ArePair table.now hired pair.flusher_seat pair.one pair.two pair.ours pair.theirs) }
{
    let mut flusher_seat = flusher_seat;
    let mut one = joiner(table, &mut flusher_seat, hired, number);
    let mut two = joiner(table, &mut flusher_seat, hired + 1, number + 1);
    let first = noted_job(b"aaaaaaaa")?;
    let second = noted_job(b"bbbbbbbbb")?;
    let ours = Share {
        worker: hired,
        slot: 0,
        offset: 0,
        units: note_units(number, &first),
    };
    let theirs = Share {
        worker: hired + 1,
        slot: 0,
        offset: 2,
        units: note_units(number + 1, &second),
    };
    let Ok(()) = join_for_note(table, &mut one, &ours, number, &first) else {
        return None;
    };
    let Ok(()) = join_for_note(table, &mut two, &theirs, number + 1, &second) else {
        return None;
    };
    Some(Pair {
        flusher_seat,
        one,
        two,
        ours,
        theirs,
    })
}

/// The two workers that were hired leave, and the flusher's seat takes them in.
fn take_in(table: &LogTable, flusher_seat: &mut Seat, one: Seat, two: Seat)
    requires flusher_seat { HasHiredBoth table.now flusher_seat.old }
    requires one { IsDone table.now 0 one }
    requires two { IsDone table.now 1 two }
    ensures flusher_seat { IsOf table.now flusher_seat.new }
    ensures may { MayClose (view_of flusher_seat.new) }
    ensures gathered { (view_of flusher_seat.new).entries
        ≡ merged_entries (merged_entries (view_of flusher_seat.old).entries (view_of one).entries) (view_of two).entries }
{
    let (mut first, mut second) = (one, two);
    table.leave(&mut first);
    table.leave(&mut second);
    table.merge(flusher_seat, first);
    table.merge(flusher_seat, second);
}

/// The two workers that were hired leave, and the flusher's seat takes them in: its entries are then their pieces of the
/// range that begins there, one behind the other.
pub fn gather_both(
    table: &LogTable,
    flusher_seat: &mut Seat,
    base: Lsn,
    one: Seat,
    ours: &Share,
    two: Seat,
    theirs: &Share,
)
    requires flusher_seat { IsOf table.now flusher_seat.old }
    requires flusher { (view_of flusher_seat.old).standing.role ≡ Flusher }
    requires made { (view_of flusher_seat.old).standing.made ≡ 1 ∷ 0 ∷ [] }
    requires merged { (view_of flusher_seat.old).standing.merged ≡ [] }
    requires no_entry { (view_of flusher_seat.old).entries ≡ [] }
    requires workers { (ours.now.worker ≡ 0) × (theirs.now.worker ≡ 1) }
    requires behind { ours.now.offset ≤ theirs.now.offset }
    requires one { HasReleased table.now ours.now base Idle one }
    requires two { HasReleased table.now theirs.now base Idle two }
    ensures flusher_seat { IsOf table.now flusher_seat.new }
    ensures may { MayClose (view_of flusher_seat.new) }
    ensures gathered { HasBoth ours.now theirs.now base flusher_seat.new }
{
    take_in(table, flusher_seat, one, two);
}
