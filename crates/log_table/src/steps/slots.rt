//! The slots: workers that lost an exchange of the tail gather there, and one reserves for all.
ghost use Rattle.std.specs.Prelude.{ℕ, ◌≡◌, ◌≢◌, ◌<◌, ◌-◌, ◌/◌, length, OnOk, IfErr};
ghost use Rattle.log_record.specs.Spelling.{spelling};
ghost use Rattle.slot_word.specs.declared.phase.Phase.TheVariants.{Pending};
ghost use Rattle.slot_word.specs.SlotWord.{packed, word_of};
ghost use Rattle.log_rule.specs.Books.{next_of};
ghost use Rattle.log_rule.specs.Events.{IsStep, closes, hears, joins, none, refuses, reopens, stores_base, tells, releases};
ghost use Rattle.table_layout.specs.Layout.{Slot, Base};
ghost use Rattle.log_rule.specs.May.{MayJoinSlot, MayCloseSlot, MayStoreBase, MayStoreGranted, MayStoreRefused, MayPublish, MayLoadBase, MayReopen, MayReleaseSlot};
ghost use Rattle.log_table.specs.Seats.{IsOf, Becomes, view_of, number_of, key_of};
ghost use Rattle.log_table.specs.Steps.{ChangesWord, LoadsSlot};
ghost use Rattle.log_rule.specs.SlotViews.{joined_slot, lost_join, closed_slot, stored_base, published, heard_base, reopened, IsGatheringWord, TellsMember, released_piece, HasToRelease};

use crate::plays::{
    CloseSlot, JoinSlot, LoadBase, LoadSlot, Number, Publish, ReleaseSlot, Reopen, StoreBase,
};
use crate::table::{LogTable, Seat};
use slot_word::SlotWord;
use std::marker::Brand;
use table_layout::{base_place, slot_place};

/// The slot's number, which a step can't see, comes by the type.
fn load_slot_as<N: Number>(table: &LogTable, seat: &mut Seat, slot: u32) -> SlotWord
    requires seat { IsOf table.now seat.old }
    requires slot { slot < table.now.slots }
    requires named { N.number ≡ slot }
    ensures { LoadsSlot table.now slot seat.old seat.new result }
{
    let place = slot_place(table.ring, slot);
    let word = table
        .table
        .shared
        .load::<LoadSlot<N>>(&mut seat.base, place);
    SlotWord::unpack(word)
}

impl LogTable {
    /// The state of the slot. A member of the group there that waits sees by it whether its group is told; then
    /// the total holds the member's piece, and the piece is part of what remains. A contended seat stays so,
    /// unless the slot is its own and it couldn't join there.
    pub fn load_slot(&self, seat: &mut Seat, slot: u32) -> SlotWord
        requires seat { IsOf self.now seat.old }
        requires slot { slot < self.now.slots }
        ensures { LoadsSlot self.now slot seat.old seat.new result }
    {
        load_slot_as::<Brand>(self, seat, slot)
    }

    /// Joins the group at the seat's slot for the next record of its last job, where the slot's state is still
    /// the first one; an Err holds the state found. Who joins first leads the group. Afterwards the seat isn't
    /// contended.
    pub fn join_slot(
        &self,
        seat: &mut Seat,
        slot: u32,
        from: SlotWord,
        to: SlotWord,
    ) -> Result<(), SlotWord>
        requires seat { IsOf self.now seat.old }
        requires slot { slot < self.now.slots }
        requires next { MayJoinSlot slot from to (view_of seat.old) }
        ensures ok { OnOk result (Becomes seat.old seat.new (joined_slot slot from.total (word_of from) (view_of seat.old))) }
        ensures ok_event { OnOk result (IsStep (key_of self.now) (number_of seat.old) (Slot slot) (word_of from) (word_of to)
            (view_of seat.old) (joined_slot slot from.total (word_of from) (view_of seat.old))
            (joins (number_of seat.old) slot (length (spelling (next_of (view_of seat.old).books))))) }
        ensures err { IfErr result (λ found.
            (found ≢ from) × Becomes seat.old seat.new (lost_join slot (word_of found) (view_of seat.old))) }
        ensures err_event { IfErr result (λ found.
            IsStep (key_of self.now) (number_of seat.old) (Slot slot) (word_of found) (word_of found)
            (view_of seat.old) (lost_join slot (word_of found) (view_of seat.old)) none) }
    {
        let place = slot_place(self.ring, slot);
        let free = from.pack();
        let joined = to.pack();
        let found = self
            .table
            .shared
            .compare_exchange::<JoinSlot>(&mut seat.base, place, free, joined);
        if found == free {
            Ok(())
        } else {
            Err(SlotWord::unpack(found))
        }
    }

    /// Closes the group that the seat leads: nobody joins it any more. Answers the slot's state before, whose
    /// total is the group's.
    pub fn close_slot(&self, seat: &mut Seat, slot: u32) -> SlotWord
        requires seat { IsOf self.now seat.old }
        requires slot { slot < self.now.slots }
        requires next { MayCloseSlot slot (view_of seat.old) }
        ensures view { Becomes seat.old seat.new (closed_slot (word_of result) (view_of seat.old)) }
        ensures gathers { IsGatheringWord ((view_of seat.old).constants.ring / 4) (word_of result) }
        ensures event { IsStep (key_of self.now) (number_of seat.old) (Slot slot) (word_of result) (packed Pending 0 0)
            (view_of seat.old) (closed_slot (word_of result) (view_of seat.old)) (closes (number_of seat.old)) }
    {
        let place = slot_place(self.ring, slot);
        let closed = SlotWord::pending().pack();
        let word = self
            .table
            .shared
            .swap::<CloseSlot>(&mut seat.base, place, closed);
        SlotWord::unpack(word)
    }

    /// Stores where the range of the group begins that the seat leads. Where the group has no room by the tail and
    /// the durable that the seat loaded since it closed it, it stores these two.
    pub fn store_base(&self, seat: &mut Seat, slot: u32, word: u64)
        requires seat { IsOf self.now seat.old }
        requires slot { slot < self.now.slots }
        requires next { MayStoreBase slot word (view_of seat.old) }
        ensures view { Becomes seat.old seat.new (stored_base (view_of seat.old)) }
        ensures granted { MayStoreGranted slot word (view_of seat.old) → (found : ℕ) →
            IsStep (key_of self.now) (number_of seat.old) (Base slot) found word
            (view_of seat.old) (stored_base (view_of seat.old)) (stores_base (number_of seat.old)) }
        ensures refused { MayStoreRefused slot word (view_of seat.old) → (found : ℕ) →
            IsStep (key_of self.now) (number_of seat.old) (Base slot) found word
            (view_of seat.old) (stored_base (view_of seat.old))
            (refuses (number_of seat.old) (view_of seat.old).seen.tail (view_of seat.old).seen.durable) }
    {
        let place = base_place(self.ring, self.slots, slot);
        self.table
            .shared
            .store::<StoreBase>(&mut seat.base, place, word);
    }

    /// Tells the members of the group that the seat leads what became of it.
    pub fn publish(&self, seat: &mut Seat, slot: u32, word: SlotWord)
        requires seat { IsOf self.now seat.old }
        requires slot { slot < self.now.slots }
        requires next { MayPublish slot word (view_of seat.old) }
        ensures { ChangesWord self.now (Slot slot) (λ _. word_of word)
            (published (view_of seat.old)) (tells (number_of seat.old)) seat.old seat.new }
    {
        let place = slot_place(self.ring, slot);
        let told = word.pack();
        self.table
            .shared
            .store::<Publish>(&mut seat.base, place, told);
    }

    /// What became of the seat's group, which the seat saw to be told: where the group's range begins, or the tail
    /// and the durable by which it was refused, in the high and the low half.
    pub fn load_base(&self, seat: &mut Seat, slot: u32) -> u64
        requires seat { IsOf self.now seat.old }
        requires slot { slot < self.now.slots }
        requires next { MayLoadBase slot (view_of seat.old) }
        ensures view { Becomes seat.old seat.new (heard_base result (view_of seat.old)) }
        ensures tells { TellsMember result (view_of seat.old) }
        ensures event { IsStep (key_of self.now) (number_of seat.old) (Base slot) result result
            (view_of seat.old) (heard_base result (view_of seat.old)) (hears (number_of seat.old)) }
    {
        let place = base_place(self.ring, self.slots, slot);
        self.table.shared.load::<LoadBase>(&mut seat.base, place)
    }

    /// Releases the seat's piece of the group at the slot, which is `n` units: it is filled, or the group was
    /// refused. Answers the slot's state before. The last member, which finds that no more remained, has the
    /// group's range to mark, or of a refused group the slot to open.
    pub fn release_slot(&self, seat: &mut Seat, slot: u32, n: u32) -> SlotWord
        requires seat { IsOf self.now seat.old }
        requires slot { slot < self.now.slots }
        requires next { MayReleaseSlot slot n (view_of seat.old) }
        ensures view { Becomes seat.old seat.new (released_piece (word_of result) (view_of seat.old)) }
        ensures told { HasToRelease ((view_of seat.old).constants.ring / 4) n (view_of seat.old).call (word_of result) }
        ensures event { IsStep (key_of self.now) (number_of seat.old) (Slot slot) (word_of result) (word_of result - n)
            (view_of seat.old) (released_piece (word_of result) (view_of seat.old)) (releases (number_of seat.old)) }
    {
        let place = slot_place(self.ring, slot);
        let piece = n as u64;
        let word = self
            .table
            .shared
            .fetch_sub::<ReleaseSlot>(&mut seat.base, place, piece);
        SlotWord::unpack(word)
    }

    /// Opens the slot again, whose group has released all. A slot where nobody is has the state 0.
    pub fn reopen(&self, seat: &mut Seat, slot: u32)
        requires seat { IsOf self.now seat.old }
        requires slot { slot < self.now.slots }
        requires next { MayReopen slot (view_of seat.old) }
        ensures { ChangesWord self.now (Slot slot) (λ _. 0)
            (reopened (view_of seat.old)) (reopens (number_of seat.old)) seat.old seat.new }
    {
        let place = slot_place(self.ring, slot);
        self.table.shared.store::<Reopen>(&mut seat.base, place, 0);
    }
}
