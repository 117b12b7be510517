//! The laws of the machine.

ghost use Rattle.std.specs.Prelude.{◌≡◌, ◌≤◌, ℕ, List};
ghost use Rattle.std.specs.List.{AllByRecursion};
ghost use Rattle.lsn_space.specs.declared.lsn.TheConstants.{LAST};
ghost use Rattle.ring_core.specs.State.{RingState, log_of};
ghost use Rattle.ring_core.specs.Machine.{RunsRing};
ghost use Rattle.slot_core.specs.State.{Group, SlotState, empty_group, group_at};
ghost use Rattle.slot_core.specs.Machine.{GroupEvent, start_state, RunsGroups};
ghost use Rattle.slot_core.specs.Laws.{IsSound, IsAtRest};
ghost use Rattle.slot_core.specs.Plain.{HasOwners, WorksAlone, IsOfOneSlot, IsOfOneKind, LeadsFromZero, StepsAlone, HoldsPiece, HasPiecesApart, HasPiecesInRange, SumsRemaining};
ghost use Rattle.slot_core.specs.RingPart.{with_groups, ring_events, IsNoJoin};

/// The machine's laws: from any start, with any ring and any number of slots, every list of events leads to one state, and this
/// state is sound where the start is at most `LAST`. Where nobody has anything in hand all is exposed, and every slot is vacant.
pub fn slot_laws()
    ensures reaches { (start ring slots : ℕ) (events : List GroupEvent)
        → (s : SlotState) × RunsGroups (start_state start ring slots) events s }
    ensures one_state { (old s t : SlotState) (events : List GroupEvent) → RunsGroups old events s → RunsGroups old events t → s ≡ t }
    ensures sound { (start ring slots : ℕ) (events : List GroupEvent) (s : SlotState) → start ≤ LAST
        → RunsGroups (start_state start ring slots) events s → IsSound s }
    ensures exposed_at_rest { (s : SlotState) → IsSound s → IsAtRest s → s.log.exposed ≡ s.log.tail }
    ensures empty_at_rest { (s : SlotState) → IsSound s → IsAtRest s → (slot : ℕ) → group_at slot s.groups ≡ empty_group }
{}

/// What soundness says of owners, in plain words. A reservation that isn't marked is worked on by an actor, or is the range of the
/// group at a slot; by one, and not by both.
pub fn owner_laws()
    ensures owned { (s : SlotState) → IsSound s → HasOwners s }
    ensures one_actor { (s : SlotState) → IsSound s → WorksAlone s }
    ensures one_slot { (s : SlotState) → IsSound s → IsOfOneSlot s }
    ensures not_both { (s : SlotState) → IsSound s → IsOfOneKind s }
{}

/// What soundness says of a group, in plain words. Who joins at offset 0 leads, and no other. The actor that makes a slot's next step
/// is the one whom the group names, and no other. A member's piece is the one that it has in hand; pieces of two members lie apart,
/// and, where the group has a range, within it. What remains of a group that is told is the sum of the pieces that aren't released.
pub fn group_laws()
    ensures leader { (s : SlotState) → IsSound s → LeadsFromZero s }
    ensures next_step { (s : SlotState) → IsSound s → StepsAlone s }
    ensures piece { (s : SlotState) → IsSound s → HoldsPiece s }
    ensures apart { (s : SlotState) → IsSound s → HasPiecesApart s }
    ensures in_range { (s : SlotState) → IsSound s → HasPiecesInRange s }
    ensures remains { (s : SlotState) → IsSound s → SumsRemaining s }
{}

/// A law: the ring machine is this one without slots. Where nobody joins, both have the same log after the same events.
pub fn ring_part_law()
    ensures { (groups : List Group) (old new : RingState) (s : SlotState) (events : List GroupEvent) → AllByRecursion IsNoJoin events
        → RunsRing old (ring_events events) new → RunsGroups (with_groups groups old) events s → s.log ≡ log_of new }
{}
