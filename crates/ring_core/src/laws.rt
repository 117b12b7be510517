//! The laws of the ring machine.

ghost use Rattle.std.specs.Prelude.{◌≡◌, ◌≤◌, ℕ, List};
ghost use Rattle.lsn_space.specs.declared.lsn.TheConstants.{LAST};
ghost use Rattle.ring_core.specs.State.{RingState};
ghost use Rattle.ring_core.specs.Machine.{start_state, RunsRing};
ghost use Rattle.ring_core.specs.Laws.{IsSound, LooksLastAtExposed};
ghost use Rattle.ring_core.specs.declared.event.RingEvent.{RingEvent};

/// The machine's laws: from any start and with any ring, every list of events leads to one state,
/// and this state is sound where the start is at most `LAST`.
pub fn ring_laws()
    ensures reaches { (start ring : ℕ) (events : List RingEvent) → (s : RingState) × RunsRing (start_state start ring) events s }
    ensures one_state { (old s t : RingState) (events : List RingEvent) → RunsRing old events s → RunsRing old events t → s ≡ t }
    ensures sound { (start ring : ℕ) (events : List RingEvent) (s : RingState) → start ≤ LAST
        → RunsRing (start_state start ring) events s → IsSound s }
    ensures last_look { (s : RingState) → IsSound s → LooksLastAtExposed s }
{}
