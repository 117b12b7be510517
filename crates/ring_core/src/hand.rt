//! The list of what each actor has in hand, and how it is looked up and changed.

ghost use Rattle.std.specs.Prelude.{◌≡◌, ◌≢◌, ◌<◌, ◌↔◌, ◌++◌, ◌∷◌, [], IsTrue, vec_len, vec_capacity};
ghost use Rattle.std.specs.Bool.{OnTrue, OnFalse};
ghost use Rattle.std.specs.List.{position};
ghost use Rattle.ring_core.specs.State.{row_of, stage_of, with_stage, base_in, looks_at, raises_from, after_look};
ghost use Rattle.ring_core.specs.declared.stage.Stage.TheVariants.{Idle, Works, Marked};
ghost use Rattle.ring_core.specs.Rows.{is_of};

use crate::stage::Stage;
use lsn_space::Lsn;
use std::marker::Model;

/// An actor, and what it has in hand.
#[derive(Drop)]
pub struct Hand {
    actor: u32,
    stage: Stage,
}

impl Model for Hand {
    ghost use Rattle.ring_core.specs.State.{Hand as HandRow};

    ghost Value = { HandRow };

    ghost view = { λ h. record { actor = h.actor; stage = h.stage } };
}

impl Hand {
    pub fn new(actor: u32, stage: Stage) -> Hand
        ensures { result ≡ row_of actor stage }
    {
        Hand { actor, stage }
    }
}

/// What the actor has in hand.
pub fn stage_in_hand(hands: &[Hand], actor: u32) -> Stage
    ensures { result ≡ stage_of actor hands.now }
{
    match index_of(hands, actor) {
        Some(at) => {
            let hand = &hands[at];
            hand.stage
        }
        None => Stage::Idle,
    }
}

/// Whether this is nothing.
pub fn is_idle(stage: Stage) -> bool
    ensures { IsTrue result ↔ stage ≡ Idle }
{
    match stage {
        Stage::Idle => true,
        Stage::Works { .. } | Stage::Marked | Stage::Holds { .. } | Stage::Raises { .. } => false,
    }
}

/// Whether this is a mark just made.
pub fn is_marked(stage: Stage) -> bool
    ensures { IsTrue result ↔ stage ≡ Marked }
{
    match stage {
        Stage::Marked => true,
        Stage::Idle | Stage::Works { .. } | Stage::Holds { .. } | Stage::Raises { .. } => false,
    }
}

/// The base that an actor works on which has this in hand.
pub fn base_in(stage: Stage) -> Option<Lsn>
    ensures { result ≡ base_in stage }
{
    match stage {
        Stage::Works { base } => Some(base),
        Stage::Idle | Stage::Marked | Stage::Holds { .. } | Stage::Raises { .. } => None,
    }
}

/// The LSN at whose mark an actor is about to look which has this in hand.
pub fn looks_at(stage: Stage) -> Option<Lsn>
    ensures { result ≡ looks_at stage }
{
    match stage {
        Stage::Holds { at } => Some(at),
        Stage::Idle | Stage::Works { .. } | Stage::Marked | Stage::Raises { .. } => None,
    }
}

/// The LSN from which an actor is about to raise exposed which has this in hand.
pub fn raises_from(stage: Stage) -> Option<Lsn>
    ensures { result ≡ raises_from stage }
{
    match stage {
        Stage::Raises { at } => Some(at),
        Stage::Idle | Stage::Works { .. } | Stage::Marked | Stage::Holds { .. } => None,
    }
}

/// What an actor has in hand that held `at` and looked at the mark there.
pub fn stage_after_look(at: Lsn, is_marked: bool) -> Stage
    ensures { result ≡ after_look at is_marked }
{
    if is_marked {
        Stage::Raises { at }
    } else {
        Stage::Idle
    }
}

/// Notes that the actor, which may have no row yet, works on the reservation at `base`.
pub fn take_up(hands: &mut Vec<Hand>, actor: u32, base: Lsn)
    requires { vec_len hands.old < vec_capacity hands.old }
    ensures { hands.new.items ≡ with_stage actor (Works base) hands.old.items }
{
    if !put(hands, actor, Stage::Works { base }) {
        hands.push_reserved(Hand::new(actor, Stage::Works { base }));
    }
}

/// Notes what the actor, which had something in hand, has now.
pub fn turn_to(hands: &mut [Hand], actor: u32, stage: Stage)
    requires { stage_of actor hands.old ≢ Idle }
    ensures { hands.new ≡ with_stage actor stage hands.old }
{
    put(hands, actor, stage);
}

/// Notes what the actor has in hand, where it has a row, and answers whether it has one.
fn put(hands: &mut [Hand], actor: u32, stage: Stage) -> bool
    ensures noted { OnTrue result (hands.new ≡ with_stage actor stage hands.old) }
    ensures same { OnFalse result (hands.new ≡ hands.old) }
    ensures absent { OnFalse result (with_stage actor stage hands.old ≡ hands.old ++ row_of actor stage ∷ []) }
    ensures idle { OnFalse result (stage_of actor hands.old ≡ Idle) }
{
    match index_of(hands, actor) {
        Some(at) => {
            hands[at] = Hand::new(actor, stage);
            true
        }
        None => false,
    }
}

/// The index of the actor's row.
fn index_of(hands: &[Hand], actor: u32) -> Option<usize>
    ensures { result ≡ position (is_of actor) hands.now }
{
    hands.iter().position(|hand| hand.actor == actor)
}
