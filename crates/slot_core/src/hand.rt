//! The list of what each actor has in hand, and how it is looked up and changed.

ghost use Rattle.std.specs.Prelude.{◌≡◌, ◌≢◌, ◌<◌, vec_len, vec_capacity};
ghost use Rattle.std.specs.List.{position};
ghost use Rattle.slot_core.specs.State.{nothing, row_of, task_of, with_task};
ghost use Rattle.slot_core.specs.Rows.{is_row_of};

use slot_parts::Task;
use std::marker::Model;

/// An actor, and what it has in hand.
#[derive(Drop)]
pub struct Hand {
    actor: u32,
    task: Task,
}

impl Model for Hand {
    ghost use Rattle.slot_core.specs.State.{Hand as HandRow};

    ghost Value = { HandRow };

    ghost view = { λ h. record { actor = h.actor; task = h.task } };
}

impl Hand {
    pub fn new(actor: u32, task: Task) -> Hand
        ensures { result ≡ row_of actor task }
    {
        Hand { actor, task }
    }
}

/// What the actor has in hand.
pub fn task_of(hands: &[Hand], actor: u32) -> Task
    ensures { result ≡ task_of actor hands.now }
{
    match index_of(hands, actor) {
        Some(at) => {
            let hand = &hands[at];
            hand.task
        }
        None => Task::nothing(),
    }
}

/// Notes that the actor has this in hand, whatever it had.
pub fn take_up(hands: &mut Vec<Hand>, actor: u32, task: Task)
    requires { vec_len hands.old < vec_capacity hands.old }
    ensures { hands.new.items ≡ with_task actor task hands.old.items }
{
    match index_of(hands, actor) {
        Some(at) => hands[at] = Hand::new(actor, task),
        None => hands.push_reserved(Hand::new(actor, task)),
    }
}

/// Notes that the actor, which had something in hand, has this.
pub fn turn(hands: &mut Vec<Hand>, actor: u32, task: Task)
    requires { task_of actor hands.old.items ≢ nothing }
    ensures { hands.new.items ≡ with_task actor task hands.old.items }
{
    if let Some(at) = index_of(hands, actor) {
        hands[at] = Hand::new(actor, task);
    }
}

/// The index of the actor's row.
fn index_of(hands: &[Hand], actor: u32) -> Option<usize>
    ensures { result ≡ position (is_row_of actor) hands.now }
{
    hands.iter().position(|hand| hand.actor == actor)
}
