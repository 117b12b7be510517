//! What a pass of the queue knows, the rule that it is kept by, and what each step tells.
use crossbeam_queue::protocol::{Join, Lesson, Outcome, Protocol, Split};
use std::collections::LinkedList;

/// What a pass knows: how many places and marks were put, and how many passes are out (the first pass alone keeps these up to
/// date), how many marks it may take, and which places and marks it has taken, and those that it took back. No value of it is
/// made.
pub struct Takings {
    pub live: bool,
    pub count: u64,
    pub marks: u64,
    pub out: u64,
    pub marks_left: u64,
    pub places: LinkedList<u64>,
    pub own_marks: LinkedList<u64>,
    pub places_back: LinkedList<u64>,
    pub marks_back: LinkedList<u64>,
}

/// The rule of the queue: what was put is taken in order, each number by one pass.
pub struct OneByOne;

impl Protocol<u32, Takings> for OneByOne {
    ghost use Rattle.std.specs.Prelude.{true};
    ghost use Rattle.job_queue.specs.Takings.{fresh};
    ghost use Rattle.job_queue.specs.Rule.{IsShared};

    ghost holds = { IsShared };

    ghost first = { fresh true 0 0 0 0 };
}

/// The next place is put.
pub(crate) struct PutsPlace;

impl Outcome<u32, Takings> for PutsPlace {
    ghost use Rattle.std.specs.Prelude.{◌≡◌};
    ghost use Rattle.job_queue.specs.Takings.{put_place};

    ghost then = { λ v x w. w ≡ put_place v };
}

/// The next mark is put.
pub(crate) struct PutsMark;

impl Outcome<u32, Takings> for PutsMark {
    ghost use Rattle.std.specs.Prelude.{◌≡◌};
    ghost use Rattle.job_queue.specs.Takings.{put_mark};

    ghost then = { λ v x w. w ≡ put_mark v };
}

// The queue holds no more than was put.

impl Lesson<u32, Takings> for PutsPlace {
    ghost use Rattle.std.specs.Prelude.{◌≤◌, ◌+◌, length};

    ghost fact = { λ v items. length items ≤ v.count + v.marks };
}

impl Lesson<u32, Takings> for PutsMark {
    ghost use Rattle.std.specs.Prelude.{◌≤◌, ◌+◌, length};

    ghost fact = { λ v items. length items ≤ v.count + v.marks };
}

/// The next place is taken, or a mark.
pub(crate) struct Takes;

impl Outcome<u32, Takings> for Takes {
    ghost use Rattle.job_queue.specs.Takings.{TakesNext};

    ghost then = { TakesNext };
}

/// While the pass may take a mark, the queue isn't empty.
impl Lesson<u32, Takings> for Takes {
    ghost use Rattle.std.specs.Prelude.{◌≤◌, length};

    ghost fact = { λ v items. 1 ≤ v.marks_left → 1 ≤ length items };
}

/// A worker's pass is made of the first.
pub(crate) struct Enlists;

impl Split<Takings> for Enlists {
    ghost use Rattle.job_queue.specs.Takings.{handed_out, worker_of};

    ghost left = { handed_out };

    ghost right = { worker_of };
}

/// The first pass takes a worker's back.
pub(crate) struct Dismisses;

impl Join<Takings> for Dismisses {
    ghost use Rattle.std.specs.Prelude.{false};
    ghost use Rattle.job_queue.specs.Takings.{fresh, took_back};

    ghost both = { took_back };

    ghost spent = { fresh false 0 0 0 0 };
}

/// What the first pass has back was taken once, and each mark is out, left or taken.
pub(crate) struct Balances;

impl Lesson<u32, Takings> for Balances {
    ghost use Rattle.job_queue.specs.Takings.{IsBalanced};

    ghost fact = { λ v items. IsBalanced v };
}

/// What the first pass learns once it has all others back.
pub(crate) struct Counts;

impl Lesson<u32, Takings> for Counts {
    ghost use Rattle.std.specs.Prelude.{◌≡◌};
    ghost use Rattle.job_queue.specs.Takings.{HasAllBelow};

    ghost fact = { λ v items. v.out ≡ 0 → HasAllBelow v };
}
