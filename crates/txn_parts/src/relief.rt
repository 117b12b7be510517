//! What a worker does while it waits.

ghost use Rattle.std.specs.Prelude.{◌≡◌};

use crate::made::Made;
use crossbeam_utils::sync::Key;
use idle_backoff::{IdleBackoff, Rests};
use std::sync::Wait;
use std::time::Clock;

/// What a worker does between two attempts.
pub trait Relief {
    /// It may be asked to rest.
    ghost ready: { Self → Type 0 };

    /// What any number of rests leave; reflexive and transitive.
    ghost later: { Self → Self → Type 0 };

    /// What is waited for from here on is not known to take long.
    fn begin(&mut self)
        requires ready { ready self.old }
        ensures ready { ready self.new }
        ensures later { later self.old self.new };

    /// Rests once, and returns.
    fn rest(&mut self)
        requires ready { ready self.old }
        ensures ready { ready self.new }
        ensures later { later self.old self.new };

    /// Whether it had rather be woken now than rest again.
    fn is_tired(&self) -> bool;

    /// Waits with this key, or does what makes such a wait needless.
    fn sleep<R: Wait>(&mut self, rt: &R, key: Key<'_>)
        requires ready { ready self.old }
        ensures ready { ready self.new }
        ensures later { later self.old self.new };

    /// Rests between two transfers, where that pays, and returns. The worker has come so far, and lost so many exchanges in the last one.
    fn between(&mut self, made: Made, lost: u32)
        requires ready { ready self.old }
        ensures ready { ready self.new }
        ensures later { later self.old self.new };

    ghost later_refl: { (q : Self) → later q q };

    ghost later_trans: { (p q r : Self) → later p q → later q r → later p r };
}

/// Stays awake for a moment, where such waits are mostly over by then, and then sleeps: until it is woken, where that can be.
#[derive(Drop)]
pub struct YieldRelief<'a, C> {
    clock: &'a C,
    backoff: IdleBackoff,
    rests: Rests,
}

impl<'a, C> YieldRelief<'a, C> {
    /// Reads this clock, and has not rested yet.
    pub fn new(clock: &'a C) -> YieldRelief<'a, C>
        ensures { result.clock.now ≡ clock.now }
    {
        YieldRelief {
            clock,
            backoff: IdleBackoff::new(),
            rests: Rests::new(),
        }
    }
}

impl<'a, C: Clock> Relief for YieldRelief<'a, C> {
    ghost use Rattle.std.specs.Prelude.{⊤};

    ghost ready = { λ relief. ⊤ };

    // Nothing is known of how long it paused.
    ghost later = { λ old new. ⊤ };

    fn begin(&mut self) {
        self.backoff.reset();
    }

    fn rest(&mut self) {
        self.backoff.idle(self.clock);
    }

    fn is_tired(&self) -> bool {
        self.backoff.is_tired()
    }

    fn sleep<R: Wait>(&mut self, rt: &R, key: Key<'_>) {
        key.wait(rt);
    }

    #[inline(always)]
    fn between(&mut self, made: Made, lost: u32) {
        self.rests
            .behind(self.clock, made.units, made.end.units(), lost);
    }

    ghost later_refl = { λ relief. tt };

    ghost later_trans = { λ first mid last before after. tt };
}
