//! The numbers that the clauses take from the code.
ghost use Rattle.std.specs.Prelude.{◌≡◌};
ghost use Rattle.idle_backoff.specs.declared.TheConstants.{DOZE, LONG_DOZE, MANY};
ghost use Rattle.idle_backoff.specs.declared.idling.TheConstants.{SPINS, AWAKE, MOST_TRUST, TRIAL, SLEEP, SHORT_SLEEPS, MORE};
ghost use Rattle.idle_backoff.specs.declared.naps.TheConstants.{MOST_SLEEP};
ghost use Rattle.idle_backoff.specs.declared.rests.TheConstants.{FIRST, LEAST, MOST, SLEPT, RUN, WATCHED, TRIALS, TRIED, LOOKS};

/// A law: these are the lengths of sleeps and rests, in nanoseconds or as their constants say.
pub fn fixed_numbers()
    ensures most_sleep { MOST_SLEEP ≡ 1000000 }
    ensures doze { DOZE ≡ 10 }
    ensures long_doze { LONG_DOZE ≡ 60 }
    ensures many { MANY ≡ 256 }
    ensures spins { SPINS ≡ 7 }
    ensures awake { AWAKE ≡ 40000 }
    ensures most_trust { MOST_TRUST ≡ 8 }
    ensures trial { TRIAL ≡ 32 }
    ensures sleep { SLEEP ≡ 20 }
    ensures short_sleeps { SHORT_SLEEPS ≡ 8 }
    ensures more { MORE ≡ 10 }
{}

/// A law: these are the lengths of a worker's rests between two transfers, in nanoseconds, and how often they are tried.
pub fn fixed_rests()
    ensures first { FIRST ≡ 1000 }
    ensures least { LEAST ≡ 500 }
    ensures most { MOST ≡ 200000 }
    ensures slept { SLEPT ≡ 20000 }
    ensures run { RUN ≡ 128 }
    ensures watched { WATCHED ≡ 256 }
    ensures trials { TRIALS ≡ 64 }
    ensures tried { TRIED ≡ 4000 }
    ensures looks { LOOKS ≡ 4096 }
{}
