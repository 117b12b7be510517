//! The word by which a group's refusal is told: the tail in its high half, and durable in its low half.
ghost use Rattle.std.specs.Prelude.{◌≡◌, ◌+◌, ◌*◌, ◌/◌, ◌%◌, ◌^◌};
ghost use Rattle.log_rule.specs.Members.{LacksRoom};
ghost use Rattle.ring_buffer.specs.Calls.{Refuses};

use lsn_space::Lsn;
use ring_buffer::{Look, Refused};

/// One more than the greatest LSN.
const HALF: u64 = 0x1_0000_0000;

/// The word that tells by which look the group was refused.
#[inline(always)]
pub(crate) fn refusal_word(look: &Look) -> u64
    ensures { result ≡ look.now.tail * 2 ^ 32 + look.now.durable }
{
    look.tail.units() as u64 * HALF + look.durable.units() as u64
}

/// The refusal of a group of this total that the word tells.
#[inline(always)]
pub(crate) fn refusal_of(word: u64, total: u32, ring: u32) -> Refused
    requires lacks { LacksRoom ring total (word / 2 ^ 32) (word % 2 ^ 32) }
    ensures { Refuses ring (word / 2 ^ 32) (word % 2 ^ 32) total result }
{
    let tail = Lsn::new((word / HALF) as u32);
    let durable = Lsn::new((word % HALF) as u32);
    if tail.plus(total).is_none() {
        return Refused::LogEnd { tail, total };
    }
    Refused::RingFull {
        tail,
        durable,
        total,
    }
}
