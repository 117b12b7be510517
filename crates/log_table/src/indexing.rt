//! Where a unit of the ring, or a release mark, lies. In a ring of the usual length no division is made for it: one costs about as
//! much as a locked step, and a transfer of one leg would take a dozen.
ghost use Rattle.std.specs.Prelude.{◌≡◌, ◌≤◌, ◌+◌, ◌%◌};
ghost use Rattle.lsn_space.specs.declared.lsn.TheConstants.{LEAST_RING, GREATEST_RING};
ghost use Rattle.table_layout.specs.declared.layout.TheConstants.{RING};

use lsn_space::Lsn;
use table_layout::RING;

/// The length of a ring where no other is asked for. It is a power of two, so that the remainder is a mask.
const USUAL_RING: u32 = 65536;

/// The index of an address in a ring of so many units.
#[inline(always)]
pub(crate) fn place(lsn: Lsn, ring: u32) -> usize
    requires { 1 ≤ ring }
    ensures { result ≡ lsn % ring }
{
    if ring == USUAL_RING {
        lsn_space::place(lsn, USUAL_RING)
    } else {
        lsn_space::place(lsn, ring)
    }
}

/// Where the release mark of the range that begins at an LSN lies.
#[inline(always)]
pub(crate) fn mark_place(ring: u32, at: Lsn) -> usize
    requires { (LEAST_RING ≤ ring) × (ring ≤ GREATEST_RING) }
    ensures { result ≡ RING + ring + at % ring }
{
    RING + ring as usize + place(at, ring)
}
