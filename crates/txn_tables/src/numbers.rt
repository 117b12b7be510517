//! The numbers that the clauses take from the code.

ghost use Rattle.std.specs.Prelude.{◌≡◌};
ghost use Rattle.txn_tables.specs.declared.node.TheConstants.{WAYS};
ghost use Rattle.txn_tables.specs.declared.scattered.TheConstants.{ROOTS};
ghost use Rattle.txn_tables.specs.declared.txn_table.TheConstants.{FIRST_PLACES};

/// A law: two ways lead on from a node, so each of them takes a bit; the roots take 16 bits; at first there are 4096 places.
pub fn fixed_numbers()
    ensures ways { WAYS ≡ 2 }
    ensures roots { ROOTS ≡ 65536 }
    ensures places { FIRST_PLACES ≡ 4096 }
{}
