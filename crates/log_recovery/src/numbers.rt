//! The numbers that the clauses take from the code.

ghost use Rattle.std.specs.Prelude.{◌≡◌};
ghost use Rattle.log_recovery.specs.declared.line.TheConstants.{LINE_BYTES};

/// A law: a line of a text has room for 256 bytes.
pub fn fixed_numbers()
    ensures { LINE_BYTES ≡ 256 }
{}
