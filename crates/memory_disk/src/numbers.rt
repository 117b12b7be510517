//! The numbers that the clauses take from the code.
ghost use Rattle.std.specs.Prelude.{◌≡◌};
ghost use Rattle.memory_disk.specs.declared.memory_disk.TheConstants.{LONGEST_NAME, RECORD};

/// A law: the numbers that the definitions and the clauses take from the code.
pub fn fixed_numbers()
    ensures record { RECORD ≡ 16 }
    ensures name { LONGEST_NAME ≡ 255 }
{}
