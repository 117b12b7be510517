//! Laws of the definitions. The functions do nothing.

ghost use Rattle.std.specs.Prelude.{◌≡◌};
ghost use Rattle.lsn_space.specs.declared.numerals.TheConstants.{MOST_GENERATED};
ghost use Rattle.txn_script.specs.declared.generator.TheConstants.{GENERATED_ACCOUNTS, GENERATED_BALANCE};
ghost use Rattle.txn_script.specs.declared.lines.TheConstants.{LF};
ghost use Rattle.txn_script.specs.declared.pay.TheConstants.{SPACE};

/// A law: the numbers that the definitions take from the code are those of the texts and of the generated transfers.
pub fn format_numbers()
    ensures line_feed { LF ≡ 10 }
    ensures space { SPACE ≡ 32 }
    ensures accounts { GENERATED_ACCOUNTS ≡ 64 }
    ensures balance { GENERATED_BALANCE ≡ 1000000 }
    ensures transfers { MOST_GENERATED ≡ 100000 }
{}
