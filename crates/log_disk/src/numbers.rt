//! The numbers that the clauses take from the code.
ghost use Rattle.std.specs.Prelude.{◌≡◌};
ghost use Rattle.log_disk.specs.declared.output_block.TheConstants.{BLOCK_BYTES, LINES_BYTES};
ghost use Rattle.log_disk.specs.declared.source.TheConstants.{READ_ALLOWANCE};

/// A law: the number of reads that the clauses take from the code is 4294967296, and the blocks have 64 KB and 4 KB.
pub fn fixed_numbers()
    ensures allowance { READ_ALLOWANCE ≡ 4294967296 }
    ensures block { BLOCK_BYTES ≡ 65536 }
    ensures lines { LINES_BYTES ≡ 4096 }
{}
