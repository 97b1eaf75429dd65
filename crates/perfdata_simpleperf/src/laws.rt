//! Laws about the constants of simpleperf.
ghost use Rattle.std.specs.Prelude.{◌≡◌};

use crate::simpleperf::simpleperf_dso_type::*;

/// The numbers of the types of files with symbols.
pub fn dso_type_numbers()
    ensures kernel { DSO_KERNEL ≡ 0 }
    ensures kernel_module { DSO_KERNEL_MODULE ≡ 1 }
    ensures elf_file { DSO_ELF_FILE ≡ 2 }
    ensures dex_file { DSO_DEX_FILE ≡ 3 }
    ensures symbol_map_file { DSO_SYMBOL_MAP_FILE ≡ 4 }
    ensures unknown_file { DSO_UNKNOWN_FILE ≡ 5 }
{}
