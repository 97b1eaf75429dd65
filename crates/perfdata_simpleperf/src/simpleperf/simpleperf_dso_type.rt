//! The type of the file that a symbol table belongs to, as in the record's `type_`.

/// The kernel.
pub const DSO_KERNEL: u32 = 0;

/// A kernel module.
pub const DSO_KERNEL_MODULE: u32 = 1;

/// An ELF file.
pub const DSO_ELF_FILE: u32 = 2;

/// A file that contains DEX code, such as a `.vdex` file.
pub const DSO_DEX_FILE: u32 = 3;

/// A symbol map, as JIT runtimes write it.
pub const DSO_SYMBOL_MAP_FILE: u32 = 4;

/// A file of another type.
pub const DSO_UNKNOWN_FILE: u32 = 5;
