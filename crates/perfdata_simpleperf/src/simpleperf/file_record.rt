//! The record of a file with its symbols.
ghost use Rattle.std.specs.Prelude.{◌≡◌, ◌⊎◌, List, IfOk, IfErr, IsErrAnd, MatchResult};
ghost use Rattle.perfdata_simpleperf.specs.FileRecord.{FileValue, record_value};
ghost use Rattle.perfdata_simpleperf.specs.Protobuf.Fields.{FieldValue};
ghost use Rattle.perfdata_simpleperf.specs.Protobuf.Messages.{IsFileMessage, FileMessageError};
ghost use Rattle.perfdata_simpleperf.specs.Protobuf.Messages.{FileNeedsMemory};
ghost use Rattle.perfdata_simpleperf.specs.Protobuf.Values.{HasValue, IsFileRecord};
ghost use Rattle.perfdata_sections.specs.declared.decode_error.DecodeError.{DecodeError};
ghost use Rattle.perfdata_sections.specs.declared.decode_error.DecodeError.TheVariants.{Memory};

use crate::protobuf::messages::decode_file_record;
use perfdata_sections::decode_error::DecodeError;
use std::alloc::Global;

/// A symbol of a file.
#[derive(Debug, PartialEq, Eq, Drop)]
pub struct SimpleperfSymbol {
    /// The symbol's address in the file's own address space.
    pub vaddr: u64,
    /// The symbol's size in bytes.
    pub len: u32,
    /// The symbol's name.
    pub name: String,
}

/// Information on a DEX file.
#[derive(Debug, PartialEq, Eq, Drop)]
pub struct SimpleperfDexFileInfo {
    /// Offsets of the DEX files in the file, in bytes from its start.
    pub dex_file_offset: Vec<u64>,
}

/// Information on an ELF file.
#[derive(Clone, Debug, Default, PartialEq, Eq, Drop)]
pub struct SimpleperfElfFileInfo {
    /// Offset in the file of the bytes at the lowest address, in bytes from the start of the file.
    pub file_offset_of_min_vaddr: u64,
}

/// Information on a kernel module.
#[derive(Clone, Debug, Default, PartialEq, Eq, Drop)]
pub struct SimpleperfKernelModuleInfo {
    /// Offset in the module's memory of the bytes at the lowest address, in bytes.
    pub memory_offset_of_min_vaddr: u64,
}

/// Information that depends on the type of a file.
#[derive(Debug, PartialEq, Eq, Drop)]
pub enum SimpleperfTypeSpecificInfo {
    /// For a DEX file.
    SimpleperfDexFileInfo(SimpleperfDexFileInfo),
    /// For an ELF file.
    ElfFile(SimpleperfElfFileInfo),
    /// For a kernel module.
    KernelModule(SimpleperfKernelModuleInfo),
}

/// A sampled file with its symbols (sections FILE and FILE2 of Android's simpleperf).
#[derive(Debug, PartialEq, Eq, Drop)]
pub struct SimpleperfFileRecord {
    /// The path of the file.
    pub path: String,
    /// The type of the file. `simpleperf_dso_type` defines its values.
    pub type_: u32,
    /// The lowest address of the file's code.
    pub min_vaddr: u64,
    /// The symbols of the file.
    pub symbol: Vec<SimpleperfSymbol>,
    /// Information that depends on the type of the file.
    pub type_specific_msg: Option<SimpleperfTypeSpecificInfo>,
}

impl SimpleperfFileRecord {
    /// Decodes the record in a protobuf message (message `FileFeature` of simpleperf's `record_file.proto`).
    ///
    /// The message is all of `bytes`. Unknown fields are skipped.
    ///
    /// Returns the first error in the message, from left to right, or `Memory` if out of memory.
    pub fn decode(alloc: Global, bytes: &[u8]) -> Result<Self, DecodeError>
        // The bytes are a valid message, and the record is its value.
        ensures on_ok { IfOk result (λ r. IsFileRecord bytes.now (record_value r)) }
        // A valid message is decoded, unless memory runs out.
        ensures message { (ps : List FieldValue) → IsFileMessage bytes.now ps
            → MatchResult result (λ r. HasValue ps (record_value r)) (λ e. e ≡ Memory) }
        // The message has no other value.
        ensures no_other { (v : FileValue) → IsFileRecord bytes.now v
            → MatchResult result (λ r. record_value r ≡ v) (λ e. e ≡ Memory) }
        // Unless memory runs out, an error is an error of the message with only complete fields before it.
        ensures on_error { IfErr result (λ e. (e ≡ Memory) ⊎ FileMessageError bytes.now e) }
        // Memory runs out only for a field of the message with only valid fields before it.
        ensures memory { IfErr result (λ e. e ≡ Memory → FileNeedsMemory bytes.now) }
        // Such an error of the message is returned, unless memory runs out before it.
        ensures first_error { (e : DecodeError) → FileMessageError bytes.now e
            → IsErrAnd result (λ f. (f ≡ Memory) ⊎ (f ≡ e)) }
    {
        decode_file_record(alloc, bytes)
    }
}
