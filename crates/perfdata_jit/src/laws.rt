//! A law of jitdump readers, over the specifications of their calls, and laws about the record types.
ghost use Rattle.std.specs.Prelude.{◌≡◌};
ghost use Rattle.perfdata_jit.specs.Comparisons.{JitTypesEqualByNumber, JitTypesHashByNumber};
ghost use Rattle.perfdata_jit.specs.Comparisons.{JitTypesOrderedByNumber};
ghost use Rattle.perfdata_jit.specs.Trace.{NothingIsLost};

use crate::record::JitDumpRecordType;
use perfdata_base::source::Source;

/// Proves that calls in any order return or skip the first unread records in order, and leave all bytes after
/// them unread. The law holds unless a seek fails.
pub fn nothing_is_lost<R: Source>()
    ensures { NothingIsLost R.state }
{}

/// The numbers of the types of jitdump records.
pub fn jit_record_type_numbers()
    ensures code_load { JitDumpRecordType.JIT_CODE_LOAD.0 ≡ 0 }
    ensures code_move { JitDumpRecordType.JIT_CODE_MOVE.0 ≡ 1 }
    ensures code_debug_info { JitDumpRecordType.JIT_CODE_DEBUG_INFO.0 ≡ 2 }
    ensures code_close { JitDumpRecordType.JIT_CODE_CLOSE.0 ≡ 3 }
    ensures code_unwinding_info { JitDumpRecordType.JIT_CODE_UNWINDING_INFO.0 ≡ 4 }
{}

/// Types of jitdump records are equal if and only if their numbers are. Equal types have the same hash, and
/// the order of types is that of their numbers.
pub fn jit_record_types_compare_by_number()
    ensures equality { JitTypesEqualByNumber }
    ensures hash { JitTypesHashByNumber }
    ensures order { JitTypesOrderedByNumber }
{}
