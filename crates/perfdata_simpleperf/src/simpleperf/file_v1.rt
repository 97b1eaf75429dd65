//! Decodes a file record of the older simpleperf format.
ghost use Rattle.std.specs.Prelude.{◌≡◌, ◌⊎◌, ◌≤◌, List, length, map, string_bytes, IfOk, IfErr, IsErrAnd};
ghost use Rattle.std.specs.Prelude.{MatchResult};
ghost use Rattle.std.specs.IoError.{error_kind};
ghost use Rattle.std.specs.declared.io.ErrorKind.{ErrorKind};
ghost use Rattle.std.specs.declared.io.ErrorKind.TheVariants.{OutOfMemory};
ghost use Rattle.perfdata_simpleperf.specs.FileRecord.{FileValue, symbol_value, info_value, record_value};
ghost use Rattle.perfdata_simpleperf.specs.FileV1.{IntegerAt, IntegerError, BoundedAt, BoundedError};
ghost use Rattle.perfdata_simpleperf.specs.FileV1.{CountedAt, CountedError, SymbolAt, SymbolError, OffsetAt};
ghost use Rattle.perfdata_simpleperf.specs.FileV1.{OffsetError, InfoAt, InfoError, IsV1, V1Error};

use crate::simpleperf::nul_text::split_nul_text;
use crate::simpleperf::simpleperf_dso_type::{
    DSO_DEX_FILE, DSO_ELF_FILE, DSO_KERNEL_MODULE, DSO_UNKNOWN_FILE,
};
use crate::simpleperf::{
    SimpleperfDexFileInfo, SimpleperfElfFileInfo, SimpleperfFileRecord, SimpleperfKernelModuleInfo,
    SimpleperfSymbol, SimpleperfTypeSpecificInfo,
};
use byteorder::ByteOrder;
use perfdata_base::raw::FileOrder;
use perfdata_base::source::unexpected_eof;
use std::alloc::Global;
use std::io::{Error, ErrorKind, Result};

// Splits a number of 4 bytes off the start of `bytes`. Returns it with the rest.
fn split_u32<T: ByteOrder>(bytes: &[u8]) -> Result<(u32, &[u8])>
    ensures on_ok { IfOk result (λ x. IntegerAt T.number_of 4 bytes.now x.0 x.1.now) }
    ensures on_error { IfErr result (λ e. IntegerError T.number_of 4 bytes.now (error_kind e)) }
{
    if bytes.len() < 4 {
        return Err(unexpected_eof());
    }
    let (_, rest) = bytes.split_at(4);
    Ok((T::read_u32(bytes), rest))
}

// Splits a number of 8 bytes off the start of `bytes`. Returns it with the rest.
fn split_u64<T: ByteOrder>(bytes: &[u8]) -> Result<(u64, &[u8])>
    ensures on_ok { IfOk result (λ x. IntegerAt T.number_of 8 bytes.now x.0 x.1.now) }
    ensures on_error { IfErr result (λ e. IntegerError T.number_of 8 bytes.now (error_kind e)) }
{
    if bytes.len() < 8 {
        return Err(unexpected_eof());
    }
    let (_, rest) = bytes.split_at(8);
    Ok((T::read_u64(bytes), rest))
}

// Splits a file type, which is at most `DSO_UNKNOWN_FILE`, off the start of `bytes`. Returns it with the
// rest.
fn split_file_type<T: ByteOrder>(bytes: &[u8]) -> Result<(u32, &[u8])>
    ensures on_ok { IfOk result (λ x. BoundedAt T.number_of (λ _. 5) bytes.now x.0 x.1.now) }
    ensures on_error { IfErr result (λ e. BoundedError T.number_of (λ _. 5) bytes.now (error_kind e)) }
{
    let (type_, rest) = split_u32::<T>(bytes)?;
    if type_ > DSO_UNKNOWN_FILE {
        return Err(Error::from(ErrorKind::InvalidData));
    }
    Ok((type_, rest))
}

// Splits a count of items off the start of `bytes`. Returns it with the rest. Each item has at least one
// byte: a count above the number of bytes after it is invalid.
fn split_count<T: ByteOrder>(bytes: &[u8]) -> Result<(u32, &[u8])>
    ensures on_ok { IfOk result (λ x. BoundedAt T.number_of length bytes.now x.0 x.1.now) }
    ensures on_error { IfErr result (λ e. BoundedError T.number_of length bytes.now (error_kind e)) }
{
    let (count, rest) = split_u32::<T>(bytes)?;
    if count as usize > rest.len() {
        return Err(Error::from(ErrorKind::InvalidData));
    }
    Ok((count, rest))
}

// Splits a symbol off the start of `bytes`. Returns it with the rest.
fn split_symbol<T: ByteOrder>(alloc: Global, bytes: &[u8]) -> Result<(SimpleperfSymbol, &[u8])>
    ensures on_ok { IfOk result (λ x. SymbolAt T.number_of bytes.now (symbol_value x.0) x.1.now) }
    ensures on_error { IfErr result (λ e. (error_kind e ≡ OutOfMemory)
        ⊎ SymbolError T.number_of bytes.now (error_kind e)) }
{
    let (vaddr, rest) = split_u64::<T>(bytes)?;
    let (len, rest) = split_u32::<T>(rest)?;
    let (text, rest) = split_nul_text(rest)?;
    let name = String::from_str(alloc, text)?;
    Ok((SimpleperfSymbol { vaddr, len, name }, rest))
}

// Splits a count and that many symbols off the start of `bytes`. Returns the symbols with the rest.
fn split_symbols<T: ByteOrder>(
    alloc: Global,
    bytes: &[u8],
) -> Result<(Vec<SimpleperfSymbol>, &[u8])>
    ensures on_ok { IfOk result (λ x. CountedAt T.number_of (SymbolAt T.number_of) bytes.now
        (map symbol_value x.0.items) x.1.now) }
    ensures on_error { IfErr result (λ e. (error_kind e ≡ OutOfMemory)
        ⊎ CountedError T.number_of (SymbolAt T.number_of) (SymbolError T.number_of) bytes.now
        (error_kind e)) }
{
    let (count, start) = split_count::<T>(bytes)?;
    let mut symbols = Vec::new(alloc);
    let mut rest = start;
    'symbols: for _index in 0..count {
        let (symbol, after) = split_symbol::<T>(alloc, rest)?;
        symbols.push(symbol)?;
        rest = after;
    }
    Ok((symbols, rest))
}

// Splits a count and that many offsets off the start of `bytes`. Returns the offsets with the rest.
fn split_offsets<T: ByteOrder>(alloc: Global, bytes: &[u8]) -> Result<(Vec<u64>, &[u8])>
    ensures on_ok { IfOk result (λ x. CountedAt T.number_of
        (IntegerAt T.number_of 8) bytes.now x.0.items x.1.now) }
    ensures on_error { IfErr result (λ e. (error_kind e ≡ OutOfMemory)
        ⊎ CountedError T.number_of (IntegerAt T.number_of 8) (IntegerError T.number_of 8) bytes.now
        (error_kind e)) }
{
    let (count, start) = split_count::<T>(bytes)?;
    let mut offsets = Vec::new(alloc);
    let mut rest = start;
    'offsets: for _index in 0..count {
        let (offset, after) = split_u64::<T>(rest)?;
        offsets.push(offset)?;
        rest = after;
    }
    Ok((offsets, rest))
}

// Splits an offset off the start of `bytes`. Returns it with the rest. If `bytes` is empty, the offset is
// `u64::MAX`.
fn split_offset<T: ByteOrder>(bytes: &[u8]) -> Result<(u64, &[u8])>
    ensures on_ok { IfOk result (λ x. OffsetAt T.number_of bytes.now x.0 x.1.now) }
    ensures on_error { IfErr result (λ e. OffsetError T.number_of bytes.now (error_kind e)) }
{
    if bytes.is_empty() {
        return Ok((u64::MAX, bytes));
    }
    split_u64::<T>(bytes)
}

// Splits off the information at the end of a record of this file type. Returns it with the rest.
fn split_info<T: ByteOrder>(
    alloc: Global,
    type_: u32,
    bytes: &[u8],
) -> Result<(Option<SimpleperfTypeSpecificInfo>, &[u8])>
    ensures on_ok { IfOk result (λ x. InfoAt T.number_of type_ bytes.now (info_value x.0) x.1.now) }
    ensures on_error { IfErr result (λ e. (error_kind e ≡ OutOfMemory)
        ⊎ InfoError T.number_of type_ bytes.now (error_kind e)) }
{
    match type_ {
        DSO_DEX_FILE => {
            let (dex_file_offset, rest) = split_offsets::<T>(alloc, bytes)?;
            let info = SimpleperfDexFileInfo { dex_file_offset };
            Ok((
                Some(SimpleperfTypeSpecificInfo::SimpleperfDexFileInfo(info)),
                rest,
            ))
        }
        DSO_ELF_FILE => {
            let (file_offset_of_min_vaddr, rest) = split_offset::<T>(bytes)?;
            let info = SimpleperfElfFileInfo {
                file_offset_of_min_vaddr,
            };
            Ok((Some(SimpleperfTypeSpecificInfo::ElfFile(info)), rest))
        }
        DSO_KERNEL_MODULE => {
            let (memory_offset_of_min_vaddr, rest) = split_offset::<T>(bytes)?;
            let info = SimpleperfKernelModuleInfo {
                memory_offset_of_min_vaddr,
            };
            Ok((Some(SimpleperfTypeSpecificInfo::KernelModule(info)), rest))
        }
        _ => Ok((None, bytes)),
    }
}

// Decodes the record at the start of `bytes`.
fn decode_v1_record<T: ByteOrder>(alloc: Global, bytes: &[u8]) -> Result<SimpleperfFileRecord>
    ensures on_ok { IfOk result (λ r. IsV1 T.number_of bytes.now (record_value r)) }
    ensures on_error { IfErr result (λ e. (error_kind e ≡ OutOfMemory)
        ⊎ V1Error T.number_of bytes.now (error_kind e)) }
{
    let (text, rest) = split_nul_text(bytes)?;
    let (type_, rest) = split_file_type::<T>(rest)?;
    let (min_vaddr, rest) = split_u64::<T>(rest)?;
    let (symbol, rest) = split_symbols::<T>(alloc, rest)?;
    let (type_specific_msg, _) = split_info::<T>(alloc, type_, rest)?;
    let path = String::from_str(alloc, text)?;
    Ok(SimpleperfFileRecord {
        path,
        type_,
        min_vaddr,
        symbol,
        type_specific_msg,
    })
}

impl SimpleperfFileRecord {
    /// Decodes the record at the start of `bytes` as older simpleperf writes it in section FILE.
    ///
    /// `T` is the byte order. The record consists of the path up to a NUL, the type (4 bytes), the lowest
    /// address (8 bytes), the number of symbols (4 bytes) and the symbols. A symbol is an address (8 bytes),
    /// a length (4 bytes) and a name up to a NUL. A DEX file then has a count (4 bytes) and that many offsets
    /// (8 bytes each). An ELF file or a kernel module has an offset (8 bytes), which is 2^64 - 1 if no bytes
    /// remain. Bytes after the record are ignored.
    ///
    /// Returns the first error, from left to right. Its kind is `UnexpectedEof` if a part is truncated, and
    /// `InvalidData` if a string isn't UTF-8, the type is above 5, or a count exceeds the number of bytes
    /// after it. The kind is `OutOfMemory` if out of memory.
    pub fn decode_v1<T: FileOrder>(alloc: Global, bytes: &[u8]) -> Result<Self>
        // The bytes begin with a record of this value.
        ensures on_ok { IfOk result (λ r. IsV1 T.number_of bytes.now (record_value r)) }
        // A valid record is decoded, unless memory runs out, and has no other value.
        ensures no_other { (v : FileValue) → IsV1 T.number_of bytes.now v
            → MatchResult result (λ r. record_value r ≡ v) (λ e. error_kind e ≡ OutOfMemory) }
        // Unless memory runs out, the error has the kind of the error in the first invalid part.
        ensures on_error { IfErr result (λ e. (error_kind e ≡ OutOfMemory)
            ⊎ V1Error T.number_of bytes.now (error_kind e)) }
        // Such an error is returned, by its kind, unless memory runs out.
        ensures first_error { (k : ErrorKind) → V1Error T.number_of bytes.now k
            → IsErrAnd result (λ e. (error_kind e ≡ OutOfMemory) ⊎ (error_kind e ≡ k)) }
    {
        decode_v1_record::<T>(alloc, bytes)
    }
}
