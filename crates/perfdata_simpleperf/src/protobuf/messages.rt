//! Decodes messages by merging their fields.
ghost use Rattle.std.specs.Prelude.{◌≡◌, ◌⊎◌, ◌∷◌, [], ◌++◌, List, ℕ, ◌%◌, IfOk, IfErr, OnOk, string_bytes};
ghost use Rattle.std.specs.Prelude.{IsUtf8, IsTrue, map};
ghost use Rattle.perfdata_simpleperf.specs.Protobuf.Fields.{field_value, field_type};
ghost use Rattle.perfdata_simpleperf.specs.Protobuf.WireFormat.{bytes_contents};
ghost use Rattle.perfdata_simpleperf.specs.Protobuf.Messages.{NoNestedMessage, NoNestedMessageError};
ghost use Rattle.perfdata_simpleperf.specs.Protobuf.Messages.{IsValidContents, IsInvalidContents, LeafError};
ghost use Rattle.perfdata_simpleperf.specs.Protobuf.Messages.{ArePacked, PackedError, IsAnyLeaf};
ghost use Rattle.perfdata_simpleperf.specs.Protobuf.Messages.{FileMessageError, BeginsWithNumber};
ghost use Rattle.perfdata_simpleperf.specs.Protobuf.Messages.{NeedsMemory, NoNestedNeeds, LeafNeedsMemory};
ghost use Rattle.perfdata_simpleperf.specs.Protobuf.Messages.{SubmessageNeedsMemory, FileNeedsMemory};
ghost use Rattle.perfdata_simpleperf.specs.FileRecord.{symbol_value, SymbolValue, info_value, record_value};
ghost use Rattle.perfdata_simpleperf.specs.Protobuf.Values.{symbol_from, IsSymbol, low_u32, last_or};
ghost use Rattle.perfdata_simpleperf.specs.Protobuf.Values.{numbers_of, contents_of, AreOffsets, IsDex};
ghost use Rattle.perfdata_simpleperf.specs.Protobuf.Values.{IsAddressFrom, AreSymbols, texts_of, infos_of};
ghost use Rattle.perfdata_simpleperf.specs.Protobuf.Values.{is_info, MergesInfo, MergesInfos, IsFileRecord};
ghost use Rattle.perfdata_simpleperf.specs.Protobuf.Values.{previous_offsets, previous_elf_offset};
ghost use Rattle.perfdata_simpleperf.specs.Protobuf.Values.{previous_module_offset};
ghost use Rattle.perfdata_sections.specs.declared.decode_error.DecodeError.TheVariants.{Memory, Utf8};
ghost use Rattle.perfdata_sections.specs.declared.decode_error.DecodeError.{DecodeError};
ghost use Rattle.perfdata_simpleperf.specs.declared.protobuf.field.Message.TheVariants as messages;

use crate::protobuf::field::{Field, Message, read_field};
use crate::protobuf::wire::{Value, read_varint};
use crate::simpleperf::{
    SimpleperfDexFileInfo, SimpleperfElfFileInfo, SimpleperfFileRecord, SimpleperfKernelModuleInfo,
    SimpleperfSymbol, SimpleperfTypeSpecificInfo,
};
use perfdata_sections::decode_error::DecodeError;
use std::alloc::Global;

fn low_u32(n: u64) -> u32
    ensures { result ≡ low_u32 n }
{
    (n % 0x1_0000_0000) as u32
}

fn decode_text(alloc: Global, bytes: &[u8]) -> Result<String, DecodeError>
    ensures on_ok { IfOk result (λ s. (string_bytes s ≡ bytes.now) × IsUtf8 bytes.now) }
    ensures on_error { IfErr result (λ e. ((e ≡ Memory) × IsUtf8 bytes.now)
        ⊎ ((e ≡ Utf8) × (IsUtf8 bytes.now → ⊥))) }
{
    match std::str::from_utf8(bytes) {
        Ok(text) => Ok(String::from_str(alloc, text)?),
        Err(_) => Err(DecodeError::Utf8),
    }
}

fn merge_symbol_field(
    alloc: Global,
    symbol: &mut SimpleperfSymbol,
    field: &Field<'_>,
) -> Result<(), DecodeError>
    ensures value { OnOk result (symbol_value symbol.new
        ≡ symbol_from (symbol_value symbol.old) (field_value field.now ∷ [])) }
    ensures valid_contents { OnOk result
        (IsValidContents NoNestedMessage (field_type messages.Symbol (field_value field.now).field_number)
        (field_value field.now).contents) }
    ensures on_error { IfErr result (λ e. ((e ≡ Memory)
        × NeedsMemory NoNestedNeeds (field_type messages.Symbol (field_value field.now).field_number)
        (field_value field.now).contents)
        ⊎ IsInvalidContents NoNestedMessageError
        (field_type messages.Symbol (field_value field.now).field_number)
        (field_value field.now).contents e) }
{
    match (field.number, field.value) {
        (1, Value::Number(n)) => symbol.vaddr = n,
        (2, Value::Number(n)) => symbol.len = low_u32(n),
        (3, Value::Bytes(bytes)) => symbol.name = decode_text(alloc, bytes)?,
        _ => {}
    }
    Ok(())
}

fn decode_symbol(alloc: Global, bytes: &[u8]) -> Result<SimpleperfSymbol, DecodeError>
    ensures on_ok { IfOk result (λ s. IsSymbol bytes.now (symbol_value s)) }
    ensures on_error { IfErr result (λ e. ((e ≡ Memory) × LeafNeedsMemory messages.Symbol bytes.now)
        ⊎ LeafError messages.Symbol bytes.now e) }
{
    let mut symbol = SimpleperfSymbol {
        vaddr: 0,
        len: 0,
        name: String::new(alloc),
    };
    let mut rest = bytes;
    'fields: while !rest.is_empty() {
        let (field, after) = read_field(Message::Symbol, rest)?;
        merge_symbol_field(alloc, &mut symbol, &field)?;
        rest = after;
    }
    Ok(symbol)
}

fn push_packed(offsets: &mut Vec<u64>, bytes: &[u8]) -> Result<(), DecodeError>
    ensures on_ok { OnOk result ((ns : List ℕ) × ArePacked bytes.now ns
        × (offsets.new.items ≡ offsets.old.items ++ ns)) }
    ensures on_error { IfErr result (λ e. ((e ≡ Memory) × BeginsWithNumber bytes.now) ⊎
        PackedError bytes.now e) }
{
    let mut rest = bytes;
    'numbers: while !rest.is_empty() {
        let (number, after) = read_varint(rest)?;
        offsets.push(number)?;
        rest = after;
    }
    Ok(())
}

fn merge_dex_field(offsets: &mut Vec<u64>, field: &Field<'_>) -> Result<(), DecodeError>
    ensures value { OnOk result ((ns : List ℕ) × AreOffsets (contents_of 1 (field_value field.now ∷ [])) ns
        × (offsets.new.items ≡ offsets.old.items ++ ns)) }
    ensures valid_contents { OnOk result
        (IsValidContents NoNestedMessage (field_type messages.Dex (field_value field.now).field_number)
        (field_value field.now).contents) }
    ensures on_error { IfErr result (λ e. ((e ≡ Memory)
        × NeedsMemory NoNestedNeeds (field_type messages.Dex (field_value field.now).field_number)
        (field_value field.now).contents)
        ⊎ IsInvalidContents NoNestedMessageError
        (field_type messages.Dex (field_value field.now).field_number) (field_value field.now).contents e) }
{
    if field.number != 1 {
        return Ok(());
    }
    match field.value {
        Value::Number(n) => {
            offsets.push(n)?;
            Ok(())
        }
        Value::Bytes(bytes) => {
            push_packed(offsets, bytes)?;
            Ok(())
        }
        Value::Skipped => Ok(()),
    }
}

fn merge_dex(offsets: &mut Vec<u64>, bytes: &[u8]) -> Result<(), DecodeError>
    ensures on_ok { OnOk result ((ns : List ℕ) × IsDex bytes.now ns
        × (offsets.new.items ≡ offsets.old.items ++ ns)) }
    ensures on_error { IfErr result (λ e. ((e ≡ Memory) × LeafNeedsMemory messages.Dex bytes.now)
        ⊎ LeafError messages.Dex bytes.now e) }
{
    let mut rest = bytes;
    'fields: while !rest.is_empty() {
        let (field, after) = read_field(Message::Dex, rest)?;
        merge_dex_field(offsets, &field)?;
        rest = after;
    }
    Ok(())
}

// Returns the last address in the message, or `start` if it has none.
fn decode_address(start: u64, bytes: &[u8]) -> Result<u64, DecodeError>
    ensures on_ok { IfOk result (λ n. IsAddressFrom start bytes.now n) }
    ensures on_error { IfErr result (λ e. LeafError messages.Address bytes.now e) }
{
    let mut address = start;
    let mut rest = bytes;
    'fields: while !rest.is_empty() {
        let (field, after) = read_field(Message::Address, rest)?;
        address = merge_address_field(address, &field);
        rest = after;
    }
    Ok(address)
}

fn merge_address_field(address: u64, field: &Field<'_>) -> u64
    ensures { result ≡ last_or address (numbers_of 1 (field_value field.now ∷ [])) }
{
    match (field.number, field.value) {
        (1, Value::Number(n)) => n,
        _ => address,
    }
}

fn previous_offsets(alloc: Global, info: Option<SimpleperfTypeSpecificInfo>) -> Vec<u64>
    ensures { result.items ≡ previous_offsets (info_value info) }
{
    match info {
        Some(SimpleperfTypeSpecificInfo::SimpleperfDexFileInfo(dex)) => dex.dex_file_offset,
        _ => Vec::new(alloc),
    }
}

fn previous_elf_offset(info: &Option<SimpleperfTypeSpecificInfo>) -> u64
    ensures { result ≡ previous_elf_offset (info_value info.now) }
{
    match info {
        Some(SimpleperfTypeSpecificInfo::ElfFile(elf)) => elf.file_offset_of_min_vaddr,
        _ => 0,
    }
}

fn previous_module_offset(info: &Option<SimpleperfTypeSpecificInfo>) -> u64
    ensures { result ≡ previous_module_offset (info_value info.now) }
{
    match info {
        Some(SimpleperfTypeSpecificInfo::KernelModule(kernel)) => kernel.memory_offset_of_min_vaddr,
        _ => 0,
    }
}

// Merges a field with the number `field_number` (5, 6 or 7) and the contents `bytes` into `info`.
fn merge_info(
    alloc: Global,
    info: Option<SimpleperfTypeSpecificInfo>,
    field_number: u32,
    bytes: &[u8],
) -> Result<SimpleperfTypeSpecificInfo, DecodeError>
    requires { IsTrue (is_info field_number) }
    ensures on_ok { IfOk result (λ new. MergesInfo field_number bytes.now (info_value info)
        (info_value (Some new))) }
    ensures valid_contents { OnOk result
        (IsValidContents IsAnyLeaf (field_type messages.File field_number) (bytes_contents bytes.now)) }
    ensures on_error { IfErr result (λ e. ((e ≡ Memory)
        × NeedsMemory SubmessageNeedsMemory (field_type messages.File field_number)
        (bytes_contents bytes.now))
        ⊎ IsInvalidContents LeafError (field_type messages.File field_number) (bytes_contents bytes.now) e) }
{
    match field_number {
        5 => {
            let mut dex_file_offset = previous_offsets(alloc, info);
            merge_dex(&mut dex_file_offset, bytes)?;
            Ok(SimpleperfTypeSpecificInfo::SimpleperfDexFileInfo(SimpleperfDexFileInfo {
                dex_file_offset,
            }))
        }
        6 => {
            let file_offset_of_min_vaddr = decode_address(previous_elf_offset(&info), bytes)?;
            Ok(SimpleperfTypeSpecificInfo::ElfFile(SimpleperfElfFileInfo {
                file_offset_of_min_vaddr,
            }))
        }
        7 => {
            let memory_offset_of_min_vaddr = decode_address(previous_module_offset(&info), bytes)?;
            Ok(SimpleperfTypeSpecificInfo::KernelModule(SimpleperfKernelModuleInfo {
                memory_offset_of_min_vaddr,
            }))
        }
        _ => unreachable!(),
    }
}

fn merge_record_field(
    alloc: Global,
    file: &mut SimpleperfFileRecord,
    field: &Field<'_>,
) -> Result<(), DecodeError>
    ensures path { OnOk result ((record_value file.new).path
        ≡ last_or (record_value file.old).path (texts_of 1 (field_value field.now ∷ []))) }
    ensures type_ { OnOk result ((record_value file.new).type_
        ≡ last_or (record_value file.old).type_ (map low_u32 (numbers_of 2 (field_value field.now ∷ [])))) }
    ensures min_vaddr { OnOk result ((record_value file.new).min_vaddr
        ≡ last_or (record_value file.old).min_vaddr (numbers_of 3 (field_value field.now ∷ []))) }
    ensures symbol { OnOk result ((ss : List SymbolValue)
        × AreSymbols (texts_of 4 (field_value field.now ∷ [])) ss
        × ((record_value file.new).symbol ≡ (record_value file.old).symbol ++ ss)) }
    ensures info { OnOk result (MergesInfos (infos_of (field_value field.now ∷ []))
        (record_value file.old).info (record_value file.new).info) }
    ensures valid_contents { OnOk result
        (IsValidContents IsAnyLeaf (field_type messages.File (field_value field.now).field_number)
        (field_value field.now).contents) }
    ensures on_error { IfErr result (λ e. ((e ≡ Memory)
        × NeedsMemory SubmessageNeedsMemory (field_type messages.File (field_value field.now).field_number)
        (field_value field.now).contents)
        ⊎ IsInvalidContents LeafError (field_type messages.File (field_value field.now).field_number)
        (field_value field.now).contents e) }
{
    match (field.number, field.value) {
        (1, Value::Bytes(bytes)) => {
            file.path = decode_text(alloc, bytes)?;
            Ok(())
        }
        (2, Value::Number(n)) => {
            file.type_ = low_u32(n);
            Ok(())
        }
        (3, Value::Number(n)) => {
            file.min_vaddr = n;
            Ok(())
        }
        (4, Value::Bytes(bytes)) => {
            let symbol = decode_symbol(alloc, bytes)?;
            file.symbol.push(symbol)?;
            Ok(())
        }
        (5 | 6 | 7, Value::Bytes(bytes)) => {
            let old = file.type_specific_msg.take();
            let new = merge_info(alloc, old, field.number, bytes)?;
            file.type_specific_msg = Some(new);
            Ok(())
        }
        _ => Ok(()),
    }
}

/// Decodes the file record that all of `bytes` encode.
pub(crate) fn decode_file_record(
    alloc: Global,
    bytes: &[u8],
) -> Result<SimpleperfFileRecord, DecodeError>
    ensures on_ok { IfOk result (λ r. IsFileRecord bytes.now (record_value r)) }
    ensures on_error { IfErr result (λ e. ((e ≡ Memory) × FileNeedsMemory bytes.now)
        ⊎ FileMessageError bytes.now e) }
{
    let mut file = SimpleperfFileRecord {
        path: String::new(alloc),
        type_: 0,
        min_vaddr: 0,
        symbol: Vec::new(alloc),
        type_specific_msg: None,
    };
    let mut rest = bytes;
    'fields: while !rest.is_empty() {
        let (field, after) = read_field(Message::File, rest)?;
        merge_record_field(alloc, &mut file, &field)?;
        rest = after;
    }
    Ok(file)
}
