//! Writes a profile as bytes.
ghost use Rattle.std.specs.Prelude.{◌≡◌, ◌≢◌, ◌<◌, ◌^◌, [], None, map, IfOk, OnErr, OnOk};
ghost use Rattle.std.specs.String.{string_bytes};
ghost use Rattle.pprof.specs.Messages.{encode, function_fields, label_fields, line_fields, location_fields};
ghost use Rattle.pprof.specs.Messages.{IsEmpty, location_value};
ghost use Rattle.pprof.specs.Messages.{mapping_fields, period_type_fields, profile_value};
ghost use Rattle.pprof.specs.Messages.{sample_fields, sample_value, text_fields, value_type_fields};
ghost use Rattle.pprof.specs.steps.Wire.{Appends};

use crate::profile::{Function, Label, Line, Location, Mapping, Profile, Sample, ValueType};
use crate::wire::{Message, push_bytes, push_message, push_messages, push_number, push_packed};
use std::alloc::{AllocError, Global};

impl Message for ValueType {
    ghost fields = { value_type_fields };

    fn push(&self, _alloc: Global, bytes: &mut Vec<u8>) -> Result<(), AllocError> {
        push_number(bytes, 1, self.kind)?;
        push_number(bytes, 2, self.unit)
    }
}

impl Message for Label {
    ghost fields = { label_fields };

    fn push(&self, _alloc: Global, bytes: &mut Vec<u8>) -> Result<(), AllocError> {
        push_number(bytes, 1, self.key)?;
        push_number(bytes, 2, self.text)?;
        push_number(bytes, 3, self.number)
    }
}

impl Message for Sample {
    ghost fields = { λ sample. sample_fields (sample_value sample) };

    fn push(&self, alloc: Global, bytes: &mut Vec<u8>) -> Result<(), AllocError> {
        push_packed(alloc, bytes, 1, self.location_ids.as_slice())?;
        push_packed(alloc, bytes, 2, self.values.as_slice())?;
        push_messages(alloc, bytes, 3, self.labels.as_slice())
    }
}

impl Message for Mapping {
    ghost fields = { mapping_fields };

    fn push(&self, _alloc: Global, bytes: &mut Vec<u8>) -> Result<(), AllocError> {
        push_number(bytes, 1, self.id)?;
        push_number(bytes, 2, self.memory_start)?;
        push_number(bytes, 3, self.memory_limit)?;
        push_number(bytes, 4, self.file_offset)?;
        push_number(bytes, 5, self.filename)?;
        push_number(bytes, 6, self.build_id)?;
        push_number(bytes, 7, u64::from(self.has_functions))?;
        push_number(bytes, 8, u64::from(self.has_filenames))?;
        push_number(bytes, 9, u64::from(self.has_line_numbers))?;
        push_number(bytes, 10, u64::from(self.has_inline_frames))
    }
}

impl Message for Line {
    ghost fields = { line_fields };

    fn push(&self, _alloc: Global, bytes: &mut Vec<u8>) -> Result<(), AllocError> {
        push_number(bytes, 1, self.function_id)?;
        push_number(bytes, 2, self.line)
    }
}

impl Message for Location {
    ghost fields = { λ location. location_fields (location_value location) };

    fn push(&self, alloc: Global, bytes: &mut Vec<u8>) -> Result<(), AllocError> {
        push_number(bytes, 1, self.id)?;
        push_number(bytes, 2, self.mapping_id)?;
        push_number(bytes, 3, self.address)?;
        push_messages(alloc, bytes, 4, self.lines.as_slice())
    }
}

impl Message for Function {
    ghost fields = { function_fields };

    fn push(&self, _alloc: Global, bytes: &mut Vec<u8>) -> Result<(), AllocError> {
        push_number(bytes, 1, self.id)?;
        push_number(bytes, 2, self.name)?;
        push_number(bytes, 3, self.system_name)?;
        push_number(bytes, 4, self.filename)
    }
}

// Appends a field for each text.
fn push_texts(bytes: &mut Vec<u8>, field: u64, texts: &[String]) -> Result<(), AllocError>
    requires { field < 2 ^ 32 }
    ensures memory { OnErr result (texts.now ≢ []) }
    ensures fields { OnOk result
        (Appends bytes.old.items (text_fields field (map string_bytes texts.now)) bytes.new.items) }
{
    'texts: for text in texts {
        push_bytes(bytes, field, text.as_bytes())?;
    }
    Ok(())
}

// Appends the type of the period, if there is one.
fn push_period_type(
    alloc: Global,
    bytes: &mut Vec<u8>,
    period_type: Option<ValueType>,
) -> Result<(), AllocError>
    ensures memory { OnErr result (period_type ≢ None) }
    ensures fields { OnOk result
        (Appends bytes.old.items (period_type_fields period_type) bytes.new.items) }
{
    match period_type {
        Some(value_type) => push_message(alloc, bytes, 11, &value_type),
        None => Ok(()),
    }
}

/// Returns the bytes of a profile.
///
/// Fails if memory runs out, which a profile without bytes doesn't need.
pub fn encode(alloc: Global, profile: &Profile) -> Result<Vec<u8>, AllocError>
    ensures bytes { IfOk result (λ bytes. bytes.items ≡ encode (profile_value profile.now)) }
    ensures memory { OnErr result (¬ IsEmpty (profile_value profile.now)) }
{
    let mut bytes = Vec::new(alloc);
    push_messages(alloc, &mut bytes, 1, profile.sample_types.as_slice())?;
    push_messages(alloc, &mut bytes, 2, profile.samples.as_slice())?;
    push_messages(alloc, &mut bytes, 3, profile.mappings.as_slice())?;
    push_messages(alloc, &mut bytes, 4, profile.locations.as_slice())?;
    push_messages(alloc, &mut bytes, 5, profile.functions.as_slice())?;
    push_texts(&mut bytes, 6, profile.strings.as_slice())?;
    push_number(&mut bytes, 10, profile.duration)?;
    push_period_type(alloc, &mut bytes, profile.period_type)?;
    push_number(&mut bytes, 12, profile.period)?;
    push_number(&mut bytes, 13, profile.comment)?;
    push_number(&mut bytes, 14, profile.default_sample_type)?;
    Ok(bytes)
}
