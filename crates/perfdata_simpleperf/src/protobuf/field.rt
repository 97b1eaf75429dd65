//! Reads a field of a message, and checks its wire type against the field table of the message.
ghost use Rattle.std.specs.Prelude.{◌≡◌, IfOk, IfErr};
ghost use Rattle.perfdata_simpleperf.specs.Protobuf.Fields.{FieldAt, FieldError, field_value, field_type};
ghost use Rattle.perfdata_simpleperf.specs.Protobuf.Fields.{is_accepted};

use crate::protobuf::groups::skip_group;
use crate::protobuf::wire::{Value, WireType, read_key, read_value};
use perfdata_sections::decode_error::DecodeError;

/// The messages that the decoder knows. `Address` is the message of both the ELF file info and the kernel
/// module info.
#[derive(Clone, Copy, Debug, PartialEq, Eq)]
pub(crate) enum Message {
    File,
    Symbol,
    Dex,
    Address,
}

/// The declared type of a field.
#[derive(Clone, Copy, Debug, PartialEq, Eq)]
pub(crate) enum FieldType {
    Unknown,
    Number,
    Text,
    Numbers,
    Submessage(Message),
}

#[derive(Clone, Copy, Debug, PartialEq, Eq)]
pub(crate) struct Field<'a> {
    /// The field number.
    pub number: u32,
    /// The value after the field's key.
    pub value: Value<'a>,
}

fn field_type(message: Message, number: u32) -> FieldType
    ensures { result ≡ field_type message number }
{
    match message {
        Message::File => match number {
            1 => FieldType::Text,
            2 | 3 => FieldType::Number,
            4 => FieldType::Submessage(Message::Symbol),
            5 => FieldType::Submessage(Message::Dex),
            6 | 7 => FieldType::Submessage(Message::Address),
            _ => FieldType::Unknown,
        },
        Message::Symbol => match number {
            1 | 2 => FieldType::Number,
            3 => FieldType::Text,
            _ => FieldType::Unknown,
        },
        Message::Dex => match number {
            1 => FieldType::Numbers,
            _ => FieldType::Unknown,
        },
        Message::Address => match number {
            1 => FieldType::Number,
            _ => FieldType::Unknown,
        },
    }
}

// Returns whether a field of type `declared_type` can have the wire type `wire_type`.
fn accepts_wire_type(declared_type: FieldType, wire_type: WireType) -> bool
    ensures { result ≡ is_accepted declared_type wire_type }
{
    match (declared_type, wire_type) {
        (FieldType::Unknown, _) => true,
        (FieldType::Number | FieldType::Numbers, WireType::Varint) => true,
        (
            FieldType::Text | FieldType::Numbers | FieldType::Submessage(_),
            WireType::LengthDelimited,
        ) => true,
        _ => false,
    }
}

/// Reads the first field of a message, and returns it with the rest of `bytes`.
pub(crate) fn read_field(message: Message, bytes: &[u8]) -> Result<(Field<'_>, &[u8]), DecodeError>
    ensures on_ok { IfOk result (λ x. FieldAt message bytes.now (field_value x.0) x.1.now) }
    ensures on_error { IfErr result (λ e. FieldError message bytes.now e) }
{
    let (key, rest) = read_key(bytes)?;
    if !accepts_wire_type(field_type(message, key.field_number), key.wire_type) {
        return Err(DecodeError::WireType);
    }
    let number = key.field_number;
    match key.wire_type {
        WireType::StartGroup => {
            let rest = skip_group(number, rest)?;
            let value = Value::Skipped;
            Ok((Field { number, value }, rest))
        }
        WireType::EndGroup => Err(DecodeError::Group),
        WireType::Varint | WireType::Fixed64 | WireType::LengthDelimited | WireType::Fixed32 => {
            let (value, rest) = read_value(key.wire_type, rest)?;
            Ok((Field { number, value }, rest))
        }
    }
}
