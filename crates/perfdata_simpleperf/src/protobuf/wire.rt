//! Reads protobuf varints, keys and values.
ghost use Rattle.std.specs.Prelude.{◌≤◌, ◌<◌, ◌*◌, ◌-◌, ◌^◌, IfOk, IfErr};
ghost use Rattle.perfdata_simpleperf.specs.Protobuf.WireFormat.{VarintAt, VarintError, NumberAt, NumberError};
ghost use Rattle.perfdata_simpleperf.specs.Protobuf.WireFormat.{KeyAt, KeyError, FixedAt, FixedError};
ghost use Rattle.perfdata_simpleperf.specs.Protobuf.WireFormat.{value_contents, ValueAt, ValueError};
ghost use Rattle.perfdata_simpleperf.specs.Protobuf.WireFormat.{IsNotGroup};

use perfdata_sections::decode_error::DecodeError;

/// The wire type of a key: the encoding of the value after it.
#[derive(Clone, Copy, Debug, PartialEq, Eq)]
pub(crate) enum WireType {
    Varint,
    Fixed64,
    LengthDelimited,
    StartGroup,
    EndGroup,
    Fixed32,
}

#[derive(Clone, Copy, Debug, PartialEq, Eq)]
pub(crate) struct Key {
    /// The field number.
    pub field_number: u32,
    /// The encoding of the field's value.
    pub wire_type: WireType,
}

/// The contents of a field.
#[derive(Clone, Copy, Debug, PartialEq, Eq)]
pub(crate) enum Value<'a> {
    Number(u64),
    Bytes(&'a [u8]),
    Skipped,
}

// Decodes a varint of at most `max_len` bytes. If it has exactly `max_len` bytes, the last is at most 1.
fn decode_varint(bytes: &[u8], max_len: u32) -> Result<(u64, &[u8]), DecodeError>
    requires low { 1 ≤ max_len }
    requires high { max_len ≤ 10 }
    ensures on_ok { IfOk result (λ x. VarintAt max_len (2 * 128 ^ (max_len - 1)) bytes.now x.0 x.1.now) }
    ensures on_error { IfErr result (λ e. VarintError max_len bytes.now e) }
{
    match bytes {
        [] => Err(DecodeError::Truncated),
        [byte, rest @ ..] => {
            if max_len == 1 {
                if *byte > 1 {
                    Err(DecodeError::Varint)
                } else {
                    Ok((*byte as u64, rest))
                }
            } else if *byte < 128 {
                Ok((*byte as u64, rest))
            } else {
                let (high, after) = decode_varint(rest, max_len - 1)?;
                Ok((high * 128 + (*byte as u64 - 128), after))
            }
        }
    }
}

/// Reads a varint from the start of `bytes`, and returns it with the rest.
pub(crate) fn read_varint(bytes: &[u8]) -> Result<(u64, &[u8]), DecodeError>
    ensures on_ok { IfOk result (λ x. NumberAt bytes.now x.0 x.1.now) }
    ensures on_error { IfErr result (λ e. NumberError bytes.now e) }
{
    decode_varint(bytes, 10)
}

/// Reads a key from the start of `bytes`, and returns it with the rest.
pub(crate) fn read_key(bytes: &[u8]) -> Result<(Key, &[u8]), DecodeError>
    ensures on_ok { IfOk result (λ x. KeyAt bytes.now x.0.field_number x.0.wire_type x.1.now) }
    ensures on_error { IfErr result (λ e. KeyError bytes.now e) }
{
    let (code, rest) = read_varint(bytes)?;
    if code >= 0x1_0000_0000 {
        return Err(DecodeError::Key);
    }
    let wire_type = match code % 8 {
        0 => WireType::Varint,
        1 => WireType::Fixed64,
        2 => WireType::LengthDelimited,
        3 => WireType::StartGroup,
        4 => WireType::EndGroup,
        5 => WireType::Fixed32,
        _ => return Err(DecodeError::WireType),
    };
    let number = (code / 8) as u32;
    if number == 0 {
        return Err(DecodeError::Key);
    }
    Ok((
        Key {
            field_number: number,
            wire_type,
        },
        rest,
    ))
}

/// Reads a value from the start of `bytes`, and returns it with the rest. The field isn't a group.
pub(crate) fn read_value(
    wire_type: WireType,
    bytes: &[u8],
) -> Result<(Value<'_>, &[u8]), DecodeError>
    requires { IsNotGroup wire_type }
    ensures on_ok { IfOk result (λ x. ValueAt wire_type bytes.now (value_contents x.0) x.1.now) }
    ensures on_error { IfErr result (λ e. ValueError wire_type bytes.now e) }
{
    match wire_type {
        WireType::Varint => {
            let (number, rest) = read_varint(bytes)?;
            Ok((Value::Number(number), rest))
        }
        WireType::Fixed64 => {
            let rest = skip_bytes(bytes, 8)?;
            Ok((Value::Skipped, rest))
        }
        WireType::Fixed32 => {
            let rest = skip_bytes(bytes, 4)?;
            Ok((Value::Skipped, rest))
        }
        WireType::LengthDelimited => {
            let (len, rest) = read_varint(bytes)?;
            if len > rest.len() as u64 {
                return Err(DecodeError::Truncated);
            }
            let (value, rest) = rest.split_at(len as usize);
            Ok((Value::Bytes(value), rest))
        }
        WireType::StartGroup | WireType::EndGroup => unreachable!(),
    }
}

fn skip_bytes(bytes: &[u8], count: usize) -> Result<&[u8], DecodeError>
    ensures on_ok { IfOk result (λ rest. FixedAt bytes.now count rest.now) }
    ensures on_error { IfErr result (λ e. FixedError count bytes.now e) }
{
    if bytes.len() < count {
        return Err(DecodeError::Truncated);
    }
    let (_, rest) = bytes.split_at(count);
    Ok(rest)
}
