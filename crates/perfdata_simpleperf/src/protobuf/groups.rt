//! Skips unknown groups.
ghost use Rattle.std.specs.Prelude.{◌<◌, length, IfOk, IfErr};
ghost use Rattle.perfdata_simpleperf.specs.Protobuf.Groups.{GroupItem, GroupItemError, GroupAt, GroupError};

use crate::protobuf::wire::{WireType, read_key, read_value};
use arrayvec::ArrayVec;
use perfdata_sections::decode_error::DecodeError;

// The maximum number of unknown groups nested in one another.
const MAX_GROUP_DEPTH: usize = 100;

// Skips a field, or a key that starts or ends a group. `open_groups` contains the field numbers of the groups
// that are open at `bytes`, the outermost first.
fn skip_group_item<'a>(
    open_groups: &mut ArrayVec<u32, MAX_GROUP_DEPTH>,
    bytes: &'a [u8],
) -> Result<&'a [u8], DecodeError>
    requires { 0 < length open_groups.old.items }
    ensures on_ok { IfOk result (λ rest. GroupItem open_groups.old.items bytes.now open_groups.new.items
        rest.now) }
    ensures on_error { IfErr result (λ e. GroupItemError open_groups.old.items bytes.now e) }
{
    let (key, rest) = read_key(bytes)?;
    match key.wire_type {
        WireType::StartGroup => {
            if open_groups.is_full() {
                return Err(DecodeError::Depth);
            }
            open_groups.push(key.field_number);
            Ok(rest)
        }
        WireType::EndGroup => {
            if open_groups.pop() != Some(key.field_number) {
                return Err(DecodeError::Group);
            }
            Ok(rest)
        }
        WireType::Varint | WireType::Fixed64 | WireType::LengthDelimited | WireType::Fixed32 => {
            let (_, rest) = read_value(key.wire_type, rest)?;
            Ok(rest)
        }
    }
}

/// Skips the rest of a group whose start key precedes `bytes`, and returns the bytes after its end key.
pub(crate) fn skip_group(number: u32, bytes: &[u8]) -> Result<&[u8], DecodeError>
    ensures on_ok { IfOk result (λ rest. GroupAt number bytes.now rest.now) }
    ensures on_error { IfErr result (λ e. GroupError number bytes.now e) }
{
    let mut open_groups: ArrayVec<u32, MAX_GROUP_DEPTH> = ArrayVec::new();
    open_groups.push(number);
    let mut rest = bytes;
    'items: while !open_groups.is_empty() {
        rest = skip_group_item(&mut open_groups, rest)?;
    }
    Ok(rest)
}
