//! Writes the fields of messages in the wire format of protocol buffers.
ghost use Rattle.std.specs.Prelude.{◌≡◌, ◌≢◌, ◌<◌, ◌*◌, ◌^◌, ◌++◌, [], List, OnErr, OnOk};
ghost use Rattle.std.specs.List.{flat_map};
ghost use Rattle.pprof.specs.Wire.{Field, bytes_field, message_field, message_fields};
ghost use Rattle.pprof.specs.steps.Wire.{Appends};
ghost use Rattle.pprof.specs.Wire.{number_field, packed_field, varint};

use std::alloc::{AllocError, Global};

/// A message that can be written.
pub(crate) trait Message {
    /// The fields, ascending by number.
    ghost fields: { Self → List Field };

    /// Appends the fields.
    ///
    /// Fails if memory runs out. Then only a part is appended.
    fn push(&self, alloc: Global, bytes: &mut Vec<u8>) -> Result<(), AllocError>
        ensures { OnOk result (Appends bytes.old.items (fields self.now) bytes.new.items) };
}

// Appends a number.
fn push_varint(bytes: &mut Vec<u8>, number: u64) -> Result<(), AllocError>
    ensures { OnOk result (bytes.new.items ≡ bytes.old.items ++ varint number) }
{
    let mut rest = number;
    'digits: while rest >= 128 {
        bytes.push((rest % 128 + 128) as u8)?;
        rest /= 128;
    }
    bytes.push(rest as u8)?;
    Ok(())
}

/// Appends a field with a number, unless it is 0.
pub(crate) fn push_number(bytes: &mut Vec<u8>, field: u64, number: u64) -> Result<(), AllocError>
    requires { field < 2 ^ 32 }
    ensures fields { OnOk result (Appends bytes.old.items (number_field field number) bytes.new.items) }
    ensures memory { OnErr result (number ≢ 0) }
{
    if number == 0 {
        return Ok(());
    }
    push_varint(bytes, field * 8)?;
    push_varint(bytes, number)
}

/// Appends a field with bytes.
pub(crate) fn push_bytes(bytes: &mut Vec<u8>, field: u64, contents: &[u8]) -> Result<(), AllocError>
    requires { field < 2 ^ 32 }
    ensures { OnOk result (Appends bytes.old.items (bytes_field field contents.now) bytes.new.items) }
{
    push_varint(bytes, field * 8 + 2)?;
    push_varint(bytes, contents.len() as u64)?;
    bytes.extend_from_slice(contents)?;
    Ok(())
}

/// Appends a field with numbers, unless there are none.
pub(crate) fn push_packed(
    alloc: Global,
    bytes: &mut Vec<u8>,
    field: u64,
    numbers: &[u64],
) -> Result<(), AllocError>
    requires { field < 2 ^ 32 }
    ensures { OnOk result (Appends bytes.old.items (packed_field field numbers.now) bytes.new.items) }
{
    if numbers.is_empty() {
        return Ok(());
    }
    let mut packed = Vec::new(alloc);
    'numbers: for number in numbers {
        push_varint(&mut packed, *number)?;
    }
    push_bytes(bytes, field, packed.as_slice())
}

/// Appends a field with a message.
pub(crate) fn push_message<M: Message>(
    alloc: Global,
    bytes: &mut Vec<u8>,
    field: u64,
    message: &M,
) -> Result<(), AllocError>
    requires { field < 2 ^ 32 }
    ensures { OnOk result
        (Appends bytes.old.items (message_field field (M.fields message.now)) bytes.new.items) }
{
    let mut contents = Vec::new(alloc);
    message.push(alloc, &mut contents)?;
    push_bytes(bytes, field, contents.as_slice())
}

/// Appends a field for each message.
pub(crate) fn push_messages<M: Message>(
    alloc: Global,
    bytes: &mut Vec<u8>,
    field: u64,
    messages: &[M],
) -> Result<(), AllocError>
    requires { field < 2 ^ 32 }
    ensures fields { OnOk result
        (Appends bytes.old.items (message_fields field M.fields messages.now) bytes.new.items) }
    ensures memory { OnErr result (messages.now ≢ []) }
{
    'messages: for message in messages {
        push_message(alloc, bytes, field, message)?;
    }
    Ok(())
}
