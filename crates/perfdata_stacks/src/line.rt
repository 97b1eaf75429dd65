//! The text of a line: the name of the thread, then the names of the frames, root first, with semicolons
//! between them.
ghost use Rattle.std.specs.Prelude.{◌≡◌, ◌<◌, ◌+◌, ◌++◌, length, map, vec_capacity, vec_len, OnErr, OnOk};
ghost use Rattle.perfdata_stacks.specs.Line.{name_byte, comm_byte, AppendsPart};

use std::alloc::AllocError;

// The byte of a name in a line: a semicolon is a colon, and a control character is a blank.
fn name_byte(byte: u8) -> u8
    ensures { result ≡ name_byte byte }
{
    if byte == b';' {
        b':'
    } else if byte < b' ' || byte == 127 {
        b' '
    } else {
        byte
    }
}

// The byte of a thread's name in a line, in which a blank is an underscore.
fn comm_byte(byte: u8) -> u8
    ensures { result ≡ comm_byte byte }
{
    let byte = name_byte(byte);
    if byte == b' ' { b'_' } else { byte }
}

/// Appends the name of a frame to a line.
///
/// Fails if memory runs out. Then only the first bytes of the name, or none, are appended.
pub fn push_name(line: &mut Vec<u8>, name: &[u8]) -> Result<(), AllocError>
    ensures ok { OnOk result (line.new.items ≡ line.old.items ++ map name_byte name.now) }
    ensures err { OnErr result (AppendsPart line.old.items (map name_byte name.now) line.new.items) }
    ensures full { OnErr result (vec_capacity line.old < vec_len line.old + length name.now) }
{
    'bytes: for byte in name {
        line.push(name_byte(*byte))?;
    }
    Ok(())
}

/// Appends the name of a thread to a line.
///
/// Fails if memory runs out. Then only the first bytes of the name, or none, are appended.
pub fn push_comm(line: &mut Vec<u8>, comm: &[u8]) -> Result<(), AllocError>
    ensures ok { OnOk result (line.new.items ≡ line.old.items ++ map comm_byte comm.now) }
    ensures err { OnErr result (AppendsPart line.old.items (map comm_byte comm.now) line.new.items) }
    ensures full { OnErr result (vec_capacity line.old < vec_len line.old + length comm.now) }
{
    'bytes: for byte in comm {
        line.push(comm_byte(*byte))?;
    }
    Ok(())
}
