//! Notes, and the build id in them.

ghost use Rattle.std.specs.Option.{option_map};
ghost use Rattle.std.specs.Prelude.{◌≡◌, ◌^◌, ◌<◌, ◌≤◌, ◌++◌, IfNone, IfSome, OnOk, length};
ghost use Rattle.code_symbols.specs.ElfHeaders.{section_notes};
ghost use Rattle.code_symbols.specs.Notes.{IsComplete, IsFirstBuildId, IsKernelBuildId, note_alignment};
ghost use Rattle.code_symbols.specs.Notes.{round_up};
ghost use Rattle.code_symbols.specs.steps.Notes.{IsLayout};

use crate::elf::header::{NOTE_SECTION, Section};
use crate::elf::input::{Encoding, TableEntry};
use perfdata_base::raw::Endianness;
use std::alloc::AllocError;

// The type of a note with the build id (`NT_GNU_BUILD_ID`), whose owner is `GNU`.
const BUILD_ID: u32 = 3;

// The owner of the note, with its NUL.
const OWNER: [u8; 4] = [b'G', b'N', b'U', 0];

// The size of the fields before the owner of a note, in bytes.
const NOTE_HEADER_SIZE: usize = 12;

// A range of notes in the file.
#[derive(Clone, Copy)]
pub(crate) struct NoteRange {
    pub(crate) offset: u64,
    pub(crate) size: u64,
    // Whether notes are aligned to 8 bytes, otherwise to 4.
    pub(crate) has_align_8: bool,
}

// Adds the sections of notes.
pub(crate) fn add_note_sections(
    sections: &[Section],
    notes: &mut Vec<NoteRange>,
) -> Result<(), AllocError>
    ensures { OnOk result (notes.new.items ≡ notes.old.items ++ section_notes sections.now) }
{
    'sections: for section in sections.iter() {
        if section.section_type == NOTE_SECTION {
            notes.push(NoteRange {
                offset: section.offset,
                size: section.size,
                has_align_8: false,
            })?;
        }
    }
    Ok(())
}

// The least multiple of the alignment that is at least `value`.
fn aligned(value: usize, has_align_8: bool) -> usize
    requires { value < 2 ^ 63 }
    ensures least { value ≤ result }
    ensures is { result ≡ round_up value (note_alignment has_align_8) }
{
    if has_align_8 {
        (value + 7) / 8 * 8
    } else {
        (value + 3) / 4 * 4
    }
}

// The offsets of the end of a note's owner, and of the start and the end of its description.
#[derive(Clone, Copy)]
struct NoteLayout {
    owner_end: usize,
    description: usize,
    description_end: usize,
}

// The layout of the note at the start of these bytes. `None` if it isn't completely in them.
fn note_layout(entry: TableEntry<'_>, has_align_8: bool) -> Option<NoteLayout>
    ensures owner { IfSome result (λ layout. 12 ≤ layout.owner_end) }
    ensures description { IfSome result (λ layout. layout.owner_end ≤ layout.description) }
    ensures order { IfSome result (λ layout. layout.description ≤ layout.description_end) }
    ensures within { IfSome result (λ layout. layout.description_end ≤ length entry.entry.bytes.now) }
    ensures is { IfSome result
        (IsLayout entry.entry.encoding (note_alignment has_align_8) entry.entry.bytes.now) }
    ensures none { IfNone result
        (¬ IsComplete entry.entry.encoding (note_alignment has_align_8) entry.entry.bytes.now) }
{
    let owner_end = NOTE_HEADER_SIZE + entry.read_u32(0) as usize;
    let description = aligned(owner_end, has_align_8);
    let description_end = description.checked_add(entry.read_u32(4) as usize)?;
    if entry.bytes.len() < description_end {
        return None;
    }
    Some(NoteLayout {
        owner_end,
        description,
        description_end,
    })
}

/// Returns the build id in the notes of a kernel (`/sys/kernel/notes` of Linux), aligned to 4 bytes: the
/// description of the first note of the type `NT_GNU_BUILD_ID` whose owner is `GNU`. `None` if there is none,
/// or a note before it is truncated.
pub fn build_id_of_notes(endian: Endianness, notes: &[u8]) -> Option<&[u8]>
    ensures { IsKernelBuildId endian notes.now (option_map (λ id. id.now) result) }
{
    let encoding = Encoding {
        endian,
        is_64_bit: true,
    };
    find_build_id(encoding, notes, false)
}

// The build id in these notes.
pub(crate) fn find_build_id(encoding: Encoding, notes: &[u8], has_align_8: bool) -> Option<&[u8]>
    ensures { IsFirstBuildId encoding (note_alignment has_align_8) notes.now
        (option_map (λ id. id.now) result) }
{
    let mut at = 0;
    'notes: while at < notes.len() {
        let bytes = &notes[at..];
        let entry = TableEntry { encoding, bytes };
        let layout = note_layout(entry, has_align_8)?;
        let owner = &bytes[NOTE_HEADER_SIZE..layout.owner_end];
        if entry.read_u32(8) == BUILD_ID && owner == OWNER.as_slice() {
            return Some(&bytes[layout.description..layout.description_end]);
        }
        at = at.saturating_add(aligned(layout.description_end, has_align_8));
    }
    None
}
