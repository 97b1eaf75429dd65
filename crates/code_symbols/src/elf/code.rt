//! Bytes of segments.

ghost use Rattle.std.specs.Prelude.{◌≡◌, IfNone, IfOk, IfSome};
ghost use Rattle.perfdata_sources.specs.Source.{all_bytes_of};
ghost use Rattle.code_symbols.specs.LoadedBytes.{HasBytesAt, HasCodeAt, IsRangeFrom, IsRangeOf};

use crate::elf::ElfFile;
use crate::elf::header::Segment;
use crate::error::{ElfError, ElfTable};
use perfdata_base::source::{PlacedSource, fill};
use std::io::SeekFrom;

// A range of the file.
#[derive(Clone, Copy)]
pub(crate) struct FileRange {
    pub(crate) offset: u64,
    pub(crate) size: u64,
}

// The bytes of a segment in the file from an address on.
fn range_from(segment: &Segment, address: u64) -> Option<FileRange>
    ensures some { IfSome result (IsRangeFrom segment.now address) }
    ensures none { IfNone result (¬ HasBytesAt segment.now address) }
{
    let skipped = address.checked_sub(segment.address)?;
    if skipped >= segment.file_size {
        return None;
    }
    Some(FileRange {
        offset: segment.offset.checked_add(skipped)?,
        size: segment.file_size - skipped,
    })
}

// The bytes in the file from an address on, up to the end of the first segment whose bytes contain it.
pub(crate) fn loaded_from(segments: &[Segment], address: u64) -> Option<FileRange>
    ensures { IsRangeOf segments.now address result }
{
    'segments: for segment in segments.iter() {
        if let Some(range) = range_from(segment, address) {
            return Some(range);
        }
    }
    None
}

impl<R: PlacedSource + Drop> ElfFile<R> {
    ghost use Rattle.code_symbols.specs.ElfFiles.{HasSameHeaders, segments_of, source_of};

    /// Reads the bytes that the file loads at an address, and returns their number: as many as `buffer` has,
    /// or fewer where the bytes of the segment end before. It is 0 if no bytes of the file are loaded there.
    ///
    /// It fails with `Truncated(Segment)` if the bytes aren't within the file, and with `Io` if the source
    /// fails. `buffer` may have other bytes then. No memory is allocated.
    pub fn read_code(&mut self, address: u64, buffer: &mut [u8]) -> Result<usize, ElfError>
        ensures code { IfOk result (λ count. IfSome (all_bytes_of (R.state (source_of self.old)).position)
            (λ all. HasCodeAt all (segments_of self.old) address count buffer.new)) }
        ensures all { all_bytes_of (R.state (source_of self.new)).position
            ≡ all_bytes_of (R.state (source_of self.old)).position }
        ensures same { HasSameHeaders self.old self.new }
    {
        let Some(range) = loaded_from(&self.segments, address) else {
            return Ok(0);
        };
        let wanted = range.size.min(buffer.len() as u64) as usize;
        self.source.seek_to(SeekFrom::Start(range.offset))?;
        let count = fill(&mut self.source, &mut buffer[..wanted])?;
        if count < wanted {
            return Err(ElfError::Truncated(ElfTable::Segment));
        }
        Ok(wanted)
    }
}
