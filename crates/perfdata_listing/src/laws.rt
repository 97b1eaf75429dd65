//! Laws of the lines and of the buffer that counts them, for all inputs.
ghost use Rattle.std.specs.Prelude.{◌≡◌, ℕ, ◌++◌, List, length, flat_map};
ghost use Rattle.linux_perf_data.specs.Layout.{RecordView};
ghost use Rattle.perfdata_sources.specs.declared.endian.Endianness.{Endianness};
ghost use Rattle.perfdata_listing_lines.specs.ListingLine.{record_line};
ghost use Rattle.perfdata_listing.specs.JitListing.{jit_lines};
ghost use Rattle.perfdata_listing.specs.Listing.{AreLines};
ghost use Rattle.perfdata_listing_lines.specs.ListingLine.{IsPlainLine};
ghost use Rattle.perfdata_listing_lines.specs.Output.{newline_count};
ghost use Rattle.perfdata_listing_lines.specs.CountingBufWriter.{BuffersAndForwards};
ghost use Rattle.perfdata_listing_lines.specs.declared.output.CountingBufWriter.{CountingBufWriter};

use std::io::Write;

/// Each record has one line: the lines of a list of records contain as many newlines as there are records.
pub fn one_line_per_record()
    ensures { (records : List RecordView) → newline_count (flat_map record_line records) ≡ length records }
{}

/// The text of plain lines is determined: it is the lines of the records, in order.
pub fn plain_lines_are_record_lines()
    ensures { (records : List RecordView) (text : List ℕ) → AreLines IsPlainLine records text → text
        ≡ flat_map record_line records }
{}

/// Each record of a jitdump file has one line, at any offset.
pub fn one_line_per_jit_record()
    ensures { (endian : Endianness) (offset : ℕ) (records : List (List ℕ))
        → newline_count (jit_lines endian offset records) ≡ length records }
{}

/// Two consecutive calls on a `CountingBufWriter` have the effect of one call with the bytes of both. The
/// count of the lines that it wrote thus doesn't depend on how the bytes are split into calls.
pub fn consecutive_writes_compose<W: Write>()
    ensures { (old mid new : CountingBufWriter W) (first second : List ℕ)
        → BuffersAndForwards W.contents old first mid → BuffersAndForwards W.contents mid second new
        → BuffersAndForwards W.contents old (first ++ second) new }
{}
