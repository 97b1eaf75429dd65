//! The text of a listing's line, formatted in an array on the stack.
ghost use Rattle.std.specs.Prelude.{◌≡◌, ℕ, ◌+◌, ◌≤◌, [], ◌∷◌, ◌++◌, length, take, drop, decimal, codes};
ghost use Rattle.perfdata_listing_lines.specs.ListingLine.{decimal_or_dash, record_text, jit_record_text};
ghost use Rattle.perfdata_listing_lines.specs.ListingLine.{error_text};

use itoa::write_digits;

// The capacity of a line in bytes. The longest line has 122 bytes: five numbers of at most 20 digits, one of
// 10, one of 5, and a separator after each.
const LINE_CAPACITY: usize = 128;

/// A line of text, stored at the end of an array.
#[derive(Drop)]
pub struct ListingLine {
    bytes: [u8; LINE_CAPACITY],
    start: usize,
    ghost in_range: { start ≤ 128 },
}

// Writes one byte before index `end`, and returns its index.
#[inline]
fn prepend_byte(buf: &mut [u8], end: usize, byte: u8) -> usize
    requires { (1 ≤ end) × (end ≤ length buf.old) }
    ensures start { result + 1 ≡ end }
    ensures written { drop result buf.new ≡ byte ∷ drop end buf.old }
{
    buf[end - 1] = byte;
    end - 1
}

// Writes a decimal number and a separator before index `end`, and returns the index of their first byte.
#[inline]
fn prepend_number(buf: &mut [u8], end: usize, n: u64, separator: u8) -> usize
    requires { (length (decimal n) + 1 ≤ end) × (end ≤ length buf.old) }
    ensures start { result + length (decimal n) + 1 ≡ end }
    ensures written { drop result buf.new ≡ decimal n ++ separator ∷ drop end buf.old }
    ensures at_most_21 { end ≤ result + 21 }
{
    let at = prepend_byte(buf, end, separator);
    write_digits(n, buf, at)
}

// Writes a decimal number, or a dash for `None`, and a space before index `end`. Returns the index of their
// first byte.
#[inline]
fn prepend_optional(buf: &mut [u8], end: usize, n: Option<u64>) -> usize
    requires { (21 ≤ end) × (end ≤ length buf.old) }
    ensures start { result + length (decimal_or_dash n) + 1 ≡ end }
    ensures written { drop result buf.new ≡ decimal_or_dash n ++ 32 ∷ drop end buf.old }
    ensures at_most_21 { end ≤ result + 21 }
{
    match n {
        Some(n) => prepend_number(buf, end, n, b' '),
        None => {
            let at = prepend_byte(buf, end, b' ');
            prepend_byte(buf, at, b'-')
        }
    }
}

// The fields of a record's line.
#[derive(Clone, Copy)]
pub(crate) struct RecordFields {
    /// The offset of the record's first byte in the data section, or in the records of the pipe.
    pub(crate) offset: u64,
    /// Number of rounds that end before the record.
    pub(crate) round: u64,
    /// The record's timestamp in nanoseconds, if it has one.
    pub(crate) timestamp: Option<u64>,
    /// The index of the record's attribute, if it has one.
    pub(crate) attr_index: Option<u64>,
    /// The type of the record.
    pub(crate) record_type: u32,
    /// The `misc` flags of the record.
    pub(crate) misc: u16,
    /// The size of the record's body in bytes.
    pub(crate) body_length: u64,
}

// Writes a record's line at the end of the array, last field first, and returns the index of its first byte.
fn format_record(buf: &mut [u8; LINE_CAPACITY], fields: RecordFields) -> usize
    ensures start { result ≤ 128 }
    ensures written { drop result buf.new
        ≡ record_text fields.offset fields.round fields.timestamp fields.attr_index fields.record_type
        fields.misc fields.body_length }
{
    let body_length_start = prepend_number(buf, LINE_CAPACITY, fields.body_length, b'\n');
    let misc_start = prepend_number(buf, body_length_start, fields.misc as u64, b' ');
    let type_start = prepend_number(buf, misc_start, fields.record_type as u64, b' ');
    let attr_start = prepend_optional(buf, type_start, fields.attr_index);
    let timestamp_start = prepend_optional(buf, attr_start, fields.timestamp);
    let round_start = prepend_number(buf, timestamp_start, fields.round, b' ');
    prepend_number(buf, round_start, fields.offset, b' ')
}

// Writes the line of a jitdump record at the end of the array, last field first, and returns the index of
// its first byte.
fn format_jit_record(
    buf: &mut [u8; LINE_CAPACITY],
    offset: u64,
    time: u64,
    record_type: u32,
    size: u64,
) -> usize
    ensures start { result ≤ 128 }
    ensures written { drop result buf.new ≡ jit_record_text offset time record_type size }
{
    let size_start = prepend_number(buf, LINE_CAPACITY, size, b'\n');
    let type_start = prepend_number(buf, size_start, record_type as u64, b' ');
    let timestamp_start = prepend_number(buf, type_start, time, b' ');
    prepend_number(buf, timestamp_start, offset, b' ')
}

// Writes the line of an error after `records` records, and returns the index of its first byte.
fn format_error(buf: &mut [u8; LINE_CAPACITY], records: u64) -> usize
    ensures start { result ≤ 128 }
    ensures written { drop result buf.new ≡ error_text records }
{
    let suffix_start = prepend_bytes(buf, LINE_CAPACITY, b" records\n");
    let number_start = write_digits(records, buf, suffix_start);
    prepend_bytes(buf, number_start, b"perflist: fault after ")
}

// Writes the text before index `end`, and returns the index of its first byte.
fn prepend_bytes(buf: &mut [u8], end: usize, text: &[u8]) -> usize
    requires { (length text.now ≤ end) × (end ≤ length buf.old) }
    ensures start { result + length text.now ≡ end }
    ensures written { drop result buf.new ≡ text.now ++ drop end buf.old }
{
    let start = end - text.len();
    buf[start..end].copy_from_slice(text);
    start
}

impl ListingLine {
    ghost use Rattle.perfdata_listing_lines.specs.LineText.{text_of};

    /// Creates an empty line. It can be set to one line after another.
    pub fn new() -> ListingLine
        ensures { text_of result ≡ [] }
    {
        ListingLine {
            bytes: [0; LINE_CAPACITY],
            start: LINE_CAPACITY,
        }
    }

    // Sets it to the line of a record.
    #[inline]
    pub(crate) fn set_record(&mut self, fields: RecordFields)
        ensures { text_of self.new ≡ record_text fields.offset fields.round fields.timestamp fields.attr_index
            fields.record_type fields.misc fields.body_length }
    {
        self.start = format_record(&mut self.bytes, fields);
    }

    // Sets it to the line of a jitdump record: its offset in the file, its timestamp, its type, and its size
    // in bytes including its record header.
    #[inline]
    pub(crate) fn set_jit_record(&mut self, offset: u64, time: u64, record_type: u32, size: u64)
        ensures { text_of self.new ≡ jit_record_text offset time record_type size }
    {
        self.start = format_jit_record(&mut self.bytes, offset, time, record_type, size);
    }

    // Creates the line of an error after `records` records.
    pub(crate) fn for_error(records: u64) -> ListingLine
        ensures { text_of result ≡ error_text records }
    {
        let mut bytes = [0; LINE_CAPACITY];
        let start = format_error(&mut bytes, records);
        ListingLine { bytes, start }
    }

    /// The bytes of the line, including its newline.
    pub fn as_bytes(&self) -> &[u8]
        ensures { result.now ≡ text_of self.now }
    {
        &self.bytes[self.start..]
    }
}
