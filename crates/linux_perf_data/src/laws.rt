//! Laws of the record layout, over its definitions alone: the list of records that the contracts of a reading
//! describe exists and is unique.
ghost use Rattle.linux_perf_data.specs.BuildIds.{BuildIdListIsUnique, KeysEqualByTexts};
ghost use Rattle.linux_perf_data.specs.LateMetadata.{AccumulatesNone, AccumulatesOneMore};
ghost use Rattle.linux_perf_data.specs.LateMetadata.{EventDescStaysValid};
ghost use Rattle.linux_perf_data.specs.Reading.{NoCalls, OneCallMore};
ghost use Rattle.linux_perf_data.specs.Items.{ItemsAreRecords};
ghost use Rattle.linux_perf_data.specs.FileReading.{ReadingFilePartly, ReadingFileToEnd, ReadingFileToError};
ghost use Rattle.linux_perf_data.specs.PipeReading.{ReadingPipePartly, ReadingPipeToEnd, ReadingPipeToError};
ghost use Rattle.linux_perf_data.specs.PipeReading.{LongestRun, OpeningHasNoError};
ghost use Rattle.linux_perf_data.specs.Laws.{RecordIsUnique, ErrorIsUnique, NoErrorAtRecord};
ghost use Rattle.linux_perf_data.specs.Laws.{EndErrorOrRecord, ConsistentOrNot, InconsistencyIsUnique};
ghost use Rattle.linux_perf_data.specs.Laws.{LayoutIsUnique, LayoutExists, RemainingRecordsAreUnique};
ghost use Rattle.linux_perf_data.specs.Laws.{OffsetsIncrease, OffsetAndRoundOfRecord, MarkersAddNoAttributes};
ghost use Rattle.linux_perf_data.specs.Laws.{AuxtracesParse, NoNamesOnError, NamesAreUnique};
ghost use Rattle.linux_perf_data.specs.Laws.{PipeOpeningIsUnique, DescribedPipeOpens, DescribedFileOpens};
ghost use Rattle.linux_perf_data.specs.Laws.{FileDescriptionIsUnique, TruncatedHeaderFails, FarHeaderFails};
ghost use Rattle.linux_perf_data.specs.Laws.{UnknownMagicFails, FileErrorIsUnique, PipeErrorIsUnique};
ghost use Rattle.linux_perf_data.specs.Laws.{WholeRecordsRemain};

use perfdata_base::source::Source;

/// At most one prefix of the bytes is a whole record.
pub fn at_most_one_record()
    ensures { RecordIsUnique }
{}

/// Where a record may start, there is the end of the records, one error, or a raw record. There is no error
/// at a raw record that the attributes allow.
pub fn end_error_or_record()
    ensures one_error { ErrorIsUnique }
    ensures no_error_at_record { NoErrorAtRecord }
    ensures end_error_or_record { EndErrorOrRecord }
{}

/// If the records of the attributes don't all have their identifiers at the same offsets, an attribute is
/// inconsistent. The first such attribute is unique.
pub fn consistent_or_first_inconsistency()
    ensures consistent_or_not { ConsistentOrNot }
    ensures one_inconsistency { InconsistencyIsUnique }
{}

/// Bytes have at most one layout: they determine the records that they start with, and the end or the error
/// after those.
pub fn at_most_one_layout()
    ensures { LayoutIsUnique }
{}

/// All bytes have a layout after consistent attributes, in a file and in a pipe.
pub fn layout_exists()
    ensures { LayoutExists }
{}

/// The bytes, their offset and round, and the attributes before them determine the remaining records and
/// their end.
pub fn remaining_records_are_unique()
    ensures { RemainingRecordsAreUnique }
{}

/// The offsets of records increase strictly, and their rounds never decrease.
pub fn offsets_increase()
    ensures { OffsetsIncrease }
{}

/// The offset of a record is the sum of the lengths of the raw records before it. Its round is the number of
/// markers before it.
pub fn offset_and_round_of_record()
    ensures { OffsetAndRoundOfRecord }
{}

/// Markers add no attributes: the returned records contain all attributes of the raw records.
pub fn markers_add_no_attributes()
    ensures { MarkersAddNoAttributes }
{}

/// Records of a pipe that are applied to a `PerfFile` one at a time add the same metadata as all of them
/// together. If EVENT_DESC is readable before a record is applied, it is readable afterwards.
pub fn metadata_accumulates()
    ensures none { AccumulatesNone }
    ensures more { AccumulatesOneMore }
    ensures names { EventDescStaysValid }
{}

/// `Auxtrace::parse` accepts the body of each returned auxtrace record whose record header contains the size
/// 48.
pub fn auxtraces_parse()
    ensures { AuxtracesParse }
{}

/// The bytes of a pipe determine the metadata records of its opening. If those can open the pipe, no opening
/// error applies.
pub fn pipe_opening_is_unique()
    ensures one { PipeOpeningIsUnique }
    ensures exists { DescribedPipeOpens }
{}

/// If the bytes of a file describe an opened file, no opening error applies.
pub fn described_file_opens()
    ensures { DescribedFileOpens }
{}

/// The bytes of a file determine what they describe: the header, the byte order, the features and their data,
/// and the attributes with their names and ids.
pub fn file_description_is_unique()
    ensures { FileDescriptionIsUnique }
{}

/// The errors of a file header precede those of the bytes after it. The header has fewer than 104 bytes, or
/// it has 2^63 or more bytes to skip, or, after these checks, its magic is unknown.
pub fn header_errors_come_first()
    ensures truncated { TruncatedHeaderFails }
    ensures too_long { FarHeaderFails }
    ensures magic { UnknownMagicFails }
{}

/// Two opening errors of one file, or of one pipe, have one cause: they are the same error, or I/O errors of
/// one kind.
pub fn opening_error_is_unique()
    ensures file { FileErrorIsUnique }
    ensures pipe { PipeErrorIsUnique }
{}

/// The ids of a pipe's attributes and the bytes of EVENT_DESC determine the names of the attributes. If
/// EVENT_DESC has an error, there are no names.
pub fn names_are_unique()
    ensures no_names_on_error { NoNamesOnError }
    ensures determined { NamesAreUnique }
{}

/// The section BUILD_ID splits into entries in only one way, which determines its map.
pub fn build_id_list_is_unique()
    ensures { BuildIdListIsUnique }
{}

/// The keys of two mapped objects are equal if and only if they have the same DSO kind and the same texts.
pub fn keys_equal_by_texts()
    ensures { KeysEqualByTexts }
{}

/// Extends consecutive calls of `next_record` by one call, for a caller that uses the law of a reading.
pub fn consecutive_calls<R: Source>()
    ensures none { NoCalls R.state }
    ensures more { OneCallMore R.state }
{}

/// Consecutive calls of `next_item` return the records that calls of `next_record` return, and the ends of
/// rounds between them. The next call of `next_record` then returns what it returns without these calls.
pub fn items_are_records<R: Source>()
    ensures { ItemsAreRecords R.state }
{}

/// A whole reading of a file: the result of `parse_file`, then consecutive calls of `next_record`, each with
/// the `PerfFile` of the call before.
///
/// The returned records are the first records of the layout, in order, and the unread bytes follow the last
/// one. If a call returns the end, they are all records. If a call fails, and not because memory runs out,
/// the layout has that error after them, or the source failed or paused in that call.
pub fn file_reading<R: Source>()
    ensures partly { ReadingFilePartly R.state }
    ensures end { ReadingFileToEnd R.state }
    ensures to_error { ReadingFileToError R.state }
{}

/// The records of an unfinished file without the whole data section are its whole records, each once, in
/// order, and then the end: if the bytes from the offset of the data section to the end of the file are whole
/// records, none of them compressed, and a part of one.
pub fn whole_records_remain()
    ensures { WholeRecordsRemain }
{}

/// A whole reading of a pipe, in the same way from the result of `parse_pipe`. Its `PerfFile` contains
/// exactly the metadata that was read. If a call returns the end, the returned records are all records, or
/// the source paused and bytes remain.
pub fn pipe_reading<R: Source>()
    ensures partly { ReadingPipePartly R.state }
    ensures end { ReadingPipeToEnd R.state }
    ensures to_error { ReadingPipeToError R.state }
{}

/// The opening of a pipe's reading is the longest sequence of metadata records at the start of its bytes, and
/// no opening error applies to those bytes.
pub fn pipe_reading_covers_opening()
    ensures longest { LongestRun }
    ensures exists { OpeningHasNoError }
{}
