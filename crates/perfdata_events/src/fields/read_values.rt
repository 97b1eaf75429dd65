//! The values of counters.
ghost use Rattle.perfdata_sources.specs.Raw.{bytes_of};
ghost use Rattle.std.specs.Prelude.{IfSome};
ghost use Rattle.perfdata_events.specs.Single.{KeepsSingle, NoParts};
ghost use Rattle.perfdata_events.specs.SingleParts.{SingleGroup, SingleValuesOf};
ghost use Rattle.perfdata_sources.specs.Endian.{number_in};
ghost use Rattle.perfdata_events.specs.Format.{Decodes, optional};
ghost use Rattle.std.specs.Option.{option_map};
ghost use Rattle.perfdata_identifiers.specs.ParseInfo.{is_set};
ghost use Rattle.perfdata_events.specs.ReadFormat.{ID, LOST};
ghost use Rattle.perfdata_events.specs.SampleFormat.{READ};

use crate::fields::u64s::RawDataU64;
use crate::fields::words::{read_u64, read_u64_if, read_u64s};
use crate::format::EventFormat;
use crate::sample_bits::{ReadFields, SampleFields};
use bitflags::Flags;
use perfdata_base::raw::{Endianness, RawData};
use std::io::Result;

/// The value of one counter. A field is `None` if the read format doesn't select it.
#[derive(Clone, Copy, Debug, PartialEq, Eq)]
pub struct SingleValues {
    /// The value.
    pub value: u64,
    /// The time that the event was enabled, in nanoseconds.
    pub time_enabled: Option<u64>,
    /// The time that the event was counted, in nanoseconds.
    pub time_running: Option<u64>,
    /// The identifier of the event.
    pub id: Option<u64>,
    /// The number of lost samples.
    pub lost: Option<u64>,
}

/// The values of the counters of a group. A time is `None` if the read format doesn't select it.
#[derive(Clone, Copy, Debug)]
pub struct GroupValues<'a> {
    /// The time that the group was enabled, in nanoseconds.
    pub time_enabled: Option<u64>,
    /// The time that the group was counted, in nanoseconds.
    pub time_running: Option<u64>,
    /// Whether each counter has the identifier of its event.
    pub has_id: bool,
    /// Whether each counter has the number of its lost samples.
    pub has_lost: bool,
    /// The numbers of each counter: its value, its identifier and its number of lost samples, as far as they
    /// are there.
    pub numbers: RawDataU64<'a>,
}

/// The value of a counter of a group. A field is `None` if the read format doesn't select it.
#[derive(Clone, Copy, Debug, PartialEq, Eq)]
pub struct CounterValue {
    /// The value.
    pub value: u64,
    /// The identifier of the event.
    pub id: Option<u64>,
    /// The number of lost samples.
    pub lost: Option<u64>,
}

/// The values of counters.
#[derive(Clone, Copy, Debug)]
pub enum ReadValues<'a> {
    /// The value of one counter.
    Single(SingleValues),
    /// The values of the counters of a group.
    Group(GroupValues<'a>),
}

/// What a read format selects besides the value of a counter. A field is `None` if the read format doesn't
/// select it.
#[derive(Clone, Copy)]
pub struct Details {
    /// The time that the event was enabled, in nanoseconds.
    pub time_enabled: Option<u64>,
    /// The time that the event was counted, in nanoseconds.
    pub time_running: Option<u64>,
    /// The identifier of the event.
    pub id: Option<u64>,
    /// The number of lost samples.
    pub lost: Option<u64>,
}

/// The times that a read format selects for an event or a group. A time is `None` if the read format doesn't
/// select it.
#[derive(Clone, Copy)]
pub struct Times {
    /// The time that the event, or the group, was enabled, in nanoseconds.
    pub time_enabled: Option<u64>,
    /// The time that the event, or the group, was counted, in nanoseconds.
    pub time_running: Option<u64>,
}

impl Details {
    ghost use Rattle.perfdata_events.specs.ReadValues.{details};

    fn parse(endian: Endianness, format: ReadFields, fields: &mut RawData<'_>) -> Result<Details>
        ensures decodes { Decodes (details (number_in endian) format.0) (λ v. v) (bytes_of fields.old) result
            (bytes_of fields.new) }
        ensures single { KeepsSingle NoParts fields.old result fields.new }
    {
        let times = Times::parse(endian, format, fields)?;
        let id = read_u64_if(endian, fields, format.contains(ReadFields::ID))?;
        let lost = read_u64_if(endian, fields, format.contains(ReadFields::LOST))?;
        Ok(Details {
            time_enabled: times.time_enabled,
            time_running: times.time_running,
            id,
            lost,
        })
    }
}

impl Times {
    ghost use Rattle.perfdata_events.specs.ReadValues.{times};

    fn parse(endian: Endianness, format: ReadFields, fields: &mut RawData<'_>) -> Result<Times>
        ensures decodes { Decodes (times (number_in endian) format.0) (λ v. v) (bytes_of fields.old) result
            (bytes_of fields.new) }
        ensures single { KeepsSingle NoParts fields.old result fields.new }
    {
        let time_enabled = read_u64_if(
            endian,
            fields,
            format.contains(ReadFields::TOTAL_TIME_ENABLED),
        )?;
        let time_running = read_u64_if(
            endian,
            fields,
            format.contains(ReadFields::TOTAL_TIME_RUNNING),
        )?;
        Ok(Times {
            time_enabled,
            time_running,
        })
    }
}

impl SingleValues {
    ghost use Rattle.perfdata_events.specs.ReadValues.{single_values, single_of};

    // Removes the value of one counter.
    fn parse(
        endian: Endianness,
        format: ReadFields,
        fields: &mut RawData<'_>,
    ) -> Result<SingleValues>
        ensures decodes { Decodes (single_values (number_in endian) format.0) single_of (bytes_of fields.old)
            result (bytes_of fields.new) }
        ensures single { KeepsSingle NoParts fields.old result fields.new }
    {
        let value = read_u64(endian, fields)?;
        let details = Details::parse(endian, format, fields)?;
        Ok(SingleValues {
            value,
            time_enabled: details.time_enabled,
            time_running: details.time_running,
            id: details.id,
            lost: details.lost,
        })
    }
}

impl<'a> GroupValues<'a> {
    ghost use Rattle.std.specs.Prelude.{◌≡◌, ◌≤◌, ◌<◌, IfSome, IfNone};
    ghost use Rattle.perfdata_identifiers.specs.ParseInfo.{is_set};
    ghost use Rattle.perfdata_events.specs.ReadValues.{group_values, group_of, counter_width, counter_count};
    ghost use Rattle.perfdata_events.specs.ReadValues.{counter_at};

    // The number of numbers of a counter.
    fn width(format: ReadFields) -> u64
        ensures { result ≡ counter_width (is_set format.0 ID) (is_set format.0 LOST) }
    {
        let ids = if format.contains(ReadFields::ID) {
            1
        } else {
            0
        };
        let losts = if format.contains(ReadFields::LOST) {
            1
        } else {
            0
        };
        1 + ids + losts
    }

    // The number of numbers of each counter.
    fn counter_width(&self) -> usize
        ensures { result ≡ counter_width self.now.has_id self.now.has_lost }
    {
        let ids = if self.has_id { 1 } else { 0 };
        let losts = if self.has_lost { 1 } else { 0 };
        1 + ids + losts
    }

    /// Returns the number of counters.
    pub fn len(&self) -> usize
        ensures { result ≡ counter_count self.now }
    {
        self.numbers.len() / self.counter_width()
    }

    /// Returns the value of the counter at an index, or `None` if there are no more counters than `index`.
    pub fn get(&self, index: usize) -> Option<CounterValue>
        ensures none { IfNone result (counter_count self.now ≤ index) }
        ensures within { IfSome result (λ _. index < counter_count self.now) }
        ensures counter { IfSome result (λ counter. counter ≡ counter_at self.now index) }
    {
        let width = self.counter_width();
        if index >= self.numbers.len() / width {
            return None;
        }
        let start = width * index;
        let value = self.numbers.get(start)?;
        let id = if self.has_id {
            self.numbers.get(start + 1)
        } else {
            None
        };
        let lost = if self.has_lost {
            self.numbers.get(start + (width - 1))
        } else {
            None
        };
        Some(CounterValue { value, id, lost })
    }

    // Removes the values of the counters of a group.
    fn parse(
        endian: Endianness,
        format: ReadFields,
        fields: &mut RawData<'a>,
    ) -> Result<GroupValues<'a>>
        ensures decodes { Decodes (group_values (number_in endian) format.0) group_of (bytes_of fields.old)
            result (bytes_of fields.new) }
        ensures single { KeepsSingle SingleGroup fields.old result fields.new }
    {
        let count = read_u64(endian, fields)?;
        let times = Times::parse(endian, format, fields)?;
        let numbers = read_u64s(endian, fields, count, GroupValues::width(format))?;
        Ok(GroupValues {
            time_enabled: times.time_enabled,
            time_running: times.time_running,
            has_id: format.contains(ReadFields::ID),
            has_lost: format.contains(ReadFields::LOST),
            numbers,
        })
    }
}

impl<'a> ReadValues<'a> {
    ghost use Rattle.perfdata_events.specs.ReadValues.{read_values, values_of};

    /// Parses the values that a read format selects at the start of `fields`, and removes them.
    ///
    /// Fails with an `UnexpectedEof` error if they are truncated.
    pub fn parse(
        endian: Endianness,
        read_format: ReadFields,
        fields: &mut RawData<'a>,
    ) -> Result<ReadValues<'a>>
        ensures decodes { Decodes (read_values (number_in endian) read_format.0) values_of
            (bytes_of fields.old) result (bytes_of fields.new) }
        ensures single { KeepsSingle SingleValuesOf fields.old result fields.new }
    {
        if read_format.contains(ReadFields::GROUP) {
            let group = GroupValues::parse(endian, read_format, fields)?;
            Ok(ReadValues::Group(group))
        } else {
            let single = SingleValues::parse(endian, read_format, fields)?;
            Ok(ReadValues::Single(single))
        }
    }

    /// Does what [`ReadValues::parse`] does if samples of the format have values.
    #[inline(always)]
    pub fn parse_if(
        format: &EventFormat,
        fields: &mut RawData<'a>,
    ) -> Result<Option<ReadValues<'a>>>
        ensures decodes { Decodes (optional (is_set format.now.sample_format.0 READ)
            (read_values (number_in format.now.endian) format.now.read_format.0)) (option_map values_of)
            (bytes_of fields.old) result (bytes_of fields.new) }
        ensures single { KeepsSingle (λ v. IfSome v SingleValuesOf) fields.old result fields.new }
    {
        if !format.sample_format.contains(SampleFields::READ) {
            return Ok(None);
        }
        ReadValues::parse(format.endian, format.read_format, fields).map(Some)
    }
}
