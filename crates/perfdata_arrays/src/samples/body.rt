//! The fields of a sample up to its call chain.
ghost use Rattle.std.specs.Prelude.{◌≡◌};
ghost use Rattle.std.specs.Option.{option_map};
ghost use Rattle.perfdata_sources.specs.Raw.{bytes_of};
ghost use Rattle.perfdata_events.specs.CallChain.{chain_values_of};
ghost use Rattle.perfdata_events.specs.Format.{Decodes};
ghost use Rattle.perfdata_arrays.specs.Bodies.{IsBody, chain_after_values, values_of_words, words};

use bitflags::Flags;
use perfdata_base::raw::RawData;
use perfdata_events::call_chain::CallChain;
use perfdata_events::format::EventFormat;
use perfdata_events::read_values::ReadValues;
use perfdata_events::sample_bits::SampleFields;
use perfdata_events::sample_words::{EventFields, OriginFields};
use perfdata_events::words::read_u64_if;
use std::io::Result;

/// The bits of the words up to the period.
pub(crate) const WORD_BITS: u64 = SampleFields::IDENTIFIER.0
    | SampleFields::IP.0
    | SampleFields::TID.0
    | SampleFields::TIME.0
    | SampleFields::ADDR.0
    | SampleFields::ID.0
    | SampleFields::STREAM_ID.0
    | SampleFields::CPU.0
    | SampleFields::PERIOD.0;

/// Why fields of a sample can't be decoded.
#[derive(Clone, Copy, Debug, PartialEq, Eq)]
pub enum BodyError {
    /// The body ends inside a field.
    Truncated,
    /// The attribute selects a field whose offset isn't known.
    UnknownFields,
}

/// The words of a sample up to its period. A field is `None` if the attribute doesn't select it.
#[derive(Clone, Copy, Debug)]
pub struct SampleWords {
    /// The first words.
    pub origin: OriginFields,
    /// The next words.
    pub event: EventFields,
    /// The number of events since the previous sample.
    pub period: Option<u64>,
}

/// The fields of a sample up to its call chain, as far as they can be decoded.
#[derive(Clone, Copy, Debug)]
pub enum SampleBody<'a> {
    /// All fields up to the call chain.
    Complete(SampleWords, Option<CallChain<'a>>),
    /// The words up to the period. The fields after them can't be decoded.
    Words(SampleWords, BodyError),
    /// The words are truncated.
    Nothing,
}

// Removes the words up to the period.
#[inline(always)]
fn parse_words(format: &EventFormat, fields: &mut RawData<'_>) -> Result<SampleWords>
    ensures { Decodes (words format.now) values_of_words (bytes_of fields.old) result (bytes_of fields.new) }
{
    let endian = format.endian;
    let bits = format.sample_format;
    let origin = OriginFields::parse(endian, bits, fields)?;
    let event = EventFields::parse(endian, bits, fields)?;
    let period = read_u64_if(endian, fields, bits.contains(SampleFields::PERIOD))?;
    Ok(SampleWords {
        origin,
        event,
        period,
    })
}

// Removes the counter values and the call chain, and returns the call chain.
#[inline(always)]
fn parse_chain<'a>(format: &EventFormat, fields: &mut RawData<'a>) -> Result<Option<CallChain<'a>>>
    ensures { Decodes (chain_after_values format.now) (option_map chain_values_of) (bytes_of fields.old)
        result (bytes_of fields.new) }
{
    ReadValues::parse_if(format, fields)?;
    CallChain::parse_if(format, fields)
}

impl<'a> SampleBody<'a> {
    /// Decodes the fields up to the call chain of a sample with this body.
    #[inline(always)]
    pub fn parse(format: &EventFormat, body: RawData<'a>) -> SampleBody<'a>
        ensures { IsBody format.now (bytes_of body.entry) result }
    {
        let mut fields = body;
        let Ok(words) = parse_words(format, &mut fields) else {
            return SampleBody::Nothing;
        };
        if !format.has_known_fields() {
            return SampleBody::Words(words, BodyError::UnknownFields);
        }
        match parse_chain(format, &mut fields) {
            Ok(call_chain) => SampleBody::Complete(words, call_chain),
            Err(_) => SampleBody::Words(words, BodyError::Truncated),
        }
    }
}
