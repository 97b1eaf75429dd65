//! The parsers of sections, of records that tools write, and of jitdumps; sets of features and the cache of
//! identifiers.
use crate::case::{CaseError, CaseResult, parse_number, split_argument};
use crate::jitdumps::push_parsed;
use crate::outcome::Call;
use crate::text::Output;
use byteorder::{BigEndian, LittleEndian};
use perfdata_base::event::{CpuMode, RecordType};
use perfdata_base::features::{Feature, FeatureSet};
use perfdata_base::place::IdCache;
use perfdata_base::raw::{Endianness, FileOrder, RawData};
use perfdata_base::section::PerfFileSection;
use perfdata_jit::{JitCodeDebugInfoRecord, JitDumpHeader, JitDumpRawRecord, JitDumpRecordType};
use perfdata_records::auxtrace::Auxtrace;
use perfdata_records::build_id_event::BuildIdEvent;
use perfdata_records::dso_key::DsoKey;
use perfdata_records::record::*;
use perfdata_records::thread_map::ThreadMap;
use perfdata_sections::error::Error;
use perfdata_sections::feature_sections::*;
use perfdata_simpleperf::simpleperf::*;
use std::hash::{DefaultHasher, Hash, Hasher};

const UNKNOWN_CALL: CaseError = CaseError::Invalid("an unknown call");

/// Makes the call of a case in the byte order of its input.
pub fn call(call: &Call<'_>, out: &mut Output) -> CaseResult {
    match call.endian {
        Endianness::LittleEndian => call_in::<LittleEndian>(call, out),
        Endianness::BigEndian => call_in::<BigEndian>(call, out),
    }
}

fn call_in<T: FileOrder>(call: &Call<'_>, out: &mut Output) -> CaseResult {
    let (alloc, bytes, body) = (call.alloc, call.bytes, call.raw());
    match call.case.call {
        "raw" => push_raw::<T>(call, out)?,
        "FeatureSet" => push_set(call, out)?,
        "Feature" => push_features(call, out)?,
        "IdCache" => push_cached(call, out)?,
        "DsoKey::detect" => push_keys(call, out)?,
        "Auxtrace::parse" => out.push_io_result(&Auxtrace::parse::<T>(body)),
        "HeaderAttr::parse" => out.push_io_result(&HeaderAttr::parse::<T>(alloc, body)),
        "HeaderFeature::parse" => out.push_io_result(&HeaderFeature::parse::<T>(alloc, body)),
        "HeaderString::parse" => out.push_io_result(&HeaderString::parse::<_, T>(alloc, bytes)),
        "BuildIdEvent::parse" => out.push_io_result(&BuildIdEvent::parse::<_, T>(alloc, bytes)),
        "PmuMappings::parse" => {
            let mappings = PmuMappings::parse::<_, T>(alloc, bytes);
            out.push_io_result(&mappings.map(|mappings| mappings.0));
        }
        "ThreadMap::parse" => match ThreadMap::parse::<T>(body) {
            Ok(map) => push_threads(call, out, &map)?,
            Err(error) => out.push_io_result(&Err::<(), _>(error)),
        },
        "RawUserRecord::parse" => push_user_record(call, out)?,
        "JitDumpHeader::parse" | "JitDumpRawRecord::parse" | "JitCodeDebugInfoRecord::lookup" => {
            push_jitdump(call, out)?;
        }
        name if name.ends_with("_section") => push_section::<T>(call, out)?,
        _ => push_simpleperf::<T>(call, out)?,
    }
    Ok(())
}

// Makes the calls of the option `calls` on the input in the slices of the case.
fn push_raw<T: FileOrder>(call: &Call<'_>, out: &mut Output) -> CaseResult {
    let mut bytes = call.raw();
    for name in call.case.option("calls").unwrap_or("").split(',') {
        match name {
            "len" => out.push_line(&bytes.len()),
            "read_u16" => out.push_io_result(&bytes.read_u16::<T>()),
            "read_u32" => out.push_io_result(&bytes.read_u32::<T>()),
            "read_i32" => out.push_io_result(&bytes.read_i32::<T>()),
            "read_u64" => out.push_io_result(&bytes.read_u64::<T>()),
            "as_slice" => push_bytes(call, Some(bytes), out),
            "read_string" => push_bytes(call, bytes.read_string(), out),
            _ => return Err(UNKNOWN_CALL),
        }
    }
    Ok(())
}

// Appends bytes in any slices as a line.
fn push_bytes(call: &Call<'_>, bytes: Option<RawData<'_>>, out: &mut Output) {
    match bytes.map(|bytes| bytes.as_slice(call.alloc)) {
        Some(Ok(bytes)) => out.push_line(&bytes.as_slice()),
        Some(Err(error)) => out.push_line(&error),
        None => write!(out, "None\n"),
    }
}

// The set of features with the words of an option.
fn feature_set(call: &Call<'_>, name: &str) -> CaseResult<FeatureSet> {
    match call.case.numbers(call.alloc, name)?.as_slice() {
        [first, second, third, fourth] => Ok(FeatureSet([*first, *second, *third, *fourth])),
        _ => Ok(FeatureSet([0; 4])),
    }
}

// The feature of this number.
fn feature(number: u64) -> Feature {
    Feature(u32::try_from(number).unwrap_or(u32::MAX))
}

fn hash(set: &FeatureSet) -> u64 {
    let mut state = DefaultHasher::new();
    set.hash(&mut state);
    state.finish()
}

// Prints a set, whether it is another one and has its hash, and what a list of calls returns.
fn push_set(call: &Call<'_>, out: &mut Output) -> CaseResult {
    let (set, other) = (feature_set(call, "words")?, feature_set(call, "other")?);
    out.push_line(&(set, set.len(), set.is_empty()));
    out.push_line(&(set == other, hash(&set) == hash(&other)));
    let mut members = set.iter();
    for word in call.case.option("calls").unwrap_or("").split(',') {
        match split_argument(word) {
            ("next", _) => out.push_line(&members.next()),
            (_, number) => out.push_line(&set.has_feature(feature(parse_number(number)?))),
        }
    }
    Ok(())
}

// Prints the name of each feature.
fn push_features(call: &Call<'_>, out: &mut Output) -> CaseResult {
    for number in call.case.numbers(call.alloc, "numbers")?.iter() {
        let feature = feature(*number);
        writeln!(out, "{feature} {feature:?}");
    }
    Ok(())
}

// Makes the calls of the options on a cache, and prints what is found.
fn push_cached(call: &Call<'_>, out: &mut Output) -> CaseResult {
    let mut cache = IdCache::new();
    for word in call.case.options.split_whitespace() {
        let (name, argument) = split_argument(word);
        let (id, index) = argument.split_once(',').unwrap_or((argument, "0"));
        match name {
            "put" => cache.put(parse_number(id)?, parse_number(index)? as usize),
            "get" => out.push_line(&cache.get(parse_number(id)?)),
            _ => cache.clear(),
        }
    }
    Ok(())
}

// Prints the key and the name of a path in each mode.
fn push_keys(call: &Call<'_>, out: &mut Output) -> CaseResult {
    for misc in [1u16, 4, 2, 5, 3, 0] {
        let mode = CpuMode::from_misc(misc);
        match DsoKey::detect(call.alloc, call.bytes, mode)? {
            Some(key) => writeln!(out, "{mode:?}: {key:?} {:?}", key.name()),
            None => writeln!(out, "{mode:?}: None"),
        }
    }
    Ok(())
}

// Appends the length of a map, and a line for each of its threads.
fn push_threads(call: &Call<'_>, out: &mut Output, map: &ThreadMap<'_>) -> CaseResult {
    let (len, is_empty) = (map.len(), map.is_empty());
    writeln!(out, "ThreadMap: len {len}, is_empty {is_empty}");
    for thread in map.iter() {
        let name = thread.name.as_slice(call.alloc)?;
        out.push_line(&(thread.tid, name.as_slice()));
    }
    Ok(())
}

// The option `type`.
fn record_type(call: &Call<'_>) -> CaseResult<u32> {
    Ok(u32::try_from(call.case.number("type", 0)?).unwrap_or(u32::MAX))
}

// Parses a record of the type in the option `type`.
fn push_user_record(call: &Call<'_>, out: &mut Output) -> CaseResult {
    let Some(record_type) = UserRecordType::try_from(RecordType(record_type(call)?)) else {
        return Err(CaseError::Invalid("a type that isn't a user record's"));
    };
    let record = RawUserRecord {
        record_type,
        endian: call.endian,
        misc: (call.case.number("misc", 0)? & 0xffff) as u16,
        body: call.raw(),
    };
    match record.parse(call.alloc) {
        Ok(UserRecord::ThreadMap(map)) => push_threads(call, out, &map)?,
        parsed => out.push_io_result(&parsed),
    }
    Ok(())
}

// Parses the header of a jitdump or the body of a record, or looks up addresses in debug info.
fn push_jitdump(call: &Call<'_>, out: &mut Output) -> CaseResult {
    match call.case.call {
        "JitDumpHeader::parse" => match JitDumpHeader::parse(call.raw()) {
            Ok(header) => writeln!(out, "{header:?}\n{:?}", header.endian()),
            Err(error) if call.case.has("display") => writeln!(out, "{error:?}\n{error}"),
            Err(error) => out.push_line(&error),
        },
        "JitDumpRawRecord::parse" => {
            let record = JitDumpRawRecord {
                endian: call.endian,
                record_type: JitDumpRecordType(record_type(call)?),
                timestamp: 9,
                start_offset: 40,
                record_size: 62,
                body: call.raw(),
            };
            push_parsed(call, &Ok(Some(record)), out);
        }
        _ => {
            let info = JitCodeDebugInfoRecord::parse(call.alloc, call.endian, call.raw())?;
            for addr in call.case.numbers(call.alloc, "addr")?.iter() {
                out.push_line(&info.lookup(*addr).map(|entry| entry.code_addr));
            }
        }
    }
    Ok(())
}

// Parses a section of simpleperf's symbol tables or of attributes.
fn push_section<T: FileOrder>(call: &Call<'_>, out: &mut Output) -> CaseResult {
    let (alloc, bytes, endian) = (call.alloc, call.bytes, call.endian);
    match call.case.call {
        "parse_file_section" => out.push_result(&parse_file_section(alloc, bytes, endian)),
        "parse_file2_section" => out.push_result(&parse_file2_section(alloc, bytes, endian)),
        _ => return push_attribute_section::<T>(call, out),
    }
    Ok(())
}

// Parses a section of attributes.
fn push_attribute_section<T: FileOrder>(call: &Call<'_>, out: &mut Output) -> CaseResult {
    let (alloc, mut source) = (call.alloc, call.script()?);
    let numbers = call.case.numbers(alloc, "section")?;
    let section = PerfFileSection {
        offset: numbers.first().copied().unwrap_or(0),
        size: numbers.last().copied().unwrap_or(0),
    };
    let attr_size = call.case.number("attr-size", 0)?;
    let parsed = match call.case.call {
        "parse_event_desc_section" => {
            AttributeDescription::parse_event_desc_section::<_, T>(alloc, &mut source)
        }
        "parse_event_types_section" => AttributeDescription::parse_event_types_section::<_, T>(
            alloc,
            &mut source,
            &section,
            attr_size,
        ),
        "parse_simpleperf_attr_section" => {
            let name = String::from_str(alloc, call.case.option("types").unwrap_or(""))?;
            let types = [SimplePerfEventType::new(name, 1, 0)];
            AttributeDescription::parse_simpleperf_attr_section::<_, T>(
                alloc,
                &mut source,
                &section,
                attr_size,
                &types,
            )
        }
        _ => AttributeDescription::parse_attr_section::<_, T>(
            alloc,
            &mut source,
            &section,
            attr_size,
        ),
    };
    push_attributes(&parsed, out);
    Ok(())
}

// Appends the number of attributes, and the name, ids and attribute of each.
fn push_attributes(parsed: &Result<Vec<AttributeDescription>, Error>, out: &mut Output) {
    let Ok(all) = parsed else {
        return out.push_result(parsed);
    };
    writeln!(out, "{} attributes", all.len());
    for description in all.iter() {
        let (name, ids) = (description.name(), description.ids());
        writeln!(out, "{name:?}, {ids:?}, {:?}", description.attributes());
    }
}

// Parses meta info, and prints its pairs.
fn push_meta_info(call: &Call<'_>, out: &mut Output) -> CaseResult {
    match parse_meta_info_map(call.alloc, call.bytes) {
        Ok(map) => {
            let mut pairs = Vec::new(call.alloc);
            for (key, value) in map.iter() {
                pairs.push((*key, *value))?;
            }
            pairs.sort()?;
            out.push_line(&pairs);
        }
        Err(error) => out.push_result(&Err::<(), _>(error)),
    }
    Ok(())
}

// Parses a record of simpleperf, or its meta info.
fn push_simpleperf<T: FileOrder>(call: &Call<'_>, out: &mut Output) -> CaseResult {
    let (alloc, bytes) = (call.alloc, call.bytes);
    match call.case.call {
        "decode" => out.push_line(&SimpleperfFileRecord::decode(alloc, bytes)),
        "decode_v1" => out.push_io_result(&SimpleperfFileRecord::decode_v1::<T>(alloc, bytes)),
        "parse_meta_info_map" => push_meta_info(call, out)?,
        "get_event_types" => {
            let Ok(map) = parse_meta_info_map(alloc, bytes) else {
                return Err(CaseError::Invalid("meta info that isn't UTF-8"));
            };
            match get_event_types(alloc, &map)? {
                Some(types) => push_event_types(&types, out),
                None => write!(out, "None\n"),
            }
        }
        _ => return Err(UNKNOWN_CALL),
    }
    Ok(())
}

// Appends the name, type and config of each event.
fn push_event_types(types: &[SimplePerfEventType], out: &mut Output) {
    for event in types {
        out.push_line(&(event.name.as_str(), event.type_, event.config));
    }
}
