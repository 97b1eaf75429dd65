//! Parses the event types in simpleperf's meta info.
ghost use Rattle.std.specs.Prelude.{IfOk, OnErr, Some};
ghost use Rattle.perfdata_simpleperf.specs.MetaInfo.{map_text_at};
ghost use Rattle.perfdata_simpleperf.specs.EventTypeInfo.{EventType, line_fields, event_type_info};
ghost use Rattle.perfdata_simpleperf.specs.EventTypeInfo.{DescribesEvent, BeginsWithEvents};
ghost use Rattle.perfdata_simpleperf.specs.steps.EventTypeInfo.{ParsesEvent};
ghost use Rattle.perfdata_simpleperf.specs.EventTypeInfo.{ParsesEventTypes, ReturnsEventTypes};
ghost use Rattle.perfdata_simpleperf.specs.steps.EventTypeInfo.{IsFirstThree};

use perfdata_sections::event_type::SimplePerfEventType;
use std::alloc::{AllocError, Global};
use std::collections::HashMap;

// The key of the value that lists the events.
const EVENT_TYPE_INFO: &str = "event_type_info";

// Returns the first three comma-separated fields of a line, or `None` if there are fewer than three.
fn first_three(line: &str) -> Option<(&str, &str, &str)>
    ensures { IsFirstThree (λ s. s.now) (line_fields line.now) result }
{
    let mut fields = line.split(',');
    let Some(first) = fields.next() else {
        return None;
    };
    let Some(second) = fields.next() else {
        return None;
    };
    match fields.next() {
        Some(third) => Some((first, second, third)),
        None => None,
    }
}

// Parses the event in a line. Returns `None` if the line doesn't describe an event.
fn parse_event(alloc: Global, line: &str) -> Result<Option<SimplePerfEventType>, AllocError>
    ensures event { IfOk result (λ event. ParsesEvent (line_fields line.now) event) }
    ensures memory { OnErr result ((e : EventType) × DescribesEvent (line_fields line.now) e) }
{
    let Some((name, type_, config)) = first_three(line) else {
        return Ok(None);
    };
    let (Ok(type_), Ok(config)) = (type_.parse::<u64>(), config.parse::<u64>()) else {
        return Ok(None);
    };
    let name = String::from_str(alloc, name)?;
    Ok(Some(SimplePerfEventType::new(name, type_, config)))
}

// Parses the events in the lines of a text. Returns `None` if any line doesn't describe an event.
fn parse_events(alloc: Global, text: &str) -> Result<Option<Vec<SimplePerfEventType>>, AllocError>
    ensures events { IfOk result (λ events. ParsesEventTypes (Some text.now) events) }
    ensures memory { OnErr result (BeginsWithEvents text.now) }
{
    let mut events = Vec::new(alloc);
    'lines: for line in text.split('\n') {
        let Some(event) = parse_event(alloc, line)? else {
            return Ok(None);
        };
        events.push(event)?;
    }
    Ok(Some(events))
}

/// Returns the event types that a file's meta info lists.
///
/// The value of the key `event_type_info` has one line for each event: its name, type and config, separated
/// by commas. Further fields of a line are ignored. A number has one decimal digit or more, optionally after
/// a plus sign, and is below 2^64.
///
/// Returns `None` if the key is missing, or if any line lacks one of the three fields or has an invalid
/// number. An empty line after a final newline has none of them. Fails with `AllocError` if memory runs out
/// for a line that describes an event.
pub fn get_event_types(
    alloc: Global,
    meta_info_map: &HashMap<&str, &str>,
) -> Result<Option<Vec<SimplePerfEventType>>, AllocError>
    ensures { ReturnsEventTypes (map_text_at meta_info_map.now event_type_info) result }
{
    match meta_info_map.get(EVENT_TYPE_INFO) {
        Some(text) => parse_events(alloc, text),
        None => Ok(None),
    }
}
