//! What is written on standard error beside a profile: what isn't in it, and which files weren't used.

use crate::counter::CountedSamples;
use linux_perf_data::PerfFile;
use perfdata_messages::print_resolver_messages;
use perfdata_overview::events::EventSelection;
use perfdata_resolver::FrameResolver;

// Writes which events aren't counted, if no option names events.
fn print_other_events(
    rt: &HostRuntime,
    name: &str,
    perf_file: &PerfFile,
    counted: &CountedSamples<'_>,
) {
    if counted.events.selection() != EventSelection::First {
        return;
    }
    if let Ok(others) = counted.events.other_events(rt.alloc(), perf_file)
        && let Ok(others) = String::from_utf8(others)
        && !others.is_empty()
    {
        let _ = eprintln!(rt; "{name}: other events: {others}: --event NAME");
    }
}

/// Writes on standard error which samples aren't counted, which names are missing, and why.
pub fn print_messages(
    rt: &HostRuntime,
    name: &str,
    perf_file: &PerfFile,
    counted: &CountedSamples<'_>,
    resolver: &FrameResolver<'_>,
) {
    print_other_events(rt, name, perf_file, counted);
    let undecoded = counted.notes.undecoded;
    if undecoded != 0 {
        let _ = eprintln!(rt;
            "{name}: {undecoded} samples can't be decoded: their fields aren't known"
        );
    }
    print_resolver_messages(rt, name, resolver);
}
