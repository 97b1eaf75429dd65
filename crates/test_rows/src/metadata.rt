//! The accessors of the metadata of files and pipes.
use crate::case::{CaseError, CaseResult};
use crate::outcome::Call;
use crate::records::open;
use crate::text::Output;
use linux_perf_data::{AttributeDescription, Error, Feature, PerfFile};
use std::io::Cursor;

// Appends a line for each value of an accessor, or their number with the option `count`.
macro_rules! push_values {
    ($call:expr, $out:expr, $values:expr, $value:pat => $($format:tt)*) => {
        match $values {
            Some(values) if $call.case.has("count") => $out.push_line(&values.len()),
            Some(values) => {
                for $value in values.iter() {
                    writeln!($out, $($format)*);
                }
            }
            None => write!($out, "None\n"),
        }
    };
}

// Appends the lines of an accessor.
fn push_lines(
    call: &Call<'_>,
    perf_file: &PerfFile,
    name: &str,
    out: &mut Output,
) -> Result<(), Error> {
    let alloc = call.alloc;
    match name {
        "pmu_mappings" => {
            let mappings = perf_file.pmu_mappings(alloc)?;
            push_values!(call, out, mappings.map(|it| it.0), (number, name) => "{number} {name:?}");
        }
        "build_ids" => {
            let ids = Some(perf_file.build_ids(alloc)?);
            push_values!(call, out, ids, (key, info) => "{key:?} {:?} {:?}",
                str::from_utf8(&info.path).unwrap_or("not UTF-8"), info.build_id);
        }
        "simpleperf_meta_info" => {
            let pairs = perf_file.simpleperf_meta_info(alloc)?;
            push_values!(call, out, pairs, (key, value) => "{key:?} {value:?}");
        }
        _ => {
            let tables = perf_file.simpleperf_symbol_tables(alloc)?;
            push_values!(call, out, tables, it => "{:?} {} {} {}",
                it.path, it.type_, it.min_vaddr, it.symbol.len());
        }
    }
    Ok(())
}

// Appends the sample format, flags, name and ids of each attribute.
fn push_attributes(attributes: &[AttributeDescription], out: &mut Output) {
    for attribute in attributes {
        let attr = attribute.attributes();
        let (format, flags) = (attr.sample_format.0, attr.flags.0);
        let (name, ids) = (attribute.name(), attribute.ids());
        writeln!(out, "{format:#x} {flags:#x} {name:?} {ids:?}");
    }
}

// Appends the names of the attributes, `-` for one without a name.
fn push_names(attributes: &[AttributeDescription], out: &mut Output) {
    for (index, attribute) in attributes.iter().enumerate() {
        let name = attribute.name().unwrap_or("-");
        write!(out, "{}{name}", if index == 0 { "" } else { " " });
    }
    write!(out, "\n");
}

// Appends the data of the features that the option `feature` names.
fn push_sections(call: &Call<'_>, perf_file: &PerfFile, out: &mut Output) -> CaseResult {
    for number in call.case.numbers(call.alloc, "feature")?.iter() {
        let feature = Feature(u32::try_from(*number).unwrap_or(u32::MAX));
        out.push_line(&perf_file.feature_section_data(feature));
    }
    Ok(())
}

// Appends the value of an accessor.
fn push_value(call: &Call<'_>, perf_file: &PerfFile, name: &str, out: &mut Output) -> CaseResult {
    match name {
        "hostname" => out.push_result(&perf_file.hostname()),
        "os_release" => out.push_result(&perf_file.os_release()),
        "perf_version" => out.push_result(&perf_file.perf_version()),
        "arch" => out.push_result(&perf_file.arch()),
        "cpu_desc" => out.push_result(&perf_file.cpu_desc()),
        "cpu_id" => out.push_result(&perf_file.cpu_id()),
        "cmdline" => out.push_result(&perf_file.cmdline(call.alloc)),
        "total_mem" => out.push_result(&perf_file.total_mem()),
        "clock_frequency" => out.push_result(&perf_file.clock_frequency()),
        "nr_cpus" => out.push_result(&perf_file.nr_cpus()),
        "clock_data" => out.push_result(&perf_file.clock_data()),
        "sample_time_range" => out.push_result(&perf_file.sample_time_range()),
        "compression_info" => out.push_result(&perf_file.compression_info()),
        "endian" => out.push_line(&perf_file.endian()),
        "features" => out.push_line(&perf_file.features()),
        "is_stats" => out.push_line(&perf_file.is_stats()),
        "event_attributes" => push_attributes(perf_file.event_attributes(), out),
        "names" => push_names(perf_file.event_attributes(), out),
        "feature_section_data" => push_sections(call, perf_file, out)?,
        "pmu_mappings" | "build_ids" | "simpleperf_meta_info" | "simpleperf_symbol_tables" => {
            let pushed = push_lines(call, perf_file, name, out);
            if pushed.is_err() {
                out.push_result(&pushed);
            }
        }
        _ => return Err(CaseError::Invalid("an unknown accessor")),
    }
    Ok(())
}

/// Appends the values of the accessors that the option `of` names, in lines.
pub fn push_accessors(call: &Call<'_>, perf_file: &PerfFile, out: &mut Output) -> CaseResult {
    for name in call.case.option("of").unwrap_or("").split(',') {
        push_value(call, perf_file, name, out)?;
    }
    Ok(())
}

/// Prints the values of the accessors of the metadata of a file or, with the option `format=pipe`, a pipe:
/// `of=NAME,NAME`. With the option `records=N` it reads at most this many records before.
pub fn push_metadata(call: &Call<'_>, out: &mut Output) -> CaseResult {
    let format = call.case.option("format").unwrap_or("");
    match open(call.alloc, format, Cursor::new(call.bytes)) {
        Ok((mut perf_file, mut records)) => {
            for _ in 0..call.case.number("records", 0)? {
                if !matches!(records.next_record(&mut perf_file), Ok(Some(_))) {
                    break;
                }
            }
            push_accessors(call, &perf_file, out)?;
        }
        Err(error) => out.push_result(&Err::<(), Error>(error)),
    }
    Ok(())
}
