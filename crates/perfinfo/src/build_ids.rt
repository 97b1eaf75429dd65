//! Prints the build ids of the mapped objects, and simpleperf's symbol files.
use crate::escaped_text::{Escaped, Hex};
use crate::report::{Report, Spaced};
use linux_perf_data::simpleperf_dso_type::{
    DSO_DEX_FILE, DSO_ELF_FILE, DSO_KERNEL, DSO_KERNEL_MODULE, DSO_SYMBOL_MAP_FILE,
};
use linux_perf_data::{DsoInfo, DsoKey, Error, PerfFile, SimpleperfFileRecord};
use std::alloc::Global;
use std::cmp::Ordering;
use std::collections::HashMap;

// A mapped object and its key.
type DsoEntry<'a> = (&'a DsoKey, &'a DsoInfo);

/// Writes the build ids, ordered by path, and the symbol files.
pub(crate) fn show(alloc: Global, perf_file: &PerfFile, report: &mut Report) {
    if let Some(ids) = report.value_or_note("build ids", perf_file.build_ids(alloc).map(Some)) {
        show_build_ids(alloc, &ids, report);
    }
    let section = perf_file.simpleperf_symbol_tables(alloc);
    if let Some(files) = report.value_or_note("symbol files", section) {
        show_symbol_files(&files, report);
    }
}

// Writes the symbol files.
fn show_symbol_files(files: &[SimpleperfFileRecord], report: &mut Report) {
    report.number("symbol files", files.len() as u64);
    for file in files {
        let count = Spaced(symbols_name(file.type_), file.symbol.len());
        report.item(Escaped(file.path.as_bytes()), count);
    }
}

// Writes the build ids, ordered by path.
fn show_build_ids(alloc: Global, ids: &HashMap<DsoKey, DsoInfo>, report: &mut Report) {
    report.number("build ids", ids.len() as u64);
    if let Some(objects) = report.value_or_note("build ids", sorted_by_path(alloc, ids)) {
        for (key, object) in objects.iter() {
            let path = Escaped(object.path.as_slice());
            report.item(
                Hex(object.build_id.as_slice()),
                Spaced(dso_kind_name(key), path),
            );
        }
    }
}

// Compares the paths of two objects.
fn by_path(first: &DsoEntry<'_>, second: &DsoEntry<'_>) -> Ordering {
    first.1.path.cmp(&second.1.path)
}

// Returns the objects, ordered by path.
fn sorted_by_path(
    alloc: Global,
    ids: &HashMap<DsoKey, DsoInfo>,
) -> Result<Option<Vec<DsoEntry<'_>>>, Error> {
    let mut objects: Vec<DsoEntry<'_>> = ids.iter().collect(alloc)?;
    objects.sort_by(by_path)?;
    Ok(Some(objects))
}

// Returns the name of a mapped object's kind.
fn dso_kind_name(key: &DsoKey) -> &'static str {
    match key {
        DsoKey::Kernel => "kernel",
        DsoKey::GuestKernel => "guest-kernel",
        DsoKey::Vdso32 | DsoKey::VdsoX32 | DsoKey::Vdso64 => "vdso",
        DsoKey::Vsyscall => "vsyscall",
        DsoKey::KernelModule { .. } => "module",
        DsoKey::User { .. } => "user",
    }
}

// Returns the name of the symbols of a file of this kind.
fn symbols_name(kind: u32) -> &'static str {
    match kind {
        DSO_KERNEL => "kernel symbols",
        DSO_KERNEL_MODULE => "module symbols",
        DSO_ELF_FILE => "elf symbols",
        DSO_DEX_FILE => "dex symbols",
        DSO_SYMBOL_MAP_FILE => "map symbols",
        _ => "unknown symbols",
    }
}
