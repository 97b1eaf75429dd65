//! Callers whose return address is the first byte of a function: where nothing is before it, or where the
//! function is the code to which a signal handler returns.

use crate::resolver::FrameResolver;
use code_files::MappedFiles;
use perfdata_events::call_chain::CallContext;
use perfdata_events::sample::SampleRecord;
use perfdata_names::{SymbolId, Symbols};
use perfdata_profile::resolver::ResolvedFrame;
use perfdata_spaces::address_spaces::AddressSpaces;
use perfdata_spaces::mapping::Mapping;
use perfdata_stacks::frames::SampleFrame;
use std::alloc::AllocError;

// The size of a page of memory in bytes.
const PAGE_SIZE: u64 = 4096;

// Returns whether a mapping contains an address.
fn contains(mapping: &Mapping, address: u64) -> bool {
    address
        .checked_sub(mapping.start)
        .is_some_and(|offset| offset < mapping.length)
}

// Returns the symbol that begins at the address of a frame, if there is one.
fn find_start(
    symbols: &mut Symbols<'_>,
    files: &mut MappedFiles<'_>,
    frame: &ResolvedFrame<'_>,
) -> Result<Option<SymbolId>, AllocError> {
    let found = symbols.find(files, frame)?;
    Ok(found.filter(|id| symbols.offset(files, *id, frame) == Some(0)))
}

// Returns the symbol of callers that return to the address after that at which a frame is looked up, if it
// isn't the symbol `found` at the latter: it begins there, and nothing is before it, or its call frame
// information is that of a signal frame.
pub(crate) fn find_begun(
    symbols: &mut Symbols<'_>,
    files: &mut MappedFiles<'_>,
    frame: &ResolvedFrame<'_>,
    found: Option<SymbolId>,
) -> Result<Option<SymbolId>, AllocError> {
    let (Some(index), Some(mapping)) = (frame.index, frame.mapping) else {
        return Ok(None);
    };
    let address = frame.frame.lookup_address().saturating_add(1);
    let mut next = *frame;
    next.frame.is_caller = false;
    next.frame.frame.address = address;
    let is_within = contains(mapping, address);
    if !is_within || found.is_some_and(|id| symbols.contains(files, id, &next)) {
        return Ok(None);
    }
    let Some(begun) = find_start(symbols, files, &next)? else {
        return Ok(None);
    };
    let is_user = frame.frame.frame.context == CallContext::User;
    let is_named = found.is_none() || is_user && files.is_signal_frame(index, mapping, address)?;
    Ok(Some(begun).filter(|_| is_named))
}

impl FrameResolver<'_> {
    // Returns whether a caller's return address is the first byte of a function, and that of its mapping.
    fn begins_mapping(
        &mut self,
        spaces: &AddressSpaces,
        sample: &SampleRecord<'_>,
        frame: SampleFrame,
    ) -> Result<bool, AllocError> {
        let pid = sample.task.map_or(-1, |task| task.pid);
        let (address, context) = (frame.frame.address, frame.frame.context);
        let index = spaces.find_index(pid, address, context);
        if index.is_none() || index == spaces.find_index(pid, frame.lookup_address(), context) {
            return Ok(false);
        }
        let mut frame = frame;
        frame.is_caller = false;
        let at = ResolvedFrame {
            pid,
            time: sample.timestamp,
            frame,
            index,
            mapping: index.and_then(|index| spaces.mapping(index)),
        };
        match self.symbols_and_files() {
            Some((symbols, files)) => Ok(find_start(symbols, files, &at)?.is_some()),
            None => Ok(false),
        }
    }

    // Makes callers whose return address is the first byte of a function and of its mapping frames that are
    // looked up at it. A mapping starts at a page.
    pub(crate) fn settle_callers(
        &mut self,
        spaces: &AddressSpaces,
        sample: &SampleRecord<'_>,
        frames: &mut Vec<SampleFrame>,
    ) -> Result<(), AllocError> {
        for frame in frames.iter_mut() {
            let is_at_page = frame.is_caller && frame.frame.address % PAGE_SIZE == 0;
            if is_at_page && self.begins_mapping(spaces, sample, *frame)? {
                frame.is_caller = false;
            }
        }
        Ok(())
    }
}
