//! How an address becomes one of a table of symbols.

ghost use Rattle.std.specs.Prelude.{◌≡◌};
ghost use Rattle.perfdata_spaces.specs.Mappings.{mapping_value};

use perfdata_simpleperf::simpleperf::{SimpleperfFileRecord, SimpleperfTypeSpecificInfo};
use perfdata_spaces::mapping::Mapping;

// Where the symbols of a table start.
#[derive(Clone, Copy)]
pub(crate) enum AddressBase {
    /// At offsets in the file.
    File,
    /// At offsets from the start of the mapping.
    Mapping,
    /// At addresses.
    Process,
}

impl AddressBase {
    ghost use Rattle.perfdata_names.specs.steps.Tables.{table_address};

    // Returns where the symbols of a file of the recording start.
    pub(crate) fn new(record: &SimpleperfFileRecord) -> AddressBase {
        match &record.type_specific_msg {
            Some(
                SimpleperfTypeSpecificInfo::ElfFile(_)
                | SimpleperfTypeSpecificInfo::SimpleperfDexFileInfo(_),
            ) => AddressBase::File,
            Some(SimpleperfTypeSpecificInfo::KernelModule(_)) => AddressBase::Mapping,
            None => AddressBase::Process,
        }
    }

    // Returns the address in a table for one in a mapping, modulo 2^64.
    pub(crate) fn table_address(self, address: u64, mapping: &Mapping) -> u64
        ensures { result ≡ table_address self (mapping_value mapping.now) address }
    {
        match self {
            AddressBase::File => mapping.file_offset(address),
            AddressBase::Mapping => address.wrapping_sub(mapping.start),
            AddressBase::Process => address,
        }
    }
}
