//! The attribute of each record, out of the arrays of attributes and ids that a caller has.
ghost use Rattle.std.specs.Prelude.{◌≡◌, [], IfNone};

use crate::single_records::format_attr;
use perfdata_arrays::attrs::Attr;
use perfdata_base::attr::AttrFlags;
use perfdata_base::endian::Endianness;
use perfdata_base::event::RecordType;
use perfdata_base::place::{IdCache, RecordParseInfo};

/// The attributes of a recording and their ids, and what saves looking them up again.
#[derive(Drop)]
pub(crate) struct ChunkAttributes<'a> {
    pub(crate) endian: Endianness,
    pub(crate) attrs: &'a [Attr],
    ids: &'a [u64],
    // Of the first attribute. Identifiers are read with it.
    pub(crate) first: RecordParseInfo,
    cache: IdCache,
    // The attribute that was used last.
    last_index: usize,
    last: RecordParseInfo,
}

// Returns whether the records of two attributes have identifiers and times at the same offsets, because they
// have the same fields.
fn have_same_format(first: &Attr, second: &Attr) -> bool {
    let differing = first.flags ^ second.flags;
    first.sample_type == second.sample_type && differing & AttrFlags::SAMPLE_ID_ALL.0 == 0
}

// Returns where the records of an attribute have identifiers and times.
pub(crate) fn parse_info(endian: Endianness, attr: &Attr) -> RecordParseInfo {
    RecordParseInfo::new(&format_attr(attr), endian)
}

// Returns the ids of an attribute; none if they aren't in the array.
fn ids_slice<'a>(attr: &Attr, ids: &'a [u64]) -> &'a [u64] {
    let end = attr.ids_start.saturating_add(attr.ids_count);
    match (usize::try_from(attr.ids_start), usize::try_from(end)) {
        (Ok(start), Ok(end)) => ids.get(start..end).unwrap_or(&[]),
        _ => &[],
    }
}

// Returns whether the attribute with an index lists an id.
fn lists_id(attrs: &[Attr], ids: &[u64], index: usize, id: u64) -> bool {
    match attrs.get(index) {
        Some(attr) => ids_slice(attr, ids).iter().any(|other| *other == id),
        None => false,
    }
}

// Returns the index of the last attribute that lists an id; 0 if none does.
fn find_attr(attrs: &[Attr], ids: &[u64], id: u64) -> usize {
    let mut index = attrs.len();
    'attributes: while index > 0 {
        index -= 1;
        if lists_id(attrs, ids, index, id) {
            return index;
        }
    }
    0
}

impl<'a> ChunkAttributes<'a> {
    // Returns `None` without attributes.
    pub(crate) fn new(
        endian: Endianness,
        attrs: &'a [Attr],
        ids: &'a [u64],
    ) -> Option<ChunkAttributes<'a>>
        ensures { IfNone result (attrs.now ≡ []) }
    {
        let first = parse_info(endian, attrs.first()?);
        Some(ChunkAttributes {
            endian,
            attrs,
            ids,
            first,
            cache: IdCache::new(),
            last_index: 0,
            last: first,
        })
    }

    // Returns the index of the attribute that lists an identifier.
    fn index_by_id(&mut self, id: u64) -> usize {
        match self.cache.get(id) {
            Some(index) => index,
            None => {
                let index = find_attr(self.attrs, self.ids, id);
                self.cache.put(id, index);
                index
            }
        }
    }

    // Returns the index of the attribute of a record of the kernel with this body.
    pub(crate) fn find_index(&mut self, record_type: RecordType, body: &[u8]) -> usize {
        if self.attrs.len() == 1 {
            return 0;
        }
        let identifiers = self.first.id_parse_info;
        match identifiers.read_identifier(self.endian, record_type, body) {
            Some(id) => self.index_by_id(id),
            None => 0,
        }
    }

    // Takes the attribute with this index as the one that was used last.
    fn set_last(&mut self, index: usize) {
        match (self.attrs.get(index), self.attrs.get(self.last_index)) {
            (Some(attr), Some(last)) => {
                if !have_same_format(attr, last) {
                    self.last = parse_info(self.endian, attr);
                }
                self.last_index = index;
            }
            _ => {}
        }
    }

    // Returns the time of a record of the attribute with this index.
    pub(crate) fn read_time(
        &mut self,
        index: usize,
        record_type: RecordType,
        body: &[u8],
    ) -> Option<u64> {
        if index != self.last_index {
            self.set_last(index);
        }
        self.last.read_time(record_type, body)
    }
}
