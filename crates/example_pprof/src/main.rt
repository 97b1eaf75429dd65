//! Writes the folded lines in standard input as a profile for pprof. A line is the names of a stack, root
//! first, with semicolons between them, a space and a number of samples.
#![tactic(auto)]

use indexmap::IndexSet;
use pprof::encode::encode;
use pprof::profile::{Function, Line, Location, Profile, Sample, ValueType};
use std::alloc::{AllocError, Global};
use std::io::{BufWriter, Read, Write};

// The texts of a profile, each once. The first is empty. The index of another is the id of the function and
// of the location with this name.
#[derive(Drop)]
struct Texts {
    alloc: Global,
    texts: IndexSet<Vec<u8>>,
}

impl Texts {
    // Returns the index of a text.
    fn index(&mut self, text: &[u8]) -> Result<u64, AllocError> {
        if let Some(index) = self.texts.get_index_of(text) {
            return Ok(index as u64);
        }
        let (index, _is_new) = self.texts.insert_full(text.to_vec(self.alloc)?)?;
        Ok(index as u64)
    }
}

// Returns the sample of a line, or `None` if the line isn't one of a stack.
fn sample_of(texts: &mut Texts, line: &[u8]) -> anyhow::Result<Option<Sample>> {
    let Some(space) = line.iter().rposition(|byte| *byte == b' ') else {
        return Ok(None);
    };
    let names = line.get(..space).unwrap_or(&[]);
    let number = str::from_utf8(line.get(space.saturating_add(1)..).unwrap_or(&[]))?;
    let mut location_ids = Vec::new(texts.alloc);
    for name in names.split(|byte| *byte == b';') {
        if !name.is_empty() {
            location_ids.push(texts.index(name)?)?;
        }
    }
    location_ids.reverse();
    let mut values = Vec::new(texts.alloc);
    values.push(number.parse::<u64>()?)?;
    Ok(Some(Sample {
        location_ids,
        values,
        labels: Vec::new(texts.alloc),
    }))
}

// Adds the locations, the functions and the texts.
fn add_texts(texts: &Texts, profile: &mut Profile) -> Result<(), AllocError> {
    for (index, text) in texts.texts.iter().enumerate() {
        let id = index as u64;
        if id != 0 {
            profile.functions.push(Function {
                id,
                name: id,
                system_name: id,
                filename: 0,
            })?;
            let mut lines = Vec::new(texts.alloc);
            lines.push(Line {
                function_id: id,
                line: 0,
            })?;
            profile.locations.push(Location {
                id,
                mapping_id: 0,
                address: 0,
                lines,
            })?;
        }
        let text = String::from_utf8_lossy(texts.alloc, text.as_slice())?;
        profile.strings.push(text)?;
    }
    Ok(())
}

// Returns the profile of folded lines.
fn profile_of(alloc: Global, lines: &[u8]) -> anyhow::Result<Profile> {
    let mut texts = Texts {
        alloc,
        texts: IndexSet::new(alloc),
    };
    texts.index(b"")?;
    let sample_type = ValueType {
        kind: texts.index(b"samples")?,
        unit: texts.index(b"count")?,
    };
    let mut profile = Profile {
        sample_types: Vec::new(alloc),
        samples: Vec::new(alloc),
        mappings: Vec::new(alloc),
        locations: Vec::new(alloc),
        functions: Vec::new(alloc),
        strings: Vec::new(alloc),
        duration: 0,
        period_type: None,
        period: 0,
        comment: 0,
        default_sample_type: 0,
    };
    profile.sample_types.push(sample_type)?;
    for line in lines.split(|byte| *byte == b'\n') {
        if let Some(sample) = sample_of(&mut texts, line)? {
            profile.samples.push(sample)?;
        }
    }
    add_texts(&texts, &mut profile)?;
    Ok(profile)
}

fn main(rt: HostRuntime) -> anyhow::Result<()> {
    let mut lines = Vec::new(rt.alloc());
    rt.stdin().read_to_end(&mut lines)?;
    let profile = profile_of(rt.alloc(), &lines)?;
    let mut output = BufWriter::new(rt.alloc(), rt.stdout())?;
    output.write_all(&encode(rt.alloc(), &profile)?)?;
    output.flush()?;
    Ok(())
}
