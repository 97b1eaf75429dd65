//! The table of strings of a profile.
ghost use Rattle.std.specs.Prelude.{◌≡◌, [], ◌∷◌, ℕ, List, map, IfOk, OnErr};
ghost use Rattle.std.specs.Str.Lossy.{utf8_lossy};
ghost use Rattle.std.specs.String.{string_bytes};
ghost use Rattle.std.specs.Str.{IsUtf8};
ghost use Rattle.pprof.specs.Rows.{Grows, Interns, IsAbsent};
ghost use Rattle.pprof.specs.Texts.{AreStrings};

use indexmap::IndexSet;
use std::alloc::{AllocError, Global};

/// Texts, each once. The first is empty.
#[derive(Drop)]
pub struct StringTable {
    texts: IndexSet<String>,
    alloc: Global,
    ghost strings: { AreStrings (map (λ text. string_bytes text) texts.keys) },
}

impl StringTable {
    ghost use Rattle.pprof.specs.Strings.{texts_of};

    /// Creates a table that has only the empty text.
    ///
    /// Fails if memory runs out.
    pub fn new(alloc: Global) -> Result<StringTable, AllocError>
        ensures { IfOk result (λ table. texts_of table ≡ [] ∷ []) }
    {
        let mut texts = IndexSet::new(alloc);
        texts.insert(String::new(alloc))?;
        Ok(StringTable { texts, alloc })
    }

    /// Returns the index of a text, which is added if it is new. Bytes that aren't UTF-8 become U+FFFD.
    ///
    /// Fails if memory runs out. Then no text is added.
    pub fn intern(&mut self, text: &[u8]) -> Result<u64, AllocError>
        ensures ok { IfOk result (λ index.
            Interns (texts_of self.old) (utf8_lossy text.now) index (texts_of self.new)) }
        ensures new { OnErr result (IsUtf8 text.now → IsAbsent (texts_of self.old) text.now) }
        ensures err { OnErr result (texts_of self.new ≡ texts_of self.old) }
    {
        if let Ok(text) = str::from_utf8(text) {
            return self.intern_text(text);
        }
        let text = String::from_utf8_lossy(self.alloc, text)?;
        let (index, _is_new) = self.texts.insert_full(text)?;
        Ok(index as u64)
    }

    /// Returns the index of a text, which is added if it is new.
    ///
    /// Fails if memory runs out. Then no text is added.
    pub fn intern_text(&mut self, text: &str) -> Result<u64, AllocError>
        ensures ok { IfOk result (λ index. Interns (texts_of self.old) text.now index (texts_of self.new)) }
        ensures texts { Grows (texts_of self.old) (texts_of self.new) }
        ensures new { OnErr result (IsAbsent (texts_of self.old) text.now) }
        ensures err { OnErr result (texts_of self.new ≡ texts_of self.old) }
    {
        match self.texts.get_index_of(text) {
            Some(index) => Ok(index as u64),
            None => self.add(text),
        }
    }

    // Returns the index of a text, which is added if it is new.
    fn add(&mut self, text: &str) -> Result<u64, AllocError>
        ensures ok { IfOk result (λ index. Interns (texts_of self.old) text.now index (texts_of self.new)) }
        ensures err { OnErr result (texts_of self.new ≡ texts_of self.old) }
    {
        let text = String::from_str(self.alloc, text)?;
        let (index, _is_new) = self.texts.insert_full(text)?;
        Ok(index as u64)
    }

    /// Returns the texts, in the order in which they were added.
    ///
    /// Fails if memory runs out.
    pub fn finish(self) -> Result<Vec<String>, AllocError>
        ensures texts { IfOk result (λ texts. map string_bytes texts.items ≡ texts_of self) }
        ensures once { IfOk result (λ texts. AreStrings (map string_bytes texts.items)) }
    {
        let StringTable { texts, alloc } = self;
        texts.into_iter().collect(alloc)
    }
}
