//! Writes serde's values as JSON into a buffer that one line after another uses.

use itoa::Buffer;
use json::Writer;
use serde::{Case, NameKind, Serializer};
use std::alloc::AllocError;
use std::fmt::{Display, Write};

/// Appends values to a buffer as JSON. Unlike `serde_json::to_vec` it doesn't allocate a buffer for each
/// value. Its methods fail if memory runs out.
#[derive(Drop)]
pub(crate) struct LineSerializer {
    json: Writer,
    /// The text of a value that is printed.
    printed: String,
    /// Whether the members of the next map belong to the map that is open.
    flattens: bool,
    /// A bit for each open map, the innermost in bit 0: whether its members belong to the map around it.
    flattened: u64,
}

impl LineSerializer {
    /// Creates a serializer that appends to `json`, and has `printed` for the text of a value.
    pub(crate) fn new(json: Vec<u8>, printed: String) -> LineSerializer {
        LineSerializer {
            json: Writer::new(json),
            printed,
            flattens: false,
            flattened: 0,
        }
    }

    /// Returns the buffers.
    pub(crate) fn into_buffers(self) -> (Vec<u8>, String) {
        let LineSerializer { json, printed, .. } = self;
        (json.into_inner(), printed)
    }

    // Appends a number.
    fn number(&mut self, text: &str) -> Result<(), AllocError> {
        if !json::is_number(text) {
            return Err(AllocError);
        }
        self.json.number(text)
    }
}

impl Serializer for LineSerializer {
    type Error = AllocError;

    fn bool(&mut self, v: bool) -> Result<(), AllocError> {
        self.json.boolean(v)
    }

    fn i64(&mut self, v: i64) -> Result<(), AllocError> {
        self.json.i64(v)
    }

    fn u64(&mut self, v: u64) -> Result<(), AllocError> {
        self.json.u64(v)
    }

    fn i128(&mut self, v: i128) -> Result<(), AllocError> {
        self.number(Buffer::new().format(v))
    }

    fn u128(&mut self, v: u128) -> Result<(), AllocError> {
        self.number(Buffer::new().format(v))
    }

    fn f32(&mut self, v: f32) -> Result<(), AllocError> {
        if v.is_finite() {
            self.json.float_with_plus(v)
        } else {
            self.json.null()
        }
    }

    fn f64(&mut self, v: f64) -> Result<(), AllocError> {
        if v.is_finite() {
            self.json.float_with_plus(v)
        } else {
            self.json.null()
        }
    }

    fn char(&mut self, v: char) -> Result<(), AllocError> {
        self.collect_str(&v)
    }

    fn str(&mut self, v: &str) -> Result<(), AllocError> {
        self.json.string(v)
    }

    fn bytes(&mut self, v: &[u8]) -> Result<(), AllocError> {
        self.json.begin_array()?;
        for byte in v {
            self.json.u64(*byte as u64)?;
        }
        self.json.end_array()
    }

    fn unit(&mut self) -> Result<(), AllocError> {
        if self.flattens {
            self.flattens = false;
            return Ok(());
        }
        self.json.null()
    }

    fn str_cased(&mut self, name: &str, case: Case) -> Result<(), AllocError> {
        if case == Case::AsIs {
            return self.json.string(name);
        }
        self.printed.clear();
        case.append(NameKind::Variant, name, &mut self.printed)?;
        self.json.string(self.printed.as_str())
    }

    fn begin_seq(&mut self, _len: Option<usize>) -> Result<(), AllocError> {
        self.json.begin_array()
    }

    fn end_seq(&mut self) -> Result<(), AllocError> {
        self.json.end_array()
    }

    fn begin_map(&mut self, _len: Option<usize>) -> Result<(), AllocError> {
        let is_flattened = self.flattens;
        self.flattens = false;
        self.flattened = (self.flattened << 1) | is_flattened as u64;
        if is_flattened {
            return Ok(());
        }
        self.json.begin_object()
    }

    fn end_map(&mut self) -> Result<(), AllocError> {
        let is_flattened = self.flattened & 1 == 1;
        self.flattened >>= 1;
        if is_flattened {
            return Ok(());
        }
        self.json.end_object()
    }

    fn key_cased(&mut self, name: &str, case: Case) -> Result<(), AllocError> {
        if case == Case::AsIs {
            return self.json.key(name);
        }
        self.printed.clear();
        case.append(NameKind::Field, name, &mut self.printed)?;
        self.json.key(self.printed.as_str())
    }

    fn variant_key(&mut self, name: &str, case: Case) -> Result<(), AllocError> {
        self.key_cased(name, case)
    }

    fn begin_key(&mut self) -> Result<(), AllocError> {
        Err(self.custom("the keys of a line are names of fields"))
    }

    fn end_key(&mut self) -> Result<(), AllocError> {
        Ok(())
    }

    fn flatten_next(&mut self) -> Result<(), AllocError> {
        self.flattens = true;
        Ok(())
    }

    fn custom(&self, _message: &str) -> AllocError {
        AllocError
    }

    fn collect_str<T: Display>(&mut self, value: &T) -> Result<(), AllocError> {
        self.printed.clear();
        write!(self.printed, "{value}")?;
        self.json.string(self.printed.as_str())
    }
}
