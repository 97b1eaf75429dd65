//! Fills a buffer until the source ends or pauses.
ghost use Rattle.std.specs.Prelude.{◌≡◌};
ghost use Rattle.perfdata_jit.specs.ReadUntilEof.{CountsFill, FillsUntilEof};

use perfdata_base::source::Source;
use std::io::Result;

/// A source that fills a buffer until it ends or pauses.
pub trait ReadExactOrUntilEof: Source {
    /// Reads until the buffer is full or a read is empty, and returns the number of bytes read.
    ///
    /// Returns the source's own error at once, also one of kind `Interrupted`. The prefix of the buffer then
    /// contains the bytes that were read before. Their number is not reported.
    fn read_exact_or_until_eof(&mut self, buf: &mut [u8]) -> Result<usize>
        ensures fills { FillsUntilEof (Self.state self.old) buf.new result (Self.state self.new) }
        ensures counts { CountsFill (Self.state self.old) buf.new result (Self.state self.new) }
        ensures same_loan { Self.loan self.new ≡ Self.loan self.old };
}

impl<R: Source> ReadExactOrUntilEof for R {
    fn read_exact_or_until_eof(&mut self, buf: &mut [u8]) -> Result<usize> {
        fill_until_eof(self, buf)
    }
}

fn fill_until_eof<R: Source>(source: &mut R, buf: &mut [u8]) -> Result<usize>
    ensures fills { FillsUntilEof (R.state source.old) buf.new result (R.state source.new) }
    ensures counts { CountsFill (R.state source.old) buf.new result (R.state source.new) }
    ensures same_loan { R.loan source.new ≡ R.loan source.old }
{
    let mut filled = 0;
    'reads: while filled < buf.len() {
        let read_count = source.read_front(&mut buf[filled..])?;
        if read_count == 0 {
            return Ok(filled);
        }
        filled += read_count;
    }
    Ok(filled)
}
