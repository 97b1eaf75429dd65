//! Laws on profiles.

ghost use Rattle.pprof.specs.Decoding.{DecodesEncoded};
ghost use Rattle.pprof.specs.Samples.{HaveValues};

/// The bytes of a profile contain the whole profile: it can be decoded from them.
pub fn decoding()
    ensures { DecodesEncoded }
{}

/// Each sample of a profile that is built has a value for each sample type.
pub fn values()
    ensures { HaveValues }
{}
