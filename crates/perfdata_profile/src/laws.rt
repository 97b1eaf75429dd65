//! Laws on profiles.

ghost use Rattle.perfdata_profile.specs.Erasing.{SumsStay};
ghost use Rattle.perfdata_profile.specs.Profiles.{TalliesValues};
ghost use Rattle.perfdata_profile.specs.declared.options.ProfileOptions.{ProfileOptions};

use crate::resolver::Resolver;

/// The sums of the samples with the same ids are those of the samples with the same values.
pub fn values()
    ensures { TalliesValues }
{}

/// For any records and any resolver, the sums are the same without inlined functions: the entries of a
/// profile that are one if each location keeps the function of its frame alone, its last one, add up to the
/// samples that a resolver without inlined functions puts under this one. Each sample is in one of them.
pub fn own_functions<R: Resolver>()
    ensures { (options : ProfileOptions) → SumsStay R.meaning options }
{}
