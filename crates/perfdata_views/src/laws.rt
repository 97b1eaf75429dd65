//! Laws on views: which samples they count.

ghost use Rattle.perfdata_profile.specs.declared.options.ProfileOptions.{ProfileOptions};
ghost use Rattle.perfdata_views.specs.Boxes.{BoxesNest};
ghost use Rattle.perfdata_views.specs.CountedSamples.{ViewsCountOnce};
ghost use Rattle.perfdata_views.specs.EntryTrees.{EntriesHaveTree};

use perfdata_profile::resolver::Resolver;

/// For any records and any resolver, each selected sample is counted exactly once in each view of the
/// profile, under its own thread and frames: in its line, in the own weight of the function of its leaf, in
/// the total of each function of its stack, in the nodes and boxes whose names are those with which its
/// thread and frames start, and in the sample for pprof that has its thread and its locations. The boxes that
/// are drawn and those that are left out are all of these.
pub fn samples<R: Resolver>()
    ensures { (options : ProfileOptions) → ViewsCountOnce R.meaning options }
{}

/// If stacks are those of the entries of a profile, by ranks of their names, the tree of the stacks is that
/// of the entries: each list of names with which an entry starts is that of a node, and the sum of a node is
/// that of the entries that start with its names.
pub fn tree()
    ensures { EntriesHaveTree }
{}

/// The nodes of a tree as boxes, each as wide as the sum of its stacks: the boxes directly in a box are
/// within it, beside each other, and their widths add up to at most its own.
pub fn boxes()
    ensures { BoxesNest }
{}
