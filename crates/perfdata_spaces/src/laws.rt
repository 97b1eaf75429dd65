//! Laws on what is mapped, and on names.

ghost use Rattle.perfdata_spaces.specs.Laws.{FindsNoneBeyond, FindsOne, HasOneHistory, HasOneName};

/// After any records a process has exactly one list of mappings in the order in which they were added, so
/// exactly one mapping, or none, is found at an address. None is found from 2^64 on.
pub fn mappings()
    ensures history { HasOneHistory }
    ensures found { FindsOne }
    ensures beyond { FindsNoneBeyond }
{}

/// After any records a thread has exactly one name, or none.
pub fn names()
    ensures { HasOneName }
{}
