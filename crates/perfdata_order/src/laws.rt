//! Laws of values and of records in order.
ghost use Rattle.perfdata_order.specs.InMemoryLaws.{CallsSorterInTurn};
ghost use Rattle.perfdata_order.specs.InMemoryLaws.{HoldsTwoRounds as HoldsTwoRoundsInMemory};
ghost use Rattle.perfdata_order.specs.InMemoryLaws.{ReadsRecordsOfInput, ReturnsEachRecordOnce};
ghost use Rattle.perfdata_order.specs.InMemoryLaws.{TimesAscendUnderPerfRule};
ghost use Rattle.perfdata_order.specs.StreamingLaws.{ReadsRecordsOfSource, CountsEarly};
ghost use Rattle.perfdata_order.specs.StreamingLaws.{NoneEarlyWithoutBudget, StaysWithinBudget};
ghost use Rattle.perfdata_order.specs.StreamingLaws.{HoldsTwoRounds, HasFewBlocks};
ghost use Rattle.perfdata_order.specs.StreamingLaws.{ReturnsReleasedBeforeReading};
ghost use Rattle.perfdata_order.specs.StreamingLaws.{ReturnsEachRecordOnce as ReturnsEachRecordOnceOf};
ghost use Rattle.perfdata_order.specs.StreamingLaws.{CallsSorterInTurn as CallsSorterInTurnOf};
ghost use Rattle.perfdata_order.specs.StreamingLaws.{TimesAscendUnderPerfRule as TimesAscendUnderPerfRuleOf};
ghost use Rattle.perfdata_order.specs.SorterLaws.{AscendsUnderRule, KeepsInsertionOrder, ReturnsEachOnce};
ghost use Rattle.perfdata_order.specs.SorterLaws.{RunsAscend, HasFewSlots};

use linux_perf_data::laws::offsets_increase;
use linux_perf_data::source::Source;

/// A [`Sorter`](crate::sorter::Sorter) returns each inserted value once. Equal keys keep the order of
/// insertion, and consecutive calls of `get_next` ascend.
///
/// All returned values ascend if no key of round n + 2 or later is smaller than a key of round n, and no half
/// was released. The slots for values are at most as many as the most values held at once, a third more, and
/// one.
pub fn sorter<K: Ord, V>()
    ensures each_once { ReturnsEachOnce V K.cmp }
    ensures insertion_order { KeepsInsertionOrder V K.cmp }
    ensures runs_ascend { RunsAscend V K.cmp }
    ensures ascends_under_rule { AscendsUnderRule V K.cmp }
    ensures few_slots { HasFewSlots V K.cmp }
{}

/// Over an input in memory, each record that the iterator over the input returns is returned once, or is
/// still held. The timed records are those of a sorter, so its laws apply to them. The times that are
/// returned ascend if the records are those of a layout and keep perf's rule. Held records that aren't
/// available are of the current round or of the one before it.
pub fn in_memory()
    ensures each_once { ReturnsEachRecordOnce }
    ensures of_input { ReadsRecordsOfInput }
    ensures sorter_calls { CallsSorterInTurn }
    ensures two_rounds { HoldsTwoRoundsInMemory }
    ensures times_ascend { TimesAscendUnderPerfRule }
{
    offsets_increase();
}

/// Over a source, each record that the iterator over the source returns is returned once, or is still held.
/// After the end of a round was read, this round ends once, and what is then available is returned before
/// more is read. The timed records are those of a sorter, so its laws apply to them. The times that are
/// returned ascend if the records are those of a layout and keep perf's rule, and none was returned early.
/// With a budget, the records in the sorter are within it, or there is only one. Without a budget, those that
/// aren't available are of the current round or of the one before it. The blocks for bodies are at most as
/// many as the most records in the sorter at once, a third more, and two.
pub fn streaming<R: Source>()
    ensures each_once { ReturnsEachRecordOnceOf R.state }
    ensures of_source { ReadsRecordsOfSource R.state }
    ensures released_before_reading { ReturnsReleasedBeforeReading R.state }
    ensures sorter_calls { CallsSorterInTurnOf R.state }
    ensures counts_early { CountsEarly R.state }
    ensures none_early_without_budget { NoneEarlyWithoutBudget R.state }
    ensures within_budget { StaysWithinBudget R.state }
    ensures two_rounds { HoldsTwoRounds R.state }
    ensures times_ascend { TimesAscendUnderPerfRuleOf R.state }
    ensures few_blocks { HasFewBlocks R.state }
{
    offsets_increase();
}
