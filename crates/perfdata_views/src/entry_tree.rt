//! The tree of the entries of a profile.

ghost use Rattle.std.specs.Prelude.{◌≡◌, ◌<◌, ◌∷◌, [], ◌++◌, ℕ, Contains, List, length, IfOk, OnOk};
ghost use Rattle.std.specs.Prelude.{slice_index_or, slice_set};
ghost use Rattle.perfdata_profile.specs.Names.{names_of};
ghost use Rattle.perfdata_profile.specs.Profiles.{lists_of};
ghost use Rattle.perfdata_profile.specs.Samples.{AreRelated};
ghost use Rattle.perfdata_profile.specs.Values.{sample_value, thread_key};
ghost use Rattle.perfdata_views.specs.Boxes.{AreNested};
ghost use Rattle.perfdata_views.specs.Entries.{entries_in};
ghost use Rattle.perfdata_views.specs.EntryTrees.{IsEntryTree, IsRanking, entry_names};
ghost use Rattle.perfdata_views.specs.Lines.{thread_text};
ghost use Rattle.perfdata_views.specs.steps.Numbering.{HasNumbers, IsNumbered, IsReranked, ranked_numbers};

use crate::entries::{find_entry, find_functions, find_name};
use crate::lines::push_thread;
use crate::tree::{RankedStack, StackTree, tree};
use perfdata_profile::interned::Interned;
use perfdata_profile::names::Names;
use perfdata_profile::profile::Profile;
use perfdata_profile::sums::{SampleKey, Thread};
use std::alloc::{AllocError, Global};

/// The tree of the entries of a profile. The outermost node of each stack is its thread.
#[derive(Drop)]
pub struct EntryTree {
    /// The names of the profile by their ids, then those of threads, each once.
    pub texts: Names,
    /// The numbers of the texts, by rank: in the order of the texts.
    pub order: Vec<usize>,
    /// The tree of the stacks by ranks.
    pub tree: StackTree,
}

impl EntryTree {
    /// Returns a text by its number, or nothing if there is none.
    pub fn text(&self, number: usize) -> &[u8] {
        text(&self.texts, number)
    }
}

// Appends the number of a text, which is added if it is new.
fn push_text(numbers: &mut Vec<usize>, texts: &mut Names, text: &[u8]) -> Result<(), AllocError>
    ensures { OnOk result ((start names : List (List ℕ)) →
        HasNumbers start (names_of texts.old) names numbers.old.items →
        HasNumbers start (names_of texts.new) (names ++ text.now ∷ []) numbers.new.items) }
{
    let id = texts.intern(text)?;
    numbers.push(id.number())?;
    Ok(())
}

// Appends the number of the text of a thread.
fn push_thread_text(
    alloc: Global,
    numbers: &mut Vec<usize>,
    texts: &mut Names,
    tables: &Interned,
    thread: Thread,
) -> Result<(), AllocError>
    ensures { OnOk result ((start names : List (List ℕ)) →
        HasNumbers start (names_of texts.old) names numbers.old.items →
        HasNumbers start (names_of texts.new)
        (names ++ thread_text (thread_key (lists_of tables.now) thread) ∷ []) numbers.new.items) }
{
    let mut text = Vec::new(alloc);
    push_thread(&mut text, tables, thread)?;
    push_text(numbers, texts, text.as_slice())
}

// Returns the numbers of the names of an entry, the root's first.
fn numbers(
    alloc: Global,
    texts: &mut Names,
    tables: &Interned,
    key: &SampleKey,
) -> Result<Vec<usize>, AllocError>
    ensures { IfOk result (λ numbers. HasNumbers (names_of texts.old) (names_of texts.new)
        (entry_names (sample_value (lists_of tables.now) key.now)) numbers.items) }
{
    let mut numbers = Vec::new(alloc);
    push_thread_text(alloc, &mut numbers, texts, tables, key.thread)?;
    let names = find_functions(alloc, tables, key.stack)?;
    let functions = names.as_slice();
    'frames: for index in (0..functions.len()).rev() {
        push_text(&mut numbers, texts, find_name(tables, functions[index]))?;
    }
    Ok(numbers)
}

// Returns the stacks of the entries of a profile, by the numbers of their names.
fn numbered_stacks(
    alloc: Global,
    texts: &mut Names,
    profile: &Profile,
) -> Result<Vec<RankedStack>, AllocError>
    ensures { IfOk result (λ stacks.
        AreRelated (IsNumbered (names_of texts.new)) (entries_in profile.now) stacks.items) }
{
    let mut stacks = Vec::new(alloc);
    'entries: for index in 0..profile.sums.len() {
        let (key, sums) = find_entry(&profile.sums, index);
        let ranks = numbers(alloc, texts, &profile.tables, &key)?;
        stacks.push(RankedStack {
            ranks,
            weight: sums.weight,
        })?;
    }
    Ok(stacks)
}

// Returns a text by its number, or nothing if there is none.
fn text(texts: &Names, number: usize) -> &[u8] {
    match texts.id(number) {
        Some(id) => texts.get(id).unwrap_or(&[]),
        None => &[],
    }
}

// Returns the numbers of the texts in the order of the texts.
fn text_order(alloc: Global, texts: &Names) -> Result<Vec<usize>, AllocError>
    ensures { IfOk result (λ order.
        (number : ℕ) → number < length (names_of texts.now) → Contains order.items number) }
{
    let mut order = Vec::new(alloc);
    'numbers: for number in 0..texts.len() {
        order.push(number)?;
    }
    order.sort_by(|a: &usize, b: &usize| text(texts, *a).cmp(text(texts, *b)))?;
    Ok(order)
}

// Sets the rank of a text.
fn set_rank(ranks: &mut Vec<usize>, number: usize, rank: usize)
    ensures { ranks.new.items ≡ slice_set ranks.old.items number rank }
{
    if number >= ranks.len() {
        return;
    }
    ranks[number] = rank;
}

// Returns the rank of each text.
fn ranking(alloc: Global, order: &[usize], count: usize) -> Result<Vec<usize>, AllocError>
    requires { (number : ℕ) → number < count → Contains order.now number }
    ensures { IfOk result (λ ranks. IsRanking count order.now ranks.items) }
{
    let mut ranks = vec![in alloc; 0; count]?;
    'order: for (rank, number) in order.iter().enumerate() {
        set_rank(&mut ranks, *number, rank);
    }
    Ok(ranks)
}

// Returns the rank of a text.
fn rank(ranks: &[usize], number: usize) -> usize
    ensures { result ≡ slice_index_or ranks.now number 0 }
{
    if number < ranks.len() {
        ranks[number]
    } else {
        0
    }
}

// Returns the ranks of the texts with some numbers.
fn number_ranks(alloc: Global, ranks: &[usize], numbers: &[usize]) -> Result<Vec<usize>, AllocError>
    ensures { IfOk result (λ ranked. ranked.items ≡ ranked_numbers ranks.now numbers.now) }
{
    let mut ranked = Vec::new(alloc);
    'numbers: for number in numbers {
        ranked.push(rank(ranks, *number))?;
    }
    Ok(ranked)
}

// Returns stacks by the ranks of their names.
fn ranked_stacks(
    alloc: Global,
    ranks: &[usize],
    stacks: &[RankedStack],
) -> Result<Vec<RankedStack>, AllocError>
    ensures { IfOk result (λ ranked. AreRelated (IsReranked ranks.now) stacks.now ranked.items) }
{
    let mut ranked = Vec::new(alloc);
    'stacks: for stack in stacks {
        ranked.push(RankedStack {
            ranks: number_ranks(alloc, ranks, stack.ranks.as_slice())?,
            weight: stack.weight,
        })?;
    }
    Ok(ranked)
}

// Returns a table of the same names, which have the same ids.
fn copied_names(alloc: Global, names: &Names) -> Result<Names, AllocError> {
    let mut copied = Names::new(alloc);
    for number in 0..names.len() {
        copied.intern(text(names, number))?;
    }
    Ok(copied)
}

/// Returns the tree of the entries of a profile.
///
/// Fails if memory runs out.
pub fn entry_tree(alloc: Global, profile: &Profile) -> Result<EntryTree, AllocError>
    ensures entries { IfOk result (λ tree. IsEntryTree (names_of tree.texts) tree.order.items
        tree.tree.stacks.items tree.tree.positions.items tree.tree.nodes.items (entries_in profile.now)) }
    ensures nested { IfOk result (λ tree. AreNested tree.tree.positions.items tree.tree.nodes.items) }
{
    let _total = profile.sums.total().weight; // for the prover
    let mut texts = copied_names(alloc, &profile.tables.names)?;
    let numbered = numbered_stacks(alloc, &mut texts, profile)?;
    let order = text_order(alloc, &texts)?;
    let ranks = ranking(alloc, order.as_slice(), texts.len())?;
    let ranked = ranked_stacks(alloc, ranks.as_slice(), numbered.as_slice())?;
    Ok(EntryTree {
        texts,
        order,
        tree: tree(alloc, ranked)?,
    })
}
