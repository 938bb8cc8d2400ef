// Lists of numbers, one for each stretch of lines.
ghost use Rattle.std.specs.Prelude.{◌≡◌, ℕ, ◌<◌, ◌≤◌, ◌+◌, ◌++◌, [], ◌∷◌, ◌&&◌, ◌*◌, IfOk, IfSome, None, OnOk, List};
ghost use Rattle.std.specs.Prelude.{length, nat_le, nat_lt, slice_index_or, slice_set, if◌then◌else◌};
ghost use Rattle.std.specs.List.{All, sum_by};
ghost use Rattle.std.specs.List.Sorted.{IsStrictlyIncreasing};
ghost use Rattle.mosaic_sources.specs.Rows.{most_listed};
ghost use Rattle.mosaic_sources.specs.Stretches.{holding_lines, AreListsOf, HasEdges, IsWithinCount};
ghost use Rattle.vrt_profile.specs.Values.{most_sources};

use crate::row_list::RowList;
use crate::spans::Span;
use crate::stretches::{all_stretches, total_of};
use std::alloc::{AllocError, Global};

/// So many numbers all lists of an index have together at most.
pub const MOST_LISTED: u64 = 4_194_304;

// Counts one more at each place of a span.
fn count_between(counts: &mut Vec<u32>, span: Span)
    requires within { IsWithinCount (length counts.old.items) span }
    ensures count { length counts.new.items ≡ length counts.old.items }
{
    for at in span.first as usize..span.end as usize {
        counts[at] = counts[at].saturating_add(1);
    }
}

// How long the list of each stretch gets. No clause says so: the lists only take room for as many.
fn counts_of(alloc: Global, stretches: &[Span], count: usize) -> Result<Vec<u32>, AllocError>
    requires within { All (IsWithinCount count) stretches.now }
    ensures count { IfOk result (λ v. length v.items ≡ count) }
{
    let mut counts = vec![in alloc; 0; count]?;
    for span in stretches {
        count_between(&mut counts, *span);
    }
    Ok(counts)
}

// An empty list for each of the numbers, with room for as many numbers.
fn empty_lists(alloc: Global, rooms: &[u32]) -> Result<Vec<RowList>, AllocError>
    ensures count { IfOk result (λ v. length v.items ≡ length rooms.now) }
    ensures empty { IfOk result (λ v. All (λ list. list ≡ []) v.items) }
{
    let mut lists = Vec::with_capacity(alloc, rooms.len())?;
    for room in rooms {
        lists.push(RowList::with_room(alloc, *room)?)?;
    }
    Ok(lists)
}

// Adds a number to one of the lists.
fn add_at(lists: &mut Vec<RowList>, at: usize, number: u32) -> Result<(), AllocError>
    requires there { at < length lists.old.items }
    ensures added { OnOk result (lists.new.items ≡ slice_set lists.old.items at
        (slice_index_or lists.old.items at [] ++ number ∷ [])) }
{
    lists[at].push(number)
}

// Adds a number to the lists of a span.
fn add_between(lists: &mut Vec<RowList>, span: Span, number: u32) -> Result<(), AllocError>
    requires within { IsWithinCount (length lists.old.items) span }
    ensures count { OnOk result (length lists.new.items ≡ length lists.old.items) }
    ensures lists { OnOk result ((k : ℕ) → k < length lists.old.items →
        slice_index_or lists.new.items k [] ≡ (if nat_le span.first k && nat_lt k span.end then slice_index_or
        lists.old.items k [] ++ number ∷ [] else slice_index_or lists.old.items k [])) }
{
    for at in span.first as usize..span.end as usize {
        add_at(lists, at, number)?;
    }
    Ok(())
}

// For each of `count` stretches, the numbers of the spans of stretches that hold it, in order.
fn lists_of(alloc: Global, stretches: &[Span], count: usize) -> Result<Vec<RowList>, AllocError>
    requires few { length stretches.now ≤ most_sources }
    requires within { All (IsWithinCount count) stretches.now }
    ensures count { IfOk result (λ v. length v.items ≡ count) }
    ensures lists { IfOk result (λ v. (k : ℕ) → k < count → slice_index_or v.items k [] ≡ holding_lines stretches.now
        k) }
{
    let counts = counts_of(alloc, stretches, count)?;
    let mut lists = empty_lists(alloc, counts.as_slice())?;
    for (number, span) in stretches.iter().enumerate() {
        add_between(&mut lists, *span, number as u32)?;
    }
    Ok(lists)
}

/// For each stretch between cuts, the numbers of the spans that hold its lines, in order. `None` exactly where these
/// are more than 4,194,304 numbers.
pub fn lists_within(
    alloc: Global,
    spans: &[Span],
    cuts: &[u32],
    height: u32,
) -> Result<Option<Vec<RowList>>, AllocError>
    requires few { length spans.now ≤ most_sources }
    requires short { length cuts.now ≤ 2 * length spans.now }
    requires rising { IsStrictlyIncreasing cuts.now }
    requires edges { All (HasEdges cuts.now height) spans.now }
    requires ends { All (λ s. s.end ≤ height) spans.now }
    ensures lists { IfOk result (λ o. IfSome o (λ v. AreListsOf cuts.now height spans.now v.items)) }
    ensures short { IfOk result (λ o. IfSome o (λ v. sum_by length v.items ≤ most_listed)) }
    ensures long { IfOk result (λ o. o ≡ None → (lists : List (List ℕ)) ×
        (AreListsOf cuts.now height spans.now lists × (most_listed < sum_by length lists))) }
{
    let stretches = all_stretches(alloc, spans, cuts, height)?;
    let count = cuts.len() + 1;
    if total_of(stretches.as_slice(), count) > MOST_LISTED {
        return Ok(None);
    }
    Ok(Some(lists_of(alloc, stretches.as_slice(), count)?))
}

/// How many numbers the lists have together.
pub fn numbers_of(lists: &[RowList]) -> u32
    requires short { sum_by length lists.now ≤ most_listed }
    ensures total { result ≡ sum_by length lists.now }
{
    let mut total = 0;
    for list in lists {
        total += list.len() as u32;
    }
    total
}
