// The prime implicants of every node of a circuit, listed in lent buffers, and in two more those of the last node that respect pairs of
// variables that exclude each other ("the shown list").
#![tactic(auto)]

ghost use Rattle.std.specs.Prelude.{◌≡◌, true, ◌≤◌, ◌<◌, ◌^◌, length, replicate};
ghost use Rattle.table.specs.Node.{max_variables};
ghost use Rattle.table.specs.Outcome.{accepted};
ghost use Rattle.weighing.specs.Weights.{fitting};
ghost use Rattle.exclusions.specs.Exclusions.{exclusions, proper, Exclusions};
ghost use Rattle.exclusions.specs.Partners.{Folded, Filtered};
ghost use Rattle.circuits.specs.Check.{check};
ghost use Rattle.circuits.specs.Function.{signed_function};
ghost use Rattle.lists.specs.List.{by_sign, terms_in};
ghost use Rattle.listing.specs.Listing.{lent, suffices};
ghost use Rattle.filtered.specs.Filtered.{filtered_lent, filtered_checked, filtered_table, Gives};
ghost use Rattle.filtered.specs.Exact.{last_terms, LastHeld, FilteredExact};

use listing::Shape;
use lists::list::{TermBuffer, TermList};
use table::{MAX_VARIABLES, Refusal};

// How many masks the pairs are folded into.
const VARIABLES: usize = MAX_VARIABLES as usize;

// Copies the terms of a list that respect the pairs, as they were folded, into two slices of zeros: how many they are.
fn filter_in(
    positives: &mut [u64],
    negatives: &mut [u64],
    list: TermList,
    partners: &[u64],
    heads: u64,
) -> usize
    requires room { (length list.positives.now ≤ length positives.old) × (heads < 2 ^ length partners.now) × (length partners.now ≤ 64) }
    requires zeros { (positives.old ≡ replicate (length positives.old) 0) × (negatives.old ≡ replicate (length positives.old) 0) }
    ensures { (e : Exclusions) → Folded e (length e.firsts) partners.now heads
        → Filtered e (terms_in list.entry) (length positives.old) (by_sign positives.new negatives.new) result }
{
    let mut kept = TermBuffer {
        positives,
        negatives,
    };
    exclusions::filter(&mut kept, list, partners, heads)
}

// Copies the terms of the last node that respect the pairs into the shown list, of zeros before: how many they are.
fn filter_last(
    shown_positives: &mut [u64],
    shown_negatives: &mut [u64],
    positives: &[u64],
    negatives: &[u64],
    counts: &[u32],
    firsts: &[u32],
    seconds: &[u32],
    shape: Shape,
) -> u32
    requires last_held { LastHeld shape positives.now negatives.now counts.now × (shape.variables ≤ max_variables)
        × (proper shape.variables (exclusions firsts.now seconds.now) ≡ true) }
    requires shown_positives_value { (shown_positives.old ≡ replicate shape.capacity 0) × (shown_negatives.old ≡ replicate shape.capacity 0) }
    ensures { Filtered (exclusions firsts.now seconds.now)
        (last_terms shape positives.now negatives.now counts.now) shape.capacity
        (by_sign shown_positives.new shown_negatives.new) result }
{
    let mut partners = [0u64; VARIABLES];
    let heads = exclusions::fold(&mut partners, firsts, seconds);
    let last = shape.nodes - 1;
    let at = last * shape.capacity;
    let end = at + counts[last] as usize;
    let list = TermList {
        positives: &positives[at..end],
        negatives: &negatives[at..end],
    };
    filter_in(shown_positives, shown_negatives, list, &partners, heads) as u32
}

// Lists where nothing but 42 is left to be tested, with buffers of just the needed length for the shown list.
fn list_exact(
    positives: &mut [u64],
    negatives: &mut [u64],
    counts: &mut [u32],
    shown_positives: &mut [u64],
    shown_negatives: &mut [u64],
    words: &[u32],
    weights: &[u32],
    firsts: &[u32],
    seconds: &[u32],
    shape: Shape,
) -> Result<u32, Refusal>
    requires words_value { (check shape.variables shape.nodes words.now ≡ accepted) × (fitting shape.variables weights.now ≡ true)
        × (proper shape.variables (exclusions firsts.now seconds.now) ≡ true) }
    requires counts_value { (suffices shape.nodes shape.capacity (lent positives.old negatives.old counts.old) ≡ true)
        × (length shown_positives.old ≡ shape.capacity) × (length shown_negatives.old ≡ shape.capacity) }
    ensures { FilteredExact weights.now (exclusions firsts.now seconds.now)
        shape.variables shape.nodes (signed_function shape.sign words.now) shape.capacity
        (lent positives.old negatives.old counts.old)
        (lent positives.new negatives.new counts.new)
        (by_sign shown_positives.new shown_negatives.new) result }
{
    shown_positives.fill(0);
    shown_negatives.fill(0);
    if !listing::list_ready(positives, negatives, counts, words, weights, shape) {
        return Err(Refusal::Capacity);
    }
    Ok(filter_last(
        shown_positives,
        shown_negatives,
        positives,
        negatives,
        counts,
        firsts,
        seconds,
        shape,
    ))
}

// Lists an accepted circuit: 41, 56, 57 and 42.
fn list_accepted(
    positives: &mut [u64],
    negatives: &mut [u64],
    counts: &mut [u32],
    shown_positives: &mut [u64],
    shown_negatives: &mut [u64],
    words: &[u32],
    weights: &[u32],
    firsts: &[u32],
    seconds: &[u32],
    shape: Shape,
) -> Result<u32, Refusal>
    requires { check shape.variables shape.nodes words.now ≡ accepted }
    ensures { Gives (filtered_checked weights.now (exclusions firsts.now seconds.now)
        shape.variables shape.nodes (signed_function shape.sign words.now) shape.capacity
        (filtered_lent (lent positives.old negatives.old counts.old)
        shown_positives.old shown_negatives.old) accepted)
        (filtered_lent (lent positives.new negatives.new counts.new)
        shown_positives.new shown_negatives.new) result }
{
    let capacity = shape.capacity;
    if (shown_positives.len() < capacity) | (shown_negatives.len() < capacity) {
        return Err(Refusal::Buffers);
    }
    if !listing::is_enough(positives, negatives, counts, shape.nodes, capacity) {
        return Err(Refusal::Buffers);
    }
    if !weighing::fit(weights, shape.variables) {
        return Err(Refusal::Weights);
    }
    if !exclusions::fit(firsts, seconds, shape.variables) {
        return Err(Refusal::Exclusions);
    }
    list_exact(
        positives,
        negatives,
        counts,
        &mut shown_positives[..capacity],
        &mut shown_negatives[..capacity],
        words,
        weights,
        firsts,
        seconds,
        shape,
    )
}

// Lists the prime implicants of every node ("clearances"): those of node i from entry i × capacity on, in order by the weights, and their
// number at entry i of the counts; and in the shown list those of the last node that respect the pairs. How many terms that list has.
pub fn list(
    positives: &mut [u64],
    negatives: &mut [u64],
    counts: &mut [u32],
    shown_positives: &mut [u64],
    shown_negatives: &mut [u64],
    words: &[u32],
    weights: &[u32],
    firsts: &[u32],
    seconds: &[u32],
    variables: u32,
    nodes: u32,
    capacity: u32,
) -> Result<u32, Refusal>
    ensures { Gives (filtered_table weights.now (exclusions firsts.now seconds.now)
        variables nodes words.now capacity
        (filtered_lent (lent positives.old negatives.old counts.old)
        shown_positives.old shown_negatives.old))
        (filtered_lent (lent positives.new negatives.new counts.new)
        shown_positives.new shown_negatives.new) result }
{
    checks::check(words, variables, nodes)?;
    let shape = Shape {
        sign: true,
        variables,
        nodes: nodes as usize,
        capacity: capacity as usize,
    };
    list_accepted(
        positives,
        negatives,
        counts,
        shown_positives,
        shown_negatives,
        words,
        weights,
        firsts,
        seconds,
        shape,
    )
}
