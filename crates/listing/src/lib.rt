// The prime implicants of every node of a circuit, listed in lent buffers; and the part of a buffer that holds one node's.
#![tactic(auto)]

ghost use Rattle.std.specs.Prelude.{◌≡◌, true, false, ◌*◌, ◌≤◌, length, replicate};
ghost use Rattle.table.specs.Node.{max_nodes};
ghost use Rattle.table.specs.Outcome.{accepted};
ghost use Rattle.circuits.specs.Check.{check};
ghost use Rattle.circuits.specs.Function.{signed_function};
ghost use Rattle.lists.specs.Capacity.{max_capacity};
ghost use Rattle.lists.specs.List.{by_sign};
ghost use Rattle.nodes.specs.Part.{HasPlace};
ghost use Rattle.weighing.specs.Weights.{fitting};
ghost use Rattle.listing.specs.Exact.{Zeroed, Tried, Exact, Attempted};
ghost use Rattle.listing.specs.Listing.{lent, ListResult, suffices, viewed};

mod arrange;

use arrange::arrange_all;
use lists::MAX_CAPACITY;
use table::{MAX_NODES, Refusal};

// The capacity up to which scratch is small.
pub const SMALL: usize = 256;

// The largest capacity.
const LARGE: usize = MAX_CAPACITY as usize;

// The part of the buffer that holds the first count entries of the node; the empty part for arguments out of range.
pub fn view(buffer: &[u64], capacity: u32, node: u32, count: u32) -> &[u64]
    ensures { result.now ≡ viewed buffer.now capacity node count }
{
    if MAX_NODES <= node {
        return &buffer[0..0];
    }
    if MAX_CAPACITY < capacity {
        return &buffer[0..0];
    }
    if capacity < count {
        return &buffer[0..0];
    }
    let start = (node as usize) * (capacity as usize);
    let end = start + (count as usize);
    if buffer.len() < end {
        return &buffer[0..0];
    }
    &buffer[start..end]
}

fn clear(positives: &mut [u64], negatives: &mut [u64], counts: &mut [u32])
    ensures { (positives.new ≡ replicate (length positives.old) 0)
        × (negatives.new ≡ replicate (length negatives.old) 0)
        × (counts.new ≡ replicate (length counts.old) 0) }
{
    positives.fill(0);
    negatives.fill(0);
    counts.fill(0);
}

// What is listed: the nodes' functions or, where the sign is false, their negations; how many variables and nodes the circuit has, and
// the capacity of a node's part.
#[derive(Clone, Copy)]
pub struct Shape {
    pub sign: bool,
    pub variables: u32,
    pub nodes: usize,
    pub capacity: usize,
}

// Fills the nodes' parts of buffers of zeros, the lowest node first; false where a node has more terms than the capacity.
// The four slices of low and high terms are scratch for the terms of a node's children: what they hold before and after is left free.
fn fill_nodes(
    positives: &mut [u64],
    negatives: &mut [u64],
    counts: &mut [u32],
    low_positives: &mut [u64],
    low_negatives: &mut [u64],
    high_positives: &mut [u64],
    high_negatives: &mut [u64],
    words: &[u32],
    shape: Shape,
) -> bool
    requires zeroed { Zeroed shape words.now (by_sign positives.old negatives.old) counts.old }
    requires has_place { HasPlace shape.capacity low_positives.old low_negatives.old high_positives.old high_negatives.old }
    ensures { Tried shape.variables shape.nodes (signed_function shape.sign words.now) shape.capacity
        (by_sign positives.new negatives.new) counts.new result }
{
    for i in 0..shape.nodes {
        let part = nodes::part_of(words, i, shape.capacity, shape.sign);
        let Some(c) = nodes::fill_node(
            positives,
            negatives,
            low_positives,
            low_negatives,
            high_positives,
            high_negatives,
            counts,
            part,
        ) else {
            return false;
        };
        counts[i] = c as u32;
    }
    true
}

// Fills the nodes' parts, with scratch for so many terms of each child.
fn fill_with<const ROOM: usize>(
    positives: &mut [u64],
    negatives: &mut [u64],
    counts: &mut [u32],
    words: &[u32],
    shape: Shape,
) -> bool
    requires zeroed { Zeroed shape words.now (by_sign positives.old negatives.old) counts.old }
    requires room { (shape.capacity ≤ ROOM) × (ROOM ≤ max_capacity) }
    ensures { Tried shape.variables shape.nodes (signed_function shape.sign words.now) shape.capacity
        (by_sign positives.new negatives.new) counts.new result }
{
    let mut low_positives = [0u64; ROOM];
    let mut low_negatives = [0u64; ROOM];
    let mut high_positives = [0u64; ROOM];
    let mut high_negatives = [0u64; ROOM];
    fill_nodes(
        positives,
        negatives,
        counts,
        &mut low_positives,
        &mut low_negatives,
        &mut high_positives,
        &mut high_negatives,
        words,
        shape,
    )
}

// Fills the nodes' parts. Scratch is zeroed when it is made, so that a small capacity has little.
fn fill_all(
    positives: &mut [u64],
    negatives: &mut [u64],
    counts: &mut [u32],
    words: &[u32],
    shape: Shape,
) -> bool
    requires { Zeroed shape words.now (by_sign positives.old negatives.old) counts.old }
    ensures { Tried shape.variables shape.nodes (signed_function shape.sign words.now) shape.capacity
        (by_sign positives.new negatives.new) counts.new result }
{
    if shape.capacity <= SMALL {
        return fill_with::<SMALL>(positives, negatives, counts, words, shape);
    }
    fill_with::<LARGE>(positives, negatives, counts, words, shape)
}

// Lists in buffers of just the needed length, and zeroes them where the circuit has more prime implicants than the capacity.
fn list_exact(
    positives: &mut [u64],
    negatives: &mut [u64],
    counts: &mut [u32],
    words: &[u32],
    weights: &[u32],
    shape: Shape,
) -> bool
    requires words_value { (check shape.variables shape.nodes words.now ≡ accepted) × (shape.capacity ≤ max_capacity)
        × (length counts.old ≡ shape.nodes) × (fitting shape.variables weights.now ≡ true) }
    requires positives_len { (length positives.old ≡ shape.nodes * shape.capacity) × (length negatives.old ≡ shape.nodes * shape.capacity) }
    ensures { Exact weights.now shape.variables shape.nodes
        (signed_function shape.sign words.now) shape.capacity
        (by_sign positives.new negatives.new) counts.new result }
{
    clear(positives, negatives, counts);
    if fill_all(positives, negatives, counts, words, shape) {
        arrange_all(positives, negatives, counts, weights, shape);
        return true;
    }
    clear(positives, negatives, counts);
    false
}

// The capacity is at most 4,096, and the buffers are large enough for it: not 41.
pub fn is_enough(
    positives: &[u64],
    negatives: &[u64],
    counts: &[u32],
    n: usize,
    capacity: usize,
) -> bool
    requires { n ≤ max_nodes }
    ensures { result ≡ suffices n capacity (lent positives.now negatives.now counts.now) }
{
    if (MAX_CAPACITY as usize) < capacity {
        return false;
    }
    let total = n * capacity;
    (total <= positives.len()) & (total <= negatives.len()) & (n <= counts.len())
}

// Lists the prime implicants of an accepted circuit's nodes, or of their negations, where the buffers are large enough and the weights
// fit; false, with zeros in their place, where the circuit has more than the capacity: 42.
pub fn list_ready(
    positives: &mut [u64],
    negatives: &mut [u64],
    counts: &mut [u32],
    words: &[u32],
    weights: &[u32],
    shape: Shape,
) -> bool
    requires words_value { (check shape.variables shape.nodes words.now ≡ accepted) × (fitting shape.variables weights.now ≡ true) }
    requires counts_value { suffices shape.nodes shape.capacity (lent positives.old negatives.old counts.old) ≡ true }
    ensures { Attempted weights.now shape.variables shape.nodes
        (signed_function shape.sign words.now) shape.capacity
        (lent positives.old negatives.old counts.old)
        (lent positives.new negatives.new counts.new) result }
{
    let total = shape.nodes * shape.capacity;
    list_exact(
        &mut positives[..total],
        &mut negatives[..total],
        &mut counts[..shape.nodes],
        words,
        weights,
        shape,
    )
}

// Lists the prime implicants of an accepted circuit's nodes, or of their negations: 41, 56 and 42.
pub fn list_accepted(
    positives: &mut [u64],
    negatives: &mut [u64],
    counts: &mut [u32],
    words: &[u32],
    weights: &[u32],
    shape: Shape,
) -> Result<(), Refusal>
    requires { check shape.variables shape.nodes words.now ≡ accepted }
    ensures { ListResult shape.sign weights.now shape.variables shape.nodes words.now
        shape.capacity
        (lent positives.old negatives.old counts.old)
        (lent positives.new negatives.new counts.new) result }
{
    if !is_enough(positives, negatives, counts, shape.nodes, shape.capacity) {
        return Err(Refusal::Buffers);
    }
    if !weighing::fit(weights, shape.variables) {
        return Err(Refusal::Weights);
    }
    if list_ready(positives, negatives, counts, words, weights, shape) {
        return Ok(());
    }
    Err(Refusal::Capacity)
}

// Lists the prime implicants of every node's negation ("blockers"): those of node i from entry i × capacity on, in order by the weights,
// and their number at entry i of the counts.
pub fn list_negation(
    positives: &mut [u64],
    negatives: &mut [u64],
    counts: &mut [u32],
    words: &[u32],
    weights: &[u32],
    variables: u32,
    nodes: u32,
    capacity: u32,
) -> Result<(), Refusal>
    ensures { ListResult false weights.now variables nodes words.now capacity
        (lent positives.old negatives.old counts.old)
        (lent positives.new negatives.new counts.new) result }
{
    checks::check(words, variables, nodes)?;
    let shape = Shape {
        sign: false,
        variables,
        nodes: nodes as usize,
        capacity: capacity as usize,
    };
    list_accepted(positives, negatives, counts, words, weights, shape)
}
