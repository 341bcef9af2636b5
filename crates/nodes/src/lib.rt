// One node: its terms made in its own part of the buffers, from the terms of its children in theirs.
#![tactic(auto)]

ghost use Rattle.std.specs.Prelude.{◌≡◌, cond, [], ◌∷◌, ◌+◌, ◌*◌, ◌≤◌, ◌<◌, length, get_or};
ghost use Rattle.masks.specs.Mask.{width};
ghost use Rattle.table.specs.Layout.{words_for, max_children};
ghost use Rattle.table.specs.Node.{max_nodes};
ghost use Rattle.terms.specs.Joins.{conjunction_terms};
ghost use Rattle.terms.specs.Lists.{sort};
ghost use Rattle.terms.specs.Order.{before};
ghost use Rattle.terms.specs.Term.{empty, extend};
ghost use Rattle.circuits.specs.Function.{signed};
ghost use Rattle.lists.specs.Capacity.{max_capacity};
ghost use Rattle.lists.specs.List.{SameLoan, by_sign, held, slots, terms_in};
ghost use Rattle.insertion.specs.Filled.{Filled};
ghost use Rattle.settling.specs.Sides.{SidesAt};
ghost use Rattle.nodes.specs.Part.{gate_made, node_made, Given, PairGiven, NodeGiven, terms_at, child_from, child_size, child_terms, Laid};
ghost use Rattle.nodes.specs.Part.{PartFilled, IsPart, places, HasPlace};

use lists::list::{TermBuffer, TermList};
use table::gates::{Gate, decode_at};
use table::layout::Children;
use terms::Term;

// Makes the terms of a constant: the term with no literal, or none. How many they are, here and below; `None` where there is
// no room for them.
fn constant(list: &mut TermBuffer, value: bool) -> Option<usize>
    ensures made { Filled (cond value (empty ∷ []) []) (slots list.old) (slots list.new) result }
    ensures same_loan { SameLoan list.old list.new }
{
    let empty = terms::EMPTY;
    if value {
        return insertion::insert(list, 0, empty);
    }
    Some(0)
}

// Makes the term of a literal.
fn literal(list: &mut TermBuffer, sign: bool, x: u32) -> Option<usize>
    requires { x < width }
    ensures made { Filled (extend empty x sign ∷ []) (slots list.old) (slots list.new) result }
    ensures same_loan { SameLoan list.old list.new }
{
    let empty = terms::EMPTY;
    insertion::insert(list, 0, terms::extend(empty, x, sign))
}

// The value, or its negation where the sign is false.
fn signed(sign: bool, value: bool) -> bool
    ensures { result ≡ signed sign value }
{
    value == sign
}

// Makes the terms of a conjunction without a common variable, or of its negation, from those of two parts.
fn conjoin(list: &mut TermBuffer, a: TermList, b: TermList, sign: bool) -> Option<usize>
    requires { SidesAt a b }
    ensures made { Filled (sort (before []) (conjunction_terms sign (terms_in a.entry) (terms_in b.entry)))
        (slots list.old) (slots list.new) result }
    ensures same_loan { SameLoan list.old list.new }
{
    if sign {
        return joins::conjunction(list, a, b);
    }
    unions::union(list, a, b)
}

// Makes the terms of a gate, or of its negation, from two lists: those of two children, or a child's and what is
// made of those after it.
fn make(list: &mut TermBuffer, a: TermList, b: TermList, gate: Gate, sign: bool) -> Option<usize>
    requires { Given gate a b }
    ensures made { Filled (gate_made sign gate (terms_in a.entry) (terms_in b.entry)) (slots list.old) (slots list.new) result }
    ensures same_loan { SameLoan list.old list.new }
{
    match gate {
        Gate::Constant(value) => constant(list, signed(sign, value)),
        Gate::Literal(value, x) => literal(list, signed(sign, value), x),
        Gate::Decision(x, _, _) => decisions::decision(list, a, b, x),
        Gate::Conjunction => conjoin(list, a, b, sign),
        Gate::Unknown => Some(0),
    }
}

// Makes them in two slices, which are lent as one buffer for that.
fn make_in(
    positives: &mut [u64],
    negatives: &mut [u64],
    a: TermList,
    b: TermList,
    gate: Gate,
    sign: bool,
) -> Option<usize>
    requires given { Given gate a b }
    requires same_length { length negatives.old ≡ length positives.old }
    ensures { Filled (gate_made sign gate (terms_in a.entry) (terms_in b.entry)) (by_sign positives.old negatives.old)
        (by_sign positives.new negatives.new) result }
{
    let mut list = TermBuffer {
        positives,
        negatives,
    };
    make(&mut list, a, b, gate, sign)
}

// Terms of a node in the buffers: the first place, and how many.
#[derive(Clone, Copy)]
pub struct Terms {
    pub from: usize,
    pub count: usize,
}

// A part of the buffers, a gate with its sign, and where its two lists of terms stand.
#[derive(Clone, Copy)]
pub struct Part {
    pub gate: Gate,
    pub sign: bool,
    pub at: usize,
    pub capacity: usize,
    pub low: Terms,
    pub high: Terms,
}

// Copies terms of the buffers to the front of scratch.
fn copy_terms(to: &mut TermBuffer, positives: &[u64], negatives: &[u64], terms: Terms)
    requires { (terms.from + terms.count ≤ length positives.now) × (terms.from + terms.count ≤ length negatives.now)
        × (terms.count ≤ length to.old.positives.now) }
    ensures copied { held (slots to.new) terms.count ≡ terms_at (by_sign positives.now negatives.now) terms }
    ensures size { length to.new.positives.now ≡ length to.old.positives.now }
{
    buffers::copy(to.positives, positives, terms.from, terms.count);
    buffers::copy(to.negatives, negatives, terms.from, terms.count);
}

// Makes the terms of a gate in the part. Its two lists are copied to the fronts of low and high; what these hold before and after is left
// free.
fn fill_part(
    positives: &mut [u64],
    negatives: &mut [u64],
    low: &mut TermBuffer,
    high: &mut TermBuffer,
    part: Part,
) -> Option<usize>
    requires given { PairGiven part.gate (terms_at (by_sign positives.old negatives.old) part.low)
        (terms_at (by_sign positives.old negatives.old) part.high) }
    requires room { (part.capacity ≤ max_capacity) × (part.low.count ≤ part.capacity) × (part.high.count ≤ part.capacity)
        × (part.low.from + part.capacity ≤ length positives.old) × (part.high.from + part.capacity ≤ length positives.old)
        × (part.at + part.capacity ≤ length positives.old) × (length negatives.old ≡ length positives.old) }
    requires has_place { (part.capacity ≤ length low.old.positives.now) × (part.capacity ≤ length high.old.positives.now) }
    ensures has_place { (part.capacity ≤ length low.new.positives.now) × (part.capacity ≤ length high.new.positives.now) }
    ensures made { PartFilled
        (gate_made part.sign part.gate (terms_at (by_sign positives.old negatives.old) part.low)
        (terms_at (by_sign positives.old negatives.old) part.high))
        part.at part.capacity (by_sign positives.old negatives.old) (by_sign positives.new negatives.new) result }
{
    copy_terms(low, positives, negatives, part.low);
    copy_terms(high, positives, negatives, part.high);
    let end = part.at + part.capacity;
    make_in(
        &mut positives[part.at..end],
        &mut negatives[part.at..end],
        low.front(part.low.count),
        high.front(part.high.count),
        part.gate,
        part.sign,
    )
}

// A node's part of the buffers: its gate, with the sign false where the negation is listed, and its children. The terms of child c
// stand from entry c * capacity on.
#[derive(Clone, Copy)]
pub struct NodePart {
    pub gate: Gate,
    pub sign: bool,
    pub children: Children,
    pub at: usize,
    pub capacity: usize,
}

// The terms of the child at a place.
fn child_at(counts: &[u32], part: NodePart, k: usize) -> Terms
    requires k_lt_max_children { (k < max_children) × (get_or part.children.nodes k 0 < length counts.now) }
    requires counts_len_bound { (length counts.now ≤ max_nodes) × (part.capacity ≤ max_capacity) }
    ensures { (result.from ≡ child_from part k) × (result.count ≡ child_size counts.now part k) }
{
    let children = part.children;
    let nodes = children.nodes;
    let c = nodes[k] as usize;
    Terms {
        from: c * part.capacity,
        count: counts[c] as usize,
    }
}

// How many places of children are used: two, or as many as a conjunction has.
fn places(gate: Gate, count: u32) -> usize
    ensures { result ≡ places gate count }
{
    match gate {
        Gate::Constant(_) => 2,
        Gate::Literal(_, _) => 2,
        Gate::Decision(_, _, _) => 2,
        Gate::Conjunction => count as usize,
        Gate::Unknown => 2,
    }
}

// Makes the terms of a node, or of its negation, in its part. Those of a conjunction's last child but one go with the last one's, and
// then each child's with what is there: what is made is no longer than the next, so that the part is enough for each. Other gates take
// one turn.
fn fill_turns(
    positives: &mut [u64],
    negatives: &mut [u64],
    low: &mut TermBuffer,
    high: &mut TermBuffer,
    counts: &[u32],
    part: NodePart,
) -> Option<usize>
    requires laid { Laid (by_sign positives.old negatives.old) counts.now part
        × NodeGiven part.sign part.gate (child_terms (by_sign positives.old negatives.old) counts.now part)
        (places part.gate part.children.count) }
    requires has_place { (part.capacity ≤ length low.old.positives.now) × (part.capacity ≤ length high.old.positives.now) }
    ensures { PartFilled
        (node_made part.sign part.gate part.children.count
        (child_terms (by_sign positives.old negatives.old) counts.now part))
        part.at part.capacity (by_sign positives.old negatives.old) (by_sign positives.new negatives.new) result }
{
    let gate = part.gate;
    let children = part.children;
    let last = places(gate, children.count) - 1;
    let mut made = child_at(counts, part, last);
    for k in (0..last).rev() {
        let pair = Part {
            gate,
            sign: part.sign,
            at: part.at,
            capacity: part.capacity,
            low: child_at(counts, part, k),
            high: made,
        };
        let count = fill_part(positives, negatives, low, high, pair)?;
        made = Terms {
            from: part.at,
            count,
        };
    }
    Some(made.count)
}

// The same with scratch in four slices, each with place for the capacity; its parts are lent as two buffers of one length for that.
pub fn fill_node(
    positives: &mut [u64],
    negatives: &mut [u64],
    low_positives: &mut [u64],
    low_negatives: &mut [u64],
    high_positives: &mut [u64],
    high_negatives: &mut [u64],
    counts: &[u32],
    part: NodePart,
) -> Option<usize>
    requires laid { Laid (by_sign positives.old negatives.old) counts.now part
        × NodeGiven part.sign part.gate (child_terms (by_sign positives.old negatives.old) counts.now part)
        (places part.gate part.children.count) }
    requires has_place { HasPlace part.capacity low_positives.old low_negatives.old high_positives.old high_negatives.old }
    ensures has_place { HasPlace part.capacity low_positives.new low_negatives.new high_positives.new high_negatives.new }
    ensures made { PartFilled
        (node_made part.sign part.gate part.children.count
        (child_terms (by_sign positives.old negatives.old) counts.now part))
        part.at part.capacity (by_sign positives.old negatives.old) (by_sign positives.new negatives.new) result }
{
    let mut low = TermBuffer {
        positives: &mut low_positives[..part.capacity],
        negatives: &mut low_negatives[..part.capacity],
    };
    let mut high = TermBuffer {
        positives: &mut high_positives[..part.capacity],
        negatives: &mut high_negatives[..part.capacity],
    };
    fill_turns(positives, negatives, &mut low, &mut high, counts, part)
}

// The part of node i, or of its negation where the sign is false.
pub fn part_of(words: &[u32], i: usize, capacity: usize, sign: bool) -> NodePart
    requires { (i < max_nodes) × (capacity ≤ max_capacity) × (words_for (i + 1) ≤ length words.now) }
    ensures { IsPart sign words.now i capacity result }
{
    let node = decode_at(words, i);
    let gate = node.gate;
    let children = node.children;
    let at = i * capacity;
    NodePart {
        gate,
        sign,
        children,
        at,
        capacity,
    }
}
