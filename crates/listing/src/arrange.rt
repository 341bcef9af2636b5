// The terms of every node put into the order by weights.
ghost use Rattle.std.specs.Prelude.{◌≡◌, ◌≤◌, length};
ghost use Rattle.weighing.specs.Sums.{sum_count};
ghost use Rattle.arranging.specs.Arranged.{Light, Arrangeable, Arranged};
ghost use Rattle.lists.specs.List.{by_sign};
ghost use Rattle.lists.specs.Capacity.{max_capacity};
ghost use Rattle.listing.specs.Exact.{Unarranged, Arranges};

use super::{LARGE, SMALL, Shape};
use lists::list::TermBuffer;

// Puts the terms of one node in two slices into the order by the weights that the sums are of.
fn arrange_in(
    positives: &mut [u64],
    negatives: &mut [u64],
    keys: &mut [u32],
    spare: &mut [u32],
    copy: &mut [u64],
    sums: &[u16],
)
    requires arrangeable { Arrangeable positives.old negatives.old × (length sums.now ≡ sum_count) × Light sums.now }
    requires in_bounds { (length positives.old ≤ length keys.old) × (length positives.old ≤ length spare.old)
        × (length positives.old ≤ length copy.old) }
    requires same_length { length negatives.old ≡ length positives.old }
    ensures { Arranged sums.now (by_sign positives.old negatives.old) (by_sign positives.new negatives.new) }
{
    let mut list = TermBuffer {
        positives,
        negatives,
    };
    arranging::arrange(&mut list, keys, spare, copy, sums);
}

// Puts the terms of each node, which are in order without weights, into the order by weights. keys, spare and copy are scratch: what they
// hold before and after is left free.
fn arrange_nodes(
    positives: &mut [u64],
    negatives: &mut [u64],
    counts: &[u32],
    keys: &mut [u32],
    spare: &mut [u32],
    copy: &mut [u64],
    weights: &[u32],
    shape: Shape,
)
    requires unarranged { Unarranged shape weights.now (by_sign positives.old negatives.old) counts.now }
    requires capacity_in_bounds { (shape.capacity ≤ length keys.old) × (shape.capacity ≤ length spare.old) × (shape.capacity ≤ length copy.old) }
    ensures { Arranges shape weights.now (by_sign positives.old negatives.old) counts.now
        (by_sign positives.new negatives.new) }
{
    let mut sums = [0u16; weighing::SUMS];
    weighing::fill(&mut sums, weights);
    for i in 0..shape.nodes {
        let at = i * shape.capacity;
        let end = at + (counts[i] as usize);
        arrange_in(
            &mut positives[at..end],
            &mut negatives[at..end],
            keys,
            spare,
            copy,
            &sums,
        );
    }
}

// Puts the terms of each node into the order by weights, with scratch for so many terms.
fn arrange_with<const ROOM: usize>(
    positives: &mut [u64],
    negatives: &mut [u64],
    counts: &[u32],
    weights: &[u32],
    shape: Shape,
)
    requires unarranged { Unarranged shape weights.now (by_sign positives.old negatives.old) counts.now }
    requires room { (shape.capacity ≤ ROOM) × (ROOM ≤ max_capacity) }
    ensures { Arranges shape weights.now (by_sign positives.old negatives.old) counts.now
        (by_sign positives.new negatives.new) }
{
    let mut keys = [0u32; ROOM];
    let mut spare = [0u32; ROOM];
    let mut copy = [0u64; ROOM];
    arrange_nodes(
        positives, negatives, counts, &mut keys, &mut spare, &mut copy, weights, shape,
    );
}

// Puts the terms of each node into the order by weights. Where every weight is 0 they are in it.
pub fn arrange_all(
    positives: &mut [u64],
    negatives: &mut [u64],
    counts: &[u32],
    weights: &[u32],
    shape: Shape,
)
    requires { Unarranged shape weights.now (by_sign positives.old negatives.old) counts.now }
    ensures { Arranges shape weights.now (by_sign positives.old negatives.old) counts.now
        (by_sign positives.new negatives.new) }
{
    if weighing::any_weight(weights) {
        if shape.capacity <= SMALL {
            arrange_with::<SMALL>(positives, negatives, counts, weights, shape);
        } else {
            arrange_with::<LARGE>(positives, negatives, counts, weights, shape);
        }
    }
}
