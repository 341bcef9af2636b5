// What the rules ask of the children of a node, the last child first.
ghost use Rattle.std.specs.Prelude.{false, ◌≡◌, ◌+◌, ◌≤◌, ◌<◌, length, get_or};
ghost use Rattle.table.specs.Gate.{child_list, ChildrenBelow};
ghost use Rattle.table.specs.Layout.{words_for};
ghost use Rattle.table.specs.Node.{node_at, max_nodes};
ghost use Rattle.table.specs.Words.{Readable};
ghost use Rattle.terms.specs.Lists.{any};
ghost use Rattle.circuits.specs.Check.{all_disjoint, is_false};
ghost use Rattle.checks.specs.Children.{Marked};

use table::MAX_NODES;
use table::gates::{Gate, decode_at};
use table::layout::Children;

// Marks the children.
pub fn mark(marked: &mut [bool; MAX_NODES as usize], children: Children)
    requires { (length marked.old ≡ max_nodes) × ChildrenBelow max_nodes children }
    ensures { Marked marked.old (child_list children) marked.new }
{
    let nodes = children.nodes;
    for k in (0..children.count as usize).rev() {
        let c = nodes[k] as usize;
        marked[c] = true;
    }
}

// No bit is in the masks of two children: each mask is held against all those after it.
pub fn are_disjoint(children: Children, masks: &[u64; MAX_NODES as usize]) -> bool
    requires { ChildrenBelow max_nodes children }
    ensures { result ≡ all_disjoint (λ c. get_or masks.now c 0) (child_list children) }
{
    let nodes = children.nodes;
    let mut all = 0u64;
    let mut apart = true;
    for k in (0..children.count as usize).rev() {
        let c = nodes[k] as usize;
        apart = masks::is_disjoint(masks[c], all) & apart;
        all = masks[c] | all;
    }
    apart
}

// Node i is `false`.
pub fn is_false(words: &[u32], i: usize) -> bool
    requires { (i < max_nodes) × (words_for (i + 1) ≤ length words.now) }
    ensures { result ≡ is_false (node_at words.now i) }
{
    let node = decode_at(words, i);
    match node.gate {
        Gate::Constant(b) => !b,
        _ => false,
    }
}

// Some child is `false`.
pub fn has_false(words: &[u32], n: usize, children: Children) -> bool
    requires { Readable n words.now × ChildrenBelow n children }
    ensures { result ≡ any (λ c. is_false (node_at words.now c)) (child_list children) }
{
    let nodes = children.nodes;
    let mut some = false;
    for k in (0..children.count as usize).rev() {
        let c = nodes[k] as usize;
        some = is_false(words, c) | some;
    }
    some
}
