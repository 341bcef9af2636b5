// The checks of a table's numbers and words: 21 and 22.
ghost use Rattle.std.specs.Prelude.{◌≡◌, not, ◌+◌, ◌≤◌, ◌<◌, length};
ghost use Rattle.masks.specs.Numbers.{first};
ghost use Rattle.table.specs.Layout.{words_for};
ghost use Rattle.table.specs.Node.{max_nodes};
ghost use Rattle.table.specs.Outcome.{outcome};
ghost use Rattle.table.specs.Words.{word_fits, children_fit, well_formed, in_range, malformed, check_words};

use super::layout::{Children, MAX_CHILDREN, NodeWords, words_at, words_for};
use super::{MAX_NODES, MAX_VARIABLES, Refusal};

// 1 to 40 variables, 1 to 1,024 nodes, and words enough for them.
fn in_range(words: &[u32], variables: u32, nodes: u32) -> bool
    ensures { result ≡ in_range variables nodes words.now }
{
    (1 <= variables)
        & (variables <= MAX_VARIABLES)
        & (1 <= nodes)
        & (nodes <= MAX_NODES)
        & (words_for(nodes) <= words.len())
}

// A used word is below its bound, an unused word is 0.
fn word_fits(used: bool, bound: u32, word: u32) -> bool
    ensures { result ≡ word_fits used bound word }
{
    if used { word < bound } else { word == 0 }
}

// The children stand below their parent, and the unused words are 0.
fn children_fit(children: Children, parent: u32) -> bool
    ensures { result ≡ children_fit parent children }
{
    let count = children.count as usize;
    let nodes = children.nodes;
    for k in 0..MAX_CHILDREN {
        if !word_fits(k < count, parent, nodes[k]) {
            return false;
        }
    }
    true
}

// Words that are not those of a node of their kind, by the kind; parent is the node's number.
fn is_unfit(node: NodeWords, variables: u32, parent: u32) -> bool
    ensures { result ≡ not (well_formed variables parent node) }
{
    let kind = node.kind;
    let x = node.variable;
    let children = node.children;
    let count = children.count;
    let fit = children_fit(children, parent);
    match kind {
        0 => !((x == 0) & (count == 0) & fit),
        1 => !((x == 0) & (count == 0) & fit),
        2 => !((x < variables) & (count == 0) & fit),
        3 => !((x < variables) & (count == 0) & fit),
        4 => !((x < variables) & (count == 2) & fit),
        5 => !((x == 0) & ((2 <= count) & (count <= (MAX_CHILDREN as u32))) & fit),
        6.. => true,
    }
}

// Node i is malformed.
fn is_malformed(words: &[u32], variables: u32, i: usize) -> bool
    requires { (i < max_nodes) × (words_for (i + 1) ≤ length words.now) }
    ensures { result ≡ malformed variables words.now i }
{
    is_unfit(words_at(words, i), variables, i as u32)
}

// 22: the lowest malformed node.
fn first_malformed(words: &[u32], variables: u32, n: usize) -> Option<usize>
    requires { (n ≤ max_nodes) × (words_for n ≤ length words.now) }
    ensures { result ≡ first n (malformed variables words.now) }
{
    for i in 0..n {
        if is_malformed(words, variables, i) {
            return Some(i);
        }
    }
    None
}

// 21, then 22 with its lowest node.
pub fn check_words(words: &[u32], variables: u32, nodes: u32) -> Result<(), Refusal>
    ensures { outcome result ≡ check_words variables nodes words.now }
{
    if !in_range(words, variables, nodes) {
        return Err(Refusal::Sizes);
    }
    match first_malformed(words, variables, nodes as usize) {
        Some(i) => Err(Refusal::Malformed(i as u32)),
        None => Ok(()),
    }
}
