// What the words of a node stand for.
ghost use Rattle.std.specs.Prelude.{◌≡◌, ◌+◌, ◌≤◌, ◌<◌, length};
ghost use Rattle.table.specs.Gate.{gate_of, decoded_at};
ghost use Rattle.table.specs.Layout.{words_for};
ghost use Rattle.table.specs.Node.{max_nodes};

use super::layout::{Children, words_at};

// The kind of a node, with the words that the kind uses. The children of a conjunction stand beside it, since no enum holds an array.
#[derive(Clone, Copy)]
pub enum Gate {
    Constant(bool),
    // the sign, and the variable
    Literal(bool, u32),
    // the variable, the child where it is no, and the child where it is yes
    Decision(u32, u32, u32),
    Conjunction,
    // a kind above 5
    Unknown,
}

// A node: its gate and its children.
#[derive(Clone, Copy)]
pub struct Decoded {
    pub gate: Gate,
    pub children: Children,
}

// The gate of a kind with its variable, low and high being the first two children.
fn gate_of(kind: u32, variable: u32, low: u32, high: u32) -> Gate
    ensures { result ≡ gate_of kind variable low high }
{
    match kind {
        0 => Gate::Constant(false),
        1 => Gate::Constant(true),
        2 => Gate::Literal(true, variable),
        3 => Gate::Literal(false, variable),
        4 => Gate::Decision(variable, low, high),
        5 => Gate::Conjunction,
        6.. => Gate::Unknown,
    }
}

// Node i of the table.
pub fn decode_at(words: &[u32], i: usize) -> Decoded
    requires { (i < max_nodes) × (words_for (i + 1) ≤ length words.now) }
    ensures { result ≡ decoded_at words.now i }
{
    let node = words_at(words, i);
    let children = node.children;
    let nodes = children.nodes;
    let gate = gate_of(node.kind, node.variable, nodes[0], nodes[1]);
    Decoded { gate, children }
}
