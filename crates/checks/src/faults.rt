// The rules 23 to 25 of the check: for each, the lowest node that breaks it.
ghost use Rattle.std.specs.Prelude.{◌≡◌, false, ◌<◌};
ghost use Rattle.masks.specs.Numbers.{first};
ghost use Rattle.table.specs.Node.{max_nodes};
ghost use Rattle.table.specs.Words.{Readable};
ghost use Rattle.circuits.specs.Check.{parentless, undecomposable, unreduced, is_child};
ghost use Rattle.circuits.specs.Function.{support};
ghost use Rattle.passes.specs.Tables.{Holds};

use super::children::{are_disjoint, has_false, is_false, mark};
use table::MAX_NODES;
use table::gates::{Gate, decode_at};

// Every node below n that is some node's child.
fn marked_children(words: &[u32], n: usize) -> [bool; MAX_NODES as usize]
    requires { Readable n words.now }
    ensures { Holds false (is_child words.now n) max_nodes result }
{
    let mut marked = [false; MAX_NODES as usize];
    for j in 0..n {
        let node = decode_at(words, j);
        mark(&mut marked, node.children);
    }
    marked
}

// 23: the lowest node, not the last, that is nobody's child.
pub fn first_parentless(words: &[u32], n: usize) -> Option<usize>
    requires { Readable n words.now }
    ensures { result ≡ first n (parentless words.now n) }
{
    let marked = marked_children(words, n);
    (0..n).find(|i| (*i + 1 < n) & !marked[*i])
}

// A variable meets itself at node i: it is under two children, or it is the decision's own and under a child.
fn is_undecomposable(
    words: &[u32],
    n: usize,
    i: usize,
    supports: &[u64; MAX_NODES as usize],
) -> bool
    requires { Readable n words.now × (i < n) × Holds 0 (support words.now) n supports.now }
    ensures { result ≡ undecomposable words.now i }
{
    let node = decode_at(words, i);
    match node.gate {
        Gate::Constant(_) => false,
        Gate::Literal(_, _) => false,
        Gate::Decision(x, a, b) => {
            masks::has_bit(supports[a as usize], x) | masks::has_bit(supports[b as usize], x)
        }
        Gate::Conjunction => !are_disjoint(node.children, supports),
        Gate::Unknown => false,
    }
}

// 24: the lowest node at which a variable meets itself.
pub fn first_undecomposable(words: &[u32], n: usize) -> Option<usize>
    requires { Readable n words.now }
    ensures { result ≡ first n (undecomposable words.now) }
{
    let supports = passes::supports(words, n);
    (0..n).find(|i| is_undecomposable(words, n, *i, &supports))
}

// Node i is a conjunction with a `false` child, or a decision with two.
fn is_unreduced(words: &[u32], n: usize, i: usize) -> bool
    requires { Readable n words.now × (i < n) }
    ensures { result ≡ unreduced words.now i }
{
    let node = decode_at(words, i);
    match node.gate {
        Gate::Constant(_) => false,
        Gate::Literal(_, _) => false,
        Gate::Decision(_, a, b) => is_false(words, a as usize) & is_false(words, b as usize),
        Gate::Conjunction => has_false(words, n, node.children),
        Gate::Unknown => false,
    }
}

// 25: the lowest node that is not reduced.
pub fn first_unreduced(words: &[u32], n: usize) -> Option<usize>
    requires { Readable n words.now }
    ensures { result ≡ first n (unreduced words.now) }
{
    (0..n).find(|i| is_unreduced(words, n, *i))
}
