// The children of an inner form as they are read, and the words of the nodes that forms make.
ghost use Rattle.std.specs.Prelude.{◌≡◌, [], ◌≤◌, ◌<◌};
ghost use Rattle.table.specs.Layout.{max_children};
ghost use Rattle.table.specs.Node.{encoded};
ghost use Rattle.text.specs.Read.{no_children, with_child, operator_words};
ghost use Rattle.text.specs.Syntax.{most_forms};

use table::layout::{Children, MAX_CHILDREN, NodeWords};
use table::{CONJUNCTION, DECISION};
use text::head::Operator;

// How many forms an operator takes at least, and how many `pick` takes.
pub const LEAST_FORMS: u32 = 2;

// How many forms an operator takes at most.
pub fn most_forms(op: Operator) -> u32
    ensures { (result ≡ most_forms op) × (result ≤ max_children) }
{
    match op {
        Operator::Decision(_) => LEAST_FORMS,
        Operator::Conjunction => MAX_CHILDREN as u32,
    }
}

pub fn no_children() -> Children
    ensures { result ≡ no_children }
{
    Children {
        count: 0,
        nodes: [0u32; MAX_CHILDREN],
    }
}

// One child more.
pub fn with_child(children: Children, node: u32) -> Children
    requires { children.count < max_children }
    ensures { result ≡ with_child children node }
{
    let i = children.count;
    let mut more = children;
    more.nodes[i as usize] = node;
    more.count = i + 1;
    more
}

// The words of a node with no child.
pub fn leaf_words(kind: u32, variable: u32) -> NodeWords
    ensures { result ≡ encoded kind variable [] }
{
    NodeWords {
        kind,
        variable,
        children: no_children(),
    }
}

// The words of the node that an operator makes of these children.
pub fn operator_words(op: Operator, children: Children) -> NodeWords
    ensures { result ≡ operator_words op children }
{
    match op {
        Operator::Decision(x) => NodeWords {
            kind: DECISION,
            variable: x,
            children,
        },
        Operator::Conjunction => NodeWords {
            kind: CONJUNCTION,
            variable: 0,
            children,
        },
    }
}
