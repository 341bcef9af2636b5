// What is made of a conjunction from what stands at its children in an array, the last child first.
ghost use Rattle.std.specs.Prelude.{false, ◌≡◌, ◌-◌, ◌*◌, ◌/◌, ◌^◌, ◌≤◌, get_or};
ghost use Rattle.table.specs.Gate.{child_list, ChildrenBelow};
ghost use Rattle.table.specs.Node.{max_nodes};
ghost use Rattle.terms.specs.Lists.{all};
ghost use Rattle.circuits.specs.Function.{union};
ghost use Rattle.passes.specs.Models.{product_of, Multiplied};

use table::MAX_NODES;
use table::layout::Children;

// The union of the masks of the children.
pub fn union_of(children: Children, masks: &[u64; MAX_NODES as usize]) -> u64
    requires { ChildrenBelow max_nodes children }
    ensures { result ≡ union (λ c. get_or masks.now c 0) (child_list children) }
{
    let nodes = children.nodes;
    let mut all = 0u64;
    for k in (0..children.count as usize).rev() {
        let c = nodes[k] as usize;
        all = masks[c] | all;
    }
    all
}

// Whether it is true at each child.
pub fn all_of(children: Children, values: &[bool; MAX_NODES as usize]) -> bool
    requires { ChildrenBelow max_nodes children }
    ensures { result ≡ all (λ c. get_or values.now c false) (child_list children) }
{
    let nodes = children.nodes;
    let mut each = true;
    for k in (0..children.count as usize).rev() {
        let c = nodes[k] as usize;
        each = values[c] & each;
    }
    each
}

// The models of a child over its own variables, times those of the children after it over the others.
fn product(variables: u32, own: u32, first: u64, others: u64) -> u64
    requires { (variables ≤ 40) × (own ≤ variables) × (first / 2 ^ (variables - own) * (others / 2 ^ own) ≤ 2 ^ 40) }
    ensures { result ≡ first / 2 ^ (variables - own) * (others / 2 ^ own) }
{
    (first >> (variables - own)) * (others >> own)
}

// The product of the children's models; with no child every assignment is one.
pub fn product_of(
    children: Children,
    variables: u32,
    supports: &[u64; MAX_NODES as usize],
    models: &[u64; MAX_NODES as usize],
) -> u64
    requires children_below { ChildrenBelow max_nodes children × (variables ≤ 40) }
    requires multiplied { Multiplied variables (λ c. get_or models.now c 0) (λ c. get_or supports.now c 0) (child_list children) }
    ensures { result ≡ product_of variables (λ c. get_or models.now c 0) (λ c. get_or supports.now c 0)
        (child_list children) }
{
    let nodes = children.nodes;
    let mut all = 1u64 << variables;
    for k in (0..children.count as usize).rev() {
        let c = nodes[k] as usize;
        let own = masks::count_bits(supports[c]);
        all = product(variables, own, models[c], all);
    }
    all
}
