// Passes over a table: what is computed of each node from its children's, in one loop, the lowest node first.
#![tactic(auto)]

ghost use Rattle.table.specs.Node.{max_nodes};
ghost use Rattle.std.specs.Prelude.{ℕ, ◌≡◌, true, false, ◌&&◌, cond, pred, ◌+◌, ◌-◌, ◌/◌, ◌^◌, ◌≤◌, ◌<◌, T};
ghost use Rattle.table.specs.Outcome.{accepted};
ghost use Rattle.table.specs.Words.{Readable};
ghost use Rattle.terms.specs.Completions.{models_under};
ghost use Rattle.terms.specs.Term.{has, is_term};
ghost use Rattle.circuits.specs.Check.{check};
ghost use Rattle.circuits.specs.Function.{function, support};
ghost use Rattle.passes.specs.Implied.{implied_at};
ghost use Rattle.passes.specs.Models.{scaled, ModelPass};
ghost use Rattle.passes.specs.Tables.{Holds};

mod children;

use children::{all_of, product_of, union_of};
use table::MAX_NODES;
use table::gates::{Gate, decode_at};
use terms::Term;

// The variables under node i, from those under its children.
fn support_at(words: &[u32], n: usize, i: usize, supports: &[u64; MAX_NODES as usize]) -> u64
    requires { Readable n words.now × (i < n) × Holds 0 (support words.now) i supports.now }
    ensures { result ≡ support words.now i }
{
    let node = decode_at(words, i);
    match node.gate {
        Gate::Constant(_) => 0,
        Gate::Literal(_, x) => masks::with_bit(0, x),
        Gate::Decision(x, a, b) => {
            masks::with_bit(supports[a as usize] | supports[b as usize], x)
        }
        Gate::Conjunction => union_of(node.children, supports),
        Gate::Unknown => 0,
    }
}

// Puts what a pass makes of the first n nodes into an array of `none`, the lowest first: the step is given a node, and what it made of those
// below. Where it makes f of each node from f of those below, f is what is made of all.
fn bottom_up<V: Copy, F: Fn(usize, &[V; MAX_NODES as usize]) -> V>(
    values: &mut [V; MAX_NODES as usize],
    n: usize,
    none: V,
    step: F,
)
    requires few { n ≤ max_nodes }
    requires made { (f : ℕ → V) × ((i : ℕ) (a : _) → i < n → Holds none f i a.now
        → F.pre step i a × ((r : V) → F.post step i a r → r ≡ f i)) }
    ensures { (f : ℕ → V) → ((i : ℕ) (a : _) (r : V) → i < n → Holds none f i a.now → F.post step i a r → r ≡ f i)
        → Holds none f n values.new }
{
    for i in 0..n {
        let v = step(i, values);
        values[i] = v;
    }
}

// The variables under each of the first n nodes. Cost: a constant number of steps a child.
pub fn supports(words: &[u32], n: usize) -> [u64; MAX_NODES as usize]
    requires { Readable n words.now }
    ensures { Holds 0 (support words.now) n result }
{
    let mut supports = [0; MAX_NODES as usize];
    bottom_up(&mut supports, n, 0, |i, supports| {
        support_at(words, n, i, supports)
    });
    supports
}

// Node i's value at the assignment s, from its children's values.
fn value_at(words: &[u32], n: usize, i: usize, s: u64, values: &[bool; MAX_NODES as usize]) -> bool
    requires { Readable n words.now × (i < n) × Holds false (λ c. function words.now c s) i values.now }
    ensures { result ≡ function words.now i s }
{
    let node = decode_at(words, i);
    match node.gate {
        Gate::Constant(b) => b,
        Gate::Literal(sign, x) => masks::has_bit(s, x) == sign,
        Gate::Decision(x, a, b) => {
            if masks::has_bit(s, x) {
                values[b as usize]
            } else {
                values[a as usize]
            }
        }
        Gate::Conjunction => all_of(node.children, values),
        Gate::Unknown => false,
    }
}

// The circuit's value at the assignment s. Cost: a constant number of steps a child.
pub fn value(words: &[u32], n: usize, s: u64) -> bool
    requires { Readable n words.now }
    ensures { result ≡ function words.now (pred n) s }
{
    let mut values = [false; MAX_NODES as usize];
    bottom_up(&mut values, n, false, |i, values| {
        value_at(words, n, i, s, values)
    });
    values[n - 1]
}

// Of a decision by x: the side that the term's literal of x takes, or both.
fn both_sides(t: Term, x: u32, low: bool, high: bool) -> bool
    requires { x < 64 }
    ensures { result ≡ cond (has t true x) high (cond (has t false x) low (low && high)) }
{
    if masks::has_bit(t.positive, x) {
        return high;
    }
    if masks::has_bit(t.negative, x) {
        return low;
    }
    low & high
}

// Whether the term is an implicant of node i, from the same of its children.
fn implied_at(
    words: &[u32],
    n: usize,
    i: usize,
    t: Term,
    implied: &[bool; MAX_NODES as usize],
) -> bool
    requires { Readable n words.now × (i < n) × Holds false (implied_at words.now t) i implied.now }
    ensures { result ≡ implied_at words.now t i }
{
    let node = decode_at(words, i);
    match node.gate {
        Gate::Constant(b) => b,
        Gate::Literal(sign, x) => terms::has_literal(t, sign, x),
        Gate::Decision(x, a, b) => both_sides(t, x, implied[a as usize], implied[b as usize]),
        Gate::Conjunction => all_of(node.children, implied),
        Gate::Unknown => false,
    }
}

// Whether the term is an implicant of the circuit. Cost: a constant number of steps a child.
pub fn implied(words: &[u32], n: usize, t: Term) -> bool
    requires { Readable n words.now }
    ensures { result ≡ implied_at words.now t (pred n) }
{
    let mut implied = [false; MAX_NODES as usize];
    bottom_up(&mut implied, n, false, |i, implied| {
        implied_at(words, n, i, t, implied)
    });
    implied[n - 1]
}

// All assignments of the variables, or none.
fn constant_models(variables: u32, value: bool) -> u64
    requires { variables ≤ 40 }
    ensures { result ≡ cond value (2 ^ variables) 0 }
{
    if value {
        return 1u64 << variables;
    }
    0
}

// Of a decision by x: the models of the side that the term's literal of x takes, or half the models of both.
fn average(t: Term, x: u32, low: u64, high: u64) -> u64
    requires { (x < 64) × (low ≤ 2 ^ 40) × (high ≤ 2 ^ 40) }
    ensures { result ≡ cond (has t true x) high (cond (has t false x) low ((low + high) / 2)) }
{
    if masks::has_bit(t.positive, x) {
        return high;
    }
    if masks::has_bit(t.negative, x) {
        return low;
    }
    (low + high) / 2
}

// The models of node i under the term, doubled for each literal, from those of its children.
fn models_at(
    words: &[u32],
    variables: u32,
    n: usize,
    i: usize,
    t: Term,
    supports: &[u64; MAX_NODES as usize],
    models: &[u64; MAX_NODES as usize],
) -> u64
    requires model_pass { ModelPass variables n words.now t supports.now × (i < n) }
    requires holds { Holds 0 (λ c. scaled variables (function words.now c) t) i models.now }
    ensures { result ≡ scaled variables (function words.now i) t }
{
    let node = decode_at(words, i);
    match node.gate {
        Gate::Constant(b) => constant_models(variables, b),
        Gate::Literal(sign, x) => {
            let low = constant_models(variables, !sign);
            average(t, x, low, constant_models(variables, sign))
        }
        Gate::Decision(x, a, b) => average(t, x, models[a as usize], models[b as usize]),
        Gate::Conjunction => product_of(node.children, variables, supports, models),
        Gate::Unknown => 0,
    }
}

// The models of an accepted circuit that agree with the term. Cost: a constant number of steps a child.
pub fn models_under(words: &[u32], variables: u32, n: usize, t: Term) -> u64
    requires { (check variables n words.now ≡ accepted) × T (is_term variables t) }
    ensures { result ≡ models_under variables (function words.now (pred n)) t }
{
    let supports = supports(words, n);
    let mut models = [0; MAX_NODES as usize];
    bottom_up(&mut models, n, 0, |i, models| {
        models_at(words, variables, n, i, t, &supports, models)
    });
    models[n - 1] >> terms::literals(t)
}
