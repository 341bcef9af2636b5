// Prime implicants of an accepted circuit: the test of a term, and the reduction of an implicant.
ghost use Rattle.std.specs.Prelude.{◌≡◌, ◌&&◌, not, cond, ◌≤◌, ◌<◌, T};
ghost use Rattle.masks.specs.Numbers.{implied, every};
ghost use Rattle.table.specs.Outcome.{accepted};
ghost use Rattle.terms.specs.Prime.{implicant, prime, assignment_term, reduce};
ghost use Rattle.terms.specs.Term.{mentions, is_term, without};
ghost use Rattle.circuits.specs.Check.{check};
ghost use Rattle.queries.specs.Queries.{circuit};

use terms::Term;

// The term is still an implicant with its literal of x struck.
fn can_strike(words: &[u32], variables: u32, n: usize, t: Term, x: u32) -> bool
    requires { (check variables n words.now ≡ accepted) × T (is_term variables t) × (x < variables) }
    ensures { result ≡ (mentions t x && implicant variables (circuit n words.now) (without t x)) }
{
    masks::has_bit(terms::variables(t), x) && passes::implied(words, n, terms::without(t, x))
}

// No literal of the term can be struck.
fn is_minimal(words: &[u32], variables: u32, n: usize, t: Term) -> bool
    requires { (check variables n words.now ≡ accepted) × T (is_term variables t) }
    ensures { result ≡ every variables (λ x. implied (mentions t x)
        (not (implicant variables (circuit n words.now) (without t x)))) }
{
    for x in 0..variables {
        if can_strike(words, variables, n, t, x) {
            return false;
        }
    }
    true
}

// The term is a prime implicant.
pub fn is_prime_of(words: &[u32], variables: u32, n: usize, t: Term) -> bool
    requires { (check variables n words.now ≡ accepted) × T (is_term variables t) }
    ensures { result ≡ prime variables (circuit n words.now) t }
{
    passes::implied(words, n, t) && is_minimal(words, variables, n, t)
}

// The term of all literals of the assignment.
pub fn term_of(assignment: u64, variables: u32) -> Term
    requires { variables ≤ 40 }
    ensures { result ≡ assignment_term assignment variables }
{
    let mut t = terms::EMPTY;
    for k in 0..variables {
        t = terms::extend(t, k, masks::has_bit(assignment, k));
    }
    t
}

// The term with its literal of k struck, if the rest is still an implicant.
fn strike(words: &[u32], variables: u32, n: usize, t: Term, k: u32) -> Term
    requires { (check variables n words.now ≡ accepted) × T (is_term variables t) × (k < variables) }
    ensures { result ≡ cond (implicant variables (circuit n words.now) (without t k)) (without t k) t }
{
    let u = terms::without(t, k);
    if passes::implied(words, n, u) {
        return u;
    }
    t
}

// The implicant with its literals struck in turn, from variable 0 on.
pub fn reduced(words: &[u32], variables: u32, n: usize, t: Term) -> Term
    requires { (check variables n words.now ≡ accepted) × T (is_term variables t) }
    ensures { result ≡ reduce variables (circuit n words.now) t variables }
{
    let mut u = t;
    for k in 0..variables {
        u = strike(words, variables, n, u, k);
    }
    u
}
