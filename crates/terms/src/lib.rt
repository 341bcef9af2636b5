// Terms: conjunctions of literals, as two masks.
#![tactic(auto)]

ghost use Rattle.std.specs.Prelude.{◌≡◌, [], ◌<◌};
ghost use Rattle.terms.specs.Order.{before};
ghost use Rattle.terms.specs.Term.{has, is_term, variables, literals, without, extend, join, inside, conflict};

// The scope's row: bit i of `positive` marks fact i yes, bit i of `negative` marks it no.
#[derive(Clone, Copy)]
pub struct Term {
    pub positive: u64,
    pub negative: u64,
}

// The term with no literal.
pub const EMPTY: Term = Term {
    positive: 0,
    negative: 0,
};

// A term over n variables: no bit at n or above, none in both masks.
pub fn is_term(t: Term, n: u32) -> bool
    requires { n < 64 }
    ensures { result ≡ is_term n t }
{
    masks::is_within(t.positive, n)
        & masks::is_within(t.negative, n)
        & masks::is_disjoint(t.positive, t.negative)
}

// All variables with a literal in the term.
pub fn variables(t: Term) -> u64
    ensures { result ≡ variables t }
{
    t.positive | t.negative
}

// The number of literals.
pub fn literals(t: Term) -> u32
    ensures { result ≡ literals t }
{
    masks::count_bits(variables(t))
}

// The literal of x with the given sign is in the term.
pub fn has_literal(t: Term, sign: bool, x: u32) -> bool
    requires { x < 64 }
    ensures { result ≡ has t sign x }
{
    if sign {
        masks::has_bit(t.positive, x)
    } else {
        masks::has_bit(t.negative, x)
    }
}

// The term with no literal of x.
pub fn without(t: Term, x: u32) -> Term
    requires { x < 64 }
    ensures { result ≡ without t x }
{
    Term {
        positive: masks::without_bit(t.positive, x),
        negative: masks::without_bit(t.negative, x),
    }
}

// The term with the literal of x of the given sign.
pub fn extend(t: Term, x: u32, sign: bool) -> Term
    requires { x < 64 }
    ensures { result ≡ extend t x sign }
{
    if sign {
        return Term {
            positive: masks::with_bit(t.positive, x),
            negative: t.negative,
        };
    }
    Term {
        positive: t.positive,
        negative: masks::with_bit(t.negative, x),
    }
}

// The literals of both terms.
pub fn join(t: Term, u: Term) -> Term
    ensures { result ≡ join t u }
{
    Term {
        positive: t.positive | u.positive,
        negative: t.negative | u.negative,
    }
}

// Each literal of t is one of u.
pub fn inside(t: Term, u: Term) -> bool
    ensures { result ≡ inside t u }
{
    masks::is_subset(t.positive, u.positive) && masks::is_subset(t.negative, u.negative)
}

// Some variable has different signs in t and u.
pub fn conflict(t: Term, u: Term) -> bool
    ensures { result ≡ conflict t u }
{
    !(masks::is_disjoint(t.positive, u.negative) & masks::is_disjoint(t.negative, u.positive))
}

// The strict order of terms, without weights.
pub fn before(t: Term, u: Term) -> bool
    ensures { result ≡ before [] t u }
{
    let a = literals(t);
    let b = literals(u);
    if a != b {
        return a < b;
    }
    let v = variables(t);
    let w = variables(u);
    if v != w {
        return v < w;
    }
    t.positive < u.positive
}
