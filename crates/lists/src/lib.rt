// Lists of terms, and the search of two of them for a shorter join.
#![tactic(auto)]

ghost use Rattle.std.specs.Prelude.{◌≡◌};
ghost use Rattle.lists.specs.Scans.{short, narrowed, Found};

pub mod list;

use list::TermList;
use terms::Term;

// How many terms of a node there may be room for.
pub const MAX_CAPACITY: u32 = 4096;

// b is inside t, and a literal of t is neither in a nor in b.
fn is_short(t: Term, a: Term, b: Term) -> bool
    ensures { result ≡ short t a b }
{
    if terms::inside(b, t) {
        return !terms::inside(t, terms::join(a, b));
    }
    false
}

// The literals of c that b has too, if b is inside t; else all of c's.
fn narrow(t: Term, c: Term, b: Term) -> Term
    ensures { result ≡ narrowed t c b }
{
    if terms::inside(b, t) {
        return Term {
            positive: c.positive & b.positive,
            negative: c.negative & b.negative,
        };
    }
    c
}

// The places of a term of the list a and of one of the list b that are inside t and whose join lacks a literal of t. Once the inner
// loop found none, it is entered again only where it finds one: the join of a with what all of b inside t have in common lacks a
// literal too.
pub fn find_shorter(first: TermList, second: TermList, t: Term) -> Option<(usize, usize)>
    ensures { Found first.entry second.entry t result }
{
    let mut shared = terms::EMPTY;
    let mut found = None;
    'pairs: for k in 0..first.len() {
        let a = first.at(k);
        if is_short(t, shared, a) {
            let mut next = t;
            for l in 0..second.len() {
                let b = second.at(l);
                if is_short(t, a, b) {
                    found = Some((k, l));
                    break 'pairs;
                }
                next = narrow(t, next, b);
            }
            shared = next;
        }
    }
    found
}
