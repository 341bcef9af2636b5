// All joins of two lists of terms, in order, each once: the terms of a conjunction of two without a common variable.
#![tactic(auto)]

ghost use Rattle.std.specs.Prelude.{[], ◌∷◌, ◌≤◌, length};
ghost use Rattle.terms.specs.Joins.{joins_with, joins};
ghost use Rattle.terms.specs.Lists.{Rising};
ghost use Rattle.terms.specs.Order.{before};
ghost use Rattle.lists.specs.List.{SameLoan, held, slots, terms_in};
ghost use Rattle.joins.specs.Added.{Added};

use lists::list::{TermBuffer, TermList};
use terms::Term;

// Adds the join of two terms, if they have no conflict. How many terms there are then; none where they are more than there is room for.
fn add_join(list: &mut TermBuffer, count: usize, t: Term, u: Term) -> Option<usize>
    requires { (count ≤ length list.old.positives.now) × Rising (before []) (held (slots list.old) count) }
    ensures made { Added (joins_with t (u ∷ [])) (slots list.old) count (slots list.new) result }
    ensures same_loan { SameLoan list.old list.new }
{
    if terms::conflict(t, u) {
        return Some(count);
    }
    insertion::insert(list, count, terms::join(t, u))
}

// Adds the joins of t with the terms of a list.
fn join_each(list: &mut TermBuffer, start: usize, others: TermList, t: Term) -> Option<usize>
    requires { (start ≤ length list.old.positives.now) × Rising (before []) (held (slots list.old) start) }
    ensures made { Added (joins_with t (terms_in others.entry)) (slots list.old) start (slots list.new) result }
    ensures same_loan { SameLoan list.old list.new }
{
    let mut count = start;
    for k in 0..others.len() {
        count = add_join(list, count, t, others.at(k))?;
    }
    Some(count)
}

// Makes the joins of the terms of a with those of b. For each term of b all of a: where the variables of a are the lower ones, as in texts
// that name them in turn, the joins come in order.
pub fn conjunction(list: &mut TermBuffer, a: TermList, b: TermList) -> Option<usize>
    ensures made { Added (joins (terms_in b.entry) (terms_in a.entry)) (slots list.old) 0 (slots list.new) result }
    ensures same_loan { SameLoan list.old list.new }
{
    let mut count = 0;
    for k in 0..b.len() {
        count = join_each(list, count, a, b.at(k))?;
    }
    Some(count)
}
