// Subsumption: a term of a list in order that is inside a given term.
#![tactic(auto)]

ghost use Rattle.std.specs.Prelude.{◌≡◌, [], ◌≤◌, length};
ghost use Rattle.terms.specs.Lists.{Rising};
ghost use Rattle.terms.specs.Order.{before};
ghost use Rattle.lists.specs.List.{terms_in};
ghost use Rattle.subsumption.specs.Ahead.{ahead, NoneAhead, Searchable, FoundBefore, FoundInside};

use lists::list::TermList;
use terms::Term;

// u comes earlier than t by the first part of the order's key.
fn is_ahead(u: Term, t: Term) -> bool
    ensures { result ≡ ahead u t }
{
    terms::literals(u) < terms::literals(t)
}

// The first place from `from` on whose term is not ahead of t. Since the list is in order, none from there on is.
pub fn end_ahead(list: TermList, from: usize, t: Term) -> usize
    requires { (from ≤ length list.positives.now) × Rising (before []) (terms_in list) }
    ensures { (from ≤ result) × (result ≤ length list.entry.positives.now) × NoneAhead list.entry t result }
{
    for k in from..list.len() {
        if !is_ahead(list.at(k), t) {
            return k;
        }
    }
    list.len()
}

// The place of a term inside t among those before `end`.
fn scan(list: TermList, end: usize, t: Term) -> Option<usize>
    requires { end ≤ length list.positives.now }
    ensures { FoundBefore list.entry end t result }
{
    (0..end).find(|k| terms::inside(list.at(*k), t))
}

// The place of a term inside t: a guess first, then t itself by halving, then those before `end`, since from there on none is ahead of t.
pub fn find_inside(list: TermList, end: usize, guess: usize, t: Term) -> Option<usize>
    requires { Searchable list end t }
    ensures { FoundInside list.entry t result }
{
    if guess < list.len() && terms::inside(list.at(guess), t) {
        return Some(guess);
    }
    match insertion::locate(list, t) {
        Ok(k) => Some(k),
        Err(_) => scan(list, end, t),
    }
}
