// The terms of one side: each is listed as it is, and kept, where a term of the other side is inside it, and else with the literal of the
// decision's variable.
ghost use Rattle.lists.specs.List.{SameLoan, nth, slots, terms_in};
ghost use Rattle.std.specs.Prelude.{◌<◌, length};
ghost use Rattle.subsumption.specs.Ahead.{FoundInside};
ghost use Rattle.settling.specs.Growth.{Grown};
ghost use Rattle.decisions.specs.Extended.{Extending, side_terms, ListsOne, ListsSide};
ghost use Rattle.settling.specs.Sides.{least_between};

use lists::MAX_CAPACITY;
use lists::list::{TermBuffer, TermList};
use settling::counts::{Counts, keep};
use terms::Term;

// A literal: a variable and its sign.
#[derive(Clone, Copy)]
pub struct Literal {
    pub variable: u32,
    pub sign: bool,
}

// A place of the side, and that of a term of the other side inside the term there, if one was found.
#[derive(Clone, Copy)]
struct One {
    at: usize,
    found: Option<usize>,
}

// Lists the term at a place.
fn list_one(
    list: &mut TermBuffer,
    kept: &mut [u64],
    a: TermList,
    b: TermList,
    literal: Literal,
    counts: Counts,
    one: One,
) -> Option<Counts>
    requires extending { Extending literal.variable a b (slots list.old) kept.old
        counts }
    requires at_in_bounds { (one.at < length a.positives.now) × FoundInside b (nth a one.at) one.found }
    ensures made { Grown
        (side_terms literal.variable literal.sign (terms_in a.entry)
        (terms_in b.entry))
        (least_between a.entry b.entry)
        (ListsOne literal.variable literal.sign (terms_in b.entry)
        (nth a.entry one.at))
        (slots list.old) counts.listed
        (slots list.new) kept.new result }
    ensures same_loan { SameLoan list.old list.new }
{
    let at = one.at;
    let found = one.found;
    let t = a.at(at);
    match found {
        Some(_) => keep(list, kept, counts, t),
        None => {
            let u = terms::extend(t, literal.variable, literal.sign);
            let listed = insertion::insert(list, counts.listed, u)?;
            Some(Counts { listed, ..counts })
        }
    }
}

// The next place to try first: the one after that where a term was found.
fn guess_after(found: Option<usize>, guess: usize) -> usize {
    match found {
        Some(k) if k < MAX_CAPACITY as usize => k + 1,
        _ => guess,
    }
}

// The place of the hint of a side's term: those of the low side, whose sign is no, stand in the first half.
fn hint_place(hints: &[u16], sign: bool, k: usize) -> usize {
    if sign && k < MAX_CAPACITY as usize {
        return hints.len() / 2 + k;
    }
    k
}

// Lists the terms of the side a. The hint of one that is kept is itself.
pub fn list_side(
    list: &mut TermBuffer,
    kept: &mut [u64],
    hints: &mut [u16],
    a: TermList,
    b: TermList,
    literal: Literal,
    start: Counts,
) -> Option<Counts>
    requires { Extending literal.variable a b (slots list.old) kept.old
        start }
    ensures made { Grown
        (side_terms literal.variable literal.sign (terms_in a.entry)
        (terms_in b.entry))
        (least_between a.entry b.entry)
        (ListsSide literal.variable literal.sign (terms_in a.entry)
        (terms_in b.entry))
        (slots list.old) start.listed
        (slots list.new) kept.new result }
    ensures same_loan { SameLoan list.old list.new }
{
    let mut counts = start;
    let mut end = 0;
    let mut guess = 0;
    for k in 0..a.len() {
        let t = a.at(k);
        end = subsumption::end_ahead(b, end, t);
        let found = subsumption::find_inside(b, end, guess, t);
        let one = One { at: k, found };
        let next = list_one(list, kept, a, b, literal, counts, one)?;
        if counts.kept < next.kept {
            hints::set_hint(hints, hint_place(hints, literal.sign, k), counts.kept);
        }
        guess = guess_after(found, guess);
        counts = next;
    }
    Some(counts)
}
