// The terms of a decision from the terms of its sides: every search for a shorter join ends in a new term of the list.
#![tactic(auto)]

ghost use Rattle.std.specs.Prelude.{[], ◌*◌, ◌≤◌, length, replicate};
ghost use Rattle.terms.specs.Joins.{decision_terms};
ghost use Rattle.terms.specs.Lists.{sort};
ghost use Rattle.terms.specs.Order.{before};
ghost use Rattle.lists.specs.List.{SameLoan, slots, terms_in};
ghost use Rattle.lists.specs.Capacity.{max_capacity};
ghost use Rattle.hints.specs.Scratch.{max_words, column_count, HasHalves};
ghost use Rattle.insertion.specs.Filled.{Filled};
ghost use Rattle.settling.specs.Sides.{DecidedAt};
ghost use Rattle.decisions.specs.Sizes.{short_side};

mod side;

use hints::{LITERALS, NO_PLACE, WORD_BITS};
use lists::MAX_CAPACITY;
use lists::list::{TermBuffer, TermList};
use pairing::pairs::join_all;
use settling::counts::Counts;
use side::{Literal, list_side};

// How many least joins are few.
const FEW: usize = 64;

// How many least joins of short sides are kept.
const SOME: usize = 1024;

// How many terms a short side has at most.
const SHORT: usize = 64;

// How many terms a side of middle length has at most.
const MIDDLE: usize = 512;

// How many terms any side has at most.
const LONG: usize = MAX_CAPACITY as usize;

// How many columns two sides have.
const BOTH_COLUMNS: usize = 2 * LITERALS;

// Sizes of scratch: a kept term is two masks, both sides have hints, and both have columns of one word for each 64 terms.
const FEW_KEPT: usize = 2 * FEW;

const SOME_KEPT: usize = 2 * SOME;

const ALL_KEPT: usize = 2 * LONG;

const SHORT_HINTS: usize = 2 * SHORT;

const MIDDLE_HINTS: usize = 2 * MIDDLE;

const LONG_HINTS: usize = 2 * LONG;

const SHORT_COLUMNS: usize = BOTH_COLUMNS * SHORT / WORD_BITS;

const MIDDLE_COLUMNS: usize = BOTH_COLUMNS * MIDDLE / WORD_BITS;

const LONG_COLUMNS: usize = BOTH_COLUMNS * LONG / WORD_BITS;

// Makes the terms of a decision with scratch: kept terms, which are at hand, and where to try them first. What it holds before and after
// is left free; a least join that there is no room for is not kept.
fn decide(
    list: &mut TermBuffer,
    kept: &mut [u64],
    hints: &mut [u16],
    columns: &mut [u64],
    a: TermList,
    b: TermList,
    x: u32,
) -> Option<usize>
    requires decided_at { DecidedAt x a b }
    requires kept_len { length kept.old ≤ 2 * max_capacity }
    requires has_halves { HasHalves (length a.positives.now) (length b.positives.now) columns.old }
    ensures made { Filled (sort (before []) (decision_terms x (terms_in a.entry) (terms_in b.entry))) (slots list.old) (slots list.new) result }
    ensures same_loan { SameLoan list.old list.new }
{
    let none = Counts {
        listed: 0,
        kept: 0,
        cost: 0,
    };
    let no = Literal {
        variable: x,
        sign: false,
    };
    let yes = Literal {
        variable: x,
        sign: true,
    };
    let c = list_side(list, kept, hints, a, b, no, none)?;
    let d = list_side(list, kept, hints, b, a, yes, c)?;
    let e = join_all(list, kept, hints, columns, a, b, d)?;
    Some(e.listed)
}

// The same with scratch of these sizes.
fn decide_with<const KEPT: usize, const HINTS: usize, const COLUMNS: usize>(
    list: &mut TermBuffer,
    a: TermList,
    b: TermList,
    x: u32,
) -> Option<usize>
    requires decided_at { DecidedAt x a b }
    requires sizes { (KEPT ≤ 2 * max_capacity) × (HINTS ≤ 2 * max_capacity) × (COLUMNS ≤ 2 * column_count * max_words) }
    requires has_halves { HasHalves (length a.positives.now) (length b.positives.now) (replicate COLUMNS 0) }
    ensures made { Filled (sort (before []) (decision_terms x (terms_in a.entry) (terms_in b.entry))) (slots list.old) (slots list.new) result }
    ensures same_loan { SameLoan list.old list.new }
{
    let mut kept = [0u64; KEPT];
    let mut hints = [NO_PLACE; HINTS];
    let mut columns = [0u64; COLUMNS];
    decide(list, &mut kept, &mut hints, &mut columns, a, b, x)
}

// There are few least joins: they are joins of m and n terms, and no more than the capacity are listed.
fn has_few_joins(m: usize, n: usize, capacity: usize) -> bool
    requires { (m ≤ short_side) × (n ≤ short_side) }
{
    capacity <= FEW || m * n <= FEW
}

// Makes the terms of a decision by x from those of its sides: a where x is no, b where it is yes. Scratch is zeroed when it is made, so
// that short sides have little.
pub fn decision(list: &mut TermBuffer, a: TermList, b: TermList, x: u32) -> Option<usize>
    requires { DecidedAt x a b }
    ensures made { Filled (sort (before []) (decision_terms x (terms_in a.entry) (terms_in b.entry))) (slots list.old) (slots list.new) result }
    ensures same_loan { SameLoan list.old list.new }
{
    let longer = a.len().max(b.len());
    if longer > MIDDLE {
        return decide_with::<ALL_KEPT, LONG_HINTS, LONG_COLUMNS>(list, a, b, x);
    }
    if longer > SHORT {
        return decide_with::<ALL_KEPT, MIDDLE_HINTS, MIDDLE_COLUMNS>(list, a, b, x);
    }
    if has_few_joins(a.len(), b.len(), list.positives.len()) {
        return decide_with::<FEW_KEPT, SHORT_HINTS, SHORT_COLUMNS>(list, a, b, x);
    }
    decide_with::<SOME_KEPT, SHORT_HINTS, SHORT_COLUMNS>(list, a, b, x)
}
