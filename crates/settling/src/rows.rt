// A term of one side with the terms of the other: of each join with no kept term inside, a least one is listed and kept.
ghost use Rattle.std.specs.Prelude.{◌≡◌, true, false, ◌*◌, ◌≤◌, ◌<◌, length};
ghost use mathlib.Core.List.{Memᴰ};
ghost use Rattle.terms.specs.Joins.{joins};
ghost use Rattle.terms.specs.Term.{conflict};
ghost use Rattle.lists.specs.List.{SameLoan, held, nth, slots, terms_in};
ghost use Rattle.lists.specs.Capacity.{max_capacity};
ghost use Rattle.hints.specs.Scratch.{max_words, bit_words, HasColumns};
ghost use Rattle.settling.specs.Growth.{Growing, Grown};
ghost use Rattle.settling.specs.Sides.{least_between, Covered, Settled, SettledFrom};
ghost use Rattle.settling.specs.Tries.{Tries};

use super::counts::{Counts, keep};
use super::strike::strike;
use lists::list::{TermBuffer, TermList};
use terms::Term;

// The places of two terms, one of each side, how far the list has grown, and whether the columns are made.
#[derive(Clone, Copy)]
struct Pair {
    low: usize,
    high: usize,
    counts: Counts,
    made: bool,
}

// Whether the pair is settled, and what was spent on the row then.
#[derive(Clone, Copy)]
struct Tried {
    settled: bool,
    cost: usize,
}

// Makes the columns of b, unless they are made.
fn make_columns(columns: &mut [u64], b: TermList, made: bool)
    requires { HasColumns (bit_words (length b.positives.now)) columns.old
        × (length b.positives.now ≤ max_capacity) }
{
    if !made {
        hints::fill_columns(columns, b);
    }
}

// Looks for a kept term inside the join of t and the term of b at a place: at its hint, and where that fails the hints of the row are
// renewed, once a row.
fn try_kept(
    kept: &[u64],
    hints: &mut [u16],
    columns: &mut [u64],
    left: &mut [u64],
    b: TermList,
    t: Term,
    pair: Pair,
) -> Tried
    requires { (length kept.now ≤ 2 * max_capacity) × (2 * pair.counts.kept ≤ length kept.now)
        × HasColumns (bit_words (length b.positives.now)) columns.old × (length left.old ≡ max_words)
        × (length b.positives.now ≤ max_capacity) × (pair.high < length b.positives.now) }
    ensures { Tries kept.now pair.counts.kept t (nth b.entry pair.high) result }
{
    let at = pair.high;
    let made = pair.made;
    let counts = pair.counts;
    let count = counts.kept;
    let cost = counts.cost;
    let u = b.at(at);
    if terms::conflict(t, u) {
        return Tried {
            settled: true,
            cost,
        };
    }
    let q = terms::join(t, u);
    if hints::covers(kept, count, hints::hint_at(hints, at), q) {
        return Tried {
            settled: true,
            cost,
        };
    }
    if cost > 0 {
        return Tried {
            settled: false,
            cost,
        };
    }
    make_columns(columns, b, made);
    let spent = hints::renew(hints, left, columns, kept, count, b, at, t);
    let settled = hints::covers(kept, count, hints::hint_at(hints, at), q);
    Tried {
        settled,
        cost: spent,
    }
}

// Lists and keeps a least join inside the join q.
fn add_least(
    list: &mut TermBuffer,
    kept: &mut [u64],
    a: TermList,
    b: TermList,
    counts: Counts,
    q: Term,
) -> Option<Counts>
    requires growing { Growing a b (slots list.old) kept.old counts }
    requires fact { Memᴰ q (joins (terms_in a) (terms_in b)) }
    ensures made { Grown (least_between a.entry b.entry)
        (least_between a.entry b.entry)
        (λ l. Covered (least_between a.entry b.entry) l q)
        (slots list.old) counts.listed
        (slots list.new) kept.new result }
    ensures same_loan { SameLoan list.old list.new }
{
    let m = strike(a, b, q);
    keep(list, kept, counts, m)
}

// Settles a pair that is not yet settled.
fn settle(
    list: &mut TermBuffer,
    kept: &mut [u64],
    a: TermList,
    b: TermList,
    pair: Pair,
    tried: Tried,
) -> Option<Counts>
    requires growing { Growing a b (slots list.old) kept.old pair.counts }
    requires low_in_bounds { (pair.low < length a.positives.now) × (pair.high < length b.positives.now) }
    requires settled { (tried.settled ≡ true → Settled (least_between a b)
        (held (slots list.old) pair.counts.listed)
        (nth a pair.low) (nth b pair.high))
        × (tried.settled ≡ false → conflict (nth a pair.low) (nth b pair.high) ≡ false) }
    ensures made { Grown (least_between a.entry b.entry)
        (least_between a.entry b.entry)
        (λ l. Settled (least_between a.entry b.entry) l
        (nth a.entry pair.low) (nth b.entry pair.high))
        (slots list.old) pair.counts.listed
        (slots list.new) kept.new result }
    ensures same_loan { SameLoan list.old list.new }
{
    let counts = pair.counts;
    let spent = Counts {
        cost: tried.cost,
        ..counts
    };
    if tried.settled {
        return Some(spent);
    }
    let i = pair.low;
    let j = pair.high;
    let q = terms::join(a.at(i), b.at(j));
    add_least(list, kept, a, b, spent, q)
}

// Makes the last kept term, where it is new, the hint of the pairs of the row that it settles.
fn spread_new(
    kept: &[u64],
    hints: &mut [u16],
    columns: &[u64],
    left: &mut [u64],
    words: usize,
    t: Term,
    before: usize,
    after: usize,
)
    requires { (2 * after ≤ length kept.now) × (words ≤ max_words) × (length left.old ≡ max_words) × HasColumns words columns.now }
{
    if before < after {
        let k = after - 1;
        let m = hints::kept_at(kept, k);
        hints::spread(hints, left, columns, words, hints::missing(m, t), k);
    }
}

// What is listed so far, a place of the one side, the first place of the other, whether that side's columns are made, and the hint of the
// row's term.
#[derive(Clone, Copy)]
pub struct Row {
    pub counts: Counts,
    pub at: usize,
    pub from: usize,
    pub made: bool,
    pub hint: Option<usize>,
}

// Settles a term of a with the terms of b from a place on.
fn join_row(
    list: &mut TermBuffer,
    kept: &mut [u64],
    hints: &mut [u16],
    columns: &mut [u64],
    a: TermList,
    b: TermList,
    row: Row,
) -> Option<Counts>
    requires growing { Growing a b (slots list.old) kept.old row.counts }
    requires at_in_bounds { (row.at < length a.positives.now) × HasColumns (bit_words (length b.positives.now)) columns.old }
    ensures made { Grown (least_between a.entry b.entry)
        (least_between a.entry b.entry)
        (λ l. SettledFrom (least_between a.entry b.entry) l
        (nth a.entry row.at) b.entry row.from)
        (slots list.old) row.counts.listed
        (slots list.new) kept.new result }
    ensures same_loan { SameLoan list.old list.new }
{
    let at = row.at;
    let made = row.made;
    let start = row.counts;
    let t = a.at(at);
    let words = hints::bit_words(b.len());
    let mut left = [0u64; hints::MAX_WORDS];
    let mut counts = Counts { cost: 0, ..start };
    for j in row.from..b.len() {
        let pair = Pair {
            low: at,
            high: j,
            counts,
            made,
        };
        let tried = try_kept(kept, hints, columns, &mut left, b, t, pair);
        let next = settle(list, kept, a, b, pair, tried)?;
        spread_new(
            kept,
            hints,
            columns,
            &mut left,
            words,
            t,
            counts.kept,
            next.kept,
        );
        counts = next;
    }
    Some(counts)
}

// Settles a term of a with the terms of b from a place on: at once where the kept term at its hint is inside it.
pub fn settle_row(
    list: &mut TermBuffer,
    kept: &mut [u64],
    hints: &mut [u16],
    columns: &mut [u64],
    a: TermList,
    b: TermList,
    row: Row,
) -> Option<Counts>
    requires growing { Growing a b (slots list.old) kept.old row.counts }
    requires at_in_bounds { (row.at < length a.positives.now) × HasColumns (bit_words (length b.positives.now)) columns.old }
    ensures made { Grown (least_between a.entry b.entry)
        (least_between a.entry b.entry)
        (λ l. SettledFrom (least_between a.entry b.entry) l
        (nth a.entry row.at) b.entry row.from)
        (slots list.old) row.counts.listed
        (slots list.new) kept.new result }
    ensures same_loan { SameLoan list.old list.new }
{
    let at = row.at;
    let counts = row.counts;
    let count = counts.kept;
    let hint = row.hint;
    if hints::covers(kept, count, hint, a.at(at)) {
        return Some(counts);
    }
    join_row(list, kept, hints, columns, a, b, row)
}
