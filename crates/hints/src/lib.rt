// Hints: for each term of a list, the place of a kept term that may be inside its join with another term. A hint is only tried, so that
// nothing is promised of one but by `covers`, which tries it. Terms are also looked at 64 at a time, as the bits of words: `left` has the
// bits of those that still want a hint.
#![tactic(auto)]

ghost use Rattle.std.specs.Prelude.{◌≡◌, ℕ, true, ◌+◌, ◌*◌, ◌≤◌, ◌<◌, length, Some, MatchOption};
ghost use Rattle.masks.specs.Mask.{width};
ghost use Rattle.terms.specs.Term.{inside};
ghost use Rattle.lists.specs.Capacity.{max_capacity};
ghost use Rattle.hints.specs.Kept.{kept_at, Put};
ghost use Rattle.hints.specs.Scratch.{word_bits, max_words, bit_words, column_variables, column_count, HasColumns, max_cost};

use lists::MAX_CAPACITY;
use lists::list::TermList;
use terms::Term;

// The place of no kept term: what hints are before they are set.
pub const NO_PLACE: u16 = MAX_CAPACITY as u16;

// How many terms stand in one word, a bit each.
pub const WORD_BITS: usize = 64;

// How many words the bits of the longest list take.
pub const MAX_WORDS: usize = 64;

// How many variables have columns.
const VARIABLES: usize = 40;

// How many columns there are: one for each literal, those of the positive literals first.
pub const LITERALS: usize = 2 * VARIABLES;

// What a row costs at most: 1, and all words for each kept term.
pub const MAX_COST: usize = 1 + MAX_WORDS * (MAX_CAPACITY as usize);

// Kept term k.
pub fn kept_at(kept: &[u64], k: usize) -> Term
    requires { 2 * k + 2 ≤ length kept.now }
    ensures { result ≡ kept_at kept.now k }
{
    Term {
        positive: kept[2 * k],
        negative: kept[2 * k + 1],
    }
}

// Makes t kept term k.
pub fn put_kept(kept: &mut [u64], k: usize, t: Term)
    requires { 2 * k + 2 ≤ length kept.old }
    ensures { Put kept.old k t kept.new }
{
    kept[2 * k] = t.positive;
    kept[2 * k + 1] = t.negative;
}

// The kept term at the hint is one of the first `count` and inside t.
pub fn covers(kept: &[u64], count: usize, hint: Option<usize>, t: Term) -> bool
    requires { 2 * count ≤ length kept.now }
    ensures { result ≡ true → (h : ℕ) × (hint ≡ Some h) × (h < count) × (inside (kept_at kept.now h) t ≡ true) }
{
    let Some(h) = hint else {
        return false;
    };
    h < count && terms::inside(kept_at(kept, h), t)
}

// The hint of term k, `NO_PLACE` before it is set; none where there is no room for one.
pub fn hint_at(hints: &[u16], k: usize) -> Option<usize> {
    if k < hints.len() {
        return Some(hints[k] as usize);
    }
    None
}

// Makes a place the hint of term k, where there is room for it.
pub fn set_hint(hints: &mut [u16], k: usize, place: usize)
    ensures { length hints.new ≡ length hints.old }
{
    if k < hints.len() && place < 65536 {
        hints[k] = place as u16;
    }
}

// How many words the bits of n terms take.
pub fn bit_words(n: usize) -> usize
    requires { n ≤ max_capacity }
    ensures { (result ≡ bit_words n) × (result ≤ max_words) × (n ≤ word_bits * result) }
{
    (n + 63) / WORD_BITS
}

// The lowest variable of a mask, where it has one.
fn lowest(mask: u64) -> Option<usize>
    ensures { MatchOption result (mask ≡ 0) (λ v. (0 < mask) × (v ≤ width)) }
{
    if mask == 0 {
        return None;
    }
    Some(u64::trailing_zeros(mask) as usize)
}

// The mask without its lowest variable, where it has one.
fn without_lowest(mask: u64) -> u64
    ensures { (result ≤ mask) × (0 < mask → result < mask) }
{
    mask & mask.wrapping_sub(1)
}

// Where the column of literal l starts.
fn column_of(words: usize, l: usize) -> usize
    requires { (words ≤ max_words) × (l < column_count) }
    ensures { result + words ≤ column_count * words }
{
    words * l
}

// Sets a bit of entry `word` of a column for each variable of the mask: the literals of one sign start at column `first`.
fn mark(columns: &mut [u64], words: usize, first: usize, word: usize, bit: u64, mask: u64)
    requires { HasColumns words columns.old × (words ≤ max_words) × (first ≤ column_variables) × (word < words) }
{
    let mut rest = mask;
    while let Some(v) = lowest(rest) {
        if v >= VARIABLES {
            return;
        }
        let at = column_of(words, first + v) + word;
        columns[at] = columns[at] | bit;
        rest = without_lowest(rest);
    }
}

// The columns of a list: bit i % 64 of entry words * l + i / 64 says that term i has literal l, which is the positive one of variable l
// below 40 and from there on the negative one of variable l - 40.
pub fn fill_columns(columns: &mut [u64], list: TermList)
    requires { HasColumns (bit_words (length list.positives.now)) columns.old × (length list.positives.now ≤ max_capacity) }
    ensures { length columns.new ≡ length columns.old }
{
    let words = bit_words(list.len());
    columns[..LITERALS * words].fill(0);
    for i in 0..list.len() {
        let t = list.at(i);
        let bit = 1u64 << (i % WORD_BITS);
        mark(columns, words, 0, i / WORD_BITS, bit, t.positive);
        mark(columns, words, VARIABLES, i / WORD_BITS, bit, t.negative);
    }
}

// Leaves the bits of the terms that have the literals of both columns; says whether there are any.
fn narrow(bits: &mut [u64; MAX_WORDS], one: &[u64], other: &[u64]) -> bool
    requires { (length one.now ≤ max_words) × (length other.now ≡ length one.now) }
{
    let mut any = 0;
    for w in 0..one.len() {
        let all = bits[w] & (one[w] & other[w]);
        bits[w] = all;
        any = any | all;
    }
    any != 0
}

// Leaves the bits of the terms that have the literals of one sign of the mask's variables; says whether there are any. Two columns go at
// once, so that the bits are read and written half as often; the last one may go with itself.
fn narrow_all(
    bits: &mut [u64; MAX_WORDS],
    columns: &[u64],
    words: usize,
    first: usize,
    mask: u64,
) -> bool
    requires { HasColumns words columns.now × (words ≤ max_words) × (first ≤ column_variables) }
{
    let mut rest = mask;
    while let Some(v) = lowest(rest) {
        let others = without_lowest(rest);
        let u = lowest(others).unwrap_or(v);
        if v >= VARIABLES || u >= VARIABLES {
            return true;
        }
        let one = column_of(words, first + v);
        let other = column_of(words, first + u);
        if !narrow(
            bits,
            &columns[one..one + words],
            &columns[other..other + words],
        ) {
            return false;
        }
        rest = without_lowest(others);
    }
    true
}

// Makes a place the hint of the terms of one word of bits, whose first term is `first`.
fn set_hints(hints: &mut [u16], first: usize, bits: u64, place: usize)
    requires { first ≤ max_capacity }
{
    let mut rest = bits;
    while let Some(v) = lowest(rest) {
        set_hint(hints, first + v, place);
        rest = without_lowest(rest);
    }
}

// Makes a place the hint of the terms of the bits, which are left no more; says whether some are left then.
fn settle(
    hints: &mut [u16],
    left: &mut [u64],
    bits: &[u64; MAX_WORDS],
    words: usize,
    place: usize,
) -> bool
    requires { (words ≤ max_words) × (length left.old ≡ max_words) }
{
    let mut rest = 0;
    for w in 0..words {
        let found = bits[w];
        let more = left[w] & !found;
        left[w] = more;
        rest = rest | more;
        set_hints(hints, WORD_BITS * w, found, place);
    }
    rest != 0
}

// Makes a place the hint of those terms left that have all literals of d; says whether some are left then. With d the literals of a kept
// term that t lacks, the kept term is inside the join of t and each of those terms.
pub fn spread(
    hints: &mut [u16],
    left: &mut [u64],
    columns: &[u64],
    words: usize,
    d: Term,
    place: usize,
) -> bool
    requires { (words ≤ max_words) × (length left.old ≡ max_words) × HasColumns words columns.now }
    ensures { (length hints.new ≡ length hints.old)
        × (length left.new ≡ length left.old) }
{
    let mut bits = [0u64; MAX_WORDS];
    bits.copy_from_slice(left);
    if !narrow_all(&mut bits, columns, words, 0, d.positive) {
        return true;
    }
    if !narrow_all(&mut bits, columns, words, VARIABLES, d.negative) {
        return true;
    }
    settle(hints, left, &bits, words, place)
}

// The literals of m that t does not have.
pub fn missing(m: Term, t: Term) -> Term {
    Term {
        positive: m.positive & !t.positive,
        negative: m.negative & !t.negative,
    }
}

// The terms t and u join, and the kept term at u's hint does not cover their join.
fn is_open(kept: &[u64], count: usize, hint: Option<usize>, t: Term, u: Term) -> bool
    requires { 2 * count ≤ length kept.now }
{
    if terms::conflict(t, u) {
        return false;
    }
    !covers(kept, count, hint, terms::join(t, u))
}

// Finds those terms of the list, from a place on, that join with t and whose hint fails: they are left. Answers the join of t and all
// of them.
fn gather(
    left: &mut [u64],
    hints: &[u16],
    kept: &[u64],
    count: usize,
    list: TermList,
    from: usize,
    t: Term,
) -> Term
    requires count_in_bounds { (2 * count ≤ length kept.now) × (length left.old ≡ max_words) }
    requires few { length list.positives.now ≤ max_capacity }
{
    left[..bit_words(list.len())].fill(0);
    let mut all = t;
    for k in from..list.len() {
        let u = list.at(k);
        if is_open(kept, count, hint_at(hints, k), t, u) {
            left[k / WORD_BITS] = left[k / WORD_BITS] | (1u64 << (k % WORD_BITS));
            all = terms::join(all, u);
        }
    }
    all
}

// Spreads the kept terms inside `all` over the terms left, until none is. Answers what it cost: 1, and the words of bits for each kept term
// tried.
fn spread_kept(
    hints: &mut [u16],
    left: &mut [u64],
    columns: &[u64],
    kept: &[u64],
    count: usize,
    words: usize,
    all: Term,
    t: Term,
) -> usize
    requires words_le_max_words { (words ≤ max_words) × (length left.old ≡ max_words) × HasColumns words columns.now }
    requires count_le_max_capacity { (count ≤ max_capacity) × (2 * count ≤ length kept.now) }
    ensures { result ≤ max_cost }
{
    let mut cost = 1;
    for k in 0..count {
        let m = kept_at(kept, k);
        if terms::inside(m, all) {
            cost += words;
            if !spread(hints, left, columns, words, missing(m, t), k) {
                return cost;
            }
        }
    }
    cost
}

// Looks for kept terms inside the joins of t with those terms of the list, from a place on, whose hint fails, and makes them the hints.
// What it cost is answered, so that the caller goes on with the side that costs less.
pub fn renew(
    hints: &mut [u16],
    left: &mut [u64],
    columns: &[u64],
    kept: &[u64],
    count: usize,
    list: TermList,
    from: usize,
    t: Term,
) -> usize
    requires count_le_max_capacity { (count ≤ max_capacity) × (2 * count ≤ length kept.now) × (length left.old ≡ max_words) }
    requires has_columns { HasColumns (bit_words (length list.positives.now)) columns.now × (length list.positives.now ≤ max_capacity) }
    ensures { (result ≤ max_cost) × (length hints.new ≡ length hints.old)
        × (length left.new ≡ length left.old) }
{
    let words = bit_words(list.len());
    let all = gather(left, hints, kept, count, list, from, t);
    spread_kept(hints, left, columns, kept, count, words, all, t)
}
