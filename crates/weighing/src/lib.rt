// Weights of variables: their test, and the weight of a term, which is looked up in sums that are made once, a byte of the term's
// variables at a time.
#![tactic(auto)]

ghost use Rattle.std.specs.Prelude.{◌≡◌, not, ℕ, ◌+◌, ◌≤◌, ◌<◌, eqb, length, get_or};
ghost use Rattle.terms.specs.Lists.{any};
ghost use Rattle.terms.specs.Term.{variables};
ghost use Rattle.weighing.specs.Weights.{fitting, Bounded};
ghost use Rattle.weighing.specs.Sums.{sum_count, summed, Sums, Doubled, FilledByte};

use terms::Term;

// What a variable weighs at most.
pub const MAX_WEIGHT: u32 = 1000;

// How many bytes the variables of a listing take.
const BYTES: usize = 5;

// How many variables a byte has.
const BYTE_BITS: usize = 8;

// How many values a byte has.
const BYTE_VALUES: usize = 256;

// How many sums there are: one for each value of each byte.
pub const SUMS: usize = BYTES * BYTE_VALUES;

// There is one weight for each variable, and each is at most 1,000.
pub fn fit(weights: &[u32], variables: u32) -> bool
    ensures { result ≡ fitting variables weights.now }
{
    weights.len() == variables as usize && weights.iter().all(|w| *w <= MAX_WEIGHT)
}

// Some weight is not 0.
pub fn any_weight(weights: &[u32]) -> bool
    ensures { result ≡ any (λ v. not (eqb v 0)) weights.now }
{
    weights.iter().any(|w| *w != 0)
}

// The weight of variable x; 0 where there is none.
fn weight_at(weights: &[u32], x: usize) -> u16
    requires { Bounded weights.now }
    ensures { result ≡ get_or weights.now x 0 }
{
    if x < weights.len() {
        return weights[x] as u16;
    }
    0
}

// Makes the n sums behind the first n from `at` on: each is one of those with w added.
fn double(sums: &mut [u16], at: usize, n: usize, w: u16)
    requires { (at + n + n ≤ length sums.old) × ((d : ℕ) → d < n → get_or sums.old (at + d) 0 + w < 65536) }
    ensures { Doubled sums.old at n w n sums.new }
{
    for d in 0..n {
        sums[at + n + d] = sums[at + d] + w;
    }
}

// Makes the sums of byte k. Each of its variables doubles their number: the sets that have it are those made so far, with it.
fn fill_byte(sums: &mut [u16], weights: &[u32], k: usize)
    requires { (length sums.old ≡ sum_count) × (k < 5) × Bounded weights.now }
    ensures { FilledByte weights.now k 8 sums.old sums.new }
{
    let at = BYTE_VALUES * k;
    sums[at] = 0;
    for b in 0..BYTE_BITS {
        double(sums, at, 1usize << b, weight_at(weights, BYTE_BITS * k + b));
    }
}

// Makes the sums of the weights, whatever was there before.
pub fn fill(sums: &mut [u16], weights: &[u32])
    requires { (length sums.old ≡ sum_count) × Bounded weights.now }
    ensures { Sums weights.now sums.new }
{
    for k in 0..BYTES {
        fill_byte(sums, weights, k);
    }
}

// The sum at place i.
fn sum_at(sums: &[u16], i: usize) -> u32
    requires { i < length sums.now }
    ensures { (result ≡ get_or sums.now i 0) × (result < 65536) }
{
    sums[i] as u32
}

// The weight of a mask's variables, by the sums.
fn sum_bytes(sums: &[u16], v: u64) -> u32
    requires { length sums.now ≡ sum_count }
    ensures { result ≡ summed sums.now v }
{
    sum_at(sums, (v % 256) as usize)
        + sum_at(sums, 256 + ((v >> 8) % 256) as usize)
        + sum_at(sums, 512 + ((v >> 16) % 256) as usize)
        + sum_at(sums, 768 + ((v >> 24) % 256) as usize)
        + sum_at(sums, 1024 + ((v >> 32) % 256) as usize)
}

// The weight of a term, by the sums.
pub fn weigh(sums: &[u16], t: Term) -> u32
    requires { length sums.now ≡ sum_count }
    ensures { result ≡ summed sums.now (variables t) }
{
    sum_bytes(sums, terms::variables(t))
}
