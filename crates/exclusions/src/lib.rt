// Pairs of variables that exclude each other: their test, and the terms of a list that respect them. The pairs are folded into one mask a
// variable, so that the test of a term does not depend on how many pairs there are.
#![tactic(auto)]

ghost use Rattle.std.specs.Prelude.{◌≡◌, Bool, true, not, ◌^◌, ◌<◌, ◌≤◌, length, replicate};
ghost use Rattle.lists.specs.List.{SameLoan, slots, terms_in};
ghost use Rattle.exclusions.specs.Exclusions.{exclusions, distinct, proper, respects, Exclusions};
ghost use Rattle.exclusions.specs.Partners.{Folded, Filtered};

use lists::list::{TermBuffer, TermList};
use masks::{is_disjoint, lowest_bit, with_bit, without_bit};
use terms::Term;

// Two different variables below the number of variables.
fn is_distinct(x: u32, y: u32, variables: u32) -> bool
    ensures { result ≡ distinct variables x y }
{
    (x < variables) & (y < variables) & (x != y)
}

// Every pair is complete, and has two different variables below the number of variables.
pub fn fit(firsts: &[u32], seconds: &[u32], variables: u32) -> bool
    ensures { result ≡ proper variables (exclusions firsts.now seconds.now) }
{
    if seconds.len() != firsts.len() {
        return false;
    }
    for i in 0..firsts.len() {
        if !is_distinct(firsts[i], seconds[i], variables) {
            return false;
        }
    }
    true
}

// Folds the pairs into masks of zeros, one a variable: a variable's has those that it is first of a pair with. The first variables.
pub fn fold(partners: &mut [u64], firsts: &[u32], seconds: &[u32]) -> u64
    requires { (partners.old ≡ replicate (length partners.old) 0) × (length partners.old ≤ 64)
        × (proper (length partners.old) (exclusions firsts.now seconds.now) ≡ true) }
    ensures { Folded (exclusions firsts.now seconds.now) (length firsts.now)
        partners.new result × (result < 2 ^ length partners.old) }
{
    let mut heads = 0u64;
    for i in 0..firsts.len() {
        let x = firsts[i];
        partners[x as usize] = with_bit(partners[x as usize], seconds[i]);
        heads = with_bit(heads, x);
    }
    heads
}

// The term has the positive literals of both variables of some pair: a test for each of them that is the first of a pair.
fn violates(partners: &[u64], heads: u64, t: Term) -> bool
    requires { (heads < 2 ^ length partners.now) × (length partners.now ≤ 64) }
    ensures { (e : Exclusions) → Folded e (length e.firsts) partners.now heads → result ≡ not (respects e t) }
{
    let mut rest = heads & t.positive;
    while rest != 0 {
        let x = lowest_bit(rest);
        if !is_disjoint(partners[x as usize], t.positive) {
            return true;
        }
        rest = without_bit(rest, x);
    }
    false
}

// Copies the terms of a list that respect the pairs, in their order, to the front of slices of zeros: how many they are.
pub fn filter(kept: &mut TermBuffer, list: TermList, partners: &[u64], heads: u64) -> usize
    requires room { (length list.positives.now ≤ length kept.old.positives.now)
        × (heads < 2 ^ length partners.now) × (length partners.now ≤ 64) }
    requires zeros { (b : Bool) → slots kept.old b ≡ replicate (length kept.old.positives.now) 0 }
    ensures filtered { (e : Exclusions) → Folded e (length e.firsts) partners.now heads
        → Filtered e (terms_in list.entry) (length kept.old.positives.now) (slots kept.new) result }
    ensures same_loan { SameLoan kept.old kept.new }
{
    let mut count = 0;
    for k in 0..list.len() {
        let t = list.at(k);
        if !violates(partners, heads, t) {
            kept.positives[count] = t.positive;
            kept.negatives[count] = t.negative;
            count += 1;
        }
    }
    count
}
