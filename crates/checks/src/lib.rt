// The check of a table, 21 to 25, and what the questions share: the check, and then 31 or 32.
#![tactic(auto)]

ghost use Rattle.std.specs.Prelude.{◌≡◌};
ghost use Rattle.table.specs.Outcome.{outcome};
ghost use Rattle.table.specs.Words.{first_fault, Readable};
ghost use Rattle.circuits.specs.Check.{node_rules, check};
ghost use Rattle.checks.specs.Arguments.{check_assignment, check_term};

mod children;
mod faults;

use table::Refusal;
use table::words::check_words;
use terms::Term;

// 23 to 25 of well-formed nodes, each with its lowest node.
fn check_nodes(words: &[u32], n: usize) -> Result<(), Refusal>
    requires { Readable n words.now }
    ensures { outcome result ≡ first_fault n (node_rules n words.now) }
{
    if let Some(i) = faults::first_parentless(words, n) {
        return Err(Refusal::Parentless(i as u32));
    }
    if let Some(i) = faults::first_undecomposable(words, n) {
        return Err(Refusal::Undecomposable(i as u32));
    }
    if let Some(i) = faults::first_unreduced(words, n) {
        return Err(Refusal::Unreduced(i as u32));
    }
    Ok(())
}

// The check of a table: 21 to 25 in order, each with its lowest node. Cost: a constant number of steps a child.
pub fn check(words: &[u32], variables: u32, nodes: u32) -> Result<(), Refusal>
    ensures { outcome result ≡ check variables nodes words.now }
{
    check_words(words, variables, nodes)?;
    check_nodes(words, nodes as usize)
}

// The check, then 31: an assignment with a bit out of range.
pub fn check_assignment(
    words: &[u32],
    variables: u32,
    nodes: u32,
    assignment: u64,
) -> Result<(), Refusal>
    ensures { outcome result ≡ check_assignment variables nodes words.now assignment }
{
    check(words, variables, nodes)?;
    if !masks::is_within(assignment, variables) {
        return Err(Refusal::Assignment);
    }
    Ok(())
}

// The check, then 32: masks that are no term over the variables.
pub fn check_term(words: &[u32], variables: u32, nodes: u32, t: Term) -> Result<(), Refusal>
    ensures { outcome result ≡ check_term variables nodes words.now t }
{
    check(words, variables, nodes)?;
    if !terms::is_term(t, variables) {
        return Err(Refusal::NotTerm);
    }
    Ok(())
}
