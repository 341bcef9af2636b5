// Questions to a circuit: evaluation, model count, tests of a term, and reduction.
#![tactic(auto)]

ghost use Rattle.std.specs.Prelude.{◌≡◌};
ghost use Rattle.table.specs.Outcome.{outcome};
ghost use Rattle.queries.specs.Queries.{evaluation, model_count, implicant_test, prime_test, reduction};

mod primes;

use table::Refusal;
use terms::Term;

// The circuit's value at an assignment. Cost: that of the check, and a constant number of steps a node.
pub fn evaluate(words: &[u32], variables: u32, nodes: u32, assignment: u64) -> Result<bool, Refusal>
    ensures { outcome result ≡ evaluation variables nodes words.now assignment }
{
    checks::check_assignment(words, variables, nodes, assignment)?;
    Ok(passes::value(words, nodes as usize, assignment))
}

// How many assignments satisfy the circuit. Cost: that of the check, and a constant number of steps a node.
pub fn count_models(words: &[u32], variables: u32, nodes: u32) -> Result<u64, Refusal>
    ensures { outcome result ≡ model_count variables nodes words.now }
{
    checks::check(words, variables, nodes)?;
    Ok(passes::models_under(words, variables, nodes as usize, terms::EMPTY))
}

// Whether the term is an implicant. Cost: that of the check, and a constant number of steps a node.
pub fn implies(words: &[u32], variables: u32, nodes: u32, t: Term) -> Result<bool, Refusal>
    ensures { outcome result ≡ implicant_test variables nodes words.now t }
{
    checks::check_term(words, variables, nodes, t)?;
    Ok(passes::implied(words, nodes as usize, t))
}

// Whether the term is a prime implicant. Cost: that of the check, and of an implicant test for each literal.
pub fn is_prime(words: &[u32], variables: u32, nodes: u32, t: Term) -> Result<bool, Refusal>
    ensures { outcome result ≡ prime_test variables nodes words.now t }
{
    checks::check_term(words, variables, nodes, t)?;
    Ok(primes::is_prime_of(words, variables, nodes as usize, t))
}

// A satisfying assignment's literals, struck in turn from variable 0 on, each if the rest is still an implicant.
// Cost: that of the check, and of an implicant test for each variable.
pub fn reduce(words: &[u32], variables: u32, nodes: u32, assignment: u64) -> Result<Term, Refusal>
    ensures { outcome result ≡ reduction variables nodes words.now assignment }
{
    checks::check_assignment(words, variables, nodes, assignment)?;
    let n = nodes as usize;
    if !passes::value(words, n, assignment) {
        return Err(Refusal::Unsatisfied);
    }
    let all = primes::term_of(assignment, variables);
    Ok(primes::reduced(words, variables, n, all))
}
