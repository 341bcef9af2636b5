// The walk of a loading script: after each step the status of what is known, and how many prime implicants do not conflict with it.
#![tactic(auto)]

ghost use Rattle.std.specs.Prelude.{◌≡◌, true, not, ◌<◌, ◌≤◌, T, length};
ghost use Rattle.table.specs.Outcome.{accepted};
ghost use Rattle.steps.specs.Steps.{steps_in};
ghost use Rattle.terms.specs.Completions.{status};
ghost use Rattle.terms.specs.Lists.{keep};
ghost use Rattle.terms.specs.Term.{is_term, conflict};
ghost use Rattle.circuits.specs.Check.{check};
ghost use Rattle.lists.specs.Capacity.{max_capacity};
ghost use Rattle.lists.specs.List.{terms_in};
ghost use Rattle.queries.specs.Queries.{circuit};
ghost use Rattle.listing.specs.Listing.{lent};
ghost use Rattle.walk.specs.Answers.{steps_outcome, settled_step, WalkResult};
ghost use Rattle.walk.specs.Known.{act_state};
ghost use Rattle.walk.specs.Ready.{JudgeReady, WalkReady, Judged};
ghost use Rattle.walk.specs.declared.WalkRefusal.TheVariants.{Step, Table};
ghost use Rattle.walk.specs.Walk.{check_steps, settled, walk_lent};

use listing::Shape;
use lists::list::TermList;
use partial::Status;
use states::State;
use steps::{Columns, MAX_STEPS};
use table::Refusal;
use terms::Term;

// What is wrong with the steps, by the lowest; specs/Answers.antt has the scope's numbers.
#[derive(Clone, Copy)]
pub enum StepFault {
    // an act above 2, or a step beyond 256
    Act(usize),
    // a variable out of range
    Variable(usize),
}

// Why a walk is refused; specs/Answers.antt has the scope's numbers.
#[derive(Clone, Copy)]
pub enum WalkRefusal {
    Step(StepFault),
    Table(Refusal),
}

impl From<StepFault> for WalkRefusal {
    ghost from_gives = { λ fault why. why ≡ Step fault };

    fn from(fault: StepFault) -> WalkRefusal {
        WalkRefusal::Step(fault)
    }
}

impl From<Refusal> for WalkRefusal {
    ghost from_gives = { λ refusal why. why ≡ Table refusal };

    fn from(refusal: Refusal) -> WalkRefusal {
        WalkRefusal::Table(refusal)
    }
}

// The check of the first k steps. No more than 257 are looked at.
fn check_steps(columns: Columns, k: usize, variables: u32) -> Result<(), StepFault>
    ensures { steps_outcome result ≡ check_steps variables 0 (steps_in columns k) }
{
    for i in 0..k {
        if MAX_STEPS <= i {
            return Err(StepFault::Act(i));
        }
        if 2 < columns.acts[i] {
            return Err(StepFault::Act(i));
        }
        if variables <= columns.variables[i] {
            return Err(StepFault::Variable(i));
        }
    }
    Ok(())
}

// The state that an act puts its variable into. No act above 2 is walked: `check_steps` refuses it.
fn act_state(act: u32) -> State
    ensures { result ≡ act_state act }
{
    match act {
        0 => State::Negative,
        1 => State::Positive,
        2 => State::Absent,
        3.. => State::Absent,
    }
}

// The number of the status of a term over the variables of an accepted circuit.
fn status_under(words: &[u32], variables: u32, n: usize, t: Term) -> u32
    requires { (check variables n words.now ≡ accepted) × T (is_term variables t) }
    ensures { result ≡ status variables (circuit n words.now) t }
{
    let judgement = partial::judge(words, variables, n, t);
    let status = judgement.status;
    partial::status_number(status)
}

// How many of the terms do not conflict with t.
fn count_compatible(list: TermList, t: Term) -> u32
    requires { length list.positives.now ≤ max_capacity }
    ensures { result ≡ length (keep (λ u. not (conflict u t)) (terms_in list.entry)) }
{
    let mut found: u32 = 0;
    for k in 0..list.len() {
        if !terms::conflict(list.at(k), t) {
            found += 1;
        }
    }
    found
}

// What does not change from step to step: the steps, and how many variables and nodes the circuit has.
#[derive(Clone, Copy)]
struct Plan {
    columns: Columns,
    variables: u32,
    nodes: usize,
}

// The entries of the first steps, as many as the buffers have. The terms are the circuit's prime implicants.
// Cost a step: a pass over the nodes, and one over the terms.
fn judge_steps(
    statuses: &mut [u32],
    compatibles: &mut [u32],
    words: &[u32],
    list: TermList,
    plan: Plan,
)
    requires { JudgeReady plan words.now list (length statuses.old) (length compatibles.old) }
    ensures { Judged plan words.now (length statuses.old) statuses.new compatibles.new }
{
    let columns = plan.columns;
    let mut known = terms::EMPTY;
    for i in 0..statuses.len() {
        known = states::with_state(known, columns.variables[i], act_state(columns.acts[i]));
        statuses[i] = status_under(words, plan.variables, plan.nodes, known);
        compatibles[i] = count_compatible(list, known);
    }
}

// The first step from which on every status is Satisfied ("allowed"), if there is one: looked for from the last step on.
fn settled_from(statuses: &[u32]) -> Option<usize>
    ensures { settled_step result ≡ settled statuses.now }
{
    let mut first = statuses.len();
    for k in (0..statuses.len()).rev() {
        if statuses[k] != Status::Satisfied as u32 {
            break;
        }
        first = k;
    }
    if first < statuses.len() {
        return Some(first);
    }
    None
}

// The entries of good steps, and the answer: the prime implicants of the last node stand in its part of the listing.
fn walk_listed(
    statuses: &mut [u32],
    compatibles: &mut [u32],
    words: &[u32],
    positives: &[u64],
    negatives: &[u64],
    counts: &[u32],
    plan: Plan,
    capacity: usize,
) -> Option<usize>
    requires { WalkReady plan words.now (lent positives.now negatives.now counts.now) capacity
        (length statuses.old) (length compatibles.old) }
    ensures result_value { settled_step result ≡ settled statuses.new }
    ensures judged { Judged plan words.now (length statuses.old) statuses.new compatibles.new }
{
    let last = plan.nodes - 1;
    let start = last * capacity;
    let end = start + counts[last] as usize;
    let list = TermList {
        positives: &positives[start..end],
        negatives: &negatives[start..end],
    };
    judge_steps(statuses, compatibles, words, list, plan);
    settled_from(statuses)
}

// Walks good steps through an accepted circuit: 41, then the listing and its refusals, then the entries of the steps.
fn walk_accepted(
    positives: &mut [u64],
    negatives: &mut [u64],
    counts: &mut [u32],
    statuses: &mut [u32],
    compatibles: &mut [u32],
    words: &[u32],
    weights: &[u32],
    plan: Plan,
    k: usize,
    capacity: usize,
) -> Result<Option<usize>, WalkRefusal>
    requires { (check plan.variables plan.nodes words.now ≡ accepted)
        × (check_steps plan.variables 0 (steps_in plan.columns k) ≡ accepted) }
    ensures { WalkResult weights.now plan.variables plan.nodes words.now capacity
        (steps_in plan.columns k)
        (walk_lent (lent positives.old negatives.old counts.old)
        statuses.old compatibles.old)
        (walk_lent (lent positives.new negatives.new counts.new)
        statuses.new compatibles.new) result }
{
    if (statuses.len() < k) | (compatibles.len() < k) {
        return Err(WalkRefusal::Table(Refusal::Buffers));
    }
    let shape = Shape {
        sign: true,
        variables: plan.variables,
        nodes: plan.nodes,
        capacity,
    };
    listing::list_accepted(positives, negatives, counts, words, weights, shape)?;
    Ok(walk_listed(
        &mut statuses[..k],
        &mut compatibles[..k],
        words,
        positives,
        negatives,
        counts,
        plan,
        capacity,
    ))
}

// Walks the first k steps through the circuit, with a weight for each variable and room for so many rows a node. One lifetime serves all
// slices: a caller lends them together.
pub fn walk<'b>(
    positives: &'b mut [u64],
    negatives: &'b mut [u64],
    counts: &'b mut [u32],
    statuses: &'b mut [u32],
    compatibles: &'b mut [u32],
    words: &'b [u32],
    weights: &'b [u32],
    variables: u32,
    nodes: u32,
    columns: Columns,
    k: usize,
    capacity: u32,
) -> Result<Option<usize>, WalkRefusal>
    ensures { WalkResult weights.now variables nodes words.now capacity (steps_in columns k)
        (walk_lent (lent positives.old negatives.old counts.old)
        statuses.old compatibles.old)
        (walk_lent (lent positives.new negatives.new counts.new)
        statuses.new compatibles.new) result }
{
    checks::check(words, variables, nodes)?;
    check_steps(columns, k, variables)?;
    let plan = Plan {
        columns,
        variables,
        nodes: nodes as usize,
    };
    walk_accepted(
        positives,
        negatives,
        counts,
        statuses,
        compatibles,
        words,
        weights,
        plan,
        k,
        capacity as usize,
    )
}
