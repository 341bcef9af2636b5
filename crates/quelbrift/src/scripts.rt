// Loading scripts: their steps are a list of records, of which the code below takes plain columns.
ghost use Rattle.std.specs.Prelude.{◌≡◌, Err};
ghost use Rattle.text_script.specs.Answers.{script_outcome};
ghost use Rattle.text_script.specs.Script.{read_script};
ghost use Rattle.listing.specs.Listing.{lent};
ghost use Rattle.walk.specs.Answers.{settled_step, walked_outcome};
ghost use Rattle.walk.specs.Walk.{walk_table, walk_lent};
ghost use Rattle.quelbrift.specs.Boundary.{answer_of, number, numbers, reason_of};

use super::answer::{Answer, Reason, Values, answer_to, done_with, refused_at};
use steps::Step;
use text_script::answer::ScriptFault;
use text_script::script::read;
use walk::{StepFault, WalkRefusal};

impl Reason for ScriptFault {
    ghost reason = { λ why. reason_of (script_outcome (Err why)) };

    fn refused(self) -> Answer {
        match self {
            ScriptFault::Sizes => refused_at(21, 0),
            ScriptFault::Shape(place) => refused_at(54, place as u64),
            ScriptFault::Variable(place) => refused_at(55, place as u64),
        }
    }
}

// Reads a loading script into the list: the number of steps.
pub fn quelbrift_read_script<'a, 'b>(text: &'a [u8], variables: u32, list: &'b mut [Step]) -> Answer
    ensures { (result ≡ answer_of number (read_script text.now variables list.old).answer)
        × (list.new ≡ (read_script text.now variables list.old).steps) }
{
    match read(text, variables, list.len()) {
        Ok(script) => {
            steps::store(script.columns, script.count, list);
            script.count.done()
        }
        Err(why) => why.refused(),
    }
}

// 1 and the step from which on every status is satisfied, or 0 and 0.
impl Values for Option<usize> {
    ghost values = { λ step. numbers (settled_step step) };

    fn done(self) -> Answer {
        match self {
            Some(step) => done_with(1, step as u64, 0),
            None => done_with(0, 0, 0),
        }
    }
}

impl Reason for WalkRefusal {
    ghost reason = { λ why. reason_of (walked_outcome (Err why)) };

    fn refused(self) -> Answer {
        match self {
            WalkRefusal::Step(StepFault::Act(step)) => refused_at(54, step as u64),
            WalkRefusal::Step(StepFault::Variable(step)) => refused_at(55, step as u64),
            WalkRefusal::Table(why) => why.refused(),
        }
    }
}

// Walks the steps of the list through the circuit, after listing its prime implicants.
pub fn quelbrift_walk<'a, 'b>(
    words: &'b [u32],
    variables: u32,
    nodes: u32,
    weights: &'b [u32],
    capacity: u32,
    list: &'a [Step],
    positives: &'b mut [u64],
    negatives: &'b mut [u64],
    counts: &'b mut [u32],
    statuses: &'b mut [u32],
    compatibles: &'b mut [u32],
) -> Answer
    ensures { (result ≡ answer_of numbers
        (walk_table weights.now variables nodes words.now capacity list.now
        (walk_lent (lent positives.old negatives.old counts.old)
        statuses.old compatibles.old)).answer)
        × (walk_lent (lent positives.new negatives.new counts.new)
        statuses.new compatibles.new
        ≡ (walk_table weights.now variables nodes words.now capacity list.now
        (walk_lent (lent positives.old negatives.old counts.old)
        statuses.old compatibles.old)).after) }
{
    answer_to(walk::walk(
        positives,
        negatives,
        counts,
        statuses,
        compatibles,
        words,
        weights,
        variables,
        nodes,
        steps::columns_of(list),
        list.len(),
        capacity,
    ))
}
