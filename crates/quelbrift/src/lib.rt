// What C and Rust call, by the exports of `quelbrift_c`: each function is thin over one operation. include/quelbrift.h says what each
// takes, answers and leaves in each buffer.
#![tactic(auto)]

ghost use Rattle.std.specs.Prelude.{◌≡◌, false, length};
ghost use Rattle.table.specs.Outcome.{answered};
ghost use Rattle.text.specs.Read.{read_text};
ghost use Rattle.text.specs.Write.{write_table};
ghost use Rattle.text_assignment.specs.Line.{read_assignment};
ghost use Rattle.measurements.specs.Measurement.{measurements};
ghost use Rattle.circuits.specs.Check.{check};
ghost use Rattle.queries.specs.Queries.{evaluation, model_count, implicant_test, prime_test, reduction};
ghost use Rattle.partial.specs.Partial.{partial_evaluation};
ghost use Rattle.exclusions.specs.Exclusions.{exclusions};
ghost use Rattle.listing.specs.Listing.{lent, list_table, viewed};
ghost use Rattle.filtered.specs.Filtered.{filtered_lent, filtered_table};
ghost use Rattle.quelbrift.specs.Boundary.{version, answer_of, nothing, number, numbers, triple, truth, masks, placed};

pub mod answer;
pub mod reasons;
pub mod scripts;
pub mod values;

use answer::{Answer, answer_to, done_with};
use measurements::list::MeasurementList;
use terms::Term;

// The version of these functions and their answers: QUELBRIFT_VERSION in the header.
const VERSION: u32 = 7;

pub fn quelbrift_version() -> u32
    ensures { result ≡ version }
{
    VERSION
}

// Reads a circuit text into the words: the numbers of variables and of nodes.
pub fn quelbrift_read(text: &[u8], words: &mut [u32]) -> Answer
    ensures value { result ≡ answer_of numbers (read_text text.now (length words.old)).answer }
    ensures words_after { words.new ≡ (read_text text.now (length words.old)).words }
{
    answer_to(text_reader::reader::read(text, words))
}

// Writes a table as text into the sink: the length.
pub fn quelbrift_write(words: &[u32], variables: u32, nodes: u32, sink: &mut [u8]) -> Answer
    ensures value { result ≡ answer_of number (write_table variables nodes words.now sink.old).answer }
    ensures sink_after { sink.new ≡ (write_table variables nodes words.now sink.old).sink }
{
    answer_to(text_writer::writer::write(words, variables, nodes, sink))
}

// The check of a table.
pub fn quelbrift_check(words: &[u32], variables: u32, nodes: u32) -> Answer
    ensures { result ≡ answer_of nothing (check variables nodes words.now) }
{
    answer_to(checks::check(words, variables, nodes))
}

// The verdict: 1 where the assignment satisfies the circuit, else 0.
pub fn quelbrift_evaluate(words: &[u32], variables: u32, nodes: u32, assignment: u64) -> Answer
    ensures { result ≡ answer_of truth (evaluation variables nodes words.now assignment) }
{
    answer_to(queries::evaluate(words, variables, nodes, assignment))
}

// The model count.
pub fn quelbrift_count_models(words: &[u32], variables: u32, nodes: u32) -> Answer
    ensures { result ≡ answer_of number (model_count variables nodes words.now) }
{
    answer_to(queries::count_models(words, variables, nodes))
}

// 1 where the term is an implicant, else 0.
pub fn quelbrift_implies(
    words: &[u32],
    variables: u32,
    nodes: u32,
    positive: u64,
    negative: u64,
) -> Answer
    ensures { result ≡ answer_of truth
        (implicant_test variables nodes words.now (record { positive = positive; negative = negative })) }
{
    answer_to(queries::implies(words, variables, nodes, Term { positive, negative }))
}

// 1 where the term is a prime implicant, else 0.
pub fn quelbrift_is_prime(
    words: &[u32],
    variables: u32,
    nodes: u32,
    positive: u64,
    negative: u64,
) -> Answer
    ensures { result ≡ answer_of truth
        (prime_test variables nodes words.now (record { positive = positive; negative = negative })) }
{
    answer_to(queries::is_prime(words, variables, nodes, Term { positive, negative }))
}

// The masks of the prime implicant to which the assignment is struck down.
pub fn quelbrift_reduce(words: &[u32], variables: u32, nodes: u32, assignment: u64) -> Answer
    ensures { result ≡ answer_of masks (reduction variables nodes words.now assignment) }
{
    answer_to(queries::reduce(words, variables, nodes, assignment))
}

// The status of a term with the measurements' literals: 2 where every completion satisfies the circuit, 0 where none does, else 1;
// and how many completions do and do not.
pub fn quelbrift_evaluate_partial(
    words: &[u32],
    variables: u32,
    nodes: u32,
    positive: u64,
    negative: u64,
    measured: &[u32],
    lows: &[i32],
    highs: &[i32],
    thresholds: &[i32],
) -> Answer
    ensures { result ≡ answer_of triple
        (partial_evaluation variables nodes words.now (record { positive = positive; negative = negative })
        (measurements measured.now lows.now highs.now thresholds.now)) }
{
    answer_to(partial::evaluate_partial(
        words,
        variables,
        nodes,
        Term { positive, negative },
        MeasurementList {
            variables: measured,
            lows,
            highs,
            thresholds,
        },
    ))
}

// Lists the prime implicants of every node, in order by the weights ("minutes"); and in the shown list those of the last node that
// respect the pairs of variables that exclude each other.
pub fn quelbrift_list(
    words: &[u32],
    variables: u32,
    nodes: u32,
    weights: &[u32],
    firsts: &[u32],
    seconds: &[u32],
    capacity: u32,
    positives: &mut [u64],
    negatives: &mut [u64],
    counts: &mut [u32],
    shown_positives: &mut [u64],
    shown_negatives: &mut [u64],
) -> Answer
    ensures value { result ≡ answer_of number (filtered_table weights.now (exclusions firsts.now seconds.now)
        variables nodes words.now capacity
        (filtered_lent (lent positives.old negatives.old counts.old)
        shown_positives.old shown_negatives.old)).answer }
    ensures shown_negatives_after { filtered_lent (lent positives.new negatives.new counts.new)
        shown_positives.new shown_negatives.new
        ≡ (filtered_table weights.now (exclusions firsts.now seconds.now)
        variables nodes words.now capacity
        (filtered_lent (lent positives.old negatives.old counts.old)
        shown_positives.old shown_negatives.old)).after }
{
    answer_to(filtered::list(
        positives,
        negatives,
        counts,
        shown_positives,
        shown_negatives,
        words,
        weights,
        firsts,
        seconds,
        variables,
        nodes,
        capacity,
    ))
}

// Lists the prime implicants of every node's negation, in the same order.
pub fn quelbrift_list_negation(
    words: &[u32],
    variables: u32,
    nodes: u32,
    weights: &[u32],
    capacity: u32,
    positives: &mut [u64],
    negatives: &mut [u64],
    counts: &mut [u32],
) -> Answer
    ensures value { result ≡ answer_of nothing (list_table false weights.now variables nodes words.now capacity
        (lent positives.old negatives.old counts.old)).answer }
    ensures positives_after { positives.new ≡ (list_table false weights.now variables nodes words.now capacity
        (lent positives.old negatives.old counts.old)).after.positives }
    ensures negatives_after { negatives.new ≡ (list_table false weights.now variables nodes words.now capacity
        (lent positives.old negatives.old counts.old)).after.negatives }
    ensures counts_after { counts.new ≡ (list_table false weights.now variables nodes words.now capacity
        (lent positives.old negatives.old counts.old)).after.counts }
{
    answer_to(listing::list_negation(
        positives, negatives, counts, words, weights, variables, nodes, capacity,
    ))
}

// Where a node's entries stand in a buffer of the listing, and how many they are; 0 and 0 for the empty part.
pub fn quelbrift_view(buffer: &[u64], capacity: u32, node: u32, count: u32) -> Answer
    ensures { result ≡ answer_of (placed capacity node) (answered (viewed buffer.now capacity node count)) }
{
    let part = listing::view(buffer, capacity, node, count);
    if part.is_empty() {
        return done_with(0, 0, 0);
    }
    done_with((node as u64) * (capacity as u64), part.len() as u64, 0)
}

// Reads the line of an assignment: the mask of the variables that are true.
pub fn quelbrift_read_assignment(line: &[u8], variables: u32) -> Answer
    ensures { result ≡ answer_of number (read_assignment line.now variables) }
{
    answer_to(text_assignment::assignment::read_assignment(line, variables))
}
