// The exported functions, as C and Rust call them: each calls the function of its name in `quelbrift`, and promises the same. A name is the
// whole program's, so each begins with the crate's. include/quelbrift.h says what each takes, answers and leaves in each buffer.
#![tactic(auto)]

ghost use Rattle.circuits.specs.Check.{check};
ghost use Rattle.exclusions.specs.Exclusions.{exclusions};
ghost use Rattle.filtered.specs.Filtered.{filtered_lent, filtered_table};
ghost use Rattle.listing.specs.Listing.{lent, list_table, viewed};
ghost use Rattle.measurements.specs.Measurement.{measurements};
ghost use Rattle.partial.specs.Partial.{partial_evaluation};
ghost use Rattle.quelbrift.specs.Boundary.{answer_of, number, numbers, version, nothing, triple, truth, masks, placed};
ghost use Rattle.queries.specs.Queries.{evaluation, model_count, implicant_test, prime_test, reduction};
ghost use Rattle.std.specs.Prelude.{◌≡◌, false, length};
ghost use Rattle.table.specs.Outcome.{answered};
ghost use Rattle.text.specs.Read.{read_text};
ghost use Rattle.text.specs.Write.{write_table};
ghost use Rattle.text_assignment.specs.Line.{read_assignment};
ghost use Rattle.text_script.specs.Script.{read_script};
ghost use Rattle.walk.specs.Walk.{walk_table, walk_lent};

use quelbrift::answer::Answer;
use steps::Step;

#[unsafe(no_mangle)]
pub extern "C" fn quelbrift_version() -> u32
    ensures { result ≡ version }
{
    quelbrift::quelbrift_version()
}

// Reads a circuit text into the words: the numbers of variables and of nodes.
#[unsafe(no_mangle)]
pub extern "C" fn quelbrift_read(text: &[u8], words: &mut [u32]) -> Answer
    ensures value { result ≡ answer_of numbers (read_text text.now (length words.old)).answer }
    ensures words_after { words.new ≡ (read_text text.now (length words.old)).words }
{
    quelbrift::quelbrift_read(text, words)
}

// Writes a table as text into the sink: the length.
#[unsafe(no_mangle)]
pub extern "C" fn quelbrift_write(
    words: &[u32],
    variables: u32,
    nodes: u32,
    sink: &mut [u8],
) -> Answer
    ensures value { result ≡ answer_of number (write_table variables nodes words.now sink.old).answer }
    ensures sink_after { sink.new ≡ (write_table variables nodes words.now sink.old).sink }
{
    quelbrift::quelbrift_write(words, variables, nodes, sink)
}

// The check of a table.
#[unsafe(no_mangle)]
pub extern "C" fn quelbrift_check(words: &[u32], variables: u32, nodes: u32) -> Answer
    ensures { result ≡ answer_of nothing (check variables nodes words.now) }
{
    quelbrift::quelbrift_check(words, variables, nodes)
}

// The verdict: 1 where the assignment satisfies the circuit, else 0.
#[unsafe(no_mangle)]
pub extern "C" fn quelbrift_evaluate(
    words: &[u32],
    variables: u32,
    nodes: u32,
    assignment: u64,
) -> Answer
    ensures { result ≡ answer_of truth (evaluation variables nodes words.now assignment) }
{
    quelbrift::quelbrift_evaluate(words, variables, nodes, assignment)
}

// The model count.
#[unsafe(no_mangle)]
pub extern "C" fn quelbrift_count_models(words: &[u32], variables: u32, nodes: u32) -> Answer
    ensures { result ≡ answer_of number (model_count variables nodes words.now) }
{
    quelbrift::quelbrift_count_models(words, variables, nodes)
}

// 1 where the term is an implicant, else 0.
#[unsafe(no_mangle)]
pub extern "C" fn quelbrift_implies(
    words: &[u32],
    variables: u32,
    nodes: u32,
    positive: u64,
    negative: u64,
) -> Answer
    ensures { result ≡ answer_of truth
        (implicant_test variables nodes words.now (record { positive = positive; negative = negative })) }
{
    quelbrift::quelbrift_implies(words, variables, nodes, positive, negative)
}

// 1 where the term is a prime implicant, else 0.
#[unsafe(no_mangle)]
pub extern "C" fn quelbrift_is_prime(
    words: &[u32],
    variables: u32,
    nodes: u32,
    positive: u64,
    negative: u64,
) -> Answer
    ensures { result ≡ answer_of truth
        (prime_test variables nodes words.now (record { positive = positive; negative = negative })) }
{
    quelbrift::quelbrift_is_prime(words, variables, nodes, positive, negative)
}

// The masks of the prime implicant to which the assignment is struck down.
#[unsafe(no_mangle)]
pub extern "C" fn quelbrift_reduce(
    words: &[u32],
    variables: u32,
    nodes: u32,
    assignment: u64,
) -> Answer
    ensures { result ≡ answer_of masks (reduction variables nodes words.now assignment) }
{
    quelbrift::quelbrift_reduce(words, variables, nodes, assignment)
}

// The status of a term with the measurements' literals: 2 where every completion satisfies the circuit, 0 where none does, else 1;
// and how many completions do and do not.
#[unsafe(no_mangle)]
pub extern "C" fn quelbrift_evaluate_partial(
    words: &[u32],
    variables: u32,
    nodes: u32,
    positive: u64,
    negative: u64,
    measured: &[u32],
    lows: &[i32],
    highs: &[i32],
    thresholds: &[i32],
) -> Answer
    ensures { result ≡ answer_of triple
        (partial_evaluation variables nodes words.now (record { positive = positive; negative = negative })
        (measurements measured.now lows.now highs.now thresholds.now)) }
{
    quelbrift::quelbrift_evaluate_partial(
        words, variables, nodes, positive, negative, measured, lows, highs, thresholds,
    )
}

// Lists the prime implicants of every node, in order by the weights ("minutes"); and in the shown list those of the last node that
// respect the pairs of variables that exclude each other.
#[unsafe(no_mangle)]
pub extern "C" fn quelbrift_list(
    words: &[u32],
    variables: u32,
    nodes: u32,
    weights: &[u32],
    firsts: &[u32],
    seconds: &[u32],
    capacity: u32,
    positives: &mut [u64],
    negatives: &mut [u64],
    counts: &mut [u32],
    shown_positives: &mut [u64],
    shown_negatives: &mut [u64],
) -> Answer
    ensures value { result ≡ answer_of number (filtered_table weights.now (exclusions firsts.now seconds.now)
        variables nodes words.now capacity
        (filtered_lent (lent positives.old negatives.old counts.old)
        shown_positives.old shown_negatives.old)).answer }
    ensures shown_negatives_after { filtered_lent (lent positives.new negatives.new counts.new)
        shown_positives.new shown_negatives.new
        ≡ (filtered_table weights.now (exclusions firsts.now seconds.now)
        variables nodes words.now capacity
        (filtered_lent (lent positives.old negatives.old counts.old)
        shown_positives.old shown_negatives.old)).after }
{
    quelbrift::quelbrift_list(
        words,
        variables,
        nodes,
        weights,
        firsts,
        seconds,
        capacity,
        positives,
        negatives,
        counts,
        shown_positives,
        shown_negatives,
    )
}

// Lists the prime implicants of every node's negation, in the same order.
#[unsafe(no_mangle)]
pub extern "C" fn quelbrift_list_negation(
    words: &[u32],
    variables: u32,
    nodes: u32,
    weights: &[u32],
    capacity: u32,
    positives: &mut [u64],
    negatives: &mut [u64],
    counts: &mut [u32],
) -> Answer
    ensures value { result ≡ answer_of nothing (list_table false weights.now variables nodes words.now capacity
        (lent positives.old negatives.old counts.old)).answer }
    ensures positives_after { positives.new ≡ (list_table false weights.now variables nodes words.now capacity
        (lent positives.old negatives.old counts.old)).after.positives }
    ensures negatives_after { negatives.new ≡ (list_table false weights.now variables nodes words.now capacity
        (lent positives.old negatives.old counts.old)).after.negatives }
    ensures counts_after { counts.new ≡ (list_table false weights.now variables nodes words.now capacity
        (lent positives.old negatives.old counts.old)).after.counts }
{
    quelbrift::quelbrift_list_negation(
        words, variables, nodes, weights, capacity, positives, negatives, counts,
    )
}

// Where a node's entries stand in a buffer of the listing, and how many they are; 0 and 0 for the empty part.
#[unsafe(no_mangle)]
pub extern "C" fn quelbrift_view(buffer: &[u64], capacity: u32, node: u32, count: u32) -> Answer
    ensures { result ≡ answer_of (placed capacity node) (answered (viewed buffer.now capacity node count)) }
{
    quelbrift::quelbrift_view(buffer, capacity, node, count)
}

// Reads the line of an assignment: the mask of the variables that are true.
#[unsafe(no_mangle)]
pub extern "C" fn quelbrift_read_assignment(line: &[u8], variables: u32) -> Answer
    ensures { result ≡ answer_of number (read_assignment line.now variables) }
{
    quelbrift::quelbrift_read_assignment(line, variables)
}

// Reads a loading script into the list: the number of steps.
#[unsafe(no_mangle)]
pub extern "C" fn quelbrift_read_script<'a, 'b>(
    text: &'a [u8],
    variables: u32,
    list: &'b mut [Step],
) -> Answer
    ensures { (result ≡ answer_of number (read_script text.now variables list.old).answer)
        × (list.new ≡ (read_script text.now variables list.old).steps) }
{
    quelbrift::scripts::quelbrift_read_script(text, variables, list)
}

// Walks the steps of the list through the circuit, after listing its prime implicants.
#[unsafe(no_mangle)]
pub extern "C" fn quelbrift_walk<'a, 'b>(
    words: &'b [u32],
    variables: u32,
    nodes: u32,
    weights: &'b [u32],
    capacity: u32,
    list: &'a [Step],
    positives: &'b mut [u64],
    negatives: &'b mut [u64],
    counts: &'b mut [u32],
    statuses: &'b mut [u32],
    compatibles: &'b mut [u32],
) -> Answer
    ensures { (result ≡ answer_of numbers
        (walk_table weights.now variables nodes words.now capacity list.now
        (walk_lent (lent positives.old negatives.old counts.old)
        statuses.old compatibles.old)).answer)
        × (walk_lent (lent positives.new negatives.new counts.new)
        statuses.new compatibles.new
        ≡ (walk_table weights.now variables nodes words.now capacity list.now
        (walk_lent (lent positives.old negatives.old counts.old)
        statuses.old compatibles.old)).after) }
{
    quelbrift::scripts::quelbrift_walk(
        words,
        variables,
        nodes,
        weights,
        capacity,
        list,
        positives,
        negatives,
        counts,
        statuses,
        compatibles,
    )
}
