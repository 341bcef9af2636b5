// What the program `clearances` reads and lists, under limits of its own.
#![tactic(auto)]

ghost use Rattle.std.specs.Prelude.{◌≡◌, true, take};
ghost use Rattle.table.specs.Outcome.{outcome};
ghost use Rattle.text.specs.Answers.{reading_of};
ghost use Rattle.listing.specs.Listing.{lent, suffices};
ghost use Rattle.program.specs.Program.{program_nodes, program_capacity, program_reading, program_listing};

use table::layout::NODE_WORDS;
use table::{MAX_VARIABLES, Refusal};
use text::answer::{Circuit, Fault, Misread};
use text_reader::reader::read;

// How many bytes the program takes: its own limit stays as it is where that of circuit texts grows.
pub const BYTES: usize = 40000;

// How many nodes it takes, and the words that they are read into.
pub const NODES: usize = 64;

pub const WORDS: usize = NODE_WORDS * NODES;

// How many prime implicants the circuit may have, and how many entries hold those of one node.
pub const CAPACITY: u32 = 64;

const ROWS: usize = CAPACITY as usize;

// How many entries a row buffer has: those of every node.
pub const ENTRIES: usize = 4096;

// How many variables a circuit has at most.
const VARIABLES: usize = MAX_VARIABLES as usize;

// Reads a text that is not too long for the program; one that is leaves the words as they were.
pub fn read_text(text: &[u8], words: &mut [u32; WORDS]) -> Result<Circuit, Misread>
    ensures result_value { reading_of result ≡ (program_reading text.now words.old).answer }
    ensures words_after { words.new ≡ (program_reading text.now words.old).words }
{
    if BYTES < text.len() {
        return Err(Misread(Fault::Length, BYTES));
    }
    read(text, words)
}

// The first entries, so many or all that there are.
fn front(entries: &[u32], count: u32) -> &[u32]
    ensures { result.now ≡ take count entries.now }
{
    &entries[..entries.len().min(count as usize)]
}

// Lists the circuit, every variable weighing nothing and no two excluding each other, in buffers that are large enough for all nodes. The
// shown list stays inside: with no pairs it is the last node's.
pub fn list(
    positives: &mut [u64; ENTRIES],
    negatives: &mut [u64; ENTRIES],
    counts: &mut [u32; NODES],
    words: &[u32],
    variables: u32,
    nodes: u32,
) -> Result<u32, Refusal>
    ensures result_value { outcome result ≡ (program_listing variables nodes words.now
        (lent positives.old negatives.old counts.old)).answer }
    ensures counts_after { lent positives.new negatives.new counts.new
        ≡ (program_listing variables nodes words.now
        (lent positives.old negatives.old counts.old)).after.nodes }
    ensures counts_value { suffices program_nodes program_capacity
        (lent positives.old negatives.old counts.old) ≡ true }
{
    let mut shown_positives = [0u64; ROWS];
    let mut shown_negatives = [0u64; ROWS];
    let zeros = [0u32; VARIABLES];
    filtered::list(
        positives,
        negatives,
        counts,
        &mut shown_positives,
        &mut shown_negatives,
        words,
        front(&zeros, variables),
        front(&zeros, 0),
        front(&zeros, 0),
        variables,
        nodes,
        CAPACITY,
    )
}
