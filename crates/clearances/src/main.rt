// Prints the prime implicants ("clearances") of the circuit whose text stands on standard input. A read or a write that fails is told
// on standard error.
#![tactic(auto)]

ghost use Rattle.std.specs.Prelude.{◌≡◌, length, take};
ghost use Rattle.text.specs.Answers.{reading_of};
ghost use Rattle.clearances.specs.Reading.{program_answer};

use console::{tell, write};
use output::refusals::{fault_line, table_refusal_line};
use std::io;
use std::io::{ErrorKind, Stdout};
use table::layout::NODE_WORDS;
use table::{MAX_VARIABLES, Refusal};
use terms::Term;
use text::answer::{Circuit, Fault, Misread};
use text_reader::reader::read;

// How many bytes the program takes: its own limit stays as it is where that of circuit texts grows.
const BYTES: usize = 40000;

// How many nodes the program takes, how many prime implicants of each, and how many entries the row buffers have for them.
const NODES: usize = 64;

const CAPACITY: u32 = 64;

const ENTRIES: usize = 4096;

// How many entries the shown list has, which the program does not print: with no pairs it is the last node's.
const ROWS: usize = CAPACITY as usize;

// How many variables a circuit has at most.
const VARIABLES: usize = MAX_VARIABLES as usize;

fn print_term(stdout: Stdout, positive: u64, negative: u64) -> io::Result<()> {
    let mut line = [0u8; 512];
    let n = output::term_line(&mut line, Term { positive, negative });
    write(stdout, &line, n)
}

fn print_refusal(stdout: Stdout, why: Refusal) -> io::Result<()> {
    let mut line = [0u8; 512];
    let n = table_refusal_line(&mut line, why);
    write(stdout, &line, n)
}

fn print_count(stdout: Stdout, count: u32) -> io::Result<()> {
    let mut line = [0u8; 512];
    let n = output::count_line(&mut line, count);
    write(stdout, &line, n)
}

// A line for each term, up to the first that does not go.
fn print_terms(stdout: Stdout, positives: &[u64], negatives: &[u64]) -> io::Result<()> {
    for (positive, negative) in positives.iter().zip(negatives) {
        print_term(stdout, *positive, *negative)?;
    }
    Ok(())
}

// The terms of the last of the nodes, which is the circuit; an error where there is none.
fn print_last(
    stdout: Stdout,
    positives: &[u64],
    negatives: &[u64],
    counts: &[u32],
    nodes: u32,
) -> io::Result<()> {
    let last = nodes.checked_sub(1).ok_or(ErrorKind::InvalidInput)?;
    let count = *counts.get(last as usize).ok_or(ErrorKind::InvalidInput)?;
    print_count(stdout, count)?;
    print_terms(
        stdout,
        listing::view(positives, CAPACITY, last, count),
        listing::view(negatives, CAPACITY, last, count),
    )
}

// The first entries, so many or all that there are.
fn front(entries: &[u32], count: u32) -> &[u32]
    ensures { result.now ≡ take count entries.now }
{
    &entries[..entries.len().min(count as usize)]
}

// Lists the circuit, every variable weighing nothing and no two excluding each other, and prints its terms, or the refusal.
fn print_circuit(stdout: Stdout, words: &[u32], variables: u32, nodes: u32) -> io::Result<()> {
    let mut positives = [0u64; ENTRIES];
    let mut negatives = [0u64; ENTRIES];
    let mut counts = [0u32; NODES];
    let mut shown_positives = [0u64; ROWS];
    let mut shown_negatives = [0u64; ROWS];
    let zeros = [0u32; VARIABLES];
    match filtered::list(
        &mut positives,
        &mut negatives,
        &mut counts,
        &mut shown_positives,
        &mut shown_negatives,
        words,
        front(&zeros, variables),
        front(&zeros, 0),
        front(&zeros, 0),
        variables,
        nodes,
        CAPACITY,
    ) {
        Ok(_) => print_last(stdout, &positives, &negatives, &counts, nodes),
        Err(why) => print_refusal(stdout, why),
    }
}

// Reads a text that is not too long for the program.
fn read_text(text: &[u8], words: &mut [u32]) -> Result<Circuit, Misread>
    ensures { reading_of result ≡ program_answer text.now (length words.old) }
{
    if BYTES < text.len() {
        return Err(Misread(Fault::Length, BYTES));
    }
    read(text, words)
}

// Reads the text and prints the answer.
fn print_answer(stdout: Stdout, text: &[u8]) -> io::Result<()> {
    let mut words = [0u32; NODE_WORDS * NODES];
    match read_text(text, &mut words) {
        Ok(Circuit { variables, nodes }) => print_circuit(stdout, &words, variables, nodes),
        Err(Misread(fault, place)) => {
            let mut line = [0u8; 512];
            let n = fault_line(&mut line, fault, place);
            write(stdout, &line, n)
        }
    }
}

// One byte more than the program takes is enough to tell a text that is too long.
fn main(rt: HostRuntime) {
    let mut text = [0u8; BYTES + 1];
    let Ok(length) = console::input::read_input(rt.stdin(), &mut text) else {
        tell(
            rt.stderr(),
            b"clearances: standard input could not be read\n",
        );
        return;
    };
    if print_answer(rt.stdout(), &text[..length]).is_err() {
        tell(
            rt.stderr(),
            b"clearances: standard output could not be written; it is cut\n",
        );
    }
}
