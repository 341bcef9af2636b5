// Reads texts, valid and damaged, and prints what was found in each: the table, or the refusal with its place.
#![tactic(auto)]

use console::print;
use output::refusals::fault_line;
use output::{refusal_line, term_line};
use std::io::Stdout;
use table::layout::NODE_WORDS;
use terms::Term;
use text::answer::{Circuit, Fault, Misread};
use text_assignment::assignment::{AssignmentFault, read_assignment};
use text_reader::reader::read;
use text_writer::fault::WriteFault;
use text_writer::writer::write;

// How many words most texts are read into: enough for 40 nodes.
const WORDS: usize = NODE_WORDS * 40;

// A refusal with its place.
fn print_refusal(stdout: Stdout, number: u32, place: usize) {
    let mut line = [0u8; 256];
    let n = refusal_line(&mut line, number, place as u64);
    print(stdout, &line, n);
}

// Why a circuit text is refused.
fn print_fault(stdout: Stdout, fault: Fault, place: usize) {
    let mut line = [0u8; 256];
    let n = fault_line(&mut line, fault, place);
    print(stdout, &line, n);
}

// The table as text. One that was read is well-formed, so it is never refused.
fn print_table(stdout: Stdout, words: &[u32], variables: u32, nodes: u32) {
    let mut sink = [0u8; 1024];
    match write(words, variables, nodes, &mut sink) {
        Ok(n) => print(stdout, &sink, n),
        Err(WriteFault::Table(_)) => {}
        Err(WriteFault::Sink(n)) => print_refusal(stdout, 16, n),
    }
}

// Reads a circuit text into lent words.
fn read_into(stdout: Stdout, text: &[u8], words: &mut [u32]) {
    match read(text, words) {
        Ok(Circuit { variables, nodes }) => print_table(stdout, words, variables, nodes),
        Err(Misread(fault, place)) => print_fault(stdout, fault, place),
    }
}

// Reads a circuit text into so many words, at most as many as there are.
fn circuit(stdout: Stdout, text: &[u8], room: usize) {
    let mut words = [0u32; WORDS];
    if room <= WORDS {
        read_into(stdout, text, &mut words[..room]);
    }
}

// Reads an assignment line of so many variables, and prints those that are yes.
fn assignment(stdout: Stdout, line: &[u8], variables: u32) {
    match read_assignment(line, variables) {
        Ok(mask) => {
            let mut row = [0u8; 256];
            let n = term_line(
                &mut row,
                Term {
                    positive: mask,
                    negative: 0,
                },
            );
            print(stdout, &row, n);
        }
        Err(AssignmentFault::Sizes) => print_refusal(stdout, 21, 0),
        Err(AssignmentFault::LineShape(p)) => print_refusal(stdout, 51, p),
        Err(AssignmentFault::LineOrder(p)) => print_refusal(stdout, 52, p),
    }
}

// The program's circuit, and P1 to P8.
fn small_circuits(stdout: Stdout) {
    circuit(
        stdout,
        b"(circuit 3)\n(pick 0 (no 1) (pick 1 (yes 2) (true)))\n",
        WORDS,
    );
    circuit(stdout, b"(circuit 1)\n(false)\n", WORDS);
    circuit(stdout, b"(circuit 1)\n(true)\n", WORDS);
    circuit(stdout, b"(circuit 1)\n(pick 0 (true) (true))\n", WORDS);
    circuit(stdout, b"(circuit 2)\n(both (yes 0) (no 1))\n", WORDS);
    circuit(stdout, b"(circuit 1)\n(both (yes 0) (no 0))\n", WORDS);
    circuit(stdout, b"(circuit 1)\n(pick 0 (yes 0) (true))\n", WORDS);
    circuit(stdout, b"(circuit 1)\n(pick 0 (false) (false))\n", WORDS);
    circuit(stdout, b"(circuit 1)\n(yes 0)\n(no 0)\n", WORDS);
}

// P10 to P12.
fn example_one(stdout: Stdout) {
    circuit(stdout, b"(circuit 4)\n(pick 3 (true) (yes 2))\n", WORDS);
    circuit(
        stdout,
        b"(circuit 4)\n(pick 0 (pick 3 (true) (yes 2)) (no 2))\n",
        WORDS,
    );
    circuit(
        stdout,
        b"(circuit 4)\n(pick 1 (pick 0 (pick 3 (true) (yes 2)) (no 2)) (both (no 2) (no 3)))\n",
        WORDS,
    );
}

// Shared lines, nested forms, the largest N.
fn shared_lines(stdout: Stdout) {
    circuit(
        stdout,
        b"(circuit 2)\n(yes 0)\n(both (line 0) (yes 1))\n",
        WORDS,
    );
    circuit(
        stdout,
        b"(circuit 1)\n(true)\n(pick 0 (line 0) (line 0))\n",
        WORDS,
    );
    circuit(
        stdout,
        b"(circuit 3)\n(both (yes 0) (no 1))\n(pick 2 (line 0) (false))\n(both (line 1) (line 0))\n",
        WORDS,
    );
    circuit(stdout, b"(circuit 40)\n(no 39)\n", WORDS);
    circuit(
        stdout,
        b"(circuit 2)\n(both (both (true) (false)) (both (no 0) (yes 1)))\n",
        WORDS,
    );
}

// Conjunctions of three, of eight, of shared lines inside another form, and of one line eight times.
fn wide_conjunctions(stdout: Stdout) {
    circuit(
        stdout,
        b"(circuit 3)\n(both (yes 0) (no 1) (yes 2))\n",
        WORDS,
    );
    circuit(
        stdout,
        b"(circuit 8)\n(both (yes 0) (no 1) (yes 2) (no 3) (yes 4) (no 5) (yes 6) (no 7))\n",
        WORDS,
    );
    circuit(
        stdout,
        b"(circuit 5)\n(both (yes 0) (true) (no 1))\n(true)\n\
            (pick 4 (line 0) (both (line 1) (line 0) (yes 2) (line 1)))\n",
        WORDS,
    );
    circuit(
        stdout,
        b"(circuit 1)\n(true)\n\
            (both (line 0) (line 0) (line 0) (line 0) (line 0) (line 0) (line 0) (line 0))\n",
        WORDS,
    );
}

// 11 at the end: texts that are cut.
fn cut_short(stdout: Stdout) {
    circuit(stdout, b"", WORDS);
    circuit(stdout, b"(", WORDS);
    circuit(stdout, b"(circuit", WORDS);
    circuit(stdout, b"(circuit ", WORDS);
    circuit(stdout, b"(circuit 3", WORDS);
    circuit(stdout, b"(circuit 3)", WORDS);
    circuit(stdout, b"(circuit 3)\n", WORDS);
    circuit(stdout, b"(circuit 3)\n(", WORDS);
    circuit(stdout, b"(circuit 3)\n(pick 0 (no 1)", WORDS);
    circuit(stdout, b"(circuit 1)\n(true)", WORDS);
    circuit(stdout, b"(circuit 1)\n(true)\n(", WORDS);
}

// 11 in the header and after the last line.
fn misshapen_lines(stdout: Stdout) {
    circuit(stdout, b"(Circuit 1)\n(true)\n", WORDS);
    circuit(stdout, b"(circuit\t1)\n(true)\n", WORDS);
    circuit(stdout, b"(circuit  1)\n(true)\n", WORDS);
    circuit(stdout, b"(circuit -1)\n(true)\n", WORDS);
    circuit(stdout, b"(circuit 07)\n(true)\n", WORDS);
    circuit(stdout, b"(circuit 12345)\n(true)\n", WORDS);
    circuit(stdout, b"(circuit 1)\r\n(true)\n", WORDS);
    circuit(stdout, b"(circuit 1)\n(true))\n", WORDS);
    circuit(stdout, b"(circuit 1)\n(true)\n\n", WORDS);
    circuit(stdout, b"(circuit 1)\n(true)\n ", WORDS);
}

// 11 in a form.
fn misshapen_forms(stdout: Stdout) {
    circuit(stdout, b"(circuit 1)\n\xc8", WORDS);
    circuit(stdout, b"(circuit 1)\n(true\xc8)\n", WORDS);
    circuit(stdout, b"(circuit 1)\n(maybe)\n", WORDS);
    circuit(stdout, b"(circuit 1)\n(yes\t0)\n", WORDS);
    circuit(stdout, b"(circuit 1)\n(yes )\n", WORDS);
    circuit(stdout, b"(circuit 1)\n(yes 01)\n", WORDS);
    circuit(stdout, b"(circuit 1)\n(pick 0  (true) (true))\n", WORDS);
    circuit(stdout, b"(circuit 1)\n(both (true))\n", WORDS);
    circuit(stdout, b"(circuit 1)\n(line 0)\n", WORDS);
    circuit(stdout, b"(circuit 1)\n(true)\n(line 0)\n", WORDS);
}

// 11 in a conjunction of none or one, of nine, and after eight.
fn conjunctions_of_others(stdout: Stdout) {
    circuit(stdout, b"(circuit 1)\n(both)\n", WORDS);
    circuit(stdout, b"(circuit 1)\n(both (true)", WORDS);
    circuit(stdout, b"(circuit 1)\n(both (true) (true)", WORDS);
    circuit(
        stdout,
        b"(circuit 1)\n(both (true) (true) (true) (true) (true) (true) (true) (true) (true))\n",
        WORDS,
    );
    circuit(
        stdout,
        b"(circuit 1)\n(both (true) (true) (true) (true) (true) (true) (true) (true) )\n",
        WORDS,
    );
}

// 11 in a decision of one and of three, and between the second form and the third.
fn third_forms(stdout: Stdout) {
    circuit(stdout, b"(circuit 1)\n(pick 0 (true))\n", WORDS);
    circuit(
        stdout,
        b"(circuit 1)\n(pick 0 (true) (true) (true))\n",
        WORDS,
    );
    circuit(
        stdout,
        b"(circuit 1)\n(both (true) (true)  (true))\n",
        WORDS,
    );
    circuit(stdout, b"(circuit 1)\n(both (true) (true)(true))\n", WORDS);
    circuit(stdout, b"(circuit 1)\n(both (true) (true) )\n", WORDS);
}

// 11 to 14 inside the third form.
fn faults_in_third_forms(stdout: Stdout) {
    circuit(
        stdout,
        b"(circuit 1)\n(both (true) (true) (maybe))\n",
        WORDS,
    );
    circuit(
        stdout,
        b"(circuit 2)\n(both (yes 0) (yes 1) (yes 2))\n",
        WORDS,
    );
    circuit(
        stdout,
        b"(circuit 1)\n(true)\n(both (line 0) (true) (line 1))\n",
        WORDS,
    );
    circuit(
        stdout,
        b"(circuit 1)\n(both (both (both (both (both (both (both (both (both (both (both (both (both (both \
            (both (true) (true) (both (",
        WORDS,
    );
}

// 12, and the bounds that are still allowed.
fn ranges(stdout: Stdout) {
    circuit(stdout, b"(circuit 0)\n(true)\n", WORDS);
    circuit(stdout, b"(circuit 41)\n(true)\n", WORDS);
    circuit(stdout, b"(circuit 9999)\n(true)\n", WORDS);
    circuit(stdout, b"(circuit 1)\n(yes 0)\n", WORDS);
    circuit(stdout, b"(circuit 1)\n(yes 1)\n", WORDS);
    circuit(stdout, b"(circuit 40)\n(no 40)\n", WORDS);
    circuit(stdout, b"(circuit 2)\n(pick 2 (true) (false))\n", WORDS);
    circuit(stdout, b"(circuit 2)\n(both (yes 0) (no 7))\n", WORDS);
}

// 13: the own line, a later one, the number of a node.
fn references(stdout: Stdout) {
    circuit(stdout, b"(circuit 1)\n(both (line 0) (true))\n", WORDS);
    circuit(
        stdout,
        b"(circuit 1)\n(true)\n(both (line 0) (line 1))\n",
        WORDS,
    );
    circuit(
        stdout,
        b"(circuit 1)\n(true)\n(pick 0 (line 9999) (true))\n",
        WORDS,
    );
    circuit(
        stdout,
        b"(circuit 1)\n(true)\n(pick 0 (line 10000) (true))\n",
        WORDS,
    );
    circuit(
        stdout,
        b"(circuit 2)\n(both (yes 0) (yes 1))\n(pick 0 (line 2) (true))\n",
        WORDS,
    );
}

// Sixteen brackets deep on the right, seventeen, and 11 where the seventeenth would be.
fn deep_right(stdout: Stdout) {
    circuit(
        stdout,
        b"(circuit 1)\n\
            (both (true) (both (true) (both (true) (both (true) (both (true) (both (true) (both (true) \
            (both (true) (both (true) (both (true) (both (true) (both (true) (both (true) (both (true) \
            (both (true) (true))))))))))))))))\n",
        WORDS,
    );
    circuit(
        stdout,
        b"(circuit 1)\n\
            (both (true) (both (true) (both (true) (both (true) (both (true) (both (true) (both (true) \
            (both (true) (both (true) (both (true) (both (true) (both (true) (both (true) (both (true) \
            (both (true) (both (true) (true)))))))))))))))))\n",
        WORDS,
    );
    circuit(
        stdout,
        b"(circuit 1)\n\
            (both (true) (both (true) (both (true) (both (true) (both (true) (both (true) (both (true) \
            (both (true) (both (true) (both (true) (both (true) (both (true) (both (true) (both (true) \
            (both (true) (both )\n",
        WORDS,
    );
}

// The seventeenth bracket on the left, missing, there, and that of `(line 0)`.
fn deep_left(stdout: Stdout) {
    circuit(
        stdout,
        b"(circuit 1)\n(both (both (both (both (both (both (both (both (both (both (both (both (both (both (both (both ",
        WORDS,
    );
    circuit(
        stdout,
        b"(circuit 1)\n(both (both (both (both (both (both (both (both (both (both (both (both (both (both (both (both (",
        WORDS,
    );
    circuit(
        stdout,
        b"(circuit 1)\n(true)\n(both (both (both (both (both (both (both (both (both (both (both (both (both (both (both (both (line 0)",
        WORDS,
    );
}

// 15: a node takes eleven words. Room for no node, for one, and for one too few.
fn rooms(stdout: Stdout) {
    circuit(stdout, b"(circuit 1)\n(true)\n", 0);
    circuit(stdout, b"(circuit 1)\n(true)\n", 10);
    circuit(stdout, b"(circuit 1)\n(true)\n", 11);
    circuit(
        stdout,
        b"(circuit 3)\n(pick 0 (no 1) (pick 1 (yes 2) (true)))\n",
        55,
    );
    circuit(
        stdout,
        b"(circuit 3)\n(pick 0 (no 1) (pick 1 (yes 2) (true)))\n",
        54,
    );
    circuit(
        stdout,
        b"(circuit 3)\n(pick 0 (no 1) (pick 1 (yes 2) (true)))\n",
        33,
    );
    circuit(
        stdout,
        b"(circuit 1)\n(true)\n(pick 0 (line 0) (line 0))\n",
        21,
    );
    circuit(
        stdout,
        b"(circuit 1)\n(both (true) (both (true) (both (true) (both (true) (both (true) (true))))))\n",
        110,
    );
}

// 15 in the third form of a conjunction and at its closing bracket, and room enough.
fn rooms_of_three(stdout: Stdout) {
    circuit(stdout, b"(circuit 1)\n(both (true) (true) (true))\n", 32);
    circuit(stdout, b"(circuit 1)\n(both (true) (true) (true))\n", 43);
    circuit(stdout, b"(circuit 1)\n(both (true) (true) (true))\n", 44);
}

// 15 beside another fault, at one byte and at two.
fn rooms_and_faults(stdout: Stdout) {
    circuit(stdout, b"(circuit 1)\n(yes 1)\n", 0);
    circuit(stdout, b"(circuit 1)\n(both (true) (yes 1))\n", 0);
    circuit(stdout, b"(circuit 1)\n(true \n", 0);
    circuit(stdout, b"(circuit 1)\n(both (line 0) (true))\n", 0);
}

// 11 and 12 in one text.
fn shapes_and_ranges(stdout: Stdout) {
    circuit(stdout, b"(circuit 0)x(true)\n", WORDS);
    circuit(stdout, b"(circuit 0x)\n(true)\n", WORDS);
    circuit(stdout, b"(circuit 41", WORDS);
    circuit(stdout, b"(circuit 41000)\n(true)\n", WORDS);
    circuit(stdout, b"(circuit 1)x(yes 1)\n", WORDS);
    circuit(stdout, b"(circuit 1)\n(yes 1)x", WORDS);
    circuit(stdout, b"(circuit 1)\n(yes 1 )\n", WORDS);
    circuit(stdout, b"(circuit 1)\n(yes 1", WORDS);
    circuit(stdout, b"(circuit 1)\n(pick 5 (maybe) (true))\n", WORDS);
    circuit(stdout, b"(circuit 1)\n(pick 5)\n", WORDS);
}

// 10, and the longest text that is read.
fn lengths(stdout: Stdout) {
    let long = [b'('; 110001];
    circuit(stdout, &long, WORDS);
    circuit(stdout, &long[..110000], WORDS);
}

// Assignment lines that are read, and 21.
fn assignments(stdout: Stdout) {
    assignment(stdout, b"(stow)\n", 3);
    assignment(stdout, b"(stow 0)\n", 1);
    assignment(stdout, b"(stow 0 3)\n", 4);
    assignment(stdout, b"(stow 0 1 2)\n", 3);
    assignment(stdout, b"(stow 39)\n", 40);
    assignment(stdout, b"(stow 7 12 38 39)\n", 40);
    assignment(stdout, b"(stow)\n", 0);
    assignment(stdout, b"(stow)\n", 41);
    assignment(stdout, b"", 0);
}

// 52.
fn misplaced(stdout: Stdout) {
    assignment(stdout, b"(stow 2 1)\n", 3);
    assignment(stdout, b"(stow 1 1)\n", 3);
    assignment(stdout, b"(stow 3)\n", 3);
    assignment(stdout, b"(stow 0 40)\n", 40);
    assignment(stdout, b"(stow 3 1 0x", 3);
}

// 51.
fn misshapen_assignments(stdout: Stdout) {
    assignment(stdout, b"", 3);
    assignment(stdout, b"(row)\n", 3);
    assignment(stdout, b"(sto", 3);
    assignment(stdout, b"(stow 0)", 3);
    assignment(stdout, b"(stow 0)\n\n", 3);
    assignment(stdout, b"(stow 0)\n(stow 1)\n", 3);
    assignment(stdout, b"(stow 01)\n", 3);
    assignment(stdout, b"(stow 12345)\n", 3);
    assignment(stdout, b"(stow  0)\n", 3);
    assignment(stdout, b"(stow 0 )\n", 3);
    assignment(stdout, b"(stow 0\t1)\n", 3);
    assignment(stdout, b"(stow 3x)\n", 3);
    assignment(stdout, b"(stow 2 1", 3);
}

fn main(rt: HostRuntime) {
    let stdout = rt.stdout();
    small_circuits(stdout);
    example_one(stdout);
    shared_lines(stdout);
    wide_conjunctions(stdout);
    cut_short(stdout);
    misshapen_lines(stdout);
    misshapen_forms(stdout);
    conjunctions_of_others(stdout);
    third_forms(stdout);
    faults_in_third_forms(stdout);
    ranges(stdout);
    references(stdout);
    deep_right(stdout);
    deep_left(stdout);
    rooms(stdout);
    rooms_of_three(stdout);
    rooms_and_faults(stdout);
    shapes_and_ranges(stdout);
    lengths(stdout);
    assignments(stdout);
    misplaced(stdout);
    misshapen_assignments(stdout);
}
