// Asks every question of small circuits and of the one on standard input, and prints the answers.
#![tactic(auto)]

ghost use Rattle.console.specs.Input.{IsPrefixLen};

use console::print;
use measurements::list::MeasurementList;
use output::refusals::{fault_line, table_refusal_line};
use partial::{Judgement, PartialRefusal, Status};
use std::io::{Print, Read, Stdin, Stdout};
use table::layout::NODE_WORDS;
use table::{MAX_NODES, Refusal};
use terms::Term;
use text::answer::{Circuit, Fault, Misread};
use text::limits::MAX_BYTES;

fn print_refusal(stdout: Stdout, why: Refusal) {
    let mut line = [0u8; 512];
    let n = table_refusal_line(&mut line, why);
    print(stdout, &line, n);
}

fn print_fault(stdout: Stdout, fault: Fault, place: usize) {
    let mut line = [0u8; 512];
    let n = fault_line(&mut line, fault, place);
    print(stdout, &line, n);
}

fn print_answer(stdout: Stdout, is_yes: bool) {
    if is_yes {
        print(stdout, b"yes\n", 4);
    } else {
        print(stdout, b"no\n", 3);
    }
}

fn print_term(stdout: Stdout, t: Term) {
    let mut line = [0u8; 512];
    let n = output::term_line(&mut line, t);
    print(stdout, &line, n);
}

fn print_number(stdout: Stdout, number: u64) {
    let _ = stdout.print(number);
}

// The scope's word of a status.
fn print_status(stdout: Stdout, s: Status) {
    match s {
        Status::Falsified => print(stdout, b"(forbidden ", 11),
        Status::Undetermined => print(stdout, b"(open ", 6),
        Status::Satisfied => print(stdout, b"(allowed ", 9),
    }
}

fn print_judgement(stdout: Stdout, j: Judgement) {
    print_status(stdout, j.status);
    print_number(stdout, j.models);
    print(stdout, b" ", 1);
    print_number(stdout, j.countermodels);
    print(stdout, b")\n", 2);
}

// 53 with the measurement.
fn print_wrong(stdout: Stdout, i: usize) {
    let mut line = [0u8; 512];
    let n = output::refusal_line(&mut line, 53, i as u64);
    print(stdout, &line, n);
}

// The model count.
fn count(stdout: Stdout, words: &[u32], variables: u32, nodes: u32) {
    match queries::count_models(words, variables, nodes) {
        Err(why) => print_refusal(stdout, why),
        Ok(m) => {
            print_number(stdout, m);
            print(stdout, b"\n", 1);
        }
    }
}

// The value at an assignment.
fn evaluate(stdout: Stdout, words: &[u32], variables: u32, nodes: u32, assignment: u64) {
    match queries::evaluate(words, variables, nodes, assignment) {
        Err(why) => print_refusal(stdout, why),
        Ok(v) => print_answer(stdout, v),
    }
}

// Whether the term is an implicant, and a prime one.
fn test(stdout: Stdout, words: &[u32], variables: u32, nodes: u32, t: Term) {
    match queries::implies(words, variables, nodes, t) {
        Err(why) => print_refusal(stdout, why),
        Ok(b) => print_answer(stdout, b),
    }
    match queries::is_prime(words, variables, nodes, t) {
        Err(why) => print_refusal(stdout, why),
        Ok(b) => print_answer(stdout, b),
    }
}

// What is left of an assignment.
fn reduce(stdout: Stdout, words: &[u32], variables: u32, nodes: u32, assignment: u64) {
    match queries::reduce(words, variables, nodes, assignment) {
        Err(why) => print_refusal(stdout, why),
        Ok(t) => print_term(stdout, t),
    }
}

// The judgement of a partial assignment: a term, and measurements of variables.
fn judge(
    stdout: Stdout,
    words: &[u32],
    variables: u32,
    nodes: u32,
    positive: u64,
    negative: u64,
    list: MeasurementList,
) {
    let t = Term { positive, negative };
    match partial::evaluate_partial(words, variables, nodes, t, list) {
        Err(PartialRefusal::Table(why)) => print_refusal(stdout, why),
        Err(PartialRefusal::Measurement(i)) => print_wrong(stdout, i),
        Ok(j) => print_judgement(stdout, j),
    }
}

// Asks the questions of the circuit of a text, with one assignment and one term.
fn ask(stdout: Stdout, text: &[u8], assignment: u64, positive: u64, negative: u64) {
    let mut words = [0u32; NODE_WORDS * (MAX_NODES as usize)];
    match text_reader::reader::read(text, &mut words) {
        Err(Misread(fault, place)) => print_fault(stdout, fault, place),
        Ok(Circuit { variables, nodes }) => {
            count(stdout, &words, variables, nodes);
            evaluate(stdout, &words, variables, nodes, assignment);
            test(
                stdout,
                &words,
                variables,
                nodes,
                Term { positive, negative },
            );
            reduce(stdout, &words, variables, nodes, assignment);
            judge(
                stdout,
                &words,
                variables,
                nodes,
                positive,
                negative,
                MeasurementList {
                    variables: &[],
                    lows: &[],
                    highs: &[],
                    thresholds: &[],
                },
            );
        }
    }
    print(stdout, b"\n", 1);
}

// Measurements: variable 0 true and 1 left unknown; 1 true, where the term has 0 false; 0 false, and 1, which the term has.
fn measured_questions(stdout: Stdout, words: &[u32], variables: u32, nodes: u32) {
    judge(
        stdout,
        words,
        variables,
        nodes,
        0,
        0,
        MeasurementList {
            variables: &[0, 1],
            lows: &[10, -3],
            highs: &[12, 3],
            thresholds: &[10, 0],
        },
    );
    judge(
        stdout,
        words,
        variables,
        nodes,
        0,
        1,
        MeasurementList {
            variables: &[1],
            lows: &[-4],
            highs: &[-4],
            thresholds: &[-4],
        },
    );
    judge(
        stdout,
        words,
        variables,
        nodes,
        0,
        2,
        MeasurementList {
            variables: &[0, 1],
            lows: &[5, 5],
            highs: &[9, 9],
            thresholds: &[10, 10],
        },
    );
}

// Asks the circuit of a text with measurements.
fn ask_measured(stdout: Stdout, text: &[u8]) {
    let mut words = [0u32; NODE_WORDS * (MAX_NODES as usize)];
    match text_reader::reader::read(text, &mut words) {
        Err(Misread(fault, place)) => print_fault(stdout, fault, place),
        Ok(Circuit { variables, nodes }) => measured_questions(stdout, &words, variables, nodes),
    }
    print(stdout, b"\n", 1);
}

// P1 to P8.
fn smallest_circuits(stdout: Stdout) {
    ask(stdout, b"(circuit 1)\n(false)\n", 0, 0, 0);
    ask(stdout, b"(circuit 1)\n(true)\n", 1, 1, 0);
    ask(stdout, b"(circuit 1)\n(pick 0 (true) (true))\n", 0, 0, 0);
    ask(stdout, b"(circuit 2)\n(both (yes 0) (no 1))\n", 1, 1, 2);
    ask(stdout, b"(circuit 1)\n(both (yes 0) (no 0))\n", 0, 0, 0);
    ask(stdout, b"(circuit 1)\n(pick 0 (yes 0) (true))\n", 0, 0, 0);
    ask(stdout, b"(circuit 1)\n(pick 0 (false) (false))\n", 0, 0, 0);
    ask(stdout, b"(circuit 1)\n(yes 0)\n(no 0)\n", 0, 0, 0);
}

// P9, with measurements too, to P12; 31 and 32 with an assignment and a term that name variable 4.
fn larger_circuits(stdout: Stdout) {
    let text = b"(circuit 3)\n(pick 0 (no 1) (pick 1 (yes 2) (true)))\n";
    ask(stdout, text, 5, 4, 2);
    ask_measured(stdout, text);
    ask(stdout, b"(circuit 4)\n(pick 3 (true) (yes 2))\n", 12, 4, 8);
    ask(
        stdout,
        b"(circuit 4)\n(pick 0 (pick 3 (true) (yes 2)) (no 2))\n",
        5,
        1,
        4,
    );
    ask(
        stdout,
        b"(circuit 4)\n(pick 1 (pick 0 (pick 3 (true) (yes 2)) (no 2)) (both (no 2) (no 3)))\n",
        16,
        16,
        0,
    );
}

// Conjunctions of eight and of three; 24 between the first child and the last, and at one node in two places; 25 at the third child.
fn wide_conjunctions(stdout: Stdout) {
    ask(
        stdout,
        b"(circuit 8)\n(both (yes 0) (no 1) (yes 2) (no 3) (yes 4) (no 5) (yes 6) (no 7))\n",
        85,
        85,
        170,
    );
    ask(
        stdout,
        b"(circuit 6)\n(both (pick 0 (yes 1) (true)) (pick 2 (yes 3) (true)) (pick 4 (yes 5) (true)))\n",
        63,
        21,
        0,
    );
    ask(
        stdout,
        b"(circuit 2)\n(both (yes 0) (yes 1) (no 0))\n",
        0,
        0,
        0,
    );
    ask(
        stdout,
        b"(circuit 1)\n(yes 0)\n(both (line 0) (true) (line 0))\n",
        0,
        0,
        0,
    );
    ask(
        stdout,
        b"(circuit 2)\n(both (yes 0) (yes 1) (false))\n",
        0,
        0,
        0,
    );
}

// Reads until the buffer is full, the input ends or a read fails: how many bytes came.
fn read_full(mut stdin: Stdin, buf: &mut [u8]) -> usize
    ensures { IsPrefixLen result buf.new }
{
    let mut done: usize = 0;
    while done < buf.len() {
        let came = stdin.read(&mut buf[done..]).unwrap_or(0);
        if came == 0 {
            break;
        }
        done += came;
    }
    done
}

fn main(rt: HostRuntime) {
    let stdout = rt.stdout();
    smallest_circuits(stdout);
    larger_circuits(stdout);
    wide_conjunctions(stdout);
    let mut text = [0u8; MAX_BYTES + 1];
    let length = read_full(rt.stdin(), &mut text);
    ask(stdout, &text[..length], 0, 0, 0);
}
