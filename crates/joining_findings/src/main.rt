// Prints the nine cases, and joins of terms: by the nine cases, and of whole masks.
#![tactic(auto)]

use console::print;
use states::State;
use std::io::Stdout;
use terms::Term;

// The scope's word of a state.
fn print_state(stdout: Stdout, s: State) {
    match s {
        State::Absent => print(stdout, b"absent", 6),
        State::Negative => print(stdout, b"no", 2),
        State::Positive => print(stdout, b"yes", 3),
    }
}

// Two states, and what they make.
fn print_case(stdout: Stdout, a: State, b: State) {
    print(stdout, b"(", 1);
    print_state(stdout, a);
    print(stdout, b" ", 1);
    print_state(stdout, b);
    print(stdout, b" ", 1);
    match states::join_states(a, b) {
        Some(s) => print_state(stdout, s),
        None => print(stdout, b"clash", 5),
    }
    print(stdout, b")\n", 2);
}

// A state against all three.
fn print_cases(stdout: Stdout, a: State) {
    print_case(stdout, a, State::Absent);
    print_case(stdout, a, State::Negative);
    print_case(stdout, a, State::Positive);
}

fn print_term(stdout: Stdout, t: Term) {
    let mut line = [0u8; 512];
    let n = output::term_line(&mut line, t);
    print(stdout, &line, n);
}

fn print_conflict(stdout: Stdout) {
    print(stdout, b"(clash)\n", 8);
}

// Two terms, their join by the nine cases, and that of their masks.
fn print_join(stdout: Stdout, t: Term, u: Term) {
    print_term(stdout, t);
    print_term(stdout, u);
    match states::join_by_cases(t, u) {
        Some(v) => print_term(stdout, v),
        None => print_conflict(stdout),
    }
    if terms::conflict(t, u) {
        print_conflict(stdout);
    } else {
        print_term(stdout, terms::join(t, u));
    }
    print(stdout, b"\n", 1);
}

// The same of four masks: positive and negative of each.
fn join_masks(stdout: Stdout, tp: u64, tn: u64, up: u64, un: u64) {
    let t = Term {
        positive: tp,
        negative: tn,
    };
    let u = Term {
        positive: up,
        negative: un,
    };
    print_join(stdout, t, u);
}

fn main(rt: HostRuntime) {
    let stdout = rt.stdout();
    print_cases(stdout, State::Absent);
    print_cases(stdout, State::Negative);
    print_cases(stdout, State::Positive);
    print(stdout, b"\n", 1);
    join_masks(stdout, 0, 3, 4, 2);
    join_masks(stdout, 3, 0, 0, 3);
    join_masks(stdout, 0, 0, 5, 0);
    // the highest bits: two variables, and one with both signs
    join_masks(stdout, 0, 1u64 << 62, 1u64 << 63, 0);
    join_masks(stdout, 1u64 << 63, 0, 0, 1u64 << 63);
    // no term: variable 0 is in both masks of the first
    join_masks(stdout, 1, 1, 0, 0);
}
