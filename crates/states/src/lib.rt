// States: what a term says of a variable, and the joining of two terms by nine cases of two states.
#![tactic(auto)]

ghost use Rattle.std.specs.Prelude.{◌≡◌, true, ◌<◌};
ghost use Rattle.masks.specs.Mask.{width};
ghost use Rattle.states.specs.Joining.{with_state, join_by_cases};
ghost use Rattle.states.specs.States.{join_states, state_at, case_at};

use terms::Term;

// What a term says of a variable: the scope's absent, no and yes.
#[derive(Clone, Copy)]
pub enum State {
    Absent,
    Negative,
    Positive,
}

// The nine cases: the state that two states of one variable make; none where they conflict, the scope's clash.
pub fn join_states(a: State, b: State) -> Option<State>
    ensures { result ≡ join_states a b }
{
    match (a, b) {
        (State::Absent, State::Absent) => Some(State::Absent),
        (State::Absent, State::Negative) => Some(State::Negative),
        (State::Absent, State::Positive) => Some(State::Positive),
        (State::Negative, State::Absent) => Some(State::Negative),
        (State::Negative, State::Negative) => Some(State::Negative),
        (State::Negative, State::Positive) => None,
        (State::Positive, State::Absent) => Some(State::Positive),
        (State::Positive, State::Negative) => None,
        (State::Positive, State::Positive) => Some(State::Positive),
    }
}

// What any two masks say of x: a bit in both is a conflict.
pub fn state_at(t: Term, x: u32) -> Option<State>
    requires { x < 64 }
    ensures { result ≡ state_at t x }
{
    let positive = terms::has_literal(t, true, x);
    let negative = terms::has_literal(t, false, x);
    match (positive, negative) {
        (false, false) => Some(State::Absent),
        (false, true) => Some(State::Negative),
        (true, false) => Some(State::Positive),
        (true, true) => None,
    }
}

// The case of x in two terms.
pub fn case_at(t: Term, u: Term, x: u32) -> Option<State>
    requires { x < 64 }
    ensures { result ≡ case_at t u x }
{
    let a = state_at(t, x)?;
    let b = state_at(u, x)?;
    join_states(a, b)
}

// The term with x in the given state, whatever it was in.
pub fn with_state(t: Term, x: u32, s: State) -> Term
    requires { x < 64 }
    ensures { result ≡ with_state t x s }
{
    let rest = terms::without(t, x);
    match s {
        State::Absent => rest,
        State::Negative => terms::extend(rest, x, false),
        State::Positive => terms::extend(rest, x, true),
    }
}

// Two terms joined variable by variable, none where they conflict: to show what `terms::conflict` and `terms::join` make of whole masks
// at once.
pub fn join_by_cases(t: Term, u: Term) -> Option<Term>
    ensures { result ≡ join_by_cases width t u }
{
    let mut joined = terms::EMPTY;
    for x in 0..64 {
        let s = case_at(t, u, x)?;
        joined = with_state(joined, x, s);
    }
    Some(joined)
}
