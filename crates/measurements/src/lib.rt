// Measurements: what a quantity known within limits says of a variable, and the term with what a list of them says.
#![tactic(auto)]

ghost use Rattle.std.specs.Prelude.{◌≡◌, ◌||◌, ◌<◌, leb, length};
ghost use Rattle.std.specs.Int.Signed.{lt_z};
ghost use Rattle.masks.specs.Mask.{bit};
ghost use Rattle.terms.specs.Term.{variables as variables_of};
ghost use Rattle.measurements.specs.Answers.{measured_outcome};
ghost use Rattle.measurements.specs.List.{measurements_in};
ghost use Rattle.measurements.specs.Measurement.{with_measured, measured_term, with_measurements};
ghost use Rattle.measurements.specs.Walk.{first_wrong, Usable};

pub mod list;

use list::{Measurement, MeasurementList};
use terms::Term;

// The term with the literal that a measurement gives, if it gives one.
fn with_measured(t: Term, m: Measurement) -> Term
    requires { m.variable < 64 }
    ensures { result ≡ with_measured t m.variable m.low m.high m.threshold }
{
    if m.threshold <= m.low {
        return terms::extend(t, m.variable, true);
    }
    if m.high < m.threshold {
        return terms::extend(t, m.variable, false);
    }
    t
}

// A complete measurement is wrong; the variables seen are those of the term and of the measurements before it.
fn is_wrong(variables: u32, seen: u64, m: Measurement) -> bool
    requires { variables < 64 }
    ensures { result ≡ (lt_z m.high m.low || leb variables m.variable || bit seen m.variable) }
{
    m.high < m.low || variables <= m.variable || masks::has_bit(seen, m.variable)
}

// The lowest wrong measurement. The term's variables are known without one.
fn first_wrong(variables: u32, t: Term, list: MeasurementList) -> Option<usize>
    requires { variables < 64 }
    ensures { result ≡ first_wrong variables (variables_of t) (measurements_in list.entry) }
{
    let complete = list.complete();
    let mut seen = terms::variables(t);
    for i in 0..complete {
        let m = list.at(i);
        if is_wrong(variables, seen, m) {
            return Some(i);
        }
        seen = masks::with_bit(seen, m.variable);
    }
    if complete < list.entries() {
        return Some(complete);
    }
    None
}

// The term with the literals of all measurements.
fn with_all(t: Term, list: MeasurementList) -> Term
    requires { Usable (length list.variables.now) (measurements_in list) }
    ensures { result ≡ measured_term t (measurements_in list.entry) (length list.entry.variables.now) }
{
    let mut u = t;
    for i in 0..list.variables.len() {
        u = with_measured(u, list.at(i));
    }
    u
}

// The term with the measurements' literals, or the lowest wrong measurement. Any lengths: an entry at or past the shortest slice's end
// is wrong. Cost: a constant number of steps a measurement; of those before the lowest wrong one there is at most one a variable.
pub fn measure(variables: u32, t: Term, list: MeasurementList) -> Result<Term, usize>
    requires { variables < 64 }
    ensures { measured_outcome result ≡ with_measurements variables t (measurements_in list.entry) }
{
    match first_wrong(variables, t, list) {
        Some(i) => Err(i),
        None => Ok(with_all(t, list)),
    }
}
