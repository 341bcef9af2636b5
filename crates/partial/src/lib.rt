// The question of a partial assignment to a circuit: a term says what is known, and measurements add to it.
#![tactic(auto)]

ghost use Rattle.std.specs.Prelude.{◌≡◌, ◌-◌, ◌^◌, ◌≤◌, T, eqb};
ghost use Rattle.table.specs.Outcome.{accepted};
ghost use Rattle.terms.specs.Completions.{status_by};
ghost use Rattle.terms.specs.Term.{is_term, literals};
ghost use Rattle.measurements.specs.List.{measurements_in};
ghost use Rattle.circuits.specs.Check.{check};
ghost use Rattle.queries.specs.Queries.{circuit};
ghost use Rattle.partial.specs.Answers.{status_number, judged, partial_outcome};
ghost use Rattle.partial.specs.declared.PartialRefusal.{PartialRefusal};
ghost use Rattle.partial.specs.Partial.{judgement, partial_evaluation};

use measurements::list::MeasurementList;
use table::Refusal;
use terms::Term;

// What the completions say together, the scope's verdict on a half-known stow, with its number.
#[derive(Clone, Copy)]
pub enum Status {
    // no completion satisfies the circuit: forbidden
    Falsified = 0,
    // some do, and some do not: open
    Undetermined = 1,
    // every one does: allowed
    Satisfied = 2,
}

// The scope's number of a status.
pub fn status_number(s: Status) -> u32
    ensures { result ≡ status_number s }
{
    s as u32
}

// The status, and how many completions satisfy the circuit and how many do not.
#[derive(Clone, Copy)]
pub struct Judgement {
    pub status: Status,
    pub models: u64,
    pub countermodels: u64,
}

// Why there is no judgement: a measurement is wrong, by its place in the lists, or the table or the term is refused.
#[derive(Clone, Copy)]
pub enum PartialRefusal {
    Measurement(usize),
    Table(Refusal),
}

impl From<Refusal> for PartialRefusal {
    ghost from_gives = { λ r e. e ≡ PartialRefusal.Table r };

    fn from(why: Refusal) -> PartialRefusal {
        PartialRefusal::Table(why)
    }
}

// The status by the two numbers.
fn status_of(models: u64, countermodels: u64) -> Status
    ensures { status_number result ≡ status_by (eqb countermodels 0) (eqb models 0) }
{
    if countermodels == 0 {
        return Status::Satisfied;
    }
    if models == 0 {
        return Status::Falsified;
    }
    Status::Undetermined
}

// The number of completions: doubled by each variable without a literal.
fn completions(variables: u32, t: Term) -> u64
    requires { (variables ≤ 40) × (literals t ≤ variables) }
    ensures { result ≡ 2 ^ (variables - literals t) }
{
    1u64 << (variables - terms::literals(t))
}

// The judgement of an accepted circuit on a term over its variables. Cost: a constant number of steps a child.
pub fn judge(words: &[u32], variables: u32, n: usize, t: Term) -> Judgement
    requires { (check variables n words.now ≡ accepted) × T (is_term variables t) }
    ensures { judged result ≡ judgement variables (circuit n words.now) t }
{
    let models = passes::models_under(words, variables, n, t);
    let countermodels = completions(variables, t) - models;
    Judgement {
        status: status_of(models, countermodels),
        models,
        countermodels,
    }
}

// The judgement on a term with the measurements' literals added.
// Cost: that of the check, a constant number of steps a child, and that of the measurements.
pub fn evaluate_partial(
    words: &[u32],
    variables: u32,
    nodes: u32,
    t: Term,
    list: MeasurementList,
) -> Result<Judgement, PartialRefusal>
    ensures { partial_outcome result ≡ partial_evaluation variables nodes words.now t (measurements_in list.entry) }
{
    checks::check_term(words, variables, nodes, t)?;
    let known = measurements::measure(variables, t, list).map_err(PartialRefusal::Measurement)?;
    Ok(judge(words, variables, nodes as usize, known))
}
