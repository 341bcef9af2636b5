// All pairs of terms of the two sides, row by row: the side whose rows cost less goes on.
ghost use Rattle.lists.specs.List.{SameLoan, slots};
ghost use Rattle.std.specs.Prelude.{◌≡◌, ◌+◌, ◌*◌, ◌≤◌, ◌<◌, length};
ghost use Rattle.lists.specs.Capacity.{max_capacity};
ghost use Rattle.hints.specs.Scratch.{HasHalves};
ghost use Rattle.settling.specs.Growth.{Growing, Grown};
ghost use Rattle.pairing.specs.Pairs.{Paired, Turns};
ghost use Rattle.settling.specs.Sides.{least_between, AllSettled};

use lists::list::{TermBuffer, TermList};
use settling::counts::Counts;
use settling::rows::{Row, settle_row};

// The first row of a side that is not settled, what the last one cost, and whether the side's columns are made.
#[derive(Clone, Copy)]
pub struct Side {
    pub at: usize,
    pub cost: usize,
    pub made: bool,
}

// What is listed and kept, and where each side stands.
#[derive(Clone, Copy)]
pub struct Turn {
    pub listed: usize,
    pub kept: usize,
    pub low: Side,
    pub high: Side,
}

// The rows that are left, m on the low side and n on the high one, cost less on the low side. Costs are bounded, so that they can be
// multiplied by a number of rows.
fn goes_low(low: Side, high: Side, m: usize, n: usize) -> bool
    requires { (m ≤ max_capacity) × (n ≤ max_capacity) }
{
    low.cost.min(hints::MAX_COST) * m <= high.cost.min(hints::MAX_COST) * n
}

// The side after its next row, which cost so much.
fn moved(side: Side, cost: usize) -> Side
    requires { side.at < max_capacity }
    ensures { result.at ≡ side.at + 1 }
{
    Side {
        at: side.at + 1,
        cost,
        ..side
    }
}

// The side after a row of the other one: its columns were made where that cost something.
fn met(side: Side, cost: usize) -> Side
    ensures { result.at ≡ side.at }
{
    Side {
        made: side.made | (cost > 0),
        ..side
    }
}

// Settles the next row of the low side. Where the sides stand then; none where there are more terms than the slices have entries.
fn step_low(
    list: &mut TermBuffer,
    kept: &mut [u64],
    hints: &mut [u16],
    columns: &mut [u64],
    a: TermList,
    b: TermList,
    turn: Turn,
) -> Option<Turn>
    requires paired { Paired a b (slots list.old) kept.old turn }
    requires has_halves { HasHalves (length a.positives.now) (length b.positives.now) columns.old }
    ensures made { Turns a.entry b.entry
        (slots list.old) turn
        (slots list.new) kept.new result }
    ensures same_loan { SameLoan list.old list.new }
{
    let low = turn.low;
    let high = turn.high;
    let at = low.at;
    let hint = hints::hint_at(hints, at);
    let counts = Counts {
        listed: turn.listed,
        kept: turn.kept,
        cost: low.cost,
    };
    let row = Row {
        counts,
        at,
        from: high.at,
        made: high.made,
        hint,
    };
    let half = hints.len() / 2;
    let middle = columns.len() / 2;
    let c = settle_row(
        list,
        kept,
        &mut hints[half..],
        &mut columns[middle..],
        a,
        b,
        row,
    )?;
    Some(Turn {
        listed: c.listed,
        kept: c.kept,
        low: moved(low, c.cost),
        high: met(high, c.cost),
    })
}

// Settles the next row of the high side.
fn step_high(
    list: &mut TermBuffer,
    kept: &mut [u64],
    hints: &mut [u16],
    columns: &mut [u64],
    a: TermList,
    b: TermList,
    turn: Turn,
) -> Option<Turn>
    requires paired { Paired a b (slots list.old) kept.old turn }
    requires has_halves { HasHalves (length a.positives.now) (length b.positives.now) columns.old }
    ensures made { Turns a.entry b.entry
        (slots list.old) turn
        (slots list.new) kept.new result }
    ensures same_loan { SameLoan list.old list.new }
{
    let low = turn.low;
    let high = turn.high;
    let at = high.at;
    let half = hints.len() / 2;
    let middle = columns.len() / 2;
    let hint = hints::hint_at(hints, half + at);
    let counts = Counts {
        listed: turn.listed,
        kept: turn.kept,
        cost: high.cost,
    };
    let row = Row {
        counts,
        at,
        from: low.at,
        made: low.made,
        hint,
    };
    let c = settle_row(
        list,
        kept,
        &mut hints[..half],
        &mut columns[..middle],
        b,
        a,
        row,
    )?;
    Some(Turn {
        listed: c.listed,
        kept: c.kept,
        low: met(low, c.cost),
        high: moved(high, c.cost),
    })
}

// The next row of the high side is settled at once: the kept term at its hint is inside its term.
fn is_high_settled(kept: &[u64], hints: &[u16], b: TermList, turn: Turn) -> bool
    requires { (2 * turn.kept ≤ length kept.now) × (turn.high.at < length b.positives.now)
        × (turn.high.at < max_capacity) }
{
    let high = turn.high;
    let at = high.at;
    let half = hints.len() / 2;
    let hint = hints::hint_at(hints, half + at);
    hints::covers(kept, turn.kept, hint, b.at(at))
}

// Settles the next row of the high side where that is settled at once, else of the side whose rows cost less. A low row that is settled
// at once costs nothing.
fn step(
    list: &mut TermBuffer,
    kept: &mut [u64],
    hints: &mut [u16],
    columns: &mut [u64],
    a: TermList,
    b: TermList,
    turn: Turn,
) -> Option<Turn>
    requires paired { Paired a b (slots list.old) kept.old turn }
    requires has_halves { HasHalves (length a.positives.now) (length b.positives.now) columns.old }
    ensures made { Turns a.entry b.entry
        (slots list.old) turn
        (slots list.new) kept.new result }
    ensures same_loan { SameLoan list.old list.new }
{
    let low = turn.low;
    let high = turn.high;
    if !is_high_settled(kept, hints, b, turn)
        && goes_low(low, high, a.len() - low.at, b.len() - high.at)
    {
        return step_low(list, kept, hints, columns, a, b, turn);
    }
    step_high(list, kept, hints, columns, a, b, turn)
}

// Settles all pairs.
pub fn join_all(
    list: &mut TermBuffer,
    kept: &mut [u64],
    hints: &mut [u16],
    columns: &mut [u64],
    a: TermList,
    b: TermList,
    start: Counts,
) -> Option<Counts>
    requires growing { Growing a b (slots list.old) kept.old start }
    requires has_halves { HasHalves (length a.positives.now) (length b.positives.now) columns.old }
    ensures made { Grown (least_between a.entry b.entry)
        (least_between a.entry b.entry)
        (λ l. AllSettled (least_between a.entry b.entry) l
        a.entry b.entry)
        (slots list.old) start.listed
        (slots list.new) kept.new result }
    ensures same_loan { SameLoan list.old list.new }
{
    let first = Side {
        at: 0,
        cost: 0,
        made: false,
    };
    let mut turn = Turn {
        listed: start.listed,
        kept: start.kept,
        low: first,
        high: first,
    };
    while turn.low.at < a.len() && turn.high.at < b.len() {
        turn = step(list, kept, hints, columns, a, b, turn)?;
    }
    Some(Counts {
        listed: turn.listed,
        kept: turn.kept,
        cost: 0,
    })
}
