// How far a list has grown, and one term more.
ghost use Rattle.std.specs.Prelude.{[], ◌*◌, ◌≤◌, length};
ghost use Rattle.terms.specs.Lists.{Rising};
ghost use Rattle.terms.specs.Order.{before};
ghost use Rattle.lists.specs.List.{SameLoan, held, slots};
ghost use Rattle.settling.specs.Growth.{Keeps};

use lists::list::TermBuffer;
use terms::Term;

// How many terms are listed, how many of them are kept at hand, and what the last row of joins cost.
#[derive(Clone, Copy)]
pub struct Counts {
    pub listed: usize,
    pub kept: usize,
    pub cost: usize,
}

// Lists t, and keeps it at hand where it is new and there is room. The counts then; none where there are more terms than the slices have
// entries.
pub fn keep(list: &mut TermBuffer, kept: &mut [u64], counts: Counts, t: Term) -> Option<Counts>
    requires listed_in_bounds { (counts.listed ≤ length list.old.positives.now)
        × Rising (before []) (held (slots list.old) counts.listed) }
    requires kept_in_bounds { 2 * counts.kept ≤ length kept.old }
    ensures made { Keeps t (slots list.old) kept.old counts
        (slots list.new) kept.new result }
    ensures same_loan { SameLoan list.old list.new }
{
    let listed = insertion::insert(list, counts.listed, t)?;
    let k = counts.kept;
    if counts.listed < listed && 2 * k + 2 <= kept.len() {
        hints::put_kept(kept, k, t);
        return Some(Counts {
            listed,
            kept: k + 1,
            ..counts
        });
    }
    Some(Counts { listed, ..counts })
}
