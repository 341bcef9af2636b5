// Down from a join to a least join inside it.
ghost use Rattle.std.specs.Prelude.{◌≡◌, true};
ghost use mathlib.Core.List.{Memᴰ};
ghost use Rattle.terms.specs.Joins.{joins};
ghost use Rattle.terms.specs.Term.{inside};
ghost use Rattle.lists.specs.List.{terms_in};
ghost use Rattle.settling.specs.Sides.{SidesAt, least_between};

use lists::list::TermList;
use terms::Term;

// A least join inside the join q: while there is a shorter join inside, that one.
pub fn strike(a: TermList, b: TermList, q: Term) -> Term
    requires sides_at { SidesAt a b }
    requires fact { Memᴰ q (joins (terms_in a) (terms_in b)) }
    ensures { Memᴰ result (least_between a.entry b.entry)
        × (inside result q ≡ true) }
{
    let mut t = q;
    while let Some((k, l)) = lists::find_shorter(a, b, t) {
        t = terms::join(a.at(k), b.at(l));
    }
    t
}
