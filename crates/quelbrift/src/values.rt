// What each operation answers when its work is done, in values.
ghost use Rattle.partial.specs.Answers.{judged};
ghost use Rattle.quelbrift.specs.Boundary.{nothing, number, numbers, truth, masks};

use super::answer::{Answer, Values, done_with};
use partial::{Judgement, status_number};
use terms::Term;
use text::answer::Circuit;

impl Values for () {
    ghost values = { nothing };

    fn done(self) -> Answer {
        done_with(0, 0, 0)
    }
}

// 1 for yes, 0 for no.
impl Values for bool {
    ghost values = { truth };

    fn done(self) -> Answer {
        done_with(self as u64, 0, 0)
    }
}

impl Values for u64 {
    ghost values = { number };

    fn done(self) -> Answer {
        done_with(self, 0, 0)
    }
}

impl Values for u32 {
    ghost values = { number };

    fn done(self) -> Answer {
        u64::from(self).done()
    }
}

impl Values for usize {
    ghost values = { number };

    fn done(self) -> Answer {
        (self as u64).done()
    }
}

// The two masks.
impl Values for Term {
    ghost values = { masks };

    fn done(self) -> Answer {
        done_with(self.positive, self.negative, 0)
    }
}

// The numbers of variables and of nodes.
impl Values for Circuit {
    ghost values = { λ circuit. numbers (circuit.variables, circuit.nodes) };

    fn done(self) -> Answer {
        done_with(self.variables as u64, self.nodes as u64, 0)
    }
}

// The status, and the numbers of completions.
impl Values for Judgement {
    ghost values = { judged };

    fn done(self) -> Answer {
        let status = status_number(self.status) as u64;
        done_with(status, self.models, self.countermodels)
    }
}
