// Why each operation is refused, by the scope's numbers.
ghost use Rattle.std.specs.Prelude.{Err};
ghost use Rattle.table.specs.Outcome.{refused_by};
ghost use Rattle.text.specs.Answers.{reading_of};
ghost use Rattle.text_assignment.specs.Answers.{assignment_of};
ghost use Rattle.text_writer.specs.Answers.{written_of};
ghost use Rattle.partial.specs.Answers.{partial_outcome};
ghost use Rattle.quelbrift.specs.Boundary.{reason_of};

use super::answer::{Answer, Reason, refused_at};
use partial::PartialRefusal;
use table::{Refusal, node_of, number_of};
use text::answer::{Misread, fault_number};
use text_assignment::assignment::AssignmentFault;
use text_writer::fault::WriteFault;

impl Reason for Refusal {
    ghost reason = { λ why. reason_of {A = Unit {0}} (refused_by why) };

    fn refused(self) -> Answer {
        refused_at(number_of(self), node_of(self) as u64)
    }
}

impl Reason for Misread {
    ghost reason = { λ why. reason_of (reading_of (Err why)) };

    fn refused(self) -> Answer {
        let Misread(fault, place) = self;
        refused_at(fault_number(fault), place as u64)
    }
}

impl Reason for WriteFault {
    ghost reason = { λ why. reason_of (written_of (Err why)) };

    fn refused(self) -> Answer {
        match self {
            WriteFault::Table(why) => why.refused(),
            WriteFault::Sink(length) => refused_at(16, length as u64),
        }
    }
}

impl Reason for AssignmentFault {
    ghost reason = { λ why. reason_of (assignment_of (Err why)) };

    fn refused(self) -> Answer {
        match self {
            AssignmentFault::Sizes => refused_at(21, 0),
            AssignmentFault::LineShape(place) => refused_at(51, place as u64),
            AssignmentFault::LineOrder(place) => refused_at(52, place as u64),
        }
    }
}

impl Reason for PartialRefusal {
    ghost reason = { λ why. reason_of (partial_outcome (Err why)) };

    fn refused(self) -> Answer {
        match self {
            PartialRefusal::Measurement(place) => refused_at(53, place as u64),
            PartialRefusal::Table(why) => why.refused(),
        }
    }
}
