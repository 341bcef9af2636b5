// The line of a refusal.
ghost use Rattle.table.specs.Outcome.{number_of, node_of};
ghost use Rattle.text.specs.Answers.{fault_number};
ghost use Rattle.text_writer.specs.Sink.{Wrote};
ghost use Rattle.output.specs.Lines.{refusal_line, table_refusal_line};

use super::{number_line, refusal_line};
use table::{Refusal, node_of, number_of};
use text::answer::{Fault, fault_number};

// Why a text is refused, with the place.
pub fn fault_line(sink: &mut [u8], fault: Fault, place: usize) -> usize
    ensures { Wrote sink.old 0 sink.new result (refusal_line (fault_number fault) place) }
{
    refusal_line(sink, fault_number(fault), place as u64)
}

// Why a table is refused, with the node; 42 comes with its number only.
pub fn table_refusal_line(sink: &mut [u8], why: Refusal) -> usize
    ensures { Wrote sink.old 0 sink.new result (table_refusal_line (number_of why) (node_of why)) }
{
    let k = number_of(why);
    match why {
        Refusal::Capacity => number_line(sink, k),
        _ => refusal_line(sink, k, node_of(why) as u64),
    }
}
