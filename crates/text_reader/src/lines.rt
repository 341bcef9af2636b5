// The lines of a circuit text, after its header.
ghost use Rattle.std.specs.Prelude.{◌≡◌, ◌≤◌, length, replicate};
ghost use Rattle.table.specs.Layout.{words_for};
ghost use Rattle.table.specs.Node.{max_nodes};
ghost use Rattle.text.specs.Limits.{max_lines};
ghost use Rattle.text.specs.Places.{ReadIs};
ghost use Rattle.text.specs.Read.{lines_at, room_of};

use super::form::form;
use table::MAX_NODES;
use table::layout::room_in;
use text::answer::{Circuit, Fault, Formed, Misread};
use text::head::{Limits, Role};
use text::limits::{MAX_DEPTH, MAX_LINES};
use text::number::{END, NEWLINE, byte_at};

// How many nodes there is room for in so many words.
fn room_of(words: usize) -> u32
    ensures { (result ≡ room_of words) × (result ≤ max_nodes) × (words_for result ≤ words) }
{
    room_in(words).min(MAX_NODES as usize) as u32
}

// The lines after the header; `known` has the node that each earlier line means.
pub fn lines(s: &[u8], start: usize, words: &mut [u32], variables: u32) -> Result<Circuit, Misread>
    requires { start ≤ length s.now }
    ensures { ReadIs result words.new
        (lines_at max_lines s.now variables (room_of (length words.old)) (replicate max_lines 0) 0 start 0
        words.old) }
{
    let room = room_of(words.len());
    let mut known = [0u32; MAX_LINES as usize];
    let mut at = start;
    let mut n: u32 = 0;
    for k in 0..MAX_LINES {
        let limits = Limits {
            variables,
            room,
            earlier: k,
        };
        let Formed { past, nodes, node } = form(
            s,
            at,
            words,
            n,
            &known,
            limits,
            MAX_DEPTH,
            Role::OwnForm,
        )?;
        if byte_at(s, past) != NEWLINE {
            return Err(Misread(Fault::Shape, past));
        }
        if byte_at(s, past + 1) == END {
            return Ok(Circuit { variables, nodes });
        }
        known[k as usize] = node;
        n = nodes;
        at = past + 1;
    }
    Err(Misread(Fault::Nodes, at))
}
