// The writing of a circuit text.
ghost use Rattle.std.specs.Prelude.{◌≡◌, ◌+◌, ◌≤◌, ◌<◌, ◌++◌, length};
ghost use Rattle.table.specs.Gate.{child_list, gate_node};
ghost use Rattle.table.specs.Layout.{max_children};
ghost use Rattle.table.specs.Node.{decision, conjunction};
ghost use Rattle.table.specs.Words.{Readable};
ghost use Rattle.text.specs.Ascii.{ascii};
ghost use Rattle.text.specs.Syntax.{decimal, print_form, print_forms, constant_form, literal_form, line_form};
ghost use Rattle.text.specs.Write.{line_forms, node_form, table_text, write_text, write_table};
ghost use Rattle.text_writer.specs.Sink.{Wrote, WriteIs};

use super::fault::WriteFault;
use super::sink::{put_bytes, put_number};
use table::gates::{Decoded, Gate, decode_at};
use table::layout::Children;
use table::words::check_words;

// A word with its number, and the closing bracket.
fn put_numbered(d: &mut [u8], at: usize, word: &[u8], v: u32) -> usize
    requires { (at < 700000) × (length word.now ≤ 16) }
    ensures { Wrote d.old at d.new result (word.now ++ decimal v ++ ascii ")") × (result ≤ at + 36) }
{
    let p = put_bytes(d, at, word);
    let q = put_number(d, p, v);
    put_bytes(d, q, b")")
}

// A child, as the line of its node.
fn put_child(d: &mut [u8], at: usize, c: u32) -> usize
    requires { at < 700000 }
    ensures { Wrote d.old at d.new result (ascii " " ++ print_form (line_form c)) × (result ≤ at + 36) }
{
    put_numbered(d, at, b" (line ", c)
}

// All children, the first one first.
fn put_children(d: &mut [u8], at: usize, children: Children) -> usize
    requires { (at < 600000) × (children.count ≤ max_children) }
    ensures { Wrote d.old at d.new result (print_forms (line_forms (child_list children))) × (result ≤ at + 288) }
{
    let nodes = children.nodes;
    let count = children.count as usize;
    let mut p = at;
    for k in 0..count {
        p = put_child(d, p, nodes[k]);
    }
    p
}

fn put_constant(d: &mut [u8], at: usize, v: bool) -> usize
    requires { at < 600000 }
    ensures { Wrote d.old at d.new result (print_form (constant_form v)) × (result ≤ at + 16) }
{
    if v {
        return put_bytes(d, at, b"(true)");
    }
    put_bytes(d, at, b"(false)")
}

fn put_literal(d: &mut [u8], at: usize, sign: bool, x: u32) -> usize
    requires { at < 600000 }
    ensures { Wrote d.old at d.new result (print_form (literal_form sign x)) × (result ≤ at + 36) }
{
    if sign {
        return put_numbered(d, at, b"(yes ", x);
    }
    put_numbered(d, at, b"(no ", x)
}

fn put_decision(d: &mut [u8], at: usize, x: u32, low: u32, high: u32) -> usize
    requires { at < 500000 }
    ensures { Wrote d.old at d.new result (print_form (node_form (decision x low high))) × (result ≤ at + 120) }
{
    let p = put_bytes(d, at, b"(pick ");
    let q = put_number(d, p, x);
    let t = put_child(d, q, low);
    let u = put_child(d, t, high);
    put_bytes(d, u, b")")
}

fn put_conjunction(d: &mut [u8], at: usize, children: Children) -> usize
    requires { (at < 500000) × (children.count ≤ max_children) }
    ensures { Wrote d.old at d.new result (print_form (node_form (conjunction (child_list children))))
        × (result ≤ at + 320) }
{
    let p = put_bytes(d, at, b"(both");
    let q = put_children(d, p, children);
    put_bytes(d, q, b")")
}

// The form of a node.
fn put_form(d: &mut [u8], at: usize, node: Decoded) -> usize
    requires { (at < 500000) × (node.children.count ≤ max_children) }
    ensures { Wrote d.old at d.new result (print_form (node_form (gate_node node.gate node.children)))
        × (result ≤ at + 320) }
{
    let gate = node.gate;
    match gate {
        Gate::Constant(v) => put_constant(d, at, v),
        Gate::Literal(sign, x) => put_literal(d, at, sign, x),
        Gate::Decision(x, low, high) => put_decision(d, at, x, low, high),
        Gate::Conjunction => {
            let children = node.children;
            put_conjunction(d, at, children)
        }
        Gate::Unknown => put_constant(d, at, false),
    }
}

// The line of a node.
fn put_line(d: &mut [u8], at: usize, node: Decoded) -> usize
    requires { (at < 500000) × (node.children.count ≤ max_children) }
    ensures { Wrote d.old at d.new result
        (print_form (node_form (gate_node node.gate node.children)) ++ ascii "\n") × (result ≤ at + 336) }
{
    let p = put_form(d, at, node);
    put_bytes(d, p, b"\n")
}

// The header and the line of each node.
fn put_table(d: &mut [u8], words: &[u32], variables: u32, nodes: usize) -> usize
    requires { Readable nodes words.now }
    ensures { Wrote d.old 0 d.new result (table_text variables nodes words.now) }
{
    let h = put_numbered(d, 0, b"(circuit ", variables);
    let mut p = put_bytes(d, h, b"\n");
    for i in 0..nodes {
        p = put_line(d, p, decode_at(words, i));
    }
    p
}

// The length of the text.
fn measure(words: &[u32], variables: u32, nodes: usize) -> usize
    requires { Readable nodes words.now }
    ensures { result ≡ length (table_text variables nodes words.now) }
{
    let mut none = [0u8; 1];
    put_table(&mut none[..0], words, variables, nodes)
}

// The text into the sink, if it fits: its length.
fn write_fitting(
    words: &[u32],
    variables: u32,
    n: usize,
    sink: &mut [u8],
) -> Result<usize, WriteFault>
    requires { Readable n words.now }
    ensures { WriteIs result sink.new (write_text (table_text variables n words.now) sink.old) }
{
    let need = measure(words, variables, n);
    if sink.len() < need {
        return Err(WriteFault::Sink(need));
    }
    Ok(put_table(sink, words, variables, n))
}

// Writes a table as text, node i as line i: the length of the text. A refusal leaves the sink unchanged.
pub fn write(
    words: &[u32],
    variables: u32,
    nodes: u32,
    sink: &mut [u8],
) -> Result<usize, WriteFault>
    ensures { WriteIs result sink.new (write_table variables nodes words.now sink.old) }
{
    check_words(words, variables, nodes)?;
    write_fitting(words, variables, nodes as usize, sink)
}
