// A form, with the forms in it: the form reader calls the reader of the rest of an inner form and is called by it.
ghost use Rattle.std.specs.Prelude.{◌≡◌, [], ◌+◌, ◌≤◌, length};
ghost use Rattle.table.specs.Layout.{words_for};
ghost use Rattle.table.specs.Node.{max_nodes};
ghost use Rattle.text.specs.Places.{Fit, StepIs};
ghost use Rattle.text.specs.Read.{deep_fault, close_at, end_at, form_at, rest_at, setting};

use super::children::{
    LEAST_FORMS, leaf_words, most_forms, no_children, operator_words, with_child,
};
use table::layout::{Children, NodeWords, put_words};
use text::answer::{Fault, Formed, Misread};
use text::head::{Limits, Opening, Operator, Role, head};
use text::number::{CLOSE, OPEN, SPACE, byte_at};

// The closing bracket makes node n of these words.
fn close(
    s: &[u8],
    at: usize,
    words: &mut [u32],
    n: u32,
    room: u32,
    node: NodeWords,
) -> Result<Formed, Misread>
    requires { (at ≤ length s.now) × (words_for room ≤ length words.old) × (room ≤ max_nodes) }
    ensures { StepIs s.now at result words.new
        (close_at s.now at words.old n room node) }
{
    if byte_at(s, at) != CLOSE {
        return Err(Misread(Fault::Shape, at));
    }
    if room <= n {
        return Err(Misread(Fault::Nodes, at));
    }
    put_words(words, n as usize, node);
    Ok(Formed {
        past: at + 1,
        nodes: n + 1,
        node: n,
    })
}

// The end of an inner form: the closing bracket, after two forms at least. No earlier line is looked at.
fn end(
    s: &[u8],
    at: usize,
    words: &mut [u32],
    n: u32,
    limits: Limits,
    op: Operator,
    children: Children,
) -> Result<Formed, Misread>
    requires { (at ≤ length s.now) × (words_for limits.room ≤ length words.old) × (limits.room ≤ max_nodes) }
    ensures { StepIs s.now at result words.new
        (end_at (setting s.now [] limits) op at words.old n children) }
{
    if children.count < LEAST_FORMS {
        return Err(Misread(Fault::Shape, at));
    }
    close(s, at, words, n, limits.room, operator_words(op, children))
}

// What stands where no more brackets may open.
fn too_deep(s: &[u8], at: usize) -> Fault
    ensures { result ≡ deep_fault s.now at }
{
    if byte_at(s, at) == OPEN {
        return Fault::Depth;
    }
    Fault::Shape
}

// A form after n nodes, in which `left` brackets may be open in one another.
#[cycle(form_rest)]
pub fn form(
    s: &[u8],
    at: usize,
    words: &mut [u32],
    n: u32,
    lines: &[u32],
    limits: Limits,
    left: u32,
    role: Role,
) -> Result<Formed, Misread>
    requires { (at ≤ length s.now) × Fit words.old lines.now limits }
    ensures { StepIs s.now at result words.new
        (form_at left (setting s.now lines.now limits) role at words.old n) }
{
    if left == 0 {
        return Err(Misread(too_deep(s, at), at));
    }
    match head(s, at, role, limits)? {
        Opening::Leaf(kind, x, p) => close(s, p, words, n, limits.room, leaf_words(kind, x)),
        Opening::Line(k, p) => {
            let i = k as usize;
            Ok(Formed {
                past: p + 1,
                nodes: n,
                node: lines[i],
            })
        }
        Opening::Inner(op, p) => rest(s, p, words, n, lines, limits, left - 1, op, no_children()),
    }
}

// The forms after those of `children`, each after a space, and the closing bracket.
#[cycle(form_rest)]
fn rest(
    s: &[u8],
    at: usize,
    words: &mut [u32],
    n: u32,
    lines: &[u32],
    limits: Limits,
    left: u32,
    op: Operator,
    children: Children,
) -> Result<Formed, Misread>
    requires { (at ≤ length s.now) × Fit words.old lines.now limits }
    ensures { StepIs s.now at result words.new
        (rest_at left (setting s.now lines.now limits) op at words.old n children) }
{
    if byte_at(s, at) != SPACE {
        return end(s, at, words, n, limits, op, children);
    }
    if most_forms(op) <= children.count {
        return end(s, at, words, n, limits, op, children);
    }
    let Formed { past, nodes, node } = form(
        s,
        at + 1,
        words,
        n,
        lines,
        limits,
        left,
        Role::Argument,
    )?;
    rest(
        s,
        past,
        words,
        nodes,
        lines,
        limits,
        left,
        op,
        with_child(children, node),
    )
}
