// The reading of an assignment line.
ghost use Rattle.std.specs.Prelude.{◌≡◌, ◌+◌, ◌≤◌, ◌<◌, length};
ghost use Rattle.table.specs.Node.{max_variables};
ghost use Rattle.lines.specs.Reading.{mapped, read_from};
ghost use Rattle.text_assignment.specs.Answers.{assignment_of};
ghost use Rattle.text_assignment.specs.Line.{members as members_state, line_format, mask_in, read_assignment};
ghost use Rattle.text_assignment.specs.Members.{member_at, closed_at, MemberRuns};

use masks::with_bit;
use table::MAX_VARIABLES;
use text::head::match_at;
use text::number::{CLOSE, END, NEWLINE, SPACE, byte_at, number};

// Why an assignment line is refused.
#[derive(Clone, Copy)]
pub enum AssignmentFault {
    // 21: a number of variables outside its range
    Sizes,
    // 51: wrong shape, at this place
    LineShape(usize),
    // 52: a variable out of range or out of order, at this place
    LineOrder(usize),
}

// After a space a variable from low up to below `variables`, and the place past it; or none, at the closing bracket.
fn next_member(
    s: &[u8],
    variables: u32,
    low: u32,
    at: usize,
) -> Result<Option<(u32, usize)>, AssignmentFault>
    requires { at ≤ length s.now }
    ensures { (result ≡ member_at s.now variables low at) × MemberRuns s.now at variables result }
{
    let c = byte_at(s, at);
    if c == CLOSE {
        return Ok(None);
    }
    if c != SPACE {
        return Err(AssignmentFault::LineShape(at));
    }
    let Some((v, p)) = number(s, at + 1) else {
        return Err(AssignmentFault::LineShape(at + 1));
    };
    let d = byte_at(s, p);
    if d != SPACE && d != CLOSE {
        return Err(AssignmentFault::LineShape(p));
    }
    if v < low || variables <= v {
        return Err(AssignmentFault::LineOrder(p));
    }
    Ok(Some((v, p)))
}

// After the closing bracket: byte 10 and the line's end.
fn closed(s: &[u8], at: usize, mask: u64) -> Result<u64, AssignmentFault>
    requires { at ≤ length s.now }
    ensures { assignment_of result ≡ closed_at s.now at mask }
{
    if byte_at(s, at) != NEWLINE {
        return Err(AssignmentFault::LineShape(at));
    }
    if byte_at(s, at + 1) != END {
        return Err(AssignmentFault::LineShape(at + 1));
    }
    Ok(mask)
}

// The variables and the end of the line.
fn members(s: &[u8], variables: u32, start: usize) -> Result<u64, AssignmentFault>
    requires { (start ≤ length s.now) × (variables ≤ max_variables) }
    ensures { assignment_of result ≡ mapped mask_in (read_from (line_format variables) s.now (members_state 0 0) start) }
{
    let mut at = start;
    let mut low: u32 = 0;
    let mut mask: u64 = 0;
    while let Some((v, p)) = next_member(s, variables, low, at)? {
        mask = with_bit(mask, v);
        low = v + 1;
        at = p;
    }
    closed(s, at + 1, mask)
}

// Reads the line of an assignment of so many variables: the mask of those that are true.
pub fn read_assignment(line: &[u8], variables: u32) -> Result<u64, AssignmentFault>
    ensures { assignment_of result ≡ read_assignment line.now variables }
{
    if variables < 1 || MAX_VARIABLES < variables {
        return Err(AssignmentFault::Sizes);
    }
    let p = match_at(line, 0, b"(stow").map_err(AssignmentFault::LineShape)?;
    members(line, variables, p)
}
