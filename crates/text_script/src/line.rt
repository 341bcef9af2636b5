// A line of a loading script, after its opening bracket.
ghost use Rattle.std.specs.Prelude.{◌+◌, ◌≤◌, ◌<◌, length};
ghost use Rattle.text_script.specs.Lines.{Reads, Ended, LineRuns};
ghost use Rattle.text_script.specs.Script.{opened, setting, sign, dropping};

use super::answer::ScriptFault;
use steps::Step;
use text::answer::Fault;
use text::head::{match_at, ranged};
use text::number::{CLOSE, SPACE, byte_at};

const SMALL_D: u32 = b'd' as u32;

const SMALL_N: u32 = b'n' as u32;

const SMALL_S: u32 = b's' as u32;

const SMALL_Y: u32 = b'y' as u32;

// The acts of a step.
const SET_NO: u32 = 0;

const SET_YES: u32 = 1;

const DROP: u32 = 2;

// The end of a line, which is this word: the step that the line means, and the place past it.
fn ending(
    s: &[u8],
    at: usize,
    word: &[u8],
    variable: u32,
    act: u32,
) -> Result<(Step, usize), ScriptFault>
    requires { (at ≤ length s.now) × (length word.now ≤ 16) }
    ensures { Ended s.now at word.now variable act result × LineRuns s.now at result }
{
    let p = match_at(s, at, word).map_err(ScriptFault::Shape)?;
    Ok((Step { variable, act }, p))
}

// The sign that a variable is set to, and the end of the line.
fn sign_at(s: &[u8], variables: u32, at: usize, variable: u32) -> Result<(Step, usize), ScriptFault>
    requires { at ≤ length s.now }
    ensures { Reads s.now variables (λ es. sign es variable) at result × LineRuns s.now at result }
{
    let c = byte_at(s, at);
    if c == SMALL_Y {
        return ending(s, at, b"yes)\n", variable, SET_YES);
    }
    if c == SMALL_N {
        return ending(s, at, b"no)\n", variable, SET_NO);
    }
    Err(ScriptFault::Shape(at))
}

// A line `set`, from its variable on.
fn set_at(s: &[u8], variables: u32, at: usize) -> Result<(Step, usize), ScriptFault>
    requires { at ≤ length s.now }
    ensures { Reads s.now variables setting at result × LineRuns s.now at result }
{
    let (variable, p) = ranged(s, at, 0, variables, SPACE, Fault::Range)?;
    sign_at(s, variables, p + 1, variable)
}

// A line `drop`, from its variable on.
fn drop_at(s: &[u8], variables: u32, at: usize) -> Result<(Step, usize), ScriptFault>
    requires { at ≤ length s.now }
    ensures { Reads s.now variables dropping at result × LineRuns s.now at result }
{
    let (variable, p) = ranged(s, at, 0, variables, CLOSE, Fault::Range)?;
    ending(s, p, b")\n", variable, DROP)
}

// A line from its word on: its step, and the place past it.
pub fn line_at(s: &[u8], variables: u32, at: usize) -> Result<(Step, usize), ScriptFault>
    requires { at ≤ length s.now }
    ensures { Reads s.now variables opened at result × LineRuns s.now at result }
{
    let c = byte_at(s, at);
    if c == SMALL_S {
        let p = match_at(s, at, b"set ").map_err(ScriptFault::Shape)?;
        return set_at(s, variables, p);
    }
    if c == SMALL_D {
        let p = match_at(s, at, b"drop ").map_err(ScriptFault::Shape)?;
        return drop_at(s, variables, p);
    }
    Err(ScriptFault::Shape(at))
}
