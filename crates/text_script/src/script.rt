// A whole loading script, read into columns: nothing is stored before all of it is known to be good.
ghost use Rattle.std.specs.Prelude.{◌≤◌, []};
ghost use Rattle.steps.specs.Steps.{max_steps};
ghost use Rattle.lines.specs.Reading.{mapped, read_from};
ghost use Rattle.text_script.specs.Answers.{Told};
ghost use Rattle.text_script.specs.Script.{line, script_format, steps_in, room_for, read_steps};

use super::answer::{Script, ScriptFault};
use super::line::line_at;
use steps::{MAX_STEPS, no_columns, with_step};
use table::MAX_VARIABLES;
use text::number::{END, OPEN, byte_at};

// The lines, at most as many as there is room for.
fn read_lines(s: &[u8], variables: u32, room: usize) -> Result<Script, ScriptFault>
    requires { room ≤ max_steps }
    ensures { Told room result (mapped steps_in (read_from (script_format variables room) s.now (line []) 0)) }
{
    let mut columns = no_columns();
    let mut count: usize = 0;
    let mut at: usize = 0;
    loop {
        let c = byte_at(s, at);
        if c == END {
            return Ok(Script { columns, count });
        }
        if room <= count || c != OPEN {
            return Err(ScriptFault::Shape(at));
        }
        let (step, p) = line_at(s, variables, at + 1)?;
        columns = with_step(columns, count, step);
        count += 1;
        at = p;
    }
}

// Reads a script about so many variables, for a list of so many records.
pub fn read(s: &[u8], variables: u32, records: usize) -> Result<Script, ScriptFault>
    ensures { Told (room_for records) result (read_steps s.now variables records) }
{
    if variables < 1 || MAX_VARIABLES < variables {
        return Err(ScriptFault::Sizes);
    }
    read_lines(s, variables, records.min(MAX_STEPS))
}
