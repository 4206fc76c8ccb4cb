// The module of a script after lines of a text that is in memory.
ghost use Rattle.std.specs.Prelude.{◌≡◌, not};
ghost use Rattle.console.specs.Lines.{lines_of};
ghost use Rattle.rules.specs.State.{running};
ghost use Rattle.script_lines.specs.Doing.{done};
ghost use Rattle.script_lines.specs.Forms.{line_of};
ghost use Rattle.removals.specs.Removals.{after_lines};

use crate::lines::Lines;
use agent_state::state::IN_RUN;
use rules::Agent;
use script_lines::doing::{do_form, no_reply};
use script_lines::forms::{no_bytes, read_line};

pub fn in_fallback(agent: &Agent) -> bool
    ensures { result ≡ not (running agent.now) }
{
    agent.mode != IN_RUN
}

// Plays one line.
pub fn play_line(agent: &mut Agent, line: &[u8])
    ensures { agent.new ≡ (done agent.old (line_of line.now)).agent }
{
    let mut bytes = no_bytes();
    let mut reply = no_reply();
    let form = read_line(line, &mut bytes);
    let _ = do_form(agent, form, &bytes, &mut reply);
}

// Plays all lines of a text.
pub fn play(agent: &mut Agent, text: &[u8])
    ensures { agent.new ≡ after_lines agent.old (lines_of text.now) }
{
    for line in Lines::new(text) {
        play_line(agent, line);
    }
}
