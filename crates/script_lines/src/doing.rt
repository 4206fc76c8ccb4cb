// The module of a script, and what a line does to it.
ghost use Rattle.std.specs.Prelude.{◌≡◌, ◌≤◌, length, take, replicate};
ghost use Rattle.rules.specs.Calls.{tick_call, frame_call};
ghost use Rattle.rules.specs.Registers.{image};
ghost use Rattle.script_lines.specs.Forms.{step_in};
ghost use Rattle.script_lines.specs.Doing.{script_module, held_inputs, after_ticks, done, told};

use crate::forms::{Form, IMAGE};
use agent::calls;
use agent::power_up::power_up;
use agent_rest::{is_at_rest, rest_ticks};
use agent_state::limit::DOORS_LIMIT;
use agent_state::refusal::Refusal;
use agent_state::registers::INPUTS;
use rules::Agent;

// The module at power-up: MAC 1, IID 2, VER 0 and the limit of doors, 64.
pub fn script_module() -> Agent
    ensures { result ≡ script_module }
{
    power_up(1, 2, 0, DOORS_LIMIT)
}

// An empty reply buffer of the minimum length.
pub fn no_reply() -> [u8; 545]
    ensures { result ≡ replicate 545 0 }
{
    [0; 545]
}

// One tick, with the inputs held. A tick that is refused leaves the module as it was.
fn tick_held(agent: &mut Agent)
    ensures { agent.new ≡ (tick_call agent.old (held_inputs agent.old)).agent }
{
    let regs = agent.regs;
    let _ = calls::tick(agent, &regs[INPUTS..INPUTS + IMAGE]);
}

// Ticks with the inputs held. Those of a module at rest move only its clock.
fn ticks(agent: &mut Agent, n: u64)
    ensures { agent.new ≡ after_ticks n agent.old }
{
    for i in 0..n {
        if is_at_rest(agent) {
            rest_ticks(agent, n - i);
            return;
        }
        tick_held(agent);
    }
}

// One tick, with the inputs of a line.
#[tactic(auto, using(std::proofs::lemmas::List::take_min))]
fn inputs(agent: &mut Agent, bytes: &[u8])
    ensures { agent.new ≡ (tick_call agent.old (take image bytes.now)).agent }
{
    let n = IMAGE.min(bytes.len());
    let _ = calls::tick(agent, &bytes[..n]);
}

// A body received on a port; what is sent is lent from the reply buffer.
fn frame<'a>(
    agent: &mut Agent,
    port: u8,
    body: &[u8],
    reply: &'a mut [u8; 545],
) -> Result<&'a [u8], Refusal>
    ensures most { length (told result agent.new).line ≤ 545 }
    ensures told { told result agent.new ≡ frame_call agent.old port body.now 545 }
{
    let sent = calls::frame(agent, port, body, reply)?;
    Ok(&reply[..usize::from(sent)])
}

// Does what a line asks for, with the bytes of the line; what is sent is lent from the reply buffer. For ticks and inputs the answer
// is 0.
#[tactic(auto, using(std::proofs::lemmas::List::take_min))]
pub fn do_form<'a>(
    agent: &mut Agent,
    form: Option<Form>,
    bytes: &[u8],
    reply: &'a mut [u8; 545],
) -> Result<&'a [u8], Refusal>
    ensures most { length (told result agent.new).line ≤ 545 }
    ensures told { told result agent.new ≡ done agent.old (step_in form bytes.now) }
{
    match form {
        Some(Form::Ticks(n)) => {
            ticks(agent, n);
            Ok(&[])
        }
        Some(Form::Frame(port, n)) => {
            let end = n.min(bytes.len());
            frame(agent, port, &bytes[..end], reply)
        }
        Some(Form::Inputs) => {
            inputs(agent, bytes);
            Ok(&[])
        }
        None => Ok(&[]),
    }
}
