// The calls: the host's numbers, 19, 20 and 21, come first.
ghost use Rattle.std.specs.Prelude.{◌≡◌, ◌==◌, ◌||◌, length, IfErr, IfOk, OnOk};
ghost use Rattle.std.specs.Result.{result_unwrap_or};
ghost use Rattle.rules.specs.Calls.{tick_call, frame_call, Answers, AnswersFrame};
ghost use Rattle.rules.specs.Inputs.{with_inputs};
ghost use Rattle.rules.specs.Replies.{outcome};
ghost use Rattle.rules.specs.Tick.{ticked};
ghost use Rattle.agent_state.specs.Refusing.{answer_of, number_of};
ghost use Rattle.agent_state.specs.Room.{HasRoom};

use crate::frame_call::on_frame;
use agent_replies::sending::send;
use agent_state::refusal::Refusal;
use agent_state::sound::is_sound;
use agent_ticks::on_tick::on_tick;
use rules::Agent;

// The number of an answer, for the crates above the agent.
pub use agent_state::refusal::answer;

// The inputs of a tick call that is accepted, or its refusal. The call in place asks for it first, so that a call which is refused
// stores nothing.
#[tactic(auto, unfolding(rules::specs::Calls::tick_call))]
pub fn judge_tick<'a>(agent: &Agent, inputs: &'a [u8]) -> Result<&'a [u8; 64], Refusal>
    ensures refused { IfErr result (λ e. outcome (number_of e) agent.now ≡ tick_call agent.now inputs.now) }
    ensures accepted { IfOk result (λ xs. outcome 0 (ticked (with_inputs xs.now agent.now)) ≡ tick_call agent.now inputs.now) }
    ensures room { OnOk result (HasRoom agent.now) }
{
    if !is_sound(agent) {
        return Err(Refusal::Unsound);
    }
    inputs.try_into().map_err(|_| Refusal::HostInput)
}

#[tactic(auto, unfolding(rules::specs::Calls::tick_call))]
pub fn tick(agent: &mut Agent, inputs: &[u8]) -> Result<(), Refusal>
    ensures { Answers (tick_call agent.old inputs.now) (answer_of result) agent.new }
{
    let inputs = judge_tick(agent, inputs)?;
    on_tick(agent, inputs);
    Ok(())
}

fn is_port(port: u8) -> bool
    ensures { result ≡ (port == 1 || port == 2) }
{
    matches!(port, 1 | 2)
}

// The minimum length of the reply buffer, in bytes.
const LEAST_ROOM: usize = 545;

// A body received on a port, and the reply buffer, whose bytes past what is sent keep their value; returns how many bytes are to be
// sent. After a refusal nothing is.
#[tactic(auto, unfolding(rules::specs::Calls::frame_call))]
pub fn frame(agent: &mut Agent, port: u8, body: &[u8], reply: &mut [u8]) -> Result<u16, Refusal>
    ensures { AnswersFrame (frame_call agent.old port body.now (length reply.old)) (answer_of result) agent.new (result_unwrap_or result 0) reply.old reply.new }
{
    if !is_sound(agent) {
        return Err(Refusal::Unsound);
    }
    if reply.len() < LEAST_ROOM {
        return Err(Refusal::ReplyRoom);
    }
    if !is_port(port) {
        return Err(Refusal::HostInput);
    }
    let says = on_frame(agent, port, body)?;
    Ok(send(agent, says, reply))
}
