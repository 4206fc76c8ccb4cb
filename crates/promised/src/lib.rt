// The calls of `agent` with demand 3 in their contracts: besides what `agent` promises of a call, what the call adds to
// every history from power-up that ended in the agent passed to it. Each makes one call of `agent`, and only its
// contract is used.
#![tactic(auto)]

ghost use Rattle.std.specs.Prelude.{◌≡◌, length};
ghost use Rattle.std.specs.Result.{result_unwrap_or};
ghost use Rattle.rules.specs.Calls.{tick as Calls·tick, frame as Calls·frame, tick_call, frame_call, Answers, AnswersFrame};
ghost use Rattle.rules.specs.Fixed.{fixed_by};
ghost use Rattle.rules.specs.PowerUp.{power_up};
ghost use Rattle.demand3.specs.Reached.{Begins, Continues};
ghost use Rattle.agent_state.specs.Refusing.{answer_of};

use agent_state::refusal::Refusal;
use rules::Agent;

// Power-up: if the limit is one of the two, the empty history ends in this agent.
#[tactic(auto, using(demand3::proofs::ReachedLaws::begins))]
pub fn power_up(mac: u64, iid: u64, ver: u16, limit: u8) -> Agent
    ensures { (result ≡ power_up mac iid ver (fixed_by limit)) × Begins (fixed_by limit) result }
{
    agent::power_up::power_up(mac, iid, ver, limit)
}

pub fn tick(agent: &mut Agent, inputs: &[u8]) -> Result<(), Refusal>
    ensures { Answers (tick_call agent.old inputs.now) (answer_of result) agent.new
        × Continues agent.old (Calls·tick inputs.now) (answer_of result) agent.new }
{
    agent::calls::tick(agent, inputs)
}

pub fn frame(agent: &mut Agent, port: u8, body: &[u8], reply: &mut [u8]) -> Result<u16, Refusal>
    ensures { AnswersFrame (frame_call agent.old port body.now (length reply.old)) (answer_of result) agent.new (result_unwrap_or result 0) reply.old reply.new
        × Continues agent.old (Calls·frame port body.now (length reply.old)) (answer_of result) agent.new }
{
    agent::calls::frame(agent, port, body, reply)
}
