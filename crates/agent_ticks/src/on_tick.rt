// The tick call that is accepted: a state with room for a tick, and 64 inputs.
ghost use Rattle.std.specs.Prelude.{◌≡◌};
ghost use Rattle.agent_state.specs.Room.{HasRoom};
ghost use Rattle.rules.specs.Inputs.{with_inputs};
ghost use Rattle.rules.specs.Tick.{ticked};

use crate::inputs::store_inputs;
use crate::tick::tick;
use rules::Agent;

#[tactic(auto, unfolding(rules::specs::Inputs::with_inputs))]
pub fn on_tick(agent: &mut Agent, inputs: &[u8; 64])
    requires { HasRoom agent.old }
    ensures { agent.new ≡ ticked (with_inputs inputs.now agent.old) }
{
    store_inputs(agent, inputs);
    tick(agent);
}

// The same by value.
pub fn ticked(mut agent: Agent, inputs: &[u8; 64]) -> Agent
    requires { HasRoom agent }
    ensures { result ≡ ticked (with_inputs inputs.now agent) }
{
    on_tick(&mut agent, inputs);
    agent
}
