// Inputs: C0h to FFh, set by the host, 64 bytes a tick call.
ghost use Rattle.std.specs.Prelude.{◌≡◌};
ghost use Rattle.rules.specs.Inputs.{with_inputs};

use agent_state::registers::{INPUTS, put};
use rules::Agent;

#[tactic(auto, unfolding(rules::specs::Inputs::with_inputs))]
pub fn store_inputs(agent: &mut Agent, inputs: &[u8; 64])
    ensures { agent.new ≡ with_inputs inputs.now agent.old }
{
    put(&mut agent.regs, INPUTS, inputs);
}
