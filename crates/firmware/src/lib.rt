// The firmware's interface: the firmware owns the agent, and each call alters it in place. Thin functions over the
// calls of `agent`; `firmware_c` exports them for C. Demand 3, with what 26h and the terminals show, is a clause of each contract:
// power-up begins a history, and each call continues every history that ended in the agent passed to it.
#![tactic(auto)]

ghost use Rattle.std.specs.Prelude.{◌≡◌, length};
ghost use Rattle.rules.specs.Calls.{tick, frame, tick_call, frame_call, Answers, AnswersFrame};
ghost use Rattle.rules.specs.Fixed.{fixed_by};
ghost use Rattle.rules.specs.PowerUp.{power_up};
ghost use Rattle.demand3.specs.Reached.{Begins, Continues};

use agent::calls::{answer, judge_tick};
use agent_ticks::on_tick::ticked;
use rules::Agent;

// Power-up with MAC, IID, VER and the limit of requests a cycle.
#[tactic(auto, using(demand3::proofs::ReachedLaws::begins))]
pub fn saturn_power_up(agent: &mut Agent, mac: u64, iid: u64, ver: u16, limit: u8)
    ensures { (agent.new ≡ power_up mac iid ver (fixed_by limit)) × Begins (fixed_by limit) agent.new }
{
    *agent = agent::power_up::power_up(mac, iid, ver, limit);
}

// One millisecond, with the 64 inputs. A call that is refused leaves the agent untouched. Document 01 names the form: the tick's
// result, by value, is stored.
pub fn saturn_tick(agent: &mut Agent, inputs: &[u8]) -> u8
    ensures { Answers (tick_call agent.old inputs.now) result agent.new
        × Continues agent.old (tick inputs.now) result agent.new }
{
    let judged = judge_tick(agent, inputs);
    match judged {
        Ok(inputs) => {
            *agent = ticked(*agent, inputs);
            0
        }
        Err(_) => answer(&judged),
    }
}

// A body received on a port, and the reply buffer, whose bytes past what is sent keep their value.
pub fn saturn_frame(
    agent: &mut Agent,
    port: u8,
    body: &[u8],
    reply: &mut [u8],
    sent: &mut u16,
) -> u8
    ensures { AnswersFrame (frame_call agent.old port body.now (length reply.old)) result agent.new sent.new reply.old reply.new
        × Continues agent.old (frame port body.now (length reply.old)) result agent.new }
{
    let judged = agent::calls::frame(agent, port, body, reply);
    *sent = judged.unwrap_or(0);
    answer(&judged)
}
