// The firmware's interface for C: each export makes one call of `firmware`, and promises what that promises.
// include/saturn.h is the header.
#![tactic(auto)]

ghost use Rattle.std.specs.Prelude.{◌≡◌, length};
ghost use Rattle.rules.specs.Calls.{tick, frame, tick_call, frame_call, Answers, AnswersFrame};
ghost use Rattle.rules.specs.Fixed.{fixed_by};
ghost use Rattle.rules.specs.PowerUp.{power_up};
ghost use Rattle.demand3.specs.Reached.{Begins, Continues};

use rules::Agent;

// Power-up with MAC, IID, VER and the limit of requests a cycle.
#[unsafe(no_mangle)]
pub extern "C" fn saturn_power_up(agent: &mut Agent, mac: u64, iid: u64, ver: u16, limit: u8)
    ensures { (agent.new ≡ power_up mac iid ver (fixed_by limit)) × Begins (fixed_by limit) agent.new }
{
    firmware::saturn_power_up(agent, mac, iid, ver, limit)
}

// One millisecond, with the 64 inputs. A call that is refused leaves the agent untouched.
#[unsafe(no_mangle)]
pub extern "C" fn saturn_tick(agent: &mut Agent, inputs: &[u8]) -> u8
    ensures { Answers (tick_call agent.old inputs.now) result agent.new
        × Continues agent.old (tick inputs.now) result agent.new }
{
    firmware::saturn_tick(agent, inputs)
}

// A body received on a port, and the reply buffer, whose bytes past what is sent keep their value.
#[unsafe(no_mangle)]
pub extern "C" fn saturn_frame(
    agent: &mut Agent,
    port: u8,
    body: &[u8],
    reply: &mut [u8],
    sent: &mut u16,
) -> u8
    ensures { AnswersFrame (frame_call agent.old port body.now (length reply.old)) result agent.new sent.new reply.old reply.new
        × Continues agent.old (frame port body.now (length reply.old)) result agent.new }
{
    firmware::saturn_frame(agent, port, body, reply, sent)
}
