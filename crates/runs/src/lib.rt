// Any list of calls, passed in as bytes and made one after another from power-up, each on the agent that the one before
// left; what each answered and left is written down. Of the calls only their contracts are used.
#![tactic(auto)]

ghost use Rattle.std.specs.Prelude.{length};
ghost use Rattle.runs.specs.Log.{RunsAny};

use crate::logging::{RECORD, put};
use crate::stepping::step;
use rules::Agent;

mod logging;
mod stepping;

// The whole list, with a record at power-up and after each call. The reply buffer is lent to each call in turn.
pub fn run_calls(
    mac: u64,
    iid: u64,
    ver: u16,
    limit: u8,
    calls: &[u8],
    reply: &mut [u8],
    log: &mut [u8],
) -> Agent
    ensures { RunsAny limit calls.now (length reply.old) (length log.old) result log.new }
{
    let mut agent = promised::power_up(mac, iid, ver, limit);
    if log.len() < RECORD {
        return agent;
    }
    let mut to = put(0, &agent, log, 0);
    let mut at: usize = 0;
    // No `for`: only a call that was read tells where the next begins.
    while at < calls.len() {
        if log.len() - to < RECORD {
            return agent;
        }
        let made = step(&mut agent, calls, at, reply);
        to = put(made.answer, &agent, log, to);
        at = made.next;
    }
    agent
}
