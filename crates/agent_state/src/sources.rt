// The recorded concentrators: up to 8, the first `count` of the list.
ghost use Rattle.std.specs.Prelude.{◌&&◌, ◌≡◌, ◌≤◌, ◌^◌, ◌<◌};
ghost use Rattle.rules.specs.Sources.{holds, distinct, below24, is_recorded, recorded, sid_of};

use crate::registers::{SID, number3};
use crate::state::NOBODY;
use rules::Agent;

// x is one of the first n. A loop by place: the test of soundness asks this for each that is recorded, in every call, and the
// library's `contains` takes more instructions.
#[tactic(auto, using(crate::proofs::SourceLoops::holds_none, crate::proofs::SourceLoops::holds_turn, crate::proofs::SourceLoops::holds_found))]
fn holds(known: &[u32; 8], n: usize, x: u32) -> bool
    requires { n ≤ 8 }
    ensures { result ≡ holds known.now n x }
{
    for i in 0..n {
        if known[i] == x {
            return true;
        }
    }
    false
}

// The first n are distinct, and none of them is FFFFFFh or more: one loop for both, by place, since `holds` asks for the places before
// (an `all` over the places would be no shorter).
#[tactic(auto, using(crate::proofs::SourceLoops::listed_none, crate::proofs::SourceLoops::listed_turn))]
pub fn are_listed(known: &[u32; 8], n: usize) -> bool
    requires { n ≤ 8 }
    ensures { result ≡ (distinct known.now n && below24 known.now n) }
{
    let mut ok = true;
    for i in 0..n {
        let again = holds(known, i, known[i]);
        ok = ok & !again & (known[i] < NOBODY);
    }
    ok
}

// A sound state records at most 8. For a larger `count` the definition reads 0 past them, and so does this.
#[tactic(auto, unfolding(rules::specs::Sources::is_recorded))]
pub fn is_recorded(agent: &Agent, src: u32) -> bool
    ensures { result ≡ is_recorded agent.now src }
{
    if agent.count <= 8 {
        return holds(&agent.known, usize::from(agent.count), src);
    }
    holds(&agent.known, 8, src) || src == 0
}

// Records one more.
#[tactic(auto, unfolding(rules::specs::Sources::recorded))]
pub fn record_source(agent: &mut Agent, src: u32)
    requires { agent.old.count < 8 }
    ensures { agent.new ≡ recorded src agent.old }
{
    agent.known[usize::from(agent.count)] = src;
    agent.count += 1;
}

// The own SID.
#[tactic(auto, unfolding(rules::specs::Sources::sid_of))]
pub fn sid_of(agent: &Agent) -> u32
    ensures number { result ≡ sid_of agent.now }
    ensures short { result < 2 ^ 24 }
{
    number3(&agent.regs, SID)
}
