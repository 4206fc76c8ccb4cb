// Tick: the counters, then the three limits, then the end of the cycle.
ghost use Rattle.std.specs.Prelude.{◌≡◌};
ghost use Rattle.agent_state.specs.Room.{HasRoom};
ghost use Rattle.rules.specs.Tick.{counted, sync_limit, command_limit, window_limit, cycle_over, limited, cycle_ended, ticked};

use agent_marks::fallback::enter_fallback;
use agent_state::grounds::{BY_COMMAND_SILENCE, BY_SYNC_SILENCE, BY_WINDOW};
use agent_state::registers::{CNF_CYC, CNF_REP, TCYC};
use agent_state::state::{IS_MARKED, UNHEARD, cycles, is_running};
use rules::Agent;

// Add 1 to e and s, and to q in RUN.
#[tactic(auto, unfolding(rules::specs::Tick::counted))]
fn count(agent: &mut Agent)
    requires { HasRoom agent.old }
    ensures { agent.new ≡ counted agent.old }
{
    agent.elapsed += 1;
    agent.silence = agent.silence.saturating_add(1);
    if is_running(agent) {
        agent.idle += 1;
    }
}

// s is at least n × t.
fn is_at_sync_limit(agent: &Agent) -> bool
    ensures { result ≡ sync_limit agent.now }
{
    cycles(agent, CNF_CYC) <= agent.silence
}

// In RUN, q is at least m × t.
fn is_at_command_limit(agent: &Agent) -> bool
    ensures { result ≡ command_limit agent.now }
{
    is_running(agent) && cycles(agent, CNF_REP) <= agent.idle
}

// The clock ends the cycle: e is at least t.
fn is_cycle_over(agent: &Agent) -> bool
    ensures { result ≡ cycle_over agent.now }
{
    agent.regs[TCYC] <= agent.elapsed
}

// In RUN with the mark set, the end of the cycle.
fn is_at_window_limit(agent: &Agent) -> bool
    ensures { result ≡ window_limit agent.now }
{
    is_running(agent) && agent.mark == IS_MARKED && is_cycle_over(agent)
}

// Fallback at the sync limit, in either mode, or else at the command limit, or else at that of the window; the first is the
// ground.
#[tactic(auto, unfolding(rules::specs::Tick::limited))]
fn limit(agent: &mut Agent)
    ensures { agent.new ≡ limited agent.old }
{
    if is_at_sync_limit(agent) {
        enter_fallback(agent, BY_SYNC_SILENCE);
    } else if is_at_command_limit(agent) {
        enter_fallback(agent, BY_COMMAND_SILENCE);
    } else if is_at_window_limit(agent) {
        enter_fallback(agent, BY_WINDOW);
    }
}

// If e is at least t, the next cycle begins, unheard.
#[tactic(auto, unfolding(rules::specs::Tick::cycle_ended))]
fn end_cycle(agent: &mut Agent)
    ensures { agent.new ≡ cycle_ended agent.old }
{
    if is_cycle_over(agent) {
        agent.cycle = agent.cycle.wrapping_add(1);
        agent.heard = UNHEARD;
        agent.elapsed = 0;
        agent.taken = 0;
    }
}

#[tactic(auto, unfolding(rules::specs::Tick::ticked))]
pub fn tick(agent: &mut Agent)
    requires { HasRoom agent.old }
    ensures { agent.new ≡ ticked agent.old }
{
    count(agent);
    limit(agent);
    end_cycle(agent);
}
