// A module at rest, in fallback and not released: its ticks move only its clock, so many of them cost little. The programs that play
// scripts use it; no firmware does.
#![tactic(auto)]

ghost use Rattle.std.specs.Prelude.{◌≡◌, IsTrue};
ghost use Rattle.agent_rest.specs.Rest.{at_rest, Rests, clock_of, with_clock_of, clock_tick, clock_ticks};
ghost use Rattle.rules.specs.State.{t_of};

use agent_state::registers::{OUT_REP, TCYC};
use agent_state::sound::is_sound;
use agent_state::state::{UNHEARD, UNMARKED, WITHHELD, is_running};
use rules::Agent;

// What a tick moves: e, s, c, heard and k.
#[derive(Clone, Copy)]
pub struct Clock {
    pub elapsed: u8,
    pub silence: u16,
    pub cycle: u8,
    pub heard: u8,
    pub taken: u8,
}

#[tactic(auto, unfolding(crate::specs::Rest::at_rest))]
pub fn is_at_rest(agent: &Agent) -> bool
    ensures test { result ≡ at_rest agent.now }
    ensures rests { IsTrue result → Rests agent.now }
{
    !is_running(agent)
        && agent.regs[OUT_REP] == WITHHELD
        && agent.mark == UNMARKED
        && is_sound(agent)
}

// One tick, with TCYC t.
#[tactic(auto, unfolding(crate::specs::Rest::clock_tick))]
fn tick_clock(clock: &mut Clock, t: u8)
    ensures { clock.new ≡ clock_tick t clock.old }
{
    clock.elapsed = clock.elapsed.wrapping_add(1);
    clock.silence = clock.silence.saturating_add(1);
    if t <= clock.elapsed {
        clock.elapsed = 0;
        clock.cycle = clock.cycle.wrapping_add(1);
        clock.heard = UNHEARD;
        clock.taken = 0;
    }
}

fn tick_clock_by(clock: &mut Clock, t: u8, n: u64)
    ensures { clock.new ≡ clock_ticks t n clock.old }
{
    for _ in 0..n {
        tick_clock(clock, t);
    }
}

// n ticks of a module at rest.
pub fn rest_ticks(agent: &mut Agent, n: u64)
    ensures { agent.new ≡ with_clock_of (clock_ticks (t_of agent.old) n (clock_of agent.old)) agent.old }
{
    let mut clock = Clock {
        elapsed: agent.elapsed,
        silence: agent.silence,
        cycle: agent.cycle,
        heard: agent.heard,
        taken: agent.taken,
    };
    tick_clock_by(&mut clock, agent.regs[TCYC], n);
    agent.elapsed = clock.elapsed;
    agent.silence = clock.silence;
    agent.cycle = clock.cycle;
    agent.heard = clock.heard;
    agent.taken = clock.taken;
}
