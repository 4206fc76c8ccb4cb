// When a state is sound (document 01, "Who causes which number"), part by part.
ghost use Rattle.std.specs.Prelude.{◌≡◌, ◌==◌, ◌<◌, IsTrue};
ghost use Rattle.agent_state.specs.Room.{HasRoom};
ghost use Rattle.rules.specs.Registers.{image};
ghost use Rattle.rules.specs.Sound.{settings_sound, sources_sound, counters_sound, outputs_zero, run_sound, fallback_sound, sound};

use crate::grounds::BY_WINDOW;
use crate::limit::is_limit;
use crate::registers::{CNF_CYC, CNF_REP, GROUND, IMAGE, OUT_REP, OUTPUTS, STATUT, TCYC, TID, TYP};
use crate::sources::{are_listed, is_recorded, sid_of};
use crate::state::{
    IN_FALLBACK, IN_RUN, IS_HEARD, IS_MARKED, NOBODY, RELEASED, UNHEARD, UNMARKED, WITHHELD, cycles,
};
use crate::tid::{UNASSIGNED, is_assignable};
use rules::Agent;

// t, n, m are not 0, OUT_REP is 55h or AAh, TID is 8Fh or assignable, TYP is 82h, 26h is 0 to 5; the limit of requests is
// 16 or 64.
#[tactic(auto, unfolding(rules::specs::Sound::settings_sound, rules::specs::Fixed::fits))]
fn are_settings_sound(agent: &Agent) -> bool
    ensures { result ≡ settings_sound agent.now }
{
    agent.regs[TCYC] != 0
        && agent.regs[CNF_CYC] != 0
        && agent.regs[CNF_REP] != 0
        && (agent.regs[OUT_REP] == RELEASED || agent.regs[OUT_REP] == WITHHELD)
        && (agent.regs[TID] == UNASSIGNED || is_assignable(agent.regs[TID]))
        && agent.regs[TYP] == 0x82
        && agent.regs[GROUND] <= BY_WINDOW
        && is_limit(agent.fixed.limit)
}

// At most 8 are recorded, all distinct, each below FFFFFFh; nobody is recorded exactly when the SID is FFFFFFh.
#[tactic(auto, unfolding(rules::specs::Sound::sources_sound))]
fn are_sources_sound(agent: &Agent) -> bool
    ensures { result ≡ sources_sound agent.now }
{
    agent.count <= 8
        && are_listed(&agent.known, usize::from(agent.count))
        && (agent.count == 0) == (sid_of(agent) == NOBODY)
}

// k is at most the limit, e at most 254; the last source is recorded, or there is none and the cycle is unheard; heard and
// the mark each have one of their two values.
#[tactic(auto, unfolding(rules::specs::Sound::counters_sound))]
fn are_counters_sound(agent: &Agent) -> bool
    ensures sound { result ≡ counters_sound agent.now }
    ensures room { IsTrue result → agent.now.elapsed < 255 }
{
    agent.taken <= agent.fixed.limit
        && agent.elapsed <= 254
        && (is_recorded(agent, agent.last) || (agent.last == NOBODY && agent.heard == UNHEARD))
        && (agent.heard == IS_HEARD || agent.heard == UNHEARD)
        && (agent.mark == IS_MARKED || agent.mark == UNMARKED)
}

// The outputs are 0. No test ends the loop, so that the compiler can take many bytes at once.
#[tactic(auto, using(crate::proofs::SoundLaws::outputs_none, crate::proofs::SoundLaws::outputs_turn))]
fn are_outputs_zero(agent: &Agent) -> bool
    ensures { result ≡ outputs_zero agent.now.regs image }
{
    let mut ok = true;
    for i in 0..IMAGE {
        ok = ok & (agent.regs[OUTPUTS + i] == 0);
    }
    ok
}

// In RUN: bits 7 and 6 of STATUT are 0, OUT_REP is 55h, s is below n × t, q below m × t, and there is a last source.
#[tactic(auto, unfolding(rules::specs::Sound::run_sound))]
fn is_run_sound(agent: &Agent) -> bool
    ensures sound { result ≡ run_sound agent.now }
    ensures room { IsTrue result → agent.now.idle < 65535 }
{
    agent.mode == IN_RUN
        && agent.regs[STATUT] & 0xC0 == 0x00
        && agent.regs[OUT_REP] == RELEASED
        && agent.silence < cycles(agent, CNF_CYC)
        && agent.idle < cycles(agent, CNF_REP)
        && agent.last != NOBODY
}

// In fallback: bit 7 of STATUT is 1 and bit 6 is 0; outputs and q are 0.
#[tactic(auto, unfolding(rules::specs::Sound::fallback_sound))]
fn is_fallback_sound(agent: &Agent) -> bool
    ensures sound { result ≡ fallback_sound agent.now }
    ensures rest { IsTrue result → agent.now.idle ≡ 0 }
{
    agent.mode == IN_FALLBACK
        && agent.regs[STATUT] & 0xC0 == 0x80
        && agent.idle == 0
        && are_outputs_zero(agent)
}

#[tactic(auto, unfolding(rules::specs::Sound::sound))]
pub fn is_sound(agent: &Agent) -> bool
    ensures sound { result ≡ sound agent.now }
    ensures room { IsTrue result → HasRoom agent.now }
{
    are_settings_sound(agent)
        && are_sources_sound(agent)
        && are_counters_sound(agent)
        && (is_run_sound(agent) || is_fallback_sound(agent))
}
