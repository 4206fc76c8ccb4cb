// What a sync does: a repeat, one whose cycle does not fit, one outside its window, or an accepted one, which may lead to RUN.
// One function for each rule, as in `rules`, over the borrowed state. Only the crates of the agent call these.
#![tactic(auto)]

ghost use Rattle.std.specs.Prelude.{◌≡◌, ◌^◌, ◌<◌};
ghost use Rattle.rules.specs.Replies.{outcome};
ghost use Rattle.rules.specs.Sync.{is_repeat, cycle_fits, heard_sync, synced, on_sync};
ghost use Rattle.rules.specs.Window.{width, in_window};
ghost use Rattle.agent_state.specs.Refusing.{answer_of};
ghost use Rattle.agent_replies.specs.Deeds.{deed_of};
ghost use Rattle.agent_sync.specs.Judged.{take_sync};

use agent_marks::fallback::{enter_fallback, enter_run};
use agent_marks::marks::{mark_sequence, mark_window};
use agent_replies::replies::{Reply, sync_reply};
use agent_state::grounds::BY_WRONG_CYCLE;
use agent_state::refusal::Refusal;
use agent_state::registers::{OUT_REP, TCYC};
use agent_state::sources::is_recorded;
use agent_state::state::{IS_HEARD, NOBODY, RELEASED, UNMARKED, is_running};
use rules::Agent;

// w: t / 8 rounded down, at least 1.
#[tactic(auto, unfolding(rules::specs::Window::width))]
fn width(t: u8) -> u8
    ensures { result ≡ width t }
{
    (t / 8).max(1)
}

// A repeat: heard, CYC = c and the same source as the last accepted sync.
fn is_repeat(agent: &Agent, src: u32, cyc: u8) -> bool
    ensures { result ≡ is_repeat agent.now src cyc }
{
    agent.heard == IS_HEARD && cyc == agent.cycle && src == agent.last
}

// A heard cycle accepts CYC = c + 1, an unheard one c or c + 1 (modulo 256).
#[tactic(auto, unfolding(rules::specs::Sync::cycle_fits))]
fn cycle_fits(agent: &Agent, cyc: u8) -> bool
    ensures { result ≡ cycle_fits agent.now cyc }
{
    cyc == agent.cycle.wrapping_add(1) || (agent.heard != IS_HEARD && cyc == agent.cycle)
}

// CYC = c + 1 needs e of at least t − w; CYC = c needs e of at most w.
#[tactic(auto, unfolding(rules::specs::Window::in_window))]
fn in_window(agent: &Agent, cyc: u8) -> bool
    ensures { result ≡ in_window agent.now cyc }
{
    let t = agent.regs[TCYC];
    let w = width(t);
    if cyc == agent.cycle.wrapping_add(1) {
        u16::from(t) <= u16::from(agent.elapsed) + u16::from(w)
    } else {
        agent.elapsed <= w
    }
}

// Accepted: c = CYC, heard, e = s = k = 0, no mark.
#[tactic(auto, unfolding(rules::specs::Sync::heard_sync))]
fn hear_sync(agent: &mut Agent, src: u32, cyc: u8)
    ensures { agent.new ≡ heard_sync src cyc agent.old }
{
    agent.cycle = cyc;
    agent.heard = IS_HEARD;
    agent.elapsed = 0;
    agent.taken = 0;
    agent.last = src;
    agent.silence = 0;
    agent.mark = UNMARKED;
}

// The same, and in fallback with OUT_REP 55h the mode becomes RUN.
#[tactic(auto, unfolding(rules::specs::Sync::synced, rules::specs::Sync::heard_sync))]
fn accept_sync(agent: &mut Agent, src: u32, cyc: u8)
    ensures { agent.new ≡ synced src cyc agent.old }
{
    hear_sync(agent, src, cyc);
    if !is_running(agent) && agent.regs[OUT_REP] == RELEASED {
        enter_run(agent);
    }
}

// 10, then 13 before 12, then 22; 12 and 22 come in RUN only. Changes nothing.
#[tactic(auto, unfolding(crate::specs::Judged::take_sync))]
fn judge_sync(agent: &Agent, src: u32, cyc: u8) -> Result<(), Refusal>
    ensures { answer_of result ≡ (take_sync agent.now src cyc).answer }
{
    if src == NOBODY || !is_recorded(agent, src) {
        return Err(Refusal::Source);
    }
    if is_repeat(agent, src, cyc) {
        return Err(Refusal::Repeat);
    }
    if is_running(agent) && !cycle_fits(agent, cyc) {
        return Err(Refusal::Cycle);
    }
    if is_running(agent) && !in_window(agent, cyc) {
        return Err(Refusal::OutsideWindow);
    }
    Ok(())
}

// A refusal leaves its marks, and a wrong cycle leads to fallback.
#[tactic(auto, unfolding(crate::specs::Judged::take_sync))]
fn take_sync(agent: &mut Agent, src: u32, cyc: u8) -> Result<(), Refusal>
    ensures { outcome (answer_of result) agent.new ≡ take_sync agent.old src cyc }
{
    let judged = judge_sync(agent, src, cyc);
    match judged {
        Ok(()) => accept_sync(agent, src, cyc),
        Err(Refusal::Cycle) => {
            mark_sequence(agent);
            enter_fallback(agent, BY_WRONG_CYCLE);
        }
        Err(Refusal::OutsideWindow) => mark_window(agent),
        Err(_) => {}
    }
    judged
}

// A sync, and what answers it.
#[tactic(auto, using(crate::proofs::RefusedLaws::sync_refused), unfolding(rules::specs::Sync::on_sync, crate::specs::Judged::take_sync))]
pub fn on_sync(agent: &mut Agent, port: u8, src: u32, cyc: u8) -> Result<Option<Reply>, Refusal>
    requires { src < 2 ^ 24 }
    ensures { deed_of result agent.new ≡ on_sync port agent.old src cyc }
{
    // no `?`: over it the proof of the refused case does not close
    if let Err(refusal) = take_sync(agent, src, cyc) {
        return Err(refusal);
    }
    Ok(Some(sync_reply(agent, port, src, cyc)))
}
