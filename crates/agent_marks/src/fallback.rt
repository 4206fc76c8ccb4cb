// Entering fallback, and entering RUN.
ghost use Rattle.std.specs.Prelude.{◌≡◌};
ghost use Rattle.rules.specs.Fallback.{enter_fallback, enter_run};

use agent_state::grounds::ground_after;
use agent_state::registers::{GROUND, IMAGE, OUT_REP, OUTPUTS, STATUT, fill};
use agent_state::state::{IN_FALLBACK, IN_RUN, UNMARKED, WITHHELD};
use rules::Agent;

// Sets 80h to BFh to 00h, OUT_REP to AAh, q to 0 and STATUT bit 7, and clears the mark; from RUN, 26h shows the ground.
#[tactic(auto, unfolding(rules::specs::Fallback::enter_fallback))]
pub fn enter_fallback(agent: &mut Agent, cause: u8)
    ensures { agent.new ≡ enter_fallback cause agent.old }
{
    let shown = ground_after(agent.mode, cause, agent.regs[GROUND]);
    agent.regs[STATUT] |= 0x80;
    agent.regs[OUT_REP] = WITHHELD;
    agent.regs[GROUND] = shown;
    fill(&mut agent.regs, OUTPUTS, IMAGE, 0);
    agent.mode = IN_FALLBACK;
    agent.idle = 0;
    agent.mark = UNMARKED;
}

// The mode becomes RUN, STATUT bit 7 is cleared, q = 0.
#[tactic(auto, unfolding(rules::specs::Fallback::enter_run))]
pub fn enter_run(agent: &mut Agent)
    ensures { agent.new ≡ enter_run agent.old }
{
    agent.regs[STATUT] &= 0x7F;
    agent.mode = IN_RUN;
    agent.idle = 0;
}
