// What a refusal and a skip mark and count: STATUT bits, counters that stop at 255, and the mark of 22.
ghost use Rattle.std.specs.Prelude.{◌≡◌};
ghost use Rattle.rules.specs.Marks.{line_marked, format_marked, sequence_marked, skip_marked, window_marked};

use agent_state::registers::{CPT_FOR, CPT_SEQ, STATUT};
use agent_state::state::IS_MARKED;
use rules::Agent;

// 1 to 4: bit 5.
#[tactic(auto, unfolding(rules::specs::Marks::line_marked))]
pub fn mark_line(agent: &mut Agent)
    ensures { agent.new ≡ line_marked agent.old }
{
    agent.regs[STATUT] |= 0x20;
}

// 7: bit 5, and CPT_FOR (24h) + 1.
#[tactic(auto, unfolding(rules::specs::Marks::format_marked, rules::specs::Marks::line_marked))]
pub fn mark_format(agent: &mut Agent)
    ensures { agent.new ≡ format_marked agent.old }
{
    mark_line(agent);
    agent.regs[CPT_FOR] = agent.regs[CPT_FOR].saturating_add(1);
}

// 12 and 14: bit 1, and CPT_SEQ (20h) + 1.
#[tactic(auto, unfolding(rules::specs::Marks::sequence_marked))]
pub fn mark_sequence(agent: &mut Agent)
    ensures { agent.new ≡ sequence_marked agent.old }
{
    agent.regs[STATUT] |= 0x02;
    agent.regs[CPT_SEQ] = agent.regs[CPT_SEQ].saturating_add(1);
}

// n numbers skipped: each adds 1 to CPT_SEQ, and any sets bit 1.
#[tactic(auto, using(crate::proofs::SkipLaws::none_skipped))]
pub fn mark_skips(agent: &mut Agent, n: u8)
    ensures { agent.new ≡ skip_marked n agent.old }
{
    if 0 < n {
        agent.regs[STATUT] |= 0x02;
        agent.regs[CPT_SEQ] = agent.regs[CPT_SEQ].saturating_add(n);
    }
}

// 22: bit 1, and the mark.
#[tactic(auto, unfolding(rules::specs::Marks::window_marked))]
pub fn mark_window(agent: &mut Agent)
    ensures { agent.new ≡ window_marked agent.old }
{
    agent.regs[STATUT] |= 0x02;
    agent.mark = IS_MARKED;
}
