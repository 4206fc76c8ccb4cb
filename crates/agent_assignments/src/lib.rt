// What the assignments of TID and SID do.
// One function for each rule, as in `rules`, over the borrowed state. Only the crates of the agent call these.
#![tactic(auto)]

ghost use Rattle.std.specs.Prelude.{◌≡◌, ◌^◌, ◌<◌};
ghost use Rattle.rules.specs.Assignments.{on_tid, on_first_sid, on_later_sid, on_sid};
ghost use Rattle.rules.specs.Replies.{does};
ghost use Rattle.agent_state.specs.Refusing.{answer_of};
ghost use Rattle.agent_replies.specs.Deeds.{deed_of};

use agent_replies::replies::{Reply, acknowledgement};
use agent_state::refusal::Refusal;
use agent_state::registers::{IID, MAC, SID, TID, number8, put_low};
use agent_state::sources::{is_recorded, record_source, sid_of};
use agent_state::state::NOBODY;
use agent_state::tid::is_assignable;
use rules::Agent;

// For the module's own IID; no reply.
#[tactic(auto, unfolding(rules::specs::Assignments::on_tid))]
pub fn on_tid(agent: &mut Agent, iid: u64, tid: u8) -> Result<(), Refusal>
    ensures { does (answer_of result) agent.new ≡ on_tid agent.old iid tid }
{
    if iid != number8(&agent.regs, IID) {
        return Err(Refusal::Addressee);
    }
    if !is_assignable(tid) {
        return Err(Refusal::NotAllowed);
    }
    agent.regs[TID] = tid;
    Ok(())
}

// The first is accepted if SID and SRC differ from FFFFFFh; `on_sid` tests SRC.
#[tactic(auto, unfolding(rules::specs::Assignments::on_first_sid))]
fn on_first_sid(agent: &mut Agent, src: u32, sec: u32, sid: u32) -> Result<Option<Reply>, Refusal>
    requires first { agent.old.count ≡ 0 }
    requires source { src < 2 ^ 24 }
    ensures { deed_of result agent.new ≡ on_first_sid agent.old src sec sid }
{
    if sid == NOBODY {
        return Err(Refusal::NotAllowed);
    }
    put_low(&mut agent.regs, SID, 3, u64::from(sid));
    record_source(agent, src);
    Ok(Some(acknowledgement(agent, src, sec)))
}

// Later ones must repeat the SID; a new SRC is recorded, and a known SRC is acknowledged again.
#[tactic(auto, unfolding(rules::specs::Assignments::on_later_sid))]
fn on_later_sid(agent: &mut Agent, src: u32, sec: u32, sid: u32) -> Result<Option<Reply>, Refusal>
    requires { src < 2 ^ 24 }
    ensures { deed_of result agent.new ≡ on_later_sid agent.old src sec sid }
{
    if sid != sid_of(agent) {
        return Err(Refusal::NotAllowed);
    }
    if !is_recorded(agent, src) {
        if 8 <= agent.count {
            return Err(Refusal::EightOthers);
        }
        record_source(agent, src);
    }
    Ok(Some(acknowledgement(agent, src, sec)))
}

// For the module's own MAC.
#[tactic(auto, unfolding(rules::specs::Assignments::on_sid))]
pub fn on_sid(
    agent: &mut Agent,
    src: u32,
    sec: u32,
    mac: u64,
    sid: u32,
) -> Result<Option<Reply>, Refusal>
    requires { src < 2 ^ 24 }
    ensures { deed_of result agent.new ≡ on_sid agent.old src sec mac sid }
{
    if src == NOBODY {
        return Err(Refusal::Source);
    }
    if mac != number8(&agent.regs, MAC) {
        return Err(Refusal::Addressee);
    }
    if agent.count == 0 {
        on_first_sid(agent, src, sec, sid)
    } else {
        on_later_sid(agent, src, sec, sid)
    }
}
