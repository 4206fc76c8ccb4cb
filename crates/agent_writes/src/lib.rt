// What a write does: which spans, in which mode, with which values, and with what effect.
// One function for each rule, as in `rules`, over the borrowed state. Only the crates of the agent call these.
#![tactic(auto)]

ghost use Rattle.std.specs.Prelude.{◌≡◌, ◌≢◌, ◌+◌, ◌<◌, ◌≤◌, length, slice_index};
ghost use Rattle.std.proofs.lemmas.List.Edits.{sets};
ghost use Rattle.rules.specs.Replies.{does};
ghost use Rattle.agent_state.specs.Refusing.{answer_of};
ghost use Rattle.rules.specs.Writes.{allowed, written, on_write};

use crate::span::span_of;
use agent_marks::fallback::enter_fallback;
use agent_state::grounds::BY_ORDER;
use agent_state::refusal::Refusal;
use agent_state::registers::{CNF_CYC, CNF_REP, put};
use agent_state::state::{RELEASED, WITHHELD, is_running};
use rules::{Agent, Span};

mod span;

// The first byte; 0 if there is none.
fn first(bytes: &[u8]) -> u8
    ensures { result ≡ slice_index bytes.now 0 }
{
    bytes.first().copied().unwrap_or(0)
}

// The value of register `at` once `bytes` are stored from register `add`.
#[tactic(auto, using(base::proofs::Stored::stored_before, base::proofs::Stored::stored_reached, base::proofs::Stored::stored_behind))]
fn register_after(regs: &[u8; 256], add: usize, bytes: &[u8], at: usize) -> u8
    requires { at < 256 }
    ensures { result ≡ slice_index (sets regs.now add bytes.now) at }
{
    if add <= at && at - add < bytes.len() {
        bytes[at - add]
    } else {
        regs[at]
    }
}

// 17h must become 55h or AAh, 18h not 0; of 1Ah to 1Dh the first two must not become 0; 18h and 1Ah to 1Dh only in
// fallback, 80h to BFh only in RUN.
fn allows(agent: &Agent, span: Span, add: u8, bytes: &[u8]) -> bool
    ensures { result ≡ allowed span agent.now add bytes.now }
{
    match span {
        Span::Release => first(bytes) == RELEASED || first(bytes) == WITHHELD,
        Span::CycleTime => !is_running(agent) && first(bytes) != 0,
        Span::Limits => {
            let at = usize::from(add);
            !is_running(agent)
                && register_after(&agent.regs, at, bytes, CNF_REP) != 0
                && register_after(&agent.regs, at, bytes, CNF_CYC) != 0
        }
        Span::Counters | Span::Config => true,
        Span::Outputs => is_running(agent),
        Span::Outside => false,
    }
}

// AAh to 17h means fallback; an output write sets q to 0.
fn write(agent: &mut Agent, span: Span, add: u8, bytes: &[u8])
    requires { span ≢ Span.Outside → add + length bytes.now ≤ 256 }
    ensures { agent.new ≡ written span agent.old add bytes.now }
{
    match span {
        Span::Release => {
            if first(bytes) == WITHHELD {
                enter_fallback(agent, BY_ORDER);
            } else {
                put(&mut agent.regs, usize::from(add), bytes);
            }
        }
        Span::Outputs => {
            put(&mut agent.regs, usize::from(add), bytes);
            agent.idle = 0;
        }
        Span::Outside => {}
        Span::CycleTime | Span::Limits | Span::Counters | Span::Config => {
            put(&mut agent.regs, usize::from(add), bytes);
        }
    }
}

// 16 unless the write is allowed.
#[tactic(auto, unfolding(rules::specs::Writes::on_write))]
pub fn on_write(agent: &mut Agent, add: u8, bytes: &[u8]) -> Result<(), Refusal>
    ensures { does (answer_of result) agent.new ≡ on_write agent.old add bytes.now }
{
    let span = span_of(add, bytes.len());
    if !allows(agent, span, add, bytes) {
        return Err(Refusal::OutsideRules);
    }
    write(agent, span, add, bytes);
    Ok(())
}
