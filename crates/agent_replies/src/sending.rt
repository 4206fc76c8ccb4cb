// Sending: a reply is laid down in the lent buffer from the agent's own registers; after that STATUT keeps only bit 7.
ghost use Rattle.std.specs.Prelude.{◌≡◌, ◌≤◌, ℕ, length};
ghost use Rattle.rules.specs.Calls.{AnswersFrame};
ghost use Rattle.rules.specs.Replies.{muted, send_frame, send_reply};
ghost use Rattle.agent_replies.specs.Fitting.{Laying};
ghost use Rattle.agent_replies.specs.Handling.{part_of};

use crate::replies::Reply;
use agent_state::registers::{CONF, STATUT};
use frame_kinds::kinds::Frame;
use frame_writing::write_frame;
use rules::Agent;

// Replies go to all concentrators.
const REPLY_ADDRESS: u8 = 0xF0;

// With CONF bit 2 set nothing is sent, but effects remain.
fn is_muted(agent: &Agent) -> bool
    ensures { result ≡ muted agent.now }
{
    agent.regs[CONF] & 0x04 == 0x04
}

// The registers that a reply shows: DATL of them, starting at ADD, with STAT at 19h.
#[derive(Clone, Copy)]
struct Part {
    add: u8,
    datl: u8,
    stat: u8,
}

fn part_of(f: Frame) -> Part
    ensures { result ≡ part_of f }
{
    match f {
        Frame::SafeResponse {
            datl,
            add,
            stat,
            ..
        } => Part { add, datl, stat },
        _ => Part {
            add: 0,
            datl: 0,
            stat: 0,
        },
    }
}

// Sends a frame, unless the module is muted; returns how many bytes it takes. While it is laid down, 19h shows STAT.
#[tactic(auto, using(crate::proofs::SendingLaws::part_inside), unfolding(rules::specs::Replies::send_frame))]
fn send_frame(agent: &mut Agent, f: Frame, reply: &mut [u8]) -> u16
    requires { Laying f × (545 ≤ length reply.old) }
    ensures { (n : ℕ) → AnswersFrame (send_frame f n agent.old) n agent.new result reply.old reply.new }
{
    if is_muted(agent) {
        return 0;
    }
    let part = part_of(f);
    // `as`: over `usize::from` the proof of what is lent does not close
    let from = part.add as usize;
    let to = from + (part.datl as usize);
    let statut = agent.regs[STATUT];
    agent.regs[STATUT] = part.stat;
    let n = write_frame(reply, REPLY_ADDRESS, f, &agent.regs[from..to]).unwrap_or(0);
    agent.regs[STATUT] = statut & 0x80;
    n as u16
}

// Sends what is to be sent, if anything, whatever the answer is.
pub fn send(agent: &mut Agent, says: Option<Reply>, reply: &mut [u8]) -> u16
    requires { 545 ≤ length reply.old }
    ensures { (n : ℕ) → AnswersFrame (send_reply says n agent.old) n agent.new result reply.old reply.new }
{
    match says {
        None => 0,
        Some(says) => send_frame(agent, says.frame(), reply),
    }
}
