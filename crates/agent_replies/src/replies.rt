// Replies: built after the effect.
ghost use Rattle.std.specs.Prelude.{◌≡◌, ◌+◌, ◌^◌, ◌<◌, ◌||◌, ◌==◌, nat_lt};
ghost use Rattle.rules.specs.Replies.{stat_of, response, replies, sync_reply, read_reply, acknowledges};
ghost use Rattle.agent_replies.specs.Fitting.{Spans, Laying};

use agent_state::registers::{AD_REF, MAC, STATUT, SZ_REF, number8};
use agent_state::sources::sid_of;
use frame_kinds::kinds::Frame;
use rules::Agent;
use std::marker::Model;

// A frame that the module sends: the writer lays it down whole.
#[derive(Clone, Copy)]
pub struct Reply {
    frame: Frame,
}

impl Model for Reply {
    ghost use Rattle.frame_kinds.specs.declared.kinds.Frame.{Frame};
    ghost use Rattle.agent_replies.specs.Fitting.{Laying};

    ghost Value = { Frame };

    ghost view = { λ reply. reply.frame };

    ghost inverse = { λ f. record { frame = f } };

    ghost invariant = { λ reply. Laying reply.frame };
}

impl Reply {
    pub fn of(frame: Frame) -> Self
        requires { Laying frame }
        ensures { result ≡ frame }
    {
        Reply { frame }
    }

    pub fn frame(self) -> Frame
        ensures frame { result ≡ self }
        ensures fits { Laying result }
    {
        self.frame
    }
}

// STAT is STATUT with bit 6 set for port 2.
fn stat_of(agent: &Agent, port: u8) -> u8
    ensures { result ≡ stat_of port agent.now }
{
    let statut = agent.regs[STATUT];
    if port == 2 { statut | 0x40 } else { statut }
}

// A safe response of the module to the source of a frame.
fn response(agent: &Agent, port: u8, dest: u32, seq: u8, com: u8, datl: u8, add: u8) -> Reply
    requires { (dest < 2 ^ 24) × Spans «com» datl add }
    ensures { result ≡ response port agent.now dest seq «com» datl add }
{
    let src = sid_of(agent);
    let stat = stat_of(agent, port);
    Reply::of(Frame::SafeResponse {
        dest,
        src,
        cyc: agent.cycle,
        seq,
        com,
        datl,
        add,
        stat,
    })
}

// Whether a reply cannot carry this span: DATL must be 1 to 254, and ADD + DATL at most 256.
fn no_span(datl: u8, add: u8) -> bool
    ensures { result ≡ (datl == 0 || datl == 255 || nat_lt 256 (add + datl)) }
{
    datl == 0 || datl == 255 || 256 < u16::from(add) + u16::from(datl)
}

// To a sync: COM 07h with SZ_REF bytes from AD_REF, or error AAh. SEQ is the complement of CYC.
#[tactic(auto, using(crate::proofs::ReplyLaws::sync_said), unfolding(rules::specs::Replies::sync_reply))]
pub fn sync_reply(agent: &Agent, port: u8, src: u32, cyc: u8) -> Reply
    requires { src < 2 ^ 24 }
    ensures { replies agent.now result ≡ sync_reply port agent.now src cyc }
{
    let datl = agent.regs[SZ_REF];
    let add = agent.regs[AD_REF];
    if no_span(datl, add) {
        response(agent, port, src, !cyc, 0xAA, 0, add)
    } else {
        response(agent, port, src, !cyc, 0x07, datl, add)
    }
}

// To a read: COM 70h, or error 55h. SEQ is the request's plus one.
#[tactic(auto, using(crate::proofs::ReplyLaws::read_said), unfolding(rules::specs::Replies::read_reply))]
pub fn read_reply(agent: &Agent, port: u8, src: u32, seq: u8, datl: u8, add: u8) -> Reply
    requires { src < 2 ^ 24 }
    ensures { replies agent.now result ≡ read_reply port agent.now src seq datl add }
{
    let next = seq.wrapping_add(1);
    if no_span(datl, add) {
        response(agent, port, src, next, 0x55, 0, add)
    } else {
        response(agent, port, src, next, 0x70, datl, add)
    }
}

// To a SID assignment.
#[tactic(auto, unfolding(rules::specs::Replies::acknowledges))]
pub fn acknowledgement(agent: &Agent, src: u32, sec: u32) -> Reply
    requires { src < 2 ^ 24 }
    ensures { replies agent.now result ≡ acknowledges agent.now src sec }
{
    Reply::of(Frame::Acknowledgement {
        src: sid_of(agent),
        dst: src,
        sec,
        mac: number8(&agent.regs, MAC),
    })
}
