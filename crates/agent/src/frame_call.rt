// A body received on a port: 1 to 5, then 6 to 9, then what the kind of frame does.
ghost use Rattle.std.specs.Prelude.{◌≡◌};
ghost use Rattle.frame_kinds.specs.Kinds.{data_in};
ghost use Rattle.rules.specs.FrameCall.{on_kind, served, is_sil4, agent_read, on_read, is_own, on_app, on_fault, on_frame};
ghost use Rattle.rules.specs.Replies.{does};
ghost use Rattle.agent_state.specs.Refusing.{number_of};
ghost use Rattle.agent_replies.specs.Deeds.{deed_of};
ghost use Rattle.agent.specs.Whole.{Whole, WholeRead};

use agent_assignments::{on_sid, on_tid};
use agent_marks::marks::{mark_format, mark_line};
use agent_replies::replies::Reply;
use agent_requests::{Ask, Request, on_request};
use agent_state::refusal::Refusal;
use agent_state::registers::TID;
use agent_sync::on_sync;
use fields::Reader;
use frame_forms::FrameFault;
use frame_kinds::kinds::Frame;
use frame_reading::read_app;
use rules::Agent;
use wire::{LineFault, read_body};

// By the kind of frame that was read in the application data `s`. The last two arms are never reached: `agent_read`
// yields only frames that are served.
#[tactic(auto, using(crate::proofs::WholeLaws::write_asked))]
fn on_kind(agent: &mut Agent, port: u8, f: Frame, s: &[u8]) -> Result<Option<Reply>, Refusal>
    requires { Whole f s.now }
    ensures { deed_of result agent.new ≡ on_kind port agent.old f (data_in f s.now) }
{
    match f {
        Frame::Sync { src, cyc } => on_sync(agent, port, src, cyc),
        Frame::SafeRead {
            dest,
            src,
            cyc,
            seq,
            datl,
            add,
        } => on_request(
            agent,
            Request {
                port,
                dest,
                src,
                cyc,
                seq,
                ask: Ask::Reads(datl, add),
            },
        ),
        Frame::SafeWrite {
            dest,
            src,
            cyc,
            seq,
            datl,
            add,
        } => {
            let data = Reader::new(s).at(f.data_place()).bytes(f.data_len());
            on_request(
                agent,
                Request {
                    port,
                    dest,
                    src,
                    cyc,
                    seq,
                    ask: Ask::Writes(add, data),
                },
            )
        }
        Frame::TidAssignment { iid, tid, .. } => {
            on_tid(agent, iid, tid)?;
            Ok(None)
        }
        Frame::SidAssignment { src, sec, mac, sid } => on_sid(agent, src, sec, mac, sid),
        Frame::SidAssignment4 { .. } => Err(Refusal::Form),
        _ => {
            mark_format(agent);
            Err(Refusal::Typ)
        }
    }
}

// The TYPs that are served: 00h, 07h, 3Ch, C3h.
#[tactic(auto, unfolding(rules::specs::FrameCall::served))]
fn served(typ: u8) -> bool
    ensures { result ≡ served typ }
{
    match typ {
        0x00 | 0x07 | 0x3C | 0xC3 => true,
        0x01..=0x06 => false,
        0x08..=0x3B => false,
        0x3D..=0xC2 => false,
        0xC4..=0xFF => false,
    }
}

// A SIL4 assignment is 8 for this module.
fn is_sil4(s: &[u8]) -> bool
    ensures { result ≡ is_sil4 s.now }
{
    Reader::new(s).u8() == 0xC3 && s.len() == 27
}

// Application data as this module reads them.
#[tactic(auto, unfolding(rules::specs::FrameCall::agent_read))]
fn agent_read(addr: u8, s: &[u8]) -> Result<Frame, FrameFault>
    ensures { result ≡ agent_read addr s.now }
{
    if !served(Reader::new(s).u8()) {
        return Err(FrameFault::Kind);
    }
    if is_sil4(s) {
        return Err(FrameFault::Form);
    }
    read_app(addr, s)
}

// 7, 8, 9, then the kind.
fn on_read(
    agent: &mut Agent,
    port: u8,
    read: Result<Frame, FrameFault>,
    s: &[u8],
) -> Result<Option<Reply>, Refusal>
    requires { WholeRead read s.now }
    ensures { deed_of result agent.new ≡ on_read port agent.old read s.now }
{
    match read {
        Ok(f) => on_kind(agent, port, f, s),
        Err(fault) => {
            if fault == FrameFault::Kind {
                mark_format(agent);
            }
            Err(fault.into())
        }
    }
}

// 6 unless the address is the own TID, 90h or FFh.
fn is_own(agent: &Agent, addr: u8) -> bool
    ensures { result ≡ is_own agent.now addr }
{
    addr == agent.regs[TID] || addr == 0x90 || addr == 0xFF
}

#[tactic(auto, using(crate::proofs::WholeLaws::read_whole), unfolding(rules::specs::FrameCall::on_app))]
fn on_app(agent: &mut Agent, port: u8, addr: u8, s: &[u8]) -> Result<Option<Reply>, Refusal>
    ensures { deed_of result agent.new ≡ on_app port agent.old addr s.now }
{
    if !is_own(agent, addr) {
        return Err(Refusal::Elsewhere);
    }
    on_read(agent, port, agent_read(addr, s), s)
}

// 1 to 4 are the line's; 5, another station's, leaves no mark.
fn on_fault(agent: &mut Agent, fault: LineFault) -> Refusal
    ensures { does (number_of result) agent.new ≡ on_fault agent.old fault }
{
    if fault != LineFault::Reserved {
        mark_line(agent);
    }
    fault.into()
}

// A body received on a port: what it does, and what is to be sent.
#[tactic(auto, unfolding(rules::specs::FrameCall::on_frame, rules::specs::FrameCall::on_body))]
pub fn on_frame(agent: &mut Agent, port: u8, body: &[u8]) -> Result<Option<Reply>, Refusal>
    ensures { deed_of result agent.new ≡ on_frame port agent.old body.now }
{
    let mut bytes = [0; 272];
    match read_body(body, &mut bytes) {
        Ok(found) => on_app(agent, port, found.addr, found.data),
        Err(fault) => Err(on_fault(agent, fault)),
    }
}
