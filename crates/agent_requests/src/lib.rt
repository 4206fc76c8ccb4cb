// What a safe request does: its source, SID and cycle, then how far its SEQ is from the first of the cycle, then what it asks for.
// One function for each rule, as in `rules`, over the borrowed state. Only the crates of the agent call these.
#![tactic(auto)]

ghost use Rattle.std.specs.Prelude.{◌≡◌, ◌^◌, ◌<◌};
ghost use Rattle.rules.specs.Requests.{first_seq, distance, on_ask, on_distance};
ghost use Rattle.agent_replies.specs.Deeds.{deed_of};
ghost use Rattle.agent_requests.specs.Asks.{ask_of, requested};

use agent_marks::marks::{mark_sequence, mark_skips};
use agent_replies::replies::{Reply, read_reply};
use agent_state::refusal::Refusal;
use agent_state::sources::sid_of;
use agent_state::state::{IS_HEARD, NOBODY};
use agent_writes::on_write;
use rules::Agent;

// What a request asks for.
#[derive(Clone, Copy)]
pub enum Ask<'a> {
    // DATL and ADD
    Reads(u8, u8),
    // ADD, and the bytes
    Writes(u8, &'a [u8]),
}

// A safe request as it was received, with its port.
#[derive(Clone, Copy)]
pub struct Request<'a> {
    pub port: u8,
    pub dest: u32,
    pub src: u32,
    pub cyc: u8,
    pub seq: u8,
    pub ask: Ask<'a>,
}

// How many numbers a request may skip.
const MOST_SKIPPED: u8 = 3;

// The first SEQ of a cycle is the complement of CYC plus one, modulo 256.
fn first_seq(cyc: u8) -> u8
    ensures { result ≡ first_seq cyc }
{
    (!cyc).wrapping_add(1)
}

// d = SEQ minus the first SEQ, modulo 256.
#[tactic(auto, unfolding(rules::specs::Requests::distance))]
fn distance(seq: u8, cyc: u8) -> u8
    ensures { result ≡ distance seq cyc }
{
    seq.wrapping_sub(first_seq(cyc))
}

fn on_ask(agent: &mut Agent, request: Request) -> Result<Option<Reply>, Refusal>
    requires { request.src < 2 ^ 24 }
    ensures { deed_of result agent.new ≡ on_ask request.entry.port agent.old request.entry.src request.entry.seq (ask_of request.entry.ask) }
{
    match request.ask {
        Ask::Reads(datl, add) => Ok(Some(read_reply(
            agent,
            request.port,
            request.src,
            request.seq,
            datl,
            add,
        ))),
        Ask::Writes(add, bytes) => {
            on_write(agent, add, bytes)?;
            Ok(None)
        }
    }
}

// By the distance: below k is a repeat, a number skipped before too; above k + 3 is out of order; at the limit or past it is 15;
// else the request is taken, even if its write is then refused: the numbers skipped are counted, and k becomes d + 1.
#[tactic(auto, unfolding(rules::specs::Requests::on_distance))]
fn on_distance(agent: &mut Agent, request: Request, d: u8) -> Result<Option<Reply>, Refusal>
    requires { request.src < 2 ^ 24 }
    ensures { deed_of result agent.new ≡ on_distance request.entry.port agent.old request.entry.src request.entry.seq d (ask_of request.entry.ask) }
{
    if d < agent.taken {
        return Err(Refusal::Repeat);
    }
    let skips = d - agent.taken;
    if MOST_SKIPPED < skips {
        mark_sequence(agent);
        return Err(Refusal::OutOfOrder);
    }
    if agent.fixed.limit <= d {
        return Err(Refusal::TooMany);
    }
    mark_skips(agent, skips);
    agent.taken = d + 1;
    on_ask(agent, request)
}

// 10 unless the source is that of the last accepted sync; 11 unless DEST is the own SID; 12 unless the cycle is heard
// and CYC = c.
#[tactic(auto, unfolding(rules::specs::Requests::on_request))]
pub fn on_request(agent: &mut Agent, request: Request) -> Result<Option<Reply>, Refusal>
    requires { request.src < 2 ^ 24 }
    ensures { deed_of result agent.new ≡ requested request.entry agent.old }
{
    if request.src == NOBODY || request.src != agent.last {
        return Err(Refusal::Source);
    }
    if request.dest != sid_of(agent) {
        return Err(Refusal::Addressee);
    }
    if agent.heard != IS_HEARD || request.cyc != agent.cycle {
        mark_sequence(agent);
        return Err(Refusal::Cycle);
    }
    on_distance(agent, request, distance(request.seq, request.cyc))
}
