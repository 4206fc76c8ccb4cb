// The call that the bytes hold at an index.
ghost use Rattle.std.specs.Prelude.{◌≡◌, ◌+◌, ◌<◌, length};
ghost use Rattle.base.specs.Bytes.{number_at};
ghost use Rattle.demand3.specs.Reached.{Continues};
ghost use Rattle.runs.specs.CallBytes.{call_of, Stepped};

use agent::calls::answer;
use fields::Reader;
use rules::Agent;

// Makes the call with these parts, and returns its answer: kind 0 is a tick with its inputs, any other a frame. The kind stays a byte,
// since `run_calls` promises of every byte.
fn call(agent: &mut Agent, kind: u8, port: u8, bytes: &[u8], reply: &mut [u8]) -> u8
    ensures { Continues agent.old (call_of kind port bytes.now (length reply.old)) result agent.new }
{
    if kind == 0 {
        answer(&promised::tick(agent, bytes))
    } else {
        answer(&promised::frame(agent, port, bytes, reply))
    }
}

// The answer, and the index of the next call.
#[derive(Clone, Copy)]
pub struct Made {
    pub answer: u8,
    pub next: usize,
}

// The length of a call's heading: kind (1), port (1), room (8), length (8).
const HEADING: usize = 18;

#[derive(Clone, Copy)]
struct Heading {
    kind: u8,
    port: u8,
    room: usize,
    len: usize,
}

// The heading at index `at`; a byte past the end reads as 0. A usize has 64 bits, so `as` loses nothing, and no From turns a u64 into
// one.
fn heading_at(s: &[u8], at: usize) -> Heading
    requires { at < length s.now }
    ensures kind { result.kind ≡ number_at s.now at 1 }
    ensures port { result.port ≡ number_at s.now (at + 1) 1 }
    ensures room { result.room ≡ number_at s.now (at + 2) 8 }
    ensures len { result.len ≡ number_at s.now (at + 10) 8 }
{
    let reader = Reader::new(s);
    Heading {
        kind: reader.at(at).u8(),
        port: reader.at(at + 1).u8(),
        room: reader.at(at + 2).u64() as usize,
        len: reader.at(at + 10).u64() as usize,
    }
}

// Makes the call at index `at`, with as much of the reply buffer as it asks for. If the bytes hold no whole call there,
// or the reply buffer is too short for it, no call is made: the answer is 0, and everything to the end is skipped.
pub fn step(agent: &mut Agent, s: &[u8], at: usize, reply: &mut [u8]) -> Made
    requires { at < length s.now }
    ensures { Stepped s.now at (length reply.old) agent.old result.answer agent.new result.next }
{
    let left = s.len() - at;
    let heading = heading_at(s, at);
    let no_call = Made {
        answer: 0,
        next: s.len(),
    };
    if left < HEADING {
        return no_call;
    }
    if left - HEADING < heading.len {
        return no_call;
    }
    if reply.len() < heading.room {
        return no_call;
    }
    let from = at + HEADING;
    let to = from + heading.len;
    let bytes = &s[from..to];
    let room = &mut reply[..heading.room];
    Made {
        answer: call(agent, heading.kind, heading.port, bytes, room),
        next: to,
    }
}
