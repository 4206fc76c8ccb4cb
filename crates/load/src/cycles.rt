// A script, line by line: the cycle that is open, and the one that a line ends.
ghost use Rattle.std.specs.Prelude.{◌≡◌, ◌≤◌, ◌++◌, length};
ghost use Rattle.console.specs.Handing.{HasRoom, with_text};
ghost use Rattle.frame_reading.specs.Reading.{read_frame};
ghost use Rattle.rules.specs.Refusals.{is_sync};
ghost use Rattle.agent_state.specs.Refusing.{answer_of};
ghost use Rattle.script_lines.specs.Forms.{line_of, step_in};
ghost use Rattle.load_text.specs.Printing.{open_text};
ghost use Rattle.load.specs.Cycles.{is_sync_read, is_opening};
ghost use Rattle.load.specs.Loading.{start, cycle_after, after, ended_text, shown};

use agent_state::refusal::Refusal;
use agent_state::registers::TCYC;
use console::pages::Page;
use frame_kinds::kinds::Frame;
use frame_reading::read_frame;
use load_text::{Cycle, put_cycle};
use rules::Agent;
use script_lines::doing::{do_form, no_reply, script_module};
use script_lines::forms::{Form, no_bytes, read_line};

// What is counted of a line: its number, whether it is an accepted sync, TCYC at it, and how many wire bytes are sent.
#[derive(Clone, Copy)]
pub struct Counted {
    pub number: u32,
    pub opens: bool,
    pub tcyc: u8,
    pub sent: u16,
}

// The module, the number of lines that it has played, and the cycle that is open.
#[derive(Clone, Copy)]
pub struct Loading {
    pub agent: Agent,
    pub lines: u32,
    pub cycle: Cycle,
}

// Lines past the millionth are not read.
pub const MOST_LINES: u32 = 1000000;

fn is_sync(f: Frame) -> bool
    ensures { result ≡ is_sync f }
{
    matches!(f, Frame::Sync { .. })
}

// Whether a body is read as a sync.
fn body_is_sync(body: &[u8]) -> bool
    ensures { result ≡ is_sync_read (read_frame body.now) }
{
    let mut bytes = [0; 272];
    match read_frame(body, &mut bytes) {
        Ok(received) => is_sync(received.frame),
        Err(_) => false,
    }
}

// Whether a line is an accepted sync.
#[tactic(auto, using(std::proofs::lemmas::List::take_min, agent_state::proofs::RefusalLaws::not_accepted))]
fn is_opening(form: Option<Form>, bytes: &[u8], done: Result<&[u8], Refusal>) -> bool
    ensures { result ≡ is_opening (step_in form bytes.now) (answer_of done.entry) }
{
    match form {
        Some(Form::Frame(_, n)) => {
            let end = n.min(bytes.len());
            done.is_ok() && body_is_sync(&bytes[..end])
        }
        _ => false,
    }
}

// The cycle that is open after a line: a new one, or the same with what the line sent.
#[tactic(auto, using(base::proofs::Choosing::choose_true, base::proofs::Choosing::choose_false), unfolding(crate::specs::Loading::cycle_after))]
fn cycle_after(line: Counted, cycle: Cycle) -> Cycle
    ensures { result ≡ cycle_after line cycle }
{
    if line.opens {
        return Cycle {
            first: line.number,
            bytes: u32::from(line.sent),
            tcyc: line.tcyc,
        };
    }
    Cycle {
        first: cycle.first,
        bytes: cycle.bytes.wrapping_add(u32::from(line.sent)),
        tcyc: cycle.tcyc,
    }
}

// Puts the line of a cycle; nothing if there is no cycle.
pub fn put_open(page: &mut Page, cycle: Cycle)
    requires { HasRoom page.old }
    ensures { page.new ≡ page.old ++ open_text cycle }
{
    put_cycle(page, cycle);
}

// Puts the cycle that a line ends, if it opens another: whole or not at all.
#[tactic(auto, using(crate::proofs::CyclesLaws::ended_short, crate::proofs::CyclesLaws::ended_none, crate::proofs::CyclesLaws::ended_one))]
fn put_ended(page: &mut Page, opens: bool, cycle: Cycle)
    ensures short { length (ended_text opens cycle) ≤ 64 }
    ensures text { page.new ≡ with_text page.old (ended_text opens cycle) }
{
    if opens {
        put_cycle(page, cycle);
    }
}

impl Loading {
    // Before the first line.
    pub fn new() -> Self
        ensures { result ≡ start }
    {
        Loading {
            agent: script_module(),
            lines: 0,
            cycle: Cycle {
                first: 0,
                bytes: 0,
                tcyc: 0,
            },
        }
    }

    // Plays what a line asks for, with the bytes of the line; past the millionth line nothing is played.
    #[tactic(auto, using(crate::proofs::CyclesLaws::past_after, crate::proofs::CyclesLaws::past_shown, crate::proofs::CyclesLaws::few_shown))]
    fn load_form(&mut self, form: Option<Form>, bytes: &[u8; 600], page: &mut Page)
        ensures short { length (shown self.old (step_in form bytes.now)) ≤ 64 }
        ensures after { self.new ≡ after self.old (step_in form bytes.now) }
        ensures text { page.new ≡ with_text page.old (shown self.old (step_in form bytes.now)) }
    {
        if MOST_LINES <= self.lines {
            return;
        }
        let tcyc = self.agent.regs[TCYC];
        let mut reply = no_reply();
        let done = do_form(&mut self.agent, form, bytes, &mut reply);
        let opens = is_opening(form, bytes, done);
        put_ended(page, opens, self.cycle);
        self.lines += 1;
        let line = Counted {
            number: self.lines,
            opens,
            tcyc,
            sent: done.unwrap_or(&[]).len() as u16,
        };
        self.cycle = cycle_after(line, self.cycle);
    }

    // Plays a line; its text is put whole or not at all.
    pub fn load_line(&mut self, line: &[u8], page: &mut Page)
        ensures short { length (shown self.old (line_of line.now)) ≤ 64 }
        ensures after { self.new ≡ after self.old (line_of line.now) }
        ensures text { page.new ≡ with_text page.old (shown self.old (line_of line.now)) }
    {
        let mut bytes = no_bytes();
        let form = read_line(line, &mut bytes);
        self.load_form(form, &bytes, page);
    }
}
