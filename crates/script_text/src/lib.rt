// What is printed for a line of a script, put behind a text of any room.
#![tactic(auto)]

pub mod lent;

ghost use Rattle.std.specs.Prelude.{◌≡◌, ◌+◌, ◌≤◌, ◌++◌, length};
ghost use Rattle.text.specs.Texts.{with_piece};
ghost use Rattle.script_text.specs.Made.{outcome_of};
ghost use Rattle.script_text.specs.Printing.{header_of, answer_text, mode_text, state_text, reply_text, trace_text, view_text, fields_text, printed};

use agent_state::state::IN_RUN;
use rules::Agent;
use text::bad_lines::put_bad;
use text::texts::Text;

// The four fields of saturn-script; or, with them, the reply and the registers.
#[derive(Clone, Copy)]
pub enum View {
    Script,
    Trace,
}

// What a line made of the module: the answer, the module then, and what was sent.
#[derive(Clone, Copy)]
pub struct Made<'a, 'b> {
    pub answer: u8,
    pub agent: &'a Agent,
    pub sent: &'b [u8],
}

// Puts the header, whole or not at all.
pub fn put_header<const ROOM: usize>(text: &mut Text<ROOM>, view: View)
    ensures { text.new ≡ with_piece ROOM text.old (header_of view) }
{
    match view {
        View::Script => text.add(b"LINE ANSWER MODE CYC\n"),
        View::Trace => text.add(b"LINE ANSWER MODE CYC REPLY REGISTERS\n"),
    }
}

// Line number and answer.
#[tactic(auto, unfolding(crate::specs::Printing::answer_text))]
fn put_answer<const ROOM: usize>(text: &mut Text<ROOM>, number: u64, answer: u8)
    requires { length text.old + 41 ≤ ROOM }
    ensures { text.new ≡ text.old ++ answer_text number answer }
{
    text.put_decimal(number);
    text.put(b" ");
    text.put_decimal(answer as u64);
}

// F or R.
#[tactic(auto, using(crate::proofs::PrintingLaws::mode_run, crate::proofs::PrintingLaws::mode_fallback))]
fn put_mode<const ROOM: usize>(text: &mut Text<ROOM>, agent: &Agent)
    ensures { text.new ≡ with_piece ROOM text.old (mode_text agent.now) }
{
    if agent.mode == IN_RUN {
        text.add(b" R ");
    } else {
        text.add(b" F ");
    }
}

// The mode, and c in two digits.
#[tactic(auto, using(crate::proofs::PrintingLaws::state_put))]
fn put_state<const ROOM: usize>(text: &mut Text<ROOM>, agent: &Agent)
    requires { length text.old + 5 ≤ ROOM }
    ensures { text.new ≡ text.old ++ state_text agent.now }
{
    put_mode(text, agent);
    text.add_hex(&[agent.cycle]);
}

// What was sent, or that nothing was.
#[tactic(auto, using(crate::proofs::PrintingLaws::reply_none, crate::proofs::PrintingLaws::reply_some))]
fn put_reply<const ROOM: usize>(text: &mut Text<ROOM>, sent: &[u8])
    ensures { text.new ≡ with_piece ROOM text.old (reply_text sent.now) }
{
    if sent.is_empty() {
        text.add(b"-");
    } else {
        text.add_hex(sent);
    }
}

// The reply and the registers.
#[tactic(auto, using(crate::proofs::PrintingLaws::trace_length))]
fn put_trace<const ROOM: usize>(text: &mut Text<ROOM>, sent: &[u8], regs: &[u8])
    requires { (length sent.now ≤ 545) × (length regs.now ≤ 256) × (length text.old + 1605 ≤ ROOM) }
    ensures text { text.new ≡ text.old ++ trace_text sent.now regs.now }
    ensures most { length (trace_text sent.now regs.now) ≤ 1604 }
{
    text.add(b" ");
    put_reply(text, sent);
    text.add(b" ");
    text.add_hex(regs);
}

// What the trace shows in addition.
fn put_view<const ROOM: usize>(text: &mut Text<ROOM>, view: View, made: Made)
    requires { (length made.sent.now ≤ 545) × (length text.old + 1605 ≤ ROOM) }
    ensures text { text.new ≡ text.old ++ view_text view (outcome_of made.entry) }
    ensures most { length (view_text view (outcome_of made.entry)) ≤ 1604 }
{
    match view {
        View::Script => {}
        View::Trace => put_trace(text, made.sent, &made.agent.regs),
    }
}

// The fields of a line.
fn put_fields<const ROOM: usize>(text: &mut Text<ROOM>, view: View, number: u64, made: Made)
    requires { (length made.sent.now ≤ 545) × (length text.old + 1700 ≤ ROOM) }
    ensures text { text.new ≡ text.old ++ fields_text view number (outcome_of made.entry) }
    ensures most { length (fields_text view number (outcome_of made.entry)) ≤ 1700 }
{
    put_answer(text, number, made.answer);
    put_state(text, made.agent);
    put_view(text, view, made);
    text.put(b"\n");
}

// Puts a line's text.
pub fn put_line<const ROOM: usize>(
    text: &mut Text<ROOM>,
    view: View,
    number: u64,
    bad: bool,
    made: Made,
)
    requires { (length made.sent.now ≤ 545) × (length text.old + 1700 ≤ ROOM) }
    ensures text { text.new ≡ text.old ++ printed view number bad (outcome_of made.entry) }
    ensures most { length (printed view number bad (outcome_of made.entry)) ≤ 1700 }
{
    if bad {
        put_bad(text, number);
    } else {
        put_fields(text, view, number, made);
    }
}
