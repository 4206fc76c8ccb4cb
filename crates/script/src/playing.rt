// A script, line by line: a module from power-up, and how many lines it has played.
ghost use Rattle.std.specs.Prelude.{◌≡◌, ◌≤◌, length};
ghost use Rattle.text.specs.Texts.{with_piece};
ghost use Rattle.script_text.specs.Made.{outcome_of};
ghost use Rattle.script_lines.specs.Forms.{line_of, step_in};
ghost use Rattle.script_text.specs.Printing.{printed};
ghost use Rattle.script.specs.Playing.{start, after, shown};

use agent::calls::answer;
use rules::Agent;
use script_lines::doing::{do_form, no_reply, script_module};
use script_lines::forms::{Form, no_bytes, read_line};
use script_text::{Made, View, put_line};
use text::texts::Text;

#[derive(Clone, Copy)]
pub struct Player {
    pub agent: Agent,
    pub lines: u64,
}

// Puts the text of a line on the page, whole or not at all.
fn show<const ROOM: usize>(page: &mut Text<ROOM>, view: View, number: u64, bad: bool, made: Made)
    requires { length made.sent.now ≤ 545 }
    ensures short { length (printed view number bad (outcome_of made.entry)) ≤ 1700 }
    ensures text { page.new ≡ with_piece ROOM page.old (printed view number bad (outcome_of made.entry)) }
{
    // room for the longest line
    let mut text = Text::<1700>::new();
    put_line(&mut text, view, number, bad, made);
    page.add(text.as_slice());
}

impl Player {
    // Before the first line.
    pub fn new() -> Self
        ensures { result ≡ start }
    {
        Player {
            agent: script_module(),
            lines: 0,
        }
    }

    fn play_form<const ROOM: usize>(
        &mut self,
        view: View,
        form: Option<Form>,
        bytes: &[u8; 600],
        page: &mut Text<ROOM>,
    )
        ensures short { length (shown view self.old (step_in form bytes.now)) ≤ 1700 }
        ensures player { self.new ≡ after self.old (step_in form bytes.now) }
        ensures text { page.new ≡ with_piece ROOM page.old (shown view self.old (step_in form bytes.now)) }
    {
        let mut reply = no_reply();
        let done = do_form(&mut self.agent, form, bytes, &mut reply);
        let made = Made {
            answer: answer(&done),
            agent: &self.agent,
            sent: done.unwrap_or(&[]),
        };
        let number = self.lines.wrapping_add(1);
        show(page, view, number, form.is_none(), made);
        self.lines = number;
    }

    // Plays a line; its text goes on the page, whole or not at all.
    pub fn play_line<const ROOM: usize>(&mut self, view: View, line: &[u8], page: &mut Text<ROOM>)
        ensures short { length (shown view self.old (line_of line.now)) ≤ 1700 }
        ensures player { self.new ≡ after self.old (line_of line.now) }
        ensures text { page.new ≡ with_piece ROOM page.old (shown view self.old (line_of line.now)) }
    {
        let mut bytes = no_bytes();
        let form = read_line(line, &mut bytes);
        self.play_form(view, form, &bytes, page);
    }
}
