// A body that is read, or application data that are laid down, by the operation.
ghost use Rattle.std.specs.Prelude.{◌≤◌, length};
ghost use Rattle.wire.specs.Body.{answer_to_body};
ghost use Rattle.cases.specs.Cases.{Says};
ghost use Rattle.body_cases.specs.Answers.{read_bytes, laid_into, lay_answer, body_answers};

use cases::layings;
use cases::running::Cases;
use fields::Reader;
use frame_words::texts::Text;

// The number and, with 0, the address and the application data.
fn read(s: &[u8]) -> Text
    ensures { Says result (read_bytes (answer_to_body s.now)) }
{
    let mut bytes = [0; 272];
    let mut t = Text::new();
    match wire::read_body(s, &mut bytes) {
        Ok(body) => {
            t.add(&[0, body.addr]);
            t.add(body.data);
        }
        Err(fault) => t.add(&[fault.number()]),
    }
    t
}

#[tactic(auto, using(cases::proofs::LayingLaws::laid_says))]
fn lay_into(buf: &mut [u8], addr: u8, data: &[u8]) -> Text
    requires { length buf.old ≤ 600 }
    ensures { Says result (laid_into buf.old addr «data».now) }
{
    let laid = laying::lay(buf, addr, data);
    layings::laid_answer(laid, buf)
}

// Room (2 bytes), address, application data.
#[tactic(auto, using(crate::proofs::BodyLaws::lay_short, crate::proofs::BodyLaws::lay_wide, crate::proofs::BodyLaws::lay_laid))]
fn lay(s: &[u8]) -> Text
    ensures { Says result (lay_answer s.now) }
{
    if s.len() < 3 {
        return Text::new();
    }
    let r = Reader::new(s);
    let room = usize::from(r.u16());
    if layings::MOST < room {
        return Text::new();
    }
    let mut buf = layings::pattern();
    lay_into(&mut buf[..room], r.at(2).u8(), &s[3..])
}

#[derive(Drop)]
pub struct BodyCases;

impl Cases for BodyCases {
    ghost answers = { body_answers };

    #[tactic(auto, using(cases::proofs::AnswerLaws::says_none, cases::proofs::AnswerLaws::says_first, cases::proofs::AnswerLaws::says_second, cases::proofs::AnswerLaws::says_other), unfolding(crate::specs::Answers::body_answers))]
    fn answer(&self, op: u8, s: &[u8]) -> Text {
        match op {
            0 => read(s),
            1 => lay(s),
            _ => Text::new(),
        }
    }
}
