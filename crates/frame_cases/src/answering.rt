// A frame that is read from a body, or written from its fields, by the operation.
ghost use Rattle.std.specs.Prelude.{◌≤◌, length};
ghost use Rattle.frame_reading.specs.Reading.{answer_to_frame};
ghost use Rattle.cases.specs.Cases.{Says};
ghost use Rattle.frame_cases.specs.Answers.{read_bytes, written_into, write_answer, frame_answers};

use case_fields::{fields_in, fields_out};
use cases::layings;
use cases::running::Cases;
use fields::Reader;
use frame_kinds::kinds::Frame;
use frame_words::texts::Text;

// The number and, with 0, the address, the kind, its fields and the data.
fn read(s: &[u8]) -> Text
    ensures { Says result (read_bytes (answer_to_frame s.now)) }
{
    let mut bytes = [0; 272];
    let mut t = Text::new();
    match frame_reading::read_frame(s, &mut bytes) {
        Ok(r) => {
            t.add(&[0, r.addr]);
            fields_out::add_frame(&mut t, r.frame);
            let data = Reader::new(r.app).at(r.frame.data_place());
            t.add(data.bytes(r.frame.data_len()));
        }
        Err(fault) => t.add(&[fault.number()]),
    }
    t
}

#[tactic(auto, using(cases::proofs::LayingLaws::laid_says))]
fn write_into(buf: &mut [u8], addr: u8, f: Frame, data: &[u8]) -> Text
    requires { length buf.old ≤ 600 }
    ensures { Says result (written_into buf.old addr f «data».now) }
{
    let laid = frame_writing::write_frame(buf, addr, f, data);
    layings::laid_answer(laid, buf)
}

// Room (2 bytes), address, kind, fields, data. A line that has no kind is too short for the fields of kind 0.
#[tactic(auto, using(crate::proofs::FrameLaws::within, crate::proofs::FrameLaws::write_none, crate::proofs::FrameLaws::write_short, crate::proofs::FrameLaws::write_written))]
fn write(s: &[u8]) -> Text
    ensures { Says result (write_answer s.now) }
{
    let r = Reader::new(s);
    let room = usize::from(r.u16());
    let kind = r.at(3).u8();
    if (fields_in::LAST_KIND < kind) | (layings::MOST < room) {
        return Text::new();
    }
    let from = 4 + fields_in::fields_len(kind);
    if s.len() < from {
        return Text::new();
    }
    let f = fields_in::frame_at(kind, &s[4..]);
    let mut buf = layings::pattern();
    write_into(&mut buf[..room], r.at(2).u8(), f, &s[from..])
}

#[derive(Drop)]
pub struct FrameCases;

impl Cases for FrameCases {
    ghost answers = { frame_answers };

    #[tactic(auto, using(cases::proofs::AnswerLaws::says_none, cases::proofs::AnswerLaws::says_first, cases::proofs::AnswerLaws::says_second, cases::proofs::AnswerLaws::says_other), unfolding(crate::specs::Answers::frame_answers))]
    fn answer(&self, op: u8, s: &[u8]) -> Text {
        match op {
            0 => read(s),
            1 => write(s),
            _ => Text::new(),
        }
    }
}
