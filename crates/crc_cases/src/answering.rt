// The CRC of bytes: the operation picks the polynomial.
ghost use Rattle.base.specs.Bytes.{bytes_of};
ghost use Rattle.crc.specs.Crc.{crc_of};
ghost use Rattle.cases.specs.Cases.{Says};
ghost use Rattle.crc_cases.specs.Answers.{crc_answers};

use cases::layings::add_word;
use cases::running::Cases;
use crc::{Fcs, Polynomial, Safety, crc_of};
use frame_words::texts::Text;

// The CRC in two bytes, high byte first.
#[tactic(auto, using(cases::proofs::AnswerLaws::says_word))]
fn crc_bytes<P: Polynomial>(s: &[u8]) -> Text
    ensures { Says result (bytes_of 2 (crc_of P.poly s.now)) }
{
    let mut t = Text::new();
    add_word(&mut t, crc_of::<P>(s).into());
    t
}

#[derive(Drop)]
pub struct CrcCases;

impl Cases for CrcCases {
    ghost answers = { crc_answers };

    #[tactic(auto, using(cases::proofs::AnswerLaws::says_none, cases::proofs::AnswerLaws::says_first, cases::proofs::AnswerLaws::says_second, cases::proofs::AnswerLaws::says_other), unfolding(crate::specs::Answers::crc_answers))]
    fn answer(&self, op: u8, s: &[u8]) -> Text {
        match op {
            0 => crc_bytes::<Fcs>(s),
            1 => crc_bytes::<Safety>(s),
            _ => Text::new(),
        }
    }
}
