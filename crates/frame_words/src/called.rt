// A line's first word: a kind's, or `body`.
ghost use Rattle.std.specs.Prelude.{◌≡◌};
ghost use Rattle.frame_words.specs.Called.{called};

use crate::table::{Kind, kinds};

const BODY: &[u8] = b"body";

#[derive(Clone, Copy, PartialEq, Eq, Debug)]
pub enum Called {
    Named(Kind),
    Body,
}

#[tactic(auto, using(crate::proofs::WordLaws::same_told, crate::proofs::CalledLaws::first_all, crate::proofs::CalledLaws::first_next, crate::proofs::CalledLaws::first_body, crate::proofs::CalledLaws::first_none))]
pub fn called_by(word: &[u8]) -> Option<Called>
    ensures { result ≡ called word.now }
{
    let all = kinds();
    for &kind in all {
        if word == kind.word() {
            return Some(Called::Named(kind));
        }
    }
    if word == BODY {
        return Some(Called::Body);
    }
    None
}
