// Text put together for output, with room for so many characters.
ghost use Rattle.std.specs.Prelude.{◌≡◌, ◌+◌, ◌≤◌, [], ◌∷◌, ◌++◌, length, take};
ghost use Rattle.text.specs.Decimal.{decimal_text};
ghost use Rattle.text.specs.Putting.{hex_text};
ghost use Rattle.text.specs.Texts.{with_piece};

use crate::decimal::put_decimal;
use crate::lines::{LF, add_chars};
use crate::putting::put_bytes;
use std::marker::Model;

// A text of at most ROOM characters. The bytes behind it are zero: its characters give every byte of it, which Copy asks for.
#[derive(Clone, Copy)]
pub struct Text<const ROOM: usize> {
    chars: [u8; ROOM],
    len: usize,
}

impl<const ROOM: usize> Model for Text<ROOM> {
    ghost use Rattle.std.specs.Prelude.{◌≡◌, ◌-◌, ◌≤◌, ◌++◌, List, ℕ, length, take, drop, replicate};
    ghost use Rattle.std.proofs.Common.{arith, sym, ap, ◌∙◌, take-append-drop, length-take-le};

    ghost Value = { List ℕ };

    ghost view = { λ t. take t.len t.chars };

    ghost invariant = { λ t. (t.len ≤ ROOM) × (length t.chars ≡ ROOM) × (drop t.len t.chars ≡ replicate (ROOM - t.len) 0) };

    ghost inverse = { λ s. record { chars = s ++ replicate (ROOM - length s) 0; len = length s } };

    ghost inverse_ok = { λ t h i.
        let e = length-take-le t.len t.chars (omega (arith, h)) in
        record {
          chars =
              (ap (λ n. take t.len t.chars ++ replicate (ROOM - n) 0) e
              ∙ ap (λ zeros. take t.len t.chars ++ zeros) (sym h.2)
              ∙ take-append-drop t.len t.chars) i;
          len = e i;
        } };
}

impl<const ROOM: usize> Text<ROOM> {
    pub fn new() -> Self
        ensures { result ≡ [] }
    {
        Text {
            chars: [0; ROOM],
            len: 0,
        }
    }

    pub fn as_slice(&self) -> &[u8]
        ensures text { result.now ≡ self.now }
        ensures within { length self.now ≤ ROOM }
    {
        &self.chars[..self.len]
    }

    pub fn clear(&mut self)
        ensures { self.new ≡ [] }
    {
        self.chars[..self.len].fill(0);
        self.len = 0;
    }

    // Puts a text behind what is there.
    #[tactic(auto, using(crate::proofs::TextLaws::filled))]
    pub fn put(&mut self, text: &[u8])
        requires { length self.old + length text.now ≤ ROOM }
        ensures text { self.new ≡ self.old ++ text.now }
        ensures len { length self.new ≡ length self.old + length text.now }
    {
        self.fill(text);
    }

    // Puts a number in decimal behind what is there.
    pub fn put_decimal(&mut self, n: u64)
        requires { length self.old + 20 ≤ ROOM }
        ensures text { self.new ≡ self.old ++ decimal_text n }
        ensures len { length self.new ≤ length self.old + 20 }
    {
        self.add_number(n);
    }

    // Adds a text, whole or not at all.
    pub fn add(&mut self, text: &[u8])
        ensures { self.new ≡ with_piece ROOM self.old text.now }
    {
        if text.len() <= ROOM - self.len {
            self.put(text);
        }
    }

    // Adds bytes in two digits each, whole or not at all.
    #[tactic(auto, using(crate::proofs::TextLaws::piece_put, crate::proofs::TextLaws::room_kept, crate::proofs::TextLaws::zeros_kept))]
    pub fn add_hex(&mut self, bytes: &[u8])
        ensures { self.new ≡ with_piece ROOM self.old (hex_text bytes.now) }
    {
        self.len = put_bytes(&mut self.chars, self.len, bytes);
    }

    // Adds a number in decimal, whole or not at all.
    #[tactic(auto, using(crate::proofs::TextLaws::piece_put, crate::proofs::TextLaws::room_kept, crate::proofs::TextLaws::zeros_kept))]
    pub fn add_number(&mut self, n: u64)
        ensures { self.new ≡ with_piece ROOM self.old (decimal_text n) }
    {
        self.len = put_decimal(&mut self.chars, self.len, n);
    }

    // Adds the LF that ends a line, if there is room for it.
    pub fn end_line(&mut self)
        ensures { self.new ≡ with_piece ROOM self.old (0x0A ∷ []) }
    {
        self.add(&[LF]);
    }

    // Adds characters, as far as there is room.
    #[tactic(auto, using(crate::proofs::TextLaws::kept_filled))]
    pub fn fill(&mut self, chars: &[u8])
        ensures { self.new ≡ take ROOM (self.old ++ chars.now) }
    {
        self.len = add_chars(&mut self.chars, self.len, chars);
    }
}
