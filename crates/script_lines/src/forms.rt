// The forms of a line: ticks, a frame that comes on a port, inputs; a line of no form is bad.
ghost use Rattle.std.specs.Prelude.{◌≡◌, ◌≤◌, length, drop, replicate};
ghost use Rattle.text.specs.Decimal.{decimal_of};
ghost use Rattle.text.specs.Hex.{hex_pairs};
ghost use Rattle.script_lines.specs.Forms.{ticks_form, frame_of, inputs_of, form_of, line_of, step_in};

use text::decimal::read_decimal;
use text::hex::hex_bytes;

// What a line asks for: a number of ticks; a body on a port, by its length; inputs. The bytes are kept in a buffer of their own.
#[derive(Clone, Copy)]
pub enum Form {
    Ticks(u64),
    Frame(u8, usize),
    Inputs,
}

const LONGEST: usize = 1200;

const MOST_TICKS: u32 = 60000;

// The number of inputs in a call.
pub const IMAGE: usize = 64;

// Room for the bytes of the longest line.
pub fn no_bytes() -> [u8; 600]
    ensures { result ≡ replicate 600 0 }
{
    [0; 600]
}

// The number of ticks after the space.
fn read_ticks(rest: &[u8]) -> Option<Form>
    ensures { result ≡ ticks_form (decimal_of 60000 rest.now) }
{
    let n = read_decimal(rest, MOST_TICKS)?;
    Some(Form::Ticks(n))
}

// The body after the space.
#[tactic(auto, using(text::proofs::HexRead::bytes_got, crate::proofs::FormLaws::not_frame))]
fn read_frame(rest: &[u8], port: u8, bytes: &mut [u8; 600]) -> Option<Form>
    requires { length rest.now ≤ 1200 }
    ensures { step_in result bytes.new ≡ frame_of port (hex_pairs rest.now) }
{
    match hex_bytes(rest, bytes) {
        Ok(n) => Some(Form::Frame(port, n)),
        Err(_) => None,
    }
}

// The inputs after the space.
#[tactic(auto, using(text::proofs::HexRead::bytes_got, crate::proofs::FormLaws::not_inputs, crate::proofs::FormLaws::inputs_64, crate::proofs::FormLaws::inputs_other))]
fn read_inputs(rest: &[u8], bytes: &mut [u8; 600]) -> Option<Form>
    requires { length rest.now ≤ 1200 }
    ensures { step_in result bytes.new ≡ inputs_of (hex_pairs rest.now) }
{
    match hex_bytes(rest, bytes) {
        Ok(IMAGE) => Some(Form::Inputs),
        _ => None,
    }
}

// By the first character.
#[tactic(auto, using(crate::proofs::FormLaws::form_ticks, crate::proofs::FormLaws::form_port, crate::proofs::FormLaws::form_inputs, crate::proofs::FormLaws::form_below, crate::proofs::FormLaws::form_above))]
fn read_form(c: u8, rest: &[u8], bytes: &mut [u8; 600]) -> Option<Form>
    requires { length rest.now ≤ 1200 }
    ensures { step_in result bytes.new ≡ form_of c rest.now }
{
    match c {
        b'T' => read_ticks(rest),
        b'0'..=b'9' => read_frame(rest, c - b'0', bytes),
        b'I' => read_inputs(rest, bytes),
        _ => None,
    }
}

// What a line asks for.
#[tactic(auto, using(crate::proofs::FormLaws::text_long, crate::proofs::FormLaws::text_short, crate::proofs::FormLaws::text_other, crate::proofs::FormLaws::text_form))]
pub fn read_line(line: &[u8], bytes: &mut [u8; 600]) -> Option<Form>
    ensures { step_in result bytes.new ≡ line_of line.now }
{
    if LONGEST < line.len() {
        return None;
    }
    match line {
        [c, b' ', rest @ ..] => read_form(*c, rest, bytes),
        _ => None,
    }
}
