// Lines of input: a line ends with LF alone, and may be spread over blocks of any size.
ghost use Rattle.std.specs.Prelude.{◌≡◌, ◌≤◌, ◌++◌, length, take, drop};
ghost use Rattle.std.specs.List.{position};
ghost use Rattle.text.specs.Lines.{is_end};

pub const LF: u8 = b'\n';

// Where the first line ends: the index of its LF.
pub fn line_end(bytes: &[u8]) -> Option<usize>
    ensures { result ≡ position is_end bytes.now }
{
    bytes.iter().position(|c| *c == LF)
}

// Adds characters to the first `len` of a line, as far as there is room; returns how many it has then.
pub fn add_chars(line: &mut [u8], len: usize, chars: &[u8]) -> usize
    requires { len ≤ length line.old }
    ensures len { result ≤ length line.old }
    ensures line { take result line.new ≡ take (length line.old) (take len line.old ++ chars.now) }
    ensures behind { drop result line.new ≡ drop result line.old }
{
    let n = (line.len() - len).min(chars.len());
    line[len..len + n].copy_from_slice(&chars[..n]);
    len + n
}
