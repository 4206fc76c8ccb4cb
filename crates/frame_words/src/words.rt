// The words of a line: what is between its spaces.
ghost use Rattle.std.specs.Prelude.{◌≡◌, ◌≤◌, ◌==◌, length};
ghost use Rattle.std.specs.List.{position};
ghost use Rattle.frame_words.specs.Words.{word_in, word_end};

pub const SPACE: u8 = b' ';

// The index of the first space.
fn space_in(text: &[u8]) -> Option<usize>
    ensures { result ≡ position (λ c. c == 0x20) text.now }
{
    text.iter().position(|&c| c == SPACE)
}

// How many characters a text's first word has: those before the first space, or all.
#[tactic(auto, using(crate::proofs::WordLaws::word_length, crate::proofs::WordLaws::shorter))]
fn word_len(text: &[u8]) -> usize
    ensures len { result ≡ length (word_in text.now) }
    ensures within { result ≤ length text.now }
{
    space_in(text).unwrap_or(text.len())
}

// The index after the word that begins at index `from`: that of the next space, or the line's end.
#[tactic(auto, using(crate::proofs::WordLaws::word_none))]
pub fn word_end(line: &[u8], from: usize) -> usize
    ensures { result ≡ word_end line.now from }
{
    let Some((_, rest)) = line.split_at_checked(from) else {
        return from;
    };
    from + word_len(rest)
}
