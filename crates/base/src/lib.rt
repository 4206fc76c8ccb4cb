// What more than one crate needs: definitions and laws about lists, bytes and tests (specs/ and proofs/), and the copying of bytes.
#![tactic(auto)]

ghost use Rattle.std.specs.Prelude.{◌≡◌, ◌+◌, ◌≤◌, length};
ghost use Rattle.std.proofs.lemmas.List.Edits.{sets};

// Copies bytes, starting at index `from`; returns the next index. Only crates of this repository call it, each with room enough.
pub fn copy_at(src: &[u8], dst: &mut [u8], from: usize) -> usize
    requires { from + length src.now ≤ length dst.old }
    ensures { (result ≡ from + length src.now) × (dst.new ≡ sets dst.old from src.now) }
{
    let end = from + src.len();
    dst[from..end].copy_from_slice(src);
    end
}
