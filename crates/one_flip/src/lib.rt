// A module, and one flipped bit on the wire: see specs/ and proofs/. No code of its own.
#![tactic(auto)]

ghost use Rattle.std.specs.Prelude.{◌≡◌};

// Returns its argument: a crate must have at least one function.
pub fn same(x: u8) -> u8
    ensures { result ≡ x }
{
    x
}
