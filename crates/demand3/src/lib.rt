// Demand 3: the claim in specs/, its theorem in proofs/.
#![tactic(auto)]

ghost use Rattle.std.specs.Prelude.{◌≡◌};

// Returns its argument: a crate must have at least one function.
pub fn same(x: u8) -> u8
    ensures { result ≡ x }
{
    x
}
