// The cases on the bench, P1 to P14: the table in specs/, the theorem that covers it in proofs/.
#![tactic(auto)]

ghost use Rattle.std.specs.Prelude.{◌≡◌};

// Returns its argument: a crate must have at least one function.
pub fn same(x: u8) -> u8
    ensures { result ≡ x }
{
    x
}
