// The limit of requests a cycle.
ghost use Rattle.std.specs.Prelude.{◌≡◌};
ghost use Rattle.rules.specs.Fixed.{is_limit};

// Of lighting; of doors, and of the module of a script.
pub const LIGHTING_LIMIT: u8 = 16;

pub const DOORS_LIMIT: u8 = 64;

pub fn is_limit(n: u8) -> bool
    ensures { result ≡ is_limit n }
{
    n == LIGHTING_LIMIT || n == DOORS_LIMIT
}
