// The grounds that register 26h shows, by name, and which of them it shows after fallback is entered. They stay numbers: the register
// holds one, and `ground_after` and `enter_fallback` take any byte, so a type of these five would ask more of callers.
ghost use Rattle.std.specs.Prelude.{◌≡◌, eqb};
ghost use Rattle.base.specs.Choice.{choose};
ghost use Rattle.rules.specs.State.{in_run};

use crate::state::IN_RUN;

pub const BY_SYNC_SILENCE: u8 = 1;

pub const BY_COMMAND_SILENCE: u8 = 2;

pub const BY_WRONG_CYCLE: u8 = 3;

pub const BY_ORDER: u8 = 4;

pub const BY_WINDOW: u8 = 5;

// The ground if the module was in RUN, else what was shown before.
pub fn ground_after(mode: u8, cause: u8, shown: u8) -> u8
    ensures { result ≡ choose (eqb mode in_run) cause shown }
{
    if mode == IN_RUN { cause } else { shown }
}
