// The agent at power-up: its registers, and the rest of its state.
ghost use Rattle.std.specs.Prelude.{◌≡◌};
ghost use Rattle.rules.specs.Fixed.{fixed_by};
ghost use Rattle.rules.specs.PowerUp.{power_regs, power_up};

use agent_state::registers::{IID, MAC, TID, TYP, VER, fill, put};
use agent_state::state::{IN_FALLBACK, NOBODY, UNHEARD, UNMARKED};
use rules::{Agent, Fixed};

// TID, SID (3), OUT_REP, TCYC, STATUT, CNF_REP, CNF_CYC, AD_REF, SZ_REF: 13h to 1Dh.
const SETTINGS: [u8; 11] = [
    0x8F, 0xFF, 0xFF, 0xFF, 0xAA, 0xFF, 0x80, 0x05, 0x02, 0x80, 0x08,
];

// MAC, IID, TYP 82h and VER, the settings, 27h to 7Fh = FFh; 26h stays 0, no ground.
#[tactic(auto, unfolding(rules::specs::PowerUp::power_regs, rules::specs::Registers::low_bytes))]
fn power_regs(mac: u64, iid: u64, ver: u16) -> [u8; 256]
    ensures { result ≡ power_regs mac iid ver }
{
    let mut regs = [0; 256];
    put(&mut regs, MAC, &mac.to_le_bytes());
    put(&mut regs, IID, &iid.to_le_bytes());
    regs[TYP] = 0x82;
    put(&mut regs, VER, &ver.to_le_bytes());
    put(&mut regs, TID, &SETTINGS);
    fill(&mut regs, 0x27, 89, 0xFF);
    regs
}

// Fallback, unheard, no mark, counters 0, no source; with the limit of requests.
#[tactic(auto, unfolding(rules::specs::PowerUp::power_up))]
pub fn power_up(mac: u64, iid: u64, ver: u16, limit: u8) -> Agent
    ensures { result ≡ power_up mac iid ver (fixed_by limit) }
{
    Agent {
        regs: power_regs(mac, iid, ver),
        known: [NOBODY; 8],
        last: NOBODY,
        silence: 0,
        idle: 0,
        cycle: 0,
        elapsed: 0,
        taken: 0,
        mode: IN_FALLBACK,
        heard: UNHEARD,
        mark: UNMARKED,
        count: 0,
        fixed: Fixed { limit },
    }
}
