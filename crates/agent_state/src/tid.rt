// Which TIDs can be assigned, and the TID before one is assigned.
ghost use Rattle.std.specs.Prelude.{◌≡◌};
ghost use Rattle.rules.specs.Assignments.{assignable};

pub const UNASSIGNED: u8 = 0x8F;

// 01h to 8Eh, but not 7Dh or 7Eh.
pub fn is_assignable(tid: u8) -> bool
    ensures { result ≡ assignable tid }
{
    (0x01..=0x8E).contains(&tid) && !matches!(tid, 0x7D | 0x7E)
}
