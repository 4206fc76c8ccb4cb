// The state of the module's bus agent. What the calls do to it is defined in specs/, in the order of document 01.
#![tactic(auto)]

ghost use Rattle.std.specs.Prelude.{◌≡◌};

// What is fixed at power-up: no call changes it.
#[repr(C)]
#[derive(Clone, Copy)]
pub struct Fixed {
    // the limit of requests in a cycle: 16 or 64
    pub limit: u8,
}

// Unsigned numbers and arrays only: every bit pattern that a host passes in is a value, and the test for soundness decides.
#[repr(C)]
#[derive(Clone, Copy)]
pub struct Agent {
    pub regs: [u8; 256],
    // the recorded concentrators are the first `count` of these
    pub known: [u32; 8],
    // the source of the last accepted sync; FFFFFFh for none
    pub last: u32,
    // s: ms since the last accepted sync, stops at 65,535
    pub silence: u16,
    // q: ms since the last output write or entry to RUN
    pub idle: u16,
    // c: the cycle counter
    pub cycle: u8,
    // e: ms in the cycle
    pub elapsed: u8,
    // k: the number after the highest taken in the cycle, counted from its first SEQ
    pub taken: u8,
    // RUN (1) or fallback (0)
    pub mode: u8,
    // whether the cycle is heard (1) or not (0)
    pub heard: u8,
    // the mark: whether a sync came outside its window (1) or not (0)
    pub mark: u8,
    pub count: u8,
    pub fixed: Fixed,
}

// The write spans; a write covers one of them or a part of it. `Outside` is none of them.
#[derive(Clone, Copy)]
pub enum Span {
    Release,
    CycleTime,
    Limits,
    Counters,
    Config,
    Outputs,
    Outside,
}

// Returns its argument: a crate must have at least one function.
pub fn same(x: u8) -> u8
    ensures { result ≡ x }
{
    x
}
