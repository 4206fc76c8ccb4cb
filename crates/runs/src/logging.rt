// The records of a log: the answer, the mode, the registers.
ghost use Rattle.std.specs.Prelude.{◌≡◌, ◌+◌, ◌≤◌, length};
ghost use Rattle.std.proofs.lemmas.List.Edits.{sets};
ghost use Rattle.runs.specs.Log.{record_of, record_size};

use base::copy_at;
use rules::Agent;

// The length of a record, in bytes.
pub const RECORD: usize = 258;

// Writes a record at index `at`; returns the next index.
#[tactic(auto, using(crate::proofs::LogLaws::two_then))]
pub fn put(answer: u8, agent: &Agent, log: &mut [u8], at: usize) -> usize
    requires { at + record_size ≤ length log.old }
    ensures { (result ≡ at + record_size) × (length agent.now.regs ≡ 256) × (log.new ≡ sets log.old at (record_of answer agent.now)) }
{
    let next = copy_at(&[answer, agent.mode], log, at);
    copy_at(&agent.regs, log, next)
}
