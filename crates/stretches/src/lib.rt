// The worst 1,000 cycles of a journey, count by count: the last 1,000 counts, their sum, and the worst stretch so far.
#![tactic(auto)]

ghost use Rattle.std.specs.Prelude.{◌≡◌};
ghost use Rattle.stretches.specs.Rolling.{sum_after, judged, begun, after};

// What is kept of a journey besides its last counts: its lines so far, the sum of the last 1,000 of them, the largest sum of a
// stretch, and the number of the first line of the earliest stretch that has it.
#[derive(Clone, Copy)]
pub struct Tally {
    pub lines: u32,
    pub sum: u32,
    pub largest: u32,
    pub first: u32,
}

pub const STRETCH: u32 = 1000;

// The sum with a count more, and without the oldest.
#[tactic(auto, unfolding(crate::specs::Rolling::sum_after))]
fn sum_after(sum: u32, oldest: u8, c: u8) -> u32
    ensures { result ≡ sum_after sum oldest c }
{
    sum.wrapping_add(c.into()).wrapping_sub(oldest.into())
}

impl Tally {
    // With each line from the thousandth on a stretch ends. It is the worst so far if its sum is above the largest.
    #[tactic(auto, using(crate::proofs::StepLaws::larger, crate::proofs::StepLaws::not_larger, crate::proofs::StepLaws::none_ended))]
    fn judge(&mut self, lines: u32, sum: u32)
        ensures { self.new ≡ judged self.old lines sum }
    {
        self.lines = lines;
        self.sum = sum;
        if STRETCH <= lines {
            if self.largest < sum {
                self.largest = sum;
                self.first = lines - STRETCH + 1;
            }
        }
    }
}

// The last 1,000 counts, that of line n at place (n − 1) modulo 1,000; what else is kept of the journey.
#[derive(Drop)]
pub struct Kept {
    pub last: [u8; 1000],
    pub tally: Tally,
}

impl Kept {
    // Before the first line. The stretch from line 1 on stands until one has a larger sum.
    pub fn new() -> Self
        ensures { result ≡ begun }
    {
        Kept {
            last: [0; 1000],
            tally: Tally {
                lines: 0,
                sum: 0,
                largest: 0,
                first: 1,
            },
        }
    }

    // A line more, with count `c`: it takes the place of the oldest of the last counts.
    #[tactic(auto, using(crate::proofs::StepLaws::after_is))]
    pub fn count(&mut self, c: u8)
        ensures { self.new ≡ after self.old c }
    {
        let at = (self.tally.lines % STRETCH) as usize;
        let oldest = self.last[at];
        self.last[at] = c;
        let lines = self.tally.lines.wrapping_add(1);
        let sum = sum_after(self.tally.sum, oldest, c);
        self.tally.judge(lines, sum);
    }
}
