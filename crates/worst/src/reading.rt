// A journey, line by line: the counts so far, and whether a line has ended the work.
ghost use Rattle.std.specs.Prelude.{◌≡◌};
ghost use Rattle.worst.specs.Journeys.{count_of};
ghost use Rattle.worst.specs.Reading.{started, with_line, read_line, is_counting};
ghost use Rattle.worst.specs.declared.reading.Work.TheVariants.{Counting};

use crate::counts::count_of;
use stretches::Kept;

// Whether lines are still counted, or one past the millionth or of another form has ended the work. It is neither an Option nor a
// Result: three states, none with a value.
#[derive(Clone, Copy)]
pub enum Work {
    Counting,
    Long,
    Bad,
}

// What is kept of the lines before one that ends the work, and whether lines are still counted.
#[derive(Drop)]
pub struct Journey {
    pub kept: Kept,
    pub work: Work,
}

// A line past the millionth is not looked at.
pub const MOST_LINES: u32 = 1000000;

impl Journey {
    // Before the first line.
    pub fn new() -> Self
        ensures { result ≡ started }
    {
        Journey {
            kept: Kept::new(),
            work: Work::Counting,
        }
    }

    pub fn is_counting(&self) -> bool
        ensures { result ≡ is_counting self.now.work }
    {
        matches!(self.work, Work::Counting)
    }

    // A line up to the millionth.
    fn with_line(&mut self, line: Option<u8>)
        requires { self.old.work ≡ Counting }
        ensures { self.new ≡ with_line self.old.kept line }
    {
        match line {
            Some(c) => self.kept.count(c),
            None => self.work = Work::Bad,
        }
    }

    // Reads a line. Once the work has ended, nothing changes.
    #[tactic(auto, using(crate::proofs::ReadingLaws::is_counting_lem, crate::proofs::ReadingLaws::read_ended, crate::proofs::ReadingLaws::read_past, crate::proofs::ReadingLaws::read_line_lem))]
    pub fn read_line(&mut self, line: &[u8])
        ensures { self.new ≡ read_line self.old (count_of line.now) }
    {
        if !self.is_counting() {
            return;
        }
        if MOST_LINES <= self.kept.tally.lines {
            self.work = Work::Long;
            return;
        }
        self.with_line(count_of(line));
    }
}
