// What is printed for a journey: one line.
ghost use Rattle.std.specs.Prelude.{◌≡◌, ◌+◌, ◌≤◌, ◌++◌, length};
ghost use Rattle.stretches.specs.Rolling.{worst_so_far};
ghost use Rattle.worst.specs.Journeys.{sum_text};
ghost use Rattle.worst.specs.Reading.{result_text};
ghost use Rattle.worst.specs.declared.reading.Work.TheVariants.{Counting};

use crate::reading::{Journey, Work};
use console::pages::Page;
use stretches::{STRETCH, Tally};
use text::bad_lines::put_bad;

// The largest sum, and the first line of the earliest stretch that has it.
#[tactic(auto, using(text::proofs::DecimalLaws::decimal_length), unfolding(crate::specs::Journeys::sum_text))]
fn put_sum(page: &mut Page, p: Tally)
    requires { length page.old + 64 ≤ 16384 }
    ensures { page.new ≡ page.old ++ sum_text (worst_so_far p) }
{
    page.put_decimal(p.largest.into());
    page.put(b" ");
    page.put_decimal(p.first.into());
    page.put(b"\n");
}

// What is printed if all lines were counts: SHORT, or the two numbers.
#[tactic(auto, using(crate::proofs::ResultLaws::short_is, crate::proofs::ResultLaws::counts_is))]
fn put_counts(page: &mut Page, p: Tally)
    requires { length page.old + 64 ≤ 16384 }
    ensures { page.new ≡ page.old ++ result_text Counting p }
{
    if p.lines < STRETCH {
        page.put(b"SHORT\n");
        return;
    }
    put_sum(page, p);
}

// Puts what is printed.
#[tactic(auto, using(crate::proofs::ResultLaws::bad_put), unfolding(crate::specs::Reading::result_text))]
pub fn put_result(page: &mut Page, j: &Journey)
    requires { length page.old + 64 ≤ 16384 }
    ensures { page.new ≡ page.old ++ result_text j.now.work j.now.kept.tally }
{
    match j.work {
        Work::Counting => put_counts(page, j.kept.tally),
        Work::Long => page.put(b"LONG\n"),
        Work::Bad => put_bad(page, u64::from(j.kept.tally.lines) + 1),
    }
}
