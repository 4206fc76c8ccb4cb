// What is printed for a script: one line.
ghost use Rattle.std.specs.Prelude.{◌≡◌, ◌+◌, ◌≤◌, ◌++◌, length};
ghost use Rattle.which.specs.Printing.{number_text, which_text};

use console::pages::Page;
use removals::NoSearch;

// The number of a line.
#[tactic(auto, using(text::proofs::DecimalLaws::decimal_length), unfolding(crate::specs::Printing::number_text))]
fn put_number(page: &mut Page, number: u64)
    requires { length page.old + 32 ≤ 16384 }
    ensures { page.new ≡ page.old ++ number_text number }
{
    page.put_decimal(number);
    page.put(b"\n");
}

// Puts what is printed.
pub fn put_which(page: &mut Page, which: Result<Option<u64>, NoSearch>)
    requires { length page.old + 32 ≤ 16384 }
    ensures { page.new ≡ page.old ++ which_text which }
{
    match which {
        Ok(Some(n)) => put_number(page, n),
        Ok(None) => page.put(b"NONE\n"),
        Err(NoSearch::Long) => page.put(b"LONG\n"),
        Err(NoSearch::Fallback) => page.put(b"FALLBACK\n"),
    }
}
