// The page of the grammar, which saturn-frame prints for an empty list: a line for each kind, with x for each digit.
#![tactic(auto)]

ghost use Rattle.std.specs.Prelude.{◌≡◌, take};
ghost use Rattle.frame_words.specs.Chars.{chars};
ghost use Rattle.frame_words.specs.Table.{fields_in};
ghost use Rattle.frame_words.specs.Texts.{put, puts, end_line};
ghost use Rattle.frame_grammar.specs.Grammar.{form_fields, form_text, form_lines, other_lines, grammar_text};

use frame_words::table::{Field, Kind, kinds};
use frame_words::texts::Text;

const PLACES: &[u8] = b"xxxxxxxxxxxxxxxx";

// Adds `digits` letters x, at most 16.
fn add_places(page: &mut Text, digits: u8)
    ensures { page.new ≡ put page.old (take digits (chars "xxxxxxxxxxxxxxxx")) }
{
    let n = usize::from(digits).min(PLACES.len());
    page.add(&PLACES[..n]);
}

// Adds fields, each with a space before it.
#[tactic(auto, using(crate::proofs::GrammarLaws::fields_turn, crate::proofs::GrammarLaws::fields_end))]
fn add_fields(page: &mut Text, fields: &[Field])
    ensures { page.new ≡ form_fields (fields_in fields.now) page.old }
{
    for &(name, digits) in fields {
        page.add(b" ");
        page.add(name);
        add_places(page, digits);
    }
}

// Adds the form of a kind, with its LF.
#[tactic(auto, using(crate::proofs::GrammarLaws::form_data, crate::proofs::GrammarLaws::form_plain))]
fn add_line(page: &mut Text, kind: Kind)
    ensures { page.new ≡ end_line (form_text page.old kind) }
{
    page.add(kind.word());
    add_fields(page, kind.fields());
    if kind.has_data() {
        page.add(b" data=xx...");
    }
    page.end_line();
}

// The lines of all kinds.
#[tactic(auto, using(crate::proofs::GrammarLaws::lines_turn, crate::proofs::GrammarLaws::lines_end))]
fn add_lines(page: &mut Text, all: &[Kind])
    ensures { page.new ≡ form_lines all.now page.old }
{
    for &kind in all {
        add_line(page, kind);
    }
}

// A body; a port before a frame or a body; and the lines that are passed on or left out.
fn add_other_lines(page: &mut Text)
    ensures { page.new ≡ puts page.old other_lines }
{
    page.add(b"body xx...\n");
    page.add(b"P FRAME: a port digit, a space and any line above\n");
    page.add(b"P xx..., T ..., I ...: printed unchanged\n");
    page.add(b"# ...: nothing is printed\n");
}

// The whole page.
#[tactic(auto, unfolding(crate::specs::Grammar::grammar_text))]
pub fn grammar_text() -> Text
    ensures { result ≡ grammar_text }
{
    let mut page = Text::new();
    add_lines(&mut page, kinds());
    add_other_lines(&mut page);
    page
}
