// The write spans; a write covers one of them or a part of it. `Outside` is none of them.
ghost use Rattle.std.specs.Prelude.{◌≡◌, ◌≢◌, ◌+◌, ◌≤◌};
ghost use Rattle.rules.specs.Writes.{span_at, span_end, span_of};

use rules::Span;

// The span in which a register lies.
#[tactic(auto, unfolding(rules::specs::Writes::span_at))]
fn span_at(add: u8) -> Span
    ensures { result ≡ span_at add }
{
    match add {
        0x17 => Span::Release,
        0x18 => Span::CycleTime,
        0x1A..=0x1D => Span::Limits,
        0x1E..=0x24 => Span::Counters,
        0x25 => Span::Config,
        0x80..=0xBF => Span::Outputs,
        _ => Span::Outside,
    }
}

// The register after the span's last.
fn span_end(span: Span) -> usize
    ensures end { result ≡ span_end span }
    ensures room { result ≤ 256 }
{
    match span {
        Span::Release => 0x18,
        Span::CycleTime => 0x19,
        Span::Limits => 0x1E,
        Span::Counters => 0x25,
        Span::Config => 0x26,
        Span::Outputs => 0xC0,
        Span::Outside => 0x00,
    }
}

// At least one byte, wholly in one span.
#[tactic(auto, unfolding(rules::specs::Writes::span_of))]
pub fn span_of(add: u8, n: usize) -> Span
    ensures span { result ≡ span_of add n }
    ensures inside { result ≢ Span.Outside → add + n ≤ 256 }
{
    let span = span_at(add);
    if 1 <= n && n <= span_end(span).saturating_sub(usize::from(add)) {
        span
    } else {
        Span::Outside
    }
}
