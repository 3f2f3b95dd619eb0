//! The lines of one name in a head.
ghost use Rattle.std.specs.Prelude.{◌≡◌, ◌≤◌, ℕ, List, not, length, map, All, IfSome, option_map};
ghost use Rattle.httparse.specs.Spans.{IsHeaderWithin, IsWithin, header_bytes, span_bytes};
ghost use Rattle.exam_request.specs.Head as spec;

use httparse::spans::{HeaderSpan, Span};

/// Where the values of the lines of one name lie.
#[derive(Clone, Copy)]
pub enum Lines {
    Absent,
    One(Span),
    Many,
}

impl Lines {
    pub fn are_absent(self) -> bool
        ensures { (head : List ℕ) → spec.has_line (spec.shown head self) ≡ not result }
    {
        matches!(self, Lines::Absent)
    }

    /// The place of the one value.
    pub fn only(self) -> Option<Span>
        ensures { result ≡ spec.only_place self }
    {
        match self {
            Lines::One(place) => Some(place),
            _ => None,
        }
    }
}

/// The lines of a name among a head's lines. Names are compared without regard to ASCII case (RFC 9110, section 5.1).
pub fn lines_of(head: &[u8], headers: &[HeaderSpan], name: &[u8]) -> Lines
    requires { All (IsHeaderWithin (length head.now)) headers.now }
    ensures found { spec.shown head.now result
        ≡ spec.found_in (spec.values_of name.now (map (header_bytes head.now) headers.now)) }
    ensures within { IfSome (spec.only_place result) (IsWithin (length head.now)) }
{
    let mut seen = Lines::Absent;
    for header in headers {
        if is_same_name(header.name.of(head), name) {
            seen = match seen {
                Lines::Absent => Lines::One(header.value),
                _ => Lines::Many,
            };
        }
    }
    seen
}

fn is_same_name(a: &[u8], b: &[u8]) -> bool
    ensures { result ≡ spec.same_name a.now b.now }
{
    a.eq_ignore_ascii_case(b)
}
