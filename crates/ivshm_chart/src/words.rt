//! The words of the program.
ghost use Rattle.std.specs.Prelude.{◌≡◌, ◌≤◌, map, IfSome};
ghost use Rattle.std.specs.String.{string_bytes};
ghost use Rattle.ivshm_chart.specs.Forms.{span_of, all, picture_of, text_of, form_of};

use line_format::number;

/// The lines of the history that are drawn: from `first` to `last`, counted from 1.
#[derive(Clone, Copy, Debug, PartialEq, Eq)]
pub struct Span {
    pub first: u64,
    pub last: u64,
}

/// The form in which the picture is written.
#[derive(Clone, Copy, Debug, PartialEq, Eq)]
pub enum Kind {
    /// As an SVG file.
    Svg,
    /// As a text for a terminal.
    Text,
}

/// The meaning of the words: a picture of these lines.
#[derive(Clone, Copy, Debug, PartialEq, Eq)]
pub struct Form {
    pub kind: Kind,
    pub span: Span,
}

/// Returns all lines.
fn all() -> Span
    ensures { result ≡ all }
{
    Span {
        first: 1,
        last: u64::MAX,
    }
}

/// Returns the lines from one number to another, if they are a span.
fn span_of(first: Option<u64>, last: Option<u64>) -> Option<Span>
    ensures span { result ≡ span_of first last }
    ensures some { IfSome result (λ span. 1 ≤ span.first) }
{
    match (first, last) {
        (Some(first), Some(last)) if 1 <= first && first <= last => Some(Span { first, last }),
        _ => None,
    }
}

/// Returns a picture of this kind of the lines, if they are a span.
fn picture_of(kind: Kind, span: Option<Span>) -> Option<Form>
    requires { IfSome span (λ span. 1 ≤ span.first) }
    ensures form { result ≡ picture_of kind span }
    ensures some { IfSome result (λ form. 1 ≤ form.span.first) }
{
    match span {
        Some(span) => Some(Form { kind, span }),
        None => None,
    }
}

/// Returns a text of the lines, if the word is `--text` and they are a span.
fn text_of(word: &str, span: Option<Span>) -> Option<Form>
    requires { IfSome span (λ span. 1 ≤ span.first) }
    ensures form { result ≡ text_of word.now span }
    ensures some { IfSome result (λ form. 1 ≤ form.span.first) }
{
    match word {
        "--text" => picture_of(Kind::Text, span),
        _ => None,
    }
}

/// Returns the meaning of the words: all lines, or those from FROM to TO, and a text if `--text` is
/// the first word.
pub fn read_form(words: &[String]) -> Option<Form>
    ensures form { result ≡ form_of (map string_bytes words.now) }
    ensures some { IfSome result (λ form. 1 ≤ form.span.first) }
{
    match words {
        [] => picture_of(Kind::Svg, Some(all())),
        [word] => text_of(word.as_str(), Some(all())),
        [first, last] => picture_of(
            Kind::Svg,
            span_of(number(first.as_bytes()), number(last.as_bytes())),
        ),
        [word, first, last] => text_of(
            word.as_str(),
            span_of(number(first.as_bytes()), number(last.as_bytes())),
        ),
        _ => None,
    }
}
