//! How far the bodies of here-documents go (XCU 2.7.4).
ghost use Rattle.std.specs.Prelude.{◌≡◌, ◌↔◌, ◌+◌, ℕ, Bool, List, Option, Some, IfSome, ◌<◌, ◌≤◌, ◌&&◌, not, suc, drop, length, position, nat_eq};
ghost use Rattle.sh_token_pieces.specs.declared.here.Delimiter.{Delimiter as Awaited};
ghost use Rattle.sh_token_pieces.specs.Here.{is_end_line};
ghost use Rattle.sh_parse_documents.specs.Bodies.{AreBodies, bodies_size};

use sh_token_pieces::here::Delimiter;

/// How many bytes of the text the bodies of these here-documents take, in order. Each goes up to and with the
/// first line that is its delimiter alone and that isn't joined to the line before (XCU 2.7.4). `at_end`: the
/// end of the text is the end of the input, which also ends an end line without a newline, or a body without
/// an end line. `None` where the text ends within a body and the input goes on. The time is linear in the
/// bytes of the bodies. It takes no memory.
pub fn bodies_size(text: &[u8], due: &[Delimiter], at_end: bool) -> Option<usize>
    ensures size { result ≡ bodies_size at_end due.now text.now }
    ensures inside { IfSome result (λ size. size ≤ length text.now) }
{
    let mut due = due;
    let mut joined = false;
    let mut rest = text;
    while let Some((delimiter, others)) = due.split_first() {
        let Some(place) = first_newline(rest) else {
            return if at_end { Some(text.len()) } else { None };
        };
        let line = &rest[..place];
        let after = behind(rest, place);
        if ends_body(delimiter, joined, line) {
            due = others;
            joined = false;
            rest = after;
            continue;
        }
        joined = delimiter.joins_next(line);
        rest = after;
    }
    Some(text.len() - rest.len())
}

/// Whether the line ends the body; `joined`: the line before is joined with it.
fn ends_body(delimiter: &Delimiter, joined: bool, line: &[u8]) -> bool
    ensures { result ≡ (not joined && is_end_line delimiter.now line.now) }
{
    !joined && delimiter.is_end_line(line)
}

/// The bytes after the one at a place.
fn behind(bytes: &[u8], place: usize) -> &[u8]
    ensures { result.now ≡ drop (suc place) bytes.now }
{
    if place < bytes.len() {
        &bytes[place + 1..]
    } else {
        &[]
    }
}

/// The place of the first newline.
fn first_newline(bytes: &[u8]) -> Option<usize>
    ensures place { result ≡ position (λ b. nat_eq b 10) bytes.now }
    ensures inside { IfSome result (λ place. place < length bytes.now) }
{
    bytes.iter().position(|b| *b == b'\n')
}

/// Law: `bodies_size` gives a number exactly where the bodies are that many bytes. So no other number is
/// right, and where it gives none, no number is.
pub fn bodies_are_the_defined_ones()
    ensures { (e : Bool) (due : List Awaited) (bytes : List ℕ) (n : ℕ)
        → (bodies_size e due bytes ≡ Some n) ↔ AreBodies e due bytes n }
{}
