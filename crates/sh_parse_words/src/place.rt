//! Where pieces are in their text.
ghost use Rattle.std.specs.Prelude.{◌≡◌, drop};
ghost use Rattle.sh_token_pieces.specs.Spelling.{spell_piece};
ghost use Rattle.sh_parse_words.specs.Places.{behind_joins, behind_plain, behind_piece};

use sh_token_pieces::piece::Piece;

/// The text after the joined lines at its beginning (XCU 2.2.1).
pub fn behind_joins(bytes: &[u8]) -> &[u8]
    ensures { result.now ≡ behind_joins bytes.now }
{
    let mut rest = bytes;
    while let Some((first, after)) = rest.split_first() {
        let Some((second, behind)) = after.split_first() else {
            return rest;
        };
        if *first != b'\\' || *second != b'\n' {
            return rest;
        }
        rest = behind;
    }
    rest
}

/// The text after its first `count` bytes.
fn behind(bytes: &[u8], count: usize) -> &[u8]
    ensures { result.now ≡ drop count bytes.now }
{
    if count <= bytes.len() {
        &bytes[count..]
    } else {
        &[]
    }
}

/// The text after its first `count` bytes, each with the joined lines before it.
fn behind_plain(bytes: &[u8], count: usize) -> &[u8]
    ensures { result.now ≡ behind_plain count bytes.now }
{
    let mut rest = bytes;
    let mut left = count;
    while left > 0 {
        left -= 1;
        rest = behind(behind_joins(rest), 1);
    }
    rest
}

/// The text after a piece with which it begins.
#[tactic(auto, unfolding(crate::specs::Places::behind_piece), using(crate::proofs::Places::plain_is, crate::proofs::Places::raw_is, crate::proofs::Places::raw_closed))]
pub fn behind_piece<'t>(piece: &Piece, bytes: &'t [u8]) -> &'t [u8]
    ensures { result.now ≡ behind_piece piece.now bytes.now }
{
    match piece {
        Piece::WordOpen | Piece::WordClose(_) => bytes,
        Piece::Escaped(_) | Piece::Backslash(_) => behind(behind_joins(bytes), 2),
        Piece::SingleQuoted(text) | Piece::Backquoted(text) => {
            behind(behind(behind_plain(bytes, 1), text.len()), 1)
        },
        Piece::Comment(text) | Piece::Bodies(text) => behind(behind_plain(bytes, 1), text.len()),
        Piece::Variable(name) => behind_plain(behind_plain(bytes, 1), name.len()),
        Piece::BraceOpen(head) => behind_plain(behind_plain(bytes, 2), head.len()),
        Piece::ArithmeticOpen => behind_plain(bytes, 3),
        Piece::Parameter(_) | Piece::ArithmeticClose | Piece::CommandsOpen => behind_plain(
            bytes, 2,
        ),
        Piece::Operator(operator) => behind_plain(bytes, operator.text().len()),
        Piece::Byte(_)
        | Piece::DoubleQuotesOpen
        | Piece::DoubleQuotesClose
        | Piece::Dollar
        | Piece::BraceClose
        | Piece::CommandsClose
        | Piece::Blank(_) => behind_plain(bytes, 1),
    }
}
