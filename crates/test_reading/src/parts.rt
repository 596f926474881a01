//! What a `${..}` asks for, what stands in backquotes, and the parts that pieces make.
//!
//! `braces WANTED HEAD`: what is asked for by a `${`, this head, and a `}`; `braces-word WANTED HEAD` where something stands before the
//! `}`. A parameter is its name, `one`, `twelve` or `many` for its number, or its sign; or `bad`.
//!
//! `unescaped WANTED TEXT`, `unescaped-quoted WANTED TEXT`: the commands of what stands in backquotes, outside of double quotes or in them.
//!
//! `parts WANTED LEVELS PIECES PLACES`: what pieces come to, taken one after another where so many levels may open; two PLACES for each
//! piece, where it stands and what comes behind. A literal part is its text, a part in double quotes `"` and how many parts stand there;
//! `?` is another one; `open` where a form is still open. Where commands are asked for it is their form, its place, from where to where
//! its text stands and how many levels may open in it, and behind a fault `bad PLACE`, `deep PLACE` or `refused PLACE`.
//!
//! `form WANTED LEVELS PIECES PLACES`: the form alone that is asked for.
//!
//! PIECES stand between blanks, each a sign and its bytes as in the module `pieces`.
use sh_base::NoMemory;
use sh_base::sequence::Text;
use sh_parse_words::backquotes::unescaped;
use sh_parse_words::build::{Builder, Request, Substitution};
use sh_parse_words::fault::PartFault;
use sh_parse_words::parameter::Braces;
use sh_syntax::tree::{
    Absence, Affix, ConditionalAction, Extent, Parameter, Part, Parts, SpecialParameter,
};
use sh_token_pieces::piece::Piece;
use std::alloc::{AllocError, Global};
use test_rows::fields::{Found, number, pieces};
use test_rows::show::{put_number, put_place, put_word, word_of};
use test_rows::{Row, by_kind};

/// The sign of a special parameter.
fn special(parameter: SpecialParameter) -> u8 {
    match parameter {
        SpecialParameter::At => b'@',
        SpecialParameter::Asterisk => b'*',
        SpecialParameter::Count => b'#',
        SpecialParameter::Status => b'?',
        SpecialParameter::Options => b'-',
        SpecialParameter::Process => b'$',
        SpecialParameter::Background => b'!',
        SpecialParameter::Zero => b'0',
    }
}

/// Writes a parameter.
fn put_parameter(shown: &mut Vec<u8>, parameter: &Parameter) -> Result<(), AllocError> {
    match parameter {
        Parameter::Variable(name) => put_word(shown, name.as_slice()),
        Parameter::Positional(12) => put_word(shown, b"twelve"),
        Parameter::Positional(1) => put_word(shown, b"one"),
        Parameter::Positional(_) => put_word(shown, b"many"),
        Parameter::Special(parameter) => put_word(shown, &[special(*parameter)]),
    }
}

/// The word for an action.
fn action_word(action: ConditionalAction) -> &'static [u8] {
    match action {
        ConditionalAction::Default => b"default",
        ConditionalAction::Assign => b"assign",
        ConditionalAction::Error => b"error",
        ConditionalAction::Alternative => b"alternative",
    }
}

/// The words for what is taken off.
fn removal_words(affix: Affix, extent: Extent) -> &'static [u8] {
    match (affix, extent) {
        (Affix::Prefix, Extent::Smallest) => b"front",
        (Affix::Prefix, Extent::Largest) => b"front largest",
        (Affix::Suffix, Extent::Smallest) => b"back",
        (Affix::Suffix, Extent::Largest) => b"back largest",
    }
}

/// Writes what is asked for.
fn put_braces(shown: &mut Vec<u8>, braces: &Braces) -> Result<(), AllocError> {
    match braces {
        Braces::Value(parameter) => put_parameter(shown, parameter),
        Braces::Length(parameter) => {
            put_word(shown, b"length")?;
            put_parameter(shown, parameter)
        },
        Braces::Conditional {
            parameter,
            absence,
            action,
        } => {
            put_parameter(shown, parameter)?;
            put_word(shown, action_word(*action))?;
            if *absence == Absence::UnsetOrNull {
                put_word(shown, b"or null")?;
            }
            Ok(())
        },
        Braces::Removal {
            parameter,
            affix,
            extent,
        } => {
            put_parameter(shown, parameter)?;
            put_word(shown, removal_words(*affix, *extent))
        },
    }
}

/// `braces` and `braces-word`.
fn braces_of(alloc: Global, head: &[u8], is_empty: bool) -> Result<Vec<u8>, NoMemory> {
    let Some(braces) = Braces::of_head(alloc, head, is_empty)? else {
        return word_of(alloc, b"bad");
    };
    let mut shown = Vec::new(alloc);
    let put = put_braces(&mut shown, &braces);
    drop(braces);
    put?;
    Ok(shown)
}

/// `unescaped` and `unescaped-quoted`.
fn unescaped_of(alloc: Global, text: &[u8], is_quoted: bool) -> Result<Vec<u8>, NoMemory> {
    let commands = unescaped(alloc, is_quoted, text)?;
    Ok(commands)
}

/// Bytes as a text.
fn text(alloc: Global, bytes: &[u8]) -> Result<Text, AllocError> {
    Ok(Text::from_vec(bytes.to_vec(alloc)?))
}

/// The piece that is so written; a `$` for itself where none is.
fn piece_of(alloc: Global, written: &[u8]) -> Result<Piece, AllocError> {
    match written {
        b"\"(" => Ok(Piece::DoubleQuotesOpen),
        b"\")" => Ok(Piece::DoubleQuotesClose),
        b"((" => Ok(Piece::ArithmeticOpen),
        b"(" => Ok(Piece::CommandsOpen),
        b")" => Ok(Piece::CommandsClose),
        [b'.', byte] => Ok(Piece::Byte(*byte)),
        [b'/', byte] => Ok(Piece::Backslash(*byte)),
        [b'$', name @ ..] => Ok(Piece::Variable(text(alloc, name)?)),
        [b'{', head @ ..] => Ok(Piece::BraceOpen(text(alloc, head)?)),
        [b'`', inside @ ..] => Ok(Piece::Backquoted(text(alloc, inside)?)),
        _ => Ok(Piece::Dollar),
    }
}

/// What comes of pieces before they are put together: nothing, or commands that are asked for, or a fault.
#[derive(Clone, Copy)]
enum Taken {
    All,
    Asked(Request),
    Failed(PartFault),
}

/// Hands a builder a piece.
fn take_piece(
    alloc: Global,
    builder: &mut Builder,
    written: &[u8],
    places: [usize; 2],
) -> Result<Taken, AllocError> {
    let piece = piece_of(alloc, written)?;
    let [place, behind] = places;
    let taken = builder.take(&piece, false, place, behind);
    drop(piece);
    match taken {
        Ok(None) => Ok(Taken::All),
        Ok(Some(request)) => Ok(Taken::Asked(request)),
        Err(fault) => Ok(Taken::Failed(fault)),
    }
}

/// Hands a builder pieces, up to the first that comes to something.
fn take_pieces(alloc: Global, builder: &mut Builder, row: &Row) -> Result<Taken, AllocError> {
    let written = pieces(alloc, row.field(3))?;
    let places = pieces(alloc, row.field(4))?;
    let mut pairs = places.as_slice().chunks_exact(2);
    for piece in written.as_slice() {
        let mut pair = [0usize, 0];
        if let Some([place, behind]) = pairs.next() {
            pair = [number(place), number(behind)];
        }
        match take_piece(alloc, builder, piece, pair)? {
            Taken::All => {},
            taken => return Ok(taken),
        }
    }
    Ok(Taken::All)
}

/// The words for a form.
fn form_words(form: Substitution) -> &'static [u8] {
    match form {
        Substitution::Commands => b"commands",
        Substitution::Backquotes => b"backquotes",
        Substitution::QuotedBackquotes => b"quoted backquotes",
    }
}

/// Writes what is asked for, or its form alone.
fn put_request(shown: &mut Vec<u8>, request: Request, is_whole: bool) -> Result<(), AllocError> {
    put_word(shown, form_words(request.form))?;
    if !is_whole {
        return Ok(());
    }
    for place in [request.place, request.start, request.end, request.left] {
        put_place(shown, place)?;
    }
    Ok(())
}

/// Writes a fault.
fn put_fault(shown: &mut Vec<u8>, fault: PartFault) -> Result<(), AllocError> {
    let (word, at) = match fault {
        PartFault::BadSubstitution { at } => (b"bad".as_slice(), at),
        PartFault::TooDeep { at } => (b"deep".as_slice(), at),
        PartFault::Refused { at } => (b"refused".as_slice(), at),
        PartFault::NoMemory(lack) => return Err(AllocError::from(lack)),
    };
    put_word(shown, word)?;
    put_place(shown, at)
}

/// Writes parts.
fn put_parts(shown: &mut Vec<u8>, parts: &[Part]) -> Result<(), AllocError> {
    for part in parts {
        match part {
            Part::Literal(text) => put_word(shown, text.as_slice())?,
            Part::DoubleQuoted(inside) => {
                put_word(shown, b"\"")?;
                put_number(shown, inside.get().items.len())?;
            },
            _ => put_word(shown, b"?")?,
        }
    }
    Ok(())
}

/// Writes the parts that are put together.
fn put_finished(shown: &mut Vec<u8>, parts: Option<Parts>) -> Result<(), AllocError> {
    let Some(parts) = parts else {
        return put_word(shown, b"open");
    };
    let put = put_parts(shown, parts.items.as_slice());
    drop(parts);
    put
}

/// `parts` and `form`.
fn parts_of(alloc: Global, row: &Row, is_whole: bool) -> Result<Vec<u8>, NoMemory> {
    let mut builder = Builder::new(alloc, number(row.field(2)));
    let taken = take_pieces(alloc, &mut builder, row);
    let parts = builder.finish()?;
    let mut shown = Vec::new(alloc);
    match taken {
        Ok(Taken::All) => put_finished(&mut shown, parts)?,
        Ok(Taken::Asked(request)) => {
            drop(parts);
            put_request(&mut shown, request, is_whole)?;
        },
        Ok(Taken::Failed(fault)) => {
            drop(parts);
            put_fault(&mut shown, fault)?;
        },
        Err(error) => {
            drop(parts);
            return Err(NoMemory::from(error));
        },
    }
    Ok(shown)
}

/// What a row comes to; none where its kind is none of these.
pub(crate) fn found(alloc: Global, row: &Row) -> Found {
    let text = row.field(2);
    by_kind! { row;
        "braces", 2 => braces_of(alloc, text, true);
        "braces-word", 2 => braces_of(alloc, text, false);
        "unescaped", 2 => unescaped_of(alloc, text, false);
        "unescaped-quoted", 2 => unescaped_of(alloc, text, true);
        "parts", 4 => parts_of(alloc, row, true);
        "form", 4 => parts_of(alloc, row, false);
    }
}
