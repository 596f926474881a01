//! One body at a time.
ghost use Rattle.std.specs.Prelude.{◌≡◌, ◌+◌, ◌^◌, ◌<◌, ◌≤◌, ◌++◌, ◌&&◌, not, false, length, IfOk, OnOk};
ghost use Rattle.sh_token_pieces.specs.Here.{is_end_line};
ghost use Rattle.sh_parse_documents.specs.Documents.{body_line, kept_places, places_from, cut_of};
ghost use Rattle.sh_parse_documents.specs.Cutting.{lines_before};

use crate::line::{behind_place, first_newline, kept, prefix, up_to};
use sh_token_pieces::here::Delimiter;
use std::alloc::{AllocError, Global};

/// A body: its bytes, the place of each byte, the place at which it ends, and the bytes after its end line.
#[derive(Drop)]
pub(crate) struct Cut<'t> {
    pub(crate) text: Vec<u8>,
    pub(crate) places: Vec<usize>,
    pub(crate) end: usize,
    pub(crate) rest: &'t [u8],
}

/// Cuts the body of a here-document from bytes that end at the place `stop`.
pub(crate) fn cut_body<'t>(
    alloc: Global,
    delimiter: &Delimiter,
    bytes: &'t [u8],
    stop: usize,
) -> Result<Cut<'t>, AllocError>
    requires { length bytes.now ≤ stop }
    ensures cut { IfOk result (λ found.
        record {
          text = found.text.items;
          places = found.places.items;
          «end» = found.«end»;
          rest
              = lines_before stop found.rest.now;
        } ≡ cut_of stop delimiter.now false
        (lines_before stop bytes.now)) }
    ensures inside { IfOk result (λ found. length found.rest.now ≤ stop) }
{
    let mut text = Vec::new(alloc);
    let mut places = Vec::new(alloc);
    let mut joined = false;
    let mut rest = bytes;
    while let Some(place) = first_newline(rest) {
        let line = prefix(rest, place);
        let start = stop - rest.len();
        let after = behind_place(rest, place);
        if ends_body(delimiter, joined, line) {
            return Ok(Cut {
                text,
                places,
                end: start,
                rest: after,
            });
        }
        push_line(
            &mut text,
            &mut places,
            delimiter,
            joined,
            up_to(rest, place),
            start,
        )?;
        joined = delimiter.joins_next(line);
        rest = after;
    }
    if ends_body(delimiter, joined, rest) {
        return Ok(Cut {
            text,
            places,
            end: stop - rest.len(),
            rest: &[],
        });
    }
    push_line(
        &mut text,
        &mut places,
        delimiter,
        joined,
        rest,
        stop - rest.len(),
    )?;
    Ok(Cut {
        text,
        places,
        end: stop,
        rest: &[],
    })
}

/// Whether the line ends the body; `joined`: the line before is joined with it.
fn ends_body(delimiter: &Delimiter, joined: bool, line: &[u8]) -> bool
    ensures { result ≡ (not joined && is_end_line delimiter.now line.now) }
{
    !joined && delimiter.is_end_line(line)
}

/// Appends to a body what it takes of a line; `start` is the line's place.
fn push_line(
    text: &mut Vec<u8>,
    places: &mut Vec<usize>,
    delimiter: &Delimiter,
    joined: bool,
    line: &[u8],
    start: usize,
) -> Result<(), AllocError>
    requires { start + length line.now < 2 ^ 64 }
    ensures text { OnOk result
        (text.new.items ≡ text.old.items ++ body_line delimiter.now joined line.now) }
    ensures places { OnOk result
        (places.new.items ≡ places.old.items ++ kept_places delimiter.now joined start line.now) }
{
    let bytes = kept(delimiter, joined, line);
    text.extend_from_slice(bytes)?;
    push_places(places, start + (line.len() - bytes.len()), bytes.len())
}

/// Appends `count` places, one after another, from `start` on.
#[tactic(auto, using(crate::proofs::Places::first_place, crate::proofs::Places::no_place))]
fn push_places(places: &mut Vec<usize>, start: usize, count: usize) -> Result<(), AllocError>
    requires { start + count < 2 ^ 64 }
    ensures { OnOk result (places.new.items ≡ places.old.items ++ places_from start count) }
{
    for place in start..start + count {
        places.push(place)?;
    }
    Ok(())
}
