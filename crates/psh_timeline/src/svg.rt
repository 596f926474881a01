//! The elements of a picture (SVG 1.1).
use crate::names::put_number;
use sh_base::NoMemory;

/// Where something stands in a picture, in its units, from the left and from above.
#[derive(Clone, Copy)]
pub struct Point {
    pub x: u64,
    pub y: u64,
}

impl Point {
    /// So much to the right of it, and so much below.
    pub fn off(self, right: u64, below: u64) -> Point {
        Point {
            x: self.x.saturating_add(right),
            y: self.y.saturating_add(below),
        }
    }
}

/// Adds an attribute with a number.
fn put_attribute(out: &mut Vec<u8>, name: &str, number: u64) -> Result<(), NoMemory> {
    out.push(b' ')?;
    out.extend_from_slice(name.as_bytes())?;
    out.extend_from_slice(b"=\"")?;
    put_number(out, number)?;
    out.push(b'"')?;
    Ok(())
}

/// Adds text, in which the characters that stand for something in XML are replaced.
fn put_characters(out: &mut Vec<u8>, text: &[u8]) -> Result<(), NoMemory> {
    for byte in text {
        match *byte {
            b'&' => out.extend_from_slice(b"&amp;")?,
            b'<' => out.extend_from_slice(b"&lt;")?,
            b'>' => out.extend_from_slice(b"&gt;")?,
            b'"' => out.extend_from_slice(b"&quot;")?,
            other => out.push(other)?,
        }
    }
    Ok(())
}

/// Begins a picture of this size.
pub fn begin(out: &mut Vec<u8>, width: u64, height: u64) -> Result<(), NoMemory> {
    out.extend_from_slice(b"<svg xmlns=\"http://www.w3.org/2000/svg\"")?;
    put_attribute(out, "width", width)?;
    put_attribute(out, "height", height)?;
    out.extend_from_slice(
        b" font-family=\"monospace\" font-size=\"12\">\n<rect width=\"100%\" height=\"100%\" fill=\"white\"/>\n",
    )?;
    Ok(())
}

/// Ends a picture.
pub fn end(out: &mut Vec<u8>) -> Result<(), NoMemory> {
    out.extend_from_slice(b"</svg>\n")?;
    Ok(())
}

/// Adds a text of ASCII, in the middle of a point or from it on.
pub fn put_text(
    out: &mut Vec<u8>,
    at: Point,
    is_middle: bool,
    text: &[u8],
) -> Result<(), NoMemory> {
    out.extend_from_slice(b"<text")?;
    put_attribute(out, "x", at.x)?;
    put_attribute(out, "y", at.y)?;
    if is_middle {
        out.extend_from_slice(b" text-anchor=\"middle\"")?;
    }
    out.extend_from_slice(b" xml:space=\"preserve\">")?;
    put_characters(out, text)?;
    out.extend_from_slice(b"</text>\n")?;
    Ok(())
}

/// Adds a text of ASCII that goes down from a point.
pub fn put_text_down(out: &mut Vec<u8>, at: Point, text: &[u8]) -> Result<(), NoMemory> {
    out.extend_from_slice(b"<text transform=\"translate(")?;
    put_number(out, at.x)?;
    out.push(b' ')?;
    put_number(out, at.y)?;
    out.extend_from_slice(b") rotate(90)\" xml:space=\"preserve\">")?;
    put_characters(out, text)?;
    out.extend_from_slice(b"</text>\n")?;
    Ok(())
}

/// Adds a line between two points.
pub fn put_line(out: &mut Vec<u8>, from: Point, to: Point) -> Result<(), NoMemory> {
    out.extend_from_slice(b"<line stroke=\"black\"")?;
    put_attribute(out, "x1", from.x)?;
    put_attribute(out, "y1", from.y)?;
    put_attribute(out, "x2", to.x)?;
    put_attribute(out, "y2", to.y)?;
    out.extend_from_slice(b"/>\n")?;
    Ok(())
}

/// Adds a box, whose upper left corner is this, white or grey.
pub fn put_box(
    out: &mut Vec<u8>,
    corner: Point,
    width: u64,
    height: u64,
    is_grey: bool,
) -> Result<(), NoMemory> {
    out.extend_from_slice(if is_grey {
        b"<rect stroke=\"black\" fill=\"silver\"".as_slice()
    } else {
        b"<rect stroke=\"black\" fill=\"white\"".as_slice()
    })?;
    put_attribute(out, "x", corner.x)?;
    put_attribute(out, "y", corner.y)?;
    put_attribute(out, "width", width)?;
    put_attribute(out, "height", height)?;
    out.extend_from_slice(b"/>\n")?;
    Ok(())
}
