ghost use Rattle.std.specs.Prelude.{◌≡◌, ◌<◌, ◌++◌, length, IfOk, OnOk};
ghost use Rattle.dr_image.specs.Table.{row_at};
ghost use Rattle.dr_dump.specs.Dump.{dump_of, head_line, kind_of, row_line, text_of};
ghost use Rattle.dr_dump.specs.Refusal.{Gives};

use crate::dump_error::DumpError;
use crate::reading::{bytes_of, line_of};
use crate::row_writing::write_row;
use dr_image::SegmentView;
use itoa::{Buffer, Integer};
use json::Writer;
use std::alloc::{AllocError, Global};

/// The text of an image. The file is the image in lower-case hexadecimal, as a script's `image` prints it, and may end with
/// one newline. The text is the line `image vN rollup|plain chunk C range FROM TO rows K`, with the version of the image's
/// form, the start of the chunk in milliseconds since the epoch, the range of the chunk's events and the number of rows, and
/// then each row as a JSON list (RFC 8259) without spaces: its time in milliseconds since the epoch, its dimension values, an
/// empty one as `null`, and its metrics. A newline ends each line.
///
/// Refusals: 101 `BadCommand` where the file has another character than lower-case hexadecimal digits or an odd number of
/// them; then those of [`SegmentView::open`], 50 to 58. A file without a digit spells no byte, which is 50 `Truncated`.
///
/// It takes time by the bytes of the file and of the text, and memory for the image and the text.
#[tactic(auto, unfolding(crate::specs::Dump::dump_of))]
pub fn dump_text(alloc: Global, file: &[u8]) -> Result<Vec<u8>, DumpError>
    ensures { Gives (λ text. text.items) result (dump_of file.now) }
{
    let bytes = bytes_of(alloc, line_of(file))?;
    let view = SegmentView::open(bytes.as_slice())?;
    Ok(text_of(alloc, &view)?)
}

// The line of what it is an image of, and a line for each row.
#[tactic(auto, unfolding(crate::specs::Dump::text_of))]
fn text_of(alloc: Global, view: &SegmentView) -> Result<Vec<u8>, AllocError>
    ensures { IfOk result (λ text. text.items ≡ text_of view.now) }
{
    let mut text = head_line(alloc, view)?;
    for i in 0..view.row_count() {
        text = with_row(text, view, i)?;
    }
    Ok(text)
}

#[tactic(auto, unfolding(crate::specs::Dump::head_line))]
fn head_line(alloc: Global, view: &SegmentView) -> Result<Vec<u8>, AllocError>
    ensures { IfOk result (λ text. text.items ≡ head_line view.now) }
{
    let (from, to) = view.range();
    let mut text = Vec::from_slice(alloc, b"image v1 ")?;
    text.extend_from_slice(kind_of(view.rollup()))?;
    push_number(&mut text, b" chunk ", view.chunk())?;
    push_number(&mut text, b" range ", from)?;
    push_number(&mut text, b" ", to)?;
    push_number(&mut text, b" rows ", view.row_count())?;
    text.push(b'\n')?;
    Ok(text)
}

fn kind_of(rollup: bool) -> &'static [u8]
    ensures { result.now ≡ kind_of rollup }
{
    if rollup { b"rollup" } else { b"plain" }
}

fn push_number<I: Integer>(text: &mut Vec<u8>, word: &[u8], number: I) -> Result<(), AllocError>
    ensures { OnOk result (text.new.items ≡ text.old.items ++ (word.now ++ I.text number)) }
{
    text.extend_from_slice(word)?;
    text.extend_from_slice(Buffer::new().format(number).as_bytes())
}

// Puts the line of a row behind a text.
fn with_row(text: Vec<u8>, view: &SegmentView, i: usize) -> Result<Vec<u8>, AllocError>
    requires { i < length view.now.times }
    ensures { IfOk result (λ longer. longer.items ≡ text.items ++ row_line (row_at view.now i)) }
{
    let mut out = Writer::new(text);
    write_row(&mut out, view, i)?;
    let mut text = out.into_inner();
    text.push(b'\n')?;
    Ok(text)
}
