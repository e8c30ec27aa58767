ghost use Rattle.std.specs.Prelude.{◌≡◌, ◌++◌, ◌∷◌, ◌≤◌, [], length, IsOkUnless};
ghost use Rattle.dr_lines.specs.Failures.{failures_of, inner_of, failures_after};
ghost use Rattle.dr_lines.specs.Written.{Puts};
ghost use Rattle.hex.specs.Hex.{encode_lower};

use dr_lines::{Counted, LineError, LineWriter};
use hex::encode_to_slice;
use std::io::Write;

/// How many bytes are spelled at once.
const PIECE_BYTES: usize = 64;

/// Writes bytes in lower-case hexadecimal as a line. It is written piece by piece, so the text is never whole in memory.
/// Refusals: 100 `WriteFault` where a write fails.
pub fn put_hexadecimal_line<W: Write>(
    lines: &mut LineWriter,
    writer: &mut Counted<W>,
    bytes: &[u8],
) -> Result<(), LineError>
    ensures bytes { Puts (W.contents (inner_of writer.old)) (W.contents (inner_of writer.new))
        (lines.old ++ encode_lower bytes.now ++ 10 ∷ []) lines.new result }
    ensures fault { IsOkUnless result LineError.WriteFault }
    ensures failures { failures_of writer.new ≡ failures_after (failures_of writer.old) result }
{
    put_hexadecimal(lines, writer, bytes)?;
    lines.put(writer, b"\n")
}

fn put_hexadecimal<W: Write>(
    lines: &mut LineWriter,
    writer: &mut Counted<W>,
    bytes: &[u8],
) -> Result<(), LineError>
    ensures bytes { Puts (W.contents (inner_of writer.old)) (W.contents (inner_of writer.new))
        (lines.old ++ encode_lower bytes.now) lines.new result }
    ensures fault { IsOkUnless result LineError.WriteFault }
    ensures failures { failures_of writer.new ≡ failures_after (failures_of writer.old) result }
{
    let mut done = 0;
    while done < bytes.len() {
        let rest = &bytes[done..];
        let count = PIECE_BYTES.min(rest.len());
        put_piece(lines, writer, &rest[..count])?;
        done += count;
    }
    Ok(())
}

fn put_piece<W: Write>(
    lines: &mut LineWriter,
    writer: &mut Counted<W>,
    piece: &[u8],
) -> Result<(), LineError>
    requires { length piece.now ≤ 64 }
    ensures bytes { Puts (W.contents (inner_of writer.old)) (W.contents (inner_of writer.new))
        (lines.old ++ encode_lower piece.now) lines.new result }
    ensures fault { IsOkUnless result LineError.WriteFault }
    ensures failures { failures_of writer.new ≡ failures_after (failures_of writer.old) result }
{
    let mut room = [0; 2 * PIECE_BYTES];
    let digits = &mut room[..2 * piece.len()];
    encode_to_slice(piece, digits).unwrap();
    lines.put(writer, digits)
}
