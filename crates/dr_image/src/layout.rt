ghost use Rattle.std.specs.Prelude.{◌≡◌, ◌+◌, ◌*◌, ◌<◌, ◌≤◌, [], length, map, get_or, IfOk};
ghost use Rattle.dr_image.specs.Words.{long};
ghost use Rattle.dr_image.specs.Layout.{header_of, rows_in, parts_in, read_table};
ghost use Rattle.dr_image.specs.Parts.{part_seen, no_part, IsEven, outcome};
ghost use Rattle.dr_image.specs.Starts.{IsLaid};
ghost use Rattle.dr_image.specs.Opening.{framed};

use crate::framing::{read_head, starts_of};
use crate::header::Header;
use crate::image_error::ImageError;
use crate::part::{Part, part_at};
use crate::words::cells8;

// Bytes in which the columns of an image lie, whatever they hold.
#[derive(Drop)]
pub(crate) struct Layout<'a> {
    bytes: &'a [u8],
    header: Header,
    starts: [usize; 64],
    ghost head: { header ≡ header_of bytes.now },
    ghost laid: { IsLaid bytes.now header starts },
}

impl<'a> Layout<'a> {
    // The bytes laid out, where their marks and lengths are those of an image.
    #[tactic(auto, unfolding(crate::specs::Opening::framed))]
    pub(crate) fn of(bytes: &'a [u8]) -> Result<Layout<'a>, ImageError>
        ensures framed { outcome result ≡ framed bytes.now }
        ensures bytes { IfOk result (λ layout. layout.bytes.now ≡ bytes.now) }
    {
        let header = read_head(bytes)?;
        let rows = header.rows as usize;
        let place = dims_place(rows, header.metrics as usize);
        if place > bytes.len() - 32 {
            return Err(ImageError::BadLength);
        }
        match starts_of(bytes, place, header.dims as usize, rows) {
            Some(starts) => Ok(Layout {
                bytes,
                header,
                starts,
            }),
            None => Err(ImageError::BadLength),
        }
    }

    // The numbers in front.
    pub(crate) fn header(&self) -> Header
        ensures { result ≡ header_of self.now.bytes.now }
    {
        self.header
    }

    // The bytes.
    pub(crate) fn bytes(&self) -> &'a [u8]
        ensures { result.now ≡ self.now.bytes.now }
    {
        self.bytes
    }

    // How many rows there are, and at least one.
    pub(crate) fn rows(&self) -> usize
        ensures value { result ≡ rows_in self.now.bytes.now }
        ensures some { 1 ≤ result }
    {
        self.header.rows as usize
    }

    // How many dimensions there are.
    pub(crate) fn dims(&self) -> usize
        ensures { result ≡ length (parts_in self.now.bytes.now) }
    {
        self.header.dims as usize
    }

    // How many metrics there are.
    pub(crate) fn metrics(&self) -> usize
        ensures { result ≡ length (read_table self.now.bytes.now).metrics }
    {
        self.header.metrics as usize
    }

    // A dimension.
    pub(crate) fn part(&self, d: usize) -> Part<'a>
        requires { d < length (parts_in self.now.bytes.now) }
        ensures seen { part_seen result ≡ get_or (parts_in self.now.bytes.now) d no_part }
        ensures even { IsEven (rows_in self.now.bytes.now) result }
    {
        part_at(self.bytes, self.starts[d], self.header.rows as usize)
    }

    // The times.
    #[tactic(auto, unfolding(crate::specs::Layout::read_table))]
    pub(crate) fn times(&self) -> &'a [[u8; 8]]
        ensures value { map long result.now ≡ (read_table self.now.bytes.now).times }
        ensures len { length result.now ≡ rows_in self.now.bytes.now }
    {
        cells8(self.bytes, 48, self.header.rows as usize)
    }

    // The values of a metric.
    pub(crate) fn metric(&self, m: usize) -> &'a [[u8; 8]]
        requires { m < length (read_table self.now.bytes.now).metrics }
        ensures value { map long result.now ≡ get_or (read_table self.now.bytes.now).metrics m [] }
        ensures len { length result.now ≡ rows_in self.now.bytes.now }
    {
        let rows = self.header.rows as usize;
        cells8(self.bytes, 48 + 8 * rows + 8 * rows * m, rows)
    }
}

// Where the dimensions begin.
fn dims_place(rows: usize, metrics: usize) -> usize
    requires few_rows { rows ≤ 4294967295 }
    requires few_metrics { metrics ≤ 64 }
    ensures { result ≡ 48 + 8 * rows + 8 * rows * metrics }
{
    48 + 8 * rows + 8 * rows * metrics
}
