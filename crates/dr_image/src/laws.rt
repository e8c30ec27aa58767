//! That reading and writing agree. Each function does nothing: its contract is the law.

ghost use Rattle.dr_image.specs.Laws.{OpenedIsImage, ImageOpens, ColumnsAreOfRows, ImagesDiffer};

/// Bytes that open are the image of the sealed range that the columns stand for as which they open.
pub fn opened_is_image()
    ensures { OpenedIsImage }
{}

/// The image of a sealed range opens, where it has at most 1073741824 bytes, and as the columns that were written.
pub fn image_opens()
    ensures { ImageOpens }
{}

/// The columns that are written stand for the sealed range: for its rows, its range and its chunk.
pub fn columns_are_of_rows()
    ensures { ColumnsAreOfRows }
{}

/// Two sealed ranges have two images.
pub fn images_differ()
    ensures { ImagesDiffer }
{}
