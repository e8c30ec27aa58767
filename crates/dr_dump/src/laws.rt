ghost use Rattle.dr_dump.specs.Laws.{PrintedIsTold};

/// Of the bytes of an image in lower-case hexadecimal, as a script prints them, with the newline that ends the line or
/// without it, [`dump_text`](crate::dump_text) gives the text of the image.
pub fn printed_is_told()
    ensures { PrintedIsTold }
{}
