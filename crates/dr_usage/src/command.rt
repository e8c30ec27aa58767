/// What the program is asked to do.
#[derive(Debug, Drop)]
pub enum Command<'a> {
    /// `run [--workers N]`: runs a script, with this many workers, 1 to 16.
    Run(u8),
    /// `load [--workers N] SPEC QUERY FILE..`: answers a query over the events of files, 1 to 6, with this many workers.
    Load(u8, &'a str, &'a str, Vec<&'a str>),
    /// `dump FILE`: prints the image that a file spells.
    Dump(&'a str),
}
