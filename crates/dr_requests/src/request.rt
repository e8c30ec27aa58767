use dr_merge::Purpose;

/// What a line of a script asks for. `T` is a part of the line, as bytes.
#[derive(Clone, Copy, Debug)]
pub enum Request<T> {
    /// `+ EVENT`: accept the event that the JSON text spells.
    Add(T),
    /// `seal INSTANT`: seal the open range of the chunk in which the instant lies.
    Seal(T),
    /// `merge INSTANT LO HI`, `publish INSTANT LO HI`: make one range of the sealed ranges of a chunk at the places from LO
    /// to before HI, for that purpose.
    Join(Purpose, T, u64, u64),
    /// `plan merge INSTANT LO HI`, `plan publish INSTANT LO HI`: plan the same, to be committed later.
    Plan(Purpose, T, u64, u64),
    /// `commit N`: commit the job of that number.
    Commit(u64),
    /// `pin`: keep a snapshot.
    Pin,
    /// `query JSON`: answer a query over the rows as they are.
    Query(T),
    /// `at N JSON`: answer a query over the rows of the snapshot of that number.
    At(u64, T),
    /// `audit JSON`: answer a query over the accepted events, one by one.
    Audit(T),
    /// `image INSTANT PLACE`: tell the image of the sealed range of a chunk at that place, from 0.
    Image(T, u64),
    /// `stats`: tell how many events were accepted, and how many lines became none.
    Stats,
}
