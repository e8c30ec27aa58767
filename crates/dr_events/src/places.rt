use crate::input::Input;

/// Where the names of the fields that the columns of a schema read stand among all names: that of the time column, of each
/// dimension and of each metric, in the order of the schema.
#[derive(Debug, Drop)]
pub struct Places {
    pub time: usize,
    pub dimensions: Vec<usize>,
    pub inputs: Vec<Input>,
}
