use dr_base::Text;

/// Where the value of an output stands in a group, from 0.
#[derive(Debug, Clone, Copy)]
pub(crate) enum Place {
    /// Among the dimension values.
    Dim(usize),
    /// Among the values of the aggregations.
    Value(usize),
}

/// An output of a query: its name, and where its value stands in a group.
#[derive(Debug, Drop)]
pub(crate) struct Output {
    pub name: Text,
    pub place: Place,
}
