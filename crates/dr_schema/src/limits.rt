/// The limits of a data source (Apache Druid documentation, ingestion spec, `tuningConfig`; all but the first are of this
/// project).
#[derive(Clone, Copy, Debug, PartialEq, Eq)]
pub struct Limits {
    /// Rows of a chunk's open range at which it is sealed, 1 to 1048576.
    pub max_rows_in_memory: usize,
    /// Events that are retained, 1 to 1048576.
    pub max_retained: usize,
    /// Merges and publications, 1 to 4294967295.
    pub max_commits: u64,
    /// Bytes of a segment's image, 1 to 1073741824.
    pub max_image_bytes: u64,
}
