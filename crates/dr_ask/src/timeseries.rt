/// What a timeseries asks beside what every query asks (Apache Druid documentation, timeseries queries): whether its buckets
/// stand in descending order, how many it gives at most, and whether buckets without a row are left out.
#[derive(Clone, Copy, Debug, PartialEq, Eq)]
pub struct Timeseries {
    pub descending: bool,
    pub limit: Option<u64>,
    pub skips_empty_buckets: bool,
}
