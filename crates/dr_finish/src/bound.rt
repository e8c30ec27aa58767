/// How many groups or buckets there may be, before any limit.
pub const MAX_GROUPS: usize = 100_000;
