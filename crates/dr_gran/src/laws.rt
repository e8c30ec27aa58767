ghost use Rattle.dr_gran.specs.Buckets.{GivesFirstFilled};
ghost use Rattle.dr_gran.specs.Nesting.{TruncatesThroughNested, LiesInOneCoarserBucket};
ghost use Rattle.dr_gran.specs.Truncation.{TruncatesToGreatestStart, EndsAtLeastStart, LiesInOneBucket};

/// From the year 0 on, the truncation of a time is the greatest start of a bucket that is not after it.
pub fn times_are_truncated_to_the_greatest_start()
    ensures { TruncatesToGreatestStart }
{}

/// From the year 0 on, a bucket ends at the least start after its times.
pub fn buckets_end_at_the_least_start_after()
    ensures { EndsAtLeastStart }
{}

/// From the year 0 on, a bucket that holds a time starts at the time's truncation, so that each time lies in one bucket.
pub fn each_time_lies_in_one_bucket()
    ensures { LiesInOneBucket }
{}

/// Where a granularity nests in another, truncating to it first changes nothing, for times from 0001-01-01 on.
pub fn truncation_passes_through_what_nests()
    ensures { TruncatesThroughNested }
{}

/// Where a granularity nests in another, each of its buckets lies in one bucket of the other, for times from 0001-01-01
/// on.
pub fn nested_buckets_lie_in_one_bucket()
    ensures { LiesInOneCoarserBucket }
{}

/// `Buckets` gives the first of the buckets that hold a millisecond both of the union and of the span, rising, and all of
/// them where there are no more than its bound. The span begins at 0001-01-01 or later.
pub fn buckets_are_the_first_filled_ones()
    ensures { GivesFirstFilled }
{}
