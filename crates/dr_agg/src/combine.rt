ghost use Rattle.std.specs.Prelude.{◌≡◌, ℤ, pos, FitsSigned};
ghost use Rattle.std.specs.Int.{int_min, int_max, w64};
ghost use Rattle.dr_agg.specs.Combination.{wrapping_sum, least, greatest};
ghost use Rattle.dr_agg.specs.CombinationLaws.{wrapping_sum-assoc, wrapping_sum-comm, wrapping_sum-unit, int_min-assoc, int_min-comm, int_min-unit, int_max-assoc, int_max-comm, int_max-unit};

/// A way to combine values: associative, commutative, with a unit (Apache Druid documentation, aggregations).
pub trait Combine {
    ghost join: { ℤ → ℤ → ℤ };

    ghost none: { ℤ };

    /// What no value at all combines to.
    fn unit() -> i64
        ensures { result ≡ none };

    /// Two values combined.
    fn combine(a: i64, b: i64) -> i64
        ensures { result ≡ join a b };

    ghost associative: { (a b c : ℤ) → join (join a b) c ≡ join a (join b c) };

    ghost commutative: { (a b : ℤ) → join a b ≡ join b a };

    ghost neutral: { (a : ℤ) → FitsSigned w64 a → join none a ≡ a };
}

/// The sum modulo 2^64, read as a number with a sign. Its unit is 0.
pub struct Sum;

/// The lesser value. Its unit is 9223372036854775807.
pub struct Min;

/// The greater value. Its unit is -9223372036854775808.
pub struct Max;

impl Combine for Sum {
    ghost join = { wrapping_sum };

    ghost none = { pos 0 };

    fn unit() -> i64 {
        0
    }

    fn combine(a: i64, b: i64) -> i64 {
        a.wrapping_add(b)
    }

    ghost associative = { wrapping_sum-assoc };

    ghost commutative = { wrapping_sum-comm };

    ghost neutral = { wrapping_sum-unit };
}

impl Combine for Min {
    ghost join = { int_min };

    ghost none = { greatest };

    fn unit() -> i64 {
        i64::MAX
    }

    fn combine(a: i64, b: i64) -> i64 {
        a.min(b)
    }

    ghost associative = { int_min-assoc };

    ghost commutative = { int_min-comm };

    ghost neutral = { int_min-unit };
}

impl Combine for Max {
    ghost join = { int_max };

    ghost none = { least };

    fn unit() -> i64 {
        i64::MIN
    }

    fn combine(a: i64, b: i64) -> i64 {
        a.max(b)
    }

    ghost associative = { int_max-assoc };

    ghost commutative = { int_max-comm };

    ghost neutral = { int_max-unit };
}
