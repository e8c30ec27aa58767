ghost use Rattle.std.specs.Prelude.{◌≡◌, Some};
ghost use Rattle.dr_answers.specs.Span.{wider as wider_of};

/// From when to when events last where there is one more, which has this time.
pub(crate) fn wider(span: Option<(i64, i64)>, time: i64) -> Option<(i64, i64)>
    ensures { result ≡ wider_of span (Some (time, time)) }
{
    match span {
        None => Some((time, time)),
        Some((least, greatest)) => Some((least.min(time), greatest.max(time))),
    }
}
