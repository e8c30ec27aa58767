ghost use Rattle.std.specs.Prelude.{◌≡◌, drop};
ghost use Rattle.dr_answers.specs.Given.{limited as limited_of};

/// The first groups, at most `limit` of them; all of them where there is no limit.
pub fn limited<T: Drop>(groups: Vec<T>, limit: Option<u64>) -> Vec<T>
    ensures { result.items ≡ limited_of limit groups.items }
{
    let mut limited = groups;
    if let Some(limit) = limit {
        limited.truncate(limit as usize);
    }
    limited
}

/// The groups without the first `offset` of them; none where there are no more.
pub fn without_first<T: Drop>(groups: Vec<T>, offset: u64) -> Vec<T>
    ensures { result.items ≡ drop offset groups.items }
{
    let mut left = groups;
    let count = left.len().min(offset as usize);
    drop(left.drain(..count));
    left
}
