ghost use Rattle.std.specs.Prelude.{◌≡◌, ℤ};
ghost use Rattle.dr_outputs.specs.Numbered.{number_at as number_at_of};
ghost use Rattle.dr_outputs.specs.Numbered.{numbers_by};

use std::marker::Model;

/// The values of a group's aggregations, one for each aggregation of the query: those of the aggregations that differ, and of each
/// aggregation the number of its value among these, from 0. A contract sees the list of the values.
#[derive(Drop)]
pub struct OutputNumbers<'a> {
    values: &'a [i64],
    numbers: &'a [usize],
}

impl<'a> Model for OutputNumbers<'a> {
    ghost use Rattle.std.specs.Prelude.{ℤ, List};
    ghost use Rattle.dr_outputs.specs.Numbered.{numbers_by};

    ghost Value = { List ℤ };

    ghost view = { λ o. numbers_by o.numbers.now o.values.now };
}

impl<'a> OutputNumbers<'a> {
    /// The values of these numbers, from 0; 0 where there is none. Nothing is copied.
    pub fn new(values: &'a [i64], numbers: &'a [usize]) -> OutputNumbers<'a>
        ensures { result ≡ numbers_by numbers.now values.now }
    {
        OutputNumbers { values, numbers }
    }

    /// The value of an aggregation by its place in the query, from 0; 0 where there is none. It takes constant time.
    pub fn at(&self, place: usize) -> i64
        ensures { result ≡ number_at_of place self.now }
    {
        let Some(number) = self.numbers.get(place) else {
            return 0;
        };
        number_at(self.values, *number)
    }
}

/// The value of a number, from 0; 0 where there is none. It takes constant time.
pub fn number_at(values: &[i64], number: usize) -> i64
    ensures { result ≡ number_at_of number values.now }
{
    match values.get(number) {
        Some(value) => *value,
        None => 0,
    }
}
