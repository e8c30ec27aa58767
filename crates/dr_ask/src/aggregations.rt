ghost use Rattle.std.specs.Prelude.{◌≡◌, ◌++◌, ◌∷◌, [], IfOk, OnOk, OnErr, map};
ghost use Rattle.dr_ask.specs.Firsts.{firsts, number_in, numbers_of, with_new, is_same_aggregation};
ghost use Rattle.dr_ask.specs.Outputs.{aggregation_names};

use crate::aggregation::Aggregation;
use dr_base::Texts;
use std::alloc::{AllocError, Global};
use std::marker::Model;

/// The aggregations of a query in order. A contract sees the list of them. Those that combine in the same way what one column of
/// the schema holds, or none, are the same, whatever their outputs are named: so there are at most four that differ for each metric
/// of the schema, and four.
#[derive(Debug, Drop)]
pub struct Aggregations {
    all: Vec<Aggregation>,
    // Of those that are the same the first.
    distinct: Vec<Aggregation>,
    // Of each of all the number of the one that is the same among these.
    numbers: Vec<usize>,
}

impl Model for Aggregations {
    ghost use Rattle.std.specs.Prelude.{◌≡◌, List, map};
    ghost use Rattle.dr_ask.specs.declared.aggregation.Aggregation.{Aggregation};
    ghost use Rattle.dr_ask.specs.Firsts.{firsts, number_in, is_same_aggregation};

    ghost Value = { List Aggregation };

    ghost view = { λ a. a.all.items };

    ghost invariant = { λ a. (a.distinct.items ≡ firsts is_same_aggregation a.all.items) × (a.numbers.items ≡ map (number_in is_same_aggregation a.distinct.items) a.all.items) };
}

impl Aggregations {
    /// None. It takes no memory.
    pub fn new(alloc: Global) -> Aggregations
        ensures { result ≡ [] }
    {
        Aggregations {
            all: Vec::new(alloc),
            distinct: Vec::new(alloc),
            numbers: Vec::new(alloc),
        }
    }

    /// The aggregations as a slice.
    pub fn as_slice(&self) -> &[Aggregation]
        ensures { result.now ≡ self.now }
    {
        self.all.as_slice()
    }

    /// Those that differ, of those that are the same the first.
    pub fn distinct(&self) -> &[Aggregation]
        ensures { result.now ≡ firsts is_same_aggregation self.now }
    {
        self.distinct.as_slice()
    }

    /// Of each aggregation the number of the one that is the same among those that differ, from 0.
    pub fn numbers(&self) -> &[usize]
        ensures { result.now ≡ numbers_of is_same_aggregation self.now }
    {
        self.numbers.as_slice()
    }

    /// Adds one behind the others. The only error is that memory ran out, and it leaves the aggregations as they were. It takes
    /// time by those that differ.
    pub fn push(&mut self, aggregation: Aggregation) -> Result<(), AllocError>
        ensures ok { OnOk result (self.new ≡ self.old ++ aggregation ∷ []) }
        ensures err { OnErr result (self.new ≡ self.old) }
    {
        self.all.reserve(1)?;
        self.numbers.reserve(1)?;
        let number = numbered(&mut self.distinct, &aggregation)?;
        self.numbers.push(number).unwrap();
        self.all.push(aggregation).unwrap();
        Ok(())
    }

    /// The names of their outputs, in order.
    pub(crate) fn names(&self, alloc: Global) -> Result<Texts, AllocError>
        ensures { IfOk result (λ names. names ≡ aggregation_names self.now) }
    {
        let all = self.as_slice();
        let mut names = Texts::new(alloc);
        for aggregation in all {
            names.push(aggregation.name.copy()?)?;
        }
        Ok(names)
    }
}

// The number of the one that is the same among those that differ, which is put behind them where none is.
fn numbered(distinct: &mut Vec<Aggregation>, aggregation: &Aggregation) -> Result<usize, AllocError>
    ensures number { IfOk result (λ n. n ≡ number_in is_same_aggregation distinct.old.items aggregation.now) }
    ensures ok { OnOk result (distinct.new.items ≡ with_new is_same_aggregation distinct.old.items aggregation.now) }
    ensures err { OnErr result (distinct.new.items ≡ distinct.old.items) }
{
    let number = number_in(distinct.as_slice(), aggregation);
    if number == distinct.len() {
        distinct.push(aggregation.copy()?)?;
    }
    Ok(number)
}

// The number of the first that is the same, from 0; that behind the last where none is.
fn number_in(distinct: &[Aggregation], aggregation: &Aggregation) -> usize
    ensures { result ≡ number_in is_same_aggregation distinct.now aggregation.now }
{
    for (number, other) in distinct.iter().enumerate() {
        if aggregation.is_same(other) {
            return number;
        }
    }
    distinct.len()
}
