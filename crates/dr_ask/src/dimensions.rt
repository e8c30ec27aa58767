ghost use Rattle.std.specs.Prelude.{◌≡◌, ◌++◌, ◌∷◌, [], IfOk, OnOk, OnErr, map};
ghost use Rattle.dr_ask.specs.Firsts.{firsts, number_in, numbers_of, with_new, is_same_dimension};
ghost use Rattle.dr_ask.specs.Outputs.{dimension_names};

use crate::dimension::Dimension;
use dr_base::Texts;
use std::alloc::{AllocError, Global};
use std::marker::Model;

/// The dimensions of a query in order. A contract sees the list of them. Those that name one column of the schema, or none, are the
/// same, whatever their outputs are named: so there are at most as many that differ as the schema has dimensions, and one.
#[derive(Debug, Drop)]
pub struct Dimensions {
    all: Vec<Dimension>,
    // Of those that are the same the first.
    distinct: Vec<Dimension>,
    // Of each of all the number of the one that is the same among these.
    numbers: Vec<usize>,
}

impl Model for Dimensions {
    ghost use Rattle.std.specs.Prelude.{◌≡◌, List, map};
    ghost use Rattle.dr_ask.specs.declared.dimension.Dimension.{Dimension};
    ghost use Rattle.dr_ask.specs.Firsts.{firsts, number_in, is_same_dimension};

    ghost Value = { List Dimension };

    ghost view = { λ d. d.all.items };

    ghost invariant = { λ d. (d.distinct.items ≡ firsts is_same_dimension d.all.items) × (d.numbers.items ≡ map (number_in is_same_dimension d.distinct.items) d.all.items) };
}

impl Dimensions {
    /// None. It takes no memory.
    pub fn new(alloc: Global) -> Dimensions
        ensures { result ≡ [] }
    {
        Dimensions {
            all: Vec::new(alloc),
            distinct: Vec::new(alloc),
            numbers: Vec::new(alloc),
        }
    }

    /// The dimensions as a slice.
    pub fn as_slice(&self) -> &[Dimension]
        ensures { result.now ≡ self.now }
    {
        self.all.as_slice()
    }

    /// Those that differ, of those that are the same the first.
    pub fn distinct(&self) -> &[Dimension]
        ensures { result.now ≡ firsts is_same_dimension self.now }
    {
        self.distinct.as_slice()
    }

    /// Of each dimension the number of the one that is the same among those that differ, from 0.
    pub fn numbers(&self) -> &[usize]
        ensures { result.now ≡ numbers_of is_same_dimension self.now }
    {
        self.numbers.as_slice()
    }

    /// Adds one behind the others. The only error is that memory ran out, and it leaves the dimensions as they were. It takes
    /// time by those that differ.
    pub fn push(&mut self, dimension: Dimension) -> Result<(), AllocError>
        ensures ok { OnOk result (self.new ≡ self.old ++ dimension ∷ []) }
        ensures err { OnErr result (self.new ≡ self.old) }
    {
        self.all.reserve(1)?;
        self.numbers.reserve(1)?;
        let number = numbered(&mut self.distinct, &dimension)?;
        self.numbers.push(number).unwrap();
        self.all.push(dimension).unwrap();
        Ok(())
    }

    /// The names of their outputs, in order.
    pub(crate) fn names(&self, alloc: Global) -> Result<Texts, AllocError>
        ensures { IfOk result (λ names. names ≡ dimension_names self.now) }
    {
        let all = self.as_slice();
        let mut names = Texts::new(alloc);
        for dimension in all {
            names.push(dimension.name.copy()?)?;
        }
        Ok(names)
    }
}

// The number of the one that is the same among those that differ, which is put behind them where none is.
fn numbered(distinct: &mut Vec<Dimension>, dimension: &Dimension) -> Result<usize, AllocError>
    ensures number { IfOk result (λ n. n ≡ number_in is_same_dimension distinct.old.items dimension.now) }
    ensures ok { OnOk result (distinct.new.items ≡ with_new is_same_dimension distinct.old.items dimension.now) }
    ensures err { OnErr result (distinct.new.items ≡ distinct.old.items) }
{
    let number = number_in(distinct.as_slice(), dimension);
    if number == distinct.len() {
        distinct.push(dimension.copy()?)?;
    }
    Ok(number)
}

// The number of the first that is the same, from 0; that behind the last where none is.
fn number_in(distinct: &[Dimension], dimension: &Dimension) -> usize
    ensures { result ≡ number_in is_same_dimension distinct.now dimension.now }
{
    for (number, other) in distinct.iter().enumerate() {
        if dimension.is_same(other) {
            return number;
        }
    }
    distinct.len()
}
