ghost use Rattle.std.specs.Prelude.{◌≡◌, ◌&&◌, ◌<◌, ◌∷◌, ◌++◌, [], not, ℤ, length, IfOk, OnOk};
ghost use Rattle.dr_rowindex.specs.Orders.{Adds, lies_between};
ghost use Rattle.dr_having.specs.JoinedSteps.{are_among, where_wanted};
ghost use Rattle.dr_having.specs.Meeting.{compares};
ghost use Rattle.dr_having.specs.Steps.{is_among, turned_by, Rise};

use crate::comparison::Comparison;
use dr_rowindex::{NumberOrder, RowSet};
use std::alloc::{AllocError, Global};
use std::marker::Model;

/// A set of numbers by its steps: whether the least numbers are in it, and the cuts, rising, at each of which this is turned round.
/// A cut may lie behind every `i64`. A contract sees these.
#[derive(Debug, Drop)]
pub struct NumberSteps {
    within: bool,
    cuts: Vec<i128>,
}

impl Model for NumberSteps {
    ghost use Rattle.dr_having.specs.Steps.{Steps, Rise};

    ghost Value = { Steps };

    ghost view = { λ s. record { within = s.within; cuts = s.cuts.items } };

    ghost invariant = { λ s. Rise s.cuts.items };
}

impl NumberSteps {
    // The numbers that compare so with one.
    pub(crate) fn of(
        alloc: Global,
        comparison: Comparison,
        number: &i64,
    ) -> Result<NumberSteps, AllocError>
        ensures { IfOk result (λ s. (value : ℤ) → is_among s value ≡ compares comparison value number.now) }
    {
        let here = i128::from(*number);
        let behind = here + 1;
        match comparison {
            Comparison::Equal => NumberSteps::new(alloc, false, &[here, behind]),
            Comparison::Greater => NumberSteps::new(alloc, false, &[behind]),
            Comparison::Less => NumberSteps::new(alloc, true, &[here]),
        }
    }

    // The numbers that these steps tell.
    fn new(alloc: Global, within: bool, cuts: &[i128]) -> Result<NumberSteps, AllocError>
        requires { Rise cuts.now }
        ensures { IfOk result (λ s. (value : ℤ) → is_among s value ≡ turned_by within cuts.now value) }
    {
        Ok(NumberSteps {
            within,
            cuts: Vec::from_slice(alloc, cuts)?,
        })
    }

    // The numbers that all of some sets have, and every number where there is no set. The sets are halved, so it takes time and
    // memory by their steps times the logarithm of how many sets there are.
    pub(crate) fn shared_by(alloc: Global, sets: &[NumberSteps]) -> Result<NumberSteps, AllocError>
        ensures { IfOk result (λ s. (value : ℤ) → is_among s value ≡ are_among sets.now value) }
    {
        if sets.len() < 2 {
            return NumberSteps::first_of(alloc, sets);
        }
        let (front, behind) = sets.split_at(sets.len() / 2);
        let front = NumberSteps::shared_by(alloc, front)?;
        let behind = NumberSteps::shared_by(alloc, behind)?;
        front.shared_with(&behind)
    }

    // The numbers of the first set, where it is the only one.
    fn first_of(alloc: Global, sets: &[NumberSteps]) -> Result<NumberSteps, AllocError>
        requires { length sets.now < 2 }
        ensures { IfOk result (λ s. (value : ℤ) → is_among s value ≡ are_among sets.now value) }
    {
        match sets.first() {
            Some(set) => set.copy(alloc),
            None => NumberSteps::new(alloc, true, &[]),
        }
    }

    // The same numbers.
    fn copy(&self, alloc: Global) -> Result<NumberSteps, AllocError>
        ensures { IfOk result (λ s. s ≡ self.now) }
    {
        Ok(NumberSteps {
            within: self.within,
            cuts: Vec::from_slice(alloc, self.cuts.as_slice())?,
        })
    }

    // The numbers that aren't in it.
    pub(crate) fn others(self) -> NumberSteps
        ensures { (value : ℤ) → is_among result value ≡ not (is_among self value) }
    {
        NumberSteps {
            within: !self.within,
            cuts: self.cuts,
        }
    }

    // The numbers that are in another set too.
    pub(crate) fn shared_with(&self, other: &NumberSteps) -> Result<NumberSteps, AllocError>
        ensures { IfOk result (λ s. (value : ℤ) → is_among s value ≡ (is_among self.now value && is_among other.now value)) }
    {
        let alloc = *self.cuts.allocator();
        let cuts = shared_cuts(
            alloc,
            self.within,
            self.cuts.as_slice(),
            other.within,
            other.cuts.as_slice(),
        )?;
        Ok(NumberSteps {
            within: self.within && other.within,
            cuts,
        })
    }

    // At how many numbers it changes whether a number is in it.
    pub(crate) fn cut_count(&self) -> usize {
        self.cuts.len()
    }

    // Adds the rows whose number is in it to a set.
    pub(crate) fn insert_among(&self, order: &NumberOrder, set: &mut RowSet)
        requires { length set.old ≡ length order.now }
        ensures { Adds (is_among self.now) order.now set.old set.new }
    {
        let mut from = None;
        let mut within = self.within;
        for cut in self.cuts.as_slice() {
            insert_where(within, order, from, Some(*cut), set);
            from = Some(*cut);
            within = !within;
        }
        insert_where(within, order, from, None, set);
    }

    /// Whether a number is in it. It takes no memory, and logarithmic time by the steps.
    pub fn contains(&self, number: i64) -> bool
        ensures { result ≡ is_among self.now number }
    {
        let number = i128::from(number);
        let turns = self.cuts.partition_point(|cut| *cut <= number);
        self.within == (turns % 2 == 0)
    }
}

// Adds the rows whose number lies from one to before another, where they are wanted.
fn insert_where(
    wanted: bool,
    order: &NumberOrder,
    from: Option<i128>,
    to: Option<i128>,
    set: &mut RowSet,
)
    requires { length set.old ≡ length order.now }
    ensures { Adds (λ n. wanted && lies_between from to n) order.now set.old set.new }
{
    if wanted {
        order.insert_between(from, to, set);
    }
}

// The steps of the numbers that some and others have.
fn shared_cuts(
    alloc: Global,
    some_within: bool,
    some: &[i128],
    others_within: bool,
    others: &[i128],
) -> Result<Vec<i128>, AllocError>
    requires some { Rise some.now }
    requires others { Rise others.now }
    ensures rise { IfOk result (λ cuts. Rise cuts.items) }
    ensures shared { IfOk result (λ cuts. (value : ℤ) → turned_by (some_within && others_within) cuts.items value ≡ (turned_by some_within some.now value && turned_by others_within others.now value)) }
{
    let mut cuts = Vec::new(alloc);
    let mut in_some = some_within;
    let mut in_others = others_within;
    let mut i = 0;
    let mut j = 0;
    while i < some.len() && j < others.len() {
        if some[i] <= others[j] {
            push_where(&mut cuts, &some[i], in_others)?;
            in_some = !in_some;
            i += 1;
        } else {
            push_where(&mut cuts, &others[j], in_some)?;
            in_others = !in_others;
            j += 1;
        }
    }
    extend_where(&mut cuts, &some[i..], in_others)?;
    extend_where(&mut cuts, &others[j..], in_some)?;
    Ok(cuts)
}

// Puts a cut behind others, where it is wanted.
fn push_where(cuts: &mut Vec<i128>, cut: &i128, wanted: bool) -> Result<(), AllocError>
    ensures { OnOk result (cuts.new.items ≡ cuts.old.items ++ where_wanted wanted (cut.now ∷ [])) }
{
    if wanted {
        cuts.push(*cut)?;
    }
    Ok(())
}

// Puts cuts behind others, where they are wanted.
fn extend_where(cuts: &mut Vec<i128>, more: &[i128], wanted: bool) -> Result<(), AllocError>
    ensures { OnOk result (cuts.new.items ≡ cuts.old.items ++ where_wanted wanted more.now) }
{
    if wanted {
        cuts.extend_from_slice(more)?;
    }
    Ok(())
}
