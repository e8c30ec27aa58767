use dr_filter::FilterTree;
use dr_predicate::{DimensionTest, ValueTest};
use dr_rowindex::AskedPlaces;
use std::alloc::{AllocError, Global};

// How often times are asked for at least, before it takes less time to put the rows in their order.
const OFTEN: usize = 8;

/// How often a filter asks for the values at each place among the dimensions, how often by a pattern, and for the times.
#[derive(Drop)]
pub struct AskedFor {
    pub places: AskedPlaces,
    pub patterns: AskedPlaces,
    times: usize,
}

impl AskedFor {
    // What a filter asks for. The only error is that memory ran out.
    pub(crate) fn of(alloc: Global, filter: &FilterTree) -> Result<AskedFor, AllocError> {
        let mut asked = AskedFor {
            places: AskedPlaces::new(alloc),
            patterns: AskedPlaces::new(alloc),
            times: 0,
        };
        asked.add(filter)?;
        Ok(asked)
    }

    // Whether times are asked for so often that the rows are put in their order.
    pub(crate) fn asks_times_often(&self) -> bool {
        self.times >= OFTEN
    }

    #[cycle(adding)]
    fn add(&mut self, filter: &FilterTree) -> Result<(), AllocError> {
        match filter {
            FilterTree::Dimension(test) => self.add_place(test),
            FilterTree::Interval(_) => {
                self.times = self.times.saturating_add(1);
                Ok(())
            }
            FilterTree::And(filters) => self.add_each(filters.as_slice()),
            FilterTree::Or(filters) => self.add_each(filters.as_slice()),
            FilterTree::Not(filter) => self.add(filter),
        }
    }

    #[cycle(adding)]
    fn add_each(&mut self, filters: &[FilterTree]) -> Result<(), AllocError> {
        for filter in filters {
            self.add(filter)?;
        }
        Ok(())
    }

    fn add_place(&mut self, test: &DimensionTest) -> Result<(), AllocError> {
        let Some(place) = test.place else {
            return Ok(());
        };
        if let ValueTest::Like(_) = &test.test {
            self.patterns.add(place)?;
        }
        self.places.add(place)
    }
}
