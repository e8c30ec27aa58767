use indexmap::IndexMap;
use std::alloc::{AllocError, Global};

// How often a place is asked for at least, before it takes less time to put the rows in the order of their values there.
const OFTEN: usize = 8;

/// How often each of some places is asked for.
#[derive(Drop)]
pub struct AskedPlaces {
    counts: IndexMap<usize, usize>,
}

impl AskedPlaces {
    /// None. It takes no memory yet.
    pub fn new(alloc: Global) -> AskedPlaces {
        AskedPlaces {
            counts: IndexMap::new(alloc),
        }
    }

    /// Counts that a place is asked for. The only error is that memory ran out. It takes expected constant time.
    pub fn add(&mut self, place: usize) -> Result<(), AllocError> {
        let count = self.counts.entry(place)?.or_insert(0);
        *count = count.saturating_add(1);
        Ok(())
    }

    /// The places that are asked for so often that rows are put in the order of their values there. The only error is that memory ran
    /// out. It takes time by the places.
    pub fn often(&self, alloc: Global) -> Result<Vec<usize>, AllocError> {
        let mut places = Vec::new(alloc);
        for (place, count) in &self.counts {
            if *count >= OFTEN {
                places.push(*place)?;
            }
        }
        Ok(places)
    }
}
