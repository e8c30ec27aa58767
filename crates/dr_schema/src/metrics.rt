ghost use Rattle.std.specs.Prelude.{◌≡◌, ◌++◌, ◌∷◌, [], IfOk, OnOk, OnErr, ◌↔◌, IsTrue, length};

use crate::metric::Metric;
use std::alloc::{AllocError, Global};
use std::marker::Model;

/// Metric columns in order. A contract sees the list of the columns.
#[derive(Debug, Drop)]
pub struct Metrics(Vec<Metric>);

impl Model for Metrics {
    ghost use Rattle.std.specs.Prelude.{List};
    ghost use Rattle.dr_schema.specs.declared.metric.Metric.{Metric};

    ghost Value = { List Metric };

    ghost view = { λ m. m.0.items };
}

impl Metrics {
    /// No column.
    pub fn new(alloc: Global) -> Metrics
        ensures { result ≡ [] }
    {
        Metrics(Vec::new(alloc))
    }

    /// The columns of a vector, which takes no memory.
    pub fn from_vec(metrics: Vec<Metric>) -> Metrics
        ensures { result ≡ metrics.items }
    {
        Metrics(metrics)
    }

    /// The columns as a vector, which takes no memory.
    pub fn into_vec(self) -> Vec<Metric>
        ensures { result.items ≡ self }
    {
        self.0
    }

    /// The columns as a slice.
    pub fn as_slice(&self) -> &[Metric]
        ensures { result.now ≡ self.now }
    {
        self.0.as_slice()
    }

    /// How many columns there are.
    pub fn len(&self) -> usize
        ensures { result ≡ length self.now }
    {
        self.0.len()
    }

    /// Whether there is no column.
    pub fn is_empty(&self) -> bool
        ensures { IsTrue result ↔ (self.now ≡ []) }
    {
        self.0.is_empty()
    }

    /// Adds a column at the end.
    pub fn push(&mut self, metric: Metric) -> Result<(), AllocError>
        ensures ok { OnOk result (self.new ≡ self.old ++ metric ∷ []) }
        ensures err { OnErr result (self.new ≡ self.old) }
    {
        self.0.push(metric)?;
        Ok(())
    }

    /// Equal columns in memory of their own.
    pub fn copy(&self) -> Result<Metrics, AllocError>
        ensures { IfOk result (λ metrics. metrics ≡ self.now) }
    {
        let alloc = *self.0.allocator();
        Ok(Metrics(copy_all(alloc, self.as_slice())?))
    }
}

fn copy_all(alloc: Global, metrics: &[Metric]) -> Result<Vec<Metric>, AllocError>
    ensures { IfOk result (λ copies. copies.items ≡ metrics.now) }
{
    let mut copies = Vec::with_capacity(alloc, metrics.len())?;
    for metric in metrics {
        copies.push(metric.copy()?)?;
    }
    Ok(copies)
}
