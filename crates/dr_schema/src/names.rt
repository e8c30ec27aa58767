ghost use Rattle.std.specs.Prelude.{◌≡◌, bytes_eq};
ghost use Rattle.std.specs.List.{list_any, position};
ghost use Rattle.dr_schema.specs.Names.{dimension_place, is_no_dimension};

use crate::metrics::Metrics;
use crate::schema::Schema;
use dr_base::Text;

impl Schema {
    /// Whether a name is that of a column that is no dimension: `__time`, or a metric. It takes time by the bytes of the names of
    /// the metrics.
    pub fn is_no_dimension(&self, name: &str) -> bool
        ensures { result ≡ is_no_dimension self.now name.now }
    {
        name == "__time" || is_metric(self.metrics(), name)
    }

    /// The place of the dimension of that name, from 0; none where there is no such column. It takes time by the bytes of the
    /// names of the dimensions.
    pub fn dimension_place(&self, name: &str) -> Option<usize>
        ensures { result ≡ dimension_place self.now name.now }
    {
        place(self.dimensions().as_slice(), name)
    }
}

fn is_metric(metrics: &Metrics, name: &str) -> bool
    ensures { result ≡ list_any (λ m. bytes_eq name.now m.name) metrics.now }
{
    metrics
        .as_slice()
        .iter()
        .any(|metric| name == metric.name.as_str())
}

fn place(names: &[Text], name: &str) -> Option<usize>
    ensures { result ≡ position (bytes_eq name.now) names.now }
{
    names.iter().position(|other| name == other.as_str())
}
