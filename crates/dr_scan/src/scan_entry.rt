use dr_base::{Row, Text};
use std::marker::Model;

/// An entry of a scan (Apache Druid documentation, scan queries): some rows of a segment with its identifier, or rows of all
/// segments by their time, which have none.
#[derive(Debug, Drop)]
pub struct ScanEntry {
    pub segment_id: Option<Text>,
    pub rows: Vec<Row>,
}

impl Model for ScanEntry {
    ghost use Rattle.dr_scan.specs.Entries.{Entry};

    ghost Value = { Entry };

    ghost view = { λ e. record { segment_id = e.segment_id; rows = e.rows.items } };
}
