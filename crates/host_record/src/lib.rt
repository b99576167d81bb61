// The host's record: its start, its report, and row N1 (document 01, "The host" and "Numbered refusals").
#![tactic(auto)]

pub mod record; // record.rt: the record and its stages, its start and its report
pub mod report; // report.rt: the fields of the report
pub mod fits; // fits.rt: row N1, and the body of an entry
