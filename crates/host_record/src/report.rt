// The fields of the report (document 01, "The host").
use crate::record::End;

#[derive(Clone, Copy)]
pub struct Report {
    // How many offers were completed, and which.
    pub completed: u32,
    pub mask: u32,
    pub packets: u32,
    pub passes: u32,
    // How the host ended; none while it runs.
    pub progress: Option<End>,
}
