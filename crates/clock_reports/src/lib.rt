//! The text of a report: of a rehearsal, of an auction that has ended, and of an audit.
#![tactic(auto)]

mod report;
mod report_lines;

pub use report::{Report, RoundSheets, report_so_far};
pub use report_lines::{Digits, ReportWriter, audit_text, report_text};
