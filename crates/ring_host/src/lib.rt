// Step, run and stopped as the suite's host calls them: plain numbers and byte slices, with 0 or the refusal's number
// returned and the rest told in the result slice. Document 01, "The tape", the sentences on the suite's host.
#![tactic(auto)]

pub mod ring_run;
pub mod ring_step;
pub mod ring_stopped;
