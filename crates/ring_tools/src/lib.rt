// Fresh ring, survey, writer, reader and load from a host, in the manner of the suite's host: 0 or the refusal's number
// is returned and the rest told in the result slice. They are an archive of their own: document 01, "The tape", names
// only step, run and stopped for the suite's host.
#![tactic(auto)]

pub mod ring_fresh;
pub mod ring_load;
pub mod ring_read;
pub mod ring_survey;
pub mod ring_write;
