//! The service: requests answered over a store of documents, one at a time, in whole runs of
//! frames, and from a reader to a writer.
//!
//! Each reply that doesn't name want of memory or of the store is the printed meaning of its
//! request over the documents that the accepted requests before it left.
#![tactic(auto)]

mod answers;
mod ends;
mod evaluations;
mod laws;
mod listings;
mod products;
mod queries;
mod replies;
mod servers;

pub use ends::End;
pub use laws::answers_once;
pub use servers::Server;
