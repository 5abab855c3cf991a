//! What signing promises, as laws over the definitions of requests (smb_request) and of a share (smb_engine).
//!
//! Nothing here runs: [`laws_of_signing`] has an empty body, and its `ensures` clauses are the laws. For the laws of a
//! request, of a chain and of a share without keys proofs/WrongSigning.antt has wrong definitions that they refuse.
#![tactic(auto)]

mod signing;

pub use signing::laws_of_signing;
