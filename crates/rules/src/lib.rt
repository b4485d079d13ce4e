// The rules of tinydns data: the plain types that every crate shares stand here, what they mean in specs/, and the laws in proofs/.

#![tactic(auto)]

pub mod comparisons;
pub mod faults;
pub mod kinds;
pub mod quantities;
pub mod replies;
