// The Koetter-Kschischang code as calls: encoding, and division of linearized polynomials.
#![tactic(auto)]

mod coefficients;
pub mod division;
pub mod encoding;
pub mod evaluation;
pub mod holding;
pub mod parameters;
