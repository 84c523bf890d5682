// The collector for the Koetter-Kschischang subspace code.
#![tactic(auto)]

mod adding;
mod code_row;
mod decoding;
mod interpolation;
mod measuring;
mod packet_row;
mod polynomial;
mod row;
mod scalar;
pub mod session;
#[cfg(test)]
mod tests;
mod window;
