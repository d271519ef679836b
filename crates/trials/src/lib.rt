//! Examples of what the libraries do, each proved to return and then run.
#![tactic(auto)]

#[cfg(test)]
mod decimals;
#[cfg(test)]
mod directories;
#[cfg(test)]
mod lexing;
#[cfg(test)]
mod names;
#[cfg(test)]
mod runs;
