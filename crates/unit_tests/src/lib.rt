//! Tests that only Rust can express: values that no call of a disk makes, and comparisons of types. All other tests are scripts
//! (`docs/CASES.md`).
#![tactic(auto)]

#[cfg(test)]
mod access;
#[cfg(test)]
mod example;
