//! Chains of image files (an image and its backing chain), each file with its own format, and scripts (one call a line) that run over a
//! chain. Terms are explained in docs/GLOSSARY.md.
#![tactic(auto)]

pub mod arguments;
pub mod chain;
pub mod laws;
pub mod run;
pub mod script;
pub mod session;
