//! Tests of stores in databases.
//!
//! What it promises, and where to begin: `README.md` in this crate's folder.

#![tactic(auto)]

#[cfg(test)]
mod stores;
