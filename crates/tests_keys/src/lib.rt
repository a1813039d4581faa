//! Rows of keys: what keys of one and of more levels sign, as other implementations and the standard have it, a key
//! below that changes, and two signers over one file.
//!
//! What it promises, and where to begin: `README.md` in this crate's folder.

#![tactic(auto)]

#[cfg(test)]
mod digit_rows;
#[cfg(test)]
mod dossier_rows;
#[cfg(test)]
mod finding_rows;
#[cfg(test)]
mod level_rows;
#[cfg(test)]
mod lms_rows;
#[cfg(test)]
mod one_time_rows;
#[cfg(test)]
mod rows;
#[cfg(test)]
mod scenes;
#[cfg(test)]
mod signature_rows;
#[cfg(test)]
mod signer_rows;
#[cfg(test)]
mod standard_rows;
#[cfg(test)]
mod two_level_rows;
