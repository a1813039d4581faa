//! The commands over the objects that each uses, with what each outcome means and what it reads.

pub use crate::inputs::InputFault;
pub use crate::making_keys::{KeyGenFault, key_gen, key_gen_ending};
pub use crate::sealing::{SealFault, seal, seal_ending};
pub use crate::signing_envelopes::SigningFault;
