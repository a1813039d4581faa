//! The command over the objects that it uses, with what each outcome means and what it reads.

pub use crate::making::{InputFault, Made};
pub use crate::outcomes::snapshot_ending;
pub use crate::snapshots::{SnapshotFault, snapshot};
pub use crate::storing::StoringFault;
