//! The keeper over a database.

#![tactic(auto)]

mod adopting;
mod columns;
mod commits;
mod database_files;
mod keeper_calls;
mod looks;
mod refusals;
mod schemas;
mod sql_faults;
mod sql_keepers;
mod statements;
mod table_columns;

pub use columns::RowFault;
pub use commits::{Made, make, try_make};
pub use looks::{look_next_object, look_next_ref, look_object, look_ref};
pub use refusals::{fault_of, is_alive, refusal};
pub use sql_faults::SqlFault;
pub use sql_keepers::SqlKeeper;
pub use statements::{
    drop_ref_row, put_object_row, put_ref_row, select_next_object, select_next_ref, select_object,
    select_ref,
};
