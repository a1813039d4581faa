//! Fields of JSON, read strictly, and lines of JSON that are written without a map.
//!
//! What it promises, and where to begin: `README.md` in this crate's folder.

#![tactic(auto)]

mod fields;
mod line_fields;
mod line_writing;
mod lines;
mod lists;
mod parsing;
mod shapes;
mod texts;
mod writing;

pub use fields::{bool_in, list_in, number_in, text_in, text_in_or_empty, value_in};
pub use line_fields::{first_field, first_name, next_field, next_name, next_word};
pub use line_writing::{
    write_bool, write_hex, write_null, write_number, write_text, write_value, write_word,
};
pub use lines::line;
pub use lists::{ToJson, list_json, option_json, write_list};
pub use parsing::{ParseFault, parse};
pub use shapes::{FromJson, ShapeFault, each_in, key_id_in, read_hex};
pub use texts::{hex_json, number_json, text_json, word_json};
pub use writing::{text_value, write};
