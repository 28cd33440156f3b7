//! Laws that tie the layers to one another: what is shown by the types of a text is a function of the text,
//! and these types are what its names mean. It holds nothing that runs.
#![tactic(auto)]

mod laws;

pub use laws::{
    bodies_in_place, each_case, each_number, each_procedure, faultless_results, no_name_is_known,
    one_answer, one_dump, one_showing, read_files_end_whole, schema_numbers, schema_targets,
    schema_types, types_of_text,
};
