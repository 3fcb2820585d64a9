//! What a run is to make can be made: the file of the rows of a replica, and that of a push. The laws are about definitions alone, and stand on
//! functions that do nothing.
#![tactic(auto)]

mod laws;

pub use laws::{
    pushed_rows_have_a_file, the_columns_of_a_script_have_text_names,
    the_rows_of_a_run_are_of_their_types, what_is_due_happens_in_a_run,
};
