//! Laws of commands, and the lemmas on which they and the office rest.
#![tactic(auto)]

mod laws;
mod own_laws;

pub use laws::{
    good_office_is_seated, import_repeated_later_changes_nothing,
    lodging_and_retracting_move_nobody, one_list_gives_one_office, one_step_has_one_result,
    only_closing_takes_a_row_away, repeated_decision_changes_nothing,
    repeated_import_changes_nothing, repeated_import_makes_the_same_facts,
    repeated_lodging_changes_nothing, repeated_retraction_changes_nothing, untouched_session_stays,
};
pub use own_laws::{
    lodging_and_retracting_show_others_nothing, own_rows_decide_a_lodging,
    own_rows_decide_a_retraction, own_rows_show_each_session,
};
