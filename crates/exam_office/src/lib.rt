//! The commands of the office, and what it shows of a session and of a candidate.
#![tactic(auto)]

mod draft;
mod lending;
mod office;
mod part;
mod part_steps;
mod relisting;
mod seat_changes;
mod staying;
mod steps;

pub use draft::Draft;
pub use exam_changes::{Before, PlansBefore, TablesBefore};
pub use exam_commands::{
    AppealState, Command, Decision, Import, Kind, Lodging, Outcome, Own, OwnAppeal, OwnSession,
    Reply, Row, Table, kind_word, state_of, state_word, status_word, write_subject,
};
pub use exam_laws::{
    good_office_is_seated, import_repeated_later_changes_nothing,
    lodging_and_retracting_move_nobody, lodging_and_retracting_show_others_nothing,
    one_list_gives_one_office, one_step_has_one_result, only_closing_takes_a_row_away,
    own_rows_decide_a_lodging, own_rows_decide_a_retraction, own_rows_show_each_session,
    repeated_decision_changes_nothing, repeated_import_changes_nothing,
    repeated_import_makes_the_same_facts, repeated_lodging_changes_nothing,
    repeated_retraction_changes_nothing, untouched_session_stays,
};
pub use exam_repair::{first_bad_table, touched};
pub use exam_rules::Seats;
pub use exam_views::{
    AppealRow, AppealSource, Clash, ListedAppeals, Seat, SessionShortage, SessionView,
};
pub use office::Office;
pub use part::Part;
pub use part_steps::step_part;
pub use steps::{run, step};
