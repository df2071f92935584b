//! What holds along every run of the exact linear method, and at its end.
//!
//! The crate has no code. In `specs/` it defines the values of a form, a measure of it, the point and the multipliers
//! of the last form, and the number that a wide program names. Its laws say that the columns stay lexicographically
//! positive, that the values rise strictly with each pivot, so that no form comes twice, that the measure falls, so
//! that every run ends, that the last form has the least cost, the least point and multipliers that show it, or that
//! no point is left, and that the least point and the number that a wide program names are one. They hold for whole
//! numbers of any size. It stands on the definitions of `row_program` and on the lemmas of `pivot_form`;
//! `CallerLemmas` of `proofs/` is for the crate that pivots.
#![tactic(auto)]

mod laws;

pub use laws::{
    columns_stay_positive, divided_multipliers_have_no_common_divisor, every_run_ends,
    multipliers_bound_the_cost, multipliers_rule_out_every_point, no_form_comes_twice,
    the_last_form_has_the_least_cost, the_last_form_has_the_least_point, the_least_point_is_one,
    the_measure_falls, the_wide_number_is_one, values_rise_with_each_pivot,
    without_a_candidate_there_is_no_point,
};
