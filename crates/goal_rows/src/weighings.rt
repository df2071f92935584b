// How the rows of a node's program count its variables.
ghost use Rattle.std.specs.Prelude.{◌≡◌, ◌≤◌, ◌<◌, ◌+◌, ◌-◌, ◌==◌, ◌-ℤ◌, not, if◌then◌else◌, pos, unsigned_abs};
ghost use Rattle.row_program.specs.declared.limits.TheConstants.{TERM_LIMIT};
ghost use Rattle.sig_graph.specs.Rows.{leads_over as leads_over_to, one_where};
ghost use Rattle.goal_rows.specs.KeyCounts.{is_held as held_by_key};
ghost use Rattle.goal_rows.specs.Programs.{arc_weight as weight_of_arc, has_ends as ends_of_feature, has_key as key_of_feature, is_some_weight, key_weight as weight_of_key, one_more_in};

use crate::sums::{first_bit, is_over};
use ballot_form::Cand;
use irv_count::stands_in;
use row_program::{Feature, Limit, TERM_LIMIT};

/// How a row of a program counts the variables.
#[derive(Clone, Copy)]
pub(crate) enum Weighing {
    /// The row of a pair under which the gainer alone has this key.
    Level(u16),
    /// The row of the cover of the first candidate that compares it with the second one.
    Over(Cand, Cand),
    /// The row of a suffix that compares the candidate at the second place with the one at the first, where those from
    /// the first place on stand. Places are from 0.
    Held(u8, u8),
    /// The row of a limit.
    Limited(Limit),
    /// The row of the start: as many new ballots as old ones.
    Leaving,
    /// The row of a place, from 1.
    Through(u8),
}

/// What the row counts for the replacement of a ballot of this key.
pub(crate) fn key_weight(weighing: Weighing, key: u64) -> i64
    ensures value { result ≡ weight_of_key weighing key }
    ensures small { unsigned_abs result < TERM_LIMIT }
{
    match weighing {
        Weighing::Level(best) => level_weight(best, key),
        Weighing::Over(x, j) => 1 - (one(is_over(key, x, j)) - one(stands_in(key, j))),
        Weighing::Held(i, j) => one(is_held(key, i, i)) - one(is_held(key, i, j)),
        Weighing::Limited(limit) => where_counted(has_key(key, limit.feature), limit),
        Weighing::Leaving => 1,
        Weighing::Through(_) => 0,
    }
}

/// By how much the best key is above this one.
fn level_weight(best: u16, key: u64) -> i64
    ensures value { result ≡ pos (best - key) }
    ensures small { unsigned_abs result ≤ 65535 }
{
    u64::from(best).saturating_sub(key) as i64
}

/// What the row counts for a new ballot whose signature has the arc from u to p.
pub(crate) fn arc_weight(weighing: Weighing, u: u8, p: u8) -> i64
    ensures value { result ≡ weight_of_arc weighing (u, p) }
    ensures small { unsigned_abs result < TERM_LIMIT }
{
    match weighing {
        Weighing::Level(_) => 0,
        Weighing::Over(_, _) => 0,
        Weighing::Held(i, j) => one(leads_over(i, j, u, p)) - one(leads_over(i, i, u, p)),
        Weighing::Limited(limit) => where_counted(has_ends(u, p, limit.feature), limit),
        Weighing::Leaving => -one(u == 0),
        Weighing::Through(place) => one(p == place) - one(u == place),
    }
}

/// 1 where it holds, and else 0.
fn one(holds: bool) -> i64
    ensures { result ≡ pos (one_where holds) }
{
    if holds { 1 } else { 0 }
}

/// Whether a ballot of the key is held by the candidate at place j while those from place i on stand.
fn is_held(key: u64, i: u8, j: u8) -> bool
    ensures { result ≡ held_by_key i j key }
{
    match first_bit(key, i) {
        Some(k) => k == j,
        None => false,
    }
}

/// Whether the arc from u to p leads over the place i, from 0, to the place j.
fn leads_over(i: u8, j: u8, u: u8, p: u8) -> bool
    ensures { result ≡ leads_over_to (i + 1) (j + 1) (u, p) }
{
    u16::from(u) < u16::from(i) + 1 && u16::from(p) == u16::from(j) + 1
}

/// What a replacement changes in the limit's value, where it counts for its feature or not.
fn where_counted(counts: bool, limit: Limit) -> i64
    ensures { result ≡ (if counts then one_more_in limit else pos 0) }
{
    if !counts {
        0
    } else if limit.at_most {
        -1
    } else {
        1
    }
}

/// Whether the feature is that of this key.
fn has_key(key: u64, feature: Feature) -> bool
    ensures { result ≡ key_of_feature key feature }
{
    match feature {
        Feature::From(other) => other == key,
        Feature::Arc(_, _) => false,
    }
}

/// Whether the feature is the arc from u to p.
fn has_ends(u: u8, p: u8, feature: Feature) -> bool
    ensures { result ≡ ends_of_feature (u, p) feature }
{
    match feature {
        Feature::From(_) => false,
        Feature::Arc(begin, end) => begin == u && end == p,
    }
}

/// Whether the weight isn't 0.
pub(crate) fn is_some(weight: i64) -> bool
    ensures { result ≡ is_some_weight weight }
{
    weight.unsigned_abs() != 0
}
