// The multipliers of a cell.
ghost use Rattle.std.specs.Prelude.{◌≡◌, ◌<◌, ◌≤◌, ◌+◌, ◌++◌, [], ℕ, All, IfOk, OnOk, length, map, unsigned_abs, pos, ◌-ℤ◌};
ghost use Rattle.std.specs.List.{list_any, position, range_with_len};
ghost use Rattle.ballot_form.specs.Scores.{is_some_of};
ghost use Rattle.ballot_form.specs.declared.limits.TheConstants.{MOST_BALLOTS};
ghost use Rattle.row_program.specs.Bounds.{IsRow};
ghost use Rattle.row_program.specs.declared.limits.TheConstants.{MOST_VARIABLES};
ghost use Rattle.sig_graph.specs.Rows.{one_where};
ghost use Rattle.goal_rows.specs.Cells.{HasFeatures, IsCell, cell_values as values_of};
ghost use Rattle.goal_rows.specs.Elections.{Election};
ghost use Rattle.goal_rows.specs.Nodes.{AreLimits, node_of};
ghost use Rattle.goal_rows.specs.Races.{IsGroundIn, IsSomeGround};
ghost use Rattle.goal_rows.specs.Programs.{IsPointOf, point_cost_of};
ghost use Rattle.dual_bound.specs.CutTest.{AreMultipliers, IsBound};
ghost use Rattle.dual_bound.specs.CellCuts.{above_none as number_above, case_of as case_where, cell_multipliers, classes_in as one_of_class};
ghost use Rattle.dual_bound.specs.CellCuts.{by_row as given_by_row, features_of, given_by, given_each, given_in, has_upper as has_tight_upper};
ghost use Rattle.dual_bound.specs.declared.cell_cuts.Case.TheVariants.{FlowRow, NoRow};
ghost use Rattle.dual_bound.specs.CellCuts.{is_broken as is_broken_at, is_tight as has_one_value, is_tightest as is_tightest_of};
ghost use Rattle.dual_bound.specs.CellCuts.{is_unbounded as is_unbounded_in, same_limit as are_same_limit, terms_at, times_on as times_of};

use crate::cell_rows::first_broken;
use crate::cell_variables::{cell_values, features};
use crate::cells::low_end;
use crate::features::is_same;
use bound_tree::Multipliers;
use goal_rows::parts::Ground;
use goal_rows::program_of;
use mov_base::Memory;
use row_program::{Feature, Limit, Row, TERM_LIMIT, Term};
use std::alloc::Global;

/// Which row the values of a cell break.
#[derive(Clone, Copy)]
pub(crate) enum Case {
    /// A row of the goal.
    GoalRow,
    /// A row of the flow, and none of the goal; whether something that comes to its place has no upper limit and as
    /// much as there are ballots.
    FlowRow(bool),
    /// None.
    NoRow,
}

/// The multipliers of a cell: numbers that cut it at each number, where its values break a row, and else up to what
/// they cost. The node is the goal of `start` with these limits.
pub fn cell_cut(alloc: Global, start: &Ground, limits: &[Limit]) -> Result<Multipliers, Memory>
    requires start { IsSomeGround start.now }
    requires limits { (e : Election) → IsGroundIn e start.now → AreLimits e (node_of start.now limits.now) }
    requires cell { IsCell start.now limits.now }
    ensures each { IfOk result (λ multipliers. multipliers ≡ cell_multipliers start.now limits.now) }
    ensures one_each { IfOk result (AreMultipliers start.now limits.now) }
    // Where the cell's values meet all rows, their cost is the bound.
    ensures cost { IsPointOf start.now limits.now (values_of start.now limits.now) 1 →
        (e : Election) → IsGroundIn e start.now → IfOk result (λ multipliers. IsBound e
        (node_of start.now limits.now) multipliers (point_cost_of start.now (values_of start.now limits.now))) }
    // Where they break a row, one more than there are ballots is.
    ensures beyond { (IsPointOf start.now limits.now (values_of start.now limits.now) 1 → ⊥) →
        (e : Election) → IsGroundIn e start.now → IfOk result (λ multipliers.
        IsBound e (node_of start.now limits.now) multipliers (start.now.ballots + 1)) }
{
    let features = features(alloc, start)?;
    let values = cell_values(alloc, start, limits)?;
    let program = program_of(alloc, start, limits)?;
    let rows = program.rows.as_slice();
    let broken = first_broken(rows, values.as_slice());
    let terms = terms(rows, broken);
    let case = case_of(start, limits, &features, values.as_slice(), broken, terms);
    let mut multipliers = row_multipliers(alloc, start.sums.len(), broken)?;
    add_given(&mut multipliers, limits, case, &features, terms)?;
    Ok(multipliers)
}

/// One multiplier for each of so many rows: 1 for the broken one, and else 0.
fn row_multipliers(
    alloc: Global,
    count: usize,
    broken: Option<usize>,
) -> Result<Multipliers, Memory>
    ensures { IfOk result (λ multipliers.
        multipliers ≡ map (λ r. one_where (is_some_of broken r)) (range_with_len 0 count)) }
{
    let mut multipliers = Multipliers::new(alloc);
    for r in 0..count {
        multipliers.push(is_number(broken, r))?;
    }
    Ok(multipliers)
}

/// 1 where it is this number, and else 0.
fn is_number(broken: Option<usize>, r: usize) -> u64
    ensures value { result ≡ one_where (is_some_of broken r) }
    ensures small { result ≤ 1 }
{
    match broken {
        Some(number) if number == r => 1,
        _ => 0,
    }
}

/// The terms of the broken row, or none.
fn terms(rows: &[Row], broken: Option<usize>) -> &[Term]
    requires { (r : ℕ) → broken ≡ Some r → r < length rows.now }
    ensures { result.now ≡ terms_at rows.now broken }
{
    match broken {
        Some(r) => rows[r].terms.as_slice(),
        None => &[],
    }
}

/// The case, by the number of the broken row and its terms.
fn case_of(
    start: &Ground,
    limits: &[Limit],
    features: &[Feature],
    values: &[u64],
    broken: Option<usize>,
    terms: &[Term],
) -> Case
    requires features { features.now ≡ features_of start.now }
    requires values { values.now ≡ values_of start.now limits.now }
    requires within { All (λ t. t.variable < length values.now) terms.now }
    ensures { result ≡ case_where start.now limits.now broken terms.now }
{
    match broken {
        None => Case::NoRow,
        Some(r) if r < start.sums.len() => Case::GoalRow,
        Some(_) => Case::FlowRow(has_unbounded(start, limits, features, values, terms)),
    }
}

/// Whether something that comes to the place of a row of the flow is unbounded.
fn has_unbounded(
    start: &Ground,
    limits: &[Limit],
    features: &[Feature],
    values: &[u64],
    terms: &[Term],
) -> bool
    requires features { features.now ≡ features_of start.now }
    requires values { values.now ≡ values_of start.now limits.now }
    requires within { All (λ t. t.variable < length values.now) terms.now }
    ensures { result ≡ list_any (is_unbounded_in start.now limits.now) terms.now }
{
    for term in terms {
        if is_unbounded(start, limits, features, values, term) {
            return true;
        }
    }
    false
}

/// Whether the term's variable comes to the row with as many as there are ballots, and no tight upper limit is on it.
fn is_unbounded(
    start: &Ground,
    limits: &[Limit],
    features: &[Feature],
    values: &[u64],
    term: &Term,
) -> bool
    requires features { features.now ≡ features_of start.now }
    requires values { values.now ≡ values_of start.now limits.now }
    requires within { term.now.variable < length values.now }
    ensures { result ≡ is_unbounded_in start.now limits.now term.now }
{
    let v = term.variable as usize;
    term.times > 0 && values[v] == u64::from(start.ballots) && !has_upper(limits, features[v])
}

/// Whether a tight upper limit is on the feature.
fn has_upper(limits: &[Limit], feature: Feature) -> bool
    ensures { result ≡ has_tight_upper limits.now feature }
{
    for limit in limits {
        if limit.at_most && is_same(feature, limit.feature) && is_tight(limits, limit) {
            return true;
        }
    }
    false
}

/// Whether the limit has the one value of its variable.
fn is_tight(limits: &[Limit], limit: &Limit) -> bool
    ensures { result ≡ has_one_value limits.now limit.now }
{
    limit.value == low_end(limits, limit.feature)
}

/// Adds what each limit is given: the tightest ones by the case, the others 0.
fn add_given(
    multipliers: &mut Multipliers,
    limits: &[Limit],
    case: Case,
    features: &[Feature],
    terms: &[Term],
) -> Result<(), Memory>
    requires within { All (λ t. t.variable < length features.now) terms.now }
    requires small { All (λ t. unsigned_abs t.times < TERM_LIMIT) terms.now }
    ensures { OnOk result (multipliers.new
        ≡ multipliers.old ++ given_each limits.now (given_in case features.now terms.now) [] limits.now) }
{
    for (i, limit) in limits.iter().enumerate() {
        let number = if is_tightest(limits, &limits[..i], limit) {
            given(case, features, terms, limit)
        } else {
            0
        };
        multipliers.push(number)?;
    }
    Ok(())
}

/// Whether the limit is the tightest of its kind on its variable: of equal ones, the first. Before it stand these.
fn is_tightest(limits: &[Limit], before: &[Limit], limit: &Limit) -> bool
    ensures { result ≡ is_tightest_of limits.now before.now limit.now }
{
    is_tight(limits, limit) && !has_same(before, limit)
}

/// Whether the limit is one of these.
fn has_same(before: &[Limit], limit: &Limit) -> bool
    ensures { result ≡ list_any (are_same_limit limit.now) before.now }
{
    for other in before {
        if is_same_limit(limit, other) {
            return true;
        }
    }
    false
}

/// Whether the limits are of one kind, on one feature, and have one value.
fn is_same_limit(limit: &Limit, other: &Limit) -> bool
    ensures { result ≡ are_same_limit limit.now other.now }
{
    limit.at_most == other.at_most
        && is_same(limit.feature, other.feature)
        && limit.value == other.value
}

/// What the case gives a limit.
fn given(case: Case, features: &[Feature], terms: &[Term], limit: &Limit) -> u64
    requires within { All (λ t. t.variable < length features.now) terms.now }
    requires small { All (λ t. unsigned_abs t.times < TERM_LIMIT) terms.now }
    ensures value { result ≡ given_in case features.now terms.now limit.now }
    ensures small { result < TERM_LIMIT }
{
    match case {
        Case::GoalRow => by_row(features, terms, limit),
        Case::FlowRow(unbounded) => by_flow_row(unbounded, features, terms, limit),
        Case::NoRow => by_cost(limit),
    }
}

/// What the terms of a row of the flow give a limit; upper limits get nothing where something is unbounded that comes
/// to the row's place, and lower limits of 0 get nothing.
fn by_flow_row(unbounded: bool, features: &[Feature], terms: &[Term], limit: &Limit) -> u64
    requires within { All (λ t. t.variable < length features.now) terms.now }
    requires small { All (λ t. unsigned_abs t.times < TERM_LIMIT) terms.now }
    ensures value { result ≡ given_in (FlowRow unbounded) features.now terms.now limit.now }
    ensures small { result < TERM_LIMIT }
{
    let passed_over = if limit.at_most {
        unbounded
    } else {
        limit.value == 0
    };
    if passed_over {
        0
    } else {
        by_row(features, terms, limit)
    }
}

/// What the terms of a row give a limit.
fn by_row(features: &[Feature], terms: &[Term], limit: &Limit) -> u64
    requires within { All (λ t. t.variable < length features.now) terms.now }
    requires small { All (λ t. unsigned_abs t.times < TERM_LIMIT) terms.now }
    ensures value { result ≡ given_by_row features.now terms.now limit.now }
    ensures small { result < TERM_LIMIT }
{
    by_times(limit, times_on(features, limit.feature, terms))
}

/// What a limit is given where no row is broken: 1 for a lower limit above 0 on a class.
fn by_cost(limit: &Limit) -> u64
    ensures value { result ≡ given_in NoRow [] [] limit.now }
    ensures small { result ≤ 1 }
{
    if limit.at_most || limit.value == 0 {
        0
    } else {
        classes_in(limit.feature)
    }
}

/// What a term gives a limit on its variable: an upper one the term, where that is positive, and a lower one its size,
/// where it is negative.
fn by_times(limit: &Limit, times: i64) -> u64
    requires { unsigned_abs times < TERM_LIMIT }
    ensures value { result ≡ given_by limit.now times }
    ensures small { result < TERM_LIMIT }
{
    above_none(if limit.at_most { times } else { -times })
}

/// How far the number is above 0.
fn above_none(number: i64) -> u64
    requires { unsigned_abs number < TERM_LIMIT }
    ensures value { result ≡ number_above number }
    ensures small { result < TERM_LIMIT }
{
    number.max(0).unsigned_abs()
}

/// What the terms multiply the variable of the feature by; 0 where none is of it.
fn times_on(features: &[Feature], feature: Feature, terms: &[Term]) -> i64
    requires within { All (λ t. t.variable < length features.now) terms.now }
    requires small { All (λ t. unsigned_abs t.times < TERM_LIMIT) terms.now }
    ensures value { result ≡ times_of features.now feature terms.now }
    ensures small { unsigned_abs result < TERM_LIMIT }
{
    for term in terms {
        if is_same(feature, features[term.variable as usize]) {
            return term.times;
        }
    }
    0
}

/// 1 for the feature of a class, 0 for an arc's.
fn classes_in(feature: Feature) -> u64
    ensures value { result ≡ one_of_class feature }
    ensures small { result ≤ 1 }
{
    match feature {
        Feature::From(_) => 1,
        Feature::Arc(_, _) => 0,
    }
}
