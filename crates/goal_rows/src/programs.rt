// The program of a node.
ghost use Rattle.std.specs.Prelude.{◌≡◌, replicate, ◌≤◌, ◌<◌, ◌+◌, ◌-◌, ◌++◌, ◌+ℤ◌, ◌-ℤ◌, ◌≤ℤ◌, ℕ, pos, [], ◌∷◌, All, IfOk, OnOk, length, map, unsigned_abs};
ghost use Rattle.std.specs.List.{flat_map, range_with_len};
ghost use Rattle.ballot_form.specs.declared.limits.TheConstants.{MOST_BALLOTS};
ghost use Rattle.mov_base.specs.Sums.{add_up};
ghost use Rattle.row_program.specs.Bounds.{IsRow};
ghost use Rattle.row_program.specs.declared.limits.TheConstants.{MOST_VARIABLES, TERM_LIMIT};
ghost use Rattle.sig_graph.specs.Paths.{arcs_of};
ghost use Rattle.goal_rows.specs.Elections.{Election};
ghost use Rattle.goal_rows.specs.Nodes.{AreLimits, node_of};
ghost use Rattle.goal_rows.specs.Programs.{arcs_under as arcs_under_goal, class_row as row_of_class, class_rows_of, costs_of};
ghost use Rattle.goal_rows.specs.Programs.{flow_rows_of, flow_weighings as weighings_of_flow, goal_rows_of, limit_rows_of, program_rows};
ghost use Rattle.goal_rows.specs.Programs.{arc_weight as weight_of_arc, key_weight as weight_of_key, row_by, terms_of, value_before as value_of_limit, weighings_of, weights_by};
ghost use Rattle.goal_rows.specs.Races.{IsGroundIn, IsSomeGround};
ghost use Rattle.goal_rows.specs.Suffixes.{others};
ghost use Rattle.goal_rows.specs.declared.weighings.Weighing.TheVariants.{Held, Leaving, Level, Over, Through};

use crate::goals::Goal;
use crate::parts::{Ground, SumList};
use crate::weighings::{Weighing, arc_weight, is_some, key_weight};
use ballot_form::{Cand, MOST_BALLOTS};
use mov_base::Memory;
use row_program::{
    CostList, Limit, MOST_VARIABLES, Program, Row, RowList, TERM_LIMIT, Term, TermList,
};
use signature_class::Classes;
use std::alloc::Global;

/// The most classes of ballots of a node that has a program.
pub const MOST_CLASSES: usize = 4_096;

/// The program of the node, which is the goal of `start` with these limits. Its variables are, for each class, how many
/// ballots of it are replaced, and under a suffix then for each arc how many new ballots' signatures use it; those of
/// the classes cost 1, those of the arcs 0. Its rows are those of the goal and those of the limits, which get
/// multipliers, and then one for each class, and under a suffix one for the start and one for each place but the last.
pub fn program_of(alloc: Global, start: &Ground, limits: &[Limit]) -> Result<Program, Memory>
    requires start { IsSomeGround start.now }
    requires limits { (e : Election) → IsGroundIn e start.now → AreLimits e (node_of start.now limits.now) }
    requires few { length start.now.classes ≤ MOST_CLASSES }
    ensures costs { IfOk result (λ program.
        program.costs ≡ costs_of start.now.classes (arcs_under_goal start.now.goal)) }
    ensures rows { IfOk result (λ program. program.rows ≡ program_rows start.now limits.now) }
    ensures kept { IfOk result (λ program. program.kept ≡ length start.now.sums + length limits.now) }
{
    let arcs = arcs_under(alloc, start)?;
    let costs = costs(alloc, &start.classes, &arcs)?;
    let mut rows = RowList::new(alloc);
    add_goal_rows(alloc, &mut rows, start, &arcs)?;
    add_limit_rows(alloc, &mut rows, start, &arcs, limits)?;
    add_class_rows(alloc, &mut rows, &start.classes, arcs.len())?;
    add_flow_rows(alloc, &mut rows, start, &arcs)?;
    Ok(Program {
        costs,
        rows,
        kept: start.sums.len() + limits.len(),
    })
}

/// Adds the rows of the goal.
fn add_goal_rows(
    alloc: Global,
    rows: &mut RowList,
    start: &Ground,
    arcs: &[(u8, u8)],
) -> Result<(), Memory>
    requires start { IsSomeGround start.now }
    requires few { length start.now.classes + length arcs.now ≤ MOST_VARIABLES }
    requires arcs { arcs.now ≡ arcs_under_goal start.now.goal }
    requires good { All (IsRow (length start.now.classes + length arcs.now)) rows.old }
    ensures rows { OnOk result (rows.new ≡ rows.old ++ goal_rows_of start.now) }
    ensures good { OnOk result (All (IsRow (length start.now.classes + length arcs.now)) rows.new) }
{
    let weighings = weighings(alloc, start)?;
    for r in 0..start.sums.len() {
        let constant = start.sums.as_slice()[r];
        rows.push(row_of(alloc, constant, weighings[r], &start.classes, arcs)?)?;
    }
    Ok(())
}

/// Adds the rows of the limits.
fn add_limit_rows(
    alloc: Global,
    rows: &mut RowList,
    start: &Ground,
    arcs: &[(u8, u8)],
    limits: &[Limit],
) -> Result<(), Memory>
    requires small { All (λ limit. limit.value ≤ MOST_BALLOTS) limits.now }
    requires few { length start.now.classes + length arcs.now ≤ MOST_VARIABLES }
    requires arcs { arcs.now ≡ arcs_under_goal start.now.goal }
    requires good { All (IsRow (length start.now.classes + length arcs.now)) rows.old }
    ensures rows { OnOk result (rows.new ≡ rows.old ++ limit_rows_of start.now limits.now) }
    ensures good { OnOk result (All (IsRow (length start.now.classes + length arcs.now)) rows.new) }
{
    for limit in limits {
        let constant = value_before(limit);
        rows.push(row_of(
            alloc,
            constant,
            Weighing::Limited(*limit),
            &start.classes,
            arcs,
        )?)?;
    }
    Ok(())
}

/// The value of a limit before any replacement.
fn value_before(limit: &Limit) -> i64
    requires { limit.now.value ≤ MOST_BALLOTS }
    ensures value { result ≡ value_of_limit limit.now }
    ensures small { unsigned_abs result < TERM_LIMIT }
{
    let value = i64::from(limit.value);
    if limit.at_most { value } else { -value }
}

/// Adds the rows of the classes, beside whose variables there are so many others.
fn add_class_rows(
    alloc: Global,
    rows: &mut RowList,
    classes: &Classes,
    others: usize,
) -> Result<(), Memory>
    requires small { add_up (λ c. c.1) classes.now ≤ MOST_BALLOTS }
    requires few { length classes.now + others ≤ MOST_VARIABLES }
    requires good { All (IsRow (length classes.now + others)) rows.old }
    ensures rows { OnOk result (rows.new ≡ rows.old ++ class_rows_of classes.now) }
    ensures good { OnOk result (All (IsRow (length classes.now + others)) rows.new) }
{
    for k in 0..classes.len() {
        rows.push(class_row(alloc, k as u32, classes.count(k))?)?;
    }
    Ok(())
}

/// The row of a class: its count less its variable.
fn class_row(alloc: Global, variable: u32, count: u32) -> Result<Row, Memory>
    requires { count ≤ MOST_BALLOTS }
    ensures value { IfOk result (λ row. row ≡ row_of_class variable count) }
    ensures row { (n : ℕ) → variable < n → IfOk result (IsRow n) }
{
    let mut terms = TermList::new(alloc);
    terms.push(Term {
        variable,
        times: -1,
    })?;
    Ok(Row {
        constant: i64::from(count),
        terms,
    })
}

/// Adds the rows of the flow.
fn add_flow_rows(
    alloc: Global,
    rows: &mut RowList,
    start: &Ground,
    arcs: &[(u8, u8)],
) -> Result<(), Memory>
    requires start { IsSomeGround start.now }
    requires few { length start.now.classes + length arcs.now ≤ MOST_VARIABLES }
    requires arcs { arcs.now ≡ arcs_under_goal start.now.goal }
    requires good { All (IsRow (length start.now.classes + length arcs.now)) rows.old }
    ensures rows { OnOk result (rows.new ≡ rows.old ++ flow_rows_of start.now) }
    ensures good { OnOk result (All (IsRow (length start.now.classes + length arcs.now)) rows.new) }
{
    let weighings = flow_weighings(alloc, start)?;
    for weighing in &weighings {
        rows.push(row_of(alloc, 0, *weighing, &start.classes, arcs)?)?;
    }
    Ok(())
}

/// How the rows of the flow count.
fn flow_weighings(alloc: Global, start: &Ground) -> Result<Vec<Weighing>, Memory>
    requires { IsSomeGround start.now }
    ensures { IfOk result (λ weighings. weighings.items ≡ weighings_of_flow start.now.goal) }
{
    match &start.goal {
        Goal::Suffix(suffix) => through_weighings(alloc, suffix.len() as u8),
        Goal::Root => Ok(Vec::new(alloc)),
        Goal::Pair(_, _) => Ok(Vec::new(alloc)),
        Goal::Cover(_) => Ok(Vec::new(alloc)),
    }
}

/// How the rows of the start and of each of m places but the last count.
fn through_weighings(alloc: Global, m: u8) -> Result<Vec<Weighing>, Memory>
    ensures { IfOk result (λ weighings.
        weighings.items ≡ Leaving ∷ map (λ p. Through p) (range_with_len 1 (m - 1))) }
{
    let mut weighings = Vec::new(alloc);
    weighings.push(Weighing::Leaving)?;
    for before in 0..m.saturating_sub(1) {
        weighings.push(Weighing::Through(before + 1))?;
    }
    Ok(weighings)
}

/// The row with this constant that counts the variables so: one for each class, and then one for each arc.
fn row_of(
    alloc: Global,
    constant: i64,
    weighing: Weighing,
    classes: &Classes,
    arcs: &[(u8, u8)],
) -> Result<Row, Memory>
    requires small { unsigned_abs constant < TERM_LIMIT }
    requires few { length classes.now + length arcs.now ≤ MOST_VARIABLES }
    ensures value { IfOk result (λ row. row ≡ row_by constant (weights_by weighing classes.now arcs.now)) }
    ensures row { IfOk result (IsRow (length classes.now + length arcs.now)) }
{
    let mut weights = class_weights(alloc, weighing, classes)?;
    add_arc_weights(&mut weights, weighing, arcs)?;
    let terms = terms(alloc, weights.as_slice())?;
    Ok(Row { constant, terms })
}

/// What the row counts for each class.
fn class_weights(alloc: Global, weighing: Weighing, classes: &Classes) -> Result<SumList, Memory>
    ensures value { IfOk result (λ weights. weights ≡ map (λ c. weight_of_key weighing c.0) classes.now) }
    ensures small { IfOk result (All (λ w. unsigned_abs w < TERM_LIMIT)) }
{
    let mut weights = SumList::new(alloc);
    for k in 0..classes.len() {
        weights.push(key_weight(weighing, classes.key(k)))?;
    }
    Ok(weights)
}

/// Adds what the row counts for each arc.
fn add_arc_weights(
    weights: &mut SumList,
    weighing: Weighing,
    arcs: &[(u8, u8)],
) -> Result<(), Memory>
    requires { All (λ w. unsigned_abs w < TERM_LIMIT) weights.old }
    ensures value { OnOk result (weights.new ≡ weights.old ++ map (weight_of_arc weighing) arcs.now) }
    ensures small { All (λ w. unsigned_abs w < TERM_LIMIT) weights.new }
{
    for arc in arcs {
        weights.push(arc_weight(weighing, arc.0, arc.1))?;
    }
    Ok(())
}

/// The terms of the variables that count something.
fn terms(alloc: Global, weights: &[i64]) -> Result<TermList, Memory>
    requires few { length weights.now ≤ MOST_VARIABLES }
    requires small { All (λ w. unsigned_abs w < TERM_LIMIT) weights.now }
    ensures { IfOk result (λ terms. terms ≡ terms_of weights.now) }
{
    let mut terms = TermList::new(alloc);
    for (v, weight) in weights.iter().enumerate() {
        if is_some(*weight) {
            terms.push(Term {
                variable: v as u32,
                times: *weight,
            })?;
        }
    }
    Ok(terms)
}

/// The variables' costs: 1 for each class, and then 0 for each arc.
fn costs(alloc: Global, classes: &Classes, arcs: &[(u8, u8)]) -> Result<CostList, Memory>
    ensures { IfOk result (λ costs. costs ≡ costs_of classes.now arcs.now) }
{
    let mut costs = CostList::new(alloc);
    add_times(&mut costs, 1, classes.len())?;
    add_times(&mut costs, 0, arcs.len())?;
    Ok(costs)
}

/// Adds the cost so many times.
fn add_times(costs: &mut CostList, cost: u8, times: usize) -> Result<(), Memory>
    ensures { OnOk result (costs.new ≡ costs.old ++ replicate times cost) }
{
    for _ in 0..times {
        costs.push(cost)?;
    }
    Ok(())
}

/// The arcs of the goal's graph.
fn arcs_under(alloc: Global, start: &Ground) -> Result<Vec<(u8, u8)>, Memory>
    requires { IsSomeGround start.now }
    ensures { IfOk result (λ arcs. arcs.items ≡ arcs_under_goal start.now.goal) }
{
    match &start.goal {
        Goal::Suffix(suffix) => arcs_among(alloc, suffix.len() as u8),
        Goal::Root => Ok(Vec::new(alloc)),
        Goal::Pair(_, _) => Ok(Vec::new(alloc)),
        Goal::Cover(_) => Ok(Vec::new(alloc)),
    }
}

/// The arcs of the graph of m places.
fn arcs_among(alloc: Global, m: u8) -> Result<Vec<(u8, u8)>, Memory>
    ensures { IfOk result (λ arcs. arcs.items ≡ arcs_of m) }
{
    let mut arcs = Vec::new(alloc);
    for u in 0..m {
        add_arcs_out(&mut arcs, m, u)?;
    }
    Ok(arcs)
}

/// Adds the arcs that begin at the place.
fn add_arcs_out(arcs: &mut Vec<(u8, u8)>, m: u8, u: u8) -> Result<(), Memory>
    requires { u < m }
    ensures { OnOk result (arcs.new.items ≡ arcs.old.items ++ map (λ x. (u, x)) (range_with_len (u + 1) (m - u))) }
{
    for before in u..m {
        arcs.push((u, before + 1))?;
    }
    Ok(())
}

/// How the goal's rows count, in their order.
fn weighings(alloc: Global, start: &Ground) -> Result<Vec<Weighing>, Memory>
    requires { IsSomeGround start.now }
    ensures { IfOk result (λ weighings. weighings.items ≡ weighings_of start.now) }
{
    match &start.goal {
        Goal::Root => Ok(Vec::new(alloc)),
        Goal::Suffix(suffix) => suffix_weighings(alloc, suffix.len() as u8),
        Goal::Pair(_, _) => level_weighing(alloc, start.lone),
        Goal::Cover(x) => cover_weighings(alloc, start.sums.len() as u8 + 1, *x),
    }
}

/// How the row of a pair counts whose gainer alone has this weight.
fn level_weighing(alloc: Global, lone: i64) -> Result<Vec<Weighing>, Memory>
    requires low { pos 0 ≤ℤ lone }
    requires high { lone ≤ℤ pos 1024 }
    ensures { IfOk result (λ weighings. weighings.items ≡ Level (unsigned_abs (lone +ℤ pos 1024)) ∷ []) }
{
    let mut weighings = Vec::new(alloc);
    weighings.push(Weighing::Level((lone + 1024) as u16))?;
    Ok(weighings)
}

/// How the rows of the cover of `x`, of c candidates, count.
fn cover_weighings(alloc: Global, c: u8, x: Cand) -> Result<Vec<Weighing>, Memory>
    ensures { IfOk result (λ weighings. weighings.items ≡ map (λ j. Over x j) (others c x)) }
{
    let mut weighings = Vec::new(alloc);
    for j in 0..c {
        if j != x {
            weighings.push(Weighing::Over(x, j))?;
        }
    }
    Ok(weighings)
}

/// How the rows of a suffix of m candidates count.
fn suffix_weighings(alloc: Global, m: u8) -> Result<Vec<Weighing>, Memory>
    ensures { IfOk result (λ weighings. weighings.items
        ≡ flat_map (λ i. map (λ j. Held i j) (range_with_len (i + 1) (m - (i + 1)))) (range_with_len 0 m)) }
{
    let mut weighings = Vec::new(alloc);
    for i in 0..m {
        add_round(&mut weighings, m, i)?;
    }
    Ok(weighings)
}

/// Adds how the rows count that compare the candidate at place i with each later one.
fn add_round(weighings: &mut Vec<Weighing>, m: u8, i: u8) -> Result<(), Memory>
    requires { i < m }
    ensures { OnOk result (weighings.new.items
        ≡ weighings.old.items ++ map (λ j. Held i j) (range_with_len (i + 1) (m - (i + 1)))) }
{
    for j in i + 1..m {
        weighings.push(Weighing::Held(i, j))?;
    }
    Ok(())
}
