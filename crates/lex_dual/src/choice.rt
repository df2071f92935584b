// What leaves and what enters.
ghost use Rattle.std.specs.Prelude.{◌≡◌, ◌≢◌, ◌<◌, ◌≤◌, ◌+◌, ℕ, ℤ, false, pos, ◌<ℤ◌, length, slice_index_or, take, unsigned_abs, vec_capacity, IfSome, IfOk};
ghost use Rattle.std.specs.List.{All};
ghost use lib.IntN.{neg_ℤ};
ghost use Rattle.row_program.specs.Forms.{entry};
ghost use Rattle.row_program.specs.Method.{leaving, entering, candidates, column};
ghost use Rattle.pivot_form.specs.Invariant.{IsForm};
ghost use Rattle.lex_dual.specs.Choices as spec;
ghost use Rattle.lex_dual.specs.Choices.{places_of, IsFirstNegative, IsCandidate, IsOutside, coefficient_in, entering_among};

use exact_num::{WIDE, cross};
use mov_base::Memory;
use pivot_form::{Equation, Form};

/// The row of the first negative basic variable, in the order of variables: one pass over the rows.
pub(crate) fn leaving(form: &Form) -> Option<usize>
    requires { IsForm form.now }
    ensures value { result ≡ leaving form.now }
    ensures first { IsFirstNegative form.now (length form.now.rows) result }
{
    let mut found = None;
    for row in 0..form.row_count() {
        found = earlier(form, found, row);
    }
    found
}

/// The row itself, where it is negative and its variable comes before that of the row found so far, and else the
/// latter.
fn earlier(form: &Form, found: Option<usize>, row: usize) -> Option<usize>
    requires row { row < length form.now.rows }
    requires found { IsFirstNegative form.now row found }
    ensures { IsFirstNegative form.now (row + 1) result }
{
    if form.right(row) >= 0 {
        return found;
    }
    match found {
        Some(best) if form.basic(best) < form.basic(row) => found,
        _ => Some(row),
    }
}

/// The buffer, with room for the candidates of any row of the form.
pub(crate) fn candidate_buffer(mut buffer: Vec<usize>, form: &Form) -> Result<Vec<usize>, Memory>
    ensures { IfOk result (λ buffer. form.now.variables ≤ vec_capacity buffer) }
{
    buffer.clear();
    buffer.reserve(form.variable_count())?;
    Ok(buffer)
}

/// The first of the least candidates of the row. All are written into the buffer, and thinned out there, variable by
/// variable, until one is left.
pub(crate) fn entering(
    form: &Form,
    places: &[Option<usize>],
    row: usize,
    buffer: &mut Vec<usize>,
) -> Option<usize>
    requires form { IsForm form.now }
    requires places { places.now ≡ places_of form.now }
    requires row { row < length form.now.rows }
    requires room { form.now.variables ≤ vec_capacity buffer.old }
    ensures value { result ≡ entering form.now row }
    ensures candidate { IfSome result (λ j. (j < form.now.variables) × (entry form.now row j <ℤ pos 0)) }
    ensures room { form.now.variables ≤ vec_capacity buffer.new }
{
    write_candidates(form, row, buffer);
    for v in 0..places.len() {
        if buffer.len() < 2 {
            break;
        }
        let kept = thin_out(form, places, row, v, buffer.as_mut_slice());
        buffer.truncate(kept);
    }
    buffer.first().copied()
}

/// Writes the candidates of the row into the buffer, in place of what it held: one pass over the columns.
fn write_candidates(form: &Form, row: usize, buffer: &mut Vec<usize>)
    requires row { row < length form.now.rows }
    requires room { form.now.variables ≤ vec_capacity buffer.old }
    ensures value { buffer.new.items ≡ candidates form.now row }
    ensures all { All (IsCandidate form.now row) buffer.new.items }
    ensures room { form.now.variables ≤ vec_capacity buffer.new }
{
    buffer.clear();
    let leaving = form.equation(row);
    for j in 0..form.variable_count() {
        if leaving.entry(j) < 0 {
            buffer.push(j).unwrap();
        }
    }
}

/// Moves those candidates to the front whose coefficient of the variable v over their own is least, in their order, and
/// counts them: one pass.
fn thin_out(
    form: &Form,
    places: &[Option<usize>],
    row: usize,
    v: usize,
    left: &mut [usize],
) -> usize
    requires form { IsForm form.now }
    requires places { places.now ≡ places_of form.now }
    requires row { row < length form.now.rows }
    requires v { v < length places.now }
    requires some { 0 < length left.old }
    requires all { All (IsCandidate form.now row) left.old }
    ensures value { entering_among form.now row (v + 1) (take result left.new)
        ≡ entering_among form.now row v left.old }
    ensures all { All (IsCandidate form.now row) (take result left.new) }
{
    if !tells_apart(form, places, v, left) {
        return left.len();
    }
    let leaving = form.equation(row);
    let own = equation_of(form, places, v);
    let mut least = quotient_at(&leaving, &own, v, left[0]);
    let mut kept = 1;
    for i in 1..left.len() {
        let candidate = left[i];
        let quotient = quotient_at(&leaving, &own, v, candidate);
        let difference = cross(quotient.num, least.den, least.num, quotient.den);
        if difference < 0 {
            least = quotient;
            left[0] = candidate;
            kept = 1;
        } else if difference == 0 {
            left[kept] = candidate;
            kept += 1;
        }
    }
    kept
}

/// Whether the variable v may tell these candidates apart: not where its coefficient in each of them is 0.
fn tells_apart(form: &Form, places: &[Option<usize>], v: usize, left: &[usize]) -> bool
    requires form { IsForm form.now }
    requires places { places.now ≡ places_of form.now }
    requires v { v < length places.now }
    requires nonbasic { All (IsOutside form.now) left.now }
    ensures { result ≡ false → All (λ j. column form.now j v ≡ pos 0) left.now }
{
    match only_column(form, places, v) {
        Some(only) => left.contains(&only),
        None => true,
    }
}

/// The one nonbasic variable in which the variable v may have another coefficient than 0, where that is told at once.
fn only_column(form: &Form, places: &[Option<usize>], v: usize) -> Option<usize>
    requires form { IsForm form.now }
    requires places { places.now ≡ places_of form.now }
    requires v { v < length places.now }
    ensures { IfSome result (λ only. (j : ℕ) → IsOutside form.now j → j ≢ only → column form.now j v ≡ pos 0) }
{
    match places[v] {
        Some(row) => form.lone(row),
        None => Some(v),
    }
}

/// A variable's coefficient in a candidate, and the candidate's own in the row, which divides it.
#[derive(Clone, Copy, Debug)]
struct Quotient {
    num: i64,
    den: i64,
}

/// The equation of the variable v, where it is basic.
fn equation_of<'a>(form: &'a Form, places: &[Option<usize>], v: usize) -> Option<Equation<'a>>
    requires form { IsForm form.now }
    requires places { places.now ≡ places_of form.now }
    requires v { v < length places.now }
    ensures value { result ≡ spec.equation_of form.now v }
    ensures wide { IfSome result (λ row. length row ≡ form.now.variables + 1) }
{
    match places[v] {
        Some(row) => Some(form.equation(row)),
        None => None,
    }
}

/// The coefficient of the variable v in the candidate j, and that of j in the leaving variable's equation.
fn quotient_at(leaving: &Equation<'_>, own: &Option<Equation<'_>>, v: usize, j: usize) -> Quotient
    requires inside { j + 1 < length leaving.now }
    requires own { IfSome own.now (λ row. j + 1 < length row) }
    requires candidate { slice_index_or leaving.now j (pos 0) <ℤ pos 0 }
    ensures num { result.num ≡ coefficient_in own.now v j }
    ensures den { result.den ≡ neg_ℤ (slice_index_or leaving.now j (pos 0)) }
    ensures positive { pos 0 <ℤ result.den }
    ensures small_num { unsigned_abs result.num < WIDE }
    ensures small_den { unsigned_abs result.den < WIDE }
{
    Quotient {
        num: coefficient(own, v, j),
        den: opposite(leaving.entry(j)),
    }
}

/// The coefficient of the variable v in the variable j, by the equation of v, times the basic entry there; where v has no
/// equation, it is nonbasic.
fn coefficient(own: &Option<Equation<'_>>, v: usize, j: usize) -> i64
    requires own { IfSome own.now (λ row. j + 1 < length row) }
    ensures value { result ≡ coefficient_in own.now v j }
    ensures small { unsigned_abs result < WIDE }
{
    match own {
        Some(row) => opposite(row.entry(j)),
        None if v == j => 1,
        None => 0,
    }
}

/// The number with the other sign.
fn opposite(x: i64) -> i64
    requires { unsigned_abs x < WIDE }
    ensures { result ≡ neg_ℤ x }
{
    -x
}
