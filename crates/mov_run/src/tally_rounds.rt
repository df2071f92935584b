// The lines of the rounds.
ghost use Rattle.std.specs.Prelude.{◌≡◌, ◌≤◌, ◌*◌, ◌++◌, ◌∷◌, [], if◌then◌else◌, OnOk, codes, decimal, length, slice_index};
ghost use Rattle.std.specs.List.{join_with_byte};
ghost use Rattle.ballot_form.specs.declared.rule.Rule.TheVariants.{Irv};
ghost use Rattle.irv_count.specs.Orders.{AreHeld, IsOrder, stands};
ghost use Rattle.mov_run.specs.Tally.{AddsCount, for_each, held_field, round_text, rounds_text};

use crate::tally::push_winner;
use ballot_form::{Cand, Roll};
use irv_count::{all_of, count_rounds, stands_in, without};
use mov_base::Memory;
use std::alloc::Global;
use text_lines::written::push_number;

/// Adds who goes out in each round and what everybody holds, and who is left.
pub(crate) fn push_irv(alloc: Global, out: &mut Vec<u8>, roll: &Roll) -> Result<(), Memory>
    ensures { OnOk result (AddsCount Irv roll.now out.old.items out.new.items) }
{
    let c = usize::from(roll.candidates());
    let mut held = vec![in alloc; 0u32; c * c]?;
    let order = count_rounds(alloc, roll, held.as_mut_slice())?;
    push_rounds(out, roll, order.as_slice(), held.as_slice())?;
    push_winner(out, order.as_slice()[c - 1])
}

/// Adds a line for each round, till one is left. Each round has a row in `held`.
fn push_rounds(out: &mut Vec<u8>, roll: &Roll, order: &[Cand], held: &[u32]) -> Result<(), Memory>
    requires order { IsOrder roll.now.c order.now }
    requires size { length held.now ≡ roll.now.c * roll.now.c }
    requires held { AreHeld roll.now order.now held.now }
    ensures { OnOk result (out.new.items ≡ out.old.items ++ rounds_text roll.now order.now) }
{
    let c = usize::from(roll.candidates());
    let mut standing = all_of(roll.candidates());
    for i in 0..roll.candidates() - 1 {
        let row = usize::from(i) * c;
        let gone = order[usize::from(i)];
        push_round(out, standing, &held[row..row + c], i, gone)?;
        standing = without(standing, gone);
    }
    Ok(())
}

/// Adds the line of the round with the number `i + 1`, in which `gone` goes out of the set, and everybody holds what is
/// counted.
fn push_round(
    out: &mut Vec<u8>,
    standing: u64,
    counts: &[u32],
    i: u8,
    gone: Cand,
) -> Result<(), Memory>
    requires { length counts.now ≤ 12 }
    ensures { OnOk result (out.new.items ≡ out.old.items
        ++ round_text (length counts.now) (stands standing) (λ x. slice_index counts.now x) i gone) }
{
    push_gone(out, u64::from(i) + 1, u64::from(gone))?;
    push_held(out, standing, counts)?;
    out.push(b'\n')?;
    Ok(())
}

/// Adds the first words of the line of a round, in which `gone` goes out.
fn push_gone(out: &mut Vec<u8>, round: u64, gone: u64) -> Result<(), Memory>
    ensures { OnOk result (out.new.items ≡ out.old.items
        ++ join_with_byte 32 (codes "round" ∷ decimal round ∷ codes "out" ∷ decimal gone ∷ codes "held" ∷ [])) }
{
    out.extend_from_slice(b"round")?;
    push_number(out, round)?;
    out.extend_from_slice(b" out")?;
    push_number(out, gone)?;
    out.extend_from_slice(b" held")?;
    Ok(())
}

/// Adds what each candidate holds, and a dash for one that is out.
fn push_held(out: &mut Vec<u8>, standing: u64, counts: &[u32]) -> Result<(), Memory>
    requires { length counts.now ≤ 12 }
    ensures { OnOk result (out.new.items ≡ out.old.items
        ++ for_each 0 (length counts.now) (λ x. 32 ∷ held_field (stands standing) (λ y. slice_index counts.now y) x)) }
{
    for x in 0..counts.len() as u8 {
        push_field(out, stands_in(standing, x), counts[x as usize])?;
    }
    Ok(())
}

/// Adds what a candidate holds, or a dash where it is out.
fn push_field(out: &mut Vec<u8>, standing: bool, held: u32) -> Result<(), Memory>
    ensures { OnOk result (out.new.items ≡ out.old.items ++ 32 ∷ (if standing then decimal held else codes "-")) }
{
    if standing {
        push_number(out, u64::from(held))
    } else {
        out.extend_from_slice(b" -")?;
        Ok(())
    }
}
