//! Sums, least and greatest values (F&O 3.1, section 14.4).
ghost use Rattle.std.specs.Prelude.{◌≡◌, ◌&&◌, pos};
ghost use Rattle.xq_atoms.specs.Atom.{Integer, atomic_of, judged_of};
ghost use Rattle.xq_atoms.specs.Compare as Compare;
ghost use Rattle.xq_meaning.specs.Arguments as Arguments;
ghost use Rattle.xq_meaning.specs.Functions as Functions;
ghost use Rattle.xq_functions.specs.Answers.{GivesItems, atomics};
ghost use Rattle.xq_functions.specs.Judgements.{judged_as};
ghost use Rattle.xq_functions.specs.private.Running.{is_better as is_better_lem};

use crate::results::one;
use std::alloc::Global;
use xq_atoms::{Atom, Code, CompOp, Fault, add, compare_value};
use xq_trees::Items;

/// The sum of numbers, 0 of none (fn:sum). All atoms are judged before the first is added:
/// prof:DOUBLE for an untyped value, FORG0006 for a string or a boolean. FOAR0002 out of range.
pub fn sum(alloc: Global, atoms: &[Atom]) -> Result<Items, Fault>
    ensures { GivesItems (Functions.sum (atomics atoms.now)) result }
{
    judge_summands(atoms)?;
    Ok(one(alloc, total(atoms)?)?)
}

/// Judges whether all atoms can be added.
fn judge_summands(atoms: &[Atom]) -> Result<(), Code>
    ensures { judged_as (λ _. atomics atoms.now) result
        ≡ Arguments.each Functions.summand (atomics atoms.now) }
{
    for atom in atoms {
        judge_summand(atom)?;
    }
    Ok(())
}

/// Judges whether the atom is a number.
fn judge_summand(atom: &Atom) -> Result<(), Code>
    ensures { judged_as (λ _. atomic_of atom.now) result
        ≡ Functions.summand (atomic_of atom.now) }
{
    match atom {
        Atom::Int(_) | Atom::Dec(_) => Ok(()),
        Atom::Untyped(_) => Err(Code::ProfDouble),
        Atom::Str(_) | Atom::Bool(_) => Err(Code::FORG0006),
    }
}

/// The atoms added to 0 from the first to the last.
fn total(atoms: &[Atom]) -> Result<Atom, Code>
    ensures { judged_of result ≡ Functions.added (Integer (pos 0)) (atomics atoms.now) }
{
    let mut total = Atom::Int(0);
    for atom in atoms {
        total = add(&total, atom)?;
    }
    Ok(total)
}

/// The first of the least atoms, as it is, or nothing of none (fn:min). All are judged first:
/// prof:DOUBLE for an untyped value, FORG0006 for another kind than the first one's.
pub fn min(alloc: Global, atoms: &[Atom]) -> Result<Items, Fault>
    ensures { GivesItems (Functions.extreme Functions.is_less (atomics atoms.now)) result }
{
    extreme(alloc, CompOp::Lt, atoms)
}

/// The first of the greatest atoms, as it is, or nothing of none (fn:max), judged as for `min`.
pub fn max(alloc: Global, atoms: &[Atom]) -> Result<Items, Fault>
    ensures { GivesItems (Functions.extreme Functions.is_greater (atomics atoms.now)) result }
{
    extreme(alloc, CompOp::Gt, atoms)
}

/// The first atom that no other one is better than.
fn extreme(alloc: Global, better: CompOp, atoms: &[Atom]) -> Result<Items, Fault>
    ensures { GivesItems
        (Functions.extreme (is_better_lem better) (atomics atoms.now)) result }
{
    let Some((first, others)) = atoms.split_first() else {
        return Ok(Vec::new(alloc));
    };
    judge_beside(first, first)?;
    let mut best = first;
    for atom in others {
        judge_beside(first, atom)?;
        if is_better(better, atom, best) {
            best = atom;
        }
    }
    Ok(one(alloc, best.try_clone(alloc)?)?)
}

/// Judges whether the atom is of the first one's kind.
fn judge_beside(first: &Atom, atom: &Atom) -> Result<(), Code>
    ensures { judged_as (λ _. atomic_of atom.now) result
        ≡ Functions.comparable (atomic_of first.now) (atomic_of atom.now) }
{
    match atom {
        Atom::Untyped(_) => Err(Code::ProfDouble),
        Atom::Int(_) | Atom::Dec(_) | Atom::Str(_) | Atom::Bool(_) => {
            match compare_value(CompOp::Eq, first, atom) {
                Ok(_) => Ok(()),
                Err(_) => Err(Code::FORG0006),
            }
        }
    }
}

/// Whether two atoms are of one kind, and the first is better.
fn is_better(better: CompOp, atom: &Atom, best: &Atom) -> bool
    ensures { result ≡ (Compare.of_one_kind
        (Compare.key (atomic_of atom.now)) (Compare.key (atomic_of best.now))
        && is_better_lem better (atomic_of atom.now) (atomic_of best.now)) }
{
    compare_value(better, atom, best).unwrap_or(false)
}
