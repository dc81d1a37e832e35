//! Plans of literals, sequences, conditionals and constructors, form by form: a document that is
//! written out has a part for each of its nodes, and no normal form of these is made on the way.
ghost use Rattle.std.specs.Prelude.{◌≡◌, [], IfErr, IfOk};
ghost use Rattle.xq_atoms.specs.declared.refusals.Want.TheVariants.{Memory};
ghost use Rattle.xq_meaning.specs.declared.plans.Plan.TheVariants as plan_of;
ghost use Rattle.xq_meaning.specs.Same.{IsPlan};
ghost use Rattle.xq_plan.specs.Scans.{ScansDocument};
ghost use Rattle.xq_queries.specs.Scans.{ScansItsDocument};
ghost use Rattle.xq_queries.specs.private.Direct.{AreDirect, IsDirect, NamesDirectly};

use sqlite_items::{Boxed, Items};
use std::alloc::Global;
use xq_atoms::Want;
use xq_expressions::{ConstructorName, Expr};
use xq_meaning::{Core, Plan};
use xq_normal::normalise;
use xq_optimise::optimise;
use xq_plan::plan;

/// A plan that gives what the expression gives where no variable is bound. That of a path which
/// starts with `doc` of a literal is the document and as many scans.
#[cycle(direct)]
pub fn direct(alloc: Global, expr: Expr) -> Result<Plan, Want>
    ensures same { IfOk result (λ plan. IsDirect expr plan) }
    ensures scans { IfOk result (λ plan. ScansItsDocument expr plan) }
    ensures want { IfErr result (λ want. want ≡ Memory) }
{
    match expr {
        Expr::Int(value) => Ok(Plan::Int(value)),
        Expr::Dec(value) => Ok(Plan::Dec(value)),
        Expr::Str(value) => Ok(Plan::Str(value)),
        Expr::Sequence(parts) => Ok(Plan::Sequence(each(alloc, parts)?)),
        Expr::If(test, positive, negative) => {
            let test = boxed(alloc, test)?;
            let positive = boxed(alloc, positive)?;
            let negative = boxed(alloc, negative)?;
            Ok(conditional(test, positive, negative))
        }
        Expr::Named(node, name, content) => {
            let name = constructor_name(alloc, name)?;
            Ok(Plan::Named(node, name, boxed(alloc, content)?))
        }
        Expr::Unnamed(node, content) => Ok(Plan::Unnamed(node, boxed(alloc, content)?)),
        expr => by_normal_form(alloc, &expr),
    }
}

/// A test and two branches.
fn conditional(test: Boxed<Plan>, positive: Boxed<Plan>, negative: Boxed<Plan>) -> Plan
    ensures { result ≡ plan_of.If test positive negative }
{
    Plan::If(test, positive, negative)
}

/// The plan of an expression, as a part of another plan.
#[cycle(direct)]
fn boxed(alloc: Global, expr: Boxed<Expr>) -> Result<Boxed<Plan>, Want>
    ensures same { IfOk result (λ plan. IsDirect expr plan) }
    ensures want { IfErr result (λ want. want ≡ Memory) }
{
    let plan = direct(alloc, expr.into_inner())?;
    Ok(Boxed::new(alloc, plan)?)
}

/// The plans of the expressions, made from the last to the first, since the last is taken off at
/// no cost.
#[cycle(direct)]
fn each(alloc: Global, exprs: Items<Expr>) -> Result<Items<Plan>, Want>
    ensures same { IfOk result (λ plans. AreDirect exprs plans) }
    ensures want { IfErr result (λ want. want ≡ Memory) }
{
    let mut left = exprs;
    let mut plans = Vec::with_capacity(alloc, left.len())?;
    while let Some(expr) = left.pop() {
        let plan = direct(alloc, expr)?;
        plans.push(plan)?;
    }
    plans.reverse();
    Ok(Items::from_vec(plans))
}

/// The plan of the name of a constructed node.
#[cycle(direct)]
fn constructor_name(alloc: Global, name: ConstructorName) -> Result<Boxed<Plan>, Want>
    ensures same { IfOk result (λ plan. NamesDirectly name plan) }
    ensures want { IfErr result (λ want. want ≡ Memory) }
{
    match name {
        ConstructorName::Literal(name) => Ok(Boxed::new(alloc, Plan::Str(name.local))?),
        ConstructorName::Computed(expr) => boxed(alloc, expr),
    }
}

/// The plan of an expression by way of its normal form.
fn by_normal_form(alloc: Global, expr: &Expr) -> Result<Plan, Want>
    ensures same { IfOk result (λ plan. IsDirect expr.now plan) }
    ensures scans { IfOk result (λ plan. ScansItsDocument expr.now plan) }
    ensures want { IfErr result (λ want. want ≡ Memory) }
{
    let core = normalise(alloc, expr)?;
    planned(alloc, core)
}

/// A plan of the normal form in a form that is evaluated fast. The normal form is let go here: its
/// parts are dropped in one place.
fn planned(alloc: Global, core: Core) -> Result<Plan, Want>
    ensures same { IfOk result (λ plan. IsPlan [] core plan) }
    ensures scans { IfOk result (λ plan. ScansDocument core plan) }
    ensures want { IfErr result (λ want. want ≡ Memory) }
{
    let made = plan(alloc, &core)?;
    optimise(alloc, made)
}
