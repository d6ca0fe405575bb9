//! Equations taken one by one. What is known of variables stands for the equations so far: the same terms agree with both.
ghost use Rattle.std.specs.Prelude.{◌≡◌, ◌≢◌, ℕ, ◌+◌, ◌<◌, ◌≤◌, [], length, IfOk, OnOk};
ghost use Rattle.std.specs.Bool.{OnTrue};
ghost use Rattle.std.specs.List.{AllByRecursion};
ghost use Rattle.type_infer.specs.Terms.{Term, replaced};
ghost use Rattle.type_infer.specs.Forms.{form_term, term_equation, IsFormOf, IsEquationOf};
ghost use Rattle.type_infer.specs.Equations.{IsEqualOf};
ghost use Rattle.type_infer.specs.Links.{Agree, IsJoined, Satisfy, AreLinks, AreJoins, IsTable, IsRoot, root_count, Finds};

use crate::equation::Equation;
use crate::form::Form;
use crate::link::{Join, Link, find};
use text_parts::NoMemory;

// Whether two forms can be the same, and what is to be joined for that.
fn join_forms(left: Form, right: Form, joins: &mut Vec<Join>) -> Result<bool, NoMemory>
    ensures found { IfOk result (λ found. Finds found
        (λ terms. AllByRecursion (IsJoined terms) joins.old.items × (replaced terms (form_term left) ≡ replaced terms (form_term right)))
        (λ terms. AllByRecursion (IsJoined terms) joins.new.items)) }
    ensures joins { (variables : ℕ) → IsFormOf variables left → IsFormOf variables right
        → AreJoins variables joins.old.items → AreJoins variables joins.new.items }
    ensures few { length joins.new.items ≤ length joins.old.items + 2 }
{
    match (left, right) {
        (Form::Num, Form::Num) | (Form::Boolean, Form::Boolean) => Ok(true),
        (Form::Pair(former, a, b), Form::Pair(other, c, d)) if former == other => {
            joins.push(Join { left: a, right: c })?;
            joins.push(Join { left: b, right: d })?;
            Ok(true)
        }
        _ => Ok(false),
    }
}

// Whether a root can have a form.
fn form_root(
    links: &mut Vec<Link>,
    joins: &mut Vec<Join>,
    root: u32,
    form: Form,
) -> Result<bool, NoMemory>
    requires table { IsTable links.old.items joins.old.items }
    requires within { root < length links.old.items }
    requires root { IsRoot links.old.items root }
    requires form { IsFormOf (length links.old.items) form }
    ensures found { IfOk result (λ found. Finds found
        (λ terms. Satisfy terms links.old.items joins.old.items × (terms root ≡ replaced terms (form_term form)))
        (λ terms. Satisfy terms links.new.items joins.new.items)) }
    ensures table { IsTable links.new.items joins.new.items }
    ensures count { length links.new.items ≡ length links.old.items }
    ensures roots { root_count links.new.items ≡ root_count links.old.items }
    ensures few { length joins.new.items ≤ length joins.old.items + 2 }
{
    match links[root as usize] {
        Link::Free => {
            links[root as usize] = Link::Formed(form);
            Ok(true)
        }
        Link::Formed(had) => join_forms(had, form, joins),
        Link::Same(_) => unreachable!(),
    }
}

// Whether two roots can be the same.
fn join_roots(
    links: &mut Vec<Link>,
    joins: &mut Vec<Join>,
    left: u32,
    right: u32,
) -> Result<bool, NoMemory>
    requires table { IsTable links.old.items joins.old.items }
    requires left { left < length links.old.items }
    requires right { right < length links.old.items }
    requires left_root { IsRoot links.old.items left }
    requires right_root { IsRoot links.old.items right }
    requires differ { left ≢ right }
    ensures found { IfOk result (λ found. Finds found
        (λ terms. Satisfy terms links.old.items joins.old.items × (terms left ≡ terms right))
        (λ terms. Satisfy terms links.new.items joins.new.items)) }
    ensures table { IsTable links.new.items joins.new.items }
    ensures count { length links.new.items ≡ length links.old.items }
    ensures roots { root_count links.new.items + 1 ≡ root_count links.old.items }
    ensures few { length joins.new.items ≤ length joins.old.items + 2 }
{
    if left < right {
        link_root(links, joins, left, right)
    } else {
        link_root(links, joins, right, left)
    }
}

// The same, where the first comes before the second.
fn link_root(
    links: &mut Vec<Link>,
    joins: &mut Vec<Join>,
    low: u32,
    high: u32,
) -> Result<bool, NoMemory>
    requires table { IsTable links.old.items joins.old.items }
    requires high { high < length links.old.items }
    requires low_root { IsRoot links.old.items low }
    requires high_root { IsRoot links.old.items high }
    requires order { low < high }
    ensures found { IfOk result (λ found. Finds found
        (λ terms. Satisfy terms links.old.items joins.old.items × (terms low ≡ terms high))
        (λ terms. Satisfy terms links.new.items joins.new.items)) }
    ensures table { IsTable links.new.items joins.new.items }
    ensures count { length links.new.items ≡ length links.old.items }
    ensures roots { root_count links.new.items + 1 ≡ root_count links.old.items }
    ensures few { length joins.new.items ≤ length joins.old.items + 2 }
{
    let had = links[high as usize];
    links[high as usize] = Link::Same(low);
    match had {
        Link::Formed(form) => form_root(links, joins, low, form),
        _ => Ok(true),
    }
}

// Whether all that is to be joined can be.
fn join_all(links: &mut Vec<Link>, joins: &mut Vec<Join>) -> Result<bool, NoMemory>
    requires { IsTable links.old.items joins.old.items }
    ensures found { IfOk result (λ found. Finds found (λ terms. Satisfy terms links.old.items joins.old.items) (λ terms. Agree terms links.new.items)) }
    ensures links { AreLinks links.new.items }
    ensures count { length links.new.items ≡ length links.old.items }
    ensures none_left { IfOk result (λ found. OnTrue found (joins.new.items ≡ [])) }
{
    while let Some(join) = joins.pop() {
        let left = find(links, join.left);
        let right = find(links, join.right);
        if left != right && !join_roots(links, joins, left, right)? {
            return Ok(false);
        }
    }
    Ok(true)
}

// Whether a variable can have a form beside what is known.
fn add_form(
    links: &mut Vec<Link>,
    joins: &mut Vec<Join>,
    variable: u32,
    form: Form,
) -> Result<bool, NoMemory>
    requires links { AreLinks links.old.items }
    requires none_left { joins.old.items ≡ [] }
    requires variable { variable < length links.old.items }
    requires form { IsFormOf (length links.old.items) form }
    ensures found { IfOk result (λ found. Finds found
        (λ terms. Agree terms links.old.items × (terms variable ≡ replaced terms (form_term form)))
        (λ terms. Agree terms links.new.items)) }
    ensures links { AreLinks links.new.items }
    ensures count { length links.new.items ≡ length links.old.items }
    ensures none_left { IfOk result (λ found. OnTrue found (joins.new.items ≡ [])) }
{
    let root = find(links, variable);
    if !form_root(links, joins, root, form)? {
        return Ok(false);
    }
    join_all(links, joins)
}

/// Whether an equation can hold beside what is known, which is known with it from then on. No joins are left to be made before it and,
/// where it can hold, after it.
pub(crate) fn add(
    links: &mut Vec<Link>,
    joins: &mut Vec<Join>,
    equation: Equation,
) -> Result<bool, NoMemory>
    requires links { AreLinks links.old.items }
    requires none_left { joins.old.items ≡ [] }
    requires equation { IsEquationOf (length links.old.items) equation }
    ensures found { IfOk result (λ found. Finds found
        (λ terms. Agree terms links.old.items × IsEqualOf terms (term_equation equation))
        (λ terms. Agree terms links.new.items)) }
    ensures links { AreLinks links.new.items }
    ensures count { length links.new.items ≡ length links.old.items }
    ensures none_left { IfOk result (λ found. OnTrue found (joins.new.items ≡ [])) }
{
    match equation {
        Equation::Same(left, right) => {
            joins.push(Join { left, right })?;
            join_all(links, joins)
        }
        Equation::Formed(variable, form) => add_form(links, joins, variable, form),
    }
}
