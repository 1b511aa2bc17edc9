//! The rows which say that counts balance at each state.
ghost use Rattle.std.specs.Prelude.{◌≡◌, ◌≢◌, ℕ, ◌+◌, ◌<◌, ◌^◌, pos, [], ◌∷◌, length, map, slice_get, Some, All, IfOk, OnOk};
ghost use Rattle.std.specs.List.{range_with_len};
ghost use Rattle.sv_linear.specs.Points.{unit};
ghost use Rattle.sv_linear.specs.Terms.{AscendsWithin};
ghost use Rattle.sv_linear.specs.declared.form.Form.{Form};
ghost use Rattle.machine_core.specs.declared.edge.Edge.{Edge};
ghost use Rattle.machine_core.specs.declared.end.End.{End};
ghost use Rattle.parikh_flow.specs.Counts.{size_of};
ghost use Rattle.parikh_flow.specs.Rows.{terms_by, edge_balance, end_balance, state_row, AreSameRows};
ghost use Rattle.parikh_flow.specs.Building.{IsTermAdded, AreAdded, AreOpened, AreStateForms, equation_row};

use crate::sizes::end_base;
use machine_core::{Edge, End, Explicit};
use std::alloc::{AllocError, Global};
use sv_linear::{Form, Row, RowKind};
use sv_list::Items;

// Adds a term to the form at this place.
fn push_at(
    forms: &mut Vec<Form>,
    at: u32,
    unknown: u32,
    coefficient: i128,
) -> Result<(), AllocError>
    requires at { at < length forms.old.items }
    requires last { (f : Form) → slice_get forms.old.items at ≡ Some f → AscendsWithin 0 unknown f.coefficients }
    requires not_zero { coefficient ≢ pos 0 }
    ensures { OnOk result (IsTermAdded at unknown coefficient forms.old.items forms.new.items) }
{
    forms[at as usize].push(unknown, coefficient)?;
    Ok(())
}

// Adds the count of an edge to the forms of its states. A loop adds nothing.
fn push_edge(forms: &mut Vec<Form>, edge: &Edge, unknown: u32) -> Result<(), AllocError>
    requires from { edge.now.from < length forms.old.items }
    requires to { edge.now.to < length forms.old.items }
    requires ascend { (s : ℕ) (f : Form) → slice_get forms.old.items s ≡ Some f → AscendsWithin 0 unknown f.coefficients }
    ensures { OnOk result (AreAdded (λ s. (unknown, edge_balance s edge.now) ∷ []) (unknown + 1) forms.old.items forms.new.items) }
{
    if edge.from == edge.to {
        return Ok(());
    }
    push_at(forms, edge.to, unknown, 1)?;
    push_at(forms, edge.from, unknown, -1)?;
    Ok(())
}

// Adds the counts of the edges, whose unknowns begin at `base`.
fn push_edges(forms: &mut Vec<Form>, edges: &[Edge], base: u32) -> Result<(), AllocError>
    requires states { All (λ e. (e.from < length forms.old.items) × (e.to < length forms.old.items)) edges.now }
    requires room { base + length edges.now < 2 ^ 32 }
    requires ascend { (s : ℕ) (f : Form) → slice_get forms.old.items s ≡ Some f → AscendsWithin 0 base f.coefficients }
    ensures { OnOk result (AreAdded (λ s. terms_by (edge_balance s) base edges.now) (base + length edges.now) forms.old.items forms.new.items) }
{
    let mut unknown = base;
    for edge in edges {
        push_edge(forms, edge, unknown)?;
        unknown += 1;
    }
    Ok(())
}

// Adds the counts of the ends, whose unknowns begin at `base`.
fn push_ends(forms: &mut Vec<Form>, ends: &[End], base: u32) -> Result<(), AllocError>
    requires states { All (λ e. e.at < length forms.old.items) ends.now }
    requires room { base + length ends.now < 2 ^ 32 }
    requires ascend { (s : ℕ) (f : Form) → slice_get forms.old.items s ≡ Some f → AscendsWithin 0 base f.coefficients }
    ensures { OnOk result (AreAdded (λ s. terms_by (end_balance s) base ends.now) (base + length ends.now) forms.old.items forms.new.items) }
{
    let mut unknown = base;
    for end in ends {
        push_at(forms, end.at, unknown, -1)?;
        unknown += 1;
    }
    Ok(())
}

// What comes in at a state beside the edges: 1 at the start.
fn entry_count(state: u32) -> i128
    ensures { result ≡ unit state 0 }
{
    if state == 0 { 1 } else { 0 }
}

// The form of each state, without edges and ends.
fn opened_forms(alloc: Global, states: u32) -> Result<Vec<Form>, AllocError>
    ensures { IfOk result (λ forms. AreOpened states forms.items) }
{
    let mut forms = Vec::new(alloc);
    for state in 0..states {
        forms.push(Form::of_constant(alloc, entry_count(state)))?;
    }
    Ok(forms)
}

// The form of each state: what comes in without what goes out and what ends there.
fn state_forms(alloc: Global, machine: &Explicit, base: u32) -> Result<Vec<Form>, AllocError>
    requires { base + size_of machine.now < 2 ^ 32 }
    ensures { IfOk result (λ forms. AreStateForms base machine.now forms.items) }
{
    let mut forms = opened_forms(alloc, machine.states())?;
    push_edges(&mut forms, machine.edges(), base)?;
    push_ends(&mut forms, machine.finals(), end_base(machine, base))?;
    Ok(forms)
}

// The rows that say that each form is 0.
fn equation_rows(alloc: Global, forms: Vec<Form>) -> Result<Items<Row>, AllocError>
    ensures { IfOk result (λ rows. rows ≡ map equation_row forms.items) }
{
    let mut rows = Items::new(alloc);
    for form in forms {
        rows.push(Row {
            form,
            kind: RowKind::Eq,
        })?;
    }
    Ok(rows)
}

/// The row of each state, in their order. Linear in the machine.
pub fn state_rows(alloc: Global, machine: &Explicit, base: u32) -> Result<Items<Row>, AllocError>
    requires { base + size_of machine.now < 2 ^ 32 }
    ensures { IfOk result (λ rows. AreSameRows rows (map (state_row base machine.now) (range_with_len 0 machine.now.states))) }
{
    let forms = state_forms(alloc, machine, base)?;
    equation_rows(alloc, forms)
}
