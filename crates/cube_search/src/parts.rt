//! The parts of a flat cube that no definition and no row joins. They are only proposed here: whatever is taken for a part,
//! what refutes it refutes the cube.

use flat_cubes::Flat;
use std::alloc::{AllocError, Global};
use sv_linear::Row;
use sv_list::{Items, at};

/// The most parts of a cube that are answered apart. Each is a copy as wide as the cube.
const MOST_PARTS: usize = 64;

/// The root of each variable's part, and whether the part has a definition or a row.
pub struct Parts {
    parents: Items<usize>,
    joined: Items<bool>,
}

impl Drop for Parts {
    fn drop(self) {
        let Self {
            parents: _,
            joined: _,
        } = self;
    }
}

impl Parts {
    /// The parts of the cube, by a union of what each definition and each row joins. Nearly linear in the cube.
    pub fn of(alloc: Global, flat: &Flat) -> Result<Parts, AllocError> {
        let mut parts = Parts {
            parents: Items::new(alloc),
            joined: Items::new(alloc),
        };
        for v in 0..flat.variables.len().saturating_add(flat.integers.len()) {
            parts.parents.push(v)?;
            parts.joined.push(false)?;
        }
        for definition in flat.definitions.as_slice() {
            parts.join_all(definition.variable, definition.by.uses());
        }
        for row in flat.rows.as_slice() {
            parts.join_row(flat, row);
        }
        parts.mark_joined(flat);
        Ok(parts)
    }

    /// The roots of the parts that have a definition or a row; none where there is one such part, or where there are too
    /// many. Linear in the variables.
    pub fn roots(&self, alloc: Global) -> Result<Items<usize>, AllocError> {
        let mut roots = Items::new(alloc);
        for v in 0..self.joined.len() {
            if self.joined.as_slice()[v] {
                roots.push(v)?;
            }
        }
        if roots.len() < 2 || roots.len() > MOST_PARTS {
            roots.truncate(0);
        }
        Ok(roots)
    }

    /// The variables of the part with this root, marked by their numbers. Linear in the variables.
    pub fn marks(&self, alloc: Global, part: usize) -> Result<Items<bool>, AllocError> {
        let mut marks = Items::new(alloc);
        for v in 0..self.parents.len() {
            marks.push(self.root(v) == part)?;
        }
        Ok(marks)
    }

    // The node above this one, itself at a root.
    fn parent(&self, v: usize) -> usize {
        match at(self.parents.as_slice(), v) {
            None => v,
            Some(parent) => *parent,
        }
    }

    fn root(&self, v: usize) -> usize {
        let mut node = v;
        for _step in 0..self.parents.len() {
            let above = self.parent(node);
            if above == node {
                return node;
            }
            node = above;
        }
        node
    }

    fn put(&mut self, v: usize, root: usize) {
        if v < self.parents.len() {
            self.parents.set(v, root);
        }
    }

    // Joins the parts of two nodes, and puts both below the lesser root.
    fn join(&mut self, one: usize, other: usize) {
        let first = self.root(one);
        let second = self.root(other);
        let root = first.min(second);
        self.put(first, root);
        self.put(second, root);
        self.put(one, root);
        self.put(other, root);
    }

    fn join_all(&mut self, variable: u32, uses: &[u32]) {
        for used in uses {
            self.join(variable as usize, *used as usize);
        }
    }

    fn join_row(&mut self, flat: &Flat, row: &Row) {
        let terms = row.form.coefficients.as_slice();
        for term in terms {
            self.join(node_of(flat, terms[0].0), node_of(flat, term.0));
        }
    }

    fn mark(&mut self, v: usize) {
        let root = self.root(v);
        if root < self.joined.len() {
            self.joined.set(root, true);
        }
    }

    fn mark_joined(&mut self, flat: &Flat) {
        for definition in flat.definitions.as_slice() {
            self.mark(definition.variable as usize);
        }
        for row in flat.rows.as_slice() {
            for term in row.form.coefficients.as_slice() {
                self.mark(node_of(flat, term.0));
            }
        }
    }
}

/// The node of an unknown: the variable of a register, or an integer constant after all variables.
pub fn node_of(flat: &Flat, unknown: u32) -> usize {
    let integers = flat.integers.len();
    let place = unknown as usize;
    if place < integers {
        return flat.variables.len().saturating_add(place);
    }
    match at(flat.registers.as_slice(), place - integers) {
        None => 0,
        Some(variable) => *variable as usize,
    }
}
