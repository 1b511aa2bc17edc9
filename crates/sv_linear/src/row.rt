use crate::form::Form;
use std::alloc::{AllocError, Global};
use sv_list::Copied;

/// What a row says of its form.
#[derive(Clone, Copy, Debug)]
pub enum RowKind {
    /// The form is at most 0.
    Le,
    /// The form is 0.
    Eq,
}

/// A linear constraint: a form that is to be at most 0, or 0.
#[derive(Debug, Drop)]
pub struct Row {
    pub form: Form,
    pub kind: RowKind,
}

impl Copied for Row {
    fn copy(&self, alloc: Global) -> Result<Row, AllocError> {
        Ok(Row {
            form: self.form.copy(alloc)?,
            kind: self.kind,
        })
    }
}
