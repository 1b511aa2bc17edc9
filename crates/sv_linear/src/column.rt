/// A column of a form: that of an unknown, or that of the constant, which comes after all unknowns.
#[derive(Clone, Copy, Debug)]
pub enum Column {
    Unknown(u32),
    Constant,
}
