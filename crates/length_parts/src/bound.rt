/// What a row says of a length.
#[derive(Clone, Copy)]
pub enum LengthBound {
    AtMost(u32),
    AtLeast(u32),
    Exactly(u32),
}
