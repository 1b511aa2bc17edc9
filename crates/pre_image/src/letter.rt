/// What an edge of a transducer writes at one place.
#[derive(Clone, Copy)]
pub enum Letter {
    /// This character.
    Fixed(u32),
    /// The character that was read, moved by a number; nothing where that leaves the characters.
    Moved(i32),
}
