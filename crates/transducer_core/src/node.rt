use sv_list::Items;

/// What may be written from here on: a character and then what may be written from the node at a
/// place, and nothing more where `ends`.
#[derive(Drop)]
pub struct OutputNode {
    pub firsts: Items<(u32, u32)>,
    pub ends: bool,
}
