// A pair of a layer of renames: the old code means what the new one means below.
#[derive(Clone, Copy, Default)]
pub struct Pair {
    pub old: u32,
    pub new: u32,
}
