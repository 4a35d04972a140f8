// How many labels, free names, terms and constraints a sheet has. (That they are within the limits is a fact of the types
// that hold them, so that anyone may write such numbers.)
#[derive(Clone, Copy)]
pub struct Sizes {
    pub labels: u8,
    pub free: u8,
    pub terms: u8,
    pub constraints: u8,
}
