// A model that is looked at: n and m as a call is told them, and its numbers. What changes a model takes each buffer
// apart: the borrow checker covers no struct of several lent buffers that is lent in turn.
#[derive(Clone, Copy)]
pub struct Model<'a> {
    pub n: usize,
    pub m: usize,
    pub bounds: &'a [i32],
    pub coefs: &'a [i32],
    pub rhs: &'a [i32],
    pub kinds: &'a [u8],
    pub table: &'a [u8],
}
