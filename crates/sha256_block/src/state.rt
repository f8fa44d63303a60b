// Eight words: the working variables of a block's rounds, or a hash value, whose words H_0 to H_7 are a to h.
#[derive(Clone, Copy)]
pub struct State {
    pub a: u32,
    pub b: u32,
    pub c: u32,
    pub d: u32,
    pub e: u32,
    pub f: u32,
    pub g: u32,
    pub h: u32,
}
