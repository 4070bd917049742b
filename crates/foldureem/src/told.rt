// What C is told.

// The number, layer and place of the question that got a no, all 0 where the proposal is taken; and how many bytes of the
// listing were written. Where there was no memory, the number is one that no question has.
#[repr(C)]
#[derive(Clone, Copy, PartialEq, Eq, Debug)]
pub struct FoldureemVerdict {
    pub number: u32,
    pub layer: u32,
    pub place: u64,
    pub length: u64,
}
