// Two racks: the units below a number are the left one's, the others the right one's.
#[derive(Drop)]
pub struct SideBySide<L, R> {
    pub(crate) left: L,
    pub(crate) right: R,
    pub(crate) split: u8,
}
