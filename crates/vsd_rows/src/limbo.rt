//! Rows in limbo.
/// A row that nothing names any more, with the epoch that was loaded when it was retired. It is
/// free again once no caller is pinned at that epoch or before.
#[derive(Clone, Copy, PartialEq, Eq, Debug, Default)]
pub struct Limbo {
    pub row: u16,
    pub epoch: u64,
}
