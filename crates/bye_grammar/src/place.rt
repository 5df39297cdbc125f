/// Where a FILTER stands: in the outermost group, or in the group of an OPTIONAL, where it is a conjunction of plain
/// conditions.
#[derive(Debug, Copy, Clone)]
pub enum Place {
    Outer,
    Inner,
}
