// Why a place's path is not given.
// Absent: the list has no such place. Short: fewer links are lent than the path has.
#[derive(Clone, Copy, Debug, PartialEq, Eq)]
pub enum PathRefusal {
    Absent,
    Short,
}
