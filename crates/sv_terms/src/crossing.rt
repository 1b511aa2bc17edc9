/// Takes a type whose values may go to another thread and be shared by threads. A call for each
/// such type of this crate asks for both proofs here.
pub(crate) fn crosses<T: Send + Sync>() {}
