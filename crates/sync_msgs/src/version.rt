/// What a client has been told of: its query set, its identity, which is always 0, and the timestamp at
/// which its results stand.
#[derive(Clone, Copy, Debug, PartialEq, Eq)]
pub struct Version {
    pub query_set: u32,
    pub identity: u32,
    pub ts: u64,
}
