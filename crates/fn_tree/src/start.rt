/// What a mutation's run knows besides its function and arguments: the session, the number of the
/// request, and the moment that it is to see, in milliseconds.
#[derive(Clone, Copy, Debug, PartialEq, Eq)]
pub struct Origin {
    pub session: u128,
    pub request: u32,
    pub now: i64,
}
