//! What callers post, and the results.

/// A period of 20 ms that a caller posts to a call.
#[derive(Clone, Copy, Drop)]
pub struct Post {
    /// Who posted it.
    pub caller: u32,
    /// Which of this caller's posts to the call it is, from 0.
    pub number: u32,
    /// The period's 40 octets of the Up line.
    pub up: [u8; 40],
    /// The period's 160 octets of the Pcm line.
    pub pcm: [u8; 160],
}

/// A post that was processed.
#[derive(Clone, Copy, Drop)]
pub struct Entry {
    /// What was posted.
    pub post: Post,
    /// The period's 160 octets of the Out line.
    pub out: [u8; 160],
    /// The period's 40 octets of the Down line.
    pub down: [u8; 40],
}

/// The call of a book, by its number, and how many posts may wait in its inbox.
#[derive(Clone, Copy, Drop)]
pub struct BookOf {
    /// The call's number, from 1.
    pub call: u32,
    /// How many posts may wait.
    pub room: u32,
}
