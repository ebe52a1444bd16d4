//! Whole revisions for viewers who never wait.
//!
//! One writer publishes revisions of eight words, numbered from 0. Any number of viewers read them: each gets all eight
//! words of one revision, never an older one than it has seen, and no call waits for another thread. What is shared is a
//! table of 33 words: the number of the last revision, and four banks of eight words. Revision n stands in bank n modulo 4.
//!
//! A viewer loads the number n, the eight words of n's bank, and the number again. The bank is first overwritten when the
//! writer begins revision n + 4, hence after it has stored the number n + 3. So where the number has moved by two at most,
//! no word was overwritten, and the words are whole.
//!
//! Beside it stands the exact count of one session (`count.rt`), over a table of one word.
#![tactic(auto)]

mod count;
mod names;
mod no_memory;
mod publisher;
mod rule;
mod seats;
mod steps;
mod view;
mod words;

pub use count::{Half, Tally};
pub use names::Naming;
pub use no_memory::NoMemory;
pub use publisher::Publisher;
pub use seats::{Overtaken, Revision, Told, ViewerSeat, WriterSeat};
pub use view::Published;
pub use words::REVISION_WORDS;
