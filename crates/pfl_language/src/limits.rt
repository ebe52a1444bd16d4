//! The limits of a node and of the link.

ghost use Rattle.std.specs.Prelude.{◌≡◌, ◌≤◌, nat_lt, IfSome};
ghost use Rattle.std.specs.List.{list_any};
ghost use Rattle.pfl_language.specs.Limits as meant;

use pfl_base::{GREATEST_NUMBER, Kernel};
use pfl_rules::Adaptive;

/// A limit, by name.
#[derive(Clone, Copy, Debug, PartialEq, Eq)]
pub enum Limit {
    States,
    Queue,
    Frames,
    Mtu,
    Held,
    Defer,
    DeferMs,
    MaxUpdates,
    Batch,
    BulkMs,
    AdaptiveStart,
    AdaptiveEnd,
}

impl Limit {
    /// All limits.
    pub const ALL: [Limit; 12] = [
        Limit::States,
        Limit::Queue,
        Limit::Frames,
        Limit::Mtu,
        Limit::Held,
        Limit::Defer,
        Limit::DeferMs,
        Limit::MaxUpdates,
        Limit::Batch,
        Limit::BulkMs,
        Limit::AdaptiveStart,
        Limit::AdaptiveEnd,
    ];

    /// The limit's word in lines, which no other limit has.
    pub fn word(self) -> &'static str
        ensures word { result.now ≡ meant.limit_text self }
        ensures read_again { meant.limit_at_word result.now ≡ Some self }
    {
        match self {
            Limit::States => "states",
            Limit::Queue => "queue",
            Limit::Frames => "frames",
            Limit::Mtu => "mtu",
            Limit::Held => "held",
            Limit::Defer => "defer",
            Limit::DeferMs => "defer_ms",
            Limit::MaxUpdates => "maxupd",
            Limit::Batch => "batch",
            Limit::BulkMs => "bulk_ms",
            Limit::AdaptiveStart => "astart",
            Limit::AdaptiveEnd => "aend",
        }
    }

    /// The limit with the word, if there is one.
    pub fn of_word(word: &[u8]) -> Option<Limit>
        ensures found { result ≡ meant.limit_at_word word.now }
        ensures word { IfSome result (λ limit. meant.limit_text limit ≡ word.now) }
    {
        Limit::ALL
            .iter()
            .copied()
            .find(|limit| limit.word().as_bytes() == word)
    }

    /// The least and the greatest value; `defer` is 0 or 1, for no and yes.
    pub fn range(self) -> (u32, u32)
        ensures { result ≡ meant.range self }
    {
        match self {
            Limit::States | Limit::Queue => (1, 65536),
            Limit::Frames => (1, 4096),
            Limit::Mtu => (148, 9000),
            Limit::Held => (1, 128),
            Limit::Defer => (0, 1),
            Limit::DeferMs => (1, 10000),
            Limit::MaxUpdates => (1, 255),
            Limit::Batch => (1, 256),
            Limit::BulkMs => (1, 60000),
            Limit::AdaptiveStart | Limit::AdaptiveEnd => (0, 131072),
        }
    }

    /// The value, with the least and the greatest that the limit may have.
    fn ranged(self, n: u32) -> (u32, u32, u32)
        ensures { result ≡ meant.ranged self n }
    {
        let (least, greatest) = self.range();
        (n, least, greatest)
    }

    /// The greatest number that a line may say for the limit. A number of 32 bits beyond its range is reported once all limits
    /// are set, but for `defer`.
    pub fn greatest_said(self) -> u64
        ensures exact { result ≡ meant.greatest_said self }
        ensures within { result ≤ 4294967295 }
    {
        match self {
            Limit::Defer => 1,
            _ => GREATEST_NUMBER,
        }
    }
}

/// Why limits are none.
#[derive(Clone, Copy, Debug, PartialEq, Eq)]
pub enum LimitFault {
    /// A limit is below its range.
    TooSmall,
    /// A limit is above its range, and none is below its own.
    TooLarge,
}

/// The limits of a node and of the link, and which rules are the kernel's. Times are in milliseconds.
#[derive(Clone, Copy, Debug, PartialEq, Eq)]
pub struct Limits {
    /// How many states a node holds.
    pub states: u32,
    /// How much may be pending at a node.
    pub queue: u32,
    /// How many frames are in flight.
    pub frames: u32,
    /// How many bytes a frame has at most.
    pub mtu: u32,
    /// How many packets a node holds back.
    pub held: u32,
    /// Whether first packets are held until the peer knows of their states.
    pub defer: bool,
    /// How long one is held.
    pub defer_ms: u32,
    /// After how many updates of a state a frame is wanted soon.
    pub maxupd: u32,
    /// How many states a turn of a bulk update queues.
    pub batch: u32,
    /// How long a client waits before it asks again.
    pub bulk_ms: u32,
    /// Above how many states timeouts shrink (pf.conf(5), `adaptive.start`). `None`: three fifths of `states`.
    pub astart: Option<u32>,
    /// From how many states on they are 0 (pf.conf(5), `adaptive.end`). `None`: six fifths of `states`.
    pub aend: Option<u32>,
    /// Which rules of packets and of the peer's records are the kernel's, at both nodes.
    pub kernel: Kernel,
}

impl Default for Limits {
    fn default() -> Limits
        ensures { result ≡ meant.default_limits }
    {
        Limits {
            states: 64,
            queue: 256,
            frames: 64,
            mtu: 1500,
            held: 128,
            defer: false,
            defer_ms: 20,
            maxupd: 128,
            batch: 16,
            bulk_ms: 10000,
            astart: None,
            aend: None,
            kernel: Kernel::profile(),
        }
    }
}

impl Limits {
    /// The limits with this value of one.
    pub fn with(self, limit: Limit, n: u32) -> Limits
        ensures { result ≡ meant.with_limit self limit n }
    {
        let mut limits = self;
        match limit {
            Limit::States => limits.states = n,
            Limit::Queue => limits.queue = n,
            Limit::Frames => limits.frames = n,
            Limit::Mtu => limits.mtu = n,
            Limit::Held => limits.held = n,
            Limit::Defer => limits.defer = n != 0,
            Limit::DeferMs => limits.defer_ms = n,
            Limit::MaxUpdates => limits.maxupd = n,
            Limit::Batch => limits.batch = n,
            Limit::BulkMs => limits.bulk_ms = n,
            Limit::AdaptiveStart => limits.astart = Some(n),
            Limit::AdaptiveEnd => limits.aend = Some(n),
        }
        limits
    }

    /// The limits with these rules of the kernel besides.
    pub fn with_kernel(self, kernel: Kernel) -> Limits
        ensures { result ≡ meant.with_kernel self kernel }
    {
        Limits {
            kernel: self.kernel.union(kernel),
            ..self
        }
    }

    /// Why these limits are none, if there is a reason: any that is too small comes before any that is too large.
    pub fn fault(&self) -> Option<LimitFault>
        ensures { result ≡ meant.limit_fault self.now }
    {
        let ranges = self.ranges();
        if any_too_small(&ranges) {
            Some(LimitFault::TooSmall)
        } else if any_too_large(&ranges) {
            Some(LimitFault::TooLarge)
        } else {
            None
        }
    }

    /// The numbers of states between which timeouts shrink (pf.conf(5)); where they are not set, three and six fifths of the limit
    /// `states`, truncated.
    pub fn adaptive(&self) -> Adaptive
        requires limits { meant.AreLimits self.now }
        ensures { result ≡ meant.adaptive self.now }
    {
        Adaptive {
            start: self.astart.unwrap_or(self.states * 3 / 5),
            end: self.aend.unwrap_or(self.states * 6 / 5),
        }
    }

    /// Each limit that is a number, with its least and its greatest value; one that is not set counts as 0.
    fn ranges(&self) -> [(u32, u32, u32); 11]
        ensures { result ≡ meant.ranges self.now }
    {
        [
            Limit::States.ranged(self.states),
            Limit::Queue.ranged(self.queue),
            Limit::Frames.ranged(self.frames),
            Limit::Mtu.ranged(self.mtu),
            Limit::Held.ranged(self.held),
            Limit::DeferMs.ranged(self.defer_ms),
            Limit::MaxUpdates.ranged(self.maxupd),
            Limit::Batch.ranged(self.batch),
            Limit::BulkMs.ranged(self.bulk_ms),
            Limit::AdaptiveStart.ranged(self.astart.unwrap_or(0)),
            Limit::AdaptiveEnd.ranged(self.aend.unwrap_or(0)),
        ]
    }
}

/// A value is below its least.
fn any_too_small(ranges: &[(u32, u32, u32)]) -> bool
    ensures { result ≡ list_any (λ r. nat_lt r.0 r.1) ranges.now }
{
    ranges.iter().any(|range| range.0 < range.1)
}

/// A value is above its greatest.
fn any_too_large(ranges: &[(u32, u32, u32)]) -> bool
    ensures { result ≡ list_any (λ r. nat_lt r.2 r.0) ranges.now }
{
    ranges.iter().any(|range| range.2 < range.0)
}
