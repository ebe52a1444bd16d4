//! Which rules are taken from FreeBSD's kernel, as far as we know it, in place of the profile's.

ghost use Rattle.std.specs.Prelude.{◌≡◌, Some, IfSome};
ghost use Rattle.pfl_base.specs.Kernels as meant;

/// A rule of FreeBSD 13's kernel that can take the place of the profile's, by its word in lines.
#[derive(Clone, Copy, Debug, PartialEq, Eq)]
pub enum KernelWord {
    /// A segment without data is judged by what it acknowledges alone, and an end that was never heard begins (pf.c).
    Window,
    /// After a close, and where an end was not heard, more passes, and renews nothing (pf.c, "loose state match").
    Loose,
    /// Unless both ends of an update are stale, the destination is taken too (if_pfsync.c).
    Merge,
    /// What comes as an update has no rule (if_pfsync.c).
    Rule,
    /// A merge is a use now, and what is imported has the seconds left that the peer says, of the unscaled timeout (if_pfsync.c).
    Expiry,
    /// A RST has the number that is expected, or one beside it (pf.c, from 13.2-RELEASE-p7 on).
    Reset,
    /// The window of a SYN is kept in units of the scale that it offers (pf.c).
    Scale,
    /// A clear has no bound: all states of its creator go (if_pfsync.c).
    Clear,
    /// A state whose deletion is still to be announced may come back (if_pfsync.c).
    Revive,
    /// States of ICMP have no levels: they begin with none, and no packet moves them (pf.c).
    Icmp,
}

impl KernelWord {
    /// All words, in the order in which they are written.
    pub const ALL: [KernelWord; 10] = [
        KernelWord::Window,
        KernelWord::Loose,
        KernelWord::Merge,
        KernelWord::Rule,
        KernelWord::Expiry,
        KernelWord::Reset,
        KernelWord::Scale,
        KernelWord::Clear,
        KernelWord::Revive,
        KernelWord::Icmp,
    ];

    /// The word in lines, which no other rule has.
    pub fn word(self) -> &'static str
        ensures word { result.now ≡ meant.kernel_text self }
        ensures read_again { meant.kernel_at_word result.now ≡ Some self }
    {
        match self {
            KernelWord::Window => "window",
            KernelWord::Loose => "loose",
            KernelWord::Merge => "merge",
            KernelWord::Rule => "rule",
            KernelWord::Expiry => "expiry",
            KernelWord::Reset => "reset",
            KernelWord::Scale => "scale",
            KernelWord::Clear => "clear",
            KernelWord::Revive => "revive",
            KernelWord::Icmp => "icmp",
        }
    }

    /// The rule with the word, if there is one.
    pub fn of_word(word: &[u8]) -> Option<KernelWord>
        ensures found { result ≡ meant.kernel_at_word word.now }
        ensures word { IfSome result (λ rule. meant.kernel_text rule ≡ word.now) }
    {
        KernelWord::ALL
            .iter()
            .copied()
            .find(|rule| rule.word().as_bytes() == word)
    }
}

/// The rules that are the kernel's; each of the others is the profile's.
#[derive(Clone, Copy, Debug, PartialEq, Eq)]
pub struct Kernel {
    /// [`KernelWord::Window`].
    pub window: bool,
    /// [`KernelWord::Loose`].
    pub loose: bool,
    /// [`KernelWord::Merge`].
    pub merge: bool,
    /// [`KernelWord::Rule`].
    pub rule: bool,
    /// [`KernelWord::Expiry`].
    pub expiry: bool,
    /// [`KernelWord::Reset`].
    pub reset: bool,
    /// [`KernelWord::Scale`].
    pub scale: bool,
    /// [`KernelWord::Clear`].
    pub clear: bool,
    /// [`KernelWord::Revive`].
    pub revive: bool,
    /// [`KernelWord::Icmp`].
    pub icmp: bool,
}

impl Kernel {
    /// None: the profile.
    pub fn profile() -> Kernel
        ensures { result ≡ meant.profile }
    {
        Kernel {
            window: false,
            loose: false,
            merge: false,
            rule: false,
            expiry: false,
            reset: false,
            scale: false,
            clear: false,
            revive: false,
            icmp: false,
        }
    }

    /// All of them.
    pub fn all() -> Kernel
        ensures { result ≡ meant.every_rule }
    {
        Kernel {
            window: true,
            loose: true,
            merge: true,
            rule: true,
            expiry: true,
            reset: true,
            scale: true,
            clear: true,
            revive: true,
            icmp: true,
        }
    }

    /// With one rule more.
    pub fn with(self, rule: KernelWord) -> Kernel
        ensures { result ≡ meant.with_kernel_rule self rule }
    {
        let mut kernel = self;
        match rule {
            KernelWord::Window => kernel.window = true,
            KernelWord::Loose => kernel.loose = true,
            KernelWord::Merge => kernel.merge = true,
            KernelWord::Rule => kernel.rule = true,
            KernelWord::Expiry => kernel.expiry = true,
            KernelWord::Reset => kernel.reset = true,
            KernelWord::Scale => kernel.scale = true,
            KernelWord::Clear => kernel.clear = true,
            KernelWord::Revive => kernel.revive = true,
            KernelWord::Icmp => kernel.icmp = true,
        }
        kernel
    }

    /// The rules of either.
    pub fn union(self, other: Kernel) -> Kernel
        ensures { result ≡ meant.rules_of_either self other }
    {
        // (not `||`, which would make two ways of each line)
        Kernel {
            window: self.window | other.window,
            loose: self.loose | other.loose,
            merge: self.merge | other.merge,
            rule: self.rule | other.rule,
            expiry: self.expiry | other.expiry,
            reset: self.reset | other.reset,
            scale: self.scale | other.scale,
            clear: self.clear | other.clear,
            revive: self.revive | other.revive,
            icmp: self.icmp | other.icmp,
        }
    }
}
